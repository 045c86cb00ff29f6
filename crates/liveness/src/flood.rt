//! Where one comes from some blocks over edges.
ghost use Rattle.std.specs.Prelude.{◌≡◌, ◌<◌, ◌⊎◌, ◌↔◌, ℕ, [], true, length, get_or, IfOk, OnOk, slice_get};
ghost use Rattle.liveness.specs.Paths.{is_among};
ghost use Rattle.liveness.specs.Rising.{next_from, has, AreAtMost};
ghost use Rattle.liveness.specs.Places.{is_below, lets, lets_by};
ghost use Rattle.liveness.specs.Flood.{Comes, entered, onto};

use crate::places::{Span, Touches};
use crate::rising::{Rising, mark};
use value_core::{Many, Memory};

/// The first number of a row that is not below a bound.
pub(crate) fn next_in(rows: &[Rising], t: usize, bound: usize) -> Option<usize>
    ensures { result ≡ next_from (get_or rows.now t []) bound }
{
    match rows.get(t) {
        Some(row) => row.next_from(bound),
        None => None,
    }
}

/// Whether there is a number, and below a bound.
pub(crate) fn is_before(number: Option<usize>, bound: usize) -> bool
    ensures { result ≡ is_below number bound }
{
    match number {
        Some(number) => number < bound,
        None => false,
    }
}

/// Whether a block has none of the places in a row.
pub(crate) fn lets_through(spans: &[Span], walls: &[Rising], key: usize, t: usize) -> bool
    ensures { result ≡ lets spans.now (get_or walls.now key []) t }
{
    match spans.get(t) {
        Some(span) => !is_before(next_in(walls, key, span.first), span.behind),
        None => true,
    }
}

/// The numbers of a row, which are none where there is no such row.
pub(crate) fn numbers_of(rows: &[Many<usize>], t: usize) -> &[usize]
    ensures { result.now ≡ get_or rows.now t [] }
{
    match rows.get(t) {
        Some(row) => row.as_slice(),
        None => &[],
    }
}

/// Where a walk stops at blocks that write the register which it is for: in front of them, behind them, or nowhere.
#[derive(Clone, Copy)]
pub(crate) enum Stop {
    Before,
    Behind,
    Nowhere,
}

/// Whether a block does not write a register.
fn lets_by(touches: &Touches, r: usize, t: usize) -> bool
    ensures { result ≡ lets_by touches.now r t }
{
    lets_through(touches.spans.as_slice(), touches.writes.as_slice(), r, t)
}

/// Whether a walk enters a block.
fn is_entered(touches: &Touches, stop: Stop, r: usize, t: usize) -> bool
    ensures { result ≡ entered stop (lets_by touches.now r) t }
{
    match stop {
        Stop::Before => lets_by(touches, r, t),
        Stop::Behind | Stop::Nowhere => true,
    }
}

/// The blocks that a walk goes on to from one.
fn onto<'a>(
    touches: &Touches,
    stop: Stop,
    edges: &'a [Many<usize>],
    r: usize,
    t: usize,
) -> &'a [usize]
    ensures { result.now ≡ onto stop (lets_by touches.now r) edges.now t }
{
    match stop {
        Stop::Before | Stop::Nowhere => numbers_of(edges, t),
        Stop::Behind => {
            if lets_by(touches, r, t) {
                numbers_of(edges, t)
            } else {
                &[]
            }
        }
    }
}

/// Marks with a register the blocks that one comes to, beginning with those in `work`, over edges, by a walk that stops so at
/// blocks that write the register. Blocks that are marked before have been left: where their edges end is in `work`.
pub(crate) fn flood(
    touches: &Touches,
    stop: Stop,
    edges: &[Many<usize>],
    rows: &mut [Rising],
    r: usize,
    mut work: Vec<usize>,
) -> Result<(), Memory>
    requires size { length edges.now ≡ length rows.old }
    requires most { AreAtMost r rows.old }
    requires waits { (b t : ℕ) → has rows.old r b ≡ true → is_among (get_or edges.now b []) t ≡ true → is_among work.items t ≡ true }
    ensures most { OnOk result (AreAtMost r rows.new) }
    ensures others { OnOk result ((n t : ℕ) → (n ≡ r → ⊥) → has rows.new n t ≡ has rows.old n t) }
    ensures comes { OnOk result ((t : ℕ) → t < length rows.old → (has rows.new r t ≡ true) ↔ ((has rows.old r t ≡ true) ⊎ Comes (onto stop (lets_by touches.now r) edges.now) (entered stop (lets_by touches.now r)) work.items t)) }
{
    while let Some(t) = work.pop() {
        if is_entered(touches, stop, r, t) && mark(rows, r, t)? {
            work.extend_from_slice(onto(touches, stop, edges, r, t))?;
        }
    }
    Ok(())
}
