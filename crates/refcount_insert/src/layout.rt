//! The blocks with their new numbers.
ghost use Rattle.std.specs.Prelude.{◌≡◌, ◌≤◌, ◌++◌, length, slice_get, IfOk, OnOk};
ghost use Rattle.refcount_insert.specs.Layout as spec;
ghost use Rattle.refcount_insert.specs.Layout.{numbers_from, number_at, detour_ops, detours_to, entry_of, end_at, all_laid};

use crate::detours::{Detour, Front};
use crate::plan::Planned;
use crate::sharing::EdgeCounts;
use ir_core::{Block, Last, Op, Reg};
use refcount_insert_counts::lay_ups;
use std::alloc::Global;
use value_core::{Many, Memory};

/// The new numbers of the blocks. It is want of memory where there is no number for a block.
fn numbers(alloc: Global, fronts: &[Front]) -> Result<Vec<usize>, Memory>
    ensures { IfOk result (λ numbers. numbers.items ≡ numbers_from 0 fronts.now) }
{
    let mut numbers = Vec::new(alloc);
    let mut next = 0usize;
    for front in fronts {
        let number = next.checked_add(front.detours.len()).ok_or(Memory)?;
        numbers.push(number)?;
        next = number.checked_add(1).ok_or(Memory)?;
    }
    Ok(numbers)
}

/// The number at a place.
fn number(numbers: &[usize], place: usize) -> usize
    ensures { result ≡ number_at numbers.now place }
{
    numbers.get(place).copied().unwrap_or(0)
}

/// Where the way of the counts at a place begins.
fn entry(fronts: &[Front], t: usize, place: usize) -> usize
    ensures { result ≡ entry_of (slice_get fronts.now t) place }
{
    if t < fronts.len() {
        number(fronts[t].entries.as_slice(), place)
    } else {
        0
    }
}

/// How far in front of its block an edge goes.
fn distance(fronts: &[Front], t: usize, place: Option<usize>) -> usize
    ensures { result ≡ spec.distance fronts.now t place }
{
    match place {
        Some(place) => entry(fronts, t, place),
        None => 0,
    }
}

/// Where an edge goes: to its target, or to a detour in front of it.
fn edge_to(numbers: &[usize], fronts: &[Front], t: usize, place: Option<usize>) -> usize
    ensures { result ≡ spec.edge_to (number_at numbers.now) fronts.now t place }
{
    number(numbers, t).saturating_sub(distance(fronts, t, place))
}

/// The end of a block.
fn end(numbers: &[usize], fronts: &[Front], p: &Planned) -> Last
    ensures { result ≡ end_at (number_at numbers.now) fronts.now p.now.first p.now.second p.now.last }
{
    match p.last {
        Last::Goto(t) => Last::Goto(number(numbers, t)),
        Last::If(x, t, u) => Last::If(
            x,
            edge_to(numbers, fronts, t, p.first),
            edge_to(numbers, fronts, u, p.second),
        ),
        Last::IfError(x, t, u, line) => Last::IfError(
            x,
            edge_to(numbers, fronts, t, p.first),
            edge_to(numbers, fronts, u, p.second),
            line,
        ),
        Last::Return(x) => Last::Return(x),
        Last::Unreachable => Last::Unreachable,
    }
}

/// The operations of a detour.
fn counted(alloc: Global, counts: &EdgeCounts) -> Result<Many<(Op, usize)>, Memory>
    ensures { IfOk result (λ ops. ops ≡ detour_ops counts.now) }
{
    let mut ops = Vec::new(alloc);
    lay_ups(&mut ops, counts.ups.as_slice(), 0)?;
    for r in counts.downs.as_slice() {
        ops.push((Op::XDec(Reg(*r)), 0))?;
    }
    Ok(Many::from_vec(ops))
}

/// Puts the detours to the block of a number behind the others.
fn lay_detours(
    alloc: Global,
    blocks: &mut Vec<Block>,
    detours: &[Detour],
    there: usize,
) -> Result<(), Memory>
    ensures { OnOk result (blocks.new.items ≡ blocks.old.items ++ detours_to there detours.now) }
{
    for detour in detours {
        let ops = counted(alloc, &detour.counts)?;
        blocks.push(Block {
            ops,
            last: Last::Goto(there.saturating_sub(detour.next)),
            handler: None,
        })?;
    }
    Ok(())
}

/// The blocks that are planned, with their new numbers.
pub(crate) fn laid_out(
    alloc: Global,
    planned: Vec<Planned>,
    fronts: &[Front],
) -> Result<Many<Block>, Memory>
    requires { length planned.items ≤ length fronts.now }
    ensures { IfOk result (λ blocks. blocks ≡ all_laid (number_at (numbers_from 0 fronts.now)) fronts.now 0 fronts.now planned.items) }
{
    let numbers = numbers(alloc, fronts)?;
    let mut blocks = Vec::new(alloc);
    let mut b = 0usize;
    for p in planned {
        lay_detours(
            alloc,
            &mut blocks,
            fronts[b].detours.as_slice(),
            number(&numbers, b),
        )?;
        let last = end(&numbers, fronts, &p);
        blocks.push(Block {
            ops: p.ops,
            last,
            handler: None,
        })?;
        b += 1;
    }
    Ok(Many::from_vec(blocks))
}
