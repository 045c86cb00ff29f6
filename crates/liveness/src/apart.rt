//! A function taken apart into pieces, which are blocks without handlers: an operation that may go to the handler of its
//! block ends a piece, which goes there or to the next one.
ghost use Rattle.std.specs.Prelude.{◌≡◌, ◌<◌, ◌+◌, ◌++◌, ℕ, Some, length, map, drop, slice_get, IfOk, OnOk, MatchOption};
ghost use Rattle.std.specs.Option.{option_map};
ghost use Rattle.ir_core.specs.Items.{End, item_in};
ghost use Rattle.ir_core.specs.Missing.{ahead};
ghost use Rattle.ir_core.specs.Rows.{edge_of_op};
ghost use Rattle.liveness.specs.Paths.{is_caught};
ghost use Rattle.liveness.specs.Steps.{steps_of};
ghost use Rattle.liveness.specs.Apart as spec;

use crate::step::{Steps, kept_step, kept_steps};
use ir_core::{Block, Edge, Func, Last, Op, Reg, edge_of, is_edge};
use std::alloc::Global;
use value_core::{Many, Memory};

/// The pieces of a block: one with this number for the whole block, or one for each of its places, from the first number up
/// to the one behind them.
#[derive(Clone, Copy)]
pub enum Home {
    Whole(usize),
    Apart(usize, usize),
}

impl Home {
    /// The first piece.
    pub(crate) fn first(self) -> usize
        ensures { result ≡ spec.first_in self }
    {
        match self {
            Home::Whole(first) | Home::Apart(first, _) => first,
        }
    }

    /// The piece of a place.
    pub(crate) fn piece(self, place: usize) -> usize
        ensures { result ≡ spec.piece_in self place }
    {
        match self {
            Home::Whole(piece) => piece,
            Home::Apart(first, behind) => first + place.min(behind.saturating_sub(first)),
        }
    }

    /// Which place of its piece that is.
    pub(crate) fn place(self, place: usize) -> usize
        ensures { result ≡ spec.place_in self place }
    {
        match self {
            Home::Whole(_) => place,
            Home::Apart(_, _) => 0,
        }
    }
}

/// The pieces of each block, and how many there are.
#[derive(Drop)]
pub(crate) struct Layout {
    pub homes: Many<Home>,
    pub count: usize,
}

fn behind(block: &Block, first: usize) -> Option<usize>
    ensures { MatchOption result (Unit {0}) (λ n. n ≡ first + spec.size_of block.now) }
{
    match block.handler {
        Some(_) => first.checked_add(block.ops.len())?.checked_add(1),
        None => first.checked_add(1),
    }
}

fn home_between(handler: Option<usize>, first: usize, behind: usize) -> Home
    ensures { result ≡ spec.home_between handler first behind }
{
    match handler {
        Some(_) => Home::Apart(first, behind),
        None => Home::Whole(first),
    }
}

/// Where the pieces of blocks stand.
pub(crate) fn layout_of(alloc: Global, blocks: &[Block]) -> Result<Layout, Memory>
    ensures homes { IfOk result (λ layout. layout.homes ≡ spec.homes_from 0 blocks.now) }
    ensures count { IfOk result (λ layout. layout.count ≡ spec.pieces_in blocks.now) }
{
    let mut homes = Vec::new(alloc);
    let mut count = 0;
    for block in blocks {
        let behind = behind(block, count).ok_or(Memory)?;
        homes.push(home_between(block.handler, count, behind))?;
        count = behind;
    }
    Ok(Layout {
        homes: Many::from_vec(homes),
        count,
    })
}

/// Where blocks stand that are each one piece.
pub(crate) fn whole(alloc: Global, count: usize) -> Result<Many<Home>, Memory>
    ensures size { IfOk result (λ homes. length homes ≡ count) }
    ensures homes { IfOk result (λ homes. (b : ℕ) → b < count → slice_get homes b ≡ Some (Home.Whole b)) }
{
    let mut homes = Vec::new(alloc);
    for block in 0..count {
        homes.push(Home::Whole(block))?;
    }
    Ok(Many::from_vec(homes))
}

impl Layout {
    /// The piece where a block begins.
    fn entry(&self, block: usize) -> usize
        ensures { result ≡ spec.begin self.now block }
    {
        match self.homes.get(block) {
            Some(home) => home.first(),
            None => self.count,
        }
    }

    /// The end of a block, where it goes to pieces.
    fn moved(&self, last: Last) -> Last
        ensures { result ≡ spec.moved (spec.begin self.now) last }
    {
        match last {
            Last::Goto(t) => Last::Goto(self.entry(t)),
            Last::If(r, a, b) => Last::If(r, self.entry(a), self.entry(b)),
            Last::IfError(r, a, b, line) => Last::IfError(r, self.entry(a), self.entry(b), line),
            Last::Return(_) | Last::Unreachable => last,
        }
    }
}

/// The end of the block, where no operation stands behind this one.
fn end_behind(ops: &[(Op, usize)], i: usize, last: Last) -> Option<Last>
    requires { i < length ops.now }
    ensures { result ≡ ahead (drop (i + 1) ops.now) last }
{
    if i + 1 < ops.len() { None } else { Some(last) }
}

/// Whether an operation goes to the handler of its block: it may fail, and the end behind it is not its edge.
fn is_caught(f: &Func, op: &Op, end: Option<Last>) -> bool
    ensures { result ≡ is_caught (item_in f.now.blocks) (edge_of_op f.now.regs op.now) (option_map End end) }
{
    let edge = edge_of(f.regs.as_slice(), op);
    match (edge, end) {
        (Edge::NoEdge, _) => false,
        (_, Some(last)) => !is_edge(f.blocks.as_slice(), edge, last),
        (_, None) => true,
    }
}

fn choice(leaves: bool, spare: usize, handler: usize, next: usize) -> Last
    ensures { result ≡ spec.choice leaves spare handler next }
{
    if leaves {
        Last::If(Reg(spare), handler, next)
    } else {
        Last::Goto(next)
    }
}

/// Adds the places of a block with this handler as pieces.
fn push_places(
    alloc: Global,
    f: &Func,
    layout: &Layout,
    block: &Block,
    handler: usize,
    pieces: &mut Vec<Steps>,
) -> Result<(), Memory>
    ensures { OnOk result (pieces.new.items ≡ pieces.old.items ++ map steps_of (spec.pieces_from (item_in f.now.blocks) f.now.regs (spec.begin layout.now) handler (length pieces.old.items) block.now.ops block.now.last)) }
{
    let ops = block.ops.as_slice();
    for i in 0..ops.len() {
        let (op, _line) = &ops[i];
        let leaves = is_caught(f, op, end_behind(ops, i, block.last));
        let last = choice(
            leaves,
            f.regs.len(),
            layout.entry(handler),
            pieces.len() + 1,
        );
        let steps = kept_step(alloc, op)?;
        pieces.push(Steps { steps, last })?;
    }
    pieces.push(Steps {
        steps: Many::new(alloc),
        last: layout.moved(block.last),
    })?;
    Ok(())
}

/// What is kept of the pieces of a function.
pub(crate) fn kept_pieces(alloc: Global, f: &Func, layout: &Layout) -> Result<Many<Steps>, Memory>
    ensures { IfOk result (λ all. all ≡ map steps_of (spec.pieces_of (item_in f.now.blocks) f.now.regs (spec.begin layout.now) 0 f.now.blocks)) }
{
    let mut pieces = Vec::new(alloc);
    for block in f.blocks.as_slice() {
        match block.handler {
            Some(handler) => push_places(alloc, f, layout, block, handler, &mut pieces)?,
            None => pieces.push(Steps {
                steps: kept_steps(alloc, block.ops.as_slice())?,
                last: layout.moved(block.last),
            })?,
        }
    }
    Ok(Many::from_vec(pieces))
}
