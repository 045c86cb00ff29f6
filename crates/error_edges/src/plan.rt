//! The new numbers of a function's blocks, and what is added to it.
ghost use Rattle.std.specs.Prelude.{◌≡◌, ℕ, ◌+◌, map, IfOk, MatchOption};
ghost use Rattle.std.specs.List.{list_any};
ghost use Rattle.ir_core.specs.Items.{handler_of};
ghost use Rattle.error_edges.specs.Layout as spec;
ghost use Rattle.ir_core.specs.Missing.{edges_of, is_some_edge};
ghost use Rattle.error_edges.specs.Layout.{room, start_of, exit_of, number_at, target_of, moved};

use crate::missing::any_second_test;
use ir_core::{Block, Edge, Last, RType, any_edge, missing_edges};
use std::alloc::Global;
use value_core::{Many, Memory, Name};

/// What a function with edges is to have.
#[derive(Drop)]
pub(crate) struct EdgePlan {
    /// The first block of each chain.
    pub starts: Vec<usize>,
    /// The number behind the last chain.
    pub exit: usize,
    /// The missing edges of each block, by operation.
    pub edges: Vec<Many<Edge>>,
    /// Whether a test asks for the pending exception, so that a register is needed for the answer.
    pub needs_flag: bool,
    /// Whether an error leaves the function, so that the exit is needed.
    pub needs_exit: bool,
}

/// The plan of a function with these registers and blocks. It is want of memory where there is no number for a block.
pub(crate) fn plan_of(
    alloc: Global,
    regs: &[(Name, RType)],
    blocks: &[Block],
) -> Result<EdgePlan, Memory>
    ensures starts { IfOk result (λ plan. (k : ℕ) → number_at plan.starts.items plan.exit k ≡ start_of regs.now blocks.now k) }
    ensures exit { IfOk result (λ plan. plan.exit ≡ exit_of regs.now blocks.now) }
    ensures edges { IfOk result (λ plan. plan.edges.items ≡ map (edges_of regs.now blocks.now) blocks.now) }
    ensures needs_flag { IfOk result (λ plan. plan.needs_flag ≡ spec.needs_flag regs.now blocks.now) }
    ensures needs_exit { IfOk result (λ plan. plan.needs_exit ≡ spec.needs_exit regs.now blocks.now) }
{
    let mut starts = Vec::new(alloc);
    let mut exit = 0usize;
    let mut edges = Vec::new(alloc);
    let mut needs_flag = false;
    let mut needs_exit = false;
    for block in blocks {
        let missing = missing_edges(alloc, regs, blocks, block)?;
        starts.push(exit)?;
        exit = behind(exit, missing.as_slice()).ok_or(Memory)?;
        needs_flag = needs_flag || any_second_test(missing.as_slice());
        needs_exit = needs_exit || leaves(block, missing.as_slice());
        edges.push(missing)?;
    }
    Ok(EdgePlan {
        starts,
        exit,
        edges,
        needs_flag,
        needs_exit,
    })
}

/// Whether an error leaves the function out of a block with these missing edges.
fn leaves(block: &Block, edges: &[Edge]) -> bool
    ensures { result ≡ spec.out_of (handler_of block.now) (list_any is_some_edge edges.now) }
{
    match block.handler {
        Some(_) => false,
        None => any_edge(edges),
    }
}

/// The number behind the chain of a block with these missing edges, of which the first block has a number.
fn behind(first: usize, edges: &[Edge]) -> Option<usize>
    ensures { MatchOption result (Unit {0}) (λ n. n ≡ first + room edges.now) }
{
    let mut number = first.checked_add(1)?;
    for edge in edges {
        number = number.checked_add(extra(*edge))?;
    }
    Some(number)
}

/// How many blocks an edge adds.
fn extra(edge: Edge) -> usize
    ensures { result ≡ spec.extra edge }
{
    match edge {
        Edge::NoEdge => 0,
        Edge::Tests(_) | Edge::Jumps => 1,
        Edge::TestsTwice(_) => 2,
    }
}

impl EdgePlan {
    /// The first block of the chain of a block.
    pub(crate) fn start(&self, block: usize) -> usize
        ensures { result ≡ number_at self.now.starts.items self.now.exit block }
    {
        match self.starts.get(block) {
            Some(number) => *number,
            None => self.exit,
        }
    }

    /// The end of a block, with the new numbers.
    pub(crate) fn moved(&self, last: Last) -> Last
        ensures { result ≡ moved (number_at self.now.starts.items self.now.exit) last }
    {
        match last {
            Last::Goto(t) => Last::Goto(self.start(t)),
            Last::If(r, a, b) => Last::If(r, self.start(a), self.start(b)),
            Last::IfError(r, e, n, line) => Last::IfError(r, self.start(e), self.start(n), line),
            Last::Return(r) => Last::Return(r),
            Last::Unreachable => Last::Unreachable,
        }
    }

    /// Where an error goes from a block with this handler, if it has one.
    pub(crate) fn target(&self, handler: Option<usize>) -> usize
        ensures { result ≡ target_of (number_at self.now.starts.items self.now.exit) self.now.exit handler }
    {
        match handler {
            Some(block) => self.start(block),
            None => self.exit,
        }
    }
}
