//! What is planned of the blocks of a function.
ghost use Rattle.std.specs.Prelude.{◌≡◌, ◌<◌, ◌≤◌, ◌+◌, ◌^◌, ◌++◌, [], ℕ, List, length, replicate, IfOk, OnOk};
ghost use Rattle.ir_core.specs.declared.code.Op.{Op as OpItem};
ghost use Rattle.ir_core.specs.Shape.{LastFits, BlocksFit};
ghost use Rattle.refcount_insert_counts.specs.Known.{owned_at};
ghost use Rattle.refcount_insert.specs.Sharing.{Keeps, AreTargetsWithin, AddsBoth, AreShared, AreProper};
ghost use Rattle.refcount_insert.specs.Plan.{IsCountedOp, AreCountedOps, IsPlannedBody, IsPlanned, ArePlanned};
ghost use Rattle.refcount_insert.specs.Plan as spec;

use crate::copies::copy_op;
use crate::sharing::{EdgeCounts, share};
use indexmap::IndexMap;
use ir_core::{Block, Last, Op, RType};
use refcount_insert_counts::{
    Counts, KnownRegisters, end_counts, group_counts, lay_downs, lay_edge, lay_ups, test_counts,
};
use std::alloc::Global;
use value_core::{Many, Memory, Name};

/// A block with its counts, before the blocks have their new numbers: its operations, its end with the old numbers, and where the
/// counts of both edges stand among those of edges to the same block, if it ends in a test whose edges have counts.
#[derive(Drop)]
pub struct Planned {
    pub ops: Many<(Op, usize)>,
    pub last: Last,
    pub first: Option<usize>,
    pub second: Option<usize>,
}

/// The plan of a function: its blocks, and for each block the different counts of edges to it.
#[derive(Drop)]
pub struct FunctionPlan {
    pub blocks: Vec<Planned>,
    pub kept: Vec<Many<EdgeCounts>>,
}

/// Puts an operation with its counts behind the others.
fn lay_group(
    alloc: Global,
    done: &mut Vec<(Op, usize)>,
    regs: &[(Name, RType)],
    known: &KnownRegisters,
    b: usize,
    p: usize,
    op: &(Op, usize),
) -> Result<(), Memory>
    requires { p + 1 < 2 ^ 64 }
    ensures { OnOk result ((group : List (OpItem × ℕ)) × (done.new.items ≡ done.old.items ++ group) × IsCountedOp known.now regs.now (owned_at known.now regs.now b p) (owned_at known.now regs.now b (p + 1)) op.now group) }
{
    let counts = group_counts(alloc, regs, known, b, p, &op.0)?;
    lay_ups(done, counts.ups.as_slice(), op.1)?;
    done.push((copy_op(alloc, &op.0)?, op.1))?;
    lay_downs(done, counts.downs.as_slice(), op.1)
}

/// The operations of a block from its start, with their counts.
fn counted_ops(
    alloc: Global,
    regs: &[(Name, RType)],
    known: &KnownRegisters,
    b: usize,
    ops: &[(Op, usize)],
) -> Result<Vec<(Op, usize)>, Memory>
    ensures { IfOk result (λ done. AreCountedOps known.now regs.now (owned_at known.now regs.now b) ops.now done.items) }
{
    let mut done = Vec::new(alloc);
    for p in 0..ops.len() {
        lay_group(alloc, &mut done, regs, known, b, p, &ops[p])?;
    }
    Ok(done)
}

/// Puts copies of operations behind the others.
fn lay_ops(alloc: Global, done: &mut Vec<(Op, usize)>, ops: &[(Op, usize)]) -> Result<(), Memory>
    ensures { OnOk result (done.new.items ≡ done.old.items ++ ops.now) }
{
    for op in ops {
        done.push((copy_op(alloc, &op.0)?, op.1))?;
    }
    Ok(())
}

/// How many of a block's operations stand before the counts of its end.
fn size_before(b: usize, count: usize, last: Last) -> usize
    ensures value { result ≡ spec.size_before b count last }
    ensures within { result ≤ count }
{
    match last {
        Last::Goto(t) if t <= b => count.saturating_sub(1),
        _ => count,
    }
}

/// The operations of a block with their counts, and with those of its end.
fn planned_body(
    alloc: Global,
    regs: &[(Name, RType)],
    known: &KnownRegisters,
    b: usize,
    ops: &[(Op, usize)],
    last: Last,
) -> Result<Vec<(Op, usize)>, Memory>
    ensures { IfOk result (λ done. IsPlannedBody known.now regs.now b ops.now last done.items) }
{
    let size = size_before(b, ops.len(), last);
    let mut done = counted_ops(alloc, regs, known, b, &ops[..size])?;
    let counts = end_counts(alloc, regs, known, b, ops.len(), last)?;
    lay_edge(&mut done, &counts)?;
    lay_ops(alloc, &mut done, &ops[size..])?;
    Ok(done)
}

/// Where the counts of both edges of a test stand.
fn shared_edges(
    alloc: Global,
    kept: &mut [Many<EdgeCounts>],
    places: &mut IndexMap<usize, usize>,
    last: Last,
    counts: &(Counts, Counts),
) -> Result<(Option<usize>, Option<usize>), Memory>
    requires { AreTargetsWithin (length kept.old) last }
    ensures keeps { OnOk result (Keeps kept.old kept.new) }
    ensures adds { OnOk result (AddsBoth kept.old kept.new last counts.now) }
    ensures shared { IfOk result (AreShared kept.new last counts.now) }
{
    match last {
        Last::If(_, t, u) | Last::IfError(_, t, u, _) => {
            let first = share(alloc, kept, places, t, &counts.0)?;
            let second = share(alloc, kept, places, u, &counts.1)?;
            Ok((first, second))
        }
        Last::Goto(_) | Last::Return(_) | Last::Unreachable => Ok((None, None)),
    }
}

fn planned_block(
    alloc: Global,
    regs: &[(Name, RType)],
    known: &KnownRegisters,
    kept: &mut [Many<EdgeCounts>],
    places: &mut IndexMap<usize, usize>,
    b: usize,
    block: &Block,
) -> Result<Planned, Memory>
    requires fits { LastFits (length kept.old) b block.now.ops block.now.last }
    requires proper { AreProper known.now regs.now kept.old }
    ensures keeps { OnOk result (Keeps kept.old kept.new) }
    ensures proper { OnOk result (AreProper known.now regs.now kept.new) }
    ensures planned { IfOk result (λ p. IsPlanned known.now regs.now kept.new b block.now p) }
{
    let counts = test_counts(alloc, regs, known, b, block.ops.len(), block.last)?;
    let (first, second) = shared_edges(alloc, kept, places, block.last, &counts)?;
    let ops = planned_body(alloc, regs, known, b, block.ops.as_slice(), block.last)?;
    Ok(Planned {
        ops: Many::from_vec(ops),
        last: block.last,
        first,
        second,
    })
}

/// For each of so many blocks no counts of edges.
fn none_kept(alloc: Global, count: usize) -> Result<Vec<Many<EdgeCounts>>, Memory>
    ensures { IfOk result (λ kept. kept.items ≡ replicate count []) }
{
    let mut kept = Vec::new(alloc);
    for _ in 0..count {
        kept.push(Many::new(alloc))?;
    }
    Ok(kept)
}

/// The plan of a function's blocks.
pub(crate) fn plan(
    alloc: Global,
    regs: &[(Name, RType)],
    known: &KnownRegisters,
    blocks: &[Block],
) -> Result<FunctionPlan, Memory>
    requires { BlocksFit (length blocks.now) 0 blocks.now }
    ensures planned { IfOk result (λ plan. ArePlanned known.now regs.now plan.kept.items 0 blocks.now plan.blocks.items) }
    ensures proper { IfOk result (λ plan. AreProper known.now regs.now plan.kept.items) }
    ensures size { IfOk result (λ plan. length plan.kept.items ≡ length blocks.now) }
{
    let mut all = Vec::new(alloc);
    let mut kept = none_kept(alloc, blocks.len())?;
    let mut places = IndexMap::new(alloc);
    for (b, block) in blocks.iter().enumerate() {
        let planned = planned_block(alloc, regs, known, &mut kept, &mut places, b, block)?;
        all.push(planned)?;
    }
    Ok(FunctionPlan { blocks: all, kept })
}
