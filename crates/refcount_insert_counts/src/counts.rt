//! Counts: registers that get references, and registers that are given up.
ghost use Rattle.std.specs.Prelude.{◌≡◌, ◌<◌, ◌+◌, ◌-◌, ◌^◌, ◌++◌, [], cond, replicate, OnOk, IfOk};
ghost use Rattle.refcount_insert_rule.specs.Rule as rule;
ghost use Rattle.refcount_insert_rule.specs.Rule.{ups, downs};
ghost use Rattle.refcount_insert_counts.specs.Edges.{is_none, edge_ops};

use ir_core::{Op, Reg};
use std::alloc::Global;
use value_core::{Many, Memory};

/// Which registers get a reference, as often as they do, and which are given up. Of these it is told whether they are sure
/// to hold no error value.
#[derive(Drop)]
pub struct Counts {
    pub ups: Many<usize>,
    pub downs: Many<(usize, bool)>,
}

/// No counts.
pub(crate) fn no_counts(alloc: Global) -> Counts
    ensures ups { result.ups ≡ [] }
    ensures downs { result.downs ≡ [] }
{
    Counts {
        ups: Many::new(alloc),
        downs: Many::new(alloc),
    }
}

impl Counts {
    /// Whether there are no counts.
    pub fn is_none(&self) -> bool
        ensures { result ≡ is_none self.now }
    {
        self.ups.is_empty() && self.downs.is_empty()
    }
}

/// Puts a register so many times behind the others.
pub(crate) fn push_ups(all: &mut Vec<usize>, r: usize, count: usize) -> Result<(), Memory>
    ensures { OnOk result (all.new.items ≡ all.old.items ++ replicate count r) }
{
    for _ in 0..count {
        all.push(r)?;
    }
    Ok(())
}

/// Puts a register that is given up so many times behind the others.
pub(crate) fn push_downs(
    all: &mut Vec<(usize, bool)>,
    r: usize,
    is_sure: bool,
    count: usize,
) -> Result<(), Memory>
    ensures { OnOk result (all.new.items ≡ all.old.items ++ replicate count (r, is_sure)) }
{
    for _ in 0..count {
        all.push((r, is_sure))?;
    }
    Ok(())
}

fn down(r: usize, is_sure: bool) -> Op
    ensures { result ≡ rule.down is_sure r }
{
    if is_sure {
        Op::Dec(Reg(r))
    } else {
        Op::XDec(Reg(r))
    }
}

/// Puts operations that give references behind the others.
pub fn lay_ups(ops: &mut Vec<(Op, usize)>, all: &[usize], line: usize) -> Result<(), Memory>
    ensures { OnOk result (ops.new.items ≡ ops.old.items ++ ups all.now line) }
{
    for r in all {
        ops.push((Op::Inc(Reg(*r)), line))?;
    }
    Ok(())
}

/// Puts operations that give references up behind the others.
pub fn lay_downs(
    ops: &mut Vec<(Op, usize)>,
    all: &[(usize, bool)],
    line: usize,
) -> Result<(), Memory>
    ensures { OnOk result (ops.new.items ≡ ops.old.items ++ downs all.now line) }
{
    for (r, is_sure) in all {
        ops.push((down(*r, *is_sure), line))?;
    }
    Ok(())
}

/// Puts the counts of an edge behind the others.
pub fn lay_edge(ops: &mut Vec<(Op, usize)>, counts: &Counts) -> Result<(), Memory>
    ensures { OnOk result (ops.new.items ≡ ops.old.items ++ edge_ops counts.now) }
{
    lay_ups(ops, counts.ups.as_slice(), 0)?;
    lay_downs(ops, counts.downs.as_slice(), 0)
}
