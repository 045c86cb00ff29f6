//! The counts of an operation.
ghost use Rattle.std.specs.Prelude.{◌≡◌, ◌<◌, ◌+◌, ◌^◌, ℕ, IfOk};
ghost use Rattle.c_core.specs.Cells.{times};
ghost use Rattle.liveness.specs.Paths.{write_of};
ghost use Rattle.refcount_insert_rule.specs.Rule.{takes, given_up, counts_before, counts_after, AreSure};
ghost use Rattle.refcount_insert_rule.specs.Counted.{counts_register};
ghost use Rattle.refcount_insert_counts.specs.Known.{owned_at};
ghost use Rattle.refcount_insert_counts.specs.Counts.{AreEach, AreGroupCounts};

use crate::counts::{Counts, push_downs, push_ups};
use crate::known::{KnownRegisters, counts};
use crate::operands::{gives, is_target, taken, times, touched};
use ir_core::{Op, RType};
use liveness::register_written;
use std::alloc::Global;
use value_core::{Many, Memory, Name};

/// How often a register gets a reference before an operation: what it takes and what is to be there behind it, but for what
/// the register has.
fn count_before(
    regs: &[(Name, RType)],
    known: &KnownRegisters,
    b: usize,
    p: usize,
    op: &Op,
    taken: &[usize],
    r: usize,
) -> usize
    requires place { p + 1 < 2 ^ 64 }
    requires taken { (r : ℕ) → times taken.now r ≡ takes op.now r }
    ensures { result ≡ counts_before (counts_register regs.now) op.now (owned_at known.now regs.now b p) (owned_at known.now regs.now b (p + 1)) r }
{
    if !counts(regs, r) {
        return 0;
    }
    let want = if is_target(register_written(op), r) {
        0
    } else {
        known.owned(regs, b, p + 1, r)
    };
    (times(taken, r) + want).saturating_sub(known.owned(regs, b, p, r))
}

/// How often a register is given up behind an operation: what it has then, but for what is to be there.
fn count_after(
    regs: &[(Name, RType)],
    known: &KnownRegisters,
    b: usize,
    p: usize,
    op: &Op,
    taken: &[usize],
    r: usize,
) -> usize
    requires place { p + 1 < 2 ^ 64 }
    requires taken { (r : ℕ) → times taken.now r ≡ takes op.now r }
    ensures { result ≡ counts_after (counts_register regs.now) op.now (owned_at known.now regs.now b p) (owned_at known.now regs.now b (p + 1)) r }
{
    if !counts(regs, r) {
        return 0;
    }
    let want = known.owned(regs, b, p + 1, r);
    if is_target(register_written(op), r) {
        gives(op, want).saturating_sub(want)
    } else {
        known
            .owned(regs, b, p, r)
            .saturating_sub(times(taken, r) + want)
    }
}

/// The registers that get references before an operation.
fn group_ups(
    alloc: Global,
    regs: &[(Name, RType)],
    known: &KnownRegisters,
    b: usize,
    p: usize,
    op: &Op,
    touched: &[usize],
    taken: &[usize],
) -> Result<Many<usize>, Memory>
    requires place { p + 1 < 2 ^ 64 }
    requires taken { (r : ℕ) → times taken.now r ≡ takes op.now r }
    ensures { IfOk result (λ ups. AreEach (counts_before (counts_register regs.now) op.now (owned_at known.now regs.now b p) (owned_at known.now regs.now b (p + 1))) touched.now ups) }
{
    let mut ups = Vec::new(alloc);
    for r in touched {
        let count = count_before(regs, known, b, p, op, taken, *r);
        push_ups(&mut ups, *r, count)?;
    }
    Ok(Many::from_vec(ups))
}

/// The registers that are given up behind an operation.
fn group_downs(
    alloc: Global,
    regs: &[(Name, RType)],
    known: &KnownRegisters,
    b: usize,
    p: usize,
    op: &Op,
    touched: &[usize],
    taken: &[usize],
) -> Result<Many<(usize, bool)>, Memory>
    requires place { p + 1 < 2 ^ 64 }
    requires taken { (r : ℕ) → times taken.now r ≡ takes op.now r }
    ensures each { IfOk result (λ downs. AreEach (counts_after (counts_register regs.now) op.now (owned_at known.now regs.now b p) (owned_at known.now regs.now b (p + 1))) touched.now (given_up downs)) }
    ensures sure { IfOk result (λ downs. AreSure (write_of op.now) downs) }
{
    let mut downs = Vec::new(alloc);
    for r in touched {
        let count = count_after(regs, known, b, p, op, taken, *r);
        let is_sure = !is_target(register_written(op), *r);
        push_downs(&mut downs, *r, is_sure, count)?;
    }
    Ok(Many::from_vec(downs))
}

/// The counts of an operation at a place of a block.
pub fn group_counts(
    alloc: Global,
    regs: &[(Name, RType)],
    known: &KnownRegisters,
    b: usize,
    p: usize,
    op: &Op,
) -> Result<Counts, Memory>
    requires { p + 1 < 2 ^ 64 }
    ensures { IfOk result (λ c. AreGroupCounts (counts_register regs.now) op.now (owned_at known.now regs.now b p) (owned_at known.now regs.now b (p + 1)) c) }
{
    let touched = touched(alloc, op)?;
    let taken = taken(alloc, op)?;
    let ups = group_ups(alloc, regs, known, b, p, op, &touched, &taken)?;
    let downs = group_downs(alloc, regs, known, b, p, op, &touched, &taken)?;
    Ok(Counts { ups, downs })
}
