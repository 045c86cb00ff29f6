//! The counts of edges.
ghost use Rattle.std.specs.Prelude.{◌≡◌, ◌-◌, ◌||◌, ℕ, List, None, cond, IfOk};
ghost use Rattle.liveness.specs.Paths.{is_among};
ghost use Rattle.liveness.specs.Liveness.{starts_of};
ghost use Rattle.refcount_insert_rule.specs.Counted.{counts_register};
ghost use Rattle.refcount_insert_counts.specs.Known.{owned_at, held_at, entered};
ghost use Rattle.refcount_insert_counts.specs.Counts.{AreOnce, short_on, over_on, AreEdgeCounts};
ghost use Rattle.refcount_insert_counts.specs.Ends.{is_read_again, AreEndCounts, AreTestCounts};

use crate::counts::{Counts, no_counts, push_downs, push_ups};
use crate::known::{KnownRegisters, counts};
use crate::operands::{is_target, push_new};
use ir_core::{Last, RType, Reg};
use liveness::LiveTable;
use std::alloc::Global;
use value_core::{Many, Memory, Name};

/// Whether a register is read again at the start of one of two blocks.
fn is_at_either(live: &LiveTable, x: Reg, a: usize, b: usize) -> bool
    ensures { result ≡ (is_among (starts_of live.now a) x.0 || is_among (starts_of live.now b) x.0) }
{
    live.is_live_at_start(a, x) || live.is_live_at_start(b, x)
}

/// The registers that are read again at the end of a block, where it tests a register and goes to two blocks, each once.
fn ahead(alloc: Global, live: &LiveTable, x: Reg, a: usize, b: usize) -> Result<Vec<usize>, Memory>
    ensures { IfOk result (λ all. AreOnce (is_read_again live.now x a b) all.items) }
{
    let mut all = Vec::from_slice(alloc, live.at_start(a))?;
    for r in live.at_start(b) {
        push_new(&mut all, *r, live.is_live_at_start(a, Reg(*r)))?;
    }
    push_new(&mut all, x.0, is_at_either(live, x, a, b))?;
    Ok(all)
}

/// How often a register is short and over on an edge from a place of a block to block t, where it is read again. Of one it
/// does not matter.
fn difference(
    regs: &[(Name, RType)],
    known: &KnownRegisters,
    b: usize,
    p: usize,
    skip: Option<usize>,
    t: usize,
    r: usize,
) -> (usize, usize)
    ensures short { result.0 ≡ short_on skip (held_at known.now regs.now b p) (entered known.now regs.now t) r }
    ensures over { result.1 ≡ over_on skip (held_at known.now regs.now b p) (entered known.now regs.now t) r }
{
    if is_target(skip, r) {
        return (0, 0);
    }
    let have = known.held(regs, b, p, r);
    let want = known.entered(regs, t, r);
    (want.saturating_sub(have), have.saturating_sub(want))
}

/// The counts of the edge from a place of a block to block t, of some registers that are read again there, but for one.
fn edge_counts(
    alloc: Global,
    regs: &[(Name, RType)],
    known: &KnownRegisters,
    b: usize,
    p: usize,
    all: &[usize],
    skip: Option<usize>,
    t: usize,
) -> Result<Counts, Memory>
    ensures { IfOk result (λ c. AreEdgeCounts all.now skip (held_at known.now regs.now b p) (entered known.now regs.now t) c) }
{
    let mut ups = Vec::new(alloc);
    let mut downs = Vec::new(alloc);
    for r in all {
        let (short, over) = difference(regs, known, b, p, skip, t, *r);
        push_ups(&mut ups, *r, short)?;
        push_downs(&mut downs, *r, false, over)?;
    }
    Ok(Counts {
        ups: Many::from_vec(ups),
        downs: Many::from_vec(downs),
    })
}

/// How often what is returned is short.
fn return_short(
    regs: &[(Name, RType)],
    known: &KnownRegisters,
    b: usize,
    p: usize,
    x: usize,
) -> usize
    ensures { result ≡ cond (counts_register regs.now x) (1 - owned_at known.now regs.now b p x) 0 }
{
    if counts(regs, x) {
        1usize.saturating_sub(known.owned(regs, b, p, x))
    } else {
        0
    }
}

/// The counts of a return, whose register is to be owned.
fn return_counts(
    alloc: Global,
    regs: &[(Name, RType)],
    known: &KnownRegisters,
    b: usize,
    p: usize,
    x: Reg,
) -> Result<Counts, Memory>
    ensures { IfOk result (λ c. AreEndCounts known.now regs.now b p (Last.Return x) c) }
{
    let mut ups = Vec::new(alloc);
    push_ups(&mut ups, x.0, return_short(regs, known, b, p, x.0))?;
    Ok(Counts {
        ups: Many::from_vec(ups),
        downs: Many::new(alloc),
    })
}

/// The counts of a jump to block t.
fn goto_counts(
    alloc: Global,
    regs: &[(Name, RType)],
    known: &KnownRegisters,
    b: usize,
    p: usize,
    t: usize,
) -> Result<Counts, Memory>
    ensures { IfOk result (λ c. AreEndCounts known.now regs.now b p (Last.Goto t) c) }
{
    let counts = edge_counts(alloc, regs, known, b, p, known.live.at_start(t), None, t)?;
    Ok(counts)
}

/// The counts of an end that stand in its block.
pub fn end_counts(
    alloc: Global,
    regs: &[(Name, RType)],
    known: &KnownRegisters,
    b: usize,
    p: usize,
    last: Last,
) -> Result<Counts, Memory>
    ensures { IfOk result (λ c. AreEndCounts known.now regs.now b p last c) }
{
    match last {
        Last::Goto(t) => goto_counts(alloc, regs, known, b, p, t),
        Last::Return(x) => return_counts(alloc, regs, known, b, p, x),
        Last::If(_, _, _) | Last::IfError(_, _, _, _) | Last::Unreachable => Ok(no_counts(alloc)),
    }
}

fn two_edges(
    alloc: Global,
    regs: &[(Name, RType)],
    known: &KnownRegisters,
    b: usize,
    p: usize,
    x: Reg,
    skip: Option<usize>,
    first: usize,
    second: usize,
) -> Result<(Counts, Counts), Memory>
    ensures { IfOk result (λ c. (all : List ℕ) × AreOnce (is_read_again known.now.live x first second) all × AreEdgeCounts all skip (held_at known.now regs.now b p) (entered known.now regs.now first) c.0 × AreEdgeCounts all None (held_at known.now regs.now b p) (entered known.now regs.now second) c.1) }
{
    let all = ahead(alloc, &known.live, x, first, second)?;
    let one = edge_counts(alloc, regs, known, b, p, &all, skip, first)?;
    let other = edge_counts(alloc, regs, known, b, p, &all, None, second)?;
    Ok((one, other))
}

/// The counts of both edges of an end, if it is a test.
pub fn test_counts(
    alloc: Global,
    regs: &[(Name, RType)],
    known: &KnownRegisters,
    b: usize,
    p: usize,
    last: Last,
) -> Result<(Counts, Counts), Memory>
    ensures { IfOk result (λ c. AreTestCounts known.now regs.now b p last c) }
{
    match last {
        Last::If(x, first, second) => {
            two_edges(alloc, regs, known, b, p, x, None, first, second)
        }
        Last::IfError(x, first, second, _) => {
            two_edges(alloc, regs, known, b, p, x, Some(x.0), first, second)
        }
        Last::Goto(_) | Last::Return(_) | Last::Unreachable => {
            Ok((no_counts(alloc), no_counts(alloc)))
        }
    }
}
