//! One register in one block.
ghost use Rattle.std.specs.Prelude.{◌≡◌, ◌++◌, ◌∷◌, [], cond, OnOk};
ghost use Rattle.std.specs.Option.{option_to_list};
ghost use Rattle.ir_core.specs.Missing.{is_some_edge};
ghost use Rattle.ir_core.specs.Items.{in_block};
ghost use Rattle.ir_core.specs.Rows.{type_of_reg};
ghost use Rattle.liveness.specs.Paths as paths;
ghost use Rattle.unset_tests.specs.Unset as spec;
ghost use Rattle.unset_tests.specs.Unset.{is_error_literal, is_value, of_test, goes_unset, is_jumps};
ghost use Rattle.unset_tests.specs.Walk.{left_unset, end_unset, caught_unset, onward, may_go};

use ir_core::{Block, Edge, Last, Lit, Op, RType, Reg, edge_of};
use liveness::register_written;
use value_core::{Memory, Name};

/// Whether a literal writes the error value of a type.
fn is_error_literal(t: RType, l: Lit) -> bool
    ensures { result ≡ is_error_literal t l }
{
    match (t, l) {
        (RType::Int, Lit::Number(n)) => n == 1,
        (RType::I64, Lit::Number(n)) => n == -113,
        (RType::Bool, Lit::Number(n)) => n == 2,
        (RType::Ref, Lit::Null) => true,
        _ => false,
    }
}

/// Whether a literal sets one of these registers.
fn is_value(regs: &[(Name, RType)], r: Reg, l: Lit) -> bool
    ensures { result ≡ is_value l (type_of_reg regs.now r) }
{
    match regs.get(r.0) {
        Some((_, t)) => !is_error_literal(*t, l),
        None => false,
    }
}

/// Whether an operation surely sets the register that it writes.
pub(crate) fn sets(regs: &[(Name, RType)], op: &Op) -> bool
    ensures { result ≡ spec.sets regs.now op.now }
{
    match op {
        Op::Lit(r, l) => is_value(regs, *r, *l),
        _ => false,
    }
}

/// Whether a register may be unset behind an operation, by whether it may be so before.
fn left_unset(regs: &[(Name, RType)], r: usize, op: &Op, before: bool) -> bool
    ensures { result ≡ left_unset regs.now r op.now before }
{
    match register_written(op) {
        Some(written) if written == r => !sets(regs, op),
        _ => before,
    }
}

fn is_some(edge: Edge) -> bool
    ensures { result ≡ is_some_edge edge }
{
    match edge {
        Edge::NoEdge => false,
        _ => true,
    }
}

/// Whether an operation with this edge always fails.
fn is_jumps(edge: Edge) -> bool
    ensures { result ≡ is_jumps edge }
{
    match edge {
        Edge::Jumps => true,
        _ => false,
    }
}

/// Whether an operation with this edge is passed to what stands behind it.
fn is_passed(edge: Edge, rest: &[(Op, usize)], last: Last) -> bool
    ensures { result ≡ spec.is_passed edge (in_block rest.now last 0) }
{
    if !is_jumps(edge) {
        return true;
    }
    match last {
        Last::Goto(_) => rest.is_empty(),
        _ => false,
    }
}

/// Whether a register may be unset at the end of a block, and whether it may be so where one of its operations fails.
#[derive(Clone, Copy)]
pub(crate) struct Walked {
    pub at_end: bool,
    pub caught: bool,
}

/// The same of a block, by whether the register may be unset at its start.
pub(crate) fn walk(regs: &[(Name, RType)], r: usize, block: &Block, before: bool) -> Walked
    ensures at_end { result.at_end ≡ end_unset regs.now r block.now.last block.now.ops before }
    ensures caught { result.caught ≡ caught_unset regs.now r block.now.last block.now.ops before }
{
    let mut rest = block.ops.as_slice();
    let mut unset = before;
    let mut caught = false;
    while let Some((first, behind)) = rest.split_first() {
        let (op, _line) = first;
        let edge = edge_of(regs, op);
        let left = left_unset(regs, r, op, unset);
        caught = caught || is_some(edge) && left;
        unset = is_passed(edge, behind, block.last) && left;
        rest = behind;
    }
    Walked {
        at_end: unset,
        caught,
    }
}

fn push_handler(work: &mut Vec<usize>, caught: bool, handler: Option<usize>) -> Result<(), Memory>
    ensures { OnOk result (work.new.items ≡ work.old.items ++ cond caught (option_to_list handler) []) }
{
    if !caught {
        return Ok(());
    }
    match handler {
        Some(h) => work.push(h)?,
        None => {}
    }
    Ok(())
}

fn push_both(work: &mut Vec<usize>, a: usize, b: usize) -> Result<(), Memory>
    ensures { OnOk result (work.new.items ≡ work.old.items ++ a ∷ b ∷ []) }
{
    work.push(a)?;
    work.push(b)?;
    Ok(())
}

fn push_test(work: &mut Vec<usize>, is_own: bool, e: usize, n: usize) -> Result<(), Memory>
    ensures { OnOk result (work.new.items ≡ work.old.items ++ of_test is_own e n) }
{
    if is_own {
        work.push(e)?;
        return Ok(());
    }
    push_both(work, e, n)
}

/// Puts behind others the blocks that an end goes to.
pub(crate) fn push_targets(work: &mut Vec<usize>, last: Last) -> Result<(), Memory>
    ensures { OnOk result (work.new.items ≡ work.old.items ++ paths.targets last) }
{
    match last {
        Last::Goto(t) => Ok(work.push(t)?),
        Last::If(_, a, b) | Last::IfError(_, a, b, _) => push_both(work, a, b),
        Last::Return(_) | Last::Unreachable => Ok(()),
    }
}

fn push_unset_targets(work: &mut Vec<usize>, r: usize, last: Last) -> Result<(), Memory>
    ensures { OnOk result (work.new.items ≡ work.old.items ++ goes_unset r last) }
{
    match last {
        Last::IfError(s, e, n, _) => push_test(work, s.0 == r, e, n),
        other => push_targets(work, other),
    }
}

/// Puts behind others the blocks to which a register comes unset from a block, by whether it may be unset at the block's start.
pub(crate) fn push_onward(
    work: &mut Vec<usize>,
    regs: &[(Name, RType)],
    r: usize,
    block: &Block,
    before: bool,
) -> Result<(), Memory>
    ensures { OnOk result (work.new.items ≡ work.old.items ++ onward regs.now r block.now before) }
{
    let walked = walk(regs, r, block, before);
    push_handler(work, walked.caught, block.handler)?;
    if walked.at_end {
        push_unset_targets(work, r, block.last)?;
    }
    Ok(())
}

/// Whether the last of some operations always fails.
fn ends_in_failure(regs: &[(Name, RType)], ops: &[(Op, usize)]) -> bool
    ensures { result ≡ spec.ends_in_failure regs.now ops.now }
{
    match ops.last() {
        Some((op, _line)) => is_jumps(edge_of(regs, op)),
        None => false,
    }
}

/// Whether a block's test of a register may go, by whether the register may be unset at the block's start.
pub(crate) fn may_go(regs: &[(Name, RType)], r: usize, block: &Block, marked: bool) -> bool
    ensures { result ≡ may_go regs.now r block.now marked }
{
    !(ends_in_failure(regs, block.ops.as_slice()) || walk(regs, r, block, marked).at_end)
}
