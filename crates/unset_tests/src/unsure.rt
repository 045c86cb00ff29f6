//! Registers that some operation may leave unset.
ghost use Rattle.std.specs.Prelude.{◌≡◌, ◌<◌, ℕ, true, false, length, Some, get_or, slice_get, IfOk};
ghost use Rattle.ir_core.specs.declared.code.Block.{Block as BlockItem};
ghost use Rattle.unset_tests.specs.Walk.{left_unset, leave_unset};

use crate::marks::no_marks;
use crate::walk::sets;
use ir_core::{Block, Op, RType};
use liveness::register_written;
use std::alloc::Global;
use value_core::{Memory, Name};

/// Marks the register that an operation writes, unless it surely sets it.
fn mark_unsure(regs: &[(Name, RType)], op: &Op, unsure: &mut [bool])
    ensures size { length unsure.new ≡ length unsure.old }
    ensures marks { (r : ℕ) → left_unset regs.now r op.now false ≡ true → r < length unsure.old → get_or unsure.new r false ≡ true }
    ensures keeps { (r : ℕ) → get_or unsure.old r false ≡ true → get_or unsure.new r false ≡ true }
{
    if sets(regs, op) {
        return;
    }
    match register_written(op) {
        Some(r) => {
            if r < unsure.len() {
                unsure[r] = true;
            }
        }
        None => {}
    }
}

/// Marks those that the operations of a block may leave unset.
fn mark_block(regs: &[(Name, RType)], ops: &[(Op, usize)], unsure: &mut [bool])
    ensures size { length unsure.new ≡ length unsure.old }
    ensures marks { (r : ℕ) → leave_unset regs.now r ops.now ≡ true → r < length unsure.old → get_or unsure.new r false ≡ true }
    ensures keeps { (r : ℕ) → get_or unsure.old r false ≡ true → get_or unsure.new r false ≡ true }
{
    let mut rest = ops;
    while let Some((first, behind)) = rest.split_first() {
        let (op, _line) = first;
        mark_unsure(regs, op, unsure);
        rest = behind;
    }
}

/// Of each of these registers whether some operation may leave it unset.
pub(crate) fn unsure_registers(
    alloc: Global,
    regs: &[(Name, RType)],
    blocks: &[Block],
) -> Result<Vec<bool>, Memory>
    ensures size { IfOk result (λ unsure. length unsure.items ≡ length regs.now) }
    ensures marks { IfOk result (λ unsure. (k r : ℕ) (b : BlockItem) → slice_get blocks.now k ≡ Some b → leave_unset regs.now r b.ops ≡ true → r < length regs.now → get_or unsure.items r false ≡ true) }
{
    let mut unsure = no_marks(alloc, regs.len())?;
    for block in blocks {
        mark_block(regs, block.ops.as_slice(), unsure.as_mut_slice());
    }
    Ok(unsure)
}
