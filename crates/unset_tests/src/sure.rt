//! Which tests may go.
ghost use Rattle.std.specs.Prelude.{◌≡◌, ◌<◌, ℕ, true, false, length, Some, get_or, slice_get, IfOk};
ghost use Rattle.ir_core.specs.declared.code.Block.{Block as BlockItem};
ghost use Rattle.unset_tests.specs.Walk.{is_tested_by, is_test_of, may_go, settled, AreSure};

use crate::marks::{is_marked, no_marks, unset_starts};
use crate::unsure::unsure_registers;
use crate::walk::may_go;
use ir_core::{Block, Last, RType};
use std::alloc::Global;
use value_core::{Memory, Name};

/// Marks the register that an end tests.
fn mark_test(tested: &mut [bool], last: Last)
    ensures size { length tested.new ≡ length tested.old }
    ensures marks { (r : ℕ) → is_tested_by r last ≡ true → r < length tested.old → get_or tested.new r false ≡ true }
    ensures keeps { (r : ℕ) → get_or tested.old r false ≡ true → get_or tested.new r false ≡ true }
{
    match last {
        Last::IfError(s, _, _, _) => {
            if s.0 < tested.len() {
                tested[s.0] = true;
            }
        }
        _ => {}
    }
}

/// Of so many registers whether they are tested at the end of a block.
fn tested_registers(alloc: Global, count: usize, blocks: &[Block]) -> Result<Vec<bool>, Memory>
    ensures size { IfOk result (λ tested. length tested.items ≡ count) }
    ensures tests { IfOk result (λ tested. (k r : ℕ) (b : BlockItem) → slice_get blocks.now k ≡ Some b → is_test_of r b ≡ true → r < count → get_or tested.items r false ≡ true) }
{
    let mut tested = no_marks(alloc, count)?;
    for block in blocks {
        mark_test(tested.as_mut_slice(), block.last);
    }
    Ok(tested)
}

/// Whether a block tests a register.
fn is_test_of(block: &Block, r: usize) -> bool
    ensures { result ≡ is_test_of r block.now }
{
    match block.last {
        Last::IfError(s, _, _, _) => s.0 == r,
        _ => false,
    }
}

/// Whether a block's test may go: of one that tests this register by its mark, of any other as it was settled.
fn settled(regs: &[(Name, RType)], block: &Block, r: usize, marked: bool, was: bool) -> bool
    ensures { result ≡ settled regs.now r block.now marked was }
{
    if is_test_of(block, r) {
        may_go(regs, r, block, marked)
    } else {
        was
    }
}

/// Marks the tests of a register that may go, by the blocks at whose start it may be unset.
fn settle(regs: &[(Name, RType)], blocks: &[Block], r: usize, marks: &[bool], sure: &mut Vec<bool>)
    requires { length sure.old.items ≡ length blocks.now }
    ensures size { length sure.new.items ≡ length sure.old.items }
    ensures settled { (k : ℕ) (b : BlockItem) → slice_get blocks.now k ≡ Some b → get_or sure.new.items k false ≡ settled regs.now r b (get_or marks.now k false) (get_or sure.old.items k false) }
{
    for k in 0..blocks.len() {
        let was = is_marked(sure.as_slice(), k);
        sure[k] = settled(regs, &blocks[k], r, is_marked(marks, k), was);
    }
}

/// Of each block whether its test may go.
pub(crate) fn sure_tests(
    alloc: Global,
    regs: &[(Name, RType)],
    blocks: &[Block],
) -> Result<Vec<bool>, Memory>
    ensures { IfOk result (λ sure. AreSure regs.now blocks.now sure.items) }
{
    let mut sure = no_marks(alloc, blocks.len())?;
    let tested = tested_registers(alloc, regs.len(), blocks)?;
    let unsure = unsure_registers(alloc, regs, blocks)?;
    for r in 0..regs.len() {
        let is_tested = is_marked(tested.as_slice(), r);
        let is_unsure = is_marked(unsure.as_slice(), r);
        if is_tested {
            let marks = unset_starts(alloc, regs, blocks, r, is_unsure)?;
            settle(regs, blocks, r, marks.as_slice(), &mut sure);
        }
    }
    Ok(sure)
}
