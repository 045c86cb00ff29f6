//! The blocks to which paths go from a block.
ghost use Rattle.std.specs.Prelude.{◌≡◌, ◌++◌, OnOk};
ghost use Rattle.unset_tests.specs.Ways.{caught_by, ways};

use crate::walk::push_targets;
use ir_core::{Block, RType, any_edge, missing_edges};
use std::alloc::Global;
use value_core::{Memory, Name};

/// Puts a block's handler behind others, where an exception may go to it.
fn push_caught(
    alloc: Global,
    work: &mut Vec<usize>,
    regs: &[(Name, RType)],
    blocks: &[Block],
    block: &Block,
) -> Result<(), Memory>
    ensures { OnOk result (work.new.items ≡ work.old.items ++ caught_by regs.now blocks.now block.now block.now.handler) }
{
    match block.handler {
        None => Ok(()),
        Some(h) => {
            let missing = missing_edges(alloc, regs, blocks, block)?;
            if any_edge(missing.as_slice()) {
                work.push(h)?;
            }
            Ok(())
        }
    }
}

/// Puts behind others the blocks to which paths go from a block.
pub(crate) fn push_ways(
    alloc: Global,
    work: &mut Vec<usize>,
    regs: &[(Name, RType)],
    blocks: &[Block],
    block: &Block,
) -> Result<(), Memory>
    ensures { OnOk result (work.new.items ≡ work.old.items ++ ways regs.now blocks.now block.now) }
{
    push_caught(alloc, work, regs, blocks, block)?;
    push_targets(work, block.last)
}
