//! A function whose blocks that no path reaches are emptied.
ghost use Rattle.std.specs.Prelude.{◌≡◌, cond, IfOk};
ghost use Rattle.unset_tests.specs.Emptied as spec;
ghost use Rattle.unset_tests.specs.Emptied.{IsEmptied};
ghost use Rattle.unset_tests.specs.Ways.{AreReached};
ghost use Rattle.unset_tests.specs.Ways as ways;

use crate::marks::{Followed, is_marked, spread};
use ir_core::{Block, Func, Last};
use std::alloc::Global;
use value_core::{Many, Memory};

/// Of each block whether some path comes to it.
fn reached_blocks(alloc: Global, f: &Func) -> Result<Vec<bool>, Memory>
    ensures { IfOk result (λ marks. AreReached f.now marks.items) }
{
    let mut work = Vec::new(alloc);
    work.push(0)?;
    spread(
        alloc,
        f.regs.as_slice(),
        f.blocks.as_slice(),
        Followed::Paths,
        work,
    )
}

/// A function where each block that no path reaches does nothing.
pub(crate) fn emptied(alloc: Global, f: Func) -> Result<Func, Memory>
    ensures { IfOk result (λ g. IsEmptied f g) }
{
    let reached = reached_blocks(alloc, &f)?;
    let Func {
        name,
        params,
        regs,
        ret,
        blocks,
    } = f;
    let blocks = blocks_emptied(alloc, reached.as_slice(), blocks)?;
    Ok(Func {
        name,
        params,
        regs,
        ret,
        blocks,
    })
}

/// The blocks, where those that are not marked are emptied.
fn blocks_emptied(
    alloc: Global,
    reached: &[bool],
    blocks: Many<Block>,
) -> Result<Many<Block>, Memory>
    ensures { IfOk result (λ all. all ≡ ways.blocks_emptied reached.now 0 blocks) }
{
    let mut done = Vec::new(alloc);
    for block in blocks.into_vec() {
        let kept = kept_block(alloc, is_marked(reached, done.len()), block);
        done.push(kept)?;
    }
    Ok(Many::from_vec(done))
}

/// A block, or an empty one where no path comes to it.
fn kept_block(alloc: Global, is_reached: bool, block: Block) -> Block
    ensures { result ≡ cond is_reached block spec.empty_block }
{
    if is_reached {
        return block;
    }
    Block {
        ops: Many::new(alloc),
        last: Last::Unreachable,
        handler: None,
    }
}
