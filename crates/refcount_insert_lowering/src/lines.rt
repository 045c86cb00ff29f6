//! The lines of blocks.
ghost use Rattle.std.specs.Prelude.{◌≡◌, ◌++◌, OnOk, IfOk};
ghost use Rattle.ir_core.specs.Lower.{op_lines, label_before, label_of, end_lines, block_lines, lines_from};

use crate::operations::line_of;
use c_core::Line;
use ir_core::{Block, Last, Op, Program};
use std::alloc::Global;
use value_core::{Many, Memory};

/// The number of the label of a block; block 0 has none.
fn label(block: usize) -> usize
    ensures { result ≡ label_of block }
{
    block.saturating_sub(1)
}

fn push_operations(
    alloc: Global,
    p: &Program,
    lines: &mut Many<Line>,
    ops: &[(Op, usize)],
) -> Result<(), Memory>
    ensures { OnOk result (lines.new ≡ lines.old ++ op_lines p.now ops.now) }
{
    for op in ops {
        lines.push(line_of(alloc, p, &op.0)?)?;
    }
    Ok(())
}

fn push_label(lines: &mut Many<Line>, block: usize) -> Result<(), Memory>
    ensures { OnOk result (lines.new ≡ lines.old ++ label_before block) }
{
    if block != 0 {
        lines.push(Line::Label)?;
    }
    Ok(())
}

/// Adds the lines of the end of a block. A place that is not reached goes round for ever.
fn push_end(lines: &mut Many<Line>, block: usize, last: Last) -> Result<(), Memory>
    ensures { OnOk result (lines.new ≡ lines.old ++ end_lines label_of block last) }
{
    match last {
        Last::Goto(t) => lines.push(Line::Goto(label(t))),
        Last::If(r, a, b) => lines.push(Line::If(r.0, label(a), label(b))),
        Last::IfError(r, e, n, _) => lines.push(Line::IfError(r.0, label(e), label(n))),
        Last::Return(r) => lines.push(Line::Return(r.0)),
        Last::Unreachable => push_round(lines, block),
    }
}

fn push_round(lines: &mut Many<Line>, block: usize) -> Result<(), Memory>
    ensures { OnOk result (lines.new ≡ lines.old ++ end_lines label_of block Last.Unreachable) }
{
    lines.push(Line::Turn)?;
    lines.push(Line::Goto(label(block)))?;
    Ok(())
}

fn push_block(
    alloc: Global,
    p: &Program,
    lines: &mut Many<Line>,
    number: usize,
    block: &Block,
) -> Result<(), Memory>
    ensures { OnOk result (lines.new ≡ lines.old ++ block_lines p.now number block.now) }
{
    push_label(lines, number)?;
    push_operations(alloc, p, lines, block.ops.as_slice())?;
    push_end(lines, number, block.last)?;
    Ok(())
}

/// The lines of all blocks of a function of a program.
pub(crate) fn lines_of(alloc: Global, p: &Program, blocks: &[Block]) -> Result<Many<Line>, Memory>
    ensures { IfOk result (λ lines. lines ≡ lines_from p.now 0 blocks.now) }
{
    let mut lines = Many::new(alloc);
    for (number, block) in blocks.iter().enumerate() {
        push_block(alloc, p, &mut lines, number, block)?;
    }
    Ok(lines)
}
