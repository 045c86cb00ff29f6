//! Which edges are missing in a block.
ghost use Rattle.std.specs.Prelude.{◌≡◌, ◌<◌, ◌+◌, length, drop, Some, IfOk};
ghost use Rattle.std.specs.Option.{option_map};
ghost use Rattle.std.specs.List.{list_any};
ghost use Rattle.ir_core.specs.Items.{End, item_in};
ghost use Rattle.ir_core.specs.Rows.{edge_of_op};
ghost use Rattle.ir_core.specs.Missing as spec;
ghost use Rattle.ir_core.specs.Missing.{ahead, is_some_edge};

use crate::code::{Block, Last, Op, RType};
use crate::kind::{Edge, edge_of, is_edge};
use std::alloc::Global;
use value_core::{Many, Memory, Name};

/// The edges that are missing in one of the blocks of a function with these registers, one for each operation.
pub fn missing_edges(
    alloc: Global,
    regs: &[(Name, RType)],
    blocks: &[Block],
    block: &Block,
) -> Result<Many<Edge>, Memory>
    ensures { IfOk result (λ edges. edges ≡ spec.edges_of regs.now blocks.now block.now) }
{
    let ops = block.ops.as_slice();
    let mut edges = Vec::new(alloc);
    for i in 0..ops.len() {
        let (op, _line) = &ops[i];
        let edge = missing_edge(regs, blocks, op, end_behind(ops, i, block.last));
        edges.push(edge)?;
    }
    Ok(Many::from_vec(edges))
}

/// The end of the block, where no operation stands behind this one.
fn end_behind(ops: &[(Op, usize)], i: usize, last: Last) -> Option<Last>
    requires { i < length ops.now }
    ensures { result ≡ ahead (drop (i + 1) ops.now) last }
{
    if i + 1 < ops.len() { None } else { Some(last) }
}

/// The edge that an operation wants, where the end behind it is not that edge already.
fn missing_edge(regs: &[(Name, RType)], blocks: &[Block], op: &Op, end: Option<Last>) -> Edge
    ensures { result ≡ spec.missing (item_in blocks.now) (edge_of_op regs.now op.now) (option_map End end) }
{
    let edge = edge_of(regs, op);
    match end {
        Some(last) => {
            if is_edge(blocks, edge, last) {
                Edge::NoEdge
            } else {
                edge
            }
        }
        None => edge,
    }
}

/// Whether any edge is missing.
pub fn any_edge(edges: &[Edge]) -> bool
    ensures { result ≡ list_any is_some_edge edges.now }
{
    edges.iter().any(|edge| is_some(*edge))
}

fn is_some(edge: Edge) -> bool
    ensures { result ≡ is_some_edge edge }
{
    match edge {
        Edge::NoEdge => false,
        _ => true,
    }
}
