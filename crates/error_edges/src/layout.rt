//! The blocks in order.
ghost use Rattle.std.specs.Prelude.{◌≡◌, ℕ, ◌+◌, ◌++◌, ◌∷◌, [], List, cond, length, map, IfOk, OnOk};
ghost use Rattle.ir_core.specs.Items.{handler_of};
ghost use Rattle.ir_core.specs.declared.code.Op.{Op as OpItem};
ghost use Rattle.ir_core.specs.declared.code.Block.{Block as BlockItem};
ghost use Rattle.ir_core.specs.Missing.{edges_of};
ghost use Rattle.error_edges.specs.Layout as spec;
ghost use Rattle.error_edges.specs.Layout.{flag_register, number_at, moved, target_of, block_of, cut_at, cut, chains, exit_block};

use crate::plan::EdgePlan;
use c_core::{ErrPrim, Prim};
use ir_core::{Block, Edge, Last, Lit, Op, RType, Reg};
use std::alloc::Global;
use std::mem;
use value_core::{Many, Memory, Name};

/// The blocks of a function, each as its chain, and behind them the exit, where the plan has it.
pub(crate) fn edged_blocks(
    alloc: Global,
    regs: &[(Name, RType)],
    ret: RType,
    plan: &EdgePlan,
    blocks: Many<Block>,
) -> Result<Many<Block>, Memory>
    requires { plan.now.edges.items ≡ map (edges_of regs.now blocks) blocks }
    ensures { IfOk result (λ all. all ≡ chains regs.now blocks (number_at plan.now.starts.items plan.now.exit) plan.now.exit blocks 0 ++ cond plan.now.needs_exit (exit_block (record { 0 = length regs.now + cond plan.now.needs_flag 1 0 }) ret ∷ []) []) }
{
    let mut edged = Vec::new(alloc);
    let flag = Reg(regs.len());
    let mut k = 0;
    for block in blocks.into_vec() {
        lay_block(
            alloc,
            &mut edged,
            plan,
            plan.edges[k].as_slice(),
            flag,
            block,
        )?;
        k += 1;
    }
    if plan.needs_exit {
        let number = if plan.needs_flag {
            regs.len() + 1
        } else {
            regs.len()
        };
        lay_exit(alloc, &mut edged, Reg(number), ret)?;
    }
    Ok(Many::from_vec(edged))
}

/// The block that gives the error value, behind the blocks that stand.
fn lay_exit(alloc: Global, blocks: &mut Vec<Block>, error: Reg, ret: RType) -> Result<(), Memory>
    ensures { OnOk result (blocks.new.items ≡ blocks.old.items ++ exit_block error ret ∷ []) }
{
    let mut ops = Vec::new(alloc);
    ops.push((Op::Lit(error, error_literal(ret)), 0))?;
    close(alloc, blocks, &mut ops, Last::Return(error))
}

/// The literal that writes the error value of a type.
fn error_literal(t: RType) -> Lit
    ensures { result ≡ spec.error_literal t }
{
    match t {
        RType::Int => Lit::Number(1),
        RType::I64 => Lit::Number(-113),
        RType::Bool => Lit::Number(2),
        RType::Ref => Lit::Null,
    }
}

/// One block with these missing edges as its chain, behind the blocks that stand.
fn lay_block(
    alloc: Global,
    blocks: &mut Vec<Block>,
    plan: &EdgePlan,
    edges: &[Edge],
    flag: Reg,
    block: Block,
) -> Result<(), Memory>
    requires { length edges.now ≡ length block.ops }
    ensures { OnOk result (blocks.new.items ≡ blocks.old.items ++ cut (target_of (number_at plan.now.starts.items plan.now.exit) plan.now.exit (handler_of block)) flag block.ops edges.now (moved (number_at plan.now.starts.items plan.now.exit) block.last) (length blocks.old.items) []) }
{
    let Block { ops, last, handler } = block;
    let target = plan.target(handler);
    let last = plan.moved(last);
    lay_ops(alloc, blocks, ops.into_vec(), edges, last, target, flag)
}

/// The operations of a block, each with its missing edge, and its end.
fn lay_ops(
    alloc: Global,
    blocks: &mut Vec<Block>,
    ops: Vec<(Op, usize)>,
    edges: &[Edge],
    last: Last,
    target: usize,
    flag: Reg,
) -> Result<(), Memory>
    requires { length edges.now ≡ length ops.items }
    ensures { OnOk result (blocks.new.items ≡ blocks.old.items ++ cut target flag ops.items edges.now last (length blocks.old.items) []) }
{
    let mut done = Vec::new(alloc);
    let mut i = 0;
    for (op, line) in ops {
        let edge = edges[i];
        done.push((op, line))?;
        lay_edge(alloc, blocks, &mut done, edge, line, target, flag)?;
        i += 1;
    }
    close(alloc, blocks, &mut done, last)
}

/// Ends the block that is being filled by an edge, behind its last operation.
fn lay_edge(
    alloc: Global,
    blocks: &mut Vec<Block>,
    done: &mut Vec<(Op, usize)>,
    edge: Edge,
    line: usize,
    target: usize,
    flag: Reg,
) -> Result<(), Memory>
    ensures { OnOk result ((more : ℕ → List (OpItem × ℕ) → List BlockItem) → blocks.new.items ++ more (length blocks.new.items) done.new.items ≡ blocks.old.items ++ cut_at target flag edge (length blocks.old.items) done.old.items line more) }
{
    let n = blocks.len();
    match edge {
        Edge::NoEdge => Ok(()),
        Edge::Tests(r) => close(alloc, blocks, done, Last::IfError(r, target, n + 1, line)),
        Edge::TestsTwice(r) => {
            close(alloc, blocks, done, Last::IfError(r, n + 1, n + 2, line))?;
            done.push((asking(alloc, flag), line))?;
            close(alloc, blocks, done, Last::If(flag, target, n + 2))
        }
        Edge::Jumps => close(alloc, blocks, done, Last::Goto(target)),
    }
}

/// The question whether an exception is pending. It takes no memory.
fn asking(alloc: Global, flag: Reg) -> Op
    ensures { result ≡ spec.asking flag }
{
    Op::Prim(Some(flag), Prim::Err(ErrPrim::Occurred), Many::new(alloc))
}

/// Ends the block that is being filled.
fn close(
    alloc: Global,
    blocks: &mut Vec<Block>,
    done: &mut Vec<(Op, usize)>,
    last: Last,
) -> Result<(), Memory>
    ensures { OnOk result ((blocks.new.items ≡ blocks.old.items ++ block_of done.old.items last ∷ []) × (done.new.items ≡ [])) }
{
    let ops = mem::replace(done, Vec::new(alloc));
    blocks.push(Block {
        ops: Many::from_vec(ops),
        last,
        handler: None,
    })?;
    Ok(())
}
