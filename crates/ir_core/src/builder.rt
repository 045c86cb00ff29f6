//! The builder of a function.
ghost use Rattle.std.specs.Prelude.{◌≡◌, ◌<◌, ◌≤◌, [], ◌∷◌, ◌++◌, length, take, OnOk, OnErr, IfOk};
ghost use Rattle.std.specs.List.{list_any};
ghost use Rattle.std.specs.Str.{bytes_eq};
ghost use Rattle.ir_core.specs.Building.{with_last, with_handler, ended_block, is_unwritten, is_open_at};

use crate::code::{Block, Func, Last, Op, RType, Reg};
use std::alloc::Global;
use std::marker::Model;
use std::mem;
use value_core::{Many, Memory, Name};

/// A function under construction: its name, its registers, the blocks that were ended, and the operations of the block
/// that is being filled. For want of memory a call leaves it as it was.
#[derive(Drop)]
pub struct Builder {
    alloc: Global,
    name: Name,
    regs: Vec<(Name, RType)>,
    blocks: Vec<Block>,
    ops: Vec<(Op, usize)>,
}

impl Model for Builder {
    ghost use Rattle.ir_core.specs.Building.{Building};

    ghost Value = { Building };

    ghost view = { λ b. record { name = b.name; regs = b.regs.items; blocks = b.blocks.items; ops = b.ops.items } };
}

impl Builder {
    /// A function of a name, without registers and blocks. It takes no memory.
    pub fn new(alloc: Global, name: Name) -> Builder
        ensures { result ≡ record { name = name; regs = []; blocks = []; ops = [] } }
    {
        Builder {
            alloc,
            name,
            regs: Vec::new(alloc),
            blocks: Vec::new(alloc),
            ops: Vec::new(alloc),
        }
    }

    /// A function of a name, with these registers and without blocks. It takes no memory.
    pub fn with_registers(alloc: Global, name: Name, regs: Many<(Name, RType)>) -> Builder
        ensures { result ≡ record { name = name; regs = regs; blocks = []; ops = [] } }
    {
        Builder {
            alloc,
            name,
            regs: regs.into_vec(),
            blocks: Vec::new(alloc),
            ops: Vec::new(alloc),
        }
    }

    /// One more register, behind the others.
    pub fn add_reg(&mut self, name: Name, t: RType) -> Result<Reg, Memory>
        ensures number { IfOk result (λ r. r.0 ≡ length self.old.regs) }
        ensures ok { OnOk result (self.new ≡ record self.old { regs = self.old.regs ++ (name, t) ∷ [] }) }
        ensures err { OnErr result (self.new ≡ self.old) }
    {
        let number = self.regs.len();
        self.regs.push((name, t))?;
        Ok(Reg(number))
    }

    /// Whether one of the first `count` registers has a name.
    pub fn is_taken(&self, name: &Name, count: usize) -> bool
        requires { count ≤ length self.now.regs }
        ensures { result ≡ list_any (λ d. bytes_eq name.now d.0) (take count self.now.regs) }
    {
        self.regs[..count]
            .iter()
            .any(|register| name.as_str() == register.0.as_str())
    }

    /// One more operation of the block that is being filled, with its source line.
    pub fn push(&mut self, op: Op, line: usize) -> Result<(), Memory>
        ensures ok { OnOk result (self.new ≡ record self.old { ops = self.old.ops ++ (op, line) ∷ [] }) }
        ensures err { OnErr result (self.new ≡ self.old) }
    {
        self.ops.push((op, line))?;
        Ok(())
    }

    /// Ends the block that is being filled, and answers its number. What is pushed then goes to a new block. The block has no
    /// handler.
    pub fn end_block(&mut self, last: Last) -> Result<usize, Memory>
        ensures number { IfOk result (λ n. n ≡ length self.old.blocks) }
        ensures ok { OnOk result (self.new ≡ record self.old { blocks = self.old.blocks ++ ended_block self.old.ops last ∷ []; ops = [] }) }
        ensures err { OnErr result (self.new ≡ self.old) }
    {
        let number = self.blocks.len();
        self.blocks.reserve(1)?;
        let ops = mem::replace(&mut self.ops, Vec::new(self.alloc));
        let ops = Many::from_vec(ops);
        self.blocks.push(Block {
            ops,
            last,
            handler: None,
        })?;
        Ok(number)
    }

    /// The number of the open block, which operations go to.
    pub fn here(&self) -> usize
        ensures { result ≡ length self.now.blocks }
    {
        self.blocks.len()
    }

    /// Gives a block that has its end another one.
    pub fn set_last(&mut self, block: usize, last: Last)
        requires { block < length self.old.blocks }
        ensures { self.new ≡ record self.old { blocks = with_last self.old.blocks block last } }
    {
        self.blocks[block].last = last;
    }

    /// Says where an exception in a block that has its end goes, if not out of the function. It takes no memory.
    pub fn set_handler(&mut self, block: usize, h: Option<usize>)
        requires { block < length self.old.blocks }
        ensures { self.new ≡ record self.old { blocks = with_handler self.old.blocks block h } }
    {
        self.blocks[block].handler = h;
    }

    /// Whether the end of a block that was ended is `Last::Unreachable`, so that it is perhaps still to be written.
    pub fn is_open(&self, block: usize) -> bool
        requires { block < length self.now.blocks }
        ensures { result ≡ is_open_at self.now.blocks block }
    {
        is_unreachable(self.blocks[block].last)
    }

    /// The function, of which the first `params` registers are the parameters.
    pub fn finish(self, params: usize, ret: RType) -> Func
        requires ended { self.ops ≡ [] }
        requires parameters { params ≤ length self.regs }
        ensures { result ≡ record { name = self.name; params = params; regs = self.regs; ret = ret; blocks = self.blocks } }
    {
        Func {
            name: self.name,
            params,
            regs: Many::from_vec(self.regs),
            ret,
            blocks: Many::from_vec(self.blocks),
        }
    }
}

fn is_unreachable(last: Last) -> bool
    ensures { result ≡ is_unwritten last }
{
    match last {
        Last::Unreachable => true,
        _ => false,
    }
}
