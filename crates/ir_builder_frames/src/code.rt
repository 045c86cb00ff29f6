//! A function under construction, and what it is built among.
ghost use Rattle.std.specs.Prelude.{◌≡◌, ◌<◌, ◌≤◌, [], length, take, OnOk, OnErr, IfOk};
ghost use Rattle.std.specs.List.{list_any};
ghost use Rattle.std.specs.Str.{bytes_eq};
ghost use Rattle.py_typed.specs.Statements.{typed_module};
ghost use Rattle.ir_core.specs.Building.{with_last, is_open_at};
ghost use Rattle.ir_builder_frames.specs.Among.{surrounding};
ghost use Rattle.ir_builder_frames.specs.Building.{added, pushed, closed};

use ir_core::{Builder, Func, Last, Op, RType, Reg};
use py_typed::Checked;
use std::alloc::Global;
use std::marker::Model;
use value_core::{Many, Memory, Name};

/// A function under construction, with the number of its variables, the type of its result, and the module that it is of. For want
/// of memory a call leaves it as it was.
#[derive(Drop)]
pub(crate) struct Code<'a> {
    builder: Builder,
    checked: &'a Checked,
    variables: usize,
    ret: RType,
}

impl<'a> Model for Code<'a> {
    ghost use Rattle.py_typed.specs.Statements.{typed_module};
    ghost use Rattle.ir_builder_frames.specs.Among.{surrounding};
    ghost use Rattle.ir_builder_frames.specs.Building.{Building, building};

    ghost Value = { Building };

    ghost view = { λ c. building (surrounding (typed_module c.checked.now) c.variables c.ret) c.builder };
}

impl<'a> Code<'a> {
    /// A function with registers for its variables, and without blocks. It takes no memory.
    pub(crate) fn new(
        alloc: Global,
        checked: &'a Checked,
        ret: RType,
        variables: Many<(Name, RType)>,
    ) -> Code<'a>
        ensures { result ≡ record { among = surrounding (typed_module checked.now) (length variables) ret; regs = variables; blocks = []; ops = [] } }
    {
        let count = variables.len();
        let unnamed = Name::from_string(String::new(alloc));
        Code {
            builder: Builder::with_registers(alloc, unnamed, variables),
            checked,
            variables: count,
            ret,
        }
    }

    /// One more register, behind the others.
    pub(crate) fn add_reg(&mut self, name: Name, t: RType) -> Result<Reg, Memory>
        ensures number { IfOk result (λ r. r.0 ≡ length self.old.regs) }
        ensures ok { OnOk result (self.new ≡ added self.old name t) }
        ensures err { OnErr result (self.new ≡ self.old) }
    {
        self.builder.add_reg(name, t)
    }

    /// Whether a variable has a name.
    pub(crate) fn is_taken(&self, name: &Name) -> bool
        requires { self.now.among.variables ≤ length self.now.regs }
        ensures { result ≡ list_any (λ d. bytes_eq name.now d.0) (take self.now.among.variables self.now.regs) }
    {
        self.builder.is_taken(name, self.variables)
    }

    /// One more operation of the block that is being filled, with its source line.
    pub(crate) fn push(&mut self, op: Op, line: usize) -> Result<(), Memory>
        ensures ok { OnOk result (self.new ≡ pushed self.old (op, line)) }
        ensures err { OnErr result (self.new ≡ self.old) }
    {
        self.builder.push(op, line)
    }

    /// Ends the block that is being filled, and answers its number. What is pushed then goes to a new block.
    pub(crate) fn end_block(&mut self, last: Last) -> Result<usize, Memory>
        ensures number { IfOk result (λ n. n ≡ length self.old.blocks) }
        ensures ok { OnOk result (self.new ≡ closed self.old last) }
        ensures err { OnErr result (self.new ≡ self.old) }
    {
        self.builder.end_block(last)
    }

    /// The number of the open block, which operations go to.
    pub(crate) fn here(&self) -> usize
        ensures { result ≡ length self.now.blocks }
    {
        self.builder.here()
    }

    /// Gives a block that has its end another one.
    pub(crate) fn set_last(&mut self, block: usize, last: Last)
        requires { block < length self.old.blocks }
        ensures { self.new ≡ record self.old { blocks = with_last self.old.blocks block last } }
    {
        self.builder.set_last(block, last);
    }

    /// Whether the end of a block that was ended is `Last::Unreachable`, so that it is perhaps still to be written.
    pub(crate) fn is_open(&self, block: usize) -> bool
        requires { block < length self.now.blocks }
        ensures { result ≡ is_open_at self.now.blocks block }
    {
        self.builder.is_open(block)
    }

    /// The function under a name, of which the first `params` registers are the parameters.
    pub(crate) fn finish(self, name: Name, params: usize) -> Func
        requires ended { self.ops ≡ [] }
        requires parameters { params ≤ length self.regs }
        ensures { result ≡ record { name = name; params = params; regs = self.entry.regs; ret = self.entry.among.ret; blocks = self.entry.blocks } }
    {
        named(self.builder.finish(params, self.ret), name)
    }
}

// A function under a name.
fn named(mut f: Func, name: Name) -> Func
    ensures { result ≡ record f { name = name } }
{
    f.name = name;
    f
}
