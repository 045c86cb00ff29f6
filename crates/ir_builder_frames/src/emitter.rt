//! The code of a function while it is made.
ghost use Rattle.std.specs.Prelude.{◌≡◌, ℕ, ◌⊎◌, ◌<◌, ◌+◌, ◌^◌, ◌≤◌, [], length, take, OnOk, IfOk, Some, true, false};
ghost use Rattle.std.specs.List.{list_any};
ghost use Rattle.std.specs.Str.{bytes_eq};
ghost use Rattle.c_core.specs.WellFormed.{names_differ};
ghost use Rattle.py_typed.specs.Statements.{typed_module};
ghost use Rattle.ir_builder_frames.specs.Among.{surrounding};
ghost use Rattle.ir_builder_frames.specs.Building.{Extends, held, pushed};
ghost use Rattle.ir_core.specs.Building.{with_last, is_open_at};
ghost use Rattle.ir_builder_frames.specs.Calling.{Declares, Adds, Pushes, Closes};
ghost use Rattle.ir_builder_frames.specs.Shaped.{EndFits, PatchFits, AllFit};
ghost use Rattle.ir_builder_frames.specs.Kinds.{temporary_name, LiteralFits, Answers, ReadsGlobal, Calls, HasKinds};
ghost use Rattle.ir_builder_frames.specs.Sound.{MayCome, MayEnd, MayPatch};
ghost use Rattle.ir_builder_frames.specs.Lines.{EndsOn, OwnLines};
ghost use Rattle.ir_builder_frames.specs.Naming.{names_of};

use crate::code::Code;
use c_core::Prim;
use ir_core::{Func, Last, Lit, Op, PArg, RType, Reg};
use py_typed::Checked;
use std::alloc::Global;
use std::marker::Model;
use value_core::{Many, Memory, Name};

/// The code of a function, operation by operation. The registers of its variables come first; those for results are named
/// `r0`, `r1` and so on, without the names of variables. Contracts see the code, of which at every moment all operations and ends
/// suit their registers, and the functions and variables of the module, and all ends go where they may (`specs/Sound.antt`).
#[derive(Drop)]
pub struct Emitter<'a> {
    alloc: Global,
    code: Code<'a>,
    next: usize,
}

impl<'a> Model for Emitter<'a> {
    ghost use Rattle.ir_builder_frames.specs.Building.{Building};
    ghost use Rattle.ir_builder_frames.specs.Sound.{IsSound};

    ghost Value = { Building };

    ghost view = { λ e. e.code };

    ghost invariant = { λ e. IsSound e.next e.code };
}

impl<'a> Emitter<'a> {
    /// A function of a module, with a result of a type and registers for its variables. It takes no memory.
    pub fn new(
        alloc: Global,
        checked: &'a Checked,
        ret: RType,
        variables: Many<(Name, RType)>,
    ) -> Emitter<'a>
        requires { names_differ (names_of variables) ≡ true }
        ensures { result ≡ record { among = surrounding (typed_module checked.now) (length variables) ret; regs = variables; blocks = []; ops = [] } }
    {
        Emitter {
            alloc,
            code: Code::new(alloc, checked, ret, variables),
            next: 0,
        }
    }

    /// One more register, behind the others, which no variable has.
    pub fn temporary(&mut self, t: RType) -> Result<Reg, Memory>
        ensures kept { Extends self.old self.new }
        ensures declared { IfOk result (λ r. Declares self.old self.new r.0 t) }
        ensures lined { (l : ℕ) → OwnLines l self.old self.new }
    {
        let (name, number) = fresh_name(self.alloc, &self.code, self.next)?;
        self.next = number + 1;
        self.code.add_reg(name, t)
    }

    /// One more operation, of a source line.
    pub fn push(&mut self, op: Op, line: usize) -> Result<(), Memory>
        requires fits { MayCome self.old op }
        ensures kept { Extends self.old self.new }
        ensures pushed { OnOk result (Pushes self.old self.new op line) }
        ensures is { OnOk result (self.new ≡ pushed self.old (op, line)) }
        ensures lined { OwnLines line self.old self.new }
    {
        self.code.push(op, line)
    }

    /// Ends the block, and answers its number.
    pub fn close(&mut self, last: Last) -> Result<usize, Memory>
        requires fits { MayEnd self.old last }
        ensures kept { Extends self.old self.new }
        ensures number { IfOk result (λ k. k ≡ length self.old.blocks) }
        ensures closed { OnOk result (Closes self.old self.new last) }
        ensures within { OnOk result ((m : ℕ) → EndFits m (length self.old.blocks) self.old.ops last → AllFit m 0 self.old.blocks → AllFit m 0 self.new.blocks) }
        ensures lined { (l : ℕ) → EndsOn l last → OwnLines l self.old self.new }
    {
        self.code.end_block(last)
    }

    /// The number of the open block, which operations go to. No end goes to a higher one.
    pub fn here(&self) -> usize
        ensures number { result ≡ length self.now.blocks }
        ensures within { AllFit result 0 self.now.blocks }
    {
        self.code.here()
    }

    /// Ends the block with a jump to the next one, and answers the next one's number.
    pub fn step_on(&mut self) -> Result<usize, Memory>
        ensures kept { Extends self.old self.new }
        ensures number { IfOk result (λ k. k ≡ length self.new.blocks) }
        ensures closed { IfOk result (λ k. Closes self.old self.new (Last.Goto k)) }
        ensures lined { (l : ℕ) → OwnLines l self.old self.new }
    {
        let next = next_number(self.here())?;
        self.close(Last::Goto(next))?;
        Ok(next)
    }

    /// Writes the end of a block that was ended. A test for errors is written only where the block has nothing else.
    pub fn patch(&mut self, block: usize, last: Last)
        requires below { block < length self.old.blocks }
        requires fits { MayPatch self.old block last }
        ensures set { self.new ≡ record self.old { blocks = with_last self.old.blocks block last } }
        ensures len { length self.new.blocks ≡ length self.old.blocks }
        ensures within { (m : ℕ) → PatchFits m block (held self.old block 0) last → AllFit m 0 self.old.blocks → AllFit m 0 self.new.blocks }
        ensures lined { (l : ℕ) → EndsOn l last → OwnLines l self.old self.new }
    {
        self.code.set_last(block, last);
    }

    /// Whether the end of a block that was ended is `Last::Unreachable`, so that it is perhaps still to be written.
    pub fn is_open(&self, block: usize) -> bool
        requires { block < length self.now.blocks }
        ensures { result ≡ is_open_at self.now.blocks block }
    {
        self.code.is_open(block)
    }

    /// A literal in a register of its own.
    pub fn literal(&mut self, t: RType, literal: Lit, line: usize) -> Result<Reg, Memory>
        requires fits { LiteralFits t literal }
        ensures kept { Extends self.old self.new }
        ensures added { IfOk result (λ r. Adds self.old self.new r.0 t (Op.Lit r literal) line) }
        ensures lined { OwnLines line self.old self.new }
    {
        let r = self.temporary(t)?;
        self.push(Op::Lit(r, literal), line)?;
        Ok(r)
    }

    /// The result of a primitive, in a register of its own.
    pub fn primitive(
        &mut self,
        t: RType,
        primitive: Prim,
        args: Many<PArg>,
        line: usize,
    ) -> Result<Reg, Memory>
        requires fits { Answers t self.old.regs primitive args ⊎ ReadsGlobal self.old.among t primitive args }
        ensures kept { Extends self.old self.new }
        ensures added { IfOk result (λ r. Adds self.old self.new r.0 t (Op.Prim (Some r) primitive args) line) }
        ensures lined { OwnLines line self.old self.new }
    {
        let r = self.temporary(t)?;
        self.push(Op::Prim(Some(r), primitive, args), line)?;
        Ok(r)
    }

    /// The result of a call of the function of a number, in a register of its own.
    pub fn call(
        &mut self,
        t: RType,
        function: usize,
        args: Many<Reg>,
        line: usize,
    ) -> Result<Reg, Memory>
        requires fits { Calls self.old.among t self.old.regs function args }
        ensures kept { Extends self.old self.new }
        ensures added { IfOk result (λ r. Adds self.old self.new r.0 t (Op.Call r function args) line) }
        ensures lined { OwnLines line self.old self.new }
    {
        let r = self.temporary(t)?;
        self.push(Op::Call(r, function, args), line)?;
        Ok(r)
    }

    /// The function, of which the first `params` registers are the parameters. No two of its registers have one name.
    pub fn finish(self, name: Name, params: usize) -> Func
        requires ended { self.ops ≡ [] }
        requires parameters { params ≤ length self.regs }
        ensures is { result ≡ record { name = name; params = params; regs = self.entry.regs; ret = self.entry.among.ret; blocks = self.entry.blocks } }
        ensures names { names_differ (names_of self.entry.regs) ≡ true }
        ensures kinds { HasKinds self.entry.among self.entry }
    {
        self.code.finish(name, params)
    }
}

// The number behind a number. With more blocks than there are numbers it is want of memory.
fn next_number(number: usize) -> Result<usize, Memory>
    ensures { IfOk result (λ next. next ≡ number + 1) }
{
    match number.checked_add(1) {
        Some(next) => Ok(next),
        None => Err(Memory),
    }
}

// A temporary name that none of the variables has, with its number, which is the first from this one on. With more names
// than there are numbers it is want of memory.
fn fresh_name(alloc: Global, code: &Code, from: usize) -> Result<(Name, usize), Memory>
    requires { code.now.among.variables ≤ length code.now.regs }
    ensures number { IfOk result (λ found. (from ≤ found.1) × (found.1 + 1 < 2 ^ 64)) }
    ensures name { IfOk result (λ found. found.0 ≡ temporary_name found.1) }
    ensures fresh { IfOk result (λ found. list_any (λ d. bytes_eq found.0 d.0) (take code.now.among.variables code.now.regs) ≡ false) }
{
    for number in from..usize::MAX {
        let name = Name::from_string(format!(in alloc; "r{number}")?);
        if !code.is_taken(&name) {
            return Ok((name, number));
        }
    }
    Err(Memory)
}
