//! Variables that are read.
ghost use Rattle.std.specs.Prelude.{◌≡◌, ◌<◌, length, true, IfOk, OnOk, ℕ};
ghost use Rattle.std.specs.Str.{is_utf8};
ghost use Rattle.py_typed.specs.Expressions.{Local};
ghost use Rattle.ir_builder_frames.specs.Building.{Extends};
ghost use Rattle.ir_builder_frames.specs.Calling.{Pushes};
ghost use Rattle.ir_builder_frames.specs.Matching.{HasRoom};
ghost use Rattle.ir_builder_frames.specs.Placing.{HasType};
ghost use Rattle.ir_builder_frames.specs.Lines.{OwnLines};
ghost use Rattle.ir_builder_expressions.specs.Site.{setting_of};
ghost use Rattle.ir_builder_expressions.specs.Reading.{reports_unbound, TestsSet, EmitsRead, ReadsLocal, TakesLocal};
ghost use Rattle.ir_builder_operations.specs.Converting.{is_optional};
ghost use Rattle.py_typed.specs.Sorts.{sort};

use crate::site::Site;
use c_core::{ErrPrim, Prim};
use ir_builder_frames::Emitter;
use ir_builder_operations::emit_unboxed;
use ir_core::{Last, Lit, Op, PArg, RType, Reg};
use py_typed::Ty;
use std::alloc::Global;
use value_core::{Many, Memory, Text};

// A copy of a text. Each `str` is UTF-8.
fn text_of(alloc: Global, text: &str) -> Result<Text, Memory>
    ensures copy { IfOk result (λ copy. copy ≡ text.now) }
    ensures utf8 { is_utf8 text.now ≡ true }
{
    Text::from_str(alloc, text)
}

// The exception of a variable that is read before it is set.
fn emit_unbound(b: &mut Emitter, alloc: Global, name: &str, line: usize) -> Result<(), Memory>
    ensures kept { Extends b.old b.new }
    ensures pushed { OnOk result (Pushes b.old b.new (reports_unbound name.now) line) }
    ensures lined { OwnLines line b.old b.new }
{
    let name = text_of(alloc, name)?;
    let mut args = Many::new(alloc);
    args.push(PArg::Text(name))?;
    b.push(Op::Prim(None, Prim::Err(ErrPrim::Unbound), args), line)
}

// Ends a block whose end no run comes to. It goes to a block of its own, which has nothing and ends nowhere, so no value is
// kept for what is behind it; the number of the block that is open then.
fn step_past(b: &mut Emitter) -> Result<usize, Memory>
    ensures kept { Extends b.old b.new }
    ensures number { IfOk result (λ k. k ≡ length b.new.blocks) }
    ensures empty { OnOk result (length b.new.ops ≡ 0) }
    ensures lined { (l : ℕ) → OwnLines l b.old b.new }
{
    b.step_on()?;
    b.close(Last::Unreachable)?;
    Ok(b.here())
}

// Tests a flag, and raises the exception of the variable's name where it is unset. What raises always has no jump directly
// behind it, so a literal that no run comes to stands between.
fn emit_flag_test(
    b: &mut Emitter,
    alloc: Global,
    flag: Reg,
    name: &str,
    line: usize,
) -> Result<(), Memory>
    requires { HasType b.old flag.0 RType.Bool }
    ensures kept { Extends b.old b.new }
    ensures tests { OnOk result (TestsSet b.old b.new (λ regs. regs flag.0) name.now) }
    ensures lined { OwnLines line b.old b.new }
{
    let test = b.step_on()?;
    b.close(Last::Unreachable)?;
    let unset = b.here();
    emit_unbound(b, alloc, name, line)?;
    b.literal(RType::Bool, Lit::Number(0), line)?;
    let set = step_past(b)?;
    b.patch(test, Last::IfError(flag, unset, set, line));
    Ok(())
}

/// The register of a variable that is read (Python Language Reference, "Naming and binding"). One that is no parameter may be
/// unset, and its flag is tested first.
fn emit_local(b: &mut Emitter, site: Site, i: usize) -> Result<Reg, Memory>
    requires there { i < length site.locals.now }
    requires room { HasRoom (setting_of site) b.old }
    ensures kept { Extends b.old b.new }
    ensures is { IfOk result (λ r. r.0 ≡ i) }
    ensures emitted { IfOk result (λ r. EmitsRead (setting_of site.entry) (setting_of site.entry).variables i (Local i) b.old b.new r.0) }
    ensures lined { OwnLines site.entry.line b.old b.new }
{
    if i < site.frame.locals.params {
        return Ok(Reg(i));
    }
    let flag = site.frame.locals.flag(i);
    emit_flag_test(b, site.alloc, flag, site.locals[i].name.as_str(), site.line)?;
    Ok(Reg(i))
}

// Whether values of a type may be None.
fn may_be_none(t: &Ty) -> bool
    ensures { result ≡ is_optional (sort t.now) }
{
    matches!(t, Ty::Optional(_))
}

/// The value of a variable that is read as one of a type: one that may be None and is known not to be is read as one of the type that
/// it has else (PEP 484, "Union types").
pub(crate) fn emit_local_as(b: &mut Emitter, site: Site, i: usize, t: &Ty) -> Result<Reg, Memory>
    requires there { i < length site.locals.now }
    requires reads { ReadsLocal (setting_of site) i (sort t.now) }
    requires room { HasRoom (setting_of site) b.old }
    ensures kept { Extends b.old b.new }
    ensures emitted { IfOk result (λ r. TakesLocal (setting_of site.entry) i (sort t.now) b.old b.new r.0) }
    ensures lined { OwnLines site.entry.line b.old b.new }
{
    let x = emit_local(b, site, i)?;
    if may_be_none(&site.locals[i].ty) {
        emit_unboxed(b, site.alloc, t, x, site.line)
    } else {
        Ok(x)
    }
}
