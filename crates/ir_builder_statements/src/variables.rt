//! Variables that statements read and set.
ghost use Rattle.std.specs.Prelude.{◌≡◌, true, List, None, OnOk};
ghost use Rattle.py_typed.specs.Sorts.{Sort, sort};
ghost use Rattle.py_typed.specs.Expressions.{typed_expr};
ghost use Rattle.py_typed.specs.Statements.{TypedModule, Variable, typed_target, variable};
ghost use Rattle.ir_builder_frames.specs.Building.{Extends};
ghost use Rattle.ir_builder_frames.specs.Kinds.{AreAlike};
ghost use Rattle.ir_builder_frames.specs.Among.{IsAmong};
ghost use Rattle.ir_builder_expressions.specs.Site.{setting_of};
ghost use Rattle.ir_builder_expressions.specs.Parts.{is_scalar};
ghost use Rattle.ir_builder_statements.specs.Suiting.{IsVariable, IsRead};
ghost use Rattle.ir_builder_statements.specs.Parts.{HasFlag, SetsLocal, SetsGlobal, TakesGlobal, TakesRegister, SetsVariable, reading_of};
ghost use Rattle.ir_builder_frames.specs.Lines.{OwnLines};

use c_core::{GlobalPrim, Prim};
use ir_builder_expressions::Site;
use ir_builder_frames::{Emitter, Frame};
use ir_core::{Lit, Op, PArg, Reg};
use py_syntax::Span;
use py_typed::{TExpr, TKind, Target, Ty, Var};
use std::alloc::Global;
use value_core::{Many, Memory};

// A type of numbers, bools or texts.
fn simple_type(t: &Ty) -> Ty
    requires { is_scalar (sort t.now) ≡ true }
    ensures { sort result ≡ sort t.now }
{
    match t {
        Ty::Int => Ty::Int,
        Ty::I64 => Ty::I64,
        Ty::Bool => Ty::Bool,
        Ty::Str => Ty::Str,
        _ => unreachable!(),
    }
}

/// The type of the variable that a target is.
pub(crate) fn variable_type<'a>(site: Site<'a>, target: &Target) -> &'a Ty
    requires { (u : Sort) × IsVariable (setting_of site).source (setting_of site).variables None (typed_target target.now) u }
    ensures { IsVariable (setting_of site.entry).source (setting_of site.entry).variables None (typed_target target.now) (sort result.now) }
{
    match target {
        Target::Local(k) => &site.locals[*k].ty,
        Target::Global(i) => &site.checked.globals.as_slice()[*i].ty,
        _ => unreachable!(),
    }
}

/// The expression that reads a variable of a type.
pub(crate) fn reading(target: &Target, t: &Ty, span: Span) -> TExpr
    requires simple { is_scalar (sort t.now) ≡ true }
    requires variable { (m : TypedModule) × (vs : List Variable) × IsRead m vs None (typed_target target.now) (sort t.now) }
    ensures same { sort result.ty ≡ sort t.now }
    ensures reads { typed_expr result ≡ reading_of (typed_target target.now) (sort t.now) span }
{
    let ty = simple_type(t);
    let kind = match target {
        Target::Local(k) => TKind::Local(*k),
        Target::Global(i) => TKind::Global(*i),
        _ => unreachable!(),
    };
    TExpr { kind, ty, span }
}

// Puts a value into a variable of the function. The flag of one that is no parameter is set behind it.
fn set_local(b: &mut Emitter, frame: Frame, k: usize, r: Reg, line: usize) -> Result<(), Memory>
    requires flagged { HasFlag frame k b.old }
    requires alike { AreAlike b.old.regs (record { 0 = k }) r }
    ensures kept { Extends b.old b.new }
    ensures sets { OnOk result (SetsLocal frame k r.0 b.old b.new) }
    ensures lined { OwnLines line b.old b.new }
{
    b.push(Op::Move(Reg(k), r), line)?;
    if k < frame.locals.params {
        return Ok(());
    }
    let flag = frame.locals.flag(k);
    b.push(Op::Lit(flag, Lit::Number(1)), line)
}

// Puts a value into a variable of the module.
fn set_global(b: &mut Emitter, site: Site, i: usize, r: Reg) -> Result<(), Memory>
    requires takes { TakesGlobal (setting_of site).source i r.0 b.old }
    requires among { IsAmong (setting_of site).source b.old.among }
    ensures kept { Extends b.old b.new }
    ensures sets { OnOk result (SetsGlobal (setting_of site.entry).source i r.0 b.old b.new) }
    ensures lined { OwnLines site.entry.line b.old b.new }
{
    let name = site.checked.globals.as_slice()[i].name.clone()?;
    let mut args = Many::new(site.alloc);
    args.push(PArg::Global(name))?;
    args.push(PArg::Var(r))?;
    b.push(
        Op::Prim(None, Prim::Global(GlobalPrim::Set), args),
        site.line,
    )
}

/// Puts the value of a register into a variable of its type.
pub(crate) fn emit_set(b: &mut Emitter, site: Site, target: &Target, r: Reg) -> Result<(), Memory>
    requires { TakesRegister (setting_of site).source site.frame (typed_target target.now) r.0 b.old }
    ensures kept { Extends b.old b.new }
    ensures sets { OnOk result (SetsVariable (setting_of site.entry).source site.entry.frame (typed_target target.now) r.0 b.old b.new) }
    ensures lined { OwnLines site.entry.line b.old b.new }
{
    match target {
        Target::Local(k) => set_local(b, site.frame, *k, r, site.line),
        Target::Global(i) => set_global(b, site, *i, r),
        _ => unreachable!(),
    }
}
