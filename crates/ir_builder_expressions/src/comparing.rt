//! Pairs of operands that are compared.
ghost use Rattle.std.specs.Prelude.{◌≡◌, IfOk, true};
ghost use Rattle.py_typed.specs.Fits.{is_number};
ghost use Rattle.py_typed.specs.Sorts.{sort, Bool as BoolSort};
ghost use Rattle.py_typed.specs.Expressions.{typed_expr};
ghost use Rattle.source_meaning.specs.Operations.{coerced, compared_as};
ghost use Rattle.ir_builder_frames.specs.Building.{Extends};
ghost use Rattle.ir_builder_frames.specs.Computing.{Shows, Attempts};
ghost use Rattle.ir_builder_frames.specs.Placing.{HasType};
ghost use Rattle.ir_builder_frames.specs.Settings.{rtype_of};
ghost use Rattle.ir_builder_frames.specs.Lines.{OwnLines};
ghost use Rattle.ir_builder_operations.specs.Operating.{ActsOn, ActsOnTwo};
ghost use Rattle.ir_builder_operations.specs.Selecting.{is_whole};
ghost use Rattle.ir_builder_operations.specs.Rows.{compared_sort};
ghost use Rattle.ir_builder_comparisons.specs.Comparing.{is_ordering};
ghost use Rattle.ir_builder_expressions.specs.Parts.{is_scalar, part_sort, is_pair};
ghost use Rattle.ir_builder_expressions.specs.Comparing.{kind_sort, is_shown_as, compared_in, is_brought, holds_as};

use crate::applying::native_literal;
use ir_builder_comparisons::emit_comparison;
use ir_builder_frames::Emitter;
use ir_builder_operations::{Compared, emit_coercion};
use ir_core::{RType, Reg};
use py_syntax::CmpOp;
use py_typed::{TExpr, Ty};
use std::alloc::Global;
use value_core::Memory;

/// A type of operands.
#[derive(Clone, Copy)]
pub enum Kind {
    Int,
    I64,
    Bool,
    Str,
}

/// An operand whose value is in a register: its own type, and that of the register.
#[derive(Clone, Copy)]
pub struct Side {
    pub reg: Reg,
    pub own: Kind,
    pub shown: Kind,
}

/// The type of an operand.
pub fn kind_of(t: &Ty) -> Kind
    ensures { is_scalar (sort t.now) ≡ true → kind_sort result ≡ sort t.now }
{
    match t {
        Ty::Int => Kind::Int,
        Ty::I64 => Kind::I64,
        Ty::Bool => Kind::Bool,
        _ => Kind::Str,
    }
}

/// It as a type.
pub fn type_of_kind(kind: Kind) -> Ty
    ensures { sort result ≡ kind_sort kind }
{
    match kind {
        Kind::Int => Ty::Int,
        Kind::I64 => Ty::I64,
        Kind::Bool => Ty::Bool,
        Kind::Str => Ty::Str,
    }
}

/// The type in which two operands are compared.
pub fn joined_kind(left: Kind, right: Kind) -> Kind
    ensures { kind_sort result ≡ compared_as (kind_sort left) (kind_sort right) }
{
    match (left, right) {
        (Kind::I64, _) => Kind::I64,
        (_, Kind::I64) => Kind::I64,
        (Kind::Int, _) => Kind::Int,
        (_, Kind::Int) => Kind::Int,
        _ => left,
    }
}

/// The type of the register of an operand that is compared in a type.
pub fn shown_kind(e: &TExpr, to: &Ty) -> Kind
    requires { is_scalar (sort e.now.ty) ≡ true }
    ensures { kind_sort result ≡ part_sort (sort to.now) (typed_expr e.now) }
{
    match native_literal(e, to) {
        Some(_) => Kind::I64,
        None => kind_of(&e.ty),
    }
}

// What two operands are compared as.
fn compared_between(left: Kind, right: Kind) -> Compared
    ensures { result ≡ compared_in (compared_as (kind_sort left) (kind_sort right)) }
{
    match (left, right) {
        (Kind::I64, _) => Compared::Natives,
        (_, Kind::I64) => Compared::Natives,
        (Kind::Int, _) => Compared::Ints,
        (_, Kind::Int) => Compared::Ints,
        (Kind::Str, _) => Compared::Texts,
        _ => Compared::Natives,
    }
}

// The type of what is compared.
fn type_of_compared(compared: Compared) -> Ty
    ensures { sort result ≡ compared_sort compared }
{
    match compared {
        Compared::Ints => Ty::Int,
        Compared::Natives => Ty::I64,
        Compared::Texts => Ty::Str,
    }
}

// A number of one type as one of another.
fn emit_shown(
    b: &mut Emitter,
    alloc: Global,
    from: Kind,
    to: Compared,
    x: Reg,
    line: usize,
) -> Result<Reg, Memory>
    requires numeric { is_number (kind_sort from) ≡ true }
    requires whole { is_whole (compared_sort to) ≡ true }
    requires value { HasType b.old x.0 (rtype_of (kind_sort from)) }
    ensures kept { Extends b.old b.new }
    ensures made { IfOk result (λ r. Attempts (Shows (compared_sort to)) b.old b.new r.0 (rtype_of (compared_sort to)) (ActsOn (kind_sort from) x.0 (coerced (compared_sort to)))) }
    ensures lined { OwnLines line b.old b.new }
{
    let from = type_of_kind(from);
    let to = type_of_compared(to);
    emit_coercion(b, alloc, &from, &to, x, line)
}

// An operand as a value of the type in which it is compared.
fn emit_brought(
    b: &mut Emitter,
    alloc: Global,
    from: Kind,
    to: Compared,
    x: Reg,
    line: usize,
) -> Result<Reg, Memory>
    requires brought { is_brought to (kind_sort from) ≡ true }
    requires value { HasType b.old x.0 (rtype_of (kind_sort from)) }
    ensures kept { Extends b.old b.new }
    ensures made { IfOk result (λ r. Attempts (Shows (compared_sort to)) b.old b.new r.0 (rtype_of (compared_sort to)) (ActsOn (kind_sort from) x.0 (coerced (compared_sort to)))) }
    ensures lined { OwnLines line b.old b.new }
{
    match to {
        Compared::Texts => Ok(x),
        _ => emit_shown(b, alloc, from, to, x, line),
    }
}

/// A comparison of two operands (Python Language Reference, "Value comparisons"): of numbers in the type of both, of bools, or of
/// texts. Both operands are there before the first is coerced. At run time an `int` beside a native integer raises OverflowError
/// where it does not fit.
pub fn emit_pair(
    b: &mut Emitter,
    alloc: Global,
    op: CmpOp,
    left: Side,
    right: Side,
    line: usize,
) -> Result<Reg, Memory>
    requires ordering { is_ordering op ≡ true }
    requires compared { is_pair (kind_sort left.own) (kind_sort right.own) ≡ true }
    requires left_shown { is_shown_as (kind_sort left.own) (kind_sort left.shown) ≡ true }
    requires right_shown { is_shown_as (kind_sort right.own) (kind_sort right.shown) ≡ true }
    requires left { HasType b.old left.reg.0 (rtype_of (kind_sort left.shown)) }
    requires right { HasType b.old right.reg.0 (rtype_of (kind_sort right.shown)) }
    ensures kept { Extends b.old b.new }
    ensures made { IfOk result (λ r. Attempts (Shows BoolSort) b.old b.new r.0 RType.Bool (ActsOnTwo (kind_sort left.shown) (kind_sort right.shown) left.reg.0 right.reg.0 (holds_as op (kind_sort left.own) (kind_sort right.own)))) }
    ensures lined { OwnLines line b.old b.new }
{
    let to = compared_between(left.own, right.own);
    let x = emit_brought(b, alloc, left.shown, to, left.reg, line)?;
    let y = emit_brought(b, alloc, right.shown, to, right.reg, line)?;
    emit_comparison(b, alloc, to, op, x, y, line)
}
