//! The code of assignments to items of lists.
ghost use Rattle.std.specs.Prelude.{◌≡◌, [], ◌∷◌, Option, None, IfOk, OnOk};
ghost use Rattle.py_typed.specs.Sorts.{Sort, sort, ListOf, Optional};
ghost use Rattle.py_typed.specs.Expressions.{typed_expr, type_of};
ghost use Rattle.py_typed.specs.Statements.{ItemTarget};
ghost use Rattle.source_meaning.specs.Operations.{arithmetic, combined};
ghost use Rattle.ir_builder_frames.specs.Building.{Extends};
ghost use Rattle.ir_builder_frames.specs.Computing.{Shows, Attempts};
ghost use Rattle.ir_builder_frames.specs.Lines.{OwnLines};
ghost use Rattle.ir_builder_frames.specs.Matching.{HasRoom};
ghost use Rattle.ir_builder_frames.specs.Placing.{HasType};
ghost use Rattle.ir_builder_frames.specs.Settings.{rtype_of};
ghost use Rattle.ir_builder_operations.specs.Operating.{ActsOnTwo};
ghost use Rattle.ir_builder_expressions.specs.Applying.{BinarySuits, arithmetic_of};
ghost use Rattle.ir_builder_expressions.specs.Site.{setting_of};
ghost use Rattle.ir_builder_expressions.specs.Suiting.{Suits};
ghost use Rattle.ir_builder_loops_and_jumps.specs.Means.{means_update};
ghost use Rattle.ir_builder_loops_and_jumps.specs.Runs.{Works};
ghost use Rattle.ir_builder_statements.specs.Suiting.{ItemSuits, ItemUpdates, UpdateSuits};
ghost use Rattle.ir_builder_statements.specs.Parts.{changed_as};
ghost use Rattle.ir_builder_statements.specs.Targets.{PutsEach};
ghost use Rattle.ir_builder_statements.specs.Lined.{value as value_piece, LinedPieces};

use crate::simple::emit_own;
use ir_builder_expressions::{Binary, Site, emit_expression};
use ir_builder_frames::Emitter;
use ir_builder_operations::{Operation, emit_boxed, emit_coercion, emit_item, emit_operation};
use ir_core::{RType, Reg};
use py_syntax::BinOp;
use py_typed::{TExpr, Ty};
use std::alloc::Global;
use value_core::Memory;

/// Puts the value of a register into the item of a list at an index, whose type it has: it becomes an object, and then come the list
/// and the index. All of it but these two has the line of the statement. At run time an index out of range raises IndexError.
pub(crate) fn emit_item_set(
    b: &mut Emitter,
    site: Site,
    list: &TExpr,
    index: &TExpr,
    r: Reg,
) -> Result<(), Memory>
    requires item { (u : Sort) × ItemSuits (setting_of site).source (setting_of site).variables None (typed_expr list.now) (typed_expr index.now) u × HasType b.old r.0 (rtype_of u) }
    requires room { HasRoom (setting_of site) b.old }
    ensures kept { Extends b.old b.new }
    ensures puts { OnOk result (PutsEach (setting_of site.entry) (ItemTarget (typed_expr list.now) (typed_expr index.now) ∷ []) (r ∷ []) b.old b.new) }
    ensures lined { OnOk result (LinedPieces (setting_of site.entry) site.entry.line (value_piece (typed_expr list.now) ∷ value_piece (typed_expr index.now) ∷ []) b.old b.new) }
{
    let own = item_type(list);
    let item = emit_boxed(b, site.alloc, own, r, site.line)?;
    let xs = emit_expression(b, site, list)?;
    let i = emit_expression(b, site, index)?;
    emit_operation(
        b,
        site.alloc,
        Operation::ItemChange,
        &[xs, i, item],
        site.line,
    )?;
    Ok(())
}

/// The type of the items of a list.
pub(crate) fn item_type(list: &TExpr) -> &Ty
    requires { (u : Sort) × (type_of (typed_expr list.now) ≡ ListOf u) }
    ensures { type_of (typed_expr list.now) ≡ ListOf (sort result.now) }
{
    match &list.ty {
        Ty::List(t) => t,
        _ => unreachable!(),
    }
}

// The operation of an operator on numbers of a type.
fn arithmetic_on(t: &Ty, op: BinOp) -> Operation
    ensures { result ≡ arithmetic_of (sort t.now) op }
{
    match t {
        Ty::I64 => Operation::NativeArithmetic(op),
        _ => Operation::IntArithmetic(op),
    }
}

// The result of an operator in a type on numbers of two types. Both are there before the first is coerced.
fn emit_numbers(
    b: &mut Emitter,
    alloc: Global,
    op: BinOp,
    t: &Ty,
    left: &Ty,
    right: &Ty,
    x: Reg,
    y: Reg,
    line: usize,
) -> Result<Reg, Memory>
    requires fits { BinarySuits (Binary.Arithmetic op) (sort t.now) (sort left.now) (sort right.now) }
    requires left_value { HasType b.old x.0 (rtype_of (sort left.now)) }
    requires right_value { HasType b.old y.0 (rtype_of (sort right.now)) }
    ensures kept { Extends b.old b.new }
    ensures made { IfOk result (λ r. Attempts (Shows (sort t.now)) b.old b.new r.0 (rtype_of (sort t.now)) (ActsOnTwo (sort left.now) (sort right.now) x.0 y.0 (arithmetic (sort t.now) op))) }
    ensures lined { OwnLines line b.old b.new }
{
    let first = emit_coercion(b, alloc, left, t, x, line)?;
    let second = emit_coercion(b, alloc, right, t, y, line)?;
    let operation = arithmetic_on(t, op);
    emit_operation(b, alloc, operation, &[first, second], line)
}

// The result of the operator of an update in a type, on an old value and an operand.
fn emit_combined(
    b: &mut Emitter,
    site: Site,
    op: BinOp,
    t: &Ty,
    own: &Ty,
    operand: &Ty,
    x: Reg,
    y: Reg,
) -> Result<Reg, Memory>
    requires fits { UpdateSuits (setting_of site).source (setting_of site).variables None op (sort own.now) (sort t.now) (sort operand.now) }
    requires old_value { HasType b.old x.0 (rtype_of (sort own.now)) }
    requires operand_value { HasType b.old y.0 (rtype_of (sort operand.now)) }
    ensures kept { Extends b.old b.new }
    ensures made { IfOk result (λ r. Attempts (Shows (sort t.now)) b.old b.new r.0 (rtype_of (sort t.now)) (ActsOnTwo (sort own.now) (sort operand.now) x.0 y.0 (combined (sort t.now) op))) }
    ensures lined { OwnLines site.entry.line b.old b.new }
{
    match t {
        Ty::Str => emit_operation(b, site.alloc, Operation::Concatenation, &[x, y], site.line),
        _ => emit_numbers(b, site.alloc, op, t, own, operand, x, y, site.line),
    }
}

// What an update makes of an old value and an operand, as an object of the old value's type.
fn emit_changed(
    b: &mut Emitter,
    site: Site,
    op: BinOp,
    t: &Ty,
    own: &Ty,
    operand: &Ty,
    x: Reg,
    y: Reg,
) -> Result<Reg, Memory>
    requires fits { UpdateSuits (setting_of site).source (setting_of site).variables None op (sort own.now) (sort t.now) (sort operand.now) }
    requires old_value { HasType b.old x.0 (rtype_of (sort own.now)) }
    requires operand_value { HasType b.old y.0 (rtype_of (sort operand.now)) }
    ensures kept { Extends b.old b.new }
    ensures made { IfOk result (λ r. Attempts (Shows (Optional (sort own.now))) b.old b.new r.0 RType.Ref (ActsOnTwo (sort own.now) (sort operand.now) x.0 y.0 (changed_as (sort own.now) op (sort t.now)))) }
    ensures lined { OwnLines site.entry.line b.old b.new }
{
    let result = emit_combined(b, site, op, t, own, operand, x, y)?;
    let value = emit_own(b, site.alloc, t, own, result, site.line)?;
    emit_boxed(b, site.alloc, own, value, site.line)
}

/// Changes the item of a list at an index by an operation in a type: the list and the index are evaluated once, then the item is
/// read, and then the operand is evaluated. All of it but these three has the line of the statement. At run time an index out of
/// range raises IndexError.
pub(crate) fn emit_item_update(
    b: &mut Emitter,
    site: Site,
    list: &TExpr,
    index: &TExpr,
    op: BinOp,
    e: &TExpr,
    t: &Ty,
) -> Result<(), Memory>
    requires fits { ItemUpdates (setting_of site).source (setting_of site).variables None (typed_expr list.now) (typed_expr index.now) op (sort t.now) (type_of (typed_expr e.now)) }
    requires suits { Suits (setting_of site).source (setting_of site).variables (typed_expr e.now) }
    requires room { HasRoom (setting_of site) b.old }
    ensures kept { Extends b.old b.new }
    ensures works { OnOk result ((gives : Option Sort) → Works (setting_of site.entry) gives (means_update (setting_of site.entry) (ItemTarget (typed_expr list.now) (typed_expr index.now)) op (typed_expr e.now) (sort t.now)) b.old b.new []) }
    ensures lined { OnOk result (LinedPieces (setting_of site.entry) site.entry.line (value_piece (typed_expr list.now) ∷ value_piece (typed_expr index.now) ∷ value_piece (typed_expr e.now) ∷ []) b.old b.new) }
{
    let own = item_type(list);
    let xs = emit_expression(b, site, list)?;
    let i = emit_expression(b, site, index)?;
    let old = emit_item(b, site.alloc, own, xs, i, site.line)?;
    let y = emit_expression(b, site, e)?;
    let changed = emit_changed(b, site, op, t, own, &e.ty, old, y)?;
    emit_operation(
        b,
        site.alloc,
        Operation::ItemChange,
        &[xs, i, changed],
        site.line,
    )?;
    Ok(())
}
