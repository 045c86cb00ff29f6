//! The code of simple statements.
ghost use Rattle.std.specs.Prelude.{◌≡◌, [], true, map, Option, Some, None, IfOk, OnOk, ◌∷◌, ◌++◌};
ghost use Rattle.py_typed.specs.Sorts.{Sort, sort};
ghost use Rattle.py_typed.specs.Expressions.{typed_expr, type_of};
ghost use Rattle.py_typed.specs.Statements.{typed_target, maybe_typed, variable};
ghost use Rattle.source_meaning.specs.Operations.{coerced};
ghost use Rattle.source_soundness.specs.Watched.{bare};
ghost use Rattle.ir_builder_frames.specs.Building.{Extends};
ghost use Rattle.ir_builder_frames.specs.Settings.{rtype_of};
ghost use Rattle.ir_builder_frames.specs.Placing.{HasType};
ghost use Rattle.ir_builder_frames.specs.Matching.{HasRoom};
ghost use Rattle.ir_builder_frames.specs.Computing.{Shows, Attempts};
ghost use Rattle.ir_builder_operations.specs.Operating.{ActsOn};
ghost use Rattle.ir_builder_expressions.specs.Site.{setting_of};
ghost use Rattle.ir_builder_expressions.specs.Suiting.{Suits};
ghost use Rattle.ir_builder_expressions.specs.Emitting.{EmitsTwo};
ghost use Rattle.ir_builder_expressions.specs.Lined.{LinedParts};
ghost use Rattle.ir_builder_loops_and_jumps.specs.Means.{means_assignment, means_update, means_return, returned_type};
ghost use Rattle.ir_builder_loops_and_jumps.specs.Runs.{Works};
ghost use Rattle.ir_builder_statements.specs.Suiting.{IsRead, TargetsSuit, UpdateSuits, VariableUpdates, TargetUpdates, ReturnSuits};
ghost use Rattle.ir_builder_statements.specs.Kinds.{GivesResult};
ghost use Rattle.ir_builder_statements.specs.Parts.{ComputesReturned, update_binary, reading_of, TurnsInto};
ghost use Rattle.ir_builder_frames.specs.Lines.{OwnLines};
ghost use Rattle.ir_builder_statements.specs.Lined.{value as value_piece, returned_pieces, target_pieces, all_target_pieces, LinedPieces};

use crate::items::emit_item_update;
use crate::targets::emit_targets;
use crate::variables::{emit_set, reading, variable_type};
use ir_builder_expressions::{Binary, Site, emit_expression, emit_two_parts};
use ir_builder_frames::Emitter;
use ir_builder_operations::{emit_coercion, emit_conversion};
use ir_core::{Last, Lit, RType, Reg};
use py_syntax::{BinOp, Span};
use py_typed::{TExpr, Target, Ty};
use std::alloc::Global;
use value_core::Memory;

/// Assigns to variables and items of lists (Python Language Reference, "Assignment statements"). The parts of the targets are
/// evaluated behind the value. At run time OverflowError is raised where an `int` has no place in 64 bits, and IndexError where an
/// index is out of range.
pub(crate) fn emit_assignment(
    b: &mut Emitter,
    site: Site,
    targets: &[Target],
    e: &TExpr,
) -> Result<(), Memory>
    requires targets { TargetsSuit (setting_of site).source (setting_of site).variables None (map typed_target targets.now) (type_of (typed_expr e.now)) }
    requires suits { Suits (setting_of site).source (setting_of site).variables (typed_expr e.now) }
    requires room { HasRoom (setting_of site) b.old }
    ensures kept { Extends b.old b.new }
    ensures works { OnOk result ((gives : Option Sort) → Works (setting_of site.entry) gives (means_assignment (setting_of site.entry) (map typed_target targets.now) (typed_expr e.now)) b.old b.new []) }
    ensures lined { OnOk result (LinedPieces (setting_of site.entry) site.entry.line (value_piece (typed_expr e.now) ∷ all_target_pieces (map typed_target targets.now)) b.old b.new) }
{
    let r = emit_expression(b, site, e)?;
    emit_targets(b, site, targets, &e.ty, r)
}

// The operation of an update in a type.
fn updating(op: BinOp, t: &Ty) -> Binary
    ensures { result ≡ update_binary op (sort t.now) }
{
    match t {
        Ty::Str => Binary::Joined,
        _ => Binary::Arithmetic(op),
    }
}

/// The result of an operation in a type, as a value of the target's own type.
pub(crate) fn emit_own(
    b: &mut Emitter,
    alloc: Global,
    t: &Ty,
    own: &Ty,
    x: Reg,
    line: usize,
) -> Result<Reg, Memory>
    requires turns { TurnsInto (sort t.now) (sort own.now) }
    requires value { HasType b.old x.0 (rtype_of (sort t.now)) }
    ensures kept { Extends b.old b.new }
    ensures made { IfOk result (λ r. Attempts (Shows (sort own.now)) b.old b.new r.0 (rtype_of (sort own.now)) (ActsOn (sort t.now) x.0 (coerced (sort own.now)))) }
    ensures lined { OwnLines line b.old b.new }
{
    match own {
        Ty::Str => Ok(x),
        _ => emit_coercion(b, alloc, t, own, x, line),
    }
}

// The type of a value that is not None.
fn bare_type(t: &Ty) -> &Ty
    ensures { sort result.now ≡ bare (sort t.now) }
{
    match t {
        Ty::Optional(inner) => inner,
        _ => t,
    }
}

// The result of an operation in a type on the value of a variable, read at another type, and on an operand. The variable is read with
// the line of the statement.
fn emit_updated(
    b: &mut Emitter,
    site: Site,
    target: &Target,
    read: &Ty,
    op: BinOp,
    e: &TExpr,
    t: &Ty,
) -> Result<Reg, Memory>
    requires variable { IsRead (setting_of site).source (setting_of site).variables None (typed_target target.now) (sort read.now) }
    requires fits { UpdateSuits (setting_of site).source (setting_of site).variables None op (sort read.now) (sort t.now) (type_of (typed_expr e.now)) }
    requires suits { Suits (setting_of site).source (setting_of site).variables (typed_expr e.now) }
    requires room { HasRoom (setting_of site) b.old }
    ensures kept { Extends b.old b.new }
    ensures emitted { IfOk result (λ r. EmitsTwo (setting_of site.entry) (update_binary op (sort t.now)) (sort t.now) (reading_of (typed_target target.now) (sort read.now) (record { line = site.entry.line; col = e.now.span.col })) (typed_expr e.now) b.old b.new r.0) }
    ensures lined { OnOk result (LinedParts (setting_of site.entry) site.entry.line (reading_of (typed_target target.now) (sort read.now) (record { line = site.entry.line; col = e.now.span.col }) ∷ typed_expr e.now ∷ []) b.old b.new) }
{
    let place = Span {
        line: site.line,
        ..e.span
    };
    let before = reading(target, read, place);
    emit_two_parts(b, site, updating(op, t), t, &before, e)
}

// Changes a variable by an operation in a type: it is read, then the operand is evaluated, and the result is turned into the
// variable's own type. A variable that may be None is not, and is read as a value of the type under its own. All of it but the operand
// has the line of the statement.
fn emit_variable_update(
    b: &mut Emitter,
    site: Site,
    target: &Target,
    op: BinOp,
    e: &TExpr,
    t: &Ty,
) -> Result<(), Memory>
    requires fits { VariableUpdates (setting_of site).source (setting_of site).variables None (typed_target target.now) op (sort t.now) (type_of (typed_expr e.now)) }
    requires suits { Suits (setting_of site).source (setting_of site).variables (typed_expr e.now) }
    requires room { HasRoom (setting_of site) b.old }
    ensures kept { Extends b.old b.new }
    ensures works { OnOk result ((gives : Option Sort) → Works (setting_of site.entry) gives (means_update (setting_of site.entry) (typed_target target.now) op (typed_expr e.now) (sort t.now)) b.old b.new []) }
    ensures lined { OnOk result (LinedPieces (setting_of site.entry) site.entry.line (value_piece (typed_expr e.now) ∷ []) b.old b.new) }
{
    let own = variable_type(site, target);
    let read = bare_type(own);
    let result = emit_updated(b, site, target, read, op, e, t)?;
    let value = emit_conversion(b, site.alloc, t, own, result, site.line)?;
    emit_set(b, site, target, value)
}

/// Changes a variable or an item of a list by an operation in a type (Python Language Reference, "Augmented assignment statements"):
/// the parts of the target are evaluated once, and then it is read, before the operand is evaluated. The result is turned into the
/// target's own type. All of it but the parts and the operand has the line of the statement. At run time an index out of range
/// raises IndexError.
pub(crate) fn emit_update(
    b: &mut Emitter,
    site: Site,
    target: &Target,
    op: BinOp,
    e: &TExpr,
    t: &Ty,
) -> Result<(), Memory>
    requires fits { TargetUpdates (setting_of site).source (setting_of site).variables None (typed_target target.now) op (sort t.now) (type_of (typed_expr e.now)) }
    requires suits { Suits (setting_of site).source (setting_of site).variables (typed_expr e.now) }
    requires room { HasRoom (setting_of site) b.old }
    ensures kept { Extends b.old b.new }
    ensures works { OnOk result ((gives : Option Sort) → Works (setting_of site.entry) gives (means_update (setting_of site.entry) (typed_target target.now) op (typed_expr e.now) (sort t.now)) b.old b.new []) }
    ensures lined { OnOk result (LinedPieces (setting_of site.entry) site.entry.line (target_pieces (typed_target target.now) ++ value_piece (typed_expr e.now) ∷ []) b.old b.new) }
{
    match target {
        Target::At(list, index) => emit_item_update(b, site, list, index, op, e, t),
        _ => emit_variable_update(b, site, target, op, e, t),
    }
}

// The value that is returned, in a register. Without one it is None.
fn emit_returned(b: &mut Emitter, site: Site, value: &Option<TExpr>) -> Result<Reg, Memory>
    requires suits { ReturnSuits (setting_of site).source (setting_of site).variables (Some (returned_type (maybe_typed value.now))) (maybe_typed value.now) }
    requires room { HasRoom (setting_of site) b.old }
    ensures kept { Extends b.old b.new }
    ensures computes { IfOk result (λ r. ComputesReturned (setting_of site.entry) (maybe_typed value.now) b.old b.new r.0) }
    ensures lined { OnOk result (LinedPieces (setting_of site.entry) site.entry.line (returned_pieces (maybe_typed value.now)) b.old b.new) }
{
    match value {
        Some(e) => emit_expression(b, site, e),
        None => b.literal(RType::Ref, Lit::PyNone, site.line),
    }
}

/// Returns (Python Language Reference, "The return statement").
pub(crate) fn emit_return(b: &mut Emitter, site: Site, value: &Option<TExpr>) -> Result<(), Memory>
    requires suits { ReturnSuits (setting_of site).source (setting_of site).variables (Some (returned_type (maybe_typed value.now))) (maybe_typed value.now) }
    requires room { HasRoom (setting_of site) b.old }
    requires alone { site.frame.ret ≡ None }
    requires result { GivesResult (Some (returned_type (maybe_typed value.now))) b.old.among }
    ensures kept { Extends b.old b.new }
    ensures works { OnOk result (Works (setting_of site.entry) (Some (returned_type (maybe_typed value.now))) (means_return (setting_of site.entry) (maybe_typed value.now)) b.old b.new []) }
    ensures lined { OnOk result (LinedPieces (setting_of site.entry) site.entry.line (returned_pieces (maybe_typed value.now)) b.old b.new) }
{
    let r = emit_returned(b, site, value)?;
    b.close(Last::Return(r))?;
    Ok(())
}
