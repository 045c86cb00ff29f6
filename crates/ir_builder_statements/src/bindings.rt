//! Values that a loop keeps.
ghost use Rattle.std.specs.Prelude.{◌∷◌, [], IfOk, OnOk};
ghost use Rattle.py_typed.specs.Expressions.{typed_expr, type_of};
ghost use Rattle.ir_builder_frames.specs.Building.{Extends};
ghost use Rattle.ir_builder_frames.specs.Computing.{means};
ghost use Rattle.ir_builder_frames.specs.Matching.{HasRoom};
ghost use Rattle.ir_builder_expressions.specs.Site.{setting_of};
ghost use Rattle.ir_builder_expressions.specs.Suiting.{Suits};
ghost use Rattle.ir_builder_statements.specs.Counting.{ComputesNew};
ghost use Rattle.ir_builder_statements.specs.Lined.{value as value_piece, LinedPieces};

use crate::counting::emit_copy;
use ir_builder_expressions::{Site, emit_expression, register_type};
use ir_builder_frames::Emitter;
use ir_core::Reg;
use py_typed::TExpr;
use value_core::Memory;

/// The value of an expression in a register of its own, which the statement keeps.
pub(crate) fn emit_kept(b: &mut Emitter, site: Site, e: &TExpr) -> Result<Reg, Memory>
    requires suits { Suits (setting_of site).source (setting_of site).variables (typed_expr e.now) }
    requires room { HasRoom (setting_of site) b.old }
    ensures kept { Extends b.old b.new }
    ensures computes { IfOk result (λ r. ComputesNew (setting_of site.entry) (type_of (typed_expr e.now)) (means (setting_of site.entry) (typed_expr e.now)) b.old b.new r.0) }
    ensures lined { OnOk result (LinedPieces (setting_of site.entry) site.entry.line (value_piece (typed_expr e.now) ∷ []) b.old b.new) }
{
    let r = emit_expression(b, site, e)?;
    emit_copy(b, register_type(&e.ty), r, site.line)
}
