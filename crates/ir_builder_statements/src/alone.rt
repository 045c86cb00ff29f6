//! The code of an expression alone, of which `print` is one.
ghost use Rattle.std.specs.Prelude.{[], Option, None, OnOk};
ghost use Rattle.py_typed.specs.Sorts.{Sort};
ghost use Rattle.py_typed.specs.Expressions.{typed_expr};
ghost use Rattle.ir_builder_frames.specs.Building.{Extends};
ghost use Rattle.ir_builder_frames.specs.Matching.{HasRoom};
ghost use Rattle.ir_builder_expressions.specs.Site.{setting_of};
ghost use Rattle.ir_builder_loops_and_jumps.specs.Means.{means_alone};
ghost use Rattle.ir_builder_loops_and_jumps.specs.Runs.{Works};
ghost use Rattle.ir_builder_statements.specs.Suiting.{DoSuits};
ghost use Rattle.ir_builder_expressions.specs.Lined.{Lined};

use ir_builder_expressions::{Site, emit_arguments, emit_expression};
use ir_builder_frames::Emitter;
use ir_builder_loops_and_jumps::emit_print;
use py_typed::{TExpr, TKind};
use value_core::Memory;

/// Emits an expression alone, whose value is not kept (Python Language Reference, "Expression statements"). The values of a `print`
/// are all computed before the first is written.
pub(crate) fn emit_alone(b: &mut Emitter, site: Site, e: &TExpr) -> Result<(), Memory>
    requires suits { DoSuits (setting_of site).source (setting_of site).variables None (typed_expr e.now) }
    requires room { HasRoom (setting_of site) b.old }
    ensures kept { Extends b.old b.new }
    ensures works { OnOk result ((gives : Option Sort) → Works (setting_of site.entry) gives (means_alone (setting_of site.entry) (typed_expr e.now)) b.old b.new []) }
    ensures lined { OnOk result (Lined (setting_of site.entry) (typed_expr e.now) b.old b.new) }
{
    match &e.kind {
        TKind::Print(values) => {
            let site = Site {
                line: e.span.line,
                ..site
            };
            let values = values.as_slice();
            let regs = emit_arguments(b, site, values)?;
            emit_print(b, site.alloc, values, regs.as_slice(), site.line)
        }
        _ => {
            emit_expression(b, site, e)?;
            Ok(())
        }
    }
}
