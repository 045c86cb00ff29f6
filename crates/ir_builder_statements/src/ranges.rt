//! What comes before the body of a `for` over a range.
ghost use Rattle.std.specs.Prelude.{◌≡◌, ◌++◌, true, map, Option, None, IfOk, OnOk};
ghost use Rattle.py_typed.specs.Sorts.{sort};
ghost use Rattle.py_typed.specs.Expressions.{typed_expr, type_of};
ghost use Rattle.py_typed.specs.Statements.{typed_target, maybe_typed};
ghost use Rattle.ir_builder_frames.specs.Building.{Extends};
ghost use Rattle.ir_builder_frames.specs.Matching.{HasRoom};
ghost use Rattle.ir_builder_operations.specs.Selecting.{is_whole};
ghost use Rattle.ir_builder_expressions.specs.Parts.{is_i64};
ghost use Rattle.ir_builder_expressions.specs.Site.{setting_of};
ghost use Rattle.ir_builder_expressions.specs.Suiting.{Suits};
ghost use Rattle.ir_builder_loops_and_jumps.specs.Around.{Begins};
ghost use Rattle.ir_builder_loops_and_jumps.specs.Means.{means_start, means_range};
ghost use Rattle.ir_builder_statements.specs.Suiting.{StartSuits, RangeSuits};
ghost use Rattle.ir_builder_statements.specs.Counting.{number_sort, ComputesNew, StepsOn, HasCounter, Ranges};
ghost use Rattle.ir_builder_statements.specs.Lined.{returned_pieces, bound_pieces, all_target_pieces, LinedPieces};

use crate::bindings::emit_kept;
use crate::counting::{Begun, Counter, emit_less, emit_number};
use crate::targets::emit_targets;
use ir_builder_expressions::Site;
use ir_builder_frames::Emitter;
use ir_builder_loops_and_jumps::LoopStart;
use ir_core::Reg;
use py_typed::{TExpr, Target, Ty};
use value_core::Memory;

// Whether values of a type are native integers.
fn is_native(t: &Ty) -> bool
    ensures { result ≡ is_i64 (sort t.now) }
{
    matches!(t, Ty::I64)
}

// Where a range begins, in a register of its own.
fn emit_start(
    b: &mut Emitter,
    site: Site,
    native: bool,
    start: &Option<TExpr>,
) -> Result<Reg, Memory>
    requires suits { StartSuits (setting_of site).source (setting_of site).variables None (maybe_typed start.now) (number_sort native) }
    requires room { HasRoom (setting_of site) b.old }
    ensures kept { Extends b.old b.new }
    ensures computes { IfOk result (λ r. ComputesNew (setting_of site.entry) (number_sort native) (means_start (setting_of site.entry) (maybe_typed start.now)) b.old b.new r.0) }
    ensures lined { OnOk result (LinedPieces (setting_of site.entry) site.entry.line (returned_pieces (maybe_typed start.now)) b.old b.new) }
{
    match start {
        Some(e) => emit_kept(b, site, e),
        None => emit_number(b, site.alloc, native, 0, site.line),
    }
}

// Both bounds of a range, the first of which is counted up.
fn emit_bounds(
    b: &mut Emitter,
    site: Site,
    start: &Option<TExpr>,
    stop: &TExpr,
) -> Result<(Counter, Reg), Memory>
    requires whole { is_whole (type_of (typed_expr stop.now)) ≡ true }
    requires start { StartSuits (setting_of site).source (setting_of site).variables None (maybe_typed start.now) (type_of (typed_expr stop.now)) }
    requires stop { Suits (setting_of site).source (setting_of site).variables (typed_expr stop.now) }
    requires room { HasRoom (setting_of site) b.old }
    ensures kept { Extends b.old b.new }
    ensures ranges { IfOk result (λ q. Ranges (setting_of site.entry) (maybe_typed start.now) (typed_expr stop.now) b.old b.new q.0 q.1.0) }
    ensures lined { OnOk result (LinedPieces (setting_of site.entry) site.entry.line (bound_pieces (maybe_typed start.now) (typed_expr stop.now)) b.old b.new) }
{
    let native = is_native(&stop.ty);
    let reg = emit_start(b, site, native, start)?;
    let stop = emit_kept(b, site, stop)?;
    Ok((Counter { reg, native }, stop))
}

/// Begins a loop over a range (Python Language Reference, "The for statement"; Python Library Reference, "Ranges"): its bounds are
/// evaluated once, and before each turn the number is bound to the targets.
pub(crate) fn begin_range(
    b: &mut Emitter,
    site: Site,
    targets: &[Target],
    start: &Option<TExpr>,
    stop: &TExpr,
) -> Result<Begun, Memory>
    requires suits { RangeSuits (setting_of site).source (setting_of site).variables None (map typed_target targets.now) (maybe_typed start.now) (typed_expr stop.now) }
    requires room { HasRoom (setting_of site) b.old }
    ensures kept { Extends b.old b.new }
    ensures begins { IfOk result (λ o. Begins (setting_of site.entry) (StepsOn o.counter) (means_range (setting_of site.entry) (map typed_target targets.now) (maybe_typed start.now) (typed_expr stop.now)) b.old b.new o.start) }
    ensures counter { IfOk result (λ o. HasCounter o.counter b.new) }
    ensures lined { OnOk result (LinedPieces (setting_of site.entry) site.entry.line (bound_pieces (maybe_typed start.now) (typed_expr stop.now) ++ all_target_pieces (map typed_target targets.now)) b.old b.new) }
{
    let (counter, end) = emit_bounds(b, site, start, stop)?;
    let head = b.step_on()?;
    let test = emit_less(b, site.alloc, counter, end, site.line)?;
    emit_targets(b, site, targets, &stop.ty, counter.reg)?;
    Ok(Begun {
        start: LoopStart { head, test },
        counter: Some(counter),
    })
}
