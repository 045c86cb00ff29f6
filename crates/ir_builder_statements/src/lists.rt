//! What comes before the body of a `for` over a list.
ghost use Rattle.std.specs.Prelude.{◌≡◌, ◌∷◌, map, None, IfOk, OnOk};
ghost use Rattle.py_typed.specs.Sorts.{sort};
ghost use Rattle.py_typed.specs.Expressions.{typed_expr};
ghost use Rattle.py_typed.specs.Statements.{typed_target};
ghost use Rattle.py_typed.specs.TargetTypes.{item_sort};
ghost use Rattle.ir_builder_frames.specs.Building.{Extends};
ghost use Rattle.ir_builder_frames.specs.Matching.{HasRoom};
ghost use Rattle.ir_builder_frames.specs.Placing.{HasType};
ghost use Rattle.ir_builder_frames.specs.Lines.{OwnLines};
ghost use Rattle.ir_builder_expressions.specs.Site.{setting_of};
ghost use Rattle.ir_builder_loops_and_jumps.specs.Around.{Begins, Splits};
ghost use Rattle.ir_builder_loops_and_jumps.specs.Means.{means_list};
ghost use Rattle.ir_builder_statements.specs.Suiting.{ListSuits};
ghost use Rattle.ir_builder_statements.specs.Counting.{StepsOn, HasCounter, FindsNext};
ghost use Rattle.ir_builder_statements.specs.Lined.{value as value_piece, all_target_pieces, LinedPieces};

use crate::bindings::emit_kept;
use crate::counting::{Begun, Counter, emit_less, emit_number};
use crate::targets::emit_targets;
use ir_builder_expressions::Site;
use ir_builder_frames::Emitter;
use ir_builder_loops_and_jumps::{LoopStart, Test};
use ir_builder_operations::{Operation, emit_item, emit_operation};
use ir_core::{RType, Reg};
use py_typed::{TExpr, Target, Ty};
use std::alloc::Global;
use value_core::Memory;

// The type of the items of a list.
fn item_type(t: &Ty) -> &Ty
    ensures { sort result.now ≡ item_sort (sort t.now) }
{
    match t {
        Ty::List(item) => item,
        Ty::Dict(_, item) => item,
        _ => t,
    }
}

// Tests whether a list has an item of the number, and ends the block.
fn emit_more(
    b: &mut Emitter,
    alloc: Global,
    index: Reg,
    list: Reg,
    line: usize,
) -> Result<Test, Memory>
    requires index { HasType b.old index.0 RType.Int }
    requires list { HasType b.old list.0 RType.Ref }
    ensures kept { Extends b.old b.new }
    ensures splits { IfOk result (λ t. Splits (FindsNext index.0 list.0 b.old) b.new t) }
    ensures lined { OwnLines line b.old b.new }
{
    let count = emit_operation(b, alloc, Operation::ListLength, &[list], line)?;
    let counter = Counter {
        reg: index,
        native: false,
    };
    emit_less(b, alloc, counter, count, line)
}

/// Begins a loop over a list (Python Language Reference, "The for statement"): the list is evaluated once, and before each turn its
/// next item, if there is one by then, is bound to the targets.
pub(crate) fn begin_list(
    b: &mut Emitter,
    site: Site,
    targets: &[Target],
    e: &TExpr,
) -> Result<Begun, Memory>
    requires suits { ListSuits (setting_of site).source (setting_of site).variables None (map typed_target targets.now) (typed_expr e.now) }
    requires room { HasRoom (setting_of site) b.old }
    ensures kept { Extends b.old b.new }
    ensures begins { IfOk result (λ o. Begins (setting_of site.entry) (StepsOn o.counter) (means_list (setting_of site.entry) (map typed_target targets.now) (typed_expr e.now)) b.old b.new o.start) }
    ensures counter { IfOk result (λ o. HasCounter o.counter b.new) }
    ensures lined { OnOk result (LinedPieces (setting_of site.entry) site.entry.line (value_piece (typed_expr e.now) ∷ all_target_pieces (map typed_target targets.now)) b.old b.new) }
{
    let t = item_type(&e.ty);
    let list = emit_kept(b, site, e)?;
    let index = emit_number(b, site.alloc, false, 0, site.line)?;
    let head = b.step_on()?;
    let test = emit_more(b, site.alloc, index, list, site.line)?;
    let item = emit_item(b, site.alloc, t, list, index, site.line)?;
    emit_targets(b, site, targets, t, item)?;
    Ok(Begun {
        start: LoopStart { head, test },
        counter: Some(Counter {
            reg: index,
            native: false,
        }),
    })
}
