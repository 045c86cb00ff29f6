//! Names of targets, bound to the parts of a value.
ghost use Rattle.std.specs.Prelude.{◌≡◌, map, IfOk};
ghost use Rattle.std.specs.Option.{option_map, option_copied};
ghost use Rattle.py_syntax.specs.Expressions.{expr_tree};
ghost use Rattle.py_typed.specs.Sorts.{sort};
ghost use Rattle.py_check_context.specs.Context.{context};
ghost use Rattle.py_check_flow.specs.Bindings as bindings;
ghost use Rattle.py_check_places.specs.Places as places;
ghost use Rattle.py_check_places.specs.Shapes as shapes;
ghost use Rattle.py_check_places.specs.Views.{known_at, trees};

use crate::parts::parts_of;
use crate::places::{Place, bind_name};
use crate::shapes::{is_row, leaves};
use py_check_context::Context;
use py_check_flow::name_in;
use py_syntax::Expr;
use py_typed::Ty;
use std::alloc::Global;
use value_core::Memory;

/// Binds all names of a target to the parts of a value of this type, as far as it has such.
pub fn bind_target(
    alloc: Global,
    scope: &Context<'_>,
    place: &mut Place,
    holds: bool,
    target: &Expr,
    t: Option<&Ty>,
) -> Result<(), Memory>
    ensures { IfOk result (λ done. known_at place.new ≡ shapes.bind_target (context scope.now) holds (known_at place.old) (expr_tree target.now) (option_map sort (option_copied t.entry))) }
{
    let targets = leaves(alloc, target)?;
    let parts = parts_of(is_row(target), targets.len(), t);
    bind_names(alloc, scope, place, holds, targets.as_slice(), parts)
}

// Binds single targets that are names, each to the part at its place, if there is one.
fn bind_names(
    alloc: Global,
    scope: &Context<'_>,
    place: &mut Place,
    holds: bool,
    targets: &[&Expr],
    parts: &[Ty],
) -> Result<(), Memory>
    ensures { IfOk result (λ done. known_at place.new ≡ places.bind_names (context scope.now) holds (known_at place.old) (map bindings.name_in (trees targets.now)) (map sort parts.now)) }
{
    for (i, target) in targets.iter().enumerate() {
        bind_name(alloc, scope, place, holds, name_in(*target), parts.get(i))?;
    }
    Ok(())
}
