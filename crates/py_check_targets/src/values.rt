//! Values that are assigned, and what targets ask of them.
ghost use Rattle.std.specs.Prelude.{◌≡◌, ◌∷◌, [], map, IfOk};
ghost use Rattle.std.specs.Option.{option_map, option_copied};
ghost use Rattle.py_syntax.specs.Expressions.{expr_tree};
ghost use Rattle.py_typed.specs.Sorts.{sort};
ghost use Rattle.py_typed.specs.Expressions.{type_of};
ghost use Rattle.py_check_context.specs.Context.{context, wanted, wants_some};
ghost use Rattle.py_check_messages.specs.Seen.{Tells};
ghost use Rattle.py_check_coercions.specs.Boxes.{boxed};
ghost use Rattle.py_check_targets.specs.Targets as rule_of;
ghost use Rattle.py_check_places.specs.Views.{known_at};
ghost use Rattle.py_check_values.specs.Aims.{aim_seen};
ghost use Rattle.py_check_targets.specs.Views.{boxed_sort};

use crate::targets::typed_at;
use py_check_context::{Context, Want};
use py_check_places::Place;
use py_check_values::Aim;
use py_syntax::Expr;
use py_syntax_diagnostics::Diag;
use py_typed::{TExpr, Ty, copy_of};
use std::alloc::Global;
use value_core::{Many, Memory};

/// A value that is asked for this type, if for any.
pub fn value_asked(
    alloc: Global,
    scope: &Context<'_>,
    place: &Place,
    asked: Option<&Ty>,
    e: &Expr,
    faults: &mut Many<Diag>,
) -> Result<Option<Box<TExpr>>, Memory>
    ensures { IfOk result (λ t. Tells boxed t faults.old faults.new (rule_of.typed_at (context scope.now) (known_at place.now) (wants_some (option_map sort (option_copied asked.entry))) (expr_tree e.now))) }
{
    typed_at(alloc, scope, place, want_of(asked), e, faults)
}

// What is asked for by a type, if there is one.
fn want_of(t: Option<&Ty>) -> Want<'_>
    ensures { wanted result ≡ wants_some (option_map sort (option_copied t.entry)) }
{
    match t {
        Some(t) => Want::Wants(t),
        None => Want::Free,
    }
}

/// The type that one target or several ask their value for, if each is typed and has one.
pub fn asked_type(
    alloc: Global,
    several: bool,
    aims: &Option<Many<Aim<'_>>>,
) -> Result<Option<Box<Ty>>, Memory>
    ensures { IfOk result (λ t. option_map boxed_sort t ≡ rule_of.asked_sort several (option_map (map aim_seen) aims.now)) }
{
    let Some(aims) = aims else {
        return Ok(None);
    };
    let Some(t) = type_for(alloc, several, aims.as_slice())? else {
        return Ok(None);
    };
    Ok(Some(Box::new(alloc, t)?))
}

fn type_for(alloc: Global, several: bool, aims: &[Aim<'_>]) -> Result<Option<Ty>, Memory>
    ensures { IfOk result (λ t. option_map sort t ≡ rule_of.sort_for several (map aim_seen aims.now)) }
{
    if several {
        tuple_type(alloc, aims)
    } else {
        single_type(alloc, aims)
    }
}

// The type of the one target.
fn single_type(alloc: Global, aims: &[Aim<'_>]) -> Result<Option<Ty>, Memory>
    ensures { IfOk result (λ t. option_map sort t ≡ rule_of.single_sort (map aim_seen aims.now)) }
{
    match aims {
        [] => Ok(None),
        [a] => copied(alloc, held_type(a)),
        [_, _, ..] => Ok(None),
    }
}

// The tuple of the types of all targets.
fn tuple_type(alloc: Global, aims: &[Aim<'_>]) -> Result<Option<Ty>, Memory>
    ensures { IfOk result (λ t. option_map sort t ≡ option_map rule_of.tuple_sort (rule_of.held_sorts (map aim_seen aims.now))) }
{
    let Some(types) = held_types(alloc, aims)? else {
        return Ok(None);
    };
    Ok(Some(Ty::Tuple(types)))
}

fn held_types(alloc: Global, aims: &[Aim<'_>]) -> Result<Option<Many<Ty>>, Memory>
    ensures { IfOk result (λ types. option_map (map sort) types ≡ rule_of.held_sorts (map aim_seen aims.now)) }
{
    let mut types = Many::new(alloc);
    for a in aims {
        let Some(t) = held_type(a) else {
            return Ok(None);
        };
        types.push(copy_of(alloc, t)?)?;
    }
    Ok(Some(types))
}

// The type of a target, if it has one.
fn held_type<'a>(a: &'a Aim<'_>) -> Option<&'a Ty>
    ensures { option_map sort (option_copied result) ≡ rule_of.single_sort (aim_seen a.now ∷ []) }
{
    match a {
        Aim::Held(_, t) => Some(t),
        Aim::First(_, _) => None,
        Aim::Barred(_) => None,
        Aim::Unwritten(_) => None,
        Aim::Lacking(_, _) => None,
        Aim::Misplaced(_) => None,
    }
}

// A copy of a type, if there is one.
fn copied(alloc: Global, t: Option<&Ty>) -> Result<Option<Ty>, Memory>
    ensures { IfOk result (λ copy. option_map sort copy ≡ option_map sort (option_copied t.entry)) }
{
    let Some(t) = t else {
        return Ok(None);
    };
    let t = copy_of(alloc, t)?;
    Ok(Some(t))
}

/// A copy of the type of a value, if it is typed.
pub fn value_type(alloc: Global, e: &Option<Box<TExpr>>) -> Result<Option<Ty>, Memory>
    ensures { IfOk result (λ t. option_map sort t ≡ option_map type_of (option_map boxed e.now)) }
{
    match e {
        Some(e) => {
            let t = copy_of(alloc, &e.ty)?;
            Ok(Some(t))
        }
        None => Ok(None),
    }
}
