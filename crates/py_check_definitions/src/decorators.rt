//! What decorators and bases are asked for.
ghost use Rattle.std.specs.Prelude.{◌≡◌, ◌++◌, map, is_some, IfOk};
ghost use Rattle.std.specs.Option.{option_copied};
ghost use Rattle.py_syntax.specs.Expressions.{expr_tree};
ghost use Rattle.py_check_context.specs.Context.{context, free};
ghost use Rattle.py_check_targets.specs.Targets as aims;
ghost use Rattle.py_check_places.specs.Views.{known_at};
ghost use Rattle.py_check_definitions.specs.Decorators as spec;
ghost use Rattle.py_check_definitions.specs.Views as views;

use py_check_context::{Context, Meaning, Want, meaning_of};
use py_check_flow::name_in;
use py_check_places::Place;
use py_check_targets::typed_at;
use py_syntax::Expr;
use py_syntax_diagnostics::Diag;
use std::alloc::Global;
use value_core::{Many, Memory, Name};

/// Where a name stands that is only asked to be there.
#[derive(Clone, Copy)]
pub(crate) enum Asked {
    /// In a decorator.
    Decorator,
    /// Among the bases of a class.
    Base,
}

/// Adds what is said in decorators or bases, which stand at this place, and answers whether each has a type.
pub(crate) fn add_parts(
    alloc: Global,
    scope: &Context<'_>,
    place: &Place,
    asked: Asked,
    parts: &[Expr],
    faults: &mut Many<Diag>,
) -> Result<bool, Memory>
    ensures typed { IfOk result (λ typed. typed ≡ spec.parts_typed (context scope.now) (known_at place.now) (views.names_there asked (context scope.now)) (map expr_tree parts.now)) }
    ensures told { IfOk result (λ typed. faults.new ≡ faults.old ++ spec.decorators_said (context scope.now) (known_at place.now) (map expr_tree parts.now)) }
{
    let mut typed = true;
    for e in parts {
        let one = add_part(alloc, scope, place, asked, name_in(e), e, faults)?;
        typed = typed && one;
    }
    Ok(typed)
}

/// The same of one, by the name that it is, if it is one.
fn add_part(
    alloc: Global,
    scope: &Context<'_>,
    place: &Place,
    asked: Asked,
    name: Option<&Name>,
    e: &Expr,
    faults: &mut Many<Diag>,
) -> Result<bool, Memory>
    ensures typed { IfOk result (λ typed. typed ≡ spec.asked_typed (context scope.now) (known_at place.now) (views.names_there asked (context scope.now)) (option_copied name.entry) (expr_tree e.now)) }
    ensures told { IfOk result (λ typed. faults.new ≡ faults.old ++ spec.asked_said (context scope.now) (known_at place.now) (option_copied name.entry) (expr_tree e.now)) }
{
    match name {
        Some(x) => Ok(is_name_there(scope, asked, x)),
        None => add_expression(alloc, scope, place, e, faults),
    }
}

fn is_name_there(scope: &Context<'_>, asked: Asked, x: &Name) -> bool
    ensures { result ≡ views.names_there asked (context scope.now) x.now }
{
    let meaning = meaning_of(scope, x);
    match asked {
        Asked::Decorator => is_there(meaning),
        Asked::Base => is_base_there(meaning),
    }
}

fn add_expression(
    alloc: Global,
    scope: &Context<'_>,
    place: &Place,
    e: &Expr,
    faults: &mut Many<Diag>,
) -> Result<bool, Memory>
    ensures typed { IfOk result (λ typed. typed ≡ is_some (aims.typed_at (context scope.now) (known_at place.now) free (expr_tree e.now)).got) }
    ensures told { IfOk result (λ typed. faults.new ≡ faults.old ++ (aims.typed_at (context scope.now) (known_at place.now) free (expr_tree e.now)).said) }
{
    let e = typed_at(alloc, scope, place, Want::Free, e, faults)?;
    Ok(e.is_some())
}

/// Whether a name is known, and of no import and no class that is refused.
fn is_there(meaning: Meaning) -> bool
    ensures { result ≡ spec.is_there meaning }
{
    match meaning {
        Meaning::Unknown => false,
        Meaning::Untyped => false,
        Meaning::UntypedClass => false,
        _ => true,
    }
}

/// Whether a name may be a base, as far as the header of its class does not answer for it.
fn is_base_there(meaning: Meaning) -> bool
    ensures { result ≡ spec.is_base_there meaning }
{
    match meaning {
        Meaning::Unknown => false,
        Meaning::Untyped => false,
        _ => true,
    }
}
