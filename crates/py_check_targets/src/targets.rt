//! What is assigned to.
ghost use Rattle.std.specs.Prelude.{◌≡◌, ◌++◌, map, IfOk};
ghost use Rattle.std.specs.Option.{option_map, option_copied};
ghost use Rattle.py_syntax.specs.Expressions.{expr_tree};
ghost use Rattle.py_typed.specs.Sorts.{sort};
ghost use Rattle.py_typed.specs.Expressions.{type_of};
ghost use Rattle.py_typed.specs.Statements.{typed_target};
ghost use Rattle.py_check_context.specs.Context.{context, var_sort, var_of, wanted};
ghost use Rattle.py_check_flow.specs.Bindings as bindings;
ghost use Rattle.py_check_messages.specs.Seen.{Tells};
ghost use Rattle.py_check_messages.specs.Rows.{kept};
ghost use Rattle.py_check_coercions.specs.Boxes.{boxed};
ghost use Rattle.py_check_values.specs.Aims.{aim_seen};
ghost use Rattle.py_check_places.specs.Places as places;
ghost use Rattle.py_check_places.specs.Places.{with_names};
ghost use Rattle.py_check_targets.specs.Attributes as attributes;
ghost use Rattle.py_check_targets.specs.Targets as rule_of;
ghost use Rattle.py_check_places.specs.Views.{known_at, trees};
ghost use Rattle.py_check_targets.specs.Views.{boxed_aim, parts_from};

use crate::attributes::lacking_in;
use py_check_context::{Context, Meaning, VarType, Want, meaning_of};
use py_check_expressions::{Environment, expression};
use py_check_flow::name_in;
use py_check_places::{Place, is_access, is_row, known_behind, leaves, parts_of};
use py_check_values::Aim;
use py_syntax::Expr;
use py_syntax_diagnostics::Diag;
use py_typed::{TExpr, TKind, Target, Ty, copy_of};
use std::alloc::Global;
use value_core::{Many, Memory, Name};

/// An expression at a place.
pub fn typed_at(
    alloc: Global,
    scope: &Context<'_>,
    place: &Place,
    want: Want<'_>,
    e: &Expr,
    faults: &mut Many<Diag>,
) -> Result<Option<Box<TExpr>>, Memory>
    ensures { IfOk result (λ t. Tells boxed t faults.old faults.new (rule_of.typed_at (context scope.now) (known_at place.now) (wanted want.entry) (expr_tree e.now))) }
{
    let environment = Environment {
        scope,
        vars: &place.types,
        known: place.names.as_slice(),
    };
    expression(alloc, environment, want, e, faults)
}

/// A name that is assigned to, unless it is a variable without a type.
#[tactic(auto, using(crate::proofs::PlaceLemmas::var_found))]
pub fn name_aim<'a>(
    alloc: Global,
    place: &Place,
    x: &'a Name,
    meaning: Meaning,
) -> Result<Option<Aim<'a>>, Memory>
    ensures { IfOk result (λ a. option_map aim_seen a ≡ rule_of.name_aim (known_at place.now) x.now meaning) }
{
    match meaning {
        Meaning::Local(i) => {
            let ty = copied(alloc, place.types.locals.get(i))?;
            Ok(variable_aim(Target::Local(i), x, ty))
        }
        Meaning::Global(i) => {
            let ty = copied(alloc, place.types.globals.get(i))?;
            Ok(variable_aim(Target::Global(i), x, ty))
        }
        _ => Ok(Some(Aim::Barred(x))),
    }
}

// The type of a variable, so far.
fn copied(alloc: Global, ty: Option<&VarType>) -> Result<VarType, Memory>
    ensures { IfOk result (λ v. var_sort v ≡ var_of (option_map var_sort (option_copied ty.entry))) }
{
    match ty {
        Some(VarType::Has(t)) => Ok(VarType::Has(copy_of(alloc, t)?)),
        Some(VarType::Untyped) => Ok(VarType::Untyped),
        Some(VarType::Unset) | None => Ok(VarType::Unset),
    }
}

fn variable_aim<'a>(target: Target, x: &'a Name, ty: VarType) -> Option<Aim<'a>>
    ensures { option_map aim_seen result ≡ rule_of.variable_aim (typed_target target) x.now (var_sort ty) }
{
    match ty {
        VarType::Has(t) => Some(Aim::Held(target, t)),
        VarType::Unset => Some(Aim::First(target, x)),
        VarType::Untyped => {
            drop(target);
            None
        }
    }
}

/// An expression that stands as a target, and is written as an item or an attribute or not.
pub fn value_aim<'a>(written: bool, e: Box<TExpr>) -> Aim<'a>
    ensures { aim_seen result ≡ rule_of.value_aim written (boxed e) }
{
    if written {
        return access_aim(e);
    }
    Aim::Misplaced(only_type(e))
}

// The type of an expression, which is let go.
fn only_type(e: Box<TExpr>) -> Ty
    ensures { sort result ≡ type_of (boxed e) }
{
    let TExpr { kind, ty, span: _ } = Box::into_inner(e);
    drop(kind);
    ty
}

fn access_aim<'a>(e: Box<TExpr>) -> Aim<'a>
    ensures { aim_seen result ≡ rule_of.access_aim (boxed e) }
{
    let TExpr { kind, ty, span: _ } = Box::into_inner(e);
    match kind {
        TKind::At(held, i) => part_aim(held, i, ty),
        TKind::TupleAt(held, _) => {
            drop(ty);
            Aim::Unwritten(only_type(held))
        }
        TKind::Attr(object, name) => {
            let target = Target::Attr(Box::into_inner(object), name);
            Aim::Held(target, ty)
        }
        other => {
            drop(other);
            Aim::Misplaced(ty)
        }
    }
}

fn part_aim<'a>(held: Box<TExpr>, i: Box<TExpr>, ty: Ty) -> Aim<'a>
    ensures { aim_seen result ≡ rule_of.part_aim (boxed held) (boxed i) (sort ty) }
{
    if !is_written(&held.ty) {
        drop(ty);
        return Aim::Unwritten(only_type(held));
    }
    let target = Target::At(Box::into_inner(held), Box::into_inner(i));
    Aim::Held(target, ty)
}

fn is_written(t: &Ty) -> bool
    ensures { result ≡ rule_of.is_written (sort t.now) }
{
    match t {
        Ty::List(_) => true,
        Ty::Dict(_, _) => true,
        _ => false,
    }
}

// A single target, where these of the function's own variables are known to be not None.
#[tactic(auto, using(crate::proofs::PlaceLemmas::name_aim_kept))]
fn single_aim<'a>(
    alloc: Global,
    scope: &Context<'_>,
    place: &Place,
    names: &[usize],
    e: &'a Expr,
    faults: &mut Many<Diag>,
) -> Result<Option<Box<Aim<'a>>>, Memory>
    ensures { IfOk result (λ a. Tells boxed_aim a faults.old faults.new (rule_of.single_aim (context scope.now) (with_names (known_at place.now) names.now) (bindings.name_in (expr_tree e.now)) (expr_tree e.now))) }
{
    match name_in(e) {
        Some(x) => {
            let a = name_aim(alloc, place, x, meaning_of(scope, x))?;
            in_box(alloc, a)
        }
        None => other_aim(alloc, scope, place, names, e, faults),
    }
}

// One that is no name.
fn other_aim<'a>(
    alloc: Global,
    scope: &Context<'_>,
    place: &Place,
    names: &[usize],
    e: &'a Expr,
    faults: &mut Many<Diag>,
) -> Result<Option<Box<Aim<'a>>>, Memory>
    ensures { IfOk result (λ a. Tells boxed_aim a faults.old faults.new (rule_of.other_aim (context scope.now) (with_names (known_at place.now) names.now) (expr_tree e.now) (attributes.lacking_in (context scope.now) (expr_tree e.now)))) }
{
    let environment = Environment {
        scope,
        vars: &place.types,
        known: names,
    };
    match lacking_in(scope, e) {
        Some(own) => {
            let object = expression(alloc, environment, Want::Free, own.object, faults)?;
            let a = lacking_of(own.name, object);
            in_box(alloc, a)
        }
        None => {
            let t = expression(alloc, environment, Want::Free, e, faults)?;
            let a = aim_of(is_access(e), t);
            in_box(alloc, a)
        }
    }
}

// An attribute that nothing declares, of this object, if that is typed.
fn lacking_of<'a>(name: &'a Name, object: Option<Box<TExpr>>) -> Option<Aim<'a>>
    ensures { option_map aim_seen result ≡ option_map (rule_of.lacking_aim name.now) (option_map boxed object) }
{
    let object = object?;
    Some(Aim::Lacking(only_type(object), name))
}

fn aim_of<'a>(written: bool, e: Option<Box<TExpr>>) -> Option<Aim<'a>>
    ensures { option_map aim_seen result ≡ option_map (rule_of.value_aim written) (option_map boxed e) }
{
    let e = e?;
    Some(value_aim(written, e))
}

/// One that is kept on the heap.
pub fn in_box<'a>(alloc: Global, a: Option<Aim<'a>>) -> Result<Option<Box<Aim<'a>>>, Memory>
    ensures { IfOk result (λ r. option_map boxed_aim r ≡ option_map aim_seen a.entry) }
{
    let Some(a) = a else {
        return Ok(None);
    };
    Ok(Some(Box::new(alloc, a)?))
}

// The single targets in a row, each by what it is, behind those that took their parts of a value.
fn aims<'a>(
    alloc: Global,
    scope: &Context<'_>,
    place: &Place,
    parts: Option<&[Ty]>,
    leaves: &[&'a Expr],
    faults: &mut Many<Diag>,
) -> Result<Option<Many<Aim<'a>>>, Memory>
    ensures { IfOk result (λ found. Tells (map aim_seen) found faults.old faults.new (rule_of.aims (context scope.now) (known_at place.now) (option_map (map sort) (option_copied parts.entry)) (trees leaves.now))) }
{
    let mut found = Some(Many::new(alloc));
    let mut names = Vec::from_slice(alloc, place.names.as_slice())?;
    for (i, e) in leaves.iter().enumerate() {
        let one = single_aim(alloc, scope, place, names.as_slice(), *e, faults)?;
        found = with_aim(found, one)?;
        names = beyond(alloc, scope, names.as_slice(), *e, parts, i)?;
    }
    Ok(found)
}

// The names that are known to be not None behind a target that took the part of this number.
fn beyond(
    alloc: Global,
    scope: &Context<'_>,
    names: &[usize],
    e: &Expr,
    parts: Option<&[Ty]>,
    i: usize,
) -> Result<Vec<usize>, Memory>
    ensures { IfOk result (λ v. v.items ≡ places.known_behind (context scope.now) (bindings.name_in (expr_tree e.now)) (rule_of.next_part (parts_from i (option_map (map sort) (option_copied parts.entry)))) names.now) }
{
    match parts {
        Some(ts) => known_behind(alloc, scope, name_in(e), ts.get(i), names),
        None => {
            let unknown = Ty::Nothing;
            let known = known_behind(alloc, scope, name_in(e), Some(&unknown), names);
            drop(unknown);
            known
        }
    }
}

/// The single targets of a target, each by what it is, where nothing is known of the value yet.
pub fn target_aims<'a>(
    alloc: Global,
    scope: &Context<'_>,
    place: &Place,
    target: &'a Expr,
    faults: &mut Many<Diag>,
) -> Result<Option<Many<Aim<'a>>>, Memory>
    ensures { IfOk result (λ found. Tells (map aim_seen) found faults.old faults.new (rule_of.target_aims (context scope.now) (known_at place.now) (expr_tree target.now))) }
{
    let targets = leaves(alloc, target)?;
    aims(alloc, scope, place, None, targets.as_slice(), faults)
}

/// The single targets of a target, each by what it is, as a value of this type, if it has one, is bound to them.
pub fn aims_behind<'a>(
    alloc: Global,
    scope: &Context<'_>,
    place: &Place,
    target: &'a Expr,
    t: Option<&Ty>,
    faults: &mut Many<Diag>,
) -> Result<Option<Many<Aim<'a>>>, Memory>
    ensures { IfOk result (λ found. Tells (map aim_seen) found faults.old faults.new (rule_of.aims_behind (context scope.now) (known_at place.now) (expr_tree target.now) (option_map sort (option_copied t.entry)))) }
{
    let targets = leaves(alloc, target)?;
    let parts = parts_of(is_row(target), targets.len(), t);
    aims(alloc, scope, place, Some(parts), targets.as_slice(), faults)
}

/// Diagnostics behind others.
pub fn put_behind(faults: &mut Many<Diag>, more: Many<Diag>) -> Result<(), Memory>
    ensures { IfOk result (λ done. faults.new ≡ faults.old ++ more) }
{
    for fault in more.into_vec() {
        faults.push(fault)?;
    }
    Ok(())
}

fn with_aim<'a>(
    found: Option<Many<Aim<'a>>>,
    a: Option<Box<Aim<'a>>>,
) -> Result<Option<Many<Aim<'a>>>, Memory>
    ensures { IfOk result (λ r. option_map (map aim_seen) r ≡ kept (option_map (map aim_seen) found.entry) (option_map boxed_aim a.entry)) }
{
    let Some(mut found) = found else {
        return Ok(None);
    };
    let Some(a) = a else {
        return Ok(None);
    };
    found.push(Box::into_inner(a))?;
    Ok(Some(found))
}
