//! What is known at a place of a text.
ghost use Rattle.std.specs.Prelude.{◌≡◌, ◌++◌, map, IfOk, slice_set};
ghost use Rattle.std.specs.Option.{option_map, option_copied};
ghost use Rattle.py_syntax.specs.Expressions.{expr_tree};
ghost use Rattle.py_syntax.specs.Statements.{stmt_tree};
ghost use Rattle.py_typed.specs.Sorts.{sort};
ghost use Rattle.py_typed.specs.Narrowing as narrowing;
ghost use Rattle.py_check_context.specs.Context.{context, var_sort, var_at};
ghost use Rattle.py_check_flow.specs.Bindings.{bindings_of};
ghost use Rattle.py_check_operators.specs.Facts.{local_of};
ghost use Rattle.py_check_places.specs.Places as rule_of;
ghost use Rattle.py_check_places.specs.Views.{known_at};

use py_check_context::{Context, Meaning, VarType, Variables, meaning_of};
use py_check_flow::{Binding, statement_bindings};
use py_check_operators::{shared, with_facts};
use py_syntax::{Expr, Stmt};
use py_typed::{Ty, copy_of};
use std::alloc::Global;
use value_core::{Many, Memory, Name};

/// What is known at a place: the types of variables so far, the numbers of those that were bound, and the function's own
/// variables that are not None.
#[derive(Drop)]
pub struct Place {
    pub types: Variables,
    pub locals_bound: Vec<usize>,
    pub globals_bound: Vec<usize>,
    pub names: Vec<usize>,
}

/// What a test tells is known from here on.
pub fn learn(
    alloc: Global,
    scope: &Context<'_>,
    place: &mut Place,
    outcome: bool,
    e: &Expr,
) -> Result<(), Memory>
    ensures { IfOk result (λ done. known_at place.new ≡ rule_of.where_test (context scope.now) (known_at place.old) outcome (expr_tree e.now)) }
{
    place.names = with_facts(alloc, scope, place.names.as_slice(), outcome, e)?;
    Ok(())
}

/// What a loop binds is forgotten where it is entered.
pub fn enter(alloc: Global, scope: &Context<'_>, place: &mut Place, s: &Stmt) -> Result<(), Memory>
    ensures { IfOk result (λ done. known_at place.new ≡ rule_of.entering (context scope.now) (known_at place.old) (stmt_tree s.now)) }
{
    let bound = statement_bindings(alloc, s)?;
    let gone = locals_among(alloc, scope, bound.as_slice())?;
    place.names = without(alloc, gone.as_slice(), place.names.as_slice())?;
    Ok(())
}

// The function's own variables among bindings.
fn locals_among(
    alloc: Global,
    scope: &Context<'_>,
    bound: &[Binding<'_>],
) -> Result<Vec<usize>, Memory>
    ensures { IfOk result (λ v. v.items ≡ rule_of.locals_among (context scope.now) (bindings_of bound.now)) }
{
    let mut found = Vec::new(alloc);
    for b in bound {
        put_local(&mut found, meaning_of(scope, b.name))?;
    }
    Ok(found)
}

// Puts a variable of the function's own, if it is one, behind those that there are.
fn put_local(found: &mut Vec<usize>, meaning: Meaning) -> Result<(), Memory>
    ensures { IfOk result (λ done. found.new.items ≡ found.old.items ++ local_of meaning) }
{
    if let Meaning::Local(i) = meaning {
        found.push(i)?;
    }
    Ok(())
}

/// The names that are known at all ends, with one more end.
pub fn meet(
    alloc: Global,
    ends: Option<Vec<usize>>,
    closed: bool,
    names: &[usize],
) -> Result<Option<Vec<usize>>, Memory>
    ensures { IfOk result (λ v. option_map (λ v. v.items) v ≡ rule_of.met (option_map (λ v. v.items) ends) closed names.now) }
{
    if closed {
        return Ok(ends);
    }
    let names = match ends {
        None => Vec::from_slice(alloc, names)?,
        Some(others) => shared(alloc, others.as_slice(), names)?,
    };
    Ok(Some(names))
}

/// The names that are known behind all ends.
pub fn all_known(alloc: Global, ends: Option<Vec<usize>>) -> Vec<usize>
    ensures { result.items ≡ rule_of.common (option_map (λ v. v.items) ends) }
{
    match ends {
        Some(names) => names,
        None => Vec::new(alloc),
    }
}

/// A name of a target is bound to a value of this type, if it has one.
pub fn bind_name(
    alloc: Global,
    scope: &Context<'_>,
    place: &mut Place,
    holds: bool,
    x: Option<&Name>,
    t: Option<&Ty>,
) -> Result<(), Memory>
    ensures { IfOk result (λ done. known_at place.new ≡ rule_of.bind_name (context scope.now) holds (known_at place.old) (option_copied x.entry) (option_map sort (option_copied t.entry))) }
{
    match x {
        None => Ok(()),
        Some(x) => bind_variable(alloc, place, holds, meaning_of(scope, x), t),
    }
}

fn bind_variable(
    alloc: Global,
    place: &mut Place,
    holds: bool,
    meaning: Meaning,
    t: Option<&Ty>,
) -> Result<(), Memory>
    ensures { IfOk result (λ done. known_at place.new ≡ rule_of.bind_variable holds (known_at place.old) meaning (option_map sort (option_copied t.entry))) }
{
    match meaning {
        Meaning::Local(i) => {
            place.names = rebound(alloc, i, t, place.names.as_slice())?;
            place.locals_bound.push(i)?;
            fix(alloc, &mut place.types.locals, i, holds, t)
        }
        Meaning::Global(i) => {
            place.globals_bound.push(i)?;
            fix(alloc, &mut place.types.globals, i, holds, t)
        }
        _ => Ok(()),
    }
}

/// The names that are known to be not None behind a target with this name, if it is one, that is bound to a value of this type, if
/// it has one.
pub fn known_behind(
    alloc: Global,
    scope: &Context<'_>,
    x: Option<&Name>,
    t: Option<&Ty>,
    names: &[usize],
) -> Result<Vec<usize>, Memory>
    ensures { IfOk result (λ v. v.items ≡ rule_of.known_behind (context scope.now) (option_copied x.entry) (option_map sort (option_copied t.entry)) names.now) }
{
    match x {
        None => Ok(Vec::from_slice(alloc, names)?),
        Some(x) => names_behind(alloc, meaning_of(scope, x), t, names),
    }
}

fn names_behind(
    alloc: Global,
    meaning: Meaning,
    t: Option<&Ty>,
    names: &[usize],
) -> Result<Vec<usize>, Memory>
    ensures { IfOk result (λ v. v.items ≡ rule_of.names_behind meaning (option_map sort (option_copied t.entry)) names.now) }
{
    match meaning {
        Meaning::Local(i) => rebound(alloc, i, t, names),
        _ => Ok(Vec::from_slice(alloc, names)?),
    }
}

// The first assignment fixes a variable's type.
fn fix(
    alloc: Global,
    types: &mut Many<VarType>,
    i: usize,
    holds: bool,
    t: Option<&Ty>,
) -> Result<(), Memory>
    ensures { IfOk result (λ done. map var_sort types.new ≡ rule_of.fix (map var_sort types.old) i (rule_of.first_type holds (option_map sort (option_copied t.entry)))) }
{
    if is_unset(types.as_slice(), i) {
        let first = first_type(alloc, holds, t)?;
        put(types, i, first);
    }
    Ok(())
}

#[tactic(auto, using(crate::proofs::PlaceLemmas::var_found))]
fn is_unset(types: &[VarType], i: usize) -> bool
    ensures { result ≡ rule_of.is_unset (var_at (map var_sort types.now) i) }
{
    match types.get(i) {
        Some(VarType::Has(_)) => false,
        Some(VarType::Untyped) => false,
        Some(VarType::Unset) => true,
        None => true,
    }
}

// The type of a variable behind its first assignment, which holds or is refused.
fn first_type(alloc: Global, holds: bool, t: Option<&Ty>) -> Result<VarType, Memory>
    ensures { IfOk result (λ v. var_sort v ≡ rule_of.first_type holds (option_map sort (option_copied t.entry))) }
{
    if !holds {
        return Ok(VarType::Untyped);
    }
    match t {
        Some(t) => Ok(VarType::Has(copy_of(alloc, t)?)),
        None => Ok(VarType::Untyped),
    }
}

fn put(types: &mut Many<VarType>, i: usize, t: VarType)
    ensures { map var_sort types.new ≡ slice_set (map var_sort types.old) i (var_sort t) }
{
    if i < types.len() {
        types.set(i, t);
    }
}

// The names that are known behind a binding.
fn rebound(alloc: Global, i: usize, t: Option<&Ty>, names: &[usize]) -> Result<Vec<usize>, Memory>
    ensures { IfOk result (λ v. v.items ≡ rule_of.rebound i (option_map sort (option_copied t.entry)) names.now) }
{
    let mut one = Vec::new(alloc);
    one.push(i)?;
    let others = without(alloc, one.as_slice(), names)?;
    if is_plain(t) {
        one.extend_from_slice(others.as_slice())?;
        return Ok(one);
    }
    Ok(others)
}

// The names that are not among these.
fn without(alloc: Global, gone: &[usize], names: &[usize]) -> Result<Vec<usize>, Memory>
    ensures { IfOk result (λ v. v.items ≡ narrowing.without gone.now names.now) }
{
    let found = names
        .iter()
        .copied()
        .filter(|x| !gone.contains(x))
        .collect(alloc)?;
    Ok(found)
}

// Whether a value of this type is never None; one without a type counts as such.
fn is_plain(t: Option<&Ty>) -> bool
    ensures { result ≡ rule_of.is_plain (option_map sort (option_copied t.entry)) }
{
    match t {
        Some(t) => !may_be_none(t),
        None => true,
    }
}

fn may_be_none(t: &Ty) -> bool
    ensures { result ≡ narrowing.may_be_none (sort t.now) }
{
    match t {
        Ty::Nothing => true,
        Ty::Optional(_) => true,
        _ => false,
    }
}
