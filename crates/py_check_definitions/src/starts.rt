//! The types of variables where a module or a function begins.
ghost use Rattle.std.specs.Prelude.{◌≡◌, ℕ, List, map, cond, Some, IfOk};
ghost use Rattle.std.specs.Option.{option_map, option_copied};
ghost use Rattle.std.specs.Str.{bytes_eq};
ghost use Rattle.indexmap.specs.IndexMap.{get};
ghost use Rattle.py_syntax.specs.Expressions.{expr_tree};
ghost use Rattle.py_syntax.specs.Statements.{body_tree, param_tree};
ghost use Rattle.py_typed.specs.Sorts.{sort};
ghost use Rattle.py_check_context.specs.Context.{context, var_sort};
ghost use Rattle.py_check_annotations.specs.Annotations as meant;
ghost use Rattle.py_check_flow.specs.Bindings.{bindings_of, suite_bindings};
ghost use Rattle.py_check_definitions.specs.Starts as spec;
ghost use Rattle.py_check_definitions.specs.Views as views;

use indexmap::IndexMap;
use py_check_annotations::annotation;
use py_check_context::{Context, VarType};
use py_check_flow::{Binding, bindings_in};
use py_syntax::{Expr, Stmt};
use py_typed::{Ty, copy_of};
use std::alloc::Global;
use value_core::{Many, Memory, Name};

/// The types of variables that these statements bind, before the first of them.
pub fn start_types(
    alloc: Global,
    scope: &Context<'_>,
    body: &[Stmt],
    names: &[Name],
) -> Result<Many<VarType>, Memory>
    ensures { IfOk result (λ types. map var_sort types ≡ map (spec.start_sort (context scope.now).meaning (suite_bindings (body_tree body.now))) names.now) }
{
    own_types(alloc, scope, body, &[], &Many::new(alloc), names)
}

/// The types of a function's own variables before its first statement, where its parameters have these names and types.
pub fn own_types(
    alloc: Global,
    scope: &Context<'_>,
    body: &[Stmt],
    params: &[(Name, Option<Expr>)],
    sorts: &Many<Option<Ty>>,
    names: &[Name],
) -> Result<Many<VarType>, Memory>
    ensures { IfOk result (λ types. map var_sort types ≡ map (spec.own_sort (context scope.now).meaning (suite_bindings (body_tree body.now)) (map (λ p. p.0) (map param_tree params.now)) (map (option_map sort) sorts.now)) names.now) }
{
    let marks = marks_in(alloc, body)?;
    types_by(alloc, scope, &marks, params, sorts, names)
}

/// The same by the annotations of the first bindings of names.
fn types_by(
    alloc: Global,
    scope: &Context<'_>,
    marks: &IndexMap<Name, Option<&Expr>>,
    params: &[(Name, Option<Expr>)],
    sorts: &Many<Option<Ty>>,
    names: &[Name],
) -> Result<Many<VarType>, Memory>
    ensures { IfOk result (λ types. map var_sort types ≡ map (views.sort_by (context scope.now).meaning (λ name. option_map views.mark_tree (get bytes_eq marks.now name)) (map (λ p. p.0) (map param_tree params.now)) (map (option_map sort) sorts.now)) names.now) }
{
    let mut types = Many::new(alloc);
    for name in names {
        types.push(own_type(alloc, scope, marks, params, sorts, name)?)?;
    }
    Ok(types)
}

fn own_type(
    alloc: Global,
    scope: &Context<'_>,
    marks: &IndexMap<Name, Option<&Expr>>,
    params: &[(Name, Option<Expr>)],
    sorts: &Many<Option<Ty>>,
    name: &Name,
) -> Result<VarType, Memory>
    ensures { IfOk result (λ t. var_sort t ≡ views.sort_by (context scope.now).meaning (λ name. option_map views.mark_tree (get bytes_eq marks.now name)) (map (λ p. p.0) (map param_tree params.now)) (map (option_map sort) sorts.now) name.now) }
{
    match param_type(params, sorts, name) {
        Some(t) => given_type(alloc, t),
        None => start_type(alloc, scope, marks, name),
    }
}

/// The type of the first parameter of this name, if there is one.
fn param_type<'a>(
    params: &[(Name, Option<Expr>)],
    sorts: &'a Many<Option<Ty>>,
    name: &Name,
) -> Option<&'a Option<Ty>>
    ensures { option_map (option_map sort) (option_copied result) ≡ spec.param_sort (map (λ p. p.0) (map param_tree params.now)) (map (option_map sort) sorts.now) name.now }
{
    for (i, (other, _)) in params.iter().enumerate() {
        if name == other {
            return sorts.get(i);
        }
    }
    None
}

/// The annotations of the first bindings of names, where they have one.
fn marks_in(alloc: Global, body: &[Stmt]) -> Result<IndexMap<Name, Option<&Expr>>, Memory>
    ensures { IfOk result (λ marks. (name : List ℕ) → option_map views.mark_tree (get bytes_eq marks name) ≡ spec.first_mark (suite_bindings (body_tree body.now)) name) }
{
    let mut bindings = bindings_in(alloc, body)?;
    marks_of(alloc, &mut bindings)
}

/// The same of these bindings, which are used up.
fn marks_of<'a>(
    alloc: Global,
    bindings: &mut Vec<Binding<'a>>,
) -> Result<IndexMap<Name, Option<&'a Expr>>, Memory>
    ensures { IfOk result (λ marks. (name : List ℕ) → option_map views.mark_tree (get bytes_eq marks name) ≡ spec.first_mark (bindings_of bindings.old.items) name) }
{
    let mut marks = IndexMap::new(alloc);
    while let Some(binding) = bindings.pop() {
        add_mark(&mut marks, &binding)?;
    }
    Ok(marks)
}

/// Puts the annotation of a binding, or that it has none, in the place of those of its name.
fn add_mark<'a>(
    marks: &mut IndexMap<Name, Option<&'a Expr>>,
    binding: &Binding<'a>,
) -> Result<(), Memory>
    ensures { IfOk result (λ done. (name : List ℕ) → get bytes_eq marks.new name ≡ cond (bytes_eq binding.now.name.now name) (Some binding.now.mark) (get bytes_eq marks.old name)) }
{
    marks.insert(binding.name.clone()?, binding.mark)?;
    Ok(())
}

fn start_type(
    alloc: Global,
    scope: &Context<'_>,
    marks: &IndexMap<Name, Option<&Expr>>,
    name: &Name,
) -> Result<VarType, Memory>
    ensures { IfOk result (λ t. var_sort t ≡ spec.by_mark (context scope.now).meaning (option_map views.mark_tree (get bytes_eq marks.now name.now))) }
{
    match marks.get(name) {
        Some(Some(mark)) => marked_type(alloc, scope, *mark),
        _ => Ok(VarType::Unset),
    }
}

/// What is wrong with the annotation is said where its statement is typed.
fn marked_type(alloc: Global, scope: &Context<'_>, mark: &Expr) -> Result<VarType, Memory>
    ensures { IfOk result (λ t. var_sort t ≡ spec.given_sort (meant.annotation (context scope.now).meaning (expr_tree mark.now)).got) }
{
    let mut unsaid = Many::new(alloc);
    match annotation(alloc, scope, mark, &mut unsaid)? {
        Some(t) => Ok(VarType::Has(t)),
        None => Ok(VarType::Untyped),
    }
}

fn given_type(alloc: Global, t: &Option<Ty>) -> Result<VarType, Memory>
    ensures { IfOk result (λ v. var_sort v ≡ spec.given_sort (option_map sort t.now)) }
{
    match t {
        Some(t) => Ok(VarType::Has(copy_of(alloc, t)?)),
        None => Ok(VarType::Untyped),
    }
}
