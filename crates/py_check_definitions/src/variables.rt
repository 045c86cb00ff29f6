//! The variables of a module and of its functions, with their names.
ghost use Rattle.std.specs.Prelude.{◌≡◌, map, unwrap_or, IfOk};
ghost use Rattle.std.specs.Option.{option_map, option_copied};
ghost use Rattle.py_syntax.specs.Statements.{param_tree};
ghost use Rattle.py_typed.specs.Sorts as sorts;
ghost use Rattle.py_typed.specs.Statements.{variable};
ghost use Rattle.py_check_context.specs.Context.{var_sort, var_of};
ghost use Rattle.py_check_names.specs.Meanings as meanings;
ghost use Rattle.py_check_definitions.specs.Variables as spec;

use indexmap::IndexSet;
use py_check_context::VarType;
use py_check_names::number;
use py_syntax::Expr;
use py_typed::{Ty, Var, copy_of};
use std::alloc::Global;
use value_core::{Many, Memory, Name};

/// The numbers of names.
pub fn numbers_of(alloc: Global, names: &[Name]) -> Result<Vec<usize>, Memory>
    ensures { IfOk result (λ numbers. numbers.items ≡ spec.numbers_from 0 names.now) }
{
    let mut numbers = Vec::new(alloc);
    for i in 0..names.len() {
        numbers.push(i)?;
    }
    Ok(numbers)
}

/// The numbers of parameters among a function's own variables.
pub fn param_numbers(
    alloc: Global,
    own: &IndexSet<Name>,
    params: &[(Name, Option<Expr>)],
) -> Result<Vec<usize>, Memory>
    ensures { IfOk result (λ numbers. numbers.items ≡ map (meanings.number own.now.keys) (map (λ p. p.0) (map param_tree params.now))) }
{
    let mut numbers = Vec::new(alloc);
    for (name, _) in params {
        numbers.push(number(own, name))?;
    }
    Ok(numbers)
}

/// Variables by their numbers, with their types.
pub fn typed_variables(
    alloc: Global,
    names: &[Name],
    types: &Many<VarType>,
) -> Result<Many<Var>, Memory>
    ensures { IfOk result (λ all. map variable all ≡ spec.typed_variables (map var_sort types.now) names.now) }
{
    let mut variables = Many::new(alloc);
    for (i, name) in names.iter().enumerate() {
        let made = typed_variable(alloc, name, types.get(i))?;
        variables.push(made)?;
    }
    Ok(variables)
}

/// A variable of this name and type; one without a type is None.
fn typed_variable(alloc: Global, name: &Name, t: Option<&VarType>) -> Result<Var, Memory>
    ensures { IfOk result (λ v. variable v ≡ (name.now, spec.sort_or_none (var_of (option_map var_sort (option_copied t.entry))))) }
{
    let name = name.clone()?;
    let ty = type_of(alloc, t)?;
    Ok(Var { name, ty })
}

fn type_of(alloc: Global, t: Option<&VarType>) -> Result<Ty, Memory>
    ensures { IfOk result (λ ty. sorts.sort ty ≡ spec.sort_or_none (var_of (option_map var_sort (option_copied t.entry)))) }
{
    match t {
        Some(VarType::Has(t)) => copy_of(alloc, t),
        Some(VarType::Untyped) => Ok(Ty::Nothing),
        Some(VarType::Unset) => Ok(Ty::Nothing),
        None => Ok(Ty::Nothing),
    }
}

/// A type, or that of `None` where there is none.
pub fn type_or_none(alloc: Global, t: &Option<Ty>) -> Result<Ty, Memory>
    ensures { IfOk result (λ copy. sorts.sort copy ≡ unwrap_or (option_map sorts.sort t.now) sorts.Nothing) }
{
    match t {
        Some(t) => copy_of(alloc, t),
        None => Ok(Ty::Nothing),
    }
}
