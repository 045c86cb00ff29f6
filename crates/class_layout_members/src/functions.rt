//! The functions that stand for the methods of classes.
ghost use Rattle.std.specs.Prelude.{◌≡◌, ℕ, List, true, map, slice_get, is_some, Some, IfOk, OnOk};
ghost use Rattle.std.specs.List.{list_all};
ghost use Rattle.std.specs.Map.{lookup};
ghost use Rattle.std.specs.Option.{option_or, option_copied};
ghost use Rattle.std.specs.Str.{bytes_eq};
ghost use Rattle.indexmap.specs.IndexMap.{get};
ghost use Rattle.py_typed.specs.Classes.{class_entry};
ghost use Rattle.py_typed.specs.Order.{method_along};
ghost use Rattle.class_layout_members.specs.Names.{own_methods};
ghost use Rattle.class_layout_members.specs.Tables.{keys_in, function_at, found_or_above};

use crate::firsts::add_first;
use indexmap::{IndexMap, IndexSet};
use py_typed::ClassInfo;
use std::alloc::Global;
use value_core::{Many, Memory, Name};

/// For each name the function of the first class along an order that has a method of it.
///
/// # Errors
///
/// `Memory` alone.
pub fn functions_along(
    alloc: Global,
    order: &[usize],
    classes: &[ClassInfo],
) -> Result<IndexMap<Name, usize>, Memory>
    ensures { IfOk result (λ found. (name : List ℕ) → get bytes_eq found name ≡ method_along (map class_entry classes.now) name order.now) }
{
    let mut found = IndexMap::new(alloc);
    for class in order {
        add_functions(&mut found, methods_at(classes, *class))?;
    }
    Ok(found)
}

/// Notes the function of each name of which none was noted.
fn add_functions(found: &mut IndexMap<Name, usize>, methods: &[(Name, usize)]) -> Result<(), Memory>
    ensures { OnOk result ((name : List ℕ) → get bytes_eq found.new name ≡ option_or (get bytes_eq found.old name) (lookup (bytes_eq name) methods.now)) }
{
    for (name, function) in methods {
        add_first(found, name, *function)?;
    }
    Ok(())
}

/// The own methods of the class of a number: none where there is no such class.
#[tactic(auto, using(py_typed::proofs::TypeLemmas::entry_found))]
pub(crate) fn methods_at(classes: &[ClassInfo], class: usize) -> &[(Name, usize)]
    ensures { result.now ≡ own_methods (slice_get (map class_entry classes.now) class) }
{
    match classes.get(class) {
        Some(class) => class.methods.as_slice(),
        None => &[],
    }
}

/// The functions of names, each of which has one: what is found under it, or else the function above at the name's place above.
///
/// # Errors
///
/// `Memory` alone.
pub fn functions_of(
    alloc: Global,
    names: &[Name],
    found: &IndexMap<Name, usize>,
    above: Option<&IndexSet<Name>>,
    functions: &[usize],
) -> Result<Many<usize>, Memory>
    requires { list_all (λ name. is_some (found_or_above (get bytes_eq found.now) (keys_in (option_copied above)) functions.now name)) names.now ≡ true }
    ensures { IfOk result (λ all. map Some all ≡ map (found_or_above (get bytes_eq found.now) (keys_in (option_copied above.entry)) functions.now) names.now) }
{
    let mut all = Many::new(alloc);
    for name in names {
        let Some(function) = function_of(name, found, above, functions) else {
            continue;
        };
        all.push(function)?;
    }
    Ok(all)
}

fn function_of(
    name: &Name,
    found: &IndexMap<Name, usize>,
    above: Option<&IndexSet<Name>>,
    functions: &[usize],
) -> Option<usize>
    ensures { result ≡ found_or_above (get bytes_eq found.now) (keys_in (option_copied above.entry)) functions.now name.now }
{
    match found.get(name) {
        Some(function) => Some(*function),
        None => function_above(name, above, functions),
    }
}

/// The function at the place that a name has among others.
fn function_above(name: &Name, above: Option<&IndexSet<Name>>, functions: &[usize]) -> Option<usize>
    ensures { result ≡ function_at (keys_in (option_copied above.entry)) functions.now name.now }
{
    let place = above?.get_index_of(name)?;
    functions.get(place).copied()
}
