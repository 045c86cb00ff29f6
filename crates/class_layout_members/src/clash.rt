//! The first member of a class of which not all definitions agree with the first.
ghost use Rattle.std.specs.Prelude.{◌≡◌, ℕ, List, ◌∷◌, ◌&&◌, ◌||◌, map, find, IfOk, IfSome, OnOk};
ghost use Rattle.std.specs.Map.{lookup};
ghost use Rattle.std.specs.Option.{option_map, option_copied};
ghost use Rattle.std.specs.Str.{bytes_eq};
ghost use Rattle.indexmap.specs.IndexSet.{contains};
ghost use Rattle.py_typed.specs.ClassTables.{class_table};
ghost use Rattle.class_layout_members.specs.Clashes as spec;
ghost use Rattle.class_layout_members.specs.Clashes.{members_along, clash_among, clashes, none_other, AllAgreeAlong};
ghost use Rattle.class_layout_members.specs.Views.{definition, definitions_in, member};

use crate::firsts::{add_first, add_missing};
use crate::member::{Definition, Member, agree, members_of};
use indexmap::{IndexMap, IndexSet};
use py_typed::Classes;
use std::alloc::Global;
use value_core::{Memory, Name};

/// The first member of the classes of an order of which not all definitions agree with the first, if there is one.
///
/// # Errors
///
/// `Memory` alone.
pub fn clash_along<'a>(
    alloc: Global,
    order: &[usize],
    classes: &'a Classes,
) -> Result<Option<&'a Name>, Memory>
    ensures { IfOk result (λ clash. option_copied clash ≡ clash_among (members_along (class_table classes.now) order.now)) }
{
    let row = members_of(alloc, order, classes)?;
    let members = row.as_slice();
    let firsts = first_definitions(alloc, members)?;
    let clashing = clashing_names(alloc, members, &firsts)?;
    Ok(first_among(members, &clashing))
}

/// The first definition of each name along an order.
///
/// # Errors
///
/// `Memory` alone.
pub fn definitions_along<'a>(
    alloc: Global,
    order: &[usize],
    classes: &'a Classes,
) -> Result<IndexMap<Name, Definition<'a>>, Memory>
    ensures { IfOk result (λ firsts. (q : List ℕ) → definitions_in firsts q ≡ lookup (bytes_eq q) (members_along (class_table classes.now) order.now)) }
{
    let row = members_of(alloc, order, classes)?;
    first_definitions(alloc, row.as_slice())
}

/// The first definitions along an order that is a class in front of another order, from those along that one, if all definitions of the
/// class agree with each other and with those. So a long line of classes is not walked again for each of them.
///
/// # Errors
///
/// `Memory` alone.
pub fn definitions_in_front<'a>(
    alloc: Global,
    class: usize,
    classes: &'a Classes,
    above: &IndexMap<Name, Definition<'a>>,
) -> Result<Option<IndexMap<Name, Definition<'a>>>, Memory>
    ensures { IfOk result (λ found. IfSome found (λ firsts. (order : List ℕ) → AllAgreeAlong (class_table classes.now) order (definitions_in above.now) → AllAgreeAlong (class_table classes.now) (class ∷ order) (definitions_in firsts))) }
{
    let row = members_of(alloc, &[class], classes)?;
    let members = row.as_slice();
    let mut firsts = first_definitions(alloc, members)?;
    if !agree_with_both(members, &firsts, above) {
        return Ok(None);
    }
    add_missing(&mut firsts, above)?;
    Ok(Some(firsts))
}

/// Whether the definitions of all members agree with those of their names in two maps.
fn agree_with_both(
    members: &[Member<'_>],
    firsts: &IndexMap<Name, Definition<'_>>,
    above: &IndexMap<Name, Definition<'_>>,
) -> bool
    ensures { result ≡ (none_other (definitions_in firsts.now) (map member members.now) && none_other (definitions_in above.now) (map member members.now)) }
{
    all_agree(members, firsts) && all_agree(members, above)
}

/// Whether the definitions of all members agree with those of their names.
fn all_agree(members: &[Member<'_>], firsts: &IndexMap<Name, Definition<'_>>) -> bool
    ensures { result ≡ none_other (definitions_in firsts.now) (map member members.now) }
{
    for member in members {
        if is_other(member, firsts) {
            return false;
        }
    }
    true
}

/// The first definition of each name.
///
/// # Errors
///
/// `Memory` alone.
pub fn first_definitions<'a>(
    alloc: Global,
    members: &[Member<'a>],
) -> Result<IndexMap<Name, Definition<'a>>, Memory>
    ensures { IfOk result (λ firsts. (q : List ℕ) → definitions_in firsts q ≡ lookup (bytes_eq q) (map member members.now)) }
{
    let mut firsts = IndexMap::new(alloc);
    for member in members {
        add_first(&mut firsts, member.name, member.definition)?;
    }
    Ok(firsts)
}

/// The names with a definition that does not agree with the first one.
///
/// # Errors
///
/// `Memory` alone.
pub fn clashing_names(
    alloc: Global,
    members: &[Member<'_>],
    firsts: &IndexMap<Name, Definition<'_>>,
) -> Result<IndexSet<Name>, Memory>
    requires { (q : List ℕ) → definitions_in firsts.now q ≡ lookup (bytes_eq q) (map member members.now) }
    ensures { IfOk result (λ names. (q : List ℕ) → contains bytes_eq names q ≡ clashes (map member members.now) q) }
{
    let mut names = IndexSet::new(alloc);
    for member in members {
        add_if_other(&mut names, member, firsts)?;
    }
    Ok(names)
}

/// Adds the name of a member whose definition does not agree with the first one.
fn add_if_other(
    names: &mut IndexSet<Name>,
    member: &Member<'_>,
    firsts: &IndexMap<Name, Definition<'_>>,
) -> Result<(), Memory>
    ensures { OnOk result ((q : List ℕ) → contains bytes_eq names.new q ≡ (contains bytes_eq names.old q || (bytes_eq q member.now.name.now && spec.is_other member.now.name.now (definitions_in firsts.now member.now.name.now) (definition member.now.definition)))) }
{
    if !is_other(member, firsts) {
        return Ok(());
    }
    names.insert(member.name.clone()?)?;
    Ok(())
}

/// Whether a definition does not agree with the first one of its name.
pub fn is_other(member: &Member<'_>, firsts: &IndexMap<Name, Definition<'_>>) -> bool
    ensures { result ≡ spec.is_other member.now.name.now (definitions_in firsts.now member.now.name.now) (definition member.now.definition) }
{
    match firsts.get(member.name) {
        Some(first) => !agree(member.name, first, &member.definition),
        None => false,
    }
}

/// The first name of the members that is among these.
fn first_among<'a>(members: &[Member<'a>], names: &IndexSet<Name>) -> Option<&'a Name>
    ensures { option_copied result ≡ option_map (λ p. p.0) (find (λ p. contains bytes_eq names.now p.0) (map member members.now)) }
{
    for member in members {
        if names.contains(member.name) {
            return Some(member.name);
        }
    }
    None
}
