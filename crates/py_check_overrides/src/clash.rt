//! The clash along the order of a class, by all definitions along it.
ghost use Rattle.std.specs.Prelude.{◌≡◌, ◌&&◌, ◌∷◌, [], ℕ, List, true, map, find, IfOk};
ghost use Rattle.std.specs.List.{list_any};
ghost use Rattle.std.specs.Map.{lookup};
ghost use Rattle.std.specs.Option.{option_map, option_copied};
ghost use Rattle.std.specs.Str.{bytes_eq};
ghost use Rattle.indexmap.specs.IndexSet.{contains};
ghost use Rattle.class_layout_members.specs.Clashes as members_spec;
ghost use Rattle.class_layout_members.specs.Views.{definitions_in, member as view_member};
ghost use Rattle.py_check_overrides.specs.Overrides as spec;
ghost use Rattle.py_check_overrides.specs.Views as view;

use crate::member::{OwnMember, all_along};
use crate::verdict::Clash;
use class_layout_members::{Definition, Member, clashing_names, first_definitions, is_other};
use indexmap::{IndexMap, IndexSet};
use std::alloc::Global;
use value_core::{Many, Memory, Name};

/// The clash along a row of classes, if there is one, where these are the definitions along it.
pub(crate) fn clash_along<'a>(
    alloc: Global,
    members: &[Many<OwnMember<'a>>],
    row: &[usize],
    defined: &[Member<'a>],
) -> Result<Option<Clash<'a>>, Memory>
    requires { map view_member defined.now ≡ spec.defined_along (view.owns members.now) row.now }
    ensures { IfOk result (λ clash. option_map view.clash clash ≡ spec.clash_along (view.owns members.now) row.now) }
{
    let firsts = first_definitions(alloc, defined)?;
    let clashing = clashing_names(alloc, defined, &firsts)?;
    let all = all_along(alloc, members, row)?;
    let Some(name) = first_among(all.as_slice(), &clashing) else {
        return Ok(None);
    };
    Ok(class_of_clash(members, row, name, &firsts))
}

/// The clash of a name: with the first class of a row that has another definition of it.
fn class_of_clash<'a>(
    members: &[Many<OwnMember<'a>>],
    row: &[usize],
    name: &'a Name,
    firsts: &IndexMap<Name, Definition<'a>>,
) -> Option<Clash<'a>>
    requires { (q : List ℕ) → definitions_in firsts.now q ≡ lookup (bytes_eq q) (spec.defined_along (view.owns members.now) row.now) }
    ensures { option_map view.clash result ≡ option_map (spec.clash_in name.now) (find (spec.says_other (view.owns members.now) row.now name.now) row.now) }
{
    for class in row {
        if class_says_other(members, *class, name, firsts) {
            return Some(Clash {
                name,
                class: *class,
            });
        }
    }
    None
}

/// Whether the class of a number has another definition of a name than the first.
fn class_says_other(
    members: &[Many<OwnMember<'_>>],
    class: usize,
    name: &Name,
    firsts: &IndexMap<Name, Definition<'_>>,
) -> bool
    ensures { result ≡ list_any (λ p. bytes_eq name.now p.0 && members_spec.is_other p.0 (definitions_in firsts.now p.0) p.1) (spec.defined (spec.own_of (view.owns members.now) class)) }
{
    match members.get(class) {
        Some(own) => says_other(own.as_slice(), name, firsts),
        None => false,
    }
}

/// Whether one of these members is another definition of a name than the first.
fn says_other(own: &[OwnMember<'_>], name: &Name, firsts: &IndexMap<Name, Definition<'_>>) -> bool
    ensures { result ≡ list_any (λ p. bytes_eq name.now p.0 && members_spec.is_other p.0 (definitions_in firsts.now p.0) p.1) (spec.defined (map view.own own.now)) }
{
    for member in own {
        if is_another(member, name, firsts) {
            return true;
        }
    }
    false
}

fn is_another(member: &OwnMember<'_>, name: &Name, firsts: &IndexMap<Name, Definition<'_>>) -> bool
    ensures { result ≡ list_any (λ p. bytes_eq name.now p.0 && members_spec.is_other p.0 (definitions_in firsts.now p.0) p.1) (spec.defined (view.own member.now ∷ [])) }
{
    match member.definition {
        Some(definition) => {
            name == member.name
                && is_other(
                    &Member {
                        name: member.name,
                        definition,
                    },
                    firsts,
                )
        }
        None => false,
    }
}

/// The first name of the members that is among these.
fn first_among<'a>(members: &[OwnMember<'a>], names: &IndexSet<Name>) -> Option<&'a Name>
    ensures { option_copied result ≡ option_map (λ p. p.0) (find (λ p. contains bytes_eq names.now p.0) (map view.own members.now)) }
{
    for member in members {
        if names.contains(member.name) {
            return Some(member.name);
        }
    }
    None
}
