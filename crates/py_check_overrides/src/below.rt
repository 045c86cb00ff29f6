//! A class below one that passes: its own definitions are asked, against each other and what is known there.
ghost use Rattle.std.specs.Prelude.{◌≡◌, ◌++◌, ℕ, List, true, Some, None, cond, map, IfOk, IfSome};
ghost use Rattle.std.specs.Option.{option_map, option_or};
ghost use Rattle.std.specs.Str.{bytes_eq};
ghost use Rattle.indexmap.specs.IndexMap.{get};
ghost use Rattle.class_layout_members.specs.Clashes.{Definition};
ghost use Rattle.class_layout_members.specs.Views.{definition as view_definition};
ghost use Rattle.py_check_overrides.specs.Overrides as spec;
ghost use Rattle.py_check_overrides.specs.Lines as lines_spec;
ghost use Rattle.py_check_overrides.specs.Views as view;

use crate::lines::{Lines, Said};
use crate::member::OwnMember;
use class_layout_members::{Definition, add_first, agree};
use indexmap::IndexMap;
use std::alloc::Global;
use value_core::{Many, Memory, Name};

/// The next class, and the one that it stands below.
#[derive(Clone, Copy)]
pub(crate) struct Place<'l, 'a> {
    pub(crate) lines: &'l Lines<'a>,
    pub(crate) base: usize,
    pub(crate) class: usize,
}

/// What is new of the next class, if no definition of it disagrees.
pub(crate) fn new_below<'a>(
    alloc: Global,
    place: &Place<'_, 'a>,
    members: &[Many<OwnMember<'a>>],
) -> Result<Option<IndexMap<Name, Said<'a>>>, Memory>
    requires { lines_spec.AreLines place.now.lines.now }
    ensures { IfOk result (λ found. IfSome found (lines_spec.IsNewOf place.now.class (lines_spec.known place.now.lines.now place.now.base) (spec.own_of (view.owns members.now) place.now.class))) }
{
    match members.get(place.class) {
        Some(own) => new_of(alloc, place, own.as_slice()),
        None => Ok(Some(IndexMap::new(alloc))),
    }
}

fn new_of<'a>(
    alloc: Global,
    place: &Place<'_, 'a>,
    own: &[OwnMember<'a>],
) -> Result<Option<IndexMap<Name, Said<'a>>>, Memory>
    requires { lines_spec.AreLines place.now.lines.now }
    ensures { IfOk result (λ found. IfSome found (lines_spec.IsNewOf place.now.class (lines_spec.known place.now.lines.now place.now.base) (map view.own own.now))) }
{
    let mut new = IndexMap::new(alloc);
    for member in own {
        if !take(place, member, &mut new)? {
            return Ok(None);
        }
    }
    Ok(Some(new))
}

/// Takes a member into what is new, and says whether its definition agrees with what is known.
fn take<'a>(
    place: &Place<'_, 'a>,
    member: &OwnMember<'a>,
    new: &mut IndexMap<Name, Said<'a>>,
) -> Result<bool, Memory>
    requires lines { lines_spec.AreLines place.now.lines.now }
    ensures { IfOk result (λ fits. lines_spec.IsTaken place.now.class (lines_spec.known place.now.lines.now place.now.base) (view.own member.now) (get bytes_eq new.old) (get bytes_eq new.new) fits) }
{
    match member.definition {
        Some(definition) => take_definition(place, member.name, definition, new),
        None => Ok(true),
    }
}

fn take_definition<'a>(
    place: &Place<'_, 'a>,
    name: &Name,
    definition: Definition<'a>,
    new: &mut IndexMap<Name, Said<'a>>,
) -> Result<bool, Memory>
    requires lines { lines_spec.AreLines place.now.lines.now }
    ensures { IfOk result (λ fits. lines_spec.IsTaken place.now.class (lines_spec.known place.now.lines.now place.now.base) (name.now, Some (view_definition definition.entry)) (get bytes_eq new.old) (get bytes_eq new.new) fits) }
{
    match known_or_new(place, new, name) {
        Some(first) => Ok(agree(name, &first, &definition)),
        None => {
            let class = place.class;
            add_first(new, name, Said { class, definition })?;
            Ok(true)
        }
    }
}

/// What is known of a name, or else new.
fn known_or_new<'a>(
    place: &Place<'_, 'a>,
    new: &IndexMap<Name, Said<'a>>,
    name: &Name,
) -> Option<Definition<'a>>
    requires { lines_spec.AreLines place.now.lines.now }
    ensures { option_map view_definition result ≡ lines_spec.known_or_new (lines_spec.known place.now.lines.now place.now.base) (lines_spec.said_in new.now) name.now }
{
    match place.lines.known(place.base, name) {
        Some(definition) => Some(definition),
        None => new_in(new, name),
    }
}

fn new_in<'a>(new: &IndexMap<Name, Said<'a>>, name: &Name) -> Option<Definition<'a>>
    ensures { option_map view_definition result ≡ lines_spec.said_in new.now name.now }
{
    let said = new.get(name)?;
    Some(said.definition)
}
