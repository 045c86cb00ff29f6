//! The first deeds of names.
ghost use Rattle.std.specs.Prelude.{◌≡◌, ℕ, List, ◌<◌, ◌+◌, length, map, unwrap_or, IfOk};
ghost use Rattle.std.specs.Option.{option_map, option_copied};
ghost use Rattle.std.specs.Str.{bytes_eq};
ghost use Rattle.indexmap.specs.IndexMap.{get};
ghost use Rattle.py_check_members.specs.Views.{places_of, deed_of, event_of, events_of};
ghost use Rattle.py_check_members.specs.Deeds.{is_builtin_name};
ghost use Rattle.py_check_members.specs.Members as spec;
ghost use Rattle.py_check_members.specs.Tables as tables;

use crate::events::{Deed, Event};
use indexmap::IndexMap;
use py_check_names::builtin_meaning;
use std::alloc::Global;
use value_core::{Memory, Name};

/// Of a name: the places of the first event of the body, of the first assignment in `__init__`, and of the first there that gives a
/// type.
#[derive(Clone, Copy)]
pub(crate) struct Places {
    pub body: Option<usize>,
    pub init: Option<usize>,
    pub gift: Option<usize>,
}

/// The first places of each name.
pub(crate) fn first_places(
    alloc: Global,
    events: &[Event<'_>],
) -> Result<IndexMap<Name, Places>, Memory>
    ensures { IfOk result (λ table. tables.AreFirst (events_of events.now) (tables.places_by table)) }
{
    let mut table = IndexMap::new(alloc);
    for (i, event) in events.iter().enumerate() {
        note(&mut table, i, event)?;
    }
    Ok(table)
}

/// Notes the place of an event.
fn note(table: &mut IndexMap<Name, Places>, i: usize, event: &Event<'_>) -> Result<(), Memory>
    ensures { IfOk result (λ done. (name : List ℕ) → tables.places_by table.new name ≡ tables.noted (bytes_eq event.now.name.now name) i (event_of event.now) (tables.places_by table.old name)) }
{
    let noted = with_place(places_at(table, event.name), i, event);
    table.insert(event.name.clone()?, noted)?;
    Ok(())
}

/// The places of a name so far.
pub(crate) fn places_at(table: &IndexMap<Name, Places>, name: &Name) -> Places
    ensures { places_of result ≡ tables.places_by table.now name.now }
{
    match table.get(name) {
        Some(places) => *places,
        None => Places {
            body: None,
            init: None,
            gift: None,
        },
    }
}

/// With the place of an event of the name.
fn with_place(p: Places, i: usize, event: &Event<'_>) -> Places
    ensures { places_of result ≡ tables.with_place i (event_of event.now) (places_of p) }
{
    Places {
        body: first_of(p.body, is_of_body(event), i),
        init: first_of(p.init, is_of_init(event.deed), i),
        gift: first_of(p.gift, is_gift(event.deed), i),
    }
}

fn first_of(place: Option<usize>, is_one: bool, i: usize) -> Option<usize>
    ensures { result ≡ tables.first_of place is_one i }
{
    if place.is_none() && is_one {
        return Some(i);
    }
    place
}

fn is_of_body(event: &Event<'_>) -> bool
    ensures { result ≡ spec.is_of_body (event_of event.now) }
{
    match event.deed {
        Deed::Defines(_) => !is_builtin_name(event.name),
        Deed::Declares(_) => true,
        _ => false,
    }
}

pub(crate) fn is_builtin_name(name: &Name) -> bool
    ensures { result ≡ is_builtin_name name.now }
{
    builtin_meaning(name).is_some()
}

fn is_of_init(deed: Deed<'_>) -> bool
    ensures { result ≡ spec.is_of_init (deed_of deed.entry) }
{
    match deed {
        Deed::Annotates(_) => true,
        Deed::Gives(_) => true,
        Deed::Sets => true,
        _ => false,
    }
}

fn is_gift(deed: Deed<'_>) -> bool
    ensures { result ≡ spec.is_gift (deed_of deed.entry) }
{
    matches!(deed, Deed::Gives(_))
}
