//! Where the `__init__` of each class declares attributes by annotations.
ghost use Rattle.std.specs.Prelude.{◌≡◌, ℕ, List, ◌+◌, ◌<◌, ◌^◌, ◌∷◌, ◌++◌, [], length, map, slice_get, Some, IfOk};
ghost use Rattle.std.specs.Str.{bytes_eq};
ghost use Rattle.indexmap.specs.IndexMap.{get};
ghost use Rattle.py_syntax.specs.Statements.{stmt_tree, body_tree};
ghost use Rattle.py_check_names.specs.Walked.{trees};
ghost use Rattle.py_check_names.specs.Outline.{methods_in};
ghost use Rattle.py_check_members.specs.Views.{events_of, event_of};
ghost use Rattle.py_check_members.specs.Members as spec;
ghost use Rattle.py_check_members.specs.Tables as tables;

use crate::bodies::is_declaration;
use crate::events::{Deed, Event, class_events};
use crate::places::{Places, first_places};
use class_layout_members::add_first;
use indexmap::IndexMap;
use py_syntax::{Span, Stmt};
use std::alloc::Global;
use value_core::{Memory, Name};

/// Of each attribute that the `__init__` of a class with this body declares by an annotation the place of that statement.
pub fn declaring_places(alloc: Global, body: &[Stmt]) -> Result<IndexMap<Name, Span>, Memory>
    ensures { IfOk result (λ places. (name : List ℕ) → get bytes_eq places name ≡ spec.declaring (body_tree body.now) name) }
{
    let _many = body.len();
    let events = class_events(alloc, 0, body)?;
    annotated_places(alloc, events.as_slice())
}

fn annotated_places(alloc: Global, events: &[Event<'_>]) -> Result<IndexMap<Name, Span>, Memory>
    ensures { IfOk result (λ places. (name : List ℕ) → get bytes_eq places name ≡ spec.annotated_from (events_of events.now) name 0 (events_of events.now)) }
{
    let firsts = first_places(alloc, events)?;
    let mut places = IndexMap::new(alloc);
    add_places(events, &firsts, &mut places)?;
    Ok(places)
}

fn add_places(
    events: &[Event<'_>],
    firsts: &IndexMap<Name, Places>,
    places: &mut IndexMap<Name, Span>,
) -> Result<(), Memory>
    requires { tables.AreFirst (events_of events.now) (tables.places_by firsts.now) }
    ensures { IfOk result (λ done. (name : List ℕ) → get bytes_eq places.new name ≡ tables.span_or (get bytes_eq places.old name) (spec.annotated_from (events_of events.now) name 0 (events_of events.now))) }
{
    for (i, event) in events.iter().enumerate() {
        add_place(events, firsts, places, i, event)?;
    }
    Ok(())
}

/// Notes the place of an event that declares its name by an annotation, where none of the name is noted.
fn add_place(
    events: &[Event<'_>],
    firsts: &IndexMap<Name, Places>,
    places: &mut IndexMap<Name, Span>,
    i: usize,
    event: &Event<'_>,
) -> Result<(), Memory>
    requires { tables.AreFirst (events_of events.now) (tables.places_by firsts.now) }
    ensures { IfOk result (λ done. (name : List ℕ) → get bytes_eq places.new name ≡ tables.span_or (get bytes_eq places.old name) (tables.place_of (events_of events.now) name i (event_of event.now))) }
{
    if !(is_annotation(event) && is_declaration(events, firsts, i, event)) {
        return Ok(());
    }
    add_first(places, event.name, event.place)
}

fn is_annotation(event: &Event<'_>) -> bool
    ensures { result ≡ spec.is_annotation (Some (event_of event.now).deed) }
{
    matches!(event.deed, Deed::Annotates(_))
}
