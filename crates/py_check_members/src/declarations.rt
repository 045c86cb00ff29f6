//! Which events declare the name of a member.
ghost use Rattle.std.specs.Prelude.{◌≡◌, map};
ghost use Rattle.std.specs.List.{list_any};
ghost use Rattle.std.specs.Option.{option_map, option_copied};
ghost use Rattle.py_check_context.specs.Members as lookups;
ghost use Rattle.py_check_context.specs.Members.{member};
ghost use Rattle.py_check_members.specs.Views.{places_of, deed_of, event_of, events_of, own_of};
ghost use Rattle.py_check_members.specs.Members as spec;

use crate::events::{Deed, Event};
use crate::places::{Places, is_builtin_name};
use py_check_context::{ClassMembers, Member};
use value_core::Name;

/// The members of the classes before a class, and the classes behind it along its order.
#[derive(Clone, Copy)]
pub(crate) struct Behind<'a> {
    pub classes: &'a [ClassMembers],
    pub row: &'a [usize],
}

/// Whether an event at this place declares its name, which has these first places.
pub(crate) fn declares(
    events: &[Event<'_>],
    p: Places,
    behind: Behind<'_>,
    i: usize,
    event: &Event<'_>,
) -> bool
    ensures { result ≡ spec.declares_by (events_of events.now) (places_of p) (spec.above_in (map own_of behind.entry.classes.now) behind.entry.row.now event.now.name.now) i event.now.name.now (deed_of event.now.deed) }
{
    match event.deed {
        Deed::Defines(_) => !is_builtin_name(event.name) && !stands_before(i, p.body),
        Deed::Declares(_) => {
            !stands_before(i, p.body) && !(stands_before(i, p.init) && annotates_at(events, p.init))
        }
        Deed::Annotates(_) => {
            !stands_before(i, p.body) && !stands_before(i, p.init) && !defines_at(events, p.body)
        }
        Deed::Gives(_) => {
            p.body.is_none()
                && !annotates_at(events, p.init)
                && !stands_before(i, p.gift)
                && !has_attribute(behind, event.name)
        }
        Deed::Sets => false,
    }
}

/// Whether an event at this place sets an unknown attribute, first of all.
pub(crate) fn is_unknown(p: Places, behind: Behind<'_>, i: usize, event: &Event<'_>) -> bool
    ensures { result ≡ spec.is_unknown_by (places_of p) (spec.above_in (map own_of behind.entry.classes.now) behind.entry.row.now event.now.name.now) i (deed_of event.now.deed) }
{
    match event.deed {
        Deed::Sets => {
            p.body.is_none()
                && p.gift.is_none()
                && !stands_before(i, p.init)
                && !has_member(behind, event.name)
        }
        _ => false,
    }
}

fn stands_before(i: usize, place: Option<usize>) -> bool
    ensures { result ≡ spec.stands_before i place }
{
    match place {
        Some(place) => place < i,
        None => false,
    }
}

fn annotates_at(events: &[Event<'_>], place: Option<usize>) -> bool
    ensures { result ≡ spec.is_annotation (spec.deed_at (events_of events.now) place) }
{
    match event_at(events, place) {
        Some(event) => matches!(event.deed, Deed::Annotates(_)),
        None => false,
    }
}

fn defines_at(events: &[Event<'_>], place: Option<usize>) -> bool
    ensures { result ≡ spec.is_definition (spec.deed_at (events_of events.now) place) }
{
    match event_at(events, place) {
        Some(event) => matches!(event.deed, Deed::Defines(_)),
        None => false,
    }
}

fn event_at<'a>(events: &'a [Event<'a>], place: Option<usize>) -> Option<&'a Event<'a>>
    ensures { option_map (λ v. deed_of v.deed) (option_copied result) ≡ spec.deed_at (events_of events.now) place }
{
    match place {
        Some(place) => events.get(place),
        None => None,
    }
}

/// Whether a class behind has an attribute of the name.
#[tactic(auto, using(crate::proofs::OrderLemmas::own_found))]
fn has_attribute(behind: Behind<'_>, name: &Name) -> bool
    ensures { result ≡ list_any (λ b. spec.is_attribute (spec.own_member (map own_of behind.entry.classes.now) name.now b)) behind.entry.row.now }
{
    for class in behind.row {
        if is_attribute(own_member(behind.classes, *class, name)) {
            return true;
        }
    }
    false
}

/// Whether a class behind has a member of the name.
#[tactic(auto, using(crate::proofs::OrderLemmas::own_found))]
fn has_member(behind: Behind<'_>, name: &Name) -> bool
    ensures { result ≡ list_any (λ b. spec.is_declared (spec.own_member (map own_of behind.entry.classes.now) name.now b)) behind.entry.row.now }
{
    for class in behind.row {
        if is_declared(own_member(behind.classes, *class, name)) {
            return true;
        }
    }
    false
}

/// What the class of a number has of its own under a name.
fn own_member<'a>(classes: &'a [ClassMembers], c: usize, name: &Name) -> Option<&'a Member>
    ensures { option_map member (option_copied result) ≡ lookups.own_of (lookups.own_member name.now) classes.now c }
{
    classes.get(c)?.own.get(name)
}

fn is_attribute(found: Option<&Member>) -> bool
    ensures { result ≡ spec.is_attribute (option_map member (option_copied found.entry)) }
{
    match found {
        Some(Member::Attribute(_)) => true,
        Some(Member::Untyped) => true,
        Some(Member::Unknown(_)) => false,
        Some(Member::Method(_)) => false,
        None => false,
    }
}

fn is_declared(found: Option<&Member>) -> bool
    ensures { result ≡ spec.is_declared (option_map member (option_copied found.entry)) }
{
    match found {
        Some(Member::Attribute(_)) => true,
        Some(Member::Untyped) => true,
        Some(Member::Unknown(_)) => false,
        Some(Member::Method(_)) => true,
        None => false,
    }
}
