//! The members that a class has of its own.
ghost use Rattle.std.specs.Prelude.{◌≡◌, ℕ, List, ◌∷◌, [], map, IfOk, OnOk};
ghost use Rattle.std.specs.Option.{option_map, option_copied};
ghost use Rattle.std.specs.Str.{bytes_eq};
ghost use Rattle.indexmap.specs.IndexMap.{get};
ghost use Rattle.py_syntax.specs.Expressions.{expr_tree};
ghost use Rattle.py_syntax.specs.Statements.{maybe_expr};
ghost use Rattle.py_typed.specs.Sorts.{sort};
ghost use Rattle.py_check_context.specs.Context.{context};
ghost use Rattle.py_check_context.specs.Members.{member};
ghost use Rattle.py_check_annotations.specs.Annotations.{annotation};
ghost use Rattle.py_check_members.specs.Views.{places_of, source_of, deed_of, event_of, events_of, entries_of, own_of};
ghost use Rattle.py_check_members.specs.Tables as tables;
ghost use Rattle.py_check_members.specs.Members as spec;

use crate::declarations::{Behind, declares, is_unknown};
use crate::events::{Deed, Event, Source};
use crate::places::{Places, first_places, places_at};
use indexmap::IndexMap;
use py_check_annotations::annotation;
use py_check_context::{Context, Member};
use py_syntax::Expr;
use py_typed::Ty;
use std::alloc::Global;
use value_core::{Many, Memory, Name};

/// What names mean where the class stands, and in its `__init__`; and the number of the class, which has a type.
#[derive(Clone, Copy)]
pub(crate) struct Surroundings<'a> {
    pub outer: &'a Context<'a>,
    pub inner: &'a Context<'a>,
    pub class: usize,
}

/// The events of a class, with the first places of names among them, and what stands behind the class.
#[derive(Clone, Copy)]
struct ClassText<'a> {
    events: &'a [Event<'a>],
    places: &'a IndexMap<Name, Places>,
    behind: Behind<'a>,
}

/// The members of a class with these events, in the order of the text.
pub(crate) fn members_among<'a>(
    alloc: Global,
    around: Surroundings<'a>,
    events: &'a [Event<'a>],
    behind: Behind<'a>,
) -> Result<IndexMap<Name, Member>, Memory>
    ensures { IfOk result (λ own. entries_of own ≡ spec.each_once (spec.made_from (context around.entry.outer.now).meaning (context around.entry.inner.now).meaning around.entry.class (spec.above_in (map own_of behind.entry.classes.now) behind.entry.row.now) (events_of events.now) 0 (events_of events.now))) }
{
    let places = first_places(alloc, events)?;
    let mut own = IndexMap::new(alloc);
    let text = ClassText {
        events,
        places: &places,
        behind,
    };
    add_members(alloc, around, text, &mut own)?;
    Ok(own)
}

fn add_members(
    alloc: Global,
    around: Surroundings<'_>,
    text: ClassText<'_>,
    own: &mut IndexMap<Name, Member>,
) -> Result<(), Memory>
    requires { tables.AreFirst (events_of text.events.now) (tables.places_by text.places.now) }
    ensures { IfOk result (λ done. entries_of own.new ≡ spec.with_new (entries_of own.old) (spec.made_from (context around.entry.outer.now).meaning (context around.entry.inner.now).meaning around.entry.class (spec.above_in (map own_of text.entry.behind.classes.now) text.entry.behind.row.now) (events_of text.entry.events.now) 0 (events_of text.entry.events.now))) }
{
    for (i, event) in text.events.iter().enumerate() {
        add_member(alloc, around, text, own, i, event)?;
    }
    Ok(())
}

/// Adds what an event makes, where its name has no member yet.
fn add_member(
    alloc: Global,
    around: Surroundings<'_>,
    text: ClassText<'_>,
    own: &mut IndexMap<Name, Member>,
    i: usize,
    event: &Event<'_>,
) -> Result<(), Memory>
    ensures { IfOk result (λ done. entries_of own.new ≡ spec.with_new (entries_of own.old) (spec.made_by (context around.entry.outer.now).meaning (context around.entry.inner.now).meaning around.entry.class (spec.above_in (map own_of text.entry.behind.classes.now) text.entry.behind.row.now) (events_of text.entry.events.now) (tables.places_by text.entry.places.now event.now.name.now) (spec.above_in (map own_of text.entry.behind.classes.now) text.entry.behind.row.now event.now.name.now) i (event_of event.now))) }
{
    let places = places_at(text.places, event.name);
    if declares(text.events, places, text.behind, i, event) {
        let member = member_by(alloc, around, event.deed)?;
        return add_new(own, event.name, member);
    }
    if is_unknown(places, text.behind, i, event) {
        return add_new(own, event.name, Member::Unknown(event.place));
    }
    Ok(())
}

/// Adds a member, where there is none of its name.
fn add_new(own: &mut IndexMap<Name, Member>, name: &Name, made: Member) -> Result<(), Memory>
    ensures { IfOk result (λ done. entries_of own.new ≡ spec.with_new (entries_of own.old) ((name.now, member made) ∷ [])) }
{
    if own.contains_key(name) {
        drop(made);
        return Ok(());
    }
    own.insert(name.clone()?, made)?;
    Ok(())
}

fn member_by(alloc: Global, around: Surroundings<'_>, deed: Deed<'_>) -> Result<Member, Memory>
    ensures { IfOk result (λ made. member made ≡ spec.member_by (context around.entry.outer.now).meaning (context around.entry.inner.now).meaning around.entry.class (deed_of deed.entry)) }
{
    match deed {
        Deed::Defines(f) => Ok(Member::Method(f)),
        Deed::Declares(mark) => {
            let t = type_of(alloc, around.outer, mark)?;
            Ok(attribute_of(t))
        }
        Deed::Annotates(mark) => {
            let t = type_of(alloc, around.inner, mark)?;
            Ok(attribute_of(t))
        }
        Deed::Gives(source) => {
            let t = source_type(alloc, around, source)?;
            Ok(attribute_of(t))
        }
        Deed::Sets => Ok(Member::Untyped),
    }
}

fn attribute_of(t: Option<Ty>) -> Member
    ensures { member result ≡ spec.attribute_of (option_map sort t) }
{
    match t {
        Some(t) => Member::Attribute(t),
        None => Member::Untyped,
    }
}

/// The type of an annotation, where the walk says what is wrong with it.
pub(crate) fn type_of(alloc: Global, scope: &Context<'_>, mark: &Expr) -> Result<Option<Ty>, Memory>
    ensures { IfOk result (λ t. option_map sort t ≡ (annotation (context scope.now).meaning (expr_tree mark.now)).got) }
{
    let mut said = Many::new(alloc);
    annotation(alloc, scope, mark, &mut said)
}

fn source_type(
    alloc: Global,
    around: Surroundings<'_>,
    source: Source<'_>,
) -> Result<Option<Ty>, Memory>
    ensures { IfOk result (λ t. option_map sort t ≡ spec.source_sort (context around.entry.outer.now).meaning (context around.entry.inner.now).meaning around.entry.class (source_of source.entry)) }
{
    match source {
        Source::Itself => Ok(Some(Ty::Class(around.class))),
        Source::Annotated(mark) => marked_type(alloc, around.outer, mark),
        Source::Int => Ok(Some(Ty::Int)),
        Source::Str => Ok(Some(Ty::Str)),
        Source::Bool => Ok(Some(Ty::Bool)),
    }
}

fn marked_type(
    alloc: Global,
    scope: &Context<'_>,
    mark: &Option<Expr>,
) -> Result<Option<Ty>, Memory>
    ensures { IfOk result (λ t. option_map sort t ≡ spec.marked_sort (context scope.now).meaning (maybe_expr mark.now)) }
{
    match mark {
        Some(mark) => type_of(alloc, scope, mark),
        None => Ok(None),
    }
}
