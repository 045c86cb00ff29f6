//! What is said of the body of a class.
ghost use Rattle.std.specs.Prelude.{◌≡◌, ◌++◌, ◌∷◌, [], IfOk};
ghost use Rattle.py_syntax.specs.Expressions.{expr_tree};
ghost use Rattle.py_syntax.specs.Statements.{stmt_tree, body_tree};
ghost use Rattle.py_check_context.specs.Context.{context};
ghost use Rattle.py_check_members.specs.Views.{events_of, event_of, deed_of, places_of};
ghost use Rattle.py_check_members.specs.Bodies as spec;
ghost use Rattle.py_check_members.specs.Members as members;
ghost use Rattle.py_check_members.specs.Tables as tables;

use crate::declarations::{Behind, declares};
use crate::events::{Deed, Event, class_events};
use crate::own::type_of;
use crate::places::{Places, first_places, places_at};
use indexmap::IndexMap;
use py_check_context::Context;
use py_check_flow::name_in;
use py_check_messages::{already_defined, outside_class_body};
use py_syntax::{Expr, ExprKind, Stmt, StmtKind};
use py_syntax_diagnostics::Diag;
use std::alloc::Global;
use value_core::{Many, Memory, Name};

/// Adds what is said of the statements of the body of a class, but for what its defs and its annotations say themselves.
pub fn add_body_said(
    alloc: Global,
    scope: &Context<'_>,
    body: &[Stmt],
    faults: &mut Many<Diag>,
) -> Result<(), Memory>
    ensures { IfOk result (λ done. faults.new ≡ faults.old ++ spec.body_said (context scope.now).meaning (body_tree body.now)) }
{
    let _many = body.len();
    add_outside(alloc, body, faults)?;
    let events = class_events(alloc, 0, body)?;
    add_refused(alloc, scope, events.as_slice(), faults)
}

/// Adds what is said of statements that may not stand there.
fn add_outside(alloc: Global, body: &[Stmt], faults: &mut Many<Diag>) -> Result<(), Memory>
    ensures { IfOk result (λ done. faults.new ≡ faults.old ++ spec.all_outside_said (body_tree body.now)) }
{
    for s in body {
        if !may_stand(s) {
            outside_class_body(alloc, s.span, faults)?;
        }
    }
    Ok(())
}

fn may_stand(s: &Stmt) -> bool
    ensures { result ≡ spec.may_stand (stmt_tree s.now) }
{
    match &s.kind {
        StmtKind::Def(_) => true,
        StmtKind::Annot(target, _, None) => name_in(target).is_some(),
        StmtKind::Pass => true,
        StmtKind::Expr(e) => is_text(e),
        _ => false,
    }
}

fn is_text(e: &Expr) -> bool
    ensures { result ≡ spec.is_text (expr_tree e.now) }
{
    matches!(e.kind, ExprKind::Str(_))
}

/// Adds what is said of declarations that declare nothing.
fn add_refused(
    alloc: Global,
    scope: &Context<'_>,
    events: &[Event<'_>],
    faults: &mut Many<Diag>,
) -> Result<(), Memory>
    ensures { IfOk result (λ done. faults.new ≡ faults.old ++ spec.refused_from (context scope.now).meaning (events_of events.now) 0 (events_of events.now)) }
{
    let places = first_places(alloc, events)?;
    add_all_refused(alloc, scope, events, &places, faults)
}

fn add_all_refused(
    alloc: Global,
    scope: &Context<'_>,
    events: &[Event<'_>],
    places: &IndexMap<Name, Places>,
    faults: &mut Many<Diag>,
) -> Result<(), Memory>
    requires { tables.AreFirst (events_of events.now) (tables.places_by places.now) }
    ensures { IfOk result (λ done. faults.new ≡ faults.old ++ spec.refused_from (context scope.now).meaning (events_of events.now) 0 (events_of events.now)) }
{
    for (i, event) in events.iter().enumerate() {
        let declares = is_declaration(events, places, i, event);
        add_unless(alloc, scope, declares, event, faults)?;
    }
    Ok(())
}

/// Adds what is said of an event that declares its name or not.
fn add_unless(
    alloc: Global,
    scope: &Context<'_>,
    declares: bool,
    event: &Event<'_>,
    faults: &mut Many<Diag>,
) -> Result<(), Memory>
    ensures { IfOk result (λ done. faults.new ≡ faults.old ++ spec.said_unless (context scope.now).meaning declares (event_of event.now)) }
{
    if declares {
        return Ok(());
    }
    add_repeated(alloc, scope, event, faults)
}

/// Whether an event declares its name, but for what hangs on the classes above.
pub(crate) fn is_declaration(
    events: &[Event<'_>],
    places: &IndexMap<Name, Places>,
    i: usize,
    event: &Event<'_>,
) -> bool
    requires { tables.AreFirst (events_of events.now) (tables.places_by places.now) }
    ensures { result ≡ members.is_declaration (events_of events.now) i (event_of event.now) }
{
    let nothing = Behind {
        classes: &[],
        row: &[],
    };
    declares(events, places_at(places, event.name), nothing, i, event)
}

fn add_repeated(
    alloc: Global,
    scope: &Context<'_>,
    event: &Event<'_>,
    faults: &mut Many<Diag>,
) -> Result<(), Memory>
    ensures { IfOk result (λ done. faults.new ≡ faults.old ++ spec.refused_by (context scope.now).meaning (event_of event.now) (deed_of event.now.deed)) }
{
    let Deed::Declares(mark) = event.deed else {
        return Ok(());
    };
    let t = type_of(alloc, scope, mark)?;
    if t.is_none() {
        return Ok(());
    }
    already_defined(alloc, event.place, event.name.as_str(), faults)
}
