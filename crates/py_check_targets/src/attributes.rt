//! Attributes of the object that an `__init__` sets up.
ghost use Rattle.std.specs.Prelude.{◌≡◌, if◌then◌else◌, Some, None, IfOk};
ghost use Rattle.std.specs.Option.{option_and_then, option_copied, option_map};
ghost use Rattle.py_syntax.specs.Expressions.{expr_tree};
ghost use Rattle.py_check_context.specs.Context.{context};
ghost use Rattle.py_check_context.specs.Members as members;
ghost use Rattle.py_check_flow.specs.Bindings as bindings;
ghost use Rattle.py_check_messages.specs.Seen.{Finds};
ghost use Rattle.py_check_targets.specs.Attributes as rule_of;
ghost use Rattle.py_check_targets.specs.Views.{own_seen};

use py_check_context::{Context, Inside, Member, member_in};
use py_check_flow::name_in;
use py_check_messages::already_defined;
use py_syntax::{Expr, ExprKind, Span};
use py_syntax_diagnostics::Diag;
use std::alloc::Global;
use value_core::{Many, Memory, Name};

/// An attribute of the object that an `__init__` sets up: the expression for the object, and the attribute's name.
#[derive(Clone, Copy)]
pub struct OwnAttribute<'a> {
    pub object: &'a Expr,
    pub name: &'a Name,
}

/// The attribute of that object that an expression is, if it is one.
pub fn own_attribute<'a>(scope: &Context<'_>, e: &'a Expr) -> Option<OwnAttribute<'a>>
    ensures { option_map own_seen result ≡ rule_of.own_attribute (context scope.now).inside (expr_tree e.now) }
{
    match &e.kind {
        ExprKind::Attr(object, name) => attribute_of(scope, object, name),
        _ => None,
    }
}

fn attribute_of<'a>(
    scope: &Context<'_>,
    object: &'a Expr,
    name: &'a Name,
) -> Option<OwnAttribute<'a>>
    ensures { option_map own_seen result ≡ (if rule_of.is_set_up (context scope.now).inside (bindings.name_in (expr_tree object.now)) then Some (expr_tree object.now, name.now) else None) }
{
    if is_set_up(scope, name_in(object)) {
        Some(OwnAttribute { object, name })
    } else {
        None
    }
}

fn is_set_up(scope: &Context<'_>, x: Option<&Name>) -> bool
    ensures { result ≡ rule_of.is_set_up (context scope.now).inside (option_copied x.entry) }
{
    match x {
        Some(x) => sets_up(&scope.inside, x),
        None => false,
    }
}

// Whether a method is an `__init__` and has this name for its object.
fn sets_up(inside: &Option<Inside<'_>>, x: &Name) -> bool
    ensures { result ≡ rule_of.sets_up (option_map members.inside inside.now) x.now }
{
    match inside {
        Some(method) => method.is_init && is_name(method.first, x),
        None => false,
    }
}

fn is_name(first: Option<&Name>, x: &Name) -> bool
    ensures { result ≡ rule_of.is_name (option_copied first.entry) x.now }
{
    match first {
        Some(first) => *first == *x,
        None => false,
    }
}

/// The attribute that nothing declares and this target sets first, if it is one.
pub fn lacking_in<'a>(scope: &Context<'_>, e: &'a Expr) -> Option<OwnAttribute<'a>>
    ensures { option_map own_seen result ≡ rule_of.lacking_in (context scope.now) (expr_tree e.now) }
{
    let own = own_attribute(scope, e)?;
    if is_set_first(scope, own.name, e.span) {
        Some(own)
    } else {
        None
    }
}

// Whether nothing declares an attribute, and the target at this place sets it first.
fn is_set_first(scope: &Context<'_>, a: &Name, span: Span) -> bool
    ensures { result ≡ rule_of.is_set_first (option_and_then (λ n. (context scope.now).member n a.now) (rule_of.class_inside (context scope.now).inside)) span }
{
    match class_inside(&scope.inside) {
        Some(class) => is_unknown(member_in(scope.members, class, a), span),
        None => false,
    }
}

fn class_inside(inside: &Option<Inside<'_>>) -> Option<usize>
    ensures { result ≡ rule_of.class_inside (option_map members.inside inside.now) }
{
    match inside {
        Some(method) => method.class,
        None => None,
    }
}

fn is_unknown(member: Option<&Member>, span: Span) -> bool
    ensures { result ≡ rule_of.is_set_first (option_map members.member (option_copied member.entry)) span }
{
    match member {
        Some(Member::Unknown(place)) => is_same(*place, span),
        _ => false,
    }
}

fn is_same(a: Span, b: Span) -> bool
    ensures { result ≡ rule_of.same_span a b }
{
    a.line == b.line && a.col == b.col
}

/// Whether the statement at this place may annotate an attribute of the object; what is wrong is said.
pub fn may_declare(
    alloc: Global,
    scope: &Context<'_>,
    span: Span,
    a: &Name,
    faults: &mut Many<Diag>,
) -> Result<bool, Memory>
    ensures { IfOk result (λ right. Finds right faults.old faults.new span (rule_of.declaring_fault (context scope.now).inside a.now span)) }
{
    if declares_at(&scope.inside, a, span) {
        return Ok(true);
    }
    already_defined(alloc, span, a.as_str(), faults)?;
    Ok(false)
}

fn declares_at(inside: &Option<Inside<'_>>, a: &Name, span: Span) -> bool
    ensures { result ≡ rule_of.declares_at (option_map members.inside inside.now) a.now span }
{
    match inside {
        Some(method) => is_span(method.declaring.get(a), span),
        None => false,
    }
}

fn is_span(place: Option<&Span>, span: Span) -> bool
    ensures { result ≡ rule_of.is_span (option_copied place.entry) span }
{
    match place {
        Some(place) => is_same(*place, span),
        None => false,
    }
}
