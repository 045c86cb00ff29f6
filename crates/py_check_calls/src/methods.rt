//! What a value has under a name, and calls of the methods of lists.
ghost use Rattle.std.specs.Prelude.{◌≡◌, map, IfOk};
ghost use Rattle.std.specs.Option.{option_copied, option_map};
ghost use Rattle.py_typed.specs.Sorts.{sort};
ghost use Rattle.py_typed.specs.Expressions.{typed_expr};
ghost use Rattle.py_check_context.specs.Members as members;
ghost use Rattle.py_check_context.specs.Context.{context, wanted, row};
ghost use Rattle.py_check_messages.specs.Seen.{Tells, ruled};
ghost use Rattle.py_check_coercions.specs.Boxes.{boxed};
ghost use Rattle.py_check_calls.specs.CalleesSeen.{had_seen};
ghost use Rattle.py_check_calls.specs.Methods as rule_of;

use crate::builtins::{gives_value, the_only};
use crate::sites::CallSite;
use py_check_coercions::{coerced, kept};
use py_check_context::{ClassMembers, Context, Member, Row, member_in, signature_at};
use py_check_messages::{
    gives_nothing, no_attribute, none_has_no_attribute, not_a_value, wrong_argument_type,
    wrong_number,
};
use py_syntax::Span;
use py_syntax_diagnostics::Diag;
use py_typed::{TExpr, TKind, Ty, copy_of, fits};
use std::alloc::Global;
use value_core::{Many, Memory, Name};

/// What a value has under a name.
#[derive(Clone, Copy)]
pub(crate) enum Had<'a> {
    /// An attribute of this type.
    Attribute(&'a Ty),
    /// A method, by the number of its function.
    Method(usize),
    /// `append` of a list with items of this type.
    Append(&'a Ty),
    /// `pop` of such a list.
    Pop(&'a Ty),
    /// An attribute without a type.
    Untyped,
    /// Nothing as it may be None; where it is not, it has this.
    NoneHasNot,
    HasNot,
}

/// What a value of this type has under a name, whether it is read or called.
pub(crate) fn look_up<'a>(classes: &'a [ClassMembers], t: &'a Ty, a: &Name) -> Had<'a>
    ensures { had_seen result ≡ rule_of.look_up (members.member_in classes.now) (sort t.now) a.now }
{
    match t {
        Ty::Class(n) => instance_has(member_in(classes, *n, a)),
        Ty::Optional(t) => some_has(classes, t, a),
        Ty::List(t) => list_has(t, a),
        _ => Had::HasNot,
    }
}

fn instance_has<'a>(member: Option<&'a Member>) -> Had<'a>
    ensures { had_seen result ≡ rule_of.instance_has (option_map members.member (option_copied member.entry)) }
{
    match member {
        None => Had::HasNot,
        Some(Member::Attribute(t)) => Had::Attribute(t),
        Some(Member::Untyped) | Some(Member::Unknown(_)) => Had::Untyped,
        Some(Member::Method(f)) => Had::Method(*f),
    }
}

// A value of this type or None.
fn some_has<'a>(classes: &'a [ClassMembers], t: &Ty, a: &Name) -> Had<'a>
    ensures { had_seen result ≡ rule_of.some_has (members.member_in classes.now) (sort t.now) a.now }
{
    match t {
        Ty::Class(n) => optional_has(member_in(classes, *n, a)),
        _ => Had::HasNot,
    }
}

fn optional_has<'a>(member: Option<&'a Member>) -> Had<'a>
    ensures { had_seen result ≡ rule_of.optional_has (option_map members.member (option_copied member.entry)) }
{
    match member {
        None => Had::HasNot,
        Some(Member::Attribute(_)) | Some(Member::Untyped) | Some(Member::Method(_)) => {
            Had::NoneHasNot
        }
        Some(Member::Unknown(_)) => Had::Untyped,
    }
}

fn list_has<'a>(t: &'a Ty, a: &Name) -> Had<'a>
    ensures { had_seen result ≡ rule_of.list_has (sort t.now) a.now }
{
    if a.as_str() == "append" {
        Had::Append(t)
    } else if a.as_str() == "pop" {
        Had::Pop(t)
    } else {
        Had::HasNot
    }
}

/// `e.a` that is not called (Python Language Reference, "Attribute references").
pub fn attribute(
    alloc: Global,
    scope: &Context<'_>,
    span: Span,
    a: &Name,
    e: Option<Box<TExpr>>,
    faults: &mut Many<Diag>,
) -> Result<Option<Box<TExpr>>, Memory>
    ensures { IfOk result (λ t. Tells boxed t faults.old faults.new (rule_of.attribute (context scope.now) span a.now (option_map boxed e))) }
{
    let Some(e) = e else {
        return Ok(None);
    };
    match look_up(scope.members, &e.ty, a) {
        Had::Attribute(t) => {
            let t = copy_of(alloc, t)?;
            let a = a.clone()?;
            let e = kept(alloc, TKind::Attr(e, a), t, span)?;
            Ok(Some(e))
        }
        Had::Method(_) | Had::Append(_) | Had::Pop(_) => {
            not_a_value(alloc, span, a.as_str(), faults)?;
            Ok(None)
        }
        Had::Untyped => Ok(None),
        Had::NoneHasNot => {
            none_has_no_attribute(alloc, scope.classes, span, &e.ty, a.as_str(), faults)?;
            Ok(None)
        }
        Had::HasNot => {
            no_attribute(alloc, scope.classes, span, &e.ty, a.as_str(), faults)?;
            Ok(None)
        }
    }
}

/// What the arguments of a method are there for, by the type of the value.
pub(crate) fn method_row<'a>(scope: &'a Context<'_>, m: &Name, t: &'a Ty) -> Row<'a>
    ensures { row result ≡ rule_of.method_row (context scope.now) m.now (sort t.now) }
{
    if m.as_str() == "__init__" {
        Row::Along(&[])
    } else {
        had_row(scope, look_up(scope.members, t, m))
    }
}

fn had_row<'a>(scope: &'a Context<'_>, had: Had<'a>) -> Row<'a>
    ensures { row result ≡ rule_of.had_row (context scope.now) (had_seen had.entry) }
{
    match had {
        Had::Method(f) => match signature_at(scope, f) {
            Some(sig) => Row::Along(sig.params.as_slice()),
            None => Row::Along(&[]),
        },
        Had::Append(t) => Row::First(t),
        Had::Attribute(_) | Had::Pop(_) | Had::Untyped | Had::NoneHasNot | Had::HasNot => {
            Row::Along(&[])
        }
    }
}

/// `e.append(x)`.
pub(crate) fn append_call(
    alloc: Global,
    site: CallSite<'_>,
    e: Box<TExpr>,
    t: Ty,
    es: Option<Many<TExpr>>,
    faults: &mut Many<Diag>,
) -> Result<Option<Box<TExpr>>, Memory>
    ensures { IfOk result (λ r. Tells boxed r faults.old faults.new (ruled site.entry.span (rule_of.append_call (context site.entry.scope.now).classes (wanted site.entry.want) site.entry.span (boxed e) (sort t)) (option_map (map typed_expr) es))) }
{
    let Some(es) = es else {
        return Ok(None);
    };
    let Some(x) = the_only(alloc, es)? else {
        wrong_number(alloc, site.span, "append", "1", faults)?;
        return Ok(None);
    };
    if !fits(&x.ty, &t, site.scope.classes) {
        wrong_argument_type(
            alloc,
            site.scope.classes,
            site.span,
            1,
            "append",
            &x.ty,
            &t,
            faults,
        )?;
        return Ok(None);
    }
    if !gives_value(site.want, &Ty::Nothing) {
        gives_nothing(alloc, site.span, "append", faults)?;
        return Ok(None);
    }
    let x = coerced(alloc, x, &t)?;
    let e = kept(alloc, TKind::Append(e, x), Ty::Nothing, site.span)?;
    Ok(Some(e))
}

/// `e.pop()`.
pub(crate) fn pop_call(
    alloc: Global,
    span: Span,
    e: Box<TExpr>,
    t: Ty,
    es: Option<Many<TExpr>>,
    faults: &mut Many<Diag>,
) -> Result<Option<Box<TExpr>>, Memory>
    ensures { IfOk result (λ r. Tells boxed r faults.old faults.new (ruled span (rule_of.pop_call span (boxed e) (sort t)) (option_map (map typed_expr) es))) }
{
    let Some(es) = es else {
        return Ok(None);
    };
    if !es.is_empty() {
        wrong_number(alloc, span, "pop", "0", faults)?;
        return Ok(None);
    }
    let e = kept(alloc, TKind::Pop(e), t, span)?;
    Ok(Some(e))
}
