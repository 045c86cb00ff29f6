//! Calls of builtins.
ghost use Rattle.std.specs.Prelude.{◌≡◌, map, IfOk, Some};
ghost use Rattle.std.specs.Option.{option_map};
ghost use Rattle.py_typed.specs.Sorts.{sort};
ghost use Rattle.py_typed.specs.Expressions.{typed_expr};
ghost use Rattle.py_typed.specs.WellTypedExpr as typing;
ghost use Rattle.py_check_context.specs.Context.{context, wanted};
ghost use Rattle.py_check_messages.specs.Seen.{Tells, judged, ruled};
ghost use Rattle.py_check_coercions.specs.Boxes.{boxed};
ghost use Rattle.py_check_calls.specs.Builtins as rule_of;

use crate::callees::Single;
use crate::sites::CallSite;
use py_check_coercions::{coerced, kept};
use py_check_context::Want;
use py_check_messages::{gives_nothing, wrong_argument, wrong_number};
use py_syntax::Span;
use py_syntax_diagnostics::Diag;
use py_typed::{TExpr, TKind, Ty, is_nothing, is_number};
use std::alloc::Global;
use value_core::{Many, Memory};

/// Whether a call of this type may stand where it does.
pub(crate) fn gives_value(want: Want<'_>, t: &Ty) -> bool
    ensures { result ≡ rule_of.gives_value (wanted want.entry) (sort t.now) }
{
    matches!(want, Want::Dropped) || !is_nothing(t)
}

/// `print(..)`.
pub(crate) fn print_call(
    alloc: Global,
    site: CallSite<'_>,
    es: Option<Many<TExpr>>,
    faults: &mut Many<Diag>,
) -> Result<Option<Box<TExpr>>, Memory>
    ensures { IfOk result (λ t. Tells boxed t faults.old faults.new (ruled site.entry.span (rule_of.print_call (context site.entry.scope.now).classes (wanted site.entry.want) site.entry.span) (option_map (map typed_expr) es))) }
{
    let Some(es) = es else {
        return Ok(None);
    };
    if let Some((i, s)) = unprintable(es.as_slice()) {
        wrong_argument(
            alloc,
            site.scope.classes,
            site.span,
            i,
            "print",
            s,
            "printable",
            faults,
        )?;
        return Ok(None);
    }
    if !gives_value(site.want, &Ty::Nothing) {
        gives_nothing(alloc, site.span, "print", faults)?;
        return Ok(None);
    }
    let e = kept(alloc, TKind::Print(es), Ty::Nothing, site.span)?;
    Ok(Some(e))
}

// The first value that is not printable, with its number from 1.
fn unprintable(es: &[TExpr]) -> Option<(usize, &Ty)>
    ensures { option_map (λ p. (p.0, sort p.1.now)) result ≡ rule_of.unprintable 1 (map typed_expr es.now) }
{
    for (i, e) in es.iter().enumerate() {
        if !is_printable(&e.ty) {
            return Some((i + 1, &e.ty));
        }
    }
    None
}

fn is_printable(t: &Ty) -> bool
    ensures { result ≡ typing.is_printable (sort t.now) }
{
    matches!(t, Ty::Str) || is_number(t) || is_exception(t)
}

fn is_exception(t: &Ty) -> bool
    ensures { result ≡ typing.is_exception (sort t.now) }
{
    matches!(t, Ty::Exc(_))
}

fn is_sized(t: &Ty) -> bool
    ensures { result ≡ typing.is_sized (sort t.now) }
{
    matches!(t, Ty::Str | Ty::List(_) | Ty::Dict(_, _) | Ty::Tuple(_))
}

/// `input()`.
pub(crate) fn input_call(
    alloc: Global,
    span: Span,
    es: Option<Many<TExpr>>,
    faults: &mut Many<Diag>,
) -> Result<Option<Box<TExpr>>, Memory>
    ensures { IfOk result (λ t. Tells boxed t faults.old faults.new (ruled span (rule_of.input_call span) (option_map (map typed_expr) es))) }
{
    let Some(es) = es else {
        return Ok(None);
    };
    if !es.is_empty() {
        wrong_number(alloc, span, "input", "0", faults)?;
        return Ok(None);
    }
    let e = kept(alloc, TKind::Input, Ty::Str, span)?;
    Ok(Some(e))
}

/// A call of a builtin that takes one value.
pub(crate) fn single_call(
    alloc: Global,
    site: CallSite<'_>,
    f: Single,
    es: Option<Many<TExpr>>,
    faults: &mut Many<Diag>,
) -> Result<Option<Box<TExpr>>, Memory>
    ensures { IfOk result (λ t. Tells boxed t faults.old faults.new (ruled site.entry.span (rule_of.single_call (context site.entry.scope.now).classes f site.entry.span) (option_map (map typed_expr) es))) }
{
    let Some(es) = es else {
        return Ok(None);
    };
    let Some(e) = the_only(alloc, es)? else {
        wrong_number(alloc, site.span, single_name(f), "1", faults)?;
        return Ok(None);
    };
    single_given(alloc, site, f, e, faults)
}

// The same with its value.
fn single_given(
    alloc: Global,
    site: CallSite<'_>,
    f: Single,
    e: Box<TExpr>,
    faults: &mut Many<Diag>,
) -> Result<Option<Box<TExpr>>, Memory>
    ensures { IfOk result (λ t. Tells boxed t faults.old faults.new (judged site.entry.span (rule_of.single_given (context site.entry.scope.now).classes f site.entry.span (Some (boxed e))))) }
{
    if !single_takes(f, &e.ty) {
        wrong_argument(
            alloc,
            site.scope.classes,
            site.span,
            1,
            single_name(f),
            &e.ty,
            single_asks(f),
            faults,
        )?;
        return Ok(None);
    }
    let e = single_made(alloc, site.span, f, e)?;
    Ok(Some(e))
}

/// The element of a list of one.
#[tactic(auto, using(crate::proofs::CallLemmas::only_one))]
pub(crate) fn the_only(alloc: Global, es: Many<TExpr>) -> Result<Option<Box<TExpr>>, Memory>
    ensures { IfOk result (λ e. option_map boxed e ≡ rule_of.the_only (map typed_expr es)) }
{
    let mut es = es;
    if es.len() != 1 {
        return Ok(None);
    }
    let Some(e) = es.pop() else {
        return Ok(None);
    };
    Ok(Some(Box::new(alloc, e)?))
}

fn single_name(f: Single) -> &'static str
    ensures { result.now ≡ rule_of.single_name f }
{
    match f {
        Single::Len => "len",
        Single::Str => "str",
        Single::Int => "int",
        Single::I64 => "i64",
    }
}

fn single_takes(f: Single, t: &Ty) -> bool
    ensures { result ≡ rule_of.single_takes f (sort t.now) }
{
    match f {
        Single::Len => is_sized(t),
        Single::Str => is_printable(t),
        Single::Int => is_number(t),
        Single::I64 => is_number(t),
    }
}

fn single_asks(f: Single) -> &'static str
    ensures { result.now ≡ rule_of.single_asks f }
{
    match f {
        Single::Len => "sized",
        Single::Str => "printable",
        Single::Int => "number",
        Single::I64 => "number",
    }
}

fn single_made(alloc: Global, span: Span, f: Single, e: Box<TExpr>) -> Result<Box<TExpr>, Memory>
    ensures { IfOk result (λ r. boxed r ≡ rule_of.single_made f span (boxed e)) }
{
    match f {
        Single::Len => kept(alloc, TKind::Len(e), Ty::Int, span),
        Single::Str => kept(alloc, TKind::ToStr(e), Ty::Str, span),
        Single::Int => coerced(alloc, e, &Ty::Int),
        Single::I64 => coerced(alloc, e, &Ty::I64),
    }
}
