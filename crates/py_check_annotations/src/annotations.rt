//! The type of an annotation.
ghost use Rattle.std.specs.Prelude.{◌≡◌, ◌++◌, map, IfOk};
ghost use Rattle.std.specs.Option.{option_map};
ghost use Rattle.py_syntax.specs.Expressions.{expr_tree, exprs_of};
ghost use Rattle.py_typed.specs.Sorts.{sort};
ghost use Rattle.py_lexer_words.specs.Words as words;
ghost use Rattle.py_check_context.specs.Context.{context};
ghost use Rattle.py_check_messages.specs.Seen.{Seen, Tells, ruled, made};
ghost use Rattle.py_check_messages.specs.Rows.{kept};
ghost use Rattle.py_check_annotations.specs.Names as names;
ghost use Rattle.py_check_annotations.specs.Annotations as spec;

use crate::look_up::has_unknown;
use crate::names::{Former, applied, former_of, is_untyped, named, or_none, valid};
use py_check_context::{Context, meaning_of};
use py_check_messages::invalid_type;
use py_lexer_words::name_in_quotes;
use py_syntax::{BinOp, Expr, ExprKind, Span};
use py_syntax_diagnostics::Diag;
use py_typed::Ty;
use std::alloc::Global;
use value_core::{Many, Memory, Name, Text};

/// The type of what a function returns, which may be `None`.
pub fn return_annotation(
    alloc: Global,
    scope: &Context<'_>,
    e: &Expr,
    faults: &mut Many<Diag>,
) -> Result<Option<Ty>, Memory>
    ensures { IfOk result (λ t. Tells sort t faults.old faults.new (spec.return_annotation (context scope.now).meaning (expr_tree e.now))) }
{
    if is_none(e) {
        return Ok(Some(Ty::Nothing));
    }
    annotation(alloc, scope, e, faults)
}

/// The type of an annotation, if it has one.
#[cycle(annotation)]
pub fn annotation(
    alloc: Global,
    scope: &Context<'_>,
    e: &Expr,
    faults: &mut Many<Diag>,
) -> Result<Option<Ty>, Memory>
    ensures { IfOk result (λ t. Tells sort t faults.old faults.new (spec.annotation (context scope.now).meaning (expr_tree e.now))) }
{
    if !may_be_type(e) {
        return no_type(alloc, scope, e, faults);
    }
    match &e.kind {
        ExprKind::Name(x) => named(alloc, meaning_of(scope, x), e.span, faults),
        ExprKind::Str(text) => quoted(alloc, scope, text, e.span, faults),
        ExprKind::Bin(op, a, b) => {
            if is_or_none(*op, b) {
                let t = annotation(alloc, scope, a, faults)?;
                or_none(alloc, t)
            } else if is_or_none(*op, a) {
                let t = annotation(alloc, scope, b, faults)?;
                or_none(alloc, t)
            } else {
                no_type(alloc, scope, e, faults)
            }
        }
        ExprKind::Index(head, inside) => match head_of(alloc, scope, head)? {
            Head::Form(former) => {
                let types = parts(alloc, scope, inside, faults)?;
                formed(alloc, former, types, e.span, faults)
            }
            Head::Untyped => Ok(None),
            Head::NoForm => no_type(alloc, scope, e, faults),
        },
        _ => Ok(None),
    }
}

/// The types in brackets: those of the items of a tuple, or that of the one expression.
#[cycle(annotation)]
fn parts(
    alloc: Global,
    scope: &Context<'_>,
    e: &Expr,
    faults: &mut Many<Diag>,
) -> Result<Option<Many<Ty>>, Memory>
    ensures { IfOk result (λ ts. Tells (map sort) ts faults.old faults.new (spec.parts (context scope.now).meaning (expr_tree e.now))) }
{
    if is_tuple(e) {
        return items(alloc, scope, e, faults);
    }
    let t = annotation(alloc, scope, e, faults)?;
    with_type(Some(Many::new(alloc)), t)
}

/// The types of a tuple's items.
#[cycle(annotation)]
fn items(
    alloc: Global,
    scope: &Context<'_>,
    e: &Expr,
    faults: &mut Many<Diag>,
) -> Result<Option<Many<Ty>>, Memory>
    ensures { IfOk result (λ ts. Tells (map sort) ts faults.old faults.new (spec.items (context scope.now).meaning (expr_tree e.now))) }
{
    match &e.kind {
        ExprKind::Tuple(all) => row(alloc, scope, all.as_slice(), faults),
        _ => Ok(Some(Many::new(alloc))),
    }
}

#[cycle(annotation)]
fn row(
    alloc: Global,
    scope: &Context<'_>,
    items: &[Expr],
    faults: &mut Many<Diag>,
) -> Result<Option<Many<Ty>>, Memory>
    ensures { IfOk result (λ ts. Tells (map sort) ts faults.old faults.new (spec.row (context scope.now).meaning (exprs_of (map expr_tree items.now)))) }
{
    let mut types = Some(Many::new(alloc));
    for item in items {
        let t = annotation(alloc, scope, item, faults)?;
        types = with_type(types, t)?;
    }
    Ok(types)
}

/// A row with one more type behind it.
fn with_type(types: Option<Many<Ty>>, t: Option<Ty>) -> Result<Option<Many<Ty>>, Memory>
    ensures { IfOk result (λ r. option_map (map sort) r ≡ kept (option_map (map sort) types) (option_map sort t)) }
{
    let Some(mut types) = types else {
        return Ok(None);
    };
    let Some(t) = t else {
        return Ok(None);
    };
    types.push(t)?;
    Ok(Some(types))
}

/// A form of types with what stands in its brackets.
fn formed(
    alloc: Global,
    former: Former,
    types: Option<Many<Ty>>,
    span: Span,
    faults: &mut Many<Diag>,
) -> Result<Option<Ty>, Memory>
    ensures { IfOk result (λ t. Tells sort t faults.old faults.new (ruled span (spec.application former) (option_map (map sort) types))) }
{
    let Some(types) = types else {
        return Ok(None);
    };
    let t = applied(alloc, former, types)?;
    valid(alloc, t, span, faults)
}

/// A text in quotes.
fn quoted(
    alloc: Global,
    scope: &Context<'_>,
    text: &Text,
    span: Span,
    faults: &mut Many<Diag>,
) -> Result<Option<Ty>, Memory>
    ensures { IfOk result (λ t. Tells sort t faults.old faults.new (spec.quoted (context scope.now).meaning (words.name_in_quotes text.now) span)) }
{
    match name_in_quotes(alloc, text)? {
        Some(x) => named(alloc, meaning_of(scope, &x), span, faults),
        None => {
            invalid_type(alloc, span, faults)?;
            Ok(None)
        }
    }
}

/// What can be no type.
fn no_type(
    alloc: Global,
    scope: &Context<'_>,
    e: &Expr,
    faults: &mut Many<Diag>,
) -> Result<Option<Ty>, Memory>
    ensures { IfOk result (λ t. Tells sort t faults.old faults.new (spec.no_type (context scope.now).meaning (expr_tree e.now) e.now.span)) }
{
    if !has_unknown(alloc, scope, e)? {
        invalid_type(alloc, e.span, faults)?;
    }
    Ok(None)
}

/// What stands in front of brackets: a form of types, a name without a type, or neither.
#[derive(Clone, Copy)]
pub(crate) enum Head {
    Form(Former),
    Untyped,
    NoForm,
}

fn head_of(alloc: Global, scope: &Context<'_>, e: &Expr) -> Result<Head, Memory>
    ensures { IfOk result (λ head. head ≡ spec.head_named (context scope.now).meaning (spec.name_of (expr_tree e.now))) }
{
    match &e.kind {
        ExprKind::Name(x) => Ok(head_named(scope, x)),
        ExprKind::Str(text) => match name_in_quotes(alloc, text)? {
            Some(x) => Ok(head_named(scope, &x)),
            None => Ok(Head::NoForm),
        },
        _ => Ok(Head::NoForm),
    }
}

fn head_named(scope: &Context<'_>, x: &Name) -> Head
    ensures { result ≡ spec.head_named (context scope.now).meaning (Some x.now) }
{
    let meaning = meaning_of(scope, x);
    if let Some(former) = former_of(meaning) {
        return Head::Form(former);
    }
    if is_untyped(meaning) {
        Head::Untyped
    } else {
        Head::NoForm
    }
}

/// Whether an expression may be a type: a name, a text in quotes, one beside a `|`, or one with brackets.
fn may_be_type(e: &Expr) -> bool
    ensures { result ≡ spec.may_be_type (expr_tree e.now) }
{
    match e.kind {
        ExprKind::Name(_) => true,
        ExprKind::Str(_) => true,
        ExprKind::Bin(_, _, _) => true,
        ExprKind::Index(_, _) => true,
        _ => false,
    }
}

fn is_tuple(e: &Expr) -> bool
    ensures { result ≡ spec.is_tuple (expr_tree e.now) }
{
    matches!(e.kind, ExprKind::Tuple(_))
}

/// Whether an expression is the literal `None`.
fn is_none(e: &Expr) -> bool
    ensures { result ≡ spec.is_none (expr_tree e.now) }
{
    matches!(e.kind, ExprKind::Nothing)
}

/// Whether an operand is `None` beside a `|`.
fn is_or_none(op: BinOp, e: &Expr) -> bool
    ensures { result ≡ spec.is_or_none op (expr_tree e.now) }
{
    op == BinOp::Bar && is_none(e)
}
