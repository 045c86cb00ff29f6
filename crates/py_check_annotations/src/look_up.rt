//! Whether a name in what is no type is not known.
ghost use Rattle.std.specs.Prelude.{◌≡◌, ◌||◌, map, IfOk};
ghost use Rattle.py_syntax.specs.Expressions.{expr_tree, exprs_of, arg_tree, arguments_of};
ghost use Rattle.py_binder.specs.Sights.{Reads, exprs_reads, arguments_reads, text_reads};
ghost use Rattle.py_binder.specs.declared.sight.Manner.TheVariants.{Annotation};
ghost use Rattle.py_check_context.specs.Context.{context};
ghost use Rattle.py_check_annotations.specs.Names as spec;

use crate::names::is_unknown;
use py_check_context::{Context, meaning_of};
use py_lexer_words::name_in_quotes;
use py_syntax::{Arg, Expr, ExprKind, Span};
use std::alloc::Global;
use value_core::{Memory, Name, Text};

/// Whether a name in an annotation is not known.
pub(crate) fn has_unknown(alloc: Global, scope: &Context<'_>, e: &Expr) -> Result<bool, Memory>
    ensures { IfOk result (λ b. b ≡ spec.has_unknown (context scope.now).meaning (expr_tree e.now)) }
{
    let mut found = false;
    look_up(alloc, scope, e, &mut found)?;
    Ok(found)
}

/// Keeps in mind that a name in an annotation is not known.
#[cycle(look_up)]
fn look_up(alloc: Global, scope: &Context<'_>, e: &Expr, found: &mut bool) -> Result<(), Memory>
    ensures { IfOk result (λ done. found.new ≡ (found.old || spec.has_unknown (context scope.now).meaning (expr_tree e.now))) }
{
    match &e.kind {
        ExprKind::Int(_) => Ok(()),
        ExprKind::Str(text) => look_up_text(alloc, scope, text, e.span, found),
        ExprKind::True => Ok(()),
        ExprKind::False => Ok(()),
        ExprKind::Nothing => Ok(()),
        ExprKind::Name(x) => {
            look_up_name(scope, x, found);
            Ok(())
        }
        ExprKind::Neg(a) => look_up(alloc, scope, a, found),
        ExprKind::Plus(a) => look_up(alloc, scope, a, found),
        ExprKind::Not(a) => look_up(alloc, scope, a, found),
        ExprKind::Bin(_, a, b) => {
            look_up(alloc, scope, a, found)?;
            look_up(alloc, scope, b, found)
        }
        ExprKind::Compare(a, more) => {
            look_up(alloc, scope, a, found)?;
            let more = more.as_slice();
            'operands: for (_, b) in more {
                look_up(alloc, scope, b, found)?;
            }
            Ok(())
        }
        ExprKind::And(a, b) => {
            look_up(alloc, scope, a, found)?;
            look_up(alloc, scope, b, found)
        }
        ExprKind::Or(a, b) => {
            look_up(alloc, scope, a, found)?;
            look_up(alloc, scope, b, found)
        }
        ExprKind::Cond(a, test, b) => {
            look_up(alloc, scope, a, found)?;
            look_up(alloc, scope, test, found)?;
            look_up(alloc, scope, b, found)
        }
        ExprKind::List(items) => look_up_all(alloc, scope, items.as_slice(), found),
        ExprKind::Dict(entries) => {
            let entries = entries.as_slice();
            'entries: for (key, value) in entries {
                look_up(alloc, scope, key, found)?;
                look_up(alloc, scope, value, found)?;
            }
            Ok(())
        }
        ExprKind::Tuple(items) => look_up_all(alloc, scope, items.as_slice(), found),
        ExprKind::Attr(a, _) => look_up(alloc, scope, a, found),
        ExprKind::Index(a, i) => {
            look_up(alloc, scope, a, found)?;
            look_up(alloc, scope, i, found)
        }
        ExprKind::Call(callee, arguments) => {
            look_up(alloc, scope, callee, found)?;
            look_up_arguments(alloc, scope, arguments.as_slice(), found)
        }
    }
}

#[cycle(look_up)]
fn look_up_all(
    alloc: Global,
    scope: &Context<'_>,
    items: &[Expr],
    found: &mut bool,
) -> Result<(), Memory>
    ensures { IfOk result (λ done. found.new ≡ (found.old || spec.any_unknown (context scope.now).meaning (exprs_reads Annotation (exprs_of (map expr_tree items.now))))) }
{
    for item in items {
        look_up(alloc, scope, item, found)?;
    }
    Ok(())
}

#[cycle(look_up)]
fn look_up_arguments(
    alloc: Global,
    scope: &Context<'_>,
    arguments: &[Arg],
    found: &mut bool,
) -> Result<(), Memory>
    ensures { IfOk result (λ done. found.new ≡ (found.old || spec.any_unknown (context scope.now).meaning (arguments_reads Annotation (arguments_of (map arg_tree arguments.now))))) }
{
    for argument in arguments {
        look_up(alloc, scope, &argument.value, found)?;
    }
    Ok(())
}

/// The same of the name that a text in quotes stands for, if it does.
fn look_up_text(
    alloc: Global,
    scope: &Context<'_>,
    text: &Text,
    span: Span,
    found: &mut bool,
) -> Result<(), Memory>
    ensures { IfOk result (λ done. found.new ≡ (found.old || spec.any_unknown (context scope.now).meaning (text_reads Annotation text.now span))) }
{
    match name_in_quotes(alloc, text)? {
        None => Ok(()),
        Some(x) => {
            look_up_name(scope, &x, found);
            Ok(())
        }
    }
}

fn look_up_name(scope: &Context<'_>, x: &Name, found: &mut bool)
    ensures { found.new ≡ (found.old || spec.unknown_there (context scope.now).meaning (Reads x.now)) }
{
    if is_unknown(meaning_of(scope, x)) {
        *found = true;
    }
}
