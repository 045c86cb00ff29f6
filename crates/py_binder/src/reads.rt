//! The names that an expression looks up.
ghost use Rattle.std.specs.Prelude.{◌≡◌, [], ◌∷◌, ◌++◌, map, OnOk};
ghost use Rattle.py_syntax.specs.Expressions.{expr_tree, exprs_of, arg_tree, arguments_of};
ghost use Rattle.py_syntax.specs.Statements.{maybe_expr};
ghost use Rattle.py_binder.specs.Sights as spec;
ghost use Rattle.py_binder.specs.Collected.{sights_of};

use crate::sight::{Manner, Sight, Use};
use py_lexer_words::name_in_quotes;
use py_syntax::{Arg, Expr, ExprKind, Span};
use std::alloc::Global;
use value_core::{Memory, Name, Text};

/// Puts the names that an expression looks up behind the sights that there are.
#[cycle(read)]
pub(crate) fn read(
    alloc: Global,
    sights: &mut Vec<Sight<'_>>,
    manner: Manner,
    e: &Expr,
) -> Result<(), Memory>
    ensures { OnOk result (sights_of sights.new.items ≡ sights_of sights.old.items ++ spec.reads manner (expr_tree e.now)) }
{
    match &e.kind {
        ExprKind::Int(_) => Ok(()),
        ExprKind::Str(text) => read_text(alloc, sights, manner, text, e.span),
        ExprKind::True => Ok(()),
        ExprKind::False => Ok(()),
        ExprKind::Nothing => Ok(()),
        ExprKind::Name(name) => see_read(sights, name.clone()?, e.span),
        ExprKind::Neg(a) => read(alloc, sights, manner, a),
        ExprKind::Plus(a) => read(alloc, sights, manner, a),
        ExprKind::Not(a) => read(alloc, sights, manner, a),
        ExprKind::Bin(_, a, b) => {
            read(alloc, sights, manner, a)?;
            read(alloc, sights, manner, b)
        }
        ExprKind::Compare(a, more) => {
            read(alloc, sights, manner, a)?;
            let more = more.as_slice();
            'operands: for (_, b) in more {
                read(alloc, sights, manner, b)?;
            }
            Ok(())
        }
        ExprKind::And(a, b) => {
            read(alloc, sights, manner, a)?;
            read(alloc, sights, manner, b)
        }
        ExprKind::Or(a, b) => {
            read(alloc, sights, manner, a)?;
            read(alloc, sights, manner, b)
        }
        ExprKind::Cond(a, test, b) => {
            read(alloc, sights, manner, a)?;
            read(alloc, sights, manner, test)?;
            read(alloc, sights, manner, b)
        }
        ExprKind::List(items) => read_all(alloc, sights, manner, items.as_slice()),
        ExprKind::Dict(entries) => {
            let entries = entries.as_slice();
            'entries: for (key, value) in entries {
                read(alloc, sights, manner, key)?;
                read(alloc, sights, manner, value)?;
            }
            Ok(())
        }
        ExprKind::Tuple(items) => read_all(alloc, sights, manner, items.as_slice()),
        ExprKind::Attr(a, _) => read(alloc, sights, manner, a),
        ExprKind::Index(a, i) => {
            read(alloc, sights, manner, a)?;
            read(alloc, sights, manner, i)
        }
        ExprKind::Call(callee, arguments) => {
            read(alloc, sights, manner, callee)?;
            read_arguments(alloc, sights, manner, arguments.as_slice())
        }
    }
}

#[cycle(read)]
fn read_all(
    alloc: Global,
    sights: &mut Vec<Sight<'_>>,
    manner: Manner,
    items: &[Expr],
) -> Result<(), Memory>
    ensures { OnOk result (sights_of sights.new.items ≡ sights_of sights.old.items ++ spec.exprs_reads manner (exprs_of (map expr_tree items.now))) }
{
    for item in items {
        read(alloc, sights, manner, item)?;
    }
    Ok(())
}

#[cycle(read)]
fn read_arguments(
    alloc: Global,
    sights: &mut Vec<Sight<'_>>,
    manner: Manner,
    arguments: &[Arg],
) -> Result<(), Memory>
    ensures { OnOk result (sights_of sights.new.items ≡ sights_of sights.old.items ++ spec.arguments_reads manner (arguments_of (map arg_tree arguments.now))) }
{
    for argument in arguments {
        read(alloc, sights, manner, &argument.value)?;
    }
    Ok(())
}

/// Puts the names that expressions look up behind the sights.
pub(crate) fn read_each(
    alloc: Global,
    sights: &mut Vec<Sight<'_>>,
    manner: Manner,
    items: &[Expr],
) -> Result<(), Memory>
    ensures { OnOk result (sights_of sights.new.items ≡ sights_of sights.old.items ++ spec.list_reads manner (map expr_tree items.now)) }
{
    for item in items {
        read(alloc, sights, manner, item)?;
    }
    Ok(())
}

/// Puts the names that an expression looks up, where there is one, behind the sights.
pub(crate) fn read_maybe(
    alloc: Global,
    sights: &mut Vec<Sight<'_>>,
    manner: Manner,
    e: &Option<Expr>,
) -> Result<(), Memory>
    ensures { OnOk result (sights_of sights.new.items ≡ sights_of sights.old.items ++ spec.maybe_reads manner (maybe_expr e.now)) }
{
    match e {
        None => Ok(()),
        Some(e) => read(alloc, sights, manner, e),
    }
}

/// A text in quotes, which in an annotation may stand for a name.
fn read_text(
    alloc: Global,
    sights: &mut Vec<Sight<'_>>,
    manner: Manner,
    text: &Text,
    span: Span,
) -> Result<(), Memory>
    ensures { OnOk result (sights_of sights.new.items ≡ sights_of sights.old.items ++ spec.text_reads manner text.now span) }
{
    match manner {
        Manner::Value => Ok(()),
        Manner::Annotation => match name_in_quotes(alloc, text)? {
            None => Ok(()),
            Some(name) => see_read(sights, name, span),
        },
    }
}

/// Puts one name that is looked up behind the sights.
pub(crate) fn see_read(sights: &mut Vec<Sight<'_>>, name: Name, span: Span) -> Result<(), Memory>
    ensures { OnOk result (sights_of sights.new.items ≡ sights_of sights.old.items ++ spec.sight (spec.Reads name) span ∷ []) }
{
    let does = Use::Reads(name);
    sights.push(Sight { does, span })?;
    Ok(())
}
