//! Rows of parts, one part after the other.
ghost use Rattle.std.specs.Prelude.{◌≡◌, [], ◌∷◌, ◌++◌, map, IfOk, Some, None};
ghost use Rattle.py_syntax.specs.Expressions.{expr_tree, arg_tree, entry_tree, comparison_tree};
ghost use Rattle.py_parser_expressions.specs.Parsed.{IsFinished, AreExprs, AreArgs, AreEntries, AreComparisons};

use crate::parsed::{Parsed, Row};
use py_parser_grammar::Place;
use py_syntax::{Arg, CmpOp, Expr};
use std::alloc::Global;
use value_core::{Many, Memory};

/// No parts.
pub fn no_row<T>(alloc: Global, place: Place) -> Row<T>
    ensures list { result.list ≡ [] }
    ensures level { result.level ≡ 0 }
    ensures place { result.place ≡ place }
{
    Row {
        list: Many::new(alloc),
        level: 0,
        place,
    }
}

/// One expression more.
#[tactic(auto, using(crate::proofs::Rows::rows))]
pub fn push_expr(row: Row<Expr>, item: Parsed) -> Result<Row<Expr>, Memory>
    requires row { AreExprs row }
    requires item { IsFinished item }
    ensures list { IfOk result (λ x. map expr_tree x.list ≡ map expr_tree row.list ++ expr_tree item.expr.value ∷ []) }
    ensures row { IfOk result AreExprs }
    ensures place { IfOk result (λ x. x.place ≡ item.place) }
{
    let level = row.level.max(item.level);
    let mut list = row.list;
    list.push(Box::into_inner(item.expr))?;
    Ok(Row {
        list,
        level,
        place: item.place,
    })
}

/// One argument more, without a key.
#[tactic(auto, using(crate::proofs::Rows::rows))]
pub fn push_value(row: Row<Arg>, value: Parsed) -> Result<Row<Arg>, Memory>
    requires row { AreArgs row }
    requires value { IsFinished value }
    ensures list { IfOk result (λ x. map arg_tree x.list ≡ map arg_tree row.list ++ record { key = None; value = expr_tree value.expr.value } ∷ []) }
    ensures row { IfOk result AreArgs }
    ensures place { IfOk result (λ x. x.place ≡ value.place) }
{
    let level = row.level.max(value.level);
    let arg = Arg {
        key: None,
        value: Box::into_inner(value.expr),
    };
    let mut list = row.list;
    list.push(arg)?;
    Ok(Row {
        list,
        level,
        place: value.place,
    })
}

/// One argument more, with a key.
#[tactic(auto, using(crate::proofs::Rows::rows))]
pub fn push_keyed(row: Row<Arg>, key: Parsed, value: Parsed) -> Result<Row<Arg>, Memory>
    requires row { AreArgs row }
    requires key { IsFinished key }
    requires value { IsFinished value }
    ensures list { IfOk result (λ x. map arg_tree x.list ≡ map arg_tree row.list ++ record { key = Some (expr_tree key.expr.value); value = expr_tree value.expr.value } ∷ []) }
    ensures row { IfOk result AreArgs }
    ensures place { IfOk result (λ x. x.place ≡ value.place) }
{
    let level = row.level.max(key.level.max(value.level));
    let arg = Arg {
        key: Some(Box::into_inner(key.expr)),
        value: Box::into_inner(value.expr),
    };
    let mut list = row.list;
    list.push(arg)?;
    Ok(Row {
        list,
        level,
        place: value.place,
    })
}

/// One key with its value more.
#[tactic(auto, using(crate::proofs::Rows::rows))]
pub fn push_entry(
    row: Row<(Expr, Expr)>,
    key: Parsed,
    value: Parsed,
) -> Result<Row<(Expr, Expr)>, Memory>
    requires row { AreEntries row }
    requires key { IsFinished key }
    requires value { IsFinished value }
    ensures list { IfOk result (λ x. map entry_tree x.list ≡ map entry_tree row.list ++ (expr_tree key.expr.value, expr_tree value.expr.value) ∷ []) }
    ensures row { IfOk result AreEntries }
    ensures place { IfOk result (λ x. x.place ≡ value.place) }
{
    let level = row.level.max(key.level.max(value.level));
    let mut list = row.list;
    list.push((Box::into_inner(key.expr), Box::into_inner(value.expr)))?;
    Ok(Row {
        list,
        level,
        place: value.place,
    })
}

/// One comparison more.
#[tactic(auto, using(crate::proofs::Rows::rows))]
pub fn push_comparison(
    row: Row<(CmpOp, Expr)>,
    op: CmpOp,
    operand: Parsed,
) -> Result<Row<(CmpOp, Expr)>, Memory>
    requires row { AreComparisons row }
    requires operand { IsFinished operand }
    ensures list { IfOk result (λ x. map comparison_tree x.list ≡ map comparison_tree row.list ++ (op, expr_tree operand.expr.value) ∷ []) }
    ensures row { IfOk result AreComparisons }
    ensures place { IfOk result (λ x. x.place ≡ operand.place) }
{
    let level = row.level.max(operand.level);
    let mut list = row.list;
    list.push((op, Box::into_inner(operand.expr)))?;
    Ok(Row {
        list,
        level,
        place: operand.place,
    })
}
