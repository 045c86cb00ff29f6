//! Expressions made of finished parts.
ghost use Rattle.std.specs.Prelude.{◌≡◌, ◌+◌, map, Ok, IfOk, true};
ghost use Rattle.py_syntax.specs.Expressions as e;
ghost use Rattle.py_syntax.specs.Expressions.{expr_tree, expr_node, arg_tree, entry_tree, comparison_tree, exprs_of, arguments_of, entries_of, comparisons_of};
ghost use Rattle.py_parser_grammar.specs.Levels.{level as level_of, node_level};
ghost use Rattle.py_parser_grammar.specs.Actions.{piece, grouped_at};
ghost use Rattle.py_parser_grammar.specs.Readings.{finish};
ghost use Rattle.py_parser_expressions.specs.Parsed.{seen, IsFinished, AreExprs, AreArgs, AreEntries, AreComparisons};
ghost use Rattle.py_parser_expressions.specs.Prefixes.{prefix_node};
ghost use Rattle.py_parser_cursor.specs.Gives.{Gives};
ghost use Rattle.py_parser_cursor.specs.Operators.{operation};

use crate::parsed::{Parsed, Row};
use py_parser_cursor::fault::ParseError;
use py_parser_cursor::operator::Operator;
use py_parser_cursor::place::is_of;
use py_parser_grammar::{Place, Terminal};
use py_syntax::{Arg, CmpOp, Expr, ExprKind, Key, Sign, Span, Token};
use std::alloc::Global;
use value_core::Name;

/// How many levels an expression may have.
const LIMIT: usize = 100;

// What stands for an expression that is too deep, in its place.
fn stump(expr: Box<Expr>, at: usize) -> Parsed
    ensures read { finish (piece e.Nothing (record { line = 1; col = 1 })) (record { at = at; deep = true }) ≡ Ok (seen result) }
    ensures finished { IsFinished result }
    ensures at { result.place.at ≡ at }
{
    let begin = Span { line: 1, col: 1 };
    let mut expr = expr;
    *expr = Expr {
        kind: ExprKind::Nothing,
        span: begin,
    };
    Parsed {
        expr,
        begin,
        level: 1,
        place: Place { at, deep: true },
    }
}

// An expression of a level that ends in front of a place. Its first token may be a bracket around it.
fn closed(expr: Box<Expr>, begin: Span, level: usize, place: Place) -> Parsed
    requires { level ≡ level_of (expr_tree expr.value) }
    ensures read { finish (record { tree = expr_tree expr.value; begins = begin }) place ≡ Ok (seen result) }
    ensures finished { IsFinished result }
    ensures at { result.place.at ≡ place.at }
{
    if place.deep || level > LIMIT {
        return stump(expr, place.at);
    }
    Parsed {
        expr,
        begin,
        level,
        place,
    }
}

// A new expression of a level that ends in front of a place.
fn made(
    alloc: Global,
    kind: ExprKind,
    begin: Span,
    level: usize,
    place: Place,
) -> Result<Parsed, ParseError>
    requires { level ≡ node_level (expr_node kind) }
    ensures read { Gives seen result (finish (piece (expr_node kind) begin) place) }
    ensures finished { IfOk result IsFinished }
    ensures at { IfOk result (λ x. x.place.at ≡ place.at) }
{
    let expr = Box::new(alloc, Expr { kind, span: begin })?;
    Ok(closed(expr, begin, level, place))
}

/// An expression of one token or more, but of no parts.
pub fn leaf(alloc: Global, kind: ExprKind, begin: Span, place: Place) -> Result<Parsed, ParseError>
    requires { node_level (expr_node kind) ≡ 1 }
    ensures read { Gives seen result (finish (piece (expr_node kind) begin) place) }
    ensures finished { IfOk result IsFinished }
    ensures at { IfOk result (λ x. x.place.at ≡ place.at) }
{
    made(alloc, kind, begin, 1, place)
}

/// An expression in brackets that group.
pub fn grouped(inner: Parsed, begin: Span, place: Place) -> Parsed
    requires { IsFinished inner }
    ensures read { finish (grouped_at begin (record { tree = expr_tree inner.expr.value; begins = inner.begin })) place ≡ Ok (seen result) }
    ensures finished { IsFinished result }
    ensures at { result.place.at ≡ place.at }
{
    closed(inner.expr, begin, inner.level, place)
}

/// A prefix, which is `not`, a minus or a plus sign, before an expression.
pub fn prefixed(alloc: Global, token: &Token, inner: Parsed) -> Result<Parsed, ParseError>
    requires { IsFinished inner }
    ensures read { Gives seen result (finish (piece (prefix_node token.now (expr_tree inner.expr.value)) token.now.span) inner.place) }
    ensures finished { IfOk result IsFinished }
    ensures at { IfOk result (λ x. x.place.at ≡ inner.place.at) }
{
    let kind = behind_prefix(token, inner.expr);
    made(alloc, kind, token.span, inner.level + 1, inner.place)
}

fn behind_prefix(token: &Token, part: Box<Expr>) -> ExprKind
    ensures node { expr_node result ≡ prefix_node token.now (expr_tree part.value) }
    ensures level { node_level (expr_node result) ≡ level_of (expr_tree part.value) + 1 }
{
    if is_of(token, Terminal::Key(Key::Not)) {
        return ExprKind::Not(part);
    }
    if is_of(token, Terminal::Sign(Sign::Minus)) {
        return ExprKind::Neg(part);
    }
    ExprKind::Plus(part)
}

/// Two operands with their operator.
pub fn joined(
    alloc: Global,
    operator: Operator,
    left: Parsed,
    right: Parsed,
) -> Result<Parsed, ParseError>
    requires left { IsFinished left }
    requires right { IsFinished right }
    ensures read { Gives seen result (finish (piece (operation operator (expr_tree left.expr.value) (expr_tree right.expr.value)) left.begin) right.place) }
    ensures finished { IfOk result IsFinished }
    ensures at { IfOk result (λ x. x.place.at ≡ right.place.at) }
{
    let level = left.level.max(right.level) + 1;
    let kind = match operator {
        Operator::Or => ExprKind::Or(left.expr, right.expr),
        Operator::And => ExprKind::And(left.expr, right.expr),
        Operator::Bin(op) => ExprKind::Bin(op, left.expr, right.expr),
    };
    made(alloc, kind, left.begin, level, right.place)
}

/// A chain of comparisons, which has at least one.
pub fn compared(
    alloc: Global,
    first: Parsed,
    more: Row<(CmpOp, Expr)>,
) -> Result<Parsed, ParseError>
    requires first { IsFinished first }
    requires more { AreComparisons more }
    ensures read { Gives seen result (finish (piece (e.Compare (expr_tree first.expr.value) (comparisons_of (map comparison_tree more.list))) first.begin) more.place) }
    ensures finished { IfOk result IsFinished }
    ensures at { IfOk result (λ x. x.place.at ≡ more.place.at) }
{
    let level = first.level.max(more.level) + 1;
    let kind = ExprKind::Compare(first.expr, more.list);
    made(alloc, kind, first.begin, level, more.place)
}

/// `value if test else other`.
pub fn conditional(
    alloc: Global,
    value: Parsed,
    test: Parsed,
    other: Parsed,
) -> Result<Parsed, ParseError>
    requires value { IsFinished value }
    requires test { IsFinished test }
    requires other { IsFinished other }
    ensures read { Gives seen result (finish (piece (e.Cond (expr_tree value.expr.value) (expr_tree test.expr.value) (expr_tree other.expr.value)) value.begin) other.place) }
    ensures finished { IfOk result IsFinished }
    ensures at { IfOk result (λ x. x.place.at ≡ other.place.at) }
{
    let level = value.level.max(test.level.max(other.level)) + 1;
    let kind = ExprKind::Cond(value.expr, test.expr, other.expr);
    made(alloc, kind, value.begin, level, other.place)
}

/// An attribute of an expression.
pub fn attribute(
    alloc: Global,
    left: Parsed,
    name: Name,
    place: Place,
) -> Result<Parsed, ParseError>
    requires { IsFinished left }
    ensures read { Gives seen result (finish (piece (e.Attr (expr_tree left.expr.value) name) left.begin) place) }
    ensures finished { IfOk result IsFinished }
    ensures at { IfOk result (λ x. x.place.at ≡ place.at) }
{
    let kind = ExprKind::Attr(left.expr, name);
    made(alloc, kind, left.begin, left.level + 1, place)
}

/// An expression with an index, behind the closing bracket.
pub fn indexed(
    alloc: Global,
    left: Parsed,
    index: Parsed,
    place: Place,
) -> Result<Parsed, ParseError>
    requires left { IsFinished left }
    requires index { IsFinished index }
    ensures read { Gives seen result (finish (piece (e.Index (expr_tree left.expr.value) (expr_tree index.expr.value)) left.begin) place) }
    ensures finished { IfOk result IsFinished }
    ensures at { IfOk result (λ x. x.place.at ≡ place.at) }
{
    let level = left.level.max(index.level) + 1;
    let kind = ExprKind::Index(left.expr, index.expr);
    made(alloc, kind, left.begin, level, place)
}

/// A call of an expression.
pub fn called(alloc: Global, left: Parsed, args: Row<Arg>) -> Result<Parsed, ParseError>
    requires left { IsFinished left }
    requires args { AreArgs args }
    ensures read { Gives seen result (finish (piece (e.Call (expr_tree left.expr.value) (arguments_of (map arg_tree args.list))) left.begin) args.place) }
    ensures finished { IfOk result IsFinished }
    ensures at { IfOk result (λ x. x.place.at ≡ args.place.at) }
{
    let level = left.level.max(args.level) + 1;
    let kind = ExprKind::Call(left.expr, args.list);
    made(alloc, kind, left.begin, level, args.place)
}

/// A list display, behind the closing bracket.
pub fn list_display(
    alloc: Global,
    items: Row<Expr>,
    begin: Span,
    place: Place,
) -> Result<Parsed, ParseError>
    requires { AreExprs items }
    ensures read { Gives seen result (finish (piece (e.ListOf (exprs_of (map expr_tree items.list))) begin) place) }
    ensures finished { IfOk result IsFinished }
    ensures at { IfOk result (λ x. x.place.at ≡ place.at) }
{
    let kind = ExprKind::List(items.list);
    made(alloc, kind, begin, items.level + 1, place)
}

/// A dict display, behind the closing bracket.
pub fn dict_display(
    alloc: Global,
    entries: Row<(Expr, Expr)>,
    begin: Span,
    place: Place,
) -> Result<Parsed, ParseError>
    requires { AreEntries entries }
    ensures read { Gives seen result (finish (piece (e.DictOf (entries_of (map entry_tree entries.list))) begin) place) }
    ensures finished { IfOk result IsFinished }
    ensures at { IfOk result (λ x. x.place.at ≡ place.at) }
{
    let kind = ExprKind::Dict(entries.list);
    made(alloc, kind, begin, entries.level + 1, place)
}

/// A tuple.
pub fn tuple(alloc: Global, items: Row<Expr>, begin: Span) -> Result<Parsed, ParseError>
    requires { AreExprs items }
    ensures read { Gives seen result (finish (piece (e.TupleOf (exprs_of (map expr_tree items.list))) begin) items.place) }
    ensures finished { IfOk result IsFinished }
    ensures at { IfOk result (λ x. x.place.at ≡ items.place.at) }
{
    let kind = ExprKind::Tuple(items.list);
    made(alloc, kind, begin, items.level + 1, items.place)
}
