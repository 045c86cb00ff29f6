//! Expressions, alone and in rows. A cycle of calls goes down the levels, and up again inside brackets.
ghost use Rattle.std.specs.Prelude.{map, IfOk};
ghost use Rattle.py_syntax.specs.Expressions.{expr_tree};
ghost use Rattle.py_parser_grammar.specs.declared.terminal.Terminal.TheVariants as terminal;
ghost use Rattle.py_parser_grammar.specs.Grammar.{TEST, TESTS, OR};
ghost use Rattle.py_parser_grammar.specs.Readings.{reads_expr};
ghost use Rattle.py_parser_expressions.specs.Behind.{reads_behind};
ghost use Rattle.py_parser_cursor.specs.Gives.{Gives};
ghost use Rattle.py_parser_expressions.specs.Heads.{alternative_seen, IsHead};
ghost use Rattle.py_parser_expressions.specs.Parsed.{seen, exprs_seen, Moves, AreExprs};
ghost use Rattle.py_parser_cursor.specs.Moves.{MovesTo, MovesUpTo};
ghost use Rattle.py_parser_expressions.specs.Prefixes.{reads_alternative};
ghost use Rattle.py_parser_expressions.specs.Rows.{fronted, reads_trees};

use crate::chain::chain;
use crate::join::tuple;
use crate::parsed::{Parsed, Row};
use crate::prefix::conditionals;
use crate::row::{no_row, push_expr};
use py_parser_cursor::fault::ParseError;
use py_parser_cursor::operator::Level;
use py_parser_cursor::place::{accept_key, accept_sign, sees_key, sees_sign};
use py_parser_cursor::starts::begins_test;
use py_parser_grammar::Place;
use py_syntax::{Expr, Key, Sign, Token};
use std::alloc::Global;

/// An expression: a condition, or what stands above one.
#[cycle(expression)]
#[tactic(auto, using(crate::proofs::Conditions::conditions))]
pub fn test(alloc: Global, tokens: &[Token], place: Place) -> Result<Parsed, ParseError>
    ensures read { Gives seen result (reads_expr tokens.now TEST place) }
    ensures moves { IfOk result (λ x. Moves tokens.now place x) }
{
    let mut heads = Vec::new(alloc);
    let mut last = chain(alloc, tokens, place, Level::Or)?;
    'heads: while sees_key(tokens, last.place, Key::If) {
        let (condition, other) = alternative(alloc, tokens, last.place)?;
        heads.push((last, condition))?;
        last = other;
    }
    conditionals(alloc, heads, last)
}

// The test of a condition, and the operand behind its `else`.
#[cycle(expression)]
#[tactic(auto, unfolding(crate::specs::Prefixes::reads_alternative))]
fn alternative(
    alloc: Global,
    tokens: &[Token],
    place: Place,
) -> Result<(Parsed, Parsed), ParseError>
    ensures read { Gives alternative_seen result (reads_alternative tokens.now place) }
    ensures moves { IfOk result (λ x. MovesTo tokens.now place x.1.place) }
    ensures finished { IfOk result IsHead }
{
    let condition = chain_behind(alloc, tokens, place, Key::If)?;
    let other = chain_behind(alloc, tokens, condition.place, Key::Else)?;
    Ok((condition, other))
}

// An operand of a condition, behind a keyword.
#[cycle(expression)]
#[tactic(auto, unfolding(crate::specs::Behind::reads_behind))]
fn chain_behind(
    alloc: Global,
    tokens: &[Token],
    place: Place,
    key: Key,
) -> Result<Parsed, ParseError>
    ensures read { Gives seen result (reads_behind tokens.now (terminal.Key key) OR place) }
    ensures moves { IfOk result (λ x. Moves tokens.now place x) }
{
    let (_, place) = accept_key(tokens, place, key)?;
    chain(alloc, tokens, place, Level::Or)
}

/// An expression behind a sign.
#[cycle(expression)]
#[tactic(auto, unfolding(crate::specs::Behind::reads_behind))]
pub fn test_behind(
    alloc: Global,
    tokens: &[Token],
    place: Place,
    sign: Sign,
) -> Result<Parsed, ParseError>
    ensures read { Gives seen result (reads_behind tokens.now (terminal.Sign sign) TEST place) }
    ensures moves { IfOk result (λ x. Moves tokens.now place x) }
{
    let (_, place) = accept_sign(tokens, place, sign)?;
    test(alloc, tokens, place)
}

/// An expression, or several between commas, which are a tuple.
#[cycle(expression)]
#[tactic(auto, using(crate::proofs::ExprEquations::tests_eq))]
pub fn tests(alloc: Global, tokens: &[Token], place: Place) -> Result<Parsed, ParseError>
    ensures read { Gives seen result (reads_expr tokens.now TESTS place) }
    ensures moves { IfOk result (λ x. Moves tokens.now place x) }
{
    let first = test(alloc, tokens, place)?;
    if !sees_sign(tokens, first.place, Sign::Comma) {
        return Ok(first);
    }
    let begin = first.begin;
    let (_, next) = accept_sign(tokens, first.place, Sign::Comma)?;
    let found = push_expr(no_row(alloc, next), first)?;
    let items = items(alloc, tokens, found, next)?;
    tuple(alloc, items, begin)
}

/// Expressions between commas, or none, and a last comma, from a place on, behind those in front of them.
#[cycle(expression)]
#[tactic(auto, using(crate::proofs::RowReading::expr_rows))]
pub fn items(
    alloc: Global,
    tokens: &[Token],
    front: Row<Expr>,
    place: Place,
) -> Result<Row<Expr>, ParseError>
    requires { AreExprs front }
    ensures read { Gives exprs_seen result (fronted (map expr_tree front.list) (reads_trees tokens.now TEST place)) }
    ensures moves { IfOk result (λ x. MovesUpTo tokens.now place x.place) }
    ensures row { IfOk result AreExprs }
{
    let mut found = front;
    let mut next = place;
    'items: while begins_test(tokens, next) {
        let item = test(alloc, tokens, next)?;
        found = push_expr(found, item)?;
        if !sees_sign(tokens, found.place, Sign::Comma) {
            return Ok(found);
        }
        let (_, behind) = accept_sign(tokens, found.place, Sign::Comma)?;
        next = behind;
    }
    Ok(Row {
        list: found.list,
        level: found.level,
        place: next,
    })
}
