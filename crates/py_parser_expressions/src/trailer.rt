//! What stands behind an expression and goes on with it.
ghost use Rattle.std.specs.Prelude.{map, IfOk};
ghost use Rattle.py_syntax.specs.Expressions.{arg_tree};
ghost use Rattle.py_parser_grammar.specs.Grammar.{TRAILER, ARG};
ghost use Rattle.py_parser_grammar.specs.Readings.{reads_sym, growth};
ghost use Rattle.py_parser_cursor.specs.Gives.{Gives};
ghost use Rattle.py_parser_expressions.specs.Parsed.{seen, piece_of, args_seen, IsFinished, Moves, AreArgs};
ghost use Rattle.py_parser_cursor.specs.Moves.{MovesTo, MovesUpTo};
ghost use Rattle.py_parser_expressions.specs.Rows.{one_more, reads_row};
ghost use Rattle.py_parser_expressions.specs.Trailers.{index_seen, reads_attribute_name, reads_arguments, reads_index, reads_attribute, reads_call, reads_indexed};

use crate::expression::{test, test_behind, tests};
use crate::join::{attribute, called, indexed};
use crate::parsed::{Parsed, Row};
use crate::row::{no_row, push_keyed, push_value};
use py_parser_cursor::fault::ParseError;
use py_parser_cursor::place::{accept, accept_sign, sees_sign};
use py_parser_cursor::starts::begins_test;
use py_parser_cursor::word::name_of;
use py_parser_grammar::{Place, Terminal};
use py_syntax::{Arg, Sign, Token};
use std::alloc::Global;
use value_core::Name;

// An attribute, a call or an index behind an expression.
#[cycle(expression)]
#[tactic(auto, using(crate::proofs::ExprEquations::trailer_eq))]
pub fn trailer(alloc: Global, tokens: &[Token], left: Parsed) -> Result<Parsed, ParseError>
    requires { IsFinished left }
    ensures read { Gives seen result (growth tokens.now TRAILER (piece_of left) left.place) }
    ensures moves { IfOk result (λ x. Moves tokens.now left.place x) }
{
    if sees_sign(tokens, left.place, Sign::Dot) {
        return attribute_of(alloc, tokens, left);
    }
    if sees_sign(tokens, left.place, Sign::LeftParen) {
        return call_of(alloc, tokens, left);
    }
    index_of(alloc, tokens, left)
}

#[tactic(auto, unfolding(crate::specs::Trailers::reads_attribute))]
fn attribute_of(alloc: Global, tokens: &[Token], left: Parsed) -> Result<Parsed, ParseError>
    requires { IsFinished left }
    ensures read { Gives seen result (reads_attribute tokens.now (piece_of left) left.place) }
    ensures moves { IfOk result (λ x. Moves tokens.now left.place x) }
{
    let (name, place) = attribute_name(alloc, tokens, left.place)?;
    attribute(alloc, left, name, place)
}

// A name behind a dot.
#[tactic(auto, unfolding(crate::specs::Trailers::reads_attribute_name))]
fn attribute_name(
    alloc: Global,
    tokens: &[Token],
    place: Place,
) -> Result<(Name, Place), ParseError>
    ensures read { Gives (λ x. x) result (reads_attribute_name tokens.now place) }
    ensures moves { IfOk result (λ x. MovesTo tokens.now place x.1) }
{
    let (_, place) = accept_sign(tokens, place, Sign::Dot)?;
    let (token, place) = accept(tokens, place, Terminal::Name)?;
    Ok((name_of(alloc, token)?, place))
}

#[cycle(expression)]
#[tactic(auto, unfolding(crate::specs::Trailers::reads_call))]
fn call_of(alloc: Global, tokens: &[Token], left: Parsed) -> Result<Parsed, ParseError>
    requires { IsFinished left }
    ensures read { Gives seen result (reads_call tokens.now (piece_of left) left.place) }
    ensures moves { IfOk result (λ x. Moves tokens.now left.place x) }
{
    let args = bracketed_arguments(alloc, tokens, left.place)?;
    called(alloc, left, args)
}

// Arguments in brackets.
#[cycle(expression)]
#[tactic(auto, unfolding(crate::specs::Trailers::reads_arguments))]
fn bracketed_arguments(
    alloc: Global,
    tokens: &[Token],
    place: Place,
) -> Result<Row<Arg>, ParseError>
    ensures read { Gives args_seen result (reads_arguments tokens.now place) }
    ensures moves { IfOk result (λ x. MovesTo tokens.now place x.place) }
    ensures row { IfOk result AreArgs }
{
    let (_, place) = accept_sign(tokens, place, Sign::LeftParen)?;
    let found = arguments(alloc, tokens, place)?;
    let (_, place) = accept_sign(tokens, found.place, Sign::RightParen)?;
    Ok(Row {
        list: found.list,
        level: found.level,
        place,
    })
}

#[cycle(expression)]
#[tactic(auto, unfolding(crate::specs::Trailers::reads_indexed))]
fn index_of(alloc: Global, tokens: &[Token], left: Parsed) -> Result<Parsed, ParseError>
    requires { IsFinished left }
    ensures read { Gives seen result (reads_indexed tokens.now (piece_of left) left.place) }
    ensures moves { IfOk result (λ x. Moves tokens.now left.place x) }
{
    let (index, place) = bracketed_index(alloc, tokens, left.place)?;
    indexed(alloc, left, index, place)
}

// An index in brackets, and the place behind them.
#[cycle(expression)]
#[tactic(auto, unfolding(crate::specs::Trailers::reads_index))]
fn bracketed_index(
    alloc: Global,
    tokens: &[Token],
    place: Place,
) -> Result<(Parsed, Place), ParseError>
    ensures read { Gives index_seen result (reads_index tokens.now place) }
    ensures moves { IfOk result (λ x. MovesTo tokens.now place x.1) }
    ensures finished { IfOk result (λ x. IsFinished x.0) }
{
    let (_, place) = accept_sign(tokens, place, Sign::LeftSquare)?;
    let index = tests(alloc, tokens, place)?;
    let (_, place) = accept_sign(tokens, index.place, Sign::RightSquare)?;
    Ok((index, place))
}

// Arguments between commas, or none, and a last comma.
#[cycle(expression)]
#[tactic(auto, using(crate::proofs::RowReading::part_rows))]
fn arguments(alloc: Global, tokens: &[Token], place: Place) -> Result<Row<Arg>, ParseError>
    ensures read { Gives args_seen result (reads_row tokens.now ARG place) }
    ensures moves { IfOk result (λ x. MovesUpTo tokens.now place x.place) }
    ensures row { IfOk result AreArgs }
{
    let mut found = no_row(alloc, place);
    let mut next = place;
    'arguments: while begins_test(tokens, next) {
        found = argument(alloc, tokens, found, next)?;
        if !sees_sign(tokens, found.place, Sign::Comma) {
            return Ok(found);
        }
        let (_, behind) = accept_sign(tokens, found.place, Sign::Comma)?;
        next = behind;
    }
    Ok(Row {
        list: found.list,
        level: found.level,
        place: next,
    })
}

// One argument more, from a place on.
#[cycle(expression)]
#[tactic(auto, using(crate::proofs::ExprEquations::arg_eq))]
fn argument(
    alloc: Global,
    tokens: &[Token],
    found: Row<Arg>,
    place: Place,
) -> Result<Row<Arg>, ParseError>
    requires { AreArgs found }
    ensures read { Gives args_seen result (one_more (map arg_tree found.list) (reads_sym tokens.now ARG place)) }
    ensures moves { IfOk result (λ x. MovesTo tokens.now place x.place) }
    ensures row { IfOk result AreArgs }
{
    let first = test(alloc, tokens, place)?;
    if !sees_sign(tokens, first.place, Sign::Assign) {
        return Ok(push_value(found, first)?);
    }
    let value = test_behind(alloc, tokens, first.place, Sign::Assign)?;
    Ok(push_keyed(found, first, value)?)
}
