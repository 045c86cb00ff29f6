//! Statements of one line.
ghost use Rattle.std.specs.Prelude.{◌≡◌, map, IfOk};
ghost use Rattle.py_syntax.specs.Statements.{stmt_tree, stmt_node};
ghost use Rattle.py_parser_grammar.specs.Grammar.{SIMPLE, SMALL, RETURN, RAISE, ASSERT, DEL};
ghost use Rattle.py_parser_grammar.specs.Readings.{reads_sym};
ghost use Rattle.py_parser_cursor.specs.Gives.{Gives};
ghost use Rattle.py_parser_cursor.specs.Moves.{MovesTo, MovesUpTo};
ghost use Rattle.py_parser_statements.specs.Statements.{stmt_seen, stmts_seen, lone_node, reads_lone, reads_line, reads_worded};

use crate::assign::of_tests;
use crate::import::{from_import, global, import};
use py_parser_cursor::fault::ParseError;
use py_parser_cursor::place::{accept, accept_key, accept_sign, sees_key, sees_sign};
use py_parser_cursor::starts::{begins_small, begins_test};
use py_parser_expressions::expression::{test, test_behind, tests};
use py_parser_grammar::{Place, Terminal};
use py_parser_nodes::append::{push_stmt, row_of};
use py_parser_nodes::statement::{
    asserting, asserting_with, boxed, deleting, raising, raising_value, returning, returning_value,
};
use py_syntax::{Key, Sign, Stmt, StmtKind, Token};
use std::alloc::Global;
use value_core::Many;

/// A line of statements.
#[tactic(auto, using(crate::proofs::LineReading::simple_line))]
pub fn simple(
    alloc: Global,
    tokens: &[Token],
    place: Place,
) -> Result<(Many<Stmt>, Place), ParseError>
    ensures read { Gives stmts_seen result (reads_sym tokens.now SIMPLE place) }
    ensures moves { IfOk result (λ x. MovesTo tokens.now place x.1) }
{
    let (first, place) = small(alloc, tokens, place)?;
    let found = row_of(alloc, first)?;
    let (found, place) = line(alloc, tokens, found, place)?;
    let (_, place) = accept(tokens, place, Terminal::Newline)?;
    Ok((found, place))
}

// More statements of a line, behind those in front of them, and a last semicolon.
#[tactic(auto, using(crate::proofs::LineReading::lines))]
fn line(
    alloc: Global,
    tokens: &[Token],
    front: Many<Stmt>,
    place: Place,
) -> Result<(Many<Stmt>, Place), ParseError>
    ensures read { Gives stmts_seen result (reads_line tokens.now (map stmt_tree front) place) }
    ensures moves { IfOk result (λ x. MovesUpTo tokens.now place x.1) }
{
    let mut found = front;
    let mut place = place;
    'smalls: while sees_sign(tokens, place, Sign::Semicolon) {
        let (_, next) = accept_sign(tokens, place, Sign::Semicolon)?;
        if !begins_small(tokens, next) {
            return Ok((found, next));
        }
        let (more, behind) = small(alloc, tokens, next)?;
        found = push_stmt(found, more)?;
        place = behind;
    }
    Ok((found, place))
}

// One statement of a line.
#[tactic(auto, using(crate::proofs::LineReading::small_split))]
fn small(alloc: Global, tokens: &[Token], place: Place) -> Result<(Box<Stmt>, Place), ParseError>
    ensures read { Gives stmt_seen result (reads_sym tokens.now SMALL place) }
    ensures moves { IfOk result (λ x. MovesTo tokens.now place x.1) }
{
    if sees_key(tokens, place, Key::Pass) {
        return lone(alloc, tokens, place, Key::Pass);
    }
    if sees_key(tokens, place, Key::Break) {
        return lone(alloc, tokens, place, Key::Break);
    }
    if sees_key(tokens, place, Key::Continue) {
        return lone(alloc, tokens, place, Key::Continue);
    }
    if sees_key(tokens, place, Key::Return) {
        return returned(alloc, tokens, place);
    }
    if sees_key(tokens, place, Key::Raise) {
        return raised(alloc, tokens, place);
    }
    small_of_words(alloc, tokens, place)
}

// One statement of a line, which is none of the shortest ones.
#[tactic(auto, unfolding(crate::specs::Statements::reads_worded))]
fn small_of_words(
    alloc: Global,
    tokens: &[Token],
    place: Place,
) -> Result<(Box<Stmt>, Place), ParseError>
    ensures read { Gives stmt_seen result (reads_worded tokens.now place) }
    ensures moves { IfOk result (λ x. MovesTo tokens.now place x.1) }
{
    if sees_key(tokens, place, Key::Global) {
        return global(alloc, tokens, place);
    }
    if sees_key(tokens, place, Key::Assert) {
        return asserted(alloc, tokens, place);
    }
    if sees_key(tokens, place, Key::Del) {
        return deleted(alloc, tokens, place);
    }
    if sees_key(tokens, place, Key::Import) {
        return import(alloc, tokens, place);
    }
    if sees_key(tokens, place, Key::From) {
        return from_import(alloc, tokens, place);
    }
    of_tests(alloc, tokens, place)
}

// A statement of one keyword.
fn lone(
    alloc: Global,
    tokens: &[Token],
    place: Place,
    key: Key,
) -> Result<(Box<Stmt>, Place), ParseError>
    ensures read { Gives stmt_seen result (reads_lone tokens.now key place) }
    ensures moves { IfOk result (λ x. MovesTo tokens.now place x.1) }
{
    let (token, place) = accept_key(tokens, place, key)?;
    Ok((boxed(alloc, lone_kind(key), token.span)?, place))
}

fn lone_kind(key: Key) -> StmtKind
    ensures { stmt_node result ≡ lone_node key }
{
    match key {
        Key::Pass => StmtKind::Pass,
        Key::Break => StmtKind::Break,
        _ => StmtKind::Continue,
    }
}

#[tactic(auto, using(crate::proofs::LineReading::returning))]
fn returned(alloc: Global, tokens: &[Token], place: Place) -> Result<(Box<Stmt>, Place), ParseError>
    ensures read { Gives stmt_seen result (reads_sym tokens.now RETURN place) }
    ensures moves { IfOk result (λ x. MovesTo tokens.now place x.1) }
{
    let (token, place) = accept_key(tokens, place, Key::Return)?;
    if !begins_test(tokens, place) {
        return Ok((returning(alloc, token.span)?, place));
    }
    let value = tests(alloc, tokens, place)?;
    let place = value.place;
    Ok((returning_value(alloc, value.expr, token.span)?, place))
}

#[tactic(auto, using(crate::proofs::LineReading::raising))]
fn raised(alloc: Global, tokens: &[Token], place: Place) -> Result<(Box<Stmt>, Place), ParseError>
    ensures read { Gives stmt_seen result (reads_sym tokens.now RAISE place) }
    ensures moves { IfOk result (λ x. MovesTo tokens.now place x.1) }
{
    let (token, place) = accept_key(tokens, place, Key::Raise)?;
    if !begins_test(tokens, place) {
        return Ok((raising(alloc, token.span)?, place));
    }
    let value = test(alloc, tokens, place)?;
    let place = value.place;
    Ok((raising_value(alloc, value.expr, token.span)?, place))
}

#[tactic(auto, using(crate::proofs::LineReading::asserting))]
fn asserted(alloc: Global, tokens: &[Token], place: Place) -> Result<(Box<Stmt>, Place), ParseError>
    ensures read { Gives stmt_seen result (reads_sym tokens.now ASSERT place) }
    ensures moves { IfOk result (λ x. MovesTo tokens.now place x.1) }
{
    let (token, place) = accept_key(tokens, place, Key::Assert)?;
    let condition = test(alloc, tokens, place)?;
    let place = condition.place;
    if !sees_sign(tokens, place, Sign::Comma) {
        return Ok((asserting(alloc, condition.expr, token.span)?, place));
    }
    let message = test_behind(alloc, tokens, place, Sign::Comma)?;
    let place = message.place;
    Ok((
        asserting_with(alloc, condition.expr, message.expr, token.span)?,
        place,
    ))
}

#[tactic(auto, using(crate::proofs::LineReading::deleting))]
fn deleted(alloc: Global, tokens: &[Token], place: Place) -> Result<(Box<Stmt>, Place), ParseError>
    ensures read { Gives stmt_seen result (reads_sym tokens.now DEL place) }
    ensures moves { IfOk result (λ x. MovesTo tokens.now place x.1) }
{
    let (token, place) = accept_key(tokens, place, Key::Del)?;
    let target = test(alloc, tokens, place)?;
    let place = target.place;
    Ok((deleting(alloc, target.expr, token.span)?, place))
}
