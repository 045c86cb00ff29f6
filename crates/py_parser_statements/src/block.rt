//! Statements with blocks. A cycle of calls goes down the blocks.
ghost use Rattle.std.specs.Prelude.{[], ◌∷◌, map, IfOk};
ghost use Rattle.py_syntax.specs.Statements.{stmt_tree, handler_tree};
ghost use Rattle.py_parser_grammar.specs.Grammar.{STMT, BLOCK, IF, ARM, WHILE, FOR, TRY, EXCEPT, FINALLY};
ghost use Rattle.py_parser_grammar.specs.Readings.{reads_sym};
ghost use Rattle.py_parser_statements.specs.Suites.{reads_suite};
ghost use Rattle.py_parser_statements.specs.Blocks.{reads_compound, reads_stmts, reads_arms, reads_handlers, reads_handled, reads_else};
ghost use Rattle.py_parser_cursor.specs.Gives.{Gives};
ghost use Rattle.py_parser_cursor.specs.Moves.{MovesTo, MovesUpTo};
ghost use Rattle.py_parser_statements.specs.Statements.{stmt_seen, stmts_seen, caught_seen, arm_seen, handler_seen, arms_seen, handlers_seen, handled_seen, reads_caught};
ghost use Rattle.py_parser_nodes.specs.Parts.{arm_boxed};

use crate::simple::simple;
use py_parser_cursor::fault::ParseError;
use py_parser_cursor::names::maybe_as;
use py_parser_cursor::place::{accept, accept_key, accept_sign, sees, sees_any, sees_key};
use py_parser_cursor::starts::{COMPOUND, begins_stmt, begins_test};
use py_parser_expressions::behind::tests_behind;
use py_parser_expressions::expression::test;
use py_parser_expressions::target::targets;
use py_parser_grammar::{Place, Terminal};
use py_parser_nodes::append::{append, push_arm, push_handler, row_of};
use py_parser_nodes::statement::{fors, handling, ifs, tries, whiles};
use py_syntax::{Expr, Handler, Key, Sign, Stmt, Token};
use std::alloc::Global;
use value_core::{Many, Name};

/// A line of statements, or one statement with blocks.
#[cycle(block)]
#[tactic(auto, using(crate::proofs::BlockReading::statements))]
pub fn stmt(
    alloc: Global,
    tokens: &[Token],
    place: Place,
) -> Result<(Many<Stmt>, Place), ParseError>
    ensures read { Gives stmts_seen result (reads_sym tokens.now STMT place) }
    ensures moves { IfOk result (λ x. MovesTo tokens.now place x.1) }
{
    if sees_any(tokens, place, &COMPOUND) {
        let (one, place) = compound(alloc, tokens, place)?;
        return Ok((row_of(alloc, one)?, place));
    }
    simple(alloc, tokens, place)
}

// One statement with blocks.
#[cycle(block)]
#[tactic(auto, unfolding(crate::specs::Blocks::reads_compound))]
fn compound(alloc: Global, tokens: &[Token], place: Place) -> Result<(Box<Stmt>, Place), ParseError>
    ensures read { Gives stmt_seen result (reads_compound tokens.now place) }
    ensures moves { IfOk result (λ x. MovesTo tokens.now place x.1) }
{
    if sees_key(tokens, place, Key::If) {
        return if_stmt(alloc, tokens, place);
    }
    if sees_key(tokens, place, Key::While) {
        return while_stmt(alloc, tokens, place);
    }
    if sees_key(tokens, place, Key::For) {
        return for_stmt(alloc, tokens, place);
    }
    try_stmt(alloc, tokens, place)
}

// A line of statements, or indented lines.
#[cycle(block)]
#[tactic(auto, using(crate::proofs::BlockReading::blocks))]
fn block(alloc: Global, tokens: &[Token], place: Place) -> Result<(Many<Stmt>, Place), ParseError>
    ensures read { Gives stmts_seen result (reads_sym tokens.now BLOCK place) }
    ensures moves { IfOk result (λ x. MovesTo tokens.now place x.1) }
{
    if !sees(tokens, place, Terminal::Newline) {
        return simple(alloc, tokens, place);
    }
    let (_, place) = accept(tokens, place, Terminal::Newline)?;
    let (_, place) = accept(tokens, place, Terminal::Indent)?;
    let (first, place) = stmt(alloc, tokens, place)?;
    let (found, place) = stmts(alloc, tokens, first, place)?;
    let (_, place) = accept(tokens, place, Terminal::Dedent)?;
    Ok((found, place))
}

/// A block behind a colon.
#[cycle(block)]
#[tactic(auto, unfolding(crate::specs::Suites::reads_suite))]
pub fn suite(
    alloc: Global,
    tokens: &[Token],
    place: Place,
) -> Result<(Many<Stmt>, Place), ParseError>
    ensures read { Gives stmts_seen result (reads_suite tokens.now place) }
    ensures moves { IfOk result (λ x. MovesTo tokens.now place x.1) }
{
    let (_, place) = accept_sign(tokens, place, Sign::Colon)?;
    block(alloc, tokens, place)
}

// Any number of statements, behind those in front of them.
#[cycle(block)]
#[tactic(auto, using(crate::proofs::BlockReading::stmt_rows))]
fn stmts(
    alloc: Global,
    tokens: &[Token],
    front: Many<Stmt>,
    place: Place,
) -> Result<(Many<Stmt>, Place), ParseError>
    ensures read { Gives stmts_seen result (reads_stmts tokens.now (map stmt_tree front) place) }
    ensures moves { IfOk result (λ x. MovesUpTo tokens.now place x.1) }
{
    let mut found = front;
    let mut place = place;
    'stmts: while begins_stmt(tokens, place) {
        let (more, next) = stmt(alloc, tokens, place)?;
        found = append(found, more)?;
        place = next;
    }
    Ok((found, place))
}

// A test with its block.
#[cycle(block)]
#[tactic(auto, using(crate::proofs::BlockReading::arm))]
fn arm(
    alloc: Global,
    tokens: &[Token],
    place: Place,
) -> Result<((Box<Expr>, Many<Stmt>), Place), ParseError>
    ensures read { Gives arm_seen result (reads_sym tokens.now ARM place) }
    ensures moves { IfOk result (λ x. MovesTo tokens.now place x.1) }
{
    let condition = test(alloc, tokens, place)?;
    let (body, place) = suite(alloc, tokens, condition.place)?;
    Ok(((condition.expr, body), place))
}

#[cycle(block)]
#[tactic(auto, using(crate::proofs::BlockReading::ifs))]
fn if_stmt(alloc: Global, tokens: &[Token], place: Place) -> Result<(Box<Stmt>, Place), ParseError>
    ensures read { Gives stmt_seen result (reads_sym tokens.now IF place) }
    ensures moves { IfOk result (λ x. MovesTo tokens.now place x.1) }
{
    let (token, place) = accept_key(tokens, place, Key::If)?;
    let (first, place) = arm(alloc, tokens, place)?;
    let (arms, place) = arms(alloc, tokens, first, place)?;
    let (other, place) = else_block(alloc, tokens, place)?;
    Ok((ifs(alloc, arms, other, token.span)?, place))
}

// The arms of an `if`: the first one, and one behind each `elif`.
#[cycle(block)]
#[tactic(auto, using(crate::proofs::BlockReading::arm_rows))]
fn arms(
    alloc: Global,
    tokens: &[Token],
    first: (Box<Expr>, Many<Stmt>),
    place: Place,
) -> Result<(Many<(Expr, Many<Stmt>)>, Place), ParseError>
    ensures read { Gives arms_seen result (reads_arms tokens.now (arm_boxed first ∷ []) place) }
    ensures moves { IfOk result (λ x. MovesUpTo tokens.now place x.1) }
{
    let mut place = place;
    let mut found = push_arm(Many::new(alloc), first)?;
    'arms: while sees_key(tokens, place, Key::Elif) {
        let (_, next) = accept_key(tokens, place, Key::Elif)?;
        let (more, behind) = arm(alloc, tokens, next)?;
        found = push_arm(found, more)?;
        place = behind;
    }
    Ok((found, place))
}

// The block behind `else`, if `else` comes next.
#[cycle(block)]
#[tactic(auto, unfolding(crate::specs::Blocks::reads_else))]
fn else_block(
    alloc: Global,
    tokens: &[Token],
    place: Place,
) -> Result<(Many<Stmt>, Place), ParseError>
    ensures read { Gives stmts_seen result (reads_else tokens.now place) }
    ensures moves { IfOk result (λ x. MovesUpTo tokens.now place x.1) }
{
    if !sees_key(tokens, place, Key::Else) {
        return Ok((Many::new(alloc), place));
    }
    let (_, place) = accept_key(tokens, place, Key::Else)?;
    suite(alloc, tokens, place)
}

#[cycle(block)]
#[tactic(auto, using(crate::proofs::BlockReading::whiles))]
fn while_stmt(
    alloc: Global,
    tokens: &[Token],
    place: Place,
) -> Result<(Box<Stmt>, Place), ParseError>
    ensures read { Gives stmt_seen result (reads_sym tokens.now WHILE place) }
    ensures moves { IfOk result (λ x. MovesTo tokens.now place x.1) }
{
    let (token, place) = accept_key(tokens, place, Key::While)?;
    let condition = test(alloc, tokens, place)?;
    let (body, place) = suite(alloc, tokens, condition.place)?;
    Ok((whiles(alloc, condition.expr, body, token.span)?, place))
}

#[cycle(block)]
#[tactic(auto, using(crate::proofs::BlockReading::fors))]
fn for_stmt(alloc: Global, tokens: &[Token], place: Place) -> Result<(Box<Stmt>, Place), ParseError>
    ensures read { Gives stmt_seen result (reads_sym tokens.now FOR place) }
    ensures moves { IfOk result (λ x. MovesTo tokens.now place x.1) }
{
    let (token, place) = accept_key(tokens, place, Key::For)?;
    let target = targets(alloc, tokens, place)?;
    let all = tests_behind(alloc, tokens, target.place, Terminal::Key(Key::In))?;
    let (body, place) = suite(alloc, tokens, all.place)?;
    Ok((fors(alloc, target.expr, all.expr, body, token.span)?, place))
}

#[cycle(block)]
#[tactic(auto, using(crate::proofs::BlockReading::tries))]
fn try_stmt(alloc: Global, tokens: &[Token], place: Place) -> Result<(Box<Stmt>, Place), ParseError>
    ensures read { Gives stmt_seen result (reads_sym tokens.now TRY place) }
    ensures moves { IfOk result (λ x. MovesTo tokens.now place x.1) }
{
    let (token, place) = accept_key(tokens, place, Key::Try)?;
    let (body, place) = suite(alloc, tokens, place)?;
    let ((handlers, last), place) = handled(alloc, tokens, place)?;
    Ok((tries(alloc, body, handlers, last, token.span)?, place))
}

// The handlers of a `try`, if there are any, and the block behind `finally`, which has to come where there are none.
#[cycle(block)]
#[tactic(auto, unfolding(crate::specs::Blocks::reads_handled))]
fn handled(
    alloc: Global,
    tokens: &[Token],
    place: Place,
) -> Result<((Many<Handler>, Option<Many<Stmt>>), Place), ParseError>
    ensures read { Gives handled_seen result (reads_handled tokens.now place) }
    ensures moves { IfOk result (λ x. MovesTo tokens.now place x.1) }
{
    if !sees_key(tokens, place, Key::Except) {
        let (last, place) = finally(alloc, tokens, place)?;
        return Ok(((Many::new(alloc), Some(last)), place));
    }
    let (first, place) = handler(alloc, tokens, place)?;
    let (handlers, place) = handlers(alloc, tokens, first, place)?;
    if !sees_key(tokens, place, Key::Finally) {
        return Ok(((handlers, None), place));
    }
    let (last, place) = finally(alloc, tokens, place)?;
    Ok(((handlers, Some(last)), place))
}

#[cycle(block)]
#[tactic(auto, using(crate::proofs::BlockReading::finals))]
fn finally(alloc: Global, tokens: &[Token], place: Place) -> Result<(Many<Stmt>, Place), ParseError>
    ensures read { Gives stmts_seen result (reads_sym tokens.now FINALLY place) }
    ensures moves { IfOk result (λ x. MovesTo tokens.now place x.1) }
{
    let (_, place) = accept_key(tokens, place, Key::Finally)?;
    suite(alloc, tokens, place)
}

// The handlers of a `try`: the first one, and those behind it.
#[cycle(block)]
#[tactic(auto, using(crate::proofs::BlockReading::handler_rows))]
fn handlers(
    alloc: Global,
    tokens: &[Token],
    first: Box<Handler>,
    place: Place,
) -> Result<(Many<Handler>, Place), ParseError>
    ensures read { Gives handlers_seen result (reads_handlers tokens.now (handler_tree first.value ∷ []) place) }
    ensures moves { IfOk result (λ x. MovesUpTo tokens.now place x.1) }
{
    let mut place = place;
    let mut found = push_handler(Many::new(alloc), first)?;
    'handlers: while sees_key(tokens, place, Key::Except) {
        let (more, behind) = handler(alloc, tokens, place)?;
        found = push_handler(found, more)?;
        place = behind;
    }
    Ok((found, place))
}

#[cycle(block)]
#[tactic(auto, using(crate::proofs::BlockReading::excepts))]
fn handler(
    alloc: Global,
    tokens: &[Token],
    place: Place,
) -> Result<(Box<Handler>, Place), ParseError>
    ensures read { Gives handler_seen result (reads_sym tokens.now EXCEPT place) }
    ensures moves { IfOk result (λ x. MovesTo tokens.now place x.1) }
{
    let (token, place) = accept_key(tokens, place, Key::Except)?;
    let (caught, place) = caught(alloc, tokens, place)?;
    let (body, place) = suite(alloc, tokens, place)?;
    Ok((handling(alloc, caught, body, token.span)?, place))
}

// What a handler catches, and its name.
#[tactic(auto, unfolding(crate::specs::Statements::reads_caught))]
fn caught(
    alloc: Global,
    tokens: &[Token],
    place: Place,
) -> Result<((Option<Box<Expr>>, Option<Name>), Place), ParseError>
    ensures read { Gives caught_seen result (reads_caught tokens.now place) }
    ensures moves { IfOk result (λ x. MovesUpTo tokens.now place x.1) }
{
    if !begins_test(tokens, place) {
        return Ok(((None, None), place));
    }
    let class = test(alloc, tokens, place)?;
    let (name, place) = maybe_as(alloc, tokens, class.place)?;
    Ok(((Some(class.expr), name), place))
}
