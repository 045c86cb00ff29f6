//! Statements that begin with expressions.
ghost use Rattle.std.specs.Prelude.{IfOk};
ghost use Rattle.py_parser_grammar.specs.Grammar.{PLAIN};
ghost use Rattle.py_parser_grammar.specs.Readings.{reads_sym};
ghost use Rattle.py_parser_cursor.specs.Gives.{Gives};
ghost use Rattle.py_parser_expressions.specs.Parsed.{piece_of};
ghost use Rattle.py_parser_cursor.specs.Moves.{MovesTo};
ghost use Rattle.py_parser_statements.specs.Statements.{stmt_seen, reads_annotated, reads_assigned, reads_given, reads_changed};

use py_parser_cursor::augmenting::augmenting;
use py_parser_cursor::fault::ParseError;
use py_parser_cursor::place::{sees_any, sees_sign};
use py_parser_expressions::behind::tests_behind;
use py_parser_expressions::expression::{test_behind, tests};
use py_parser_expressions::parsed::Parsed;
use py_parser_grammar::{Place, Terminal};
use py_parser_nodes::statement::{alone, annotating, annotating_with, assigning, augmented};
use py_syntax::{Sign, Stmt, Token};
use std::alloc::Global;

/// What stands between a target and what is assigned to it.
const ASSIGNING: [Terminal; 9] = [
    Terminal::Sign(Sign::Colon),
    Terminal::Sign(Sign::Assign),
    Terminal::Sign(Sign::PlusAssign),
    Terminal::Sign(Sign::MinusAssign),
    Terminal::Sign(Sign::StarAssign),
    Terminal::Sign(Sign::SlashSlashAssign),
    Terminal::Sign(Sign::PercentAssign),
    Terminal::Sign(Sign::ShlAssign),
    Terminal::Sign(Sign::ShrAssign),
];

/// A statement that begins with expressions: alone, or with what is assigned to them.
#[tactic(auto, using(crate::proofs::LineReading::plain_split))]
pub fn of_tests(
    alloc: Global,
    tokens: &[Token],
    place: Place,
) -> Result<(Box<Stmt>, Place), ParseError>
    ensures read { Gives stmt_seen result (reads_sym tokens.now PLAIN place) }
    ensures moves { IfOk result (λ x. MovesTo tokens.now place x.1) }
{
    let target = tests(alloc, tokens, place)?;
    if sees_any(tokens, target.place, &ASSIGNING) {
        return assigned(alloc, tokens, target);
    }
    let place = target.place;
    Ok((alone(alloc, target.expr, target.begin)?, place))
}

// What is assigned to a target, or its annotation.
#[tactic(auto, unfolding(crate::specs::Statements::reads_assigned))]
fn assigned(
    alloc: Global,
    tokens: &[Token],
    target: Parsed,
) -> Result<(Box<Stmt>, Place), ParseError>
    ensures read { Gives stmt_seen result (reads_assigned tokens.now (piece_of target) target.place) }
    ensures moves { IfOk result (λ x. MovesTo tokens.now target.place x.1) }
{
    if sees_sign(tokens, target.place, Sign::Colon) {
        return annotated(alloc, tokens, target);
    }
    if sees_sign(tokens, target.place, Sign::Assign) {
        return given(alloc, tokens, target);
    }
    changed(alloc, tokens, target)
}

// A value that is assigned to a target.
#[tactic(auto, unfolding(crate::specs::Statements::reads_given))]
fn given(alloc: Global, tokens: &[Token], target: Parsed) -> Result<(Box<Stmt>, Place), ParseError>
    ensures read { Gives stmt_seen result (reads_given tokens.now (piece_of target) target.place) }
    ensures moves { IfOk result (λ x. MovesTo tokens.now target.place x.1) }
{
    let value = tests_behind(alloc, tokens, target.place, Terminal::Sign(Sign::Assign))?;
    let place = value.place;
    Ok((
        assigning(alloc, target.expr, value.expr, target.begin)?,
        place,
    ))
}

// An operator by which a target is changed, and its other operand.
#[tactic(auto, unfolding(crate::specs::Statements::reads_changed))]
fn changed(
    alloc: Global,
    tokens: &[Token],
    target: Parsed,
) -> Result<(Box<Stmt>, Place), ParseError>
    ensures read { Gives stmt_seen result (reads_changed tokens.now (piece_of target) target.place) }
    ensures moves { IfOk result (λ x. MovesTo tokens.now target.place x.1) }
{
    let (op, place) = augmenting(tokens, target.place)?;
    let value = tests(alloc, tokens, place)?;
    let place = value.place;
    Ok((
        augmented(alloc, target.expr, op, value.expr, target.begin)?,
        place,
    ))
}

// An annotation behind a target, and what is assigned to it, if anything is.
#[tactic(auto, unfolding(crate::specs::Statements::reads_annotated))]
fn annotated(
    alloc: Global,
    tokens: &[Token],
    target: Parsed,
) -> Result<(Box<Stmt>, Place), ParseError>
    ensures read { Gives stmt_seen result (reads_annotated tokens.now (piece_of target) target.place) }
    ensures moves { IfOk result (λ x. MovesTo tokens.now target.place x.1) }
{
    let annotation = test_behind(alloc, tokens, target.place, Sign::Colon)?;
    let place = annotation.place;
    if !sees_sign(tokens, place, Sign::Assign) {
        return Ok((
            annotating(alloc, target.expr, annotation.expr, target.begin)?,
            place,
        ));
    }
    let value = tests_behind(alloc, tokens, place, Terminal::Sign(Sign::Assign))?;
    let place = value.place;
    Ok((
        annotating_with(
            alloc,
            target.expr,
            annotation.expr,
            value.expr,
            target.begin,
        )?,
        place,
    ))
}
