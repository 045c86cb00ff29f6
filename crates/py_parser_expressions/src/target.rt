//! What a `for` assigns to.
ghost use Rattle.std.specs.Prelude.{map, IfOk};
ghost use Rattle.py_syntax.specs.Expressions.{expr_tree};
ghost use Rattle.py_parser_grammar.specs.Grammar.{TARGETS, BOR};
ghost use Rattle.py_parser_grammar.specs.Readings.{reads_expr};
ghost use Rattle.py_parser_cursor.specs.Gives.{Gives};
ghost use Rattle.py_parser_expressions.specs.Parsed.{seen, exprs_seen, Moves, AreExprs};
ghost use Rattle.py_parser_cursor.specs.Moves.{MovesUpTo};
ghost use Rattle.py_parser_expressions.specs.Rows.{fronted, reads_trees};

use crate::chain::chain;
use crate::join::tuple;
use crate::parsed::{Parsed, Row};
use crate::row::{no_row, push_expr};
use py_parser_cursor::fault::ParseError;
use py_parser_cursor::operator::Level;
use py_parser_cursor::place::{accept_sign, sees_sign};
use py_parser_cursor::starts::begins_operand;
use py_parser_grammar::Place;
use py_syntax::{Expr, Sign, Token};
use std::alloc::Global;

/// What a `for` assigns to: one operand, or several between commas, which are a tuple.
#[tactic(auto, using(crate::proofs::ExprEquations::targets_eq))]
pub fn targets(alloc: Global, tokens: &[Token], place: Place) -> Result<Parsed, ParseError>
    ensures read { Gives seen result (reads_expr tokens.now TARGETS place) }
    ensures moves { IfOk result (λ x. Moves tokens.now place x) }
{
    let first = chain(alloc, tokens, place, Level::Bar)?;
    if !sees_sign(tokens, first.place, Sign::Comma) {
        return Ok(first);
    }
    let begin = first.begin;
    let (_, next) = accept_sign(tokens, first.place, Sign::Comma)?;
    let found = push_expr(no_row(alloc, next), first)?;
    let items = operands(alloc, tokens, found, next)?;
    tuple(alloc, items, begin)
}

// Operands between commas, or none, and a last comma, from a place on, behind those in front of them.
#[tactic(auto, using(crate::proofs::RowReading::expr_rows))]
fn operands(
    alloc: Global,
    tokens: &[Token],
    front: Row<Expr>,
    place: Place,
) -> Result<Row<Expr>, ParseError>
    requires { AreExprs front }
    ensures read { Gives exprs_seen result (fronted (map expr_tree front.list) (reads_trees tokens.now BOR place)) }
    ensures moves { IfOk result (λ x. MovesUpTo tokens.now place x.place) }
    ensures row { IfOk result AreExprs }
{
    let mut found = front;
    let mut next = place;
    'operands: while begins_operand(tokens, next) {
        let item = chain(alloc, tokens, next, Level::Bar)?;
        found = push_expr(found, item)?;
        if !sees_sign(tokens, found.place, Sign::Comma) {
            return Ok(found);
        }
        let (_, behind) = accept_sign(tokens, found.place, Sign::Comma)?;
        next = behind;
    }
    Ok(Row {
        list: found.list,
        level: found.level,
        place: next,
    })
}
