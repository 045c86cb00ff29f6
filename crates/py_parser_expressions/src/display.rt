//! Names, literals, and what stands in brackets.
ghost use Rattle.std.specs.Prelude.{map, IfOk};
ghost use Rattle.py_syntax.specs.Expressions.{entry_tree};
ghost use Rattle.py_parser_grammar.specs.Grammar.{ATOM, ENTRY};
ghost use Rattle.py_parser_grammar.specs.Readings.{reads_expr, reads_sym};
ghost use Rattle.py_parser_expressions.specs.Brackets.{reads_group, reads_list, reads_dict};
ghost use Rattle.py_parser_cursor.specs.Gives.{Gives};
ghost use Rattle.py_parser_expressions.specs.Parsed.{seen, entries_seen, Moves, AreEntries};
ghost use Rattle.py_parser_cursor.specs.Moves.{MovesTo, MovesUpTo};
ghost use Rattle.py_parser_expressions.specs.Rows.{one_more, reads_row};

use crate::atom::literal;
use crate::expression::{items, test, test_behind, tests};
use crate::join::{dict_display, grouped, leaf, list_display};
use crate::parsed::{Parsed, Row};
use crate::row::{no_row, push_entry};
use py_parser_cursor::fault::ParseError;
use py_parser_cursor::place::{accept_sign, sees_sign};
use py_parser_cursor::starts::{begins_literal, begins_test};
use py_parser_grammar::Place;
use py_syntax::{Expr, ExprKind, Sign, Token};
use std::alloc::Global;
use value_core::Many;

// A name, a literal, or what stands in brackets.
#[cycle(expression)]
#[tactic(auto, using(crate::proofs::ExprEquations::atom_eq))]
pub fn atom(alloc: Global, tokens: &[Token], place: Place) -> Result<Parsed, ParseError>
    ensures read { Gives seen result (reads_expr tokens.now ATOM place) }
    ensures moves { IfOk result (λ x. Moves tokens.now place x) }
{
    if begins_literal(tokens, place) {
        return literal(alloc, tokens, place);
    }
    if sees_sign(tokens, place, Sign::LeftParen) {
        return group(alloc, tokens, place);
    }
    if sees_sign(tokens, place, Sign::LeftSquare) {
        return list(alloc, tokens, place);
    }
    dict(alloc, tokens, place)
}

// A list display.
#[cycle(expression)]
#[tactic(auto, using(crate::proofs::Fronts::fronted_nil), unfolding(crate::specs::Brackets::reads_list))]
fn list(alloc: Global, tokens: &[Token], place: Place) -> Result<Parsed, ParseError>
    ensures read { Gives seen result (reads_list tokens.now place) }
    ensures moves { IfOk result (λ x. Moves tokens.now place x) }
{
    let (open, place) = accept_sign(tokens, place, Sign::LeftSquare)?;
    let found = items(alloc, tokens, no_row(alloc, place), place)?;
    let (_, place) = accept_sign(tokens, found.place, Sign::RightSquare)?;
    list_display(alloc, found, open.span, place)
}

// A dict display.
#[cycle(expression)]
#[tactic(auto, unfolding(crate::specs::Brackets::reads_dict))]
fn dict(alloc: Global, tokens: &[Token], place: Place) -> Result<Parsed, ParseError>
    ensures read { Gives seen result (reads_dict tokens.now place) }
    ensures moves { IfOk result (λ x. Moves tokens.now place x) }
{
    let (open, place) = accept_sign(tokens, place, Sign::LeftBrace)?;
    let found = entries(alloc, tokens, place)?;
    let (_, place) = accept_sign(tokens, found.place, Sign::RightBrace)?;
    dict_display(alloc, found, open.span, place)
}

// Brackets that group, or that are an empty tuple.
#[cycle(expression)]
#[tactic(auto, unfolding(crate::specs::Brackets::reads_group))]
fn group(alloc: Global, tokens: &[Token], place: Place) -> Result<Parsed, ParseError>
    ensures read { Gives seen result (reads_group tokens.now place) }
    ensures moves { IfOk result (λ x. Moves tokens.now place x) }
{
    let (open, place) = accept_sign(tokens, place, Sign::LeftParen)?;
    if begins_test(tokens, place) {
        let inner = tests(alloc, tokens, place)?;
        let (_, place) = accept_sign(tokens, inner.place, Sign::RightParen)?;
        return Ok(grouped(inner, open.span, place));
    }
    let (_, place) = accept_sign(tokens, place, Sign::RightParen)?;
    let kind = ExprKind::Tuple(Many::new(alloc));
    leaf(alloc, kind, open.span, place)
}

// Keys with their values between commas, or none, and a last comma.
#[cycle(expression)]
#[tactic(auto, using(crate::proofs::RowReading::part_rows))]
fn entries(alloc: Global, tokens: &[Token], place: Place) -> Result<Row<(Expr, Expr)>, ParseError>
    ensures read { Gives entries_seen result (reads_row tokens.now ENTRY place) }
    ensures moves { IfOk result (λ x. MovesUpTo tokens.now place x.place) }
    ensures row { IfOk result AreEntries }
{
    let mut found = no_row(alloc, place);
    let mut next = place;
    'entries: while begins_test(tokens, next) {
        found = entry(alloc, tokens, found, next)?;
        if !sees_sign(tokens, found.place, Sign::Comma) {
            return Ok(found);
        }
        let (_, behind) = accept_sign(tokens, found.place, Sign::Comma)?;
        next = behind;
    }
    Ok(Row {
        list: found.list,
        level: found.level,
        place: next,
    })
}

// One key with its value more, from a place on.
#[cycle(expression)]
#[tactic(auto, using(crate::proofs::ExprEquations::entry_eq))]
fn entry(
    alloc: Global,
    tokens: &[Token],
    found: Row<(Expr, Expr)>,
    place: Place,
) -> Result<Row<(Expr, Expr)>, ParseError>
    requires { AreEntries found }
    ensures read { Gives entries_seen result (one_more (map entry_tree found.list) (reads_sym tokens.now ENTRY place)) }
    ensures moves { IfOk result (λ x. MovesTo tokens.now place x.place) }
    ensures row { IfOk result AreEntries }
{
    let key = test(alloc, tokens, place)?;
    let value = test_behind(alloc, tokens, key.place, Sign::Colon)?;
    Ok(push_entry(found, key, value)?)
}
