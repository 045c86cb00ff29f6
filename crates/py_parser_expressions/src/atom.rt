//! Names and literals.
ghost use Rattle.std.specs.Prelude.{◌≡◌, IfOk};
ghost use Rattle.py_syntax.specs.Expressions.{expr_node};
ghost use Rattle.py_parser_grammar.specs.Levels.{node_level};
ghost use Rattle.py_parser_cursor.specs.Gives.{Gives};
ghost use Rattle.py_parser_expressions.specs.Literals.{constant_node, reads_constant, reads_literal, reads_word};
ghost use Rattle.py_parser_expressions.specs.Parsed.{seen, Moves};

use crate::join::leaf;
use crate::parsed::Parsed;
use py_parser_cursor::fault::ParseError;
use py_parser_cursor::place::{accept, accept_key, sees, sees_key};
use py_parser_cursor::word::{int_of, name_of, texts};
use py_parser_grammar::{Place, Terminal};
use py_syntax::{ExprKind, Key, Token};
use std::alloc::Global;

/// A name or a literal.
#[tactic(auto, unfolding(crate::specs::Literals::reads_literal))]
pub fn literal(alloc: Global, tokens: &[Token], place: Place) -> Result<Parsed, ParseError>
    ensures read { Gives seen result (reads_literal tokens.now place) }
    ensures moves { IfOk result (λ x. Moves tokens.now place x) }
{
    if sees(tokens, place, Terminal::Name) {
        let (token, place) = accept(tokens, place, Terminal::Name)?;
        let name = name_of(alloc, token)?;
        return leaf(alloc, ExprKind::Name(name), token.span, place);
    }
    if sees(tokens, place, Terminal::Int) {
        let (token, place) = accept(tokens, place, Terminal::Int)?;
        return leaf(alloc, ExprKind::Int(int_of(token)), token.span, place);
    }
    if sees(tokens, place, Terminal::Str) {
        let (token, place) = accept(tokens, place, Terminal::Str)?;
        let (text, place) = texts(alloc, tokens, token, place)?;
        return leaf(alloc, ExprKind::Str(text), token.span, place);
    }
    constant(alloc, tokens, place)
}

// `True`, `False` or `None`.
#[tactic(auto, unfolding(crate::specs::Literals::reads_constant))]
fn constant(alloc: Global, tokens: &[Token], place: Place) -> Result<Parsed, ParseError>
    ensures read { Gives seen result (reads_constant tokens.now place) }
    ensures moves { IfOk result (λ x. Moves tokens.now place x) }
{
    if sees_key(tokens, place, Key::True) {
        return word(alloc, tokens, place, Key::True);
    }
    if sees_key(tokens, place, Key::False) {
        return word(alloc, tokens, place, Key::False);
    }
    word(alloc, tokens, place, Key::Nothing)
}

fn word(alloc: Global, tokens: &[Token], place: Place, key: Key) -> Result<Parsed, ParseError>
    ensures read { Gives seen result (reads_word tokens.now key place) }
    ensures moves { IfOk result (λ x. Moves tokens.now place x) }
{
    let (token, place) = accept_key(tokens, place, key)?;
    leaf(alloc, constant_kind(key), token.span, place)
}

fn constant_kind(key: Key) -> ExprKind
    ensures node { expr_node result ≡ constant_node key }
    ensures level { node_level (expr_node result) ≡ 1 }
{
    match key {
        Key::True => ExprKind::True,
        Key::False => ExprKind::False,
        _ => ExprKind::Nothing,
    }
}
