//! What tokens hold.
ghost use Rattle.std.specs.Prelude.{◌≡◌, IfOk};
ghost use Rattle.py_parser_grammar.specs.Actions.{name_of, int_in, text_in};
ghost use Rattle.py_parser_cursor.specs.Gives.{Gives};
ghost use Rattle.py_parser_cursor.specs.Texts.{reads_texts};
ghost use Rattle.py_parser_cursor.specs.Moves.{MovesUpTo};

use crate::fault::ParseError;
use crate::place::{accept, sees};
use py_parser_grammar::{Place, Terminal};
use py_syntax::{Token, TokenKind};
use std::alloc::Global;
use value_core::{Memory, Name, Text};

/// The name in a token, of which there is one, as a `str`.
pub fn name_text(token: &Token) -> &str
    ensures { result.now ≡ name_of token.now }
{
    match &token.kind {
        TokenKind::Name(name) => name.as_str(),
        _ => "",
    }
}

/// The name in a token, of which there is one.
pub fn name_of(alloc: Global, token: &Token) -> Result<Name, Memory>
    ensures { IfOk result (λ name. name ≡ name_of token.now) }
{
    Name::from_str(alloc, name_text(token))
}

/// The number in a token, of which there is one.
pub fn int_of(token: &Token) -> i128
    ensures { result ≡ int_in token.now.kind }
{
    match &token.kind {
        TokenKind::Int(value) => *value,
        _ => 0,
    }
}

fn text_of(token: &Token) -> &str
    ensures { result.now ≡ text_in token.now.kind }
{
    match &token.kind {
        TokenKind::Str(text) => text.as_str(),
        _ => "",
    }
}

/// The text in a token, with those that stand side by side behind it.
#[tactic(auto, using(crate::proofs::TextReading::texts))]
pub fn texts(
    alloc: Global,
    tokens: &[Token],
    first: &Token,
    place: Place,
) -> Result<(Text, Place), ParseError>
    ensures read { Gives (λ x. x) result (reads_texts tokens.now (text_in first.now.kind) place) }
    ensures moves { IfOk result (λ x. MovesUpTo tokens.now place x.1) }
{
    let mut place = place;
    let mut text = String::from_str(alloc, text_of(first))?;
    'texts: while sees(tokens, place, Terminal::Str) {
        let (more, next) = accept(tokens, place, Terminal::Str)?;
        text.push_str(text_of(more))?;
        place = next;
    }
    Ok((Text::from_string(text), place))
}
