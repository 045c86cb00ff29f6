//! Tokens without their places.
ghost use Rattle.std.specs.Prelude.{◌≡◌, ◌<◌, length};
ghost use Rattle.py_lexer.specs.Pieces as spec;
ghost use Rattle.py_lexer.specs.Reading.{Reads, Shortens};

use crate::fault::LexError;
use crate::number::{begins_number, number};
use crate::placed::{Placed, character_at};
use crate::sign::sign_at;
use crate::string::{begins_string, string_at};
use crate::word::word;
use py_lexer_words::begins_name;
use py_syntax::TokenKind;
use std::alloc::Global;

/// The token at the front of a rest, and the rest behind it.
#[tactic(auto, unfolding(crate::specs::Pieces::lexeme))]
pub(crate) fn lexeme(alloc: Global, rest: &[Placed]) -> Result<(TokenKind, &[Placed]), LexError>
    requires { 0 < length rest.now }
    ensures value { Reads (λ k. k) result (spec.lexeme rest.now) }
    ensures shorter { Shortens rest.now result }
{
    if begins_number(rest) {
        number(rest)
    } else if begins_string(rest) {
        string_at(alloc, rest)
    } else if begins_name(character_at(rest, 0)) {
        word(alloc, rest)
    } else {
        sign_at(rest)
    }
}
