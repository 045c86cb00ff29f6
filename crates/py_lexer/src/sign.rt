//! Operators and delimiters.
ghost use Rattle.std.specs.Prelude.{◌≡◌, ◌<◌, length, find};
ghost use Rattle.std.specs.Str.{bytes_eq};
ghost use Rattle.py_syntax.specs.Texts.{sign_text};
ghost use Rattle.py_lexer.specs.Places.{characters};
ghost use Rattle.py_lexer.specs.Signs as spec;
ghost use Rattle.py_lexer.specs.Reading.{Reads, Shortens};

use crate::fault::{LexError, LexKind};
use crate::placed::{Placed, line_of, skip};
use crate::word::is_text;
use py_syntax::{Sign, TokenKind};

/// The sign that the first `n` characters of a rest are.
fn sign_in(n: usize, rest: &[Placed]) -> Option<Sign>
    ensures { result ≡ spec.sign_in n rest.now }
{
    match rest.get(..n) {
        Some(front) => sign_among(&Sign::ALL, front),
        None => sign_among(&Sign::ALL, rest),
    }
}

fn sign_among(signs: &[Sign], front: &[Placed]) -> Option<Sign>
    ensures { result ≡ find (λ s. bytes_eq (sign_text s) (characters front.now)) signs.now }
{
    signs
        .iter()
        .copied()
        .find(|sign| is_text(front, sign.text()))
}

/// The longest sign that fits, and the rest behind it.
#[tactic(auto, unfolding(crate::specs::Signs::sign_at))]
pub(crate) fn sign_at(rest: &[Placed]) -> Result<(TokenKind, &[Placed]), LexError>
    requires { 0 < length rest.now }
    ensures value { Reads (λ k. k) result (spec.sign_at rest.now) }
    ensures shorter { Shortens rest.now result }
{
    if let Some(sign) = sign_in(3, rest) {
        return Ok((TokenKind::Sign(sign), skip(rest, 3)));
    }
    if let Some(sign) = sign_in(2, rest) {
        return Ok((TokenKind::Sign(sign), skip(rest, 2)));
    }
    if let Some(sign) = sign_in(1, rest) {
        return Ok((TokenKind::Sign(sign), skip(rest, 1)));
    }
    Err(LexError::Fault(line_of(rest), LexKind::BadCharacter))
}
