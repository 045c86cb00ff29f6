//! Integers.
ghost use Rattle.std.specs.Prelude.{◌≡◌, ◌<◌, ◌≤◌, ◌^◌, length, true, IfSome};
ghost use Rattle.py_lexer.specs.Numbers as spec;
ghost use Rattle.py_lexer.specs.Places.{characters};
ghost use Rattle.py_lexer.specs.Reading.{Reads, Shortens};

use crate::fault::{LexError, LexKind};
use crate::placed::{Placed, character_at, line_of, word_len};
use py_syntax::TokenKind;

/// Whether a number begins here, or a fraction, which is none.
pub(crate) fn begins_number(rest: &[Placed]) -> bool
    ensures { result ≡ spec.begins_number rest.now }
{
    let first = character_at(rest, 0);
    first.is_ascii_digit() || (first == '.' && character_at(rest, 1).is_ascii_digit())
}

/// The base that a letter behind a leading 0 names.
fn base_of(letter: char) -> Option<u32>
    ensures { result ≡ spec.base_of letter }
{
    match letter {
        'x' | 'X' => Some(16),
        'o' | 'O' => Some(8),
        'b' | 'B' => Some(2),
        _ => None,
    }
}

fn begins_with_digit(rest: &[Placed]) -> bool
    ensures { result ≡ spec.begins_with_digit (characters rest.now) }
{
    match rest {
        [] => false,
        [first, ..] => first.character != '_',
    }
}

/// The number that digits of a base write, each with at most one underscore before it.
#[tactic(auto, using(crate::proofs::NumberLemmas::stays_too_large))]
fn row(base: u32, all: &[Placed]) -> Option<u128>
    requires { (2 ≤ base) × (base ≤ 16) }
    ensures value { result ≡ spec.row base (characters all.now) }
    ensures fits { IfSome result (λ n. n < 2 ^ 127) }
{
    if all.is_empty() {
        return None;
    }
    let mut value: u128 = 0;
    let mut rest = all;
    while let [first, more @ ..] = rest {
        if first.character != '_' {
            let digit = first.character.to_digit(base)?;
            value = value
                .checked_mul(u128::from(base))?
                .checked_add(u128::from(digit))?;
        } else if !begins_with_digit(more) {
            return None;
        }
        rest = more;
    }
    if value > i128::MAX as u128 {
        None
    } else {
        Some(value)
    }
}

fn decimal(all: &[Placed]) -> Option<u128>
    ensures value { result ≡ spec.decimal (characters all.now) }
    ensures fits { IfSome result (λ n. n < 2 ^ 127) }
{
    let [first, ..] = all else {
        return None;
    };
    if !first.character.is_ascii_digit() {
        return None;
    }
    let value = row(10, all)?;
    if first.character == '0' && value != 0 {
        None
    } else {
        Some(value)
    }
}

/// The number that a whole word of digits, letters and underscores writes.
#[tactic(auto, using(crate::proofs::NumberLemmas::short_numeral))]
fn numeral(word: &[Placed]) -> Option<u128>
    ensures value { result ≡ spec.numeral (characters word.now) }
    ensures fits { IfSome result (λ n. n < 2 ^ 127) }
{
    match word {
        [zero, letter, behind @ ..] => {
            if zero.character != '0' {
                return decimal(word);
            }
            match base_of(letter.character) {
                Some(base) => row(base, behind),
                None => decimal(word),
            }
        }
        _ => decimal(word),
    }
}

/// A number, from its first digit or from the dot of a fraction on, and the rest behind it.
#[tactic(auto, unfolding(crate::specs::Numbers::number))]
pub(crate) fn number(rest: &[Placed]) -> Result<(TokenKind, &[Placed]), LexError>
    requires { spec.begins_number rest.now ≡ true }
    ensures value { Reads (λ k. k) result (spec.number rest.now) }
    ensures shorter { Shortens rest.now result }
{
    let fault = LexError::Fault(line_of(rest), LexKind::BadNumber);
    let (word, after) = rest.split_at(word_len(rest));
    if character_at(after, 0) == '.' {
        return Err(fault);
    }
    match numeral(word) {
        Some(value) => Ok((TokenKind::Int(value as i128), after)),
        None => Err(fault),
    }
}
