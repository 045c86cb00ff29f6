//! Keywords and names.
ghost use Rattle.std.specs.Prelude.{◌≡◌, ◌<◌, length, find, true, IfOk};
ghost use Rattle.std.specs.Str.{bytes_eq};
ghost use Rattle.py_syntax.specs.Texts.{key_text, key_of};
ghost use Rattle.py_lexer_words.specs.Words.{begins_name};
ghost use Rattle.py_lexer.specs.Words as spec;
ghost use Rattle.py_lexer.specs.Places as places;
ghost use Rattle.py_lexer.specs.Reading.{Reads, Shortens};

use crate::fault::{LexError, LexKind};
use crate::placed::{Placed, line_of, word_len};
use py_lexer_words::{is_identifier, text_of};
use py_syntax::{Key, TokenKind};
use std::alloc::{AllocError, Global};
use unicode_normalization::slice::extend_nfkc;
use value_core::Name;

/// Whether characters are those of a text, which is ASCII.
pub(crate) fn is_text(word: &[Placed], text: &str) -> bool
    ensures { result ≡ bytes_eq text.now (places.characters word.now) }
{
    let mut left = word;
    let mut right = text.as_bytes();
    while let [c, more @ ..] = left {
        let [b, others @ ..] = right else {
            return false;
        };
        if u32::from(c.character) != u32::from(*b) {
            return false;
        }
        left = more;
        right = others;
    }
    right.is_empty()
}

/// The keyword that a word is, as it is written.
fn key_of(word: &[Placed]) -> Option<Key>
    ensures { result ≡ key_of (places.characters word.now) }
{
    key_among(&Key::ALL, word)
}

fn key_among(keys: &[Key], word: &[Placed]) -> Option<Key>
    ensures { result ≡ find (λ k. bytes_eq (key_text k) (places.characters word.now)) keys.now }
{
    keys.iter().copied().find(|key| is_text(word, key.text()))
}

/// The characters without their places.
fn without_places(alloc: Global, word: &[Placed]) -> Result<Vec<char>, AllocError>
    ensures { IfOk result (λ v. v.items ≡ places.characters word.now) }
{
    word.iter().map(|c| c.character).collect(alloc)
}

/// A keyword as it is written, or else a name, and the rest behind it.
#[tactic(auto, using(crate::proofs::WordLemmas::word_shorter), unfolding(crate::specs::Words::word))]
pub(crate) fn word(alloc: Global, rest: &[Placed]) -> Result<(TokenKind, &[Placed]), LexError>
    requires begins { begins_name (places.character_at 0 rest.now) ≡ true }
    ensures value { Reads (λ k. k) result (spec.word rest.now) }
    ensures shorter { Shortens rest.now result }
{
    let (written, after) = rest.split_at(word_len(rest));
    if let Some(key) = key_of(written) {
        return Ok((TokenKind::Key(key), after));
    }
    let written = without_places(alloc, written)?;
    let mut normal = Vec::new(alloc);
    extend_nfkc(&mut normal, &written)?;
    if !is_identifier(&normal) {
        return Err(LexError::Fault(line_of(rest), LexKind::BadCharacter));
    }
    let name = Name::from_string(text_of(alloc, &normal)?);
    Ok((TokenKind::Name(name), after))
}
