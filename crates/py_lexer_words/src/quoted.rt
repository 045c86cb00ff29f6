//! A text in quotes that stands for a name, as annotations have them.
ghost use Rattle.std.specs.Prelude.{◌≡◌, find, IfOk};
ghost use Rattle.std.specs.Str.{bytes_eq};
ghost use Rattle.py_syntax.specs.Texts.{key_text};
ghost use Rattle.py_lexer_words.specs.Words as spec;

use crate::identifier::{characters, is_identifier, text_of};
use py_syntax::Key;
use std::alloc::Global;
use unicode_normalization::slice::extend_nfkc;
use value_core::{Memory, Name, Text};

/// The name that a text stands for: the normal form of its characters, where they are one identifier and no keyword.
pub fn name_in_quotes(alloc: Global, text: &Text) -> Result<Option<Name>, Memory>
    ensures { IfOk result (λ name. name ≡ spec.name_in_quotes text.now) }
{
    let written = characters(alloc, text.as_str())?;
    if !may_be_name(&written) {
        return Ok(None);
    }
    let mut normal = Vec::new(alloc);
    extend_nfkc(&mut normal, &written)?;
    if !is_identifier(&normal) {
        return Ok(None);
    }
    Ok(Some(Name::from_string(text_of(alloc, &normal)?)))
}

fn may_be_name(written: &[char]) -> bool
    ensures { result ≡ spec.may_be_name written.now }
{
    is_identifier(written) && key_among(&Key::ALL, written).is_none()
}

fn key_among(keys: &[Key], written: &[char]) -> Option<Key>
    ensures { result ≡ find (λ k. bytes_eq (key_text k) written.now) keys.now }
{
    keys.iter()
        .copied()
        .find(|key| are_those(written, key.text()))
}

/// Whether characters are those of a text, which is ASCII.
fn are_those(written: &[char], text: &str) -> bool
    ensures { result ≡ bytes_eq text.now written.now }
{
    let mut left = written;
    let mut right = text.as_bytes();
    while let [c, more @ ..] = left {
        let [b, others @ ..] = right else {
            return false;
        };
        if u32::from(*c) != u32::from(*b) {
            return false;
        }
        left = more;
        right = others;
    }
    right.is_empty()
}
