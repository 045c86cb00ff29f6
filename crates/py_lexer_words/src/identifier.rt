//! Identifiers, character by character.
ghost use Rattle.std.specs.Prelude.{◌≡◌, chars, string_bytes, encode_utf8_all, IfOk};
ghost use Rattle.std.specs.List.{list_all};
ghost use Rattle.unicode_ident.specs.Ident.{is_xid_continue};
ghost use Rattle.py_lexer_words.specs.Words as spec;

use std::alloc::{AllocError, Global};
use unicode_ident::{is_xid_continue, is_xid_start};

/// Whether a name may begin with a character (Python Language Reference, "Identifiers and keywords").
pub fn begins_name(c: char) -> bool
    ensures { result ≡ spec.begins_name c }
{
    c == '_' || is_xid_start(c)
}

fn all_continue(text: &[char]) -> bool
    ensures { result ≡ list_all is_xid_continue text.now }
{
    text.iter().all(|c| is_xid_continue(*c))
}

/// Whether characters are an identifier.
pub fn is_identifier(text: &[char]) -> bool
    ensures { result ≡ spec.is_python_identifier text.now }
{
    match text {
        [] => false,
        [first, more @ ..] => begins_name(*first) && all_continue(more),
    }
}

/// The characters of a text.
pub fn characters(alloc: Global, text: &str) -> Result<Vec<char>, AllocError>
    ensures { IfOk result (λ v. v.items ≡ chars text.now) }
{
    text.chars().collect(alloc)
}

/// The text of characters.
pub fn text_of(alloc: Global, text: &[char]) -> Result<String, AllocError>
    ensures { IfOk result (λ s. string_bytes s ≡ encode_utf8_all text.now) }
{
    text.iter().copied().collect(alloc)
}
