//! Words of a line: what stands before or behind known bytes, names and numbers.
ghost use Rattle.std.specs.Prelude.{◌≡◌, ◌≢◌, ◌++◌, ◌∷◌, ◌<◌, ◌≤◌, ◌==◌, ◌↔◌, ℤ, ℕ, List, length, Some, false, IsTrue, IfOk, IfSome, MatchOption};
ghost use Rattle.std.specs.Fmt.{signed_decimal};
ghost use Rattle.std.specs.List.{list_any, position_from};
ghost use Rattle.value_core.specs.Arithmetic.{lies_within};
ghost use Rattle.c_core.specs.declared.code.CLit.{CLit};
ghost use Rattle.c_core.specs.Text.{indented, literal_text};
ghost use Rattle.c_core.specs.WellFormed.{is_identifier, spelled_literal};
ghost use Rattle.c_text.specs.Braces.{EndsItem, is_item_end};
ghost use Rattle.c_text.specs.Labels.{FindsLabel};
ghost use Rattle.c_text.specs.Words.{HasNo, IsCut, EndsArgument};

use c_core::{CLit, is_identifier};
use std::alloc::Global;
use std::str;
use value_core::{Memory, Name};

/// What stands behind a prefix.
pub(crate) fn behind<'a>(bytes: &'a [u8], prefix: &[u8]) -> Option<&'a [u8]>
    ensures { MatchOption result ((rest : List ℕ) → bytes.now ≢ prefix.now ++ rest) (λ rest. bytes.now ≡ prefix.now ++ rest.now) }
{
    bytes.strip_prefix(prefix)
}

/// What stands behind a prefix where a text begins with it, and else the text.
pub(crate) fn past<'a>(text: &'a [u8], prefix: &[u8]) -> &'a [u8]
    ensures some { (rest : List ℕ) → text.now ≡ prefix.now ++ rest → result.now ≡ rest }
    ensures none { ((rest : List ℕ) → text.now ≢ prefix.now ++ rest) → result.now ≡ text.now }
    ensures within { length result.now ≤ length text.now }
{
    match behind(text, prefix) {
        Some(rest) => rest,
        None => text,
    }
}

/// What stands before a suffix.
pub(crate) fn before<'a>(bytes: &'a [u8], suffix: &[u8]) -> Option<&'a [u8]>
    ensures { MatchOption result ((front : List ℕ) → bytes.now ≢ front ++ suffix.now) (λ front. bytes.now ≡ front.now ++ suffix.now) }
{
    bytes.strip_suffix(suffix)
}

/// What stands between the spaces and the semicolon of a line.
pub(crate) fn inside_line(piece: &[u8]) -> Option<&[u8]>
    ensures { MatchOption result ((text : List ℕ) → indented text ≢ piece.now) (λ text. indented text.now ≡ piece.now) }
{
    let Some(rest) = behind(piece, b"    ") else {
        return None;
    };
    match before(rest, b";") {
        Some(text) => Some(text),
        None => None,
    }
}

/// The first place of a byte.
pub(crate) fn place_of(bytes: &[u8], stop: u8) -> Option<usize>
    ensures value { result ≡ position_from (λ b. b == stop) 0 bytes.now }
    ensures within { IfSome result (λ place. place < length bytes.now) }
{
    bytes.iter().position(|byte| *byte == stop)
}

/// What stands before the first byte of this value, and what behind it.
pub(crate) fn cut(bytes: &[u8], stop: u8) -> Option<(&[u8], &[u8])>
    ensures { MatchOption result (HasNo stop bytes.now) (λ p. IsCut stop p.0.now p.1.now bytes.now) }
{
    match place_of(bytes, stop) {
        Some(place) => Some((&bytes[..place], &bytes[place + 1..])),
        None => None,
    }
}

/// What stands before the first comma, and the rest from there on.
pub(crate) fn up_to_comma(bytes: &[u8]) -> (&[u8], &[u8])
    ensures finds { (front rest : List ℕ) → HasNo 44 front → EndsArgument rest → front ++ rest ≡ bytes.now →
        (result.0.now ≡ front) × (result.1.now ≡ rest) }
    ensures whole { result.0.now ++ result.1.now ≡ bytes.now }
    ensures within { length result.1.now ≤ length bytes.now }
{
    match place_of(bytes, b',') {
        Some(place) => bytes.split_at(place),
        None => (bytes, &[]),
    }
}

/// The first place of a comma or a closing brace.
fn place_of_end(bytes: &[u8]) -> Option<usize>
    ensures value { result ≡ position_from is_item_end 0 bytes.now }
    ensures within { IfSome result (λ place. place < length bytes.now) }
{
    bytes.iter().position(|byte| *byte == b',' || *byte == b'}')
}

/// What stands before the first comma or closing brace, and the rest from there on.
pub(crate) fn up_to_end(bytes: &[u8]) -> (&[u8], &[u8])
    ensures finds { (front rest : List ℕ) → list_any is_item_end front ≡ false → EndsItem rest → front ++ rest ≡ bytes.now →
        (result.0.now ≡ front) × (result.1.now ≡ rest) }
    ensures within { length result.1.now ≤ length bytes.now }
{
    match place_of_end(bytes) {
        Some(place) => bytes.split_at(place),
        None => (bytes, &[]),
    }
}

/// The bytes as an identifier.
pub(crate) fn identifier(bytes: &[u8]) -> Option<&str>
    ensures { MatchOption result (is_identifier bytes.now ≡ false) (λ text. (text.now ≡ bytes.now) × IsTrue (is_identifier bytes.now)) }
{
    let Ok(text) = str::from_utf8(bytes) else {
        return None;
    };
    if is_identifier(text) {
        Some(text)
    } else {
        None
    }
}

/// The bytes as a name, where they are an identifier.
pub(crate) fn name(alloc: Global, bytes: &[u8]) -> Result<Option<Name>, Memory>
    ensures { IfOk result (λ found. MatchOption found (is_identifier bytes.now ≡ false) (λ name. (name ≡ bytes.now) × IsTrue (is_identifier bytes.now))) }
{
    match identifier(bytes) {
        Some(text) => {
            let name = Name::from_str(alloc, text)?;
            Ok(Some(name))
        }
        None => Ok(None),
    }
}

/// The number that the bytes write.
pub(crate) fn number(bytes: &[u8]) -> Option<i64>
    ensures finds { (n : ℤ) → IsTrue (lies_within 63 n) → signed_decimal n ≡ bytes.now → result ≡ Some n }
    ensures within { IfSome result (λ n. IsTrue (lies_within 63 n)) }
{
    let Ok(text) = str::from_utf8(bytes) else {
        return None;
    };
    match text.parse::<i64>() {
        Ok(number) => Some(number),
        Err(_) => None,
    }
}

/// The number of a label that the bytes write.
pub(crate) fn label(bytes: &[u8]) -> Option<usize>
    ensures { FindsLabel bytes.now result }
{
    let Ok(text) = str::from_utf8(bytes) else {
        return None;
    };
    match text.parse::<usize>() {
        Ok(number) => Some(number),
        Err(_) => None,
    }
}

/// Whether the bytes are this word.
pub(crate) fn is(bytes: &[u8], word: &[u8]) -> bool
    ensures { IsTrue result ↔ (bytes.now ≡ word.now) }
{
    bytes == word
}

/// The literal that the bytes write.
pub(crate) fn literal(bytes: &[u8]) -> Option<CLit>
    ensures finds { (l : CLit) → IsTrue (spelled_literal l) → literal_text l ≡ bytes.now → result ≡ Some l }
    ensures spelled { IfSome result (λ l. IsTrue (spelled_literal l)) }
{
    if is(bytes, b"NULL") {
        Some(CLit::Null)
    } else if is(bytes, b"Py_None") {
        Some(CLit::PyNone)
    } else if is(bytes, b"Py_True") {
        Some(CLit::PyTrue)
    } else if is(bytes, b"Py_False") {
        Some(CLit::PyFalse)
    } else {
        match number(bytes) {
            Some(number) => Some(CLit::Number(number)),
            None => None,
        }
    }
}
