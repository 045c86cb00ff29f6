//! Texts in quotes, read byte by byte.
ghost use Rattle.std.specs.Prelude.{◌≡◌, ◌++◌, ◌∷◌, ◌+◌, ◌/◌, ◌%◌, ◌<◌, ◌≤◌, ℕ, List, length, Some, None, IsTrue, IfOk, IfSome};
ghost use Rattle.std.specs.List.{flat_map};
ghost use Rattle.std.specs.Str.{is_utf8};
ghost use Rattle.c_core.specs.Text.{byte_text, octal};
ghost use Rattle.c_text.specs.Quotes.{FindsByte, FindsText};

use crate::word::behind;
use std::alloc::{AllocError, Global};
use value_core::{Memory, Text};

/// What three octal digits write: a byte, where they are of one.
fn octal_value(high: u8, middle: u8, low: u8) -> Option<u8>
    ensures { (b : ℕ) → b < 256 → high ≡ 48 + b / 64 → middle ≡ 48 + b / 8 % 8 → low ≡ 48 + b % 8 → result ≡ Some b }
{
    let sum = u32::from(high) * 64 + u32::from(middle) * 8 + u32::from(low);
    let zeros = u32::from(b'0') * (64 + 8 + 1);
    if sum < zeros {
        return None;
    }
    let value = sum - zeros;
    if value < 256 { Some(value as u8) } else { None }
}

/// The byte that three octal digits write, and what stands behind them.
fn octal_byte(text: &[u8]) -> Option<(u8, &[u8])>
    ensures finds { (b : ℕ) (rest : List ℕ) → b < 256 → octal b ++ rest ≡ 92 ∷ text.now → FindsByte result b rest }
    ensures shorter { IfSome result (λ p. length p.1.now < length text.now) }
{
    let [high, middle, low, rest @ ..] = text else {
        return None;
    };
    match octal_value(*high, *middle, *low) {
        Some(byte) => Some((byte, rest)),
        None => None,
    }
}

/// The byte that stands behind a backslash, and what stands behind it.
fn escaped_byte(text: &[u8]) -> Option<(u8, &[u8])>
    ensures finds { (b : ℕ) (rest : List ℕ) → byte_text b ++ rest ≡ 92 ∷ text.now → FindsByte result b rest }
    ensures shorter { IfSome result (λ p. length p.1.now < length text.now) }
{
    let [sign, rest @ ..] = text else {
        return None;
    };
    if *sign == b'n' {
        Some((b'\n', rest))
    } else if *sign == b'"' || *sign == b'\\' {
        Some((*sign, rest))
    } else {
        octal_byte(text)
    }
}

/// The next byte of a text in quotes, and what stands behind it. At the closing quote there is none.
fn quoted_byte(text: &[u8]) -> Option<(u8, &[u8])>
    ensures finds { (b : ℕ) (rest : List ℕ) → byte_text b ++ rest ≡ text.now → FindsByte result b rest }
    ensures closes { (rest : List ℕ) → 34 ∷ rest ≡ text.now → result ≡ None }
    ensures shorter { IfSome result (λ p. length p.1.now < length text.now) }
{
    let [first, rest @ ..] = text else {
        return None;
    };
    if *first == b'"' {
        None
    } else if *first == b'\\' {
        escaped_byte(rest)
    } else {
        Some((*first, rest))
    }
}

/// The bytes of a text in quotes, and the rest from its closing quote on.
fn quoted_bytes(alloc: Global, text: &[u8]) -> Result<(Vec<u8>, &[u8]), AllocError>
    ensures finds { (t rest : List ℕ) → flat_map byte_text t ++ 34 ∷ rest ≡ text.now →
        IfOk result (λ p. (p.0.items ≡ t) × (p.1.now ≡ 34 ∷ rest)) }
    ensures within { IfOk result (λ p. length p.1.now ≤ length text.now) }
{
    let mut bytes = Vec::new(alloc);
    let mut rest = text;
    while let Some((byte, after)) = quoted_byte(rest) {
        bytes.push(byte)?;
        rest = after;
    }
    Ok((bytes, rest))
}

/// A text, from behind its opening quote on, and what stands behind its closing quote.
pub(crate) fn unquoted(alloc: Global, text: &[u8]) -> Result<Option<(Text, &[u8])>, Memory>
    ensures finds { (t rest : List ℕ) → IsTrue (is_utf8 t) → flat_map byte_text t ++ 34 ∷ rest ≡ text.now →
        IfOk result (λ found. FindsText found t rest) }
    ensures spelled { IfOk result (λ found. IfSome found (λ p. IsTrue (is_utf8 p.0))) }
    ensures within { IfOk result (λ found. IfSome found (λ p. length p.1.now ≤ length text.now)) }
{
    let (bytes, rest) = quoted_bytes(alloc, text)?;
    let Some(after) = behind(rest, b"\"") else {
        return Ok(None);
    };
    match String::from_utf8(bytes) {
        Ok(text) => Ok(Some((Text::from_string(text), after))),
        Err(_) => Ok(None),
    }
}
