//! Strings.
ghost use Rattle.std.specs.Prelude.{◌≡◌, ◌<◌, ◌≤◌, ◌++◌, ℕ, length, true, IfOk, OnOk, ◌∷◌, []};
ghost use Rattle.py_lexer.specs.declared.fault.LexKind.TheVariants.{BadString};
ghost use Rattle.py_lexer.specs.Strings as spec;
ghost use Rattle.py_lexer.specs.Places.{characters};
ghost use Rattle.py_lexer.specs.Words.{word_at};
ghost use Rattle.py_lexer.specs.Reading.{Reads, Shortens};
ghost use Rattle.py_lexer.specs.Remaining.{Adds};

use crate::fault::{LexError, LexKind};
use crate::placed::{Placed, character_at, line_of, skip, word_len};
use py_lexer_words::text_of;
use py_syntax::TokenKind;
use std::alloc::{AllocError, Global};
use value_core::Text;

/// What a word directly before a quote makes of the string.
#[derive(Clone, Copy)]
pub(crate) enum Prefix {
    Plain,
    Raw,
    /// A prefix of bytes or of a formatted string.
    Other,
}

/// How a string is written: its quote, whether three of them, whether raw, and the line where it begins.
#[derive(Clone, Copy)]
pub(crate) struct Style {
    quote: char,
    is_triple: bool,
    is_raw: bool,
    line: usize,
}

/// The character that a letter or a sign stands for behind a backslash.
fn simple_escape(letter: char) -> Option<char>
    ensures { result ≡ spec.simple_escape letter }
{
    match letter {
        '\\' | '\'' | '"' => Some(letter),
        'a' => Some('\u{7}'),
        'b' => Some('\u{8}'),
        't' => Some('\t'),
        'n' => Some('\n'),
        'v' => Some('\u{b}'),
        'f' => Some('\u{c}'),
        'r' => Some('\r'),
        _ => None,
    }
}

/// How many hexadecimal digits follow `\x`, `\u` and `\U`.
fn hex_len(letter: char) -> usize
    ensures value { result ≡ spec.hex_len letter }
    ensures few { result ≤ 8 }
{
    match letter {
        'x' => 2,
        'u' => 4,
        'U' => 8,
        _ => 0,
    }
}

/// Whether the string ends here.
fn closes(style: Style, rest: &[Placed]) -> bool
    ensures { result ≡ spec.closes style rest.now }
{
    character_at(rest, 0) == style.quote
        && (!style.is_triple
            || (character_at(rest, 1) == style.quote && character_at(rest, 2) == style.quote))
}

fn quote_len(style: Style) -> usize
    ensures { result ≡ spec.quote_len style }
{
    if style.is_triple { 3 } else { 1 }
}

/// The character that digits of a base name, where it is one.
#[tactic(auto, using(crate::proofs::StringLemmas::too_great))]
fn character_named(base: u32, digits: &[Placed]) -> Option<char>
    requires { (2 ≤ base) × (base ≤ 16) }
    ensures { result ≡ spec.character_named base (characters digits.now) }
{
    let mut value: u32 = 0;
    let mut rest = digits;
    while let [first, more @ ..] = rest {
        value = value * base + first.character.to_digit(base)?;
        if value > 0x10FFFF {
            return None;
        }
        rest = more;
    }
    char::from_u32(value)
}

/// Exactly `count` hexadecimal digits.
fn hex_escape(line: usize, count: usize, rest: &[Placed]) -> Result<(char, &[Placed]), LexError>
    ensures value { Reads (λ c. c ∷ []) result (spec.hex_escape (line, BadString) count rest.now) }
    ensures within { IfOk result (λ p. length p.1.now ≤ length rest.now) }
{
    let fault = LexError::Fault(line, LexKind::BadString);
    if rest.len() < count {
        return Err(fault);
    }
    let (digits, after) = rest.split_at(count);
    match character_named(16, digits) {
        Some(c) => Ok((c, after)),
        None => Err(fault),
    }
}

/// One to three octal digits, the first of which stands at the front.
fn octal_escape(line: usize, rest: &[Placed]) -> Result<(char, &[Placed]), LexError>
    requires { 0 < length rest.now }
    ensures value { Reads (λ c. c ∷ []) result (spec.octal_escape (line, BadString) rest.now) }
    ensures within { IfOk result (λ p. length p.1.now ≤ length rest.now) }
{
    let len = if !character_at(rest, 1).is_digit(8) {
        1
    } else if !character_at(rest, 2).is_digit(8) {
        2
    } else {
        3
    };
    let (digits, after) = rest.split_at(len);
    match character_named(8, digits) {
        Some(c) => Ok((c, after)),
        None => Err(LexError::Fault(line, LexKind::BadString)),
    }
}

fn push_two(out: &mut Vec<char>, a: char, b: char) -> Result<(), AllocError>
    ensures { OnOk result (out.new.items ≡ out.old.items ++ a ∷ b ∷ []) }
{
    out.push(a)?;
    out.push(b)?;
    Ok(())
}

/// Adds what an escape stands for, from the character behind its backslash on, and gives the rest.
#[tactic(auto, unfolding(crate::specs::Strings::escape))]
fn escape<'a>(
    out: &mut Vec<char>,
    line: usize,
    rest: &'a [Placed],
) -> Result<&'a [Placed], LexError>
    ensures value { Adds out.old.items out.new.items result (spec.escape line rest.now) }
    ensures within { IfOk result (λ after. length after.now ≤ length rest.now) }
{
    let first = character_at(rest, 0);
    if first == '\n' {
        return Ok(skip(rest, 1));
    }
    if first.is_digit(8) {
        let (c, after) = octal_escape(line, rest)?;
        out.push(c)?;
        return Ok(after);
    }
    if hex_len(first) > 0 {
        let (c, after) = hex_escape(line, hex_len(first), skip(rest, 1))?;
        out.push(c)?;
        return Ok(after);
    }
    if first == 'N' {
        return Err(LexError::Fault(line, LexKind::BadString));
    }
    match simple_escape(first) {
        Some(c) => {
            out.push(c)?;
            Ok(skip(rest, 1))
        }
        None => {
            push_two(out, '\\', first)?;
            Ok(skip(rest, 1))
        }
    }
}

/// Adds what the next character of a string, or its next escape, stands for, and gives the rest.
#[tactic(auto, unfolding(crate::specs::Strings::element))]
fn element<'a>(
    out: &mut Vec<char>,
    style: Style,
    rest: &'a [Placed],
) -> Result<&'a [Placed], LexError>
    requires { 0 < length rest.now }
    ensures value { Adds out.old.items out.new.items result (spec.element style rest.now) }
    ensures shorter { IfOk result (λ after. length after.now < length rest.now) }
{
    let first = character_at(rest, 0);
    if first == '\n' && !style.is_triple {
        return Err(LexError::Fault(style.line, LexKind::Unended));
    }
    if first != '\\' {
        out.push(first)?;
        return Ok(skip(rest, 1));
    }
    if !style.is_raw {
        return escape(out, line_of(rest), skip(rest, 1));
    }
    out.push(first)?;
    match rest {
        [_, second, after @ ..] => {
            out.push(second.character)?;
            Ok(after)
        }
        _ => Ok(&[]),
    }
}

/// The characters up to the closing quotes, and what follows those.
fn body(alloc: Global, style: Style, all: &[Placed]) -> Result<(Vec<char>, &[Placed]), LexError>
    ensures value { (n : ℕ) → length all.now ≤ n → Reads (λ v. v.items) result (spec.body n style all.now) }
    ensures within { IfOk result (λ p. length p.1.now ≤ length all.now) }
{
    let mut out = Vec::new(alloc);
    let mut rest = all;
    'elements: while !rest.is_empty() {
        if closes(style, rest) {
            return Ok((out, skip(rest, quote_len(style))));
        }
        rest = element(&mut out, style, rest)?;
    }
    Err(LexError::Fault(style.line, LexKind::Unended))
}

/// What a word directly before a quote makes of the string; none where it is no prefix.
fn prefix_of(word: &[Placed]) -> Option<Prefix>
    ensures { result ≡ spec.prefix_of (characters word.now) }
{
    match word {
        [] => Some(Prefix::Plain),
        [only] => match only.character.to_ascii_lowercase() {
            'u' => Some(Prefix::Plain),
            'r' => Some(Prefix::Raw),
            'b' | 'f' => Some(Prefix::Other),
            _ => None,
        },
        [first, second] => match (
            first.character.to_ascii_lowercase(),
            second.character.to_ascii_lowercase(),
        ) {
            ('b' | 'f', 'r') | ('r', 'b' | 'f') => Some(Prefix::Other),
            _ => None,
        },
        _ => None,
    }
}

/// Whether a string begins here, with its prefix.
pub(crate) fn begins_string(rest: &[Placed]) -> bool
    ensures { result ≡ spec.begins_string rest.now }
{
    let (word, after) = rest.split_at(word_len(rest));
    let c = character_at(after, 0);
    (c == '"' || c == '\'') && prefix_of(word).is_some()
}

/// A string, from its quotes on, and the rest behind it.
fn quoted(
    alloc: Global,
    is_raw: bool,
    line: usize,
    quotes: &[Placed],
) -> Result<(TokenKind, &[Placed]), LexError>
    requires { 0 < length quotes.now }
    ensures value { Reads (λ k. k) result (spec.quoted (spec.style is_raw line quotes.now) quotes.now) }
    ensures shorter { Shortens quotes.now result }
{
    let quote = character_at(quotes, 0);
    let is_triple = character_at(quotes, 1) == quote && character_at(quotes, 2) == quote;
    let style = Style {
        quote,
        is_triple,
        is_raw,
        line,
    };
    let (text, after) = body(alloc, style, skip(quotes, quote_len(style)))?;
    let text = Text::from_string(text_of(alloc, &text)?);
    Ok((TokenKind::Str(text), after))
}

/// A string, from its prefix on, and the rest behind it.
#[tactic(auto, unfolding(crate::specs::Strings::string_at))]
pub(crate) fn string_at(alloc: Global, rest: &[Placed]) -> Result<(TokenKind, &[Placed]), LexError>
    requires { spec.begins_string rest.now ≡ true }
    ensures value { Reads (λ k. k) result (spec.string_at rest.now) }
    ensures shorter { Shortens rest.now result }
{
    let (word, quotes) = rest.split_at(word_len(rest));
    match prefix_of(word) {
        Some(Prefix::Raw) => quoted(alloc, true, line_of(rest), quotes),
        Some(Prefix::Plain) => quoted(alloc, false, line_of(rest), quotes),
        _ => Err(LexError::Fault(line_of(rest), LexKind::BadString)),
    }
}
