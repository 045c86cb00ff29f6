//! A text with one LF for each end of a line, and the places of its characters.
ghost use Rattle.std.specs.Prelude.{◌≡◌, ◌<◌, ◌+◌, ◌^◌, IfOk};
ghost use Rattle.py_lexer.specs.Places as spec;

use crate::placed::Placed;
use py_syntax::Span;
use std::alloc::{AllocError, Global};

/// The text without a byte order mark at its beginning.
fn without_mark(text: &[char]) -> &[char]
    ensures { result.now ≡ spec.without_mark text.now }
{
    match text {
        ['\u{FEFF}', more @ ..] => more,
        _ => text,
    }
}

/// The first character, or NUL.
fn first(text: &[char]) -> char
    ensures { result ≡ spec.first text.now }
{
    match text {
        [] => '\0',
        [first, ..] => *first,
    }
}

fn plain_ends(alloc: Global, text: &[char]) -> Result<Vec<char>, AllocError>
    ensures { IfOk result (λ v. v.items ≡ spec.plain_ends text.now) }
{
    let mut out = Vec::new(alloc);
    let mut rest = text;
    while let [c, more @ ..] = rest {
        if *c != '\r' {
            out.push(*c)?;
        } else if first(more) != '\n' {
            out.push('\n')?;
        }
        rest = more;
    }
    Ok(out)
}

/// The characters that are read: one LF for each end of a line, and none without its end.
pub(crate) fn plain(alloc: Global, text: &[char]) -> Result<Vec<char>, AllocError>
    ensures { IfOk result (λ v. v.items ≡ spec.plain text.now) }
{
    let mut out = plain_ends(alloc, without_mark(text))?;
    let is_ended = match out.last() {
        None => true,
        Some(c) => *c == '\n',
    };
    if is_ended {
        return Ok(out);
    }
    out.push('\n')?;
    Ok(out)
}

/// The place behind a character.
fn behind(c: char, place: Span) -> Span
    requires { (place.line + 1 < 2 ^ 64) × (place.col + 1 < 2 ^ 64) }
    ensures { result ≡ spec.behind c place }
{
    if c == '\n' {
        Span {
            line: place.line + 1,
            col: 1,
        }
    } else {
        Span {
            line: place.line,
            col: place.col + 1,
        }
    }
}

/// The characters with their places, and the place behind the last one.
pub(crate) fn place_all(alloc: Global, text: &[char]) -> Result<(Vec<Placed>, Span), AllocError>
    ensures { IfOk result (λ p. (p.0.items ≡ spec.placed spec.start text.now) × (p.1 ≡ spec.end_of spec.start text.now)) }
{
    let mut out = Vec::new(alloc);
    let mut place = Span { line: 1, col: 1 };
    let mut rest = text;
    while let [c, more @ ..] = rest {
        out.push(Placed {
            character: *c,
            span: place,
        })?;
        place = behind(*c, place);
        rest = more;
    }
    Ok((out, place))
}
