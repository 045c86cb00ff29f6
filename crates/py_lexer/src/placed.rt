//! The characters of a text with their places, and what its rests begin with.
ghost use Rattle.std.specs.Prelude.{◌≡◌, ◌≤◌, length, drop};
ghost use Rattle.py_lexer.specs.Places as spec;
ghost use Rattle.py_lexer.specs.Words.{word_len};

use py_syntax::Span;
use unicode_ident::is_xid_continue;

/// A character with its place.
#[derive(Clone, Copy)]
pub(crate) struct Placed {
    pub(crate) character: char,
    pub(crate) span: Span,
}

/// The character number `i` of the rest of a text, or NUL past its end.
pub(crate) fn character_at(rest: &[Placed], i: usize) -> char
    ensures { result ≡ spec.character_at i rest.now }
{
    match rest.get(i) {
        Some(placed) => placed.character,
        None => '\0',
    }
}

/// The line where the rest of a text begins.
pub(crate) fn line_of(rest: &[Placed]) -> usize
    ensures { result ≡ spec.line_of rest.now }
{
    match rest {
        [] => 0,
        [first, ..] => first.span.line,
    }
}

/// Where the rest of a text begins that ends at `end`.
pub(crate) fn place_of(end: Span, rest: &[Placed]) -> Span
    ensures { result ≡ spec.place_of end rest.now }
{
    match rest {
        [] => end,
        [first, ..] => first.span,
    }
}

/// The rest behind its first `n` characters.
pub(crate) fn skip(rest: &[Placed], n: usize) -> &[Placed]
    ensures { result.now ≡ drop n rest.now }
{
    match rest.get(n..) {
        Some(after) => after,
        None => &[],
    }
}

/// How many characters at the front of a rest continue an identifier.
pub(crate) fn word_len(rest: &[Placed]) -> usize
    ensures value { result ≡ word_len rest.now }
    ensures within { result ≤ length rest.now }
{
    let mut n = 0;
    while n < rest.len() && is_xid_continue(rest[n].character) {
        n += 1;
    }
    n
}
