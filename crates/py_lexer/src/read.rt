//! Reads a text from left to right.
ghost use Rattle.std.specs.Prelude.{◌≡◌, ℕ, ◌<◌, ◌≤◌, ◌+◌, ◌^◌, suc, length, IfOk};
ghost use Rattle.py_lexer.specs.Pieces.{pieces};
ghost use Rattle.py_lexer.specs.Reading.{Gives};
ghost use Rattle.py_lexer.specs.Remaining.{Keeps, remaining, whole, rest_of};

use crate::fault::LexError;
use crate::gap::gap_at;
use crate::lexeme::lexeme;
use crate::placed::{Placed, place_of};
use crate::reader::Reader;
use py_syntax::{Span, Tokens};
use std::alloc::Global;

/// Takes one piece, and gives the rest behind it.
fn step<'a>(
    reader: &mut Reader,
    alloc: Global,
    end: Span,
    rest: &'a [Placed],
) -> Result<&'a [Placed], LexError>
    requires some { 0 < length rest.now }
    requires wide { reader.old.column.wide + 8 < 2 ^ 64 }
    requires narrow { reader.old.column.narrow + 8 < 2 ^ 64 }
    ensures keeps { (n : ℕ) →
        Keeps result (remaining end reader.old (pieces end (suc n) rest.now)) (remaining end reader.new (pieces end n (rest_of result))) }
    ensures shorter { IfOk result (λ after. length after.now < length rest.now) }
    ensures wide { reader.new.column.wide ≤ reader.old.column.wide + 8 }
    ensures narrow { reader.new.column.narrow ≤ reader.old.column.narrow + 8 }
{
    let from = place_of(end, rest);
    if let Some((gap, after)) = gap_at(rest) {
        reader.gap(gap, from, place_of(end, after))?;
        return Ok(after);
    }
    reader.begin(from)?;
    let (kind, after) = lexeme(alloc, rest)?;
    let to = place_of(end, after);
    reader.token(kind, from, to)?;
    Ok(after)
}

/// The tokens of characters with their places, behind which a text ends.
pub(crate) fn read(alloc: Global, text: &[Placed], end: Span) -> Result<Tokens, LexError>
    ensures { Gives (λ t. t.list) result (whole end (pieces end (length text.now) text.now)) }
{
    let mut reader = Reader::new(alloc);
    let mut rest = text;
    'pieces: while !rest.is_empty() {
        rest = step(&mut reader, alloc, end, rest)?;
    }
    reader.finish(end)
}
