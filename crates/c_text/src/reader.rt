ghost use Rattle.std.specs.Prelude.{◌≡◌, ◌++◌, ◌<◌, length, IfOk, IfErr, MatchOption};
ghost use Rattle.c_text.specs.Reading.{IsReading, SaysRefused};
ghost use Rattle.c_text.specs.Words.{HasNo, IsFirstLine};
ghost use Rattle.c_core.specs.Text.{text_of};
ghost use Rattle.c_text.specs.Parts.{IsFine, code_of, part_lines};

use crate::part::{Above, Part, behind_line};
use crate::text_error::TextError;
use crate::word::place_of;
use c_core::Code;
use std::alloc::Global;

/// The first line of a text, without its line feed, and what stands behind that.
fn first_line(text: &[u8]) -> Option<(&[u8], &[u8])>
    ensures { MatchOption result (HasNo 10 text.now) (λ p. IsFirstLine p.0.now p.1.now text.now × (length p.1.now < length text.now)) }
{
    match place_of(text, b'\n') {
        Some(place) => Some((&text[..place], &text[place + 1..])),
        None => None,
    }
}

/// The code of which nothing is missing.
fn code(above: Above) -> Code
    ensures { result ≡ code_of above }
{
    let Above {
        globals,
        classes,
        functions,
    } = above;
    Code {
        globals,
        classes,
        funcs: functions,
    }
}

/// The code of a text that ends behind a part, or that there is none. Behind the part's lines stands a rest that is no
/// line, and `len` is how long the whole text is.
fn finish(part: Part, rest: &[u8], len: usize) -> Result<Code, TextError>
    requires fine { IsFine part }
    requires plain { HasNo 10 rest.now }
    requires whole { len ≡ length (text_of (part_lines part) ++ rest.now) }
    ensures reading { IfOk result (IsReading (text_of (part_lines part) ++ rest.now)) }
    ensures refused { IfErr result (SaysRefused (text_of (part_lines part) ++ rest.now)) }
{
    match part {
        Part::Closed(above) => {
            if rest.is_empty() {
                Ok(code(above))
            } else {
                Err(TextError::Refused(len))
            }
        }
        _ => Err(TextError::Refused(len)),
    }
}

/// Reads a C text: the code that has it, or where it is refused. Only the one spelling of a code is taken.
pub fn read(alloc: Global, bytes: &[u8]) -> Result<Code, TextError>
    ensures reading { IfOk result (IsReading bytes.now) }
    ensures refused { IfErr result (SaysRefused bytes.now) }
{
    let mut part = Part::Start;
    let mut rest = bytes;
    while let Some((piece, after)) = first_line(rest) {
        let Some(next) = behind_line(alloc, part, piece)? else {
            return Err(TextError::Refused(bytes.len() - rest.len()));
        };
        part = next;
        rest = after;
    }
    finish(part, rest, bytes.len())
}
