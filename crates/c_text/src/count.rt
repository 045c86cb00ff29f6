//! Count statements, by their words.
ghost use Rattle.std.specs.Prelude.{◌≡◌, ◌≢◌, MatchOption};
ghost use Rattle.c_text.specs.Counts.{FindsCount, count_line, verb_text};
ghost use Rattle.c_text.specs.declared.count.Count as declared;

use crate::word::{behind, is};
use c_core::{Kind, Line};

/// What a count statement does.
#[derive(Clone, Copy)]
pub(crate) enum Count {
    Inc,
    Dec,
    XDec,
}

/// The count that the word means without its beginning.
fn verb(bytes: &[u8]) -> Option<Count>
    ensures { MatchOption result ((count : declared.Count) → verb_text count ≢ bytes.now) (λ count. verb_text count ≡ bytes.now) }
{
    if is(bytes, b"INCREF") {
        Some(Count::Inc)
    } else if is(bytes, b"DECREF") {
        Some(Count::Dec)
    } else if is(bytes, b"XDECREF") {
        Some(Count::XDec)
    } else {
        None
    }
}

/// The count that a word means, and the kind of the variables that it counts.
pub(crate) fn count_named(word: &[u8]) -> Option<(Count, Kind)>
    ensures { FindsCount word.now result }
{
    let (rest, kind) = if let Some(rest) = behind(word, b"CPyTagged_") {
        (rest, Kind::Tagged)
    } else if let Some(rest) = behind(word, b"CPy_") {
        (rest, Kind::Object)
    } else {
        return None;
    };
    match verb(rest) {
        Some(count) => Some((count, kind)),
        None => None,
    }
}

/// The statement of a count of a variable.
pub(crate) fn counted(count: Count, place: usize) -> Line
    ensures { result ≡ count_line count place }
{
    match count {
        Count::Inc => Line::Inc(place),
        Count::Dec => Line::Dec(place),
        Count::XDec => Line::XDec(place),
    }
}
