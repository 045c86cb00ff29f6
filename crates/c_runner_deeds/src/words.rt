//! The words of variables, by their kinds.
ghost use Rattle.std.specs.Prelude.{◌≡◌, [], true, Some, None, map, slice_get, IfOk};
ghost use Rattle.std.specs.Option.{option_map};
ghost use Rattle.c_core.specs.Step.{literal_word, char_word, truth_word};
ghost use Rattle.c_core.specs.Arguments as arguments;
ghost use Rattle.c_core.specs.Functions.{error_word};
ghost use Rattle.c_core.specs.Step as machine_step;
ghost use Rattle.c_runner_deeds.specs.States.{held_of};
ghost use Rattle.cell_heap.specs.Contents.{word_of, optional_refs};

use c_core::{CFunc, CLit, Kind};
use cell_heap::Word;
use std::alloc::Global;
use value_core::{Many, Memory, Name};

/// The error value of a kind, with which its variables begin.
pub fn error_of(kind: Kind) -> Word
    ensures { word_of result ≡ error_word kind }
{
    match kind {
        Kind::Tagged => Word::TagError,
        Kind::Int64 => Word::I64(-113),
        Kind::Char => Word::Char(2),
        Kind::Object => Word::Null,
    }
}

/// A truth.
pub fn truth(is_true: bool) -> Word
    ensures { word_of result ≡ truth_word is_true }
{
    if is_true {
        Word::Char(1)
    } else {
        Word::Char(0)
    }
}

/// The word of a literal in a variable of a kind, if it is one of that kind.
pub fn of_literal(kind: Kind, literal: CLit) -> Option<Word>
    ensures { option_map word_of result ≡ literal_word kind literal }
{
    match (kind, literal) {
        (Kind::Tagged, CLit::Number(n)) => halved(n),
        (Kind::Int64, CLit::Number(n)) => Some(Word::I64(n)),
        (Kind::Char, CLit::Number(n)) => of_char(n),
        (Kind::Object, CLit::Null) => Some(Word::Null),
        (Kind::Object, CLit::PyNone) => Some(Word::PyNone),
        (Kind::Object, CLit::PyTrue) => Some(Word::PyTrue),
        (Kind::Object, CLit::PyFalse) => Some(Word::PyFalse),
        _ => None,
    }
}

/// The `int` whose tagged number is twice its value, or 1 for the error value.
fn halved(tagged: i64) -> Option<Word>
    ensures { option_map word_of result ≡ machine_step.halved tagged }
{
    if tagged % 2 == 0 {
        Some(Word::Short(tagged.div_euclid(2)))
    } else if tagged == 1 {
        Some(Word::TagError)
    } else {
        None
    }
}

fn of_char(number: i64) -> Option<Word>
    ensures { option_map word_of result ≡ char_word number }
{
    match number {
        0 => Some(Word::Char(0)),
        1 => Some(Word::Char(1)),
        2 => Some(Word::Char(2)),
        _ => None,
    }
}

/// Whether a word is of a kind, and no error value. -113 is an ordinary native integer too.
pub(crate) fn is_value_of(kind: Kind, word: Word) -> bool
    ensures { result ≡ arguments.is_value_of kind (word_of word) }
{
    match (kind, word) {
        (Kind::Tagged, Word::Short(_) | Word::Big(_)) => true,
        (Kind::Int64, Word::I64(_)) => true,
        (Kind::Char, Word::Char(n)) => n != 2,
        (Kind::Object, Word::Cell(_) | Word::PyNone | Word::PyTrue | Word::PyFalse) => true,
        _ => false,
    }
}

/// Whether a word is an error value, and nothing else: -113 is not.
pub fn is_error(word: Word) -> bool
    ensures { result ≡ machine_step.is_error (word_of word) }
{
    match word {
        Word::TagError | Word::Null => true,
        Word::Char(n) => n == 2,
        _ => false,
    }
}

/// Whether a word equals the error value of its kind.
pub fn equals_error(word: Word) -> bool
    ensures { result ≡ machine_step.equals_error (word_of word) }
{
    match word {
        Word::I64(n) => n == -113,
        _ => is_error(word),
    }
}

/// The kind of a variable, if there is one of this number.
pub fn kind_of(function: &CFunc, x: usize) -> Option<Kind>
    ensures { result ≡ option_map (λ v. v.1) (slice_get function.now.vars x) }
{
    function.vars.get(x).map(|var| var.1)
}

/// As many places as there are globals or attributes, each unset.
pub fn unset(alloc: Global, globals: &[(Name, Kind)]) -> Result<Many<Option<Word>>, Memory>
    ensures unset { IfOk result (λ places. map held_of places ≡ map (λ g. None) globals.now) }
    ensures none { IfOk result (λ places. optional_refs places ≡ []) }
{
    let mut places = Many::new(alloc);
    for _global in globals {
        places.push(None)?;
    }
    Ok(places)
}
