//! The lines that count references.
ghost use Rattle.std.specs.Prelude.{◌+◌, ◌^◌, ◌<◌, true, IfOk};
ghost use Rattle.c_core.specs.Step.{word_of, taken, incremented, given_up, decremented, decremented_if_set};
ghost use Rattle.c_runner_deeds.specs.States.{Follows, IsSmall, seen};
ghost use Rattle.cell_heap.specs.Contents as contents;
ghost use Rattle.cell_heap.specs.Contents.{name_of, number_of};
ghost use Rattle.cell_heap.specs.Ours.{IsOurs};
ghost use Rattle.c_runner_deeds.specs.Ours.{IsOurWord};

use c_core::Fault;
use c_runner_deeds::{Ending, State, number_of};
use cell_heap::{Dead, Key, Word};
use value_core::Memory;

/// Takes one reference more to the cell of a variable, if its word has a cell.
pub(crate) fn increment(state: &mut State, x: usize) -> Result<Option<Ending>, Memory>
    requires small { IsSmall (seen state.old) }
    requires place { state.old.top.place + 1 < 2 ^ 64 }
    ensures { IfOk result (λ ending. Follows
        (λ s. word_of true s x (incremented true s)) ending (seen state.old) (seen state.new)) }
{
    let Some(word) = state.top.vars.get(x) else {
        return Ok(Some(Ending::Fault(Fault::Kind)));
    };
    match *word {
        Word::Big(key) | Word::Cell(key) => take(state, key),
        Word::Short(_) | Word::PyNone | Word::PyTrue | Word::PyFalse => {
            state.top.place += 1;
            Ok(None)
        }
        _ => Ok(Some(Ending::Fault(Fault::Kind))),
    }
}

/// Takes one reference more to a cell, which the frame owns then.
fn take(state: &mut State, key: Key) -> Result<Option<Ending>, Memory>
    requires small { IsSmall (seen state.old) }
    requires place { state.old.top.place + 1 < 2 ^ 64 }
    requires ours { IsOurs state.old.cells (name_of key) }
    ensures { IfOk result (λ ending. Follows (λ s. taken true s (number_of key)) ending (seen state.old) (seen state.new)) }
{
    match state.cells.take(key) {
        Err(Dead) => Ok(Some(Ending::Fault(Fault::Dead))),
        Ok(()) => {
            state.top.ledger.add(number_of(key))?;
            state.top.place += 1;
            Ok(None)
        }
    }
}

/// Gives up the reference of a variable, if its word has a cell.
pub(crate) fn decrement(state: &mut State, x: usize) -> Option<Ending>
    requires { state.old.top.place + 1 < 2 ^ 64 }
    ensures { Follows (λ s. word_of true s x (decremented true s)) result (seen state.old) (seen state.new) }
{
    let Some(word) = state.top.vars.get(x) else {
        return Some(Ending::Fault(Fault::Kind));
    };
    let word = *word;
    give_word_up(state, word)
}

/// The same, but that nothing happens for an error value.
pub(crate) fn decrement_if_set(state: &mut State, x: usize) -> Option<Ending>
    requires { state.old.top.place + 1 < 2 ^ 64 }
    ensures { Follows (λ s. word_of true s x (decremented_if_set true s)) result (seen state.old) (seen state.new) }
{
    let Some(word) = state.top.vars.get(x) else {
        return Some(Ending::Fault(Fault::Kind));
    };
    let word = *word;
    match word {
        Word::TagError | Word::Null => {
            state.top.place += 1;
            None
        }
        _ => give_word_up(state, word),
    }
}

/// Gives up the reference of a word, if it has a cell.
fn give_word_up(state: &mut State, word: Word) -> Option<Ending>
    requires place { state.old.top.place + 1 < 2 ^ 64 }
    requires ours { IsOurWord state.old.cells word }
    ensures { Follows (λ s. decremented true s (contents.word_of word)) result (seen state.old) (seen state.new) }
{
    match word {
        Word::Big(key) | Word::Cell(key) => give_up(state, key),
        Word::Short(_) | Word::PyNone | Word::PyTrue | Word::PyFalse => {
            state.top.place += 1;
            None
        }
        _ => Some(Ending::Fault(Fault::Kind)),
    }
}

/// Gives a reference to a cell up, which the frame is to own.
fn give_up(state: &mut State, key: Key) -> Option<Ending>
    requires place { state.old.top.place + 1 < 2 ^ 64 }
    requires ours { IsOurs state.old.cells (name_of key) }
    ensures { Follows (λ s. given_up true s (number_of key)) result (seen state.old) (seen state.new) }
{
    if !state.is_live(key) {
        return Some(Ending::Fault(Fault::Dead));
    }
    if !state.top.ledger.take(number_of(key)) {
        return Some(Ending::Fault(Fault::NotOwned));
    }
    match state.cells.give(key) {
        // The cell is there, as was tested first.
        Err(Dead) => Some(Ending::Fault(Fault::Dead)),
        Ok(()) => {
            state.top.place += 1;
            None
        }
    }
}
