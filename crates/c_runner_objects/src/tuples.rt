//! Calls of primitives on tuples. A tuple takes over the references of the objects that are packed into it.
ghost use Rattle.std.specs.Prelude.{◌≡◌, ◌+◌, ◌^◌, ◌<◌, ◌≤◌, true, List, [], IfOk, map};
ghost use Rattle.c_core.specs.declared.code.Code as machine_code;
ghost use Rattle.c_core.specs.declared.primitive.Primitive.TheVariants as prim;
ghost use Rattle.c_core.specs.declared.primitive.TuplePrim.TheVariants as tuple;
ghost use Rattle.c_core.specs.Arguments.{Argument};
ghost use Rattle.c_core.specs.Cells.{times};
ghost use Rattle.c_core.specs.Ledgers.{Ledger};
ghost use Rattle.c_core.specs.Machine.{refs, refs_of};
ghost use Rattle.c_core.specs.Step.{Next, if_arguments};
ghost use Rattle.c_runner_deeds.specs.Deeds.{Calls};
ghost use Rattle.c_runner_deeds.specs.Parts.{is_owned};
ghost use Rattle.c_runner_deeds.specs.States.{Rest, IsSmall, state_of, seen};
ghost use Rattle.c_runner_objects.specs.Tuples.{pack_parameters, AreObjects, AreOwned, lost_all, all_stolen_or};
ghost use Rattle.cell_heap.specs.Contents.{word_of};
ghost use Rattle.cell_heap.specs.Numbered.{numbered};
ghost use Rattle.cell_heap.specs.Ours.{AreOurs};
ghost use Rattle.cell_heap.specs.Contents.{words_refs};

use crate::items::tuple_deed;
use c_core::{CArg, Fault, Kind, TuplePrim};
use c_runner_deeds::{Ending, Frame, State, number_of};
use c_runner_ledger::Ledger;
use cell_heap::{Content, Word};
use std::alloc::Global;
use value_core::{Many, Memory};

/// How many objects one call packs at most.
const MOST_PARTS: usize = 16;

/// Calls a primitive on tuples.
pub fn call_tuple(
    state: &mut State,
    alloc: Global,
    operation: TuplePrim,
    target: Option<usize>,
    args: &[CArg],
) -> Result<Option<Ending>, Memory>
    requires small { IsSmall (seen state.old) }
    requires place { state.old.top.place + 1 < 2 ^ 64 }
    ensures { Calls (prim.Tuple operation) target args.now (seen state.old) (seen state.new) result }
{
    match operation {
        TuplePrim::Pack => pack(state, alloc, target, args),
        _ => {
            let deed = tuple_deed(state, operation, args);
            state.perform_deed(target, deed)
        }
    }
}

/// Makes a tuple of objects, which takes over their references.
fn pack(
    state: &mut State,
    alloc: Global,
    target: Option<usize>,
    args: &[CArg],
) -> Result<Option<Ending>, Memory>
    requires small { IsSmall (seen state.old) }
    requires place { state.old.top.place + 1 < 2 ^ 64 }
    ensures { Calls (prim.Tuple tuple.Pack) target args.now (seen state.old) (seen state.new) result }
{
    let found = stolen_objects(state, alloc, args)?;
    match found {
        Err(fault) => Ok(Some(Ending::Fault(fault))),
        Ok(words) => {
            lose_all(&mut state.top, words.as_slice());
            state.make_cell(target, Content::Tuple(words))
        }
    }
}

/// The words of objects, each of which the frame owns once more than those before it take. They stay with the frame.
fn stolen_objects(
    state: &State,
    alloc: Global,
    args: &[CArg],
) -> Result<Result<Many<Word>, Fault>, Memory>
    ensures stolen { IfOk result (λ found. (rest : Rest) (code : machine_code.Code) (go : List Argument → Ledger → Next) →
        (let s = state_of rest (seen state.now) in
        if_arguments true s code pack_parameters args.now [] s.top.ledger go ≡ all_stolen_or found s go)) }
    ensures objects { IfOk result (λ found. IfOk found (λ words. AreObjects (numbered state.now.cells) (map word_of words))) }
    ensures ours { IfOk result (λ found. IfOk found (λ words. AreOurs state.now.cells (words_refs words))) }
{
    if args.is_empty() {
        return Ok(Err(Fault::Kind));
    }
    let mut words = Many::new(alloc);
    for argument in args {
        if words.len() >= MOST_PARTS {
            return Ok(Err(Fault::Kind));
        }
        let word = match state.passed(Kind::Object, argument) {
            Err(fault) => return Ok(Err(fault)),
            Ok(word) => word,
        };
        if !owns_beside(&state.top, words.as_slice(), word) {
            return Ok(Err(Fault::NotOwned));
        }
        words.push(word)?;
    }
    Ok(Ok(words))
}

/// Whether the reference of a word is owned beside those of other words, if it has one.
pub(crate) fn owns_beside(frame: &Frame, words: &[Word], word: Word) -> bool
    ensures { AreOwned (map word_of words.now) frame.now.ledger →
        result ≡ is_owned (word_of word) (lost_all (map word_of words.now) frame.now.ledger) }
{
    match word {
        Word::Big(key) | Word::Cell(key) => {
            let serial = number_of(key);
            frame
                .ledger
                .owns_more_than(serial, references(words, serial))
        }
        _ => true,
    }
}

/// Gives the references of words away, each that a word has and the frame owns.
fn lose_all(frame: &mut Frame, words: &[Word])
    ensures { frame.new ≡ record frame.old { ledger = lost_all (map word_of words.now) frame.old.ledger } }
{
    for word in words {
        frame.lose(*word);
    }
}

/// How many references words have to the cell of a number.
fn references(words: &[Word], serial: u128) -> usize
    ensures { result ≡ times (refs (map word_of words.now)) serial }
{
    let mut count = 0;
    for word in words {
        count += references_of(*word, serial);
    }
    count
}

/// How many references a word has to the cell of a number: one or none.
fn references_of(word: Word, serial: u128) -> usize
    ensures counted { result ≡ times (refs_of (word_of word)) serial }
    ensures few { result ≤ 1 }
{
    match word {
        Word::Big(key) | Word::Cell(key) => { if number_of(key) == serial { 1 } else { 0 } }
        _ => 0,
    }
}
