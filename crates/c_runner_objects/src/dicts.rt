//! Calls of primitives on dicts.
ghost use Rattle.std.specs.Prelude.{◌≡◌, ℕ, ◌+◌, ◌^◌, ◌<◌, true, List, Option, drop, length, IfOk, IfSome};
ghost use Rattle.c_core.specs.declared.code.Code as machine_code;
ghost use Rattle.c_core.specs.declared.code.Kind.TheVariants.{Object};
ghost use Rattle.c_core.specs.declared.primitive.DictPrim.TheVariants as dict_prim;
ghost use Rattle.c_core.specs.declared.primitive.Primitive.TheVariants as prim;
ghost use Rattle.c_core.specs.Arguments.{Argument, word_in};
ghost use Rattle.c_core.specs.Ledgers.{Ledger};
ghost use Rattle.c_core.specs.Primitives.{Is, Anything, AKey, Steals};
ghost use Rattle.c_core.specs.Step as machine_step;
ghost use Rattle.c_core.specs.Step.{Next, if_arguments, primitive_step};
ghost use Rattle.c_runner_objects.specs.Dicts.{HoldsDict, HoldsKey, HoldsEntry, pairs_at, entry_parameters, taken_or, both_taken_or, entry_put, entry_written, entry_taken};
ghost use Rattle.c_runner_deeds.specs.Deeds.{Calls, MayMake};
ghost use Rattle.c_runner_deeds.specs.Parts.{argument_of, is_owned, left_by, stolen_or};
ghost use Rattle.c_runner_deeds.specs.States.{Rest, Follows, IsSmall, state_of, seen};
ghost use Rattle.cell_heap.specs.Contents.{number_of, word_of};
ghost use Rattle.cell_heap.specs.Numbered.{numbered};
ghost use Rattle.cell_heap.specs.Contents.{name_of};
ghost use Rattle.cell_heap.specs.Ours.{IsOurs};
ghost use Rattle.c_runner_deeds.specs.Ours.{IsOurWord};

use crate::entries::dict_deed;
use crate::keys::{dict_key, is_key, key_place, key_text};
use crate::tuples::owns_beside;
use c_core::{CArg, DictPrim, Fault, Kind};
use c_runner_deeds::{Ending, State, give_word};
use c_runner_ledger::Ledger;
use cell_heap::{Content, Dead, HeapError, Key, Pairs, Word};
use std::alloc::Global;
use value_core::{ExcClass, Memory};

/// What is to be written to a dict: the cell of the dict, the place at which it has the key, if it has it, the key and the
/// value.
#[derive(Drop)]
pub(crate) struct EntryWrite {
    pub dict: Key,
    pub place: Option<usize>,
    pub key: Word,
    pub word: Word,
}

/// Calls a primitive on dicts.
pub fn call_dict(
    state: &mut State,
    alloc: Global,
    operation: DictPrim,
    target: Option<usize>,
    args: &[CArg],
) -> Result<Option<Ending>, Memory>
    requires small { IsSmall (seen state.old) }
    requires place { state.old.top.place + 1 < 2 ^ 64 }
    ensures { MayMake (prim.Dict operation) target args.now (seen state.old) (seen state.new) result }
{
    match operation {
        DictPrim::New => new_dict(state, alloc, target, args),
        DictPrim::SetItem => set_entry(state, target, args),
        DictPrim::DelItem => delete_entry(state, alloc, target, args),
        _ => {
            let deed = dict_deed(state, alloc, operation, args)?;
            state.perform_deed(target, deed)
        }
    }
}

/// Makes an empty dict.
fn new_dict(
    state: &mut State,
    alloc: Global,
    target: Option<usize>,
    args: &[CArg],
) -> Result<Option<Ending>, Memory>
    requires small { IsSmall (seen state.old) }
    requires place { state.old.top.place + 1 < 2 ^ 64 }
    ensures { MayMake (prim.Dict dict_prim.New) target args.now (seen state.old) (seen state.new) result }
{
    if args.is_empty() {
        let dict = Pairs::new(alloc)?;
        state.make_cell(target, Content::Dict(dict))
    } else {
        Ok(Some(Ending::Fault(Fault::Kind)))
    }
}

/// Writes the value of a key in a dict, which takes over the references of both. A key that is there stays, and what it
/// had goes with the key that came; any other key goes behind the pairs.
fn set_entry(
    state: &mut State,
    target: Option<usize>,
    args: &[CArg],
) -> Result<Option<Ending>, Memory>
    requires { state.old.top.place + 1 < 2 ^ 64 }
    ensures { Calls (prim.Dict dict_prim.SetItem) target args.now (seen state.old) (seen state.new) result }
{
    match entry_write(state, args) {
        Err(fault) => Ok(Some(Ending::Fault(fault))),
        Ok(found) => match found.place {
            None => add_entry(state, target, found.dict, found.key, found.word),
            Some(place) => Ok(put_value(state, target, found.dict, place, found.key, found.word)),
        },
    }
}

/// The dict that the first argument is, and the key and the word that the others give away, with the place of the key in
/// the dict.
fn entry_write(state: &State, args: &[CArg]) -> Result<EntryWrite, Fault>
    ensures found { (rest : Rest) (code : machine_code.Code) (target : Option ℕ) →
        (let s = state_of rest (seen state.now) in
        primitive_step true s code target args.now (prim.Dict dict_prim.SetItem) ≡ entry_written target result s) }
    ensures dict { IfOk result (λ found. HoldsDict (numbered state.now.cells) (number_of found.dict)) }
    ensures within { IfOk result (λ found. IfSome found.place
        (λ place. place < length (pairs_at (numbered state.now.cells) (number_of found.dict)))) }
    ensures ours { IfOk result (λ found. IsOurs state.now.cells (name_of found.dict)) }
    ensures key { IfOk result (λ found. IsOurWord state.now.cells found.key) }
    ensures word { IfOk result (λ found. IsOurWord state.now.cells found.word) }
{
    let dict = match state.dict_argument(args.first()) {
        Err(fault) => return Err(fault),
        Ok(found) => found.0,
    };
    match stolen_entry(state, args) {
        Err(fault) => Err(fault),
        Ok((key, word)) => Ok(EntryWrite {
            dict,
            place: key_place(state, dict, key),
            key,
            word,
        }),
    }
}

/// The key and the word that the second argument and the third and last one give away.
fn stolen_entry(state: &State, args: &[CArg]) -> Result<(Word, Word), Fault>
    ensures stolen { (rest : Rest) (code : machine_code.Code) (earlier : List Argument) (go : List Argument → Ledger → Next) →
        (let s = state_of rest (seen state.now) in
        if_arguments true s code entry_parameters (drop 1 args.now) earlier s.top.ledger go ≡ both_taken_or result s go) }
    ensures entry { IfOk result (λ found. HoldsEntry (numbered state.now.cells) (word_of found.0) (word_of found.1)) }
    ensures key { IfOk result (λ found. IsOurWord state.now.cells found.0) }
    ensures word { IfOk result (λ found. IsOurWord state.now.cells found.1) }
{
    let Some(first) = args.get(1) else {
        return Err(Fault::Kind);
    };
    let key = match stolen_key(state, first) {
        Err(fault) => return Err(fault),
        Ok(key) => key,
    };
    let Some(second) = args.get(2) else {
        return Err(Fault::Kind);
    };
    let word = match stolen_behind(state, key, second) {
        Err(fault) => return Err(fault),
        Ok(word) => word,
    };
    if args.len() != 3 {
        return Err(Fault::Kind);
    }
    Ok((key, word))
}

/// The key of a dict that an argument gives away. The frame is to own its reference.
fn stolen_key(state: &State, argument: &CArg) -> Result<Word, Fault>
    ensures stolen { (rest : Rest) (code : machine_code.Code) (earlier : List Argument) (go : Argument → Ledger → Next) →
        (let s = state_of rest (seen state.now) in
        machine_step.if_argument true s code (Steals (Is Object) AKey) argument.now earlier s.top.ledger go
        ≡ stolen_or result s go) }
    ensures word { IfOk result (λ word. word_in Object (argument_of (numbered state.now.cells) (word_of word)) ≡ Some (word_of word)) }
    ensures key { IfOk result (λ word. HoldsKey (numbered state.now.cells) (word_of word)) }
    ensures owned { IfOk result (λ word. is_owned (word_of word) state.now.top.ledger ≡ true) }
    ensures ours { IfOk result (IsOurWord state.now.cells) }
{
    let word = state.passed(Kind::Object, argument)?;
    if !is_key(state, word) {
        return Err(Fault::Kind);
    }
    if !state.top.owns(word) {
        return Err(Fault::NotOwned);
    }
    Ok(word)
}

/// The word that an argument gives away behind another. The frame is to own the references of both.
fn stolen_behind(state: &State, earlier: Word, argument: &CArg) -> Result<Word, Fault>
    requires { is_owned (word_of earlier) state.now.top.ledger ≡ true }
    ensures stolen { (rest : Rest) (code : machine_code.Code) (before : List Argument) (go : Argument → Ledger → Next) →
        (let s = state_of rest (seen state.now) in
        machine_step.if_argument true s code (Steals (Is Object) Anything) argument.now before (left_by (word_of earlier) s.top.ledger) go
        ≡ taken_or result (left_by (word_of earlier) s.top.ledger) s go) }
    ensures word { IfOk result (λ word. word_in Object (argument_of (numbered state.now.cells) (word_of word)) ≡ Some (word_of word)) }
    ensures ours { IfOk result (IsOurWord state.now.cells) }
{
    let word = state.passed(Kind::Object, argument)?;
    if !owns_beside(&state.top, &[earlier], word) {
        return Err(Fault::NotOwned);
    }
    Ok(word)
}

/// Puts a key and its value, which the frame owns, behind the pairs of the dict that a cell holds.
fn add_entry(
    state: &mut State,
    target: Option<usize>,
    dict: Key,
    key: Word,
    word: Word,
) -> Result<Option<Ending>, Memory>
    requires place { state.old.top.place + 1 < 2 ^ 64 }
    requires dict { HoldsDict (numbered state.old.cells) (number_of dict) }
    requires ours { IsOurs state.old.cells (name_of dict) }
    requires key { IsOurWord state.old.cells key }
    requires word { IsOurWord state.old.cells word }
    ensures { IfOk result (λ ending. Follows (entry_put target dict None key word) ending (seen state.old) (seen state.new)) }
{
    match state.cells.dict_push(dict, (key, word)) {
        Err(HeapError::Memory) => Err(Memory),
        // The cell is there, as was tested first.
        Err(HeapError::Dead) => Ok(Some(Ending::Fault(Fault::Dead))),
        Ok(()) => {
            state.top.lose(key);
            state.top.lose(word);
            state.top.set_target(target, Word::PyNone);
            state.top.place += 1;
            Ok(None)
        }
    }
}

/// Writes a value that the frame owns to the pair at a place of the dict that a cell holds. The key, which the frame owns
/// too, and the value that stood there are given up.
fn put_value(
    state: &mut State,
    target: Option<usize>,
    dict: Key,
    place: usize,
    key: Word,
    word: Word,
) -> Option<Ending>
    requires place { state.old.top.place + 1 < 2 ^ 64 }
    requires dict { HoldsDict (numbered state.old.cells) (number_of dict) }
    requires within { place < length (pairs_at (numbered state.old.cells) (number_of dict)) }
    requires ours { IsOurs state.old.cells (name_of dict) }
    requires key { IsOurWord state.old.cells key }
    requires word { IsOurWord state.old.cells word }
    ensures { Follows (entry_put target dict (Some place) key word) result (seen state.old) (seen state.new) }
{
    match state.cells.set_word(dict, place, Some(word)) {
        // The cell is there, as was tested first.
        Err(Dead) => Some(Ending::Fault(Fault::Dead)),
        Ok(held) => {
            state.top.lose(key);
            state.top.lose(word);
            give_word(&mut state.cells, Some(key));
            give_word(&mut state.cells, held);
            state.top.set_target(target, Word::PyNone);
            state.top.place += 1;
            None
        }
    }
}

/// Takes the pair of a key out of a dict, and gives up what it held. Without such a key it fails.
fn delete_entry(
    state: &mut State,
    alloc: Global,
    target: Option<usize>,
    args: &[CArg],
) -> Result<Option<Ending>, Memory>
    requires small { IsSmall (seen state.old) }
    requires place { state.old.top.place + 1 < 2 ^ 64 }
    ensures { Calls (prim.Dict dict_prim.DelItem) target args.now (seen state.old) (seen state.new) result }
{
    match dict_key(state, args) {
        Err(fault) => Ok(Some(Ending::Fault(fault))),
        Ok((dict, key)) => match key_place(state, dict, key) {
            None => {
                let text = key_text(state, alloc, key)?;
                state.fail(target, Word::Char(2), ExcClass::KeyError, text)
            }
            Some(place) => Ok(take_entry(state, target, dict, place)),
        },
    }
}

/// Takes the pair at a place out of the dict that a cell holds, and gives up what it held.
fn take_entry(state: &mut State, target: Option<usize>, dict: Key, place: usize) -> Option<Ending>
    requires place { state.old.top.place + 1 < 2 ^ 64 }
    requires dict { HoldsDict (numbered state.old.cells) (number_of dict) }
    requires within { place < length (pairs_at (numbered state.old.cells) (number_of dict)) }
    requires ours { IsOurs state.old.cells (name_of dict) }
    ensures { Follows (entry_taken target dict place) result (seen state.old) (seen state.new) }
{
    match state.cells.dict_take(dict, place) {
        // The cell is there, as was tested first, and the place too.
        Err(Dead) => Some(Ending::Fault(Fault::Dead)),
        Ok(None) => Some(Ending::Fault(Fault::Kind)),
        Ok(Some((key, word))) => {
            give_word(&mut state.cells, Some(key));
            give_word(&mut state.cells, Some(word));
            state.top.set_target(target, Word::Char(1));
            state.top.place += 1;
            None
        }
    }
}
