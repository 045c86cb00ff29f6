//! Calls of primitives on lists.
ghost use Rattle.std.specs.Prelude.{◌≡◌, ℕ, ◌+◌, ◌^◌, ◌<◌, true, Option, None, Some, Ok, codes, length, IfOk, IfSome};
ghost use Rattle.value_core.specs.declared.exception.ExcClass.TheVariants as exception_class;
ghost use Rattle.value_core.specs.Exceptions.{thrown};
ghost use Rattle.c_core.specs.declared.code.Code as machine_code;
ghost use Rattle.c_core.specs.declared.primitive.Primitive.TheVariants as prim;
ghost use Rattle.c_core.specs.declared.primitive.ListPrim.TheVariants as list_prim;
ghost use Rattle.c_core.specs.Machine.{CharWord, refs_of};
ghost use Rattle.c_core.specs.Step.{Fails, applied, primitive_step};
ghost use Rattle.c_runner_objects.specs.Lists.{HoldsList, items_at, item_added, item_put, item_taken, appended, item_set};
ghost use Rattle.c_runner_deeds.specs.Deeds.{Calls, MayMake};
ghost use Rattle.c_runner_deeds.specs.Parts.{left_by};
ghost use Rattle.c_runner_deeds.specs.States.{Rest, Follows, IsSmall, state_of, seen};
ghost use Rattle.cell_heap.specs.Contents.{number_of, word_of};
ghost use Rattle.cell_heap.specs.Numbered.{numbered};
ghost use Rattle.cell_heap.specs.Contents.{name_of};
ghost use Rattle.cell_heap.specs.Ours.{IsOurs};
ghost use Rattle.c_runner_deeds.specs.Ours.{IsOurWord};

use crate::items::list_deed;
use c_core::{CArg, Fault, Kind, ListPrim};
use c_runner_deeds::{Ending, State, give_word};
use cell_heap::{Content, Dead, HeapError, Key, Word};
use std::alloc::Global;
use value_core::{ExcClass, Many, Memory, Text, place_of};

/// What is to be written to a list: the cell of the list, the place that the index means, if it means one, and the word.
#[derive(Drop)]
pub(crate) struct ItemWrite {
    pub key: Key,
    pub place: Option<usize>,
    pub word: Word,
}

/// Calls a primitive on lists.
pub fn call_list(
    state: &mut State,
    alloc: Global,
    operation: ListPrim,
    target: Option<usize>,
    args: &[CArg],
) -> Result<Option<Ending>, Memory>
    requires small { IsSmall (seen state.old) }
    requires place { state.old.top.place + 1 < 2 ^ 64 }
    ensures { MayMake (prim.List operation) target args.now (seen state.old) (seen state.new) result }
{
    match operation {
        ListPrim::New => new_list(state, alloc, target, args),
        ListPrim::Append => append(state, target, args),
        ListPrim::SetItem => set_item(state, alloc, target, args),
        ListPrim::Pop => pop(state, alloc, target, args),
        _ => {
            let deed = list_deed(state, alloc, operation, args)?;
            state.perform_deed(target, deed)
        }
    }
}

/// Makes an empty list.
fn new_list(
    state: &mut State,
    alloc: Global,
    target: Option<usize>,
    args: &[CArg],
) -> Result<Option<Ending>, Memory>
    requires small { IsSmall (seen state.old) }
    requires place { state.old.top.place + 1 < 2 ^ 64 }
    ensures { MayMake (prim.List list_prim.New) target args.now (seen state.old) (seen state.new) result }
{
    if args.is_empty() {
        state.make_cell(target, Content::List(Many::new(alloc)))
    } else {
        Ok(Some(Ending::Fault(Fault::Kind)))
    }
}

/// Puts a word at the end of a list, which takes over its reference.
fn append(state: &mut State, target: Option<usize>, args: &[CArg]) -> Result<Option<Ending>, Memory>
    requires { state.old.top.place + 1 < 2 ^ 64 }
    ensures { Calls (prim.List list_prim.Append) target args.now (seen state.old) (seen state.new) result }
{
    match list_and_word(state, args) {
        Err(fault) => Ok(Some(Ending::Fault(fault))),
        Ok((key, word)) => add_item(state, target, key, word),
    }
}

/// The list that the first argument is, and the word that the second and last one gives away.
fn list_and_word(state: &State, args: &[CArg]) -> Result<(Key, Word), Fault>
    ensures found { (rest : Rest) (code : machine_code.Code) (target : Option ℕ) →
        (let s = state_of rest (seen state.now) in
        primitive_step true s code target args.now (prim.List list_prim.Append) ≡ appended target result s) }
    ensures list { IfOk result (λ found. HoldsList (numbered state.now.cells) (number_of found.0)) }
    ensures ours { IfOk result (λ found. IsOurs state.now.cells (name_of found.0)) }
    ensures word { IfOk result (λ found. IsOurWord state.now.cells found.1) }
{
    let key = match state.list_argument(args.first()) {
        Err(fault) => return Err(fault),
        Ok(found) => found.0,
    };
    let Some(argument) = args.get(1) else {
        return Err(Fault::Kind);
    };
    let word = match state.stolen_word(Kind::Object, argument) {
        Err(fault) => return Err(fault),
        Ok(word) => word,
    };
    if args.len() != 2 {
        return Err(Fault::Kind);
    }
    Ok((key, word))
}

/// Puts a word that the frame owns at the end of the list that a cell holds.
fn add_item(
    state: &mut State,
    target: Option<usize>,
    key: Key,
    word: Word,
) -> Result<Option<Ending>, Memory>
    requires place { state.old.top.place + 1 < 2 ^ 64 }
    requires list { HoldsList (numbered state.old.cells) (number_of key) }
    requires ours { IsOurs state.old.cells (name_of key) }
    requires word { IsOurWord state.old.cells word }
    ensures { IfOk result (λ ending. Follows (item_added target key word) ending (seen state.old) (seen state.new)) }
{
    match state.cells.push_word(key, word) {
        Err(HeapError::Memory) => Err(Memory),
        // The cell is there, as was tested first.
        Err(HeapError::Dead) => Ok(Some(Ending::Fault(Fault::Dead))),
        Ok(()) => {
            state.top.lose(word);
            state.top.set_target(target, Word::PyNone);
            state.top.place += 1;
            Ok(None)
        }
    }
}

/// Writes an item of a list, which takes over its reference, and gives up what stood there. An index out of range fails.
fn set_item(
    state: &mut State,
    alloc: Global,
    target: Option<usize>,
    args: &[CArg],
) -> Result<Option<Ending>, Memory>
    requires small { IsSmall (seen state.old) }
    requires place { state.old.top.place + 1 < 2 ^ 64 }
    ensures { Calls (prim.List list_prim.SetItem) target args.now (seen state.old) (seen state.new) result }
{
    match item_write(state, args) {
        Err(fault) => Ok(Some(Ending::Fault(fault))),
        Ok(found) => match found.place {
            None => fail_to_put(state, alloc, target, found.word),
            Some(place) => Ok(put_item(state, target, found.key, place, found.word)),
        },
    }
}

/// The list that the first argument is, the place in it that the second one means, and the word that the third and last
/// one gives away.
fn item_write(state: &State, args: &[CArg]) -> Result<ItemWrite, Fault>
    ensures found { (rest : Rest) (code : machine_code.Code) (target : Option ℕ) →
        (let s = state_of rest (seen state.now) in
        primitive_step true s code target args.now (prim.List list_prim.SetItem) ≡ item_set target result s) }
    ensures list { IfOk result (λ found. HoldsList (numbered state.now.cells) (number_of found.key)) }
    ensures within { IfOk result (λ found. IfSome found.place
        (λ place. place < length (items_at (numbered state.now.cells) (number_of found.key)))) }
    ensures ours { IfOk result (λ found. IsOurs state.now.cells (name_of found.key)) }
    ensures word { IfOk result (λ found. IsOurWord state.now.cells found.word) }
{
    let found = match state.list_argument(args.first()) {
        Err(fault) => return Err(fault),
        Ok(found) => found,
    };
    let index = match state.int_argument(args.get(1)) {
        Err(fault) => return Err(fault),
        Ok(index) => index,
    };
    let Some(argument) = args.get(2) else {
        return Err(Fault::Kind);
    };
    let word = match state.stolen_word(Kind::Object, argument) {
        Err(fault) => return Err(fault),
        Ok(word) => word,
    };
    if args.len() != 3 {
        return Err(Fault::Kind);
    }
    Ok(ItemWrite {
        key: found.0,
        place: place_of(found.1.len(), index),
        word,
    })
}

/// Fails since there is no such place in a list. The word that was to be put there is given up.
fn fail_to_put(
    state: &mut State,
    alloc: Global,
    target: Option<usize>,
    word: Word,
) -> Result<Option<Ending>, Memory>
    requires small { IsSmall (seen state.old) }
    requires place { state.old.top.place + 1 < 2 ^ 64 }
    requires word { IsOurWord state.old.cells word }
    ensures { IfOk result (λ ending. Follows
        (λ s. applied true s target (left_by (word_of word) s.top.ledger) (refs_of (word_of word))
        (Fails (CharWord 2) (thrown exception_class.IndexError (codes "list assignment index out of range")))) ending (seen state.old) (seen state.new)) }
{
    let text = Text::from_str(alloc, "list assignment index out of range")?;
    state.top.lose(word);
    give_word(&mut state.cells, Some(word));
    state.fail_in_room(target, Word::Char(2), ExcClass::IndexError, text)
}

/// Writes a word that the frame owns to a place of the list that a cell holds, and gives up the one that stood there.
fn put_item(
    state: &mut State,
    target: Option<usize>,
    key: Key,
    place: usize,
    word: Word,
) -> Option<Ending>
    requires place { state.old.top.place + 1 < 2 ^ 64 }
    requires list { HoldsList (numbered state.old.cells) (number_of key) }
    requires within { place < length (items_at (numbered state.old.cells) (number_of key)) }
    requires ours { IsOurs state.old.cells (name_of key) }
    requires word { IsOurWord state.old.cells word }
    ensures { Follows (item_put target key (Some place) word) result (seen state.old) (seen state.new) }
{
    match state.cells.set_word(key, place, Some(word)) {
        // The cell is there, as was tested first.
        Err(Dead) => Some(Ending::Fault(Fault::Dead)),
        Ok(held) => {
            state.top.lose(word);
            give_word(&mut state.cells, held);
            state.top.set_target(target, Word::Char(1));
            state.top.place += 1;
            None
        }
    }
}

/// Takes the last item out of a list, and answers it. An empty list fails.
fn pop(
    state: &mut State,
    alloc: Global,
    target: Option<usize>,
    args: &[CArg],
) -> Result<Option<Ending>, Memory>
    requires small { IsSmall (seen state.old) }
    requires place { state.old.top.place + 1 < 2 ^ 64 }
    ensures { Calls (prim.List list_prim.Pop) target args.now (seen state.old) (seen state.new) result }
{
    let key = match state.one_list(args) {
        Err(fault) => return Ok(Some(Ending::Fault(fault))),
        Ok(found) => found.0,
    };
    take_item(state, alloc, target, key)
}

/// Takes the last item out of the list that a cell holds, and writes it to the target.
fn take_item(
    state: &mut State,
    alloc: Global,
    target: Option<usize>,
    key: Key,
) -> Result<Option<Ending>, Memory>
    requires small { IsSmall (seen state.old) }
    requires place { state.old.top.place + 1 < 2 ^ 64 }
    requires list { HoldsList (numbered state.old.cells) (number_of key) }
    requires ours { IsOurs state.old.cells (name_of key) }
    ensures { IfOk result (λ ending. Follows (item_taken target key) ending (seen state.old) (seen state.new)) }
{
    match state.cells.pop_word(key) {
        // The cell is there, as was tested first.
        Err(Dead) => Ok(Some(Ending::Fault(Fault::Dead))),
        Ok(None) => {
            let text = Text::from_str(alloc, "pop from empty list")?;
            state.fail_in_room(target, Word::Null, ExcClass::IndexError, text)
        }
        Ok(Some(word)) => {
            state.top.own(word)?;
            state.top.set_target(target, word);
            state.top.place += 1;
            Ok(None)
        }
    }
}
