//! What the primitives do that read a list or a tuple.
ghost use Rattle.std.specs.Prelude.{◌≡◌, length, map, slice_get, IfOk};
ghost use Rattle.value_core.specs.Characters as characters;
ghost use Rattle.c_core.specs.Step as machine_step;
ghost use Rattle.c_core.specs.Step.{Shares, of_word, item_at, part_at};
ghost use Rattle.c_runner_deeds.specs.Deeds.{effect_of, done_by, lent_done, list_done, list_item_done, list_length_done, tuple_done, tuple_item_done, tuple_length_done};
ghost use Rattle.cell_heap.specs.Contents.{word_of};
ghost use Rattle.cell_heap.specs.Numbered.{numbered};
ghost use Rattle.cell_heap.specs.Ours.{AreOurs};
ghost use Rattle.cell_heap.specs.Contents.{words_refs};
ghost use Rattle.c_runner_deeds.specs.Deeds.{IsOurDeed};
ghost use Rattle.c_core.specs.Cells.{Cells};
ghost use Rattle.cell_heap.specs.Placed.{Placed};

use c_core::{CArg, Fault, ListPrim, TuplePrim};
use c_runner_deeds::{Deed, State, int_deed};
use cell_heap::Word;
use std::alloc::Global;
use value_core::{ExcClass, Memory, Text, place_of};

/// What a primitive does that reads a list, if its arguments are right.
pub(crate) fn list_deed(
    state: &State,
    alloc: Global,
    operation: ListPrim,
    args: &[CArg],
) -> Result<Result<Deed, Fault>, Memory>
    ensures done { IfOk result (λ deed. done_by deed
        ≡ list_done operation (numbered state.now.cells) (map word_of state.now.top.vars) args.now) }
    ensures ours { IfOk result (λ deed. IfOk deed (IsOurDeed state.now.cells)) }
{
    match operation {
        ListPrim::GetItem => list_item_deed(state, alloc, args),
        ListPrim::GetItemBorrow => {
            let deed = list_item_deed(state, alloc, args)?;
            Ok(lent(deed))
        }
        ListPrim::Len => Ok(list_length_deed(state, args)),
        ListPrim::New | ListPrim::Append | ListPrim::SetItem | ListPrim::Pop => {
            Ok(Err(Fault::Kind))
        }
    }
}

/// What a primitive does that reads a tuple, if its arguments are right.
pub(crate) fn tuple_deed(state: &State, operation: TuplePrim, args: &[CArg]) -> Result<Deed, Fault>
    ensures done { done_by result ≡ tuple_done operation (numbered state.now.cells) (map word_of state.now.top.vars) args.now }
    ensures ours { IfOk result (IsOurDeed state.now.cells) }
{
    match operation {
        TuplePrim::GetItem => tuple_item_deed(state, args),
        TuplePrim::GetItemBorrow => lent(tuple_item_deed(state, args)),
        TuplePrim::Len => tuple_length_deed(state, args),
        TuplePrim::Pack => Err(Fault::Kind),
    }
}

/// Answers the item of a list at an index.
fn list_item_deed(
    state: &State,
    alloc: Global,
    args: &[CArg],
) -> Result<Result<Deed, Fault>, Memory>
    ensures done { IfOk result (λ deed. done_by deed
        ≡ list_item_done (numbered state.now.cells) (map word_of state.now.top.vars) args.now) }
    ensures ours { IfOk result (λ deed. IfOk deed (IsOurDeed state.now.cells)) }
{
    match state.list_and_int(args) {
        Err(fault) => Ok(Err(fault)),
        Ok((_, items, index)) => Ok(Ok(indexed_item(alloc, items.as_slice(), index)?)),
    }
}

/// Answers how many items a list has.
fn list_length_deed(state: &State, args: &[CArg]) -> Result<Deed, Fault>
    ensures done { done_by result ≡ list_length_done (numbered state.now.cells) (map word_of state.now.top.vars) args.now }
    ensures ours { IfOk result (IsOurDeed state.now.cells) }
{
    match state.one_list(args) {
        Err(fault) => Err(fault),
        Ok((_, items)) => Ok(int_deed(items.len() as i128)),
    }
}

/// Answers how many parts a tuple has.
fn tuple_length_deed(state: &State, args: &[CArg]) -> Result<Deed, Fault>
    ensures done { done_by result ≡ tuple_length_done (numbered state.now.cells) (map word_of state.now.top.vars) args.now }
    ensures ours { IfOk result (IsOurDeed state.now.cells) }
{
    match state.one_tuple(args) {
        Err(fault) => Err(fault),
        Ok((_, parts)) => Ok(int_deed(parts.len() as i128)),
    }
}

/// Answers the part of a tuple of a number.
fn tuple_item_deed(state: &State, args: &[CArg]) -> Result<Deed, Fault>
    ensures done { done_by result ≡ tuple_item_done (numbered state.now.cells) (map word_of state.now.top.vars) args.now }
    ensures ours { IfOk result (IsOurDeed state.now.cells) }
{
    match state.tuple_and_number(args) {
        Err(fault) => Err(fault),
        Ok((_, parts, number)) => Ok(part(parts.as_slice(), number)),
    }
}

/// Answers the item of a list at an index, or fails. A negative index counts from the end.
fn indexed_item(alloc: Global, items: &[Word], index: i128) -> Result<Deed, Memory>
    ensures done { IfOk result (λ deed. effect_of deed
        ≡ item_at (characters.place_of (length (map word_of items.now)) index) (map word_of items.now)) }
    ensures ours { (cells : Cells Placed) → AreOurs cells (words_refs items.now) → IfOk result (IsOurDeed cells) }
{
    match place_of(items.len(), index) {
        Some(place) => Ok(item(items, place)),
        None => {
            let text = Text::from_str(alloc, "list index out of range")?;
            Ok(Deed::Fails(Word::Null, ExcClass::IndexError, text))
        }
    }
}

/// Answers the part of a tuple of a number, where there is one.
fn part(parts: &[Word], number: i64) -> Deed
    ensures done { effect_of result ≡ part_at (map word_of parts.now) number }
    ensures ours { (cells : Cells Placed) → AreOurs cells (words_refs parts.now) → IsOurDeed cells result }
{
    match usize::try_from(number) {
        Ok(place) => item(parts, place),
        Err(_) => Deed::Wrong,
    }
}

/// Answers the item at a place, where there is one.
fn item(items: &[Word], place: usize) -> Deed
    ensures done { effect_of result ≡ of_word Shares (slice_get (map word_of items.now) place) }
    ensures ours { (cells : Cells Placed) → AreOurs cells (words_refs items.now) → IsOurDeed cells result }
{
    match items.get(place) {
        Some(word) => Deed::Shares(*word),
        None => Deed::Wrong,
    }
}

/// Lends what is read.
pub(crate) fn lent(deed: Result<Deed, Fault>) -> Result<Deed, Fault>
    ensures done { done_by result ≡ lent_done (done_by deed) }
    ensures ours { (cells : Cells Placed) → IfOk deed (IsOurDeed cells) → IfOk result (IsOurDeed cells) }
{
    match deed {
        Err(fault) => Err(fault),
        Ok(deed) => Ok(lend(deed)),
    }
}

/// Lends what a deed shares.
fn lend(deed: Deed) -> Deed
    ensures done { effect_of result ≡ machine_step.lent (effect_of deed) }
    ensures ours { (cells : Cells Placed) → IsOurDeed cells deed → IsOurDeed cells result }
{
    match deed {
        Deed::Shares(word) => Deed::Lends(word),
        other => other,
    }
}
