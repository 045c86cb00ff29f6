//! What the primitives do that read a dict.
ghost use Rattle.std.specs.Prelude.{◌≡◌, map, slice_get, IfOk};
ghost use Rattle.c_core.specs.Step as machine_step;
ghost use Rattle.c_core.specs.Step.{Shares, of_pair};
ghost use Rattle.c_runner_deeds.specs.Deeds.{effect_of, done_by, dict_done, dict_item_done, dict_contains_done, dict_size_done, dict_key_done, dict_length_done};
ghost use Rattle.cell_heap.specs.Contents.{word_of, pair_of};
ghost use Rattle.cell_heap.specs.Numbered.{numbered};
ghost use Rattle.cell_heap.specs.Ours.{AreOurs};
ghost use Rattle.cell_heap.specs.Contents.{pairs_refs};
ghost use Rattle.c_runner_deeds.specs.Deeds.{IsOurDeed};
ghost use Rattle.c_core.specs.Cells.{Cells};
ghost use Rattle.cell_heap.specs.Placed.{Placed};

use crate::keys::{dict_key, key_place, key_text};
use c_core::{CArg, DictPrim, Fault};
use c_runner_deeds::{Deed, State, int_deed, truth};
use cell_heap::Word;
use std::alloc::Global;
use value_core::{ExcClass, Memory, Text};

/// What a primitive does that reads a dict, if its arguments are right.
pub(crate) fn dict_deed(
    state: &State,
    alloc: Global,
    operation: DictPrim,
    args: &[CArg],
) -> Result<Result<Deed, Fault>, Memory>
    ensures done { IfOk result (λ deed. done_by deed
        ≡ dict_done operation (numbered state.now.cells) (map word_of state.now.top.vars) args.now) }
    ensures ours { IfOk result (λ deed. IfOk deed (IsOurDeed state.now.cells)) }
{
    match operation {
        DictPrim::GetItem => dict_item_deed(state, alloc, args),
        DictPrim::Contains => Ok(dict_contains_deed(state, args)),
        DictPrim::CheckSize => dict_size_deed(state, alloc, args),
        DictPrim::KeyAt => Ok(dict_key_deed(state, args)),
        DictPrim::Len => Ok(dict_length_deed(state, args)),
        DictPrim::New | DictPrim::SetItem | DictPrim::DelItem => Ok(Err(Fault::Kind)),
    }
}

/// Answers the value of a key in a dict. Without such a key it fails.
fn dict_item_deed(
    state: &State,
    alloc: Global,
    args: &[CArg],
) -> Result<Result<Deed, Fault>, Memory>
    ensures done { IfOk result (λ deed. done_by deed
        ≡ dict_item_done (numbered state.now.cells) (map word_of state.now.top.vars) args.now) }
    ensures ours { IfOk result (λ deed. IfOk deed (IsOurDeed state.now.cells)) }
{
    match state.dict_and_key(args) {
        Err(fault) => Ok(Err(fault)),
        Ok((dict, pairs, key)) => match key_place(state, dict, key) {
            Some(place) => Ok(Ok(value(pairs.as_slice(), place))),
            None => {
                let text = key_text(state, alloc, key)?;
                Ok(Ok(Deed::Fails(Word::Null, ExcClass::KeyError, text)))
            }
        },
    }
}

/// Answers whether a dict has a key.
fn dict_contains_deed(state: &State, args: &[CArg]) -> Result<Deed, Fault>
    ensures done { done_by result ≡ dict_contains_done (numbered state.now.cells) (map word_of state.now.top.vars) args.now }
    ensures ours { IfOk result (IsOurDeed state.now.cells) }
{
    match dict_key(state, args) {
        Err(fault) => Err(fault),
        Ok((dict, key)) => Ok(Deed::Says(truth(key_place(state, dict, key).is_some()))),
    }
}

/// Answers 1 where a dict has so many pairs, and fails where it has not.
fn dict_size_deed(
    state: &State,
    alloc: Global,
    args: &[CArg],
) -> Result<Result<Deed, Fault>, Memory>
    ensures done { IfOk result (λ deed. done_by deed
        ≡ dict_size_done (numbered state.now.cells) (map word_of state.now.top.vars) args.now) }
    ensures ours { IfOk result (λ deed. IfOk deed (IsOurDeed state.now.cells)) }
{
    match state.dict_and_int(args) {
        Err(fault) => Ok(Err(fault)),
        Ok((_, pairs, size)) => Ok(Ok(sized(alloc, pairs.len() as i128 == size)?)),
    }
}

/// Answers the key at a place of a dict.
fn dict_key_deed(state: &State, args: &[CArg]) -> Result<Deed, Fault>
    ensures done { done_by result ≡ dict_key_done (numbered state.now.cells) (map word_of state.now.top.vars) args.now }
    ensures ours { IfOk result (IsOurDeed state.now.cells) }
{
    match state.dict_and_int(args) {
        Err(fault) => Err(fault),
        Ok((_, pairs, place)) => Ok(key_at(pairs.as_slice(), place)),
    }
}

/// Answers how many pairs a dict has.
fn dict_length_deed(state: &State, args: &[CArg]) -> Result<Deed, Fault>
    ensures done { done_by result ≡ dict_length_done (numbered state.now.cells) (map word_of state.now.top.vars) args.now }
    ensures ours { IfOk result (IsOurDeed state.now.cells) }
{
    match state.one_dict(args) {
        Err(fault) => Err(fault),
        Ok((_, pairs)) => Ok(int_deed(pairs.len() as i128)),
    }
}

/// Answers the value of the pair at a place, where there is one.
fn value(pairs: &[(Word, Word)], place: usize) -> Deed
    ensures done { effect_of result ≡ of_pair (λ p. Shares p.1) (slice_get (map pair_of pairs.now) place) }
    ensures ours { (cells : Cells Placed) → AreOurs cells (pairs_refs pairs.now) → IsOurDeed cells result }
{
    match pairs.get(place) {
        Some(pair) => Deed::Shares(pair.1),
        None => Deed::Wrong,
    }
}

/// Answers the key of the pair at a place, where there is one.
fn key_at(pairs: &[(Word, Word)], place: i128) -> Deed
    ensures done { effect_of result ≡ machine_step.key_at (map pair_of pairs.now) place }
    ensures ours { (cells : Cells Placed) → AreOurs cells (pairs_refs pairs.now) → IsOurDeed cells result }
{
    match usize::try_from(place) {
        Ok(place) => key(pairs, place),
        Err(_) => Deed::Wrong,
    }
}

fn key(pairs: &[(Word, Word)], place: usize) -> Deed
    ensures done { effect_of result ≡ of_pair (λ p. Shares p.0) (slice_get (map pair_of pairs.now) place) }
    ensures ours { (cells : Cells Placed) → AreOurs cells (pairs_refs pairs.now) → IsOurDeed cells result }
{
    match pairs.get(place) {
        Some(pair) => Deed::Shares(pair.0),
        None => Deed::Wrong,
    }
}

/// Answers 1 where a dict has as many pairs as it had, and fails where it has not.
fn sized(alloc: Global, is_same: bool) -> Result<Deed, Memory>
    ensures done { IfOk result (λ deed. effect_of deed ≡ machine_step.sized is_same) }
    ensures ours { IfOk result (λ deed. (cells : Cells Placed) → IsOurDeed cells deed) }
{
    if is_same {
        Ok(Deed::Says(Word::Char(1)))
    } else {
        let text = Text::from_str(alloc, "dictionary changed size during iteration")?;
        Ok(Deed::Fails(Word::Char(2), ExcClass::RuntimeError, text))
    }
}
