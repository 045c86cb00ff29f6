//! The keys of dicts among arguments and in dicts.
ghost use Rattle.std.specs.Prelude.{◌≡◌, Ok, Err, map, IfOk, MatchResult};
ghost use Rattle.c_core.specs.Arguments.{is_holding};
ghost use Rattle.c_core.specs.Keys.{key_of};
ghost use Rattle.c_core.specs.Primitives.{AKey};
ghost use Rattle.c_runner_deeds.specs.Deeds as deeds;
ghost use Rattle.c_runner_objects.specs.Dicts.{HoldsDict, HoldsKey, pairs_at, shown};
ghost use Rattle.c_runner_deeds.specs.Parts.{argument_of};
ghost use Rattle.cell_heap.specs.Contents.{number_of, word_of};
ghost use Rattle.cell_heap.specs.Pairs.{place_for};
ghost use Rattle.cell_heap.specs.Numbered.{numbered};
ghost use Rattle.cell_heap.specs.Contents.{name_of};
ghost use Rattle.cell_heap.specs.Ours.{IsOurs};
ghost use Rattle.c_runner_deeds.specs.Ours.{IsOurWord};

use c_core::{CArg, Fault};
use c_runner_deeds::State;
use cell_heap::{Content, Dead, Key, Word};
use std::alloc::Global;
use value_core::{Memory, Text, number_text};

/// The cell of the dict and the key that the arguments are.
pub(crate) fn dict_key(state: &State, args: &[CArg]) -> Result<(Key, Word), Fault>
    ensures found { MatchResult result
        (λ found. deeds.dict_and_key (numbered state.now.cells) (map word_of state.now.top.vars) args.now
        ≡ Ok ((number_of found.0, pairs_at (numbered state.now.cells) (number_of found.0)), word_of found.1))
        (λ why. deeds.dict_and_key (numbered state.now.cells) (map word_of state.now.top.vars) args.now ≡ Err why) }
    ensures ours { IfOk result (λ found. IsOurs state.now.cells (name_of found.0)) }
    ensures key { IfOk result (λ found. IsOurWord state.now.cells found.1) }
{
    match state.dict_and_key(args) {
        Err(fault) => Err(fault),
        Ok((dict, _, key)) => Ok((dict, key)),
    }
}

/// Whether a word is a truth, or its cell holds a number or a text.
pub(crate) fn is_key(state: &State, word: Word) -> bool
    requires { IsOurWord state.now.cells word }
    ensures { result ≡ is_holding AKey (argument_of (numbered state.now.cells) (word_of word)) }
{
    match word {
        Word::PyTrue | Word::PyFalse => true,
        Word::Big(key) | Word::Cell(key) => match state.cells.content(key) {
            Ok(Content::Int(_) | Content::Str(_)) => true,
            _ => false,
        },
        _ => false,
    }
}

/// The place of a key in the dict that a cell holds, if the dict has an equal one.
pub(crate) fn key_place(state: &State, dict: Key, key: Word) -> Option<usize>
    requires dict { HoldsDict (numbered state.now.cells) (number_of dict) }
    requires key { HoldsKey (numbered state.now.cells) (word_of key) }
    requires ours { IsOurs state.now.cells (name_of dict) }
    requires word { IsOurWord state.now.cells key }
    ensures { result ≡ place_for (numbered state.now.cells) (key_of (numbered state.now.cells) (word_of key)) (pairs_at (numbered state.now.cells) (number_of dict)) }
{
    match state.cells.dict_find(dict, key) {
        // Both are there.
        Err(Dead) => None,
        Ok(place) => place,
    }
}

/// A key as it is printed.
pub(crate) fn key_text(state: &State, alloc: Global, key: Word) -> Result<Text, Memory>
    requires { IsOurWord state.now.cells key }
    ensures { IfOk result (λ text. text ≡ shown (key_of (numbered state.now.cells) (word_of key))) }
{
    match key {
        Word::PyTrue => Text::from_str(alloc, "True"),
        Word::PyFalse => Text::from_str(alloc, "False"),
        Word::Cell(key) => match state.cells.content(key) {
            Ok(Content::Int(n)) => number_text(alloc, *n),
            Ok(Content::Str(text)) => Text::from_str(alloc, text.as_str()),
            _ => Text::from_str(alloc, ""),
        },
        _ => Text::from_str(alloc, ""),
    }
}
