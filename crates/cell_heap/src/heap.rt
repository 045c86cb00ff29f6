use crate::cells::{CountedCell, lookup, lookup_mut};
use crate::content::Content;
use crate::dicts::{has_cell, mark_of_word, place_of_key};
use crate::release::give;
use crate::word::Word;
use slot_arena::{Arena, Key};
use std::alloc::Global;
use std::marker::Model;
use thiserror::Error;
use value_core::{Many, Memory as NoMemory};

/// The key is not in the map: its cell is gone, or the key is another heap's.
#[derive(Clone, Copy, Debug, PartialEq, Eq, Error)]
#[error("the cell is gone")]
pub struct Dead;

/// Why a call that may take memory did nothing.
#[derive(Clone, Copy, Debug, PartialEq, Eq, Error)]
pub enum HeapError {
    /// The key is not in the map: its cell is gone, or the key is another heap's.
    #[error("the cell is gone")]
    Dead,
    #[error("there is no memory")]
    Memory,
}

impl From<NoMemory> for HeapError {
    ghost use Rattle.std.specs.Prelude.{◌≡◌};
    ghost use Rattle.cell_heap.specs.declared.heap.HeapError.TheVariants as errors;

    ghost from_gives = { λ _ e. e ≡ errors.Memory };

    fn from(_refused: NoMemory) -> HeapError {
        HeapError::Memory
    }
}

/// Counted cells. Contracts see them as a map from keys: the machine's cells (`Cells` of c_core) by serial, each with the slot
/// in which it lies (`specs/Placed.antt`). A key is in the map where the cell of its serial is there and lies in the key's
/// slot; each call by another key answers that the cell is gone.
#[derive(Drop)]
pub struct Heap {
    alloc: Global,
    cells: Arena<CountedCell>,
}

impl Model for Heap {
    ghost use Rattle.c_core.specs.Cells.{Cells};
    ghost use Rattle.cell_heap.specs.Placed.{Placed};

    ghost Value = { Cells Placed };

    ghost use Rattle.std.specs.Prelude.{◌≡◌, []};
    ghost use Rattle.cell_heap.specs.Held.{cells_of};
    ghost use Rattle.cell_heap.specs.Marks.{IsKept};

    ghost view = { λ heap. cells_of heap.cells.entries };

    ghost invariant = { λ heap. IsKept heap.cells };
}

impl Heap {
    ghost use Rattle.std.specs.Prelude.{◌≡◌, ◌+◌, ◌^◌, ◌<◌, ◌&&◌, [], ◌∷◌, length, map, is_ok, is_some, is_none, true, Some, None, IfSome, IfOk, OnOk, OnErr, MatchResult};
    ghost use Rattle.c_core.specs.Cells.{count_at, make, take_one};
    ghost use Rattle.c_core.specs.Release.{release};
    ghost use Rattle.std.specs.Option.{option_map, option_and_then};
    ghost use Rattle.slot_arena.specs.Serials.{serial_of};
    ghost use Rattle.cell_heap.specs.Contents.{name_of, number_of, word_named, pair_named, content_named};
    ghost use Rattle.cell_heap.specs.Placed.{placed_under, number_in, held_at, refs_under, refill_held, is_there, place_under};
    ghost use Rattle.cell_heap.specs.Numbers.{keys_of, numbers_of};
    ghost use Rattle.cell_heap.specs.Pairs.{is_dict, with_pair, without_pair, pair_in};
    ghost use Rattle.cell_heap.specs.Words.{with_word, with_last, without_last, is_list, word_in, last_in, is_dead};

    /// No cell was made yet. It takes no memory.
    pub fn new(alloc: Global) -> Heap
        ensures { result ≡ [] }
    {
        Heap {
            alloc,
            cells: Arena::new(alloc),
        }
    }

    /// Makes a cell with one reference to it, the maker's, and answers its key. The references in the content are now the
    /// cell's.
    ///
    /// # Errors
    ///
    /// `Memory`; then the heap is as before.
    pub fn make(&mut self, mut content: Content) -> Result<Key, NoMemory>
        requires { length self.old + 1 < 2 ^ 128 }
        ensures serial { IfOk result (λ key. serial_of key ≡ length self.old) }
        ensures key { IfOk result (λ key. number_of key ≡ length self.old) }
        ensures made { IfOk result (λ key. self.new ≡ make (placed_under key (content_named content)) self.old) }
        ensures err { OnErr result (self.new ≡ self.old) }
    {
        self.cells.reserve(1)?;
        content.forget_marks();
        Ok(self.cells.insert(CountedCell { count: 1, content }))
    }

    /// Takes one reference more to a cell. It takes no memory.
    ///
    /// # Errors
    ///
    /// `Dead` for a key that the map does not have, and for no other.
    pub fn take(&mut self, key: Key) -> Result<(), Dead>
        requires { count_at self.old (number_in self.old (name_of key)) + 1 < 2 ^ 128 }
        ensures there { is_ok result ≡ is_some (held_at self.old (name_of key)) }
        ensures ok { OnOk result (self.new ≡ take_one (number_in self.old (name_of key)) self.old) }
        ensures dead { OnErr result (self.new ≡ self.old) }
        ensures made { length self.new ≡ length self.old }
    {
        let Some(cell) = lookup_mut(&mut self.cells, key) else {
            return Err(Dead);
        };
        cell.count += 1;
        Ok(())
    }

    /// Gives one reference to a cell up. With the last one the cell goes and gives up each reference that it holds, to any
    /// depth; a reference whose key is not in the map is passed over. It takes no memory.
    ///
    /// # Errors
    ///
    /// `Dead` for a key that the map does not have, and for no other.
    pub fn give(&mut self, key: Key) -> Result<(), Dead>
        ensures there { is_ok result ≡ is_some (held_at self.old (name_of key)) }
        ensures ok { OnOk result (self.new ≡ release (refs_under self.old) self.old (number_in self.old (name_of key) ∷ [])) }
        ensures dead { OnErr result (self.new ≡ self.old) }
        ensures made { length self.new ≡ length self.old }
    {
        if lookup(&self.cells, key).is_some() {
            give(&mut self.cells, key);
            Ok(())
        } else {
            Err(Dead)
        }
    }

    /// What a cell holds.
    ///
    /// # Errors
    ///
    /// `Dead` for a key that the map does not have, and for no other.
    pub fn content(&self, key: Key) -> Result<&Content, Dead>
        ensures { MatchResult result (λ content. held_at self.now (name_of key) ≡ Some (content_named content.now)) (λ _. held_at self.now (name_of key) ≡ None) }
    {
        match lookup(&self.cells, key) {
            None => Err(Dead),
            Some(cell) => Ok(&cell.content),
        }
    }

    /// How many references to a cell there are.
    ///
    /// # Errors
    ///
    /// `Dead` for a key that the map does not have, and for no other.
    pub fn count(&self, key: Key) -> Result<u128, Dead>
        ensures there { is_ok result ≡ is_some (held_at self.now (name_of key)) }
        ensures count { IfOk result (λ count. count ≡ count_at self.now (number_in self.now (name_of key))) }
    {
        match lookup(&self.cells, key) {
            None => Err(Dead),
            Some(cell) => Ok(cell.count),
        }
    }

    /// The word at a place of what a cell holds: an item, the value of a pair, or what an attribute holds. There is none
    /// where an attribute is unset, and none where there is no such place.
    ///
    /// # Errors
    ///
    /// `Dead` for a key that the map does not have, and for no other.
    pub fn word_at(&self, key: Key, place: usize) -> Result<Option<Word>, Dead>
        ensures there { is_ok result ≡ is_some (held_at self.now (name_of key)) }
        ensures word { IfOk result (λ word. option_map word_named word ≡ option_and_then (word_in place) (held_at self.now (name_of key))) }
    {
        match lookup(&self.cells, key) {
            None => Err(Dead),
            Some(cell) => Ok(cell.content.word_at(place)),
        }
    }

    /// Writes a word to a place of what a cell holds, and answers the one that stood there: an item, the value of a pair,
    /// whose key stays, or what an attribute holds. Nothing is written where there is no such place, and only an attribute
    /// can be unset. The reference in the word is now the cell's, and that in the answer the caller's. It takes no memory.
    ///
    /// # Errors
    ///
    /// `Dead` for a key that the map does not have, and for no other; then the heap is as before.
    pub fn set_word(
        &mut self,
        key: Key,
        place: usize,
        word: Option<Word>,
    ) -> Result<Option<Word>, Dead>
        ensures there { is_ok result ≡ is_some (held_at self.old (name_of key)) }
        ensures ok { OnOk result (self.new ≡ refill_held (with_word place (option_map word_named word)) (name_of key) self.old) }
        ensures old { IfOk result (λ old. option_map word_named old ≡ option_and_then (word_in place) (held_at self.old (name_of key))) }
        ensures dead { OnErr result (self.new ≡ self.old) }
        ensures made { length self.new ≡ length self.old }
    {
        let Some(cell) = lookup_mut(&mut self.cells, key) else {
            return Err(Dead);
        };
        Ok(cell.content.set_word(place, word))
    }

    /// Puts a word at the end of the list that a cell holds. The reference in the word is now the cell's.
    ///
    /// # Errors
    ///
    /// `Dead` for a key that the map does not have and for no other, and `Memory`; then the heap is as before.
    pub fn push_word(&mut self, key: Key, word: Word) -> Result<(), HeapError>
        requires { IfSome (held_at self.old (name_of key)) (λ content. is_list content ≡ true) }
        ensures there { is_dead result ≡ is_none (held_at self.old (name_of key)) }
        ensures ok { OnOk result (self.new ≡ refill_held (with_last (word_named word)) (name_of key) self.old) }
        ensures err { OnErr result (self.new ≡ self.old) }
        ensures made { length self.new ≡ length self.old }
    {
        let Some(cell) = lookup_mut(&mut self.cells, key) else {
            return Err(HeapError::Dead);
        };
        cell.content.push_word(word)?;
        Ok(())
    }

    /// Takes the last word off the list that a cell holds, and answers it. There is none where the list is empty, and none
    /// where the cell holds no list. The reference in the answer is the caller's. It takes no memory.
    ///
    /// # Errors
    ///
    /// `Dead` for a key that the map does not have, and for no other; then the heap is as before.
    pub fn pop_word(&mut self, key: Key) -> Result<Option<Word>, Dead>
        ensures there { is_ok result ≡ is_some (held_at self.old (name_of key)) }
        ensures ok { OnOk result (self.new ≡ refill_held without_last (name_of key) self.old) }
        ensures last { IfOk result (λ last. option_map word_named last ≡ option_and_then last_in (held_at self.old (name_of key))) }
        ensures dead { OnErr result (self.new ≡ self.old) }
        ensures made { length self.new ≡ length self.old }
    {
        let Some(cell) = lookup_mut(&mut self.cells, key) else {
            return Err(Dead);
        };
        Ok(cell.content.pop_word())
    }

    /// The place of the first pair of the dict that a cell holds whose key equals the key that a word is: a number a number, a text
    /// a text, a truth a truth. There is none where the word is no key, and none where the cell holds no dict; a word whose
    /// key is not in the map equals none.
    ///
    /// # Errors
    ///
    /// `Dead` exactly where the key of the dict, or that of the word, is not in the map.
    pub fn dict_find(&self, dict: Key, key: Word) -> Result<Option<usize>, Dead>
        ensures there { is_ok result ≡ (is_some (held_at self.now (name_of dict)) && is_there self.now (word_named key)) }
        ensures place { IfOk result (λ place. place ≡ place_under self.now (name_of dict) (word_named key)) }
    {
        let Some(cell) = lookup(&self.cells, dict) else {
            return Err(Dead);
        };
        if !has_cell(&self.cells, key) {
            return Err(Dead);
        }
        match &cell.content {
            Content::Dict(dict) => Ok(place_of_key(&self.cells, dict, key)),
            _ => Ok(None),
        }
    }

    /// Puts a pair behind the others of the dict that a cell holds. The references in its words are now the cell's.
    ///
    /// # Errors
    ///
    /// `Dead` for a key that the map does not have and for no other, and `Memory`; then the heap is as before.
    pub fn dict_push(&mut self, dict: Key, pair: (Word, Word)) -> Result<(), HeapError>
        requires { IfSome (held_at self.old (name_of dict)) (λ content. is_dict content ≡ true) }
        ensures there { is_dead result ≡ is_none (held_at self.old (name_of dict)) }
        ensures ok { OnOk result (self.new ≡ refill_held (with_pair (pair_named pair)) (name_of dict) self.old) }
        ensures err { OnErr result (self.new ≡ self.old) }
        ensures made { length self.new ≡ length self.old }
    {
        let mark = mark_of_word(&self.cells, pair.0);
        let Some(cell) = lookup_mut(&mut self.cells, dict) else {
            return Err(HeapError::Dead);
        };
        cell.content.push_pair(pair, mark)?;
        Ok(())
    }

    /// Takes the pair at a place out of the dict that a cell holds, and answers it; those behind it move up. There is none where
    /// there is no such place, and none where the cell holds no dict. The references in the answer are the caller's. It takes no
    /// memory.
    ///
    /// # Errors
    ///
    /// `Dead` for a key that the map does not have, and for no other; then the heap is as before.
    pub fn dict_take(&mut self, dict: Key, place: usize) -> Result<Option<(Word, Word)>, Dead>
        ensures there { is_ok result ≡ is_some (held_at self.old (name_of dict)) }
        ensures ok { OnOk result (self.new ≡ refill_held (without_pair place) (name_of dict) self.old) }
        ensures pair { IfOk result (λ pair. option_map pair_named pair ≡ option_and_then (pair_in place) (held_at self.old (name_of dict))) }
        ensures dead { OnErr result (self.new ≡ self.old) }
        ensures made { length self.new ≡ length self.old }
    {
        let alloc = self.alloc;
        let Some(cell) = lookup_mut(&mut self.cells, dict) else {
            return Err(Dead);
        };
        Ok(cell.content.take_pair(alloc, place))
    }

    /// The keys of the cells that are there, in the order in which they were made.
    pub fn keys(&self, alloc: Global) -> Result<Many<Key>, NoMemory>
        ensures keys { IfOk result (λ keys. keys ≡ keys_of self.now) }
        ensures numbers { IfOk result (λ keys. map number_of keys ≡ numbers_of self.now) }
    {
        self.cells.keys(alloc)
    }
}
