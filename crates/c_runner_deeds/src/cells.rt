//! The heap of a run. What its cells hold refers to no other heap's cells, and each call is made by a key that the heap gave
//! out: then the heap is the machine's cells, in which a key is its number.
ghost use Rattle.std.specs.Prelude.{◌≡◌};
ghost use Rattle.cell_heap.specs.Contents.{number_of};

use cell_heap::{Content, Dead, Heap, HeapError, Key, Word};
use std::alloc::Global;
use std::marker::Model;
use value_core::{Many, Memory};

/// Counted cells, all of whose references are to cells of the same heap. Contracts see what they see of the heap, and speak of
/// it by numbers.
#[derive(Drop)]
pub struct Cells {
    heap: Heap,
}

impl Model for Cells {
    ghost use Rattle.c_core.specs.Cells.{Cells};
    ghost use Rattle.cell_heap.specs.Placed.{Placed};

    ghost Value = { Cells Placed };

    ghost use Rattle.cell_heap.specs.Ours.{HoldsOurs};

    ghost view = { λ cells. cells.heap };

    ghost invariant = { λ cells. HoldsOurs cells.heap };
}

impl Cells {
    ghost use Rattle.std.specs.Prelude.{◌≡◌, ◌+◌, ◌^◌, ◌<◌, ◌&&◌, [], ◌∷◌, length, map, is_ok, is_some, is_none, true, Some, None, IfSome, IfOk, OnOk, OnErr, MatchResult};
    ghost use Rattle.std.specs.Option.{option_map};
    ghost use Rattle.c_core.specs.Cells as machine_cells;
    ghost use Rattle.c_core.specs.Cells.{content_at, count_at};
    ghost use Rattle.c_core.specs.Machine.{refs_in};
    ghost use Rattle.c_core.specs.Release.{release};
    ghost use Rattle.cell_heap.specs.Contents.{name_of, number_of, word_of, pair_of, content_of, content_named, words_refs, pairs_refs};
    ghost use Rattle.cell_heap.specs.Numbered.{numbered};
    ghost use Rattle.cell_heap.specs.Numbers.{numbers_of};
    ghost use Rattle.cell_heap.specs.Ours.{IsOurs, AreOurs, KeepsPlaces};
    ghost use Rattle.cell_heap.specs.Pairs.{has_cell, place_at, is_dict, with_pair, without_pair, pair_at};
    ghost use Rattle.cell_heap.specs.Words.{with_word, with_last, without_last, is_list, refill_by, word_at, last_at, is_dead};
    ghost use Rattle.c_runner_deeds.specs.Ours.{word_refs, maybe_refs, maybe_pair_refs};

    /// No cell was made yet. It takes no memory.
    pub fn new(alloc: Global) -> Cells
        ensures { result ≡ [] }
    {
        Cells {
            heap: Heap::new(alloc),
        }
    }

    /// Makes a cell with one reference to it, the maker's, and answers its key.
    ///
    /// # Errors
    ///
    /// `Memory`; then the cells are as before.
    pub fn make(&mut self, content: Content) -> Result<Key, Memory>
        requires room { length (numbered self.old) + 1 < 2 ^ 128 }
        requires ours { AreOurs self.old (refs_in (content_named content)) }
        ensures key { IfOk result (λ key. number_of key ≡ length (numbered self.old)) }
        ensures made { OnOk result (numbered self.new ≡ machine_cells.make (content_of content) (numbered self.old)) }
        ensures err { OnErr result (self.new ≡ self.old) }
        ensures ours { IfOk result (λ key. IsOurs self.new (name_of key)) }
        ensures kept { KeepsPlaces self.old self.new }
    {
        self.heap.make(content)
    }

    /// Takes one reference more to a cell. It takes no memory.
    ///
    /// # Errors
    ///
    /// `Dead` exactly where the cell is gone.
    pub fn take(&mut self, key: Key) -> Result<(), Dead>
        requires ours { IsOurs self.old (name_of key) }
        requires count { count_at (numbered self.old) (number_of key) + 1 < 2 ^ 128 }
        ensures there { is_ok result ≡ is_some (content_at (numbered self.old) (number_of key)) }
        ensures ok { OnOk result (numbered self.new ≡ machine_cells.take_one (number_of key) (numbered self.old)) }
        ensures dead { OnErr result (self.new ≡ self.old) }
        ensures kept { KeepsPlaces self.old self.new }
    {
        self.heap.take(key)
    }

    /// Gives one reference to a cell up. With the last one the cell goes and gives up each reference that it holds, to any
    /// depth; a reference to a cell that is gone is passed over. It takes no memory.
    ///
    /// # Errors
    ///
    /// `Dead` exactly where the cell is gone.
    pub fn give(&mut self, key: Key) -> Result<(), Dead>
        requires ours { IsOurs self.old (name_of key) }
        ensures there { is_ok result ≡ is_some (content_at (numbered self.old) (number_of key)) }
        ensures ok { OnOk result (numbered self.new ≡ release refs_in (numbered self.old) (number_of key ∷ [])) }
        ensures dead { OnErr result (self.new ≡ self.old) }
        ensures kept { KeepsPlaces self.old self.new }
    {
        self.heap.give(key)
    }

    /// What a cell holds.
    ///
    /// # Errors
    ///
    /// `Dead` exactly where the cell is gone.
    pub fn content(&self, key: Key) -> Result<&Content, Dead>
        requires { IsOurs self.now (name_of key) }
        ensures content { MatchResult result
            (λ content. content_at (numbered self.now) (number_of key) ≡ Some (content_of content.now))
            (λ _. content_at (numbered self.now) (number_of key) ≡ None) }
        ensures ours { IfOk result (λ content. AreOurs self.now (refs_in (content_named content.now))) }
    {
        self.heap.content(key)
    }

    /// How many references to a cell there are.
    ///
    /// # Errors
    ///
    /// `Dead` exactly where the cell is gone.
    pub fn count(&self, key: Key) -> Result<u128, Dead>
        requires { IsOurs self.now (name_of key) }
        ensures there { is_ok result ≡ is_some (content_at (numbered self.now) (number_of key)) }
        ensures count { IfOk result (λ count. count ≡ count_at (numbered self.now) (number_of key)) }
    {
        self.heap.count(key)
    }

    /// Whether a cell is there.
    pub fn is_live(&self, key: Key) -> bool
        requires { IsOurs self.now (name_of key) }
        ensures { result ≡ is_some (content_at (numbered self.now) (number_of key)) }
    {
        self.count(key).is_ok()
    }

    /// Writes a word to a place of what a cell holds, and answers the one that stood there: an item, the value of a pair,
    /// whose key stays, or what an attribute holds. Nothing is written where there is no such place, and only an attribute
    /// can be unset. It takes no memory.
    ///
    /// # Errors
    ///
    /// `Dead` exactly where the cell is gone; then the cells are as before.
    pub fn set_word(
        &mut self,
        key: Key,
        place: usize,
        word: Option<Word>,
    ) -> Result<Option<Word>, Dead>
        requires ours { IsOurs self.old (name_of key) }
        requires stored { AreOurs self.old (maybe_refs word) }
        ensures there { is_ok result ≡ is_some (content_at (numbered self.old) (number_of key)) }
        ensures ok { OnOk result (numbered self.new ≡ refill_by (with_word place (option_map word_of word)) (number_of key) (numbered self.old)) }
        ensures old { IfOk result (λ old. option_map word_of old ≡ word_at (numbered self.old) (number_of key) place) }
        ensures dead { OnErr result (self.new ≡ self.old) }
        ensures ours { IfOk result (λ old. AreOurs self.new (maybe_refs old)) }
        ensures kept { KeepsPlaces self.old self.new }
    {
        self.heap.set_word(key, place, word)
    }

    /// Puts a word at the end of the list that a cell holds.
    ///
    /// # Errors
    ///
    /// `Dead` exactly where the cell is gone, and `Memory`; then the cells are as before.
    pub fn push_word(&mut self, key: Key, word: Word) -> Result<(), HeapError>
        requires list { IfSome (content_at (numbered self.old) (number_of key)) (λ content. is_list content ≡ true) }
        requires ours { IsOurs self.old (name_of key) }
        requires stored { AreOurs self.old (word_refs word) }
        ensures there { is_dead result ≡ is_none (content_at (numbered self.old) (number_of key)) }
        ensures ok { OnOk result (numbered self.new ≡ refill_by (with_last (word_of word)) (number_of key) (numbered self.old)) }
        ensures err { OnErr result (self.new ≡ self.old) }
        ensures kept { KeepsPlaces self.old self.new }
    {
        self.heap.push_word(key, word)
    }

    /// Takes the last word off the list that a cell holds, and answers it. There is none where the list is empty, and none
    /// where the cell holds no list. It takes no memory.
    ///
    /// # Errors
    ///
    /// `Dead` exactly where the cell is gone; then the cells are as before.
    pub fn pop_word(&mut self, key: Key) -> Result<Option<Word>, Dead>
        requires { IsOurs self.old (name_of key) }
        ensures there { is_ok result ≡ is_some (content_at (numbered self.old) (number_of key)) }
        ensures ok { OnOk result (numbered self.new ≡ refill_by without_last (number_of key) (numbered self.old)) }
        ensures last { IfOk result (λ last. option_map word_of last ≡ last_at (numbered self.old) (number_of key)) }
        ensures dead { OnErr result (self.new ≡ self.old) }
        ensures ours { IfOk result (λ last. AreOurs self.new (maybe_refs last)) }
        ensures kept { KeepsPlaces self.old self.new }
    {
        self.heap.pop_word(key)
    }

    /// The place of the first pair of the dict that a cell holds whose key equals the key that a word is. There is none where
    /// the word is no key, and none where the cell holds no dict; a key whose cell is gone equals none.
    ///
    /// # Errors
    ///
    /// `Dead` exactly where the cell of the dict or that of the word is gone.
    pub fn dict_find(&self, dict: Key, key: Word) -> Result<Option<usize>, Dead>
        requires ours { IsOurs self.now (name_of dict) }
        requires key { AreOurs self.now (word_refs key) }
        ensures there { is_ok result ≡ (is_some (content_at (numbered self.now) (number_of dict)) && has_cell (numbered self.now) (word_of key)) }
        ensures place { IfOk result (λ place. place ≡ place_at (numbered self.now) (number_of dict) (word_of key)) }
    {
        self.heap.dict_find(dict, key)
    }

    /// Puts a pair behind the others of the dict that a cell holds.
    ///
    /// # Errors
    ///
    /// `Dead` exactly where the cell is gone, and `Memory`; then the cells are as before.
    pub fn dict_push(&mut self, dict: Key, pair: (Word, Word)) -> Result<(), HeapError>
        requires dict { IfSome (content_at (numbered self.old) (number_of dict)) (λ content. is_dict content ≡ true) }
        requires ours { IsOurs self.old (name_of dict) }
        requires key { AreOurs self.old (word_refs pair.0) }
        requires value { AreOurs self.old (word_refs pair.1) }
        ensures there { is_dead result ≡ is_none (content_at (numbered self.old) (number_of dict)) }
        ensures ok { OnOk result (numbered self.new ≡ refill_by (with_pair (pair_of pair)) (number_of dict) (numbered self.old)) }
        ensures err { OnErr result (self.new ≡ self.old) }
        ensures kept { KeepsPlaces self.old self.new }
    {
        self.heap.dict_push(dict, pair)
    }

    /// Takes the pair at a place out of the dict that a cell holds, and answers it; those behind it move up. There is none where
    /// there is no such place, and none where the cell holds no dict. It takes no memory.
    ///
    /// # Errors
    ///
    /// `Dead` exactly where the cell is gone; then the cells are as before.
    pub fn dict_take(&mut self, dict: Key, place: usize) -> Result<Option<(Word, Word)>, Dead>
        requires { IsOurs self.old (name_of dict) }
        ensures there { is_ok result ≡ is_some (content_at (numbered self.old) (number_of dict)) }
        ensures ok { OnOk result (numbered self.new ≡ refill_by (without_pair place) (number_of dict) (numbered self.old)) }
        ensures pair { IfOk result (λ pair. option_map pair_of pair ≡ pair_at (numbered self.old) (number_of dict) place) }
        ensures dead { OnErr result (self.new ≡ self.old) }
        ensures ours { IfOk result (λ pair. AreOurs self.new (maybe_pair_refs pair)) }
        ensures kept { KeepsPlaces self.old self.new }
    {
        self.heap.dict_take(dict, place)
    }

    /// The keys of the cells that are there, in the order in which they were made.
    pub fn keys(&self, alloc: Global) -> Result<Many<Key>, Memory>
        ensures numbers { IfOk result (λ keys. map number_of keys ≡ numbers_of (numbered self.now)) }
        ensures ours { IfOk result (λ keys. AreOurs self.now (map name_of keys)) }
    {
        self.heap.keys(alloc)
    }
}

/// The number of a key's cell: how many cells were made before it.
pub fn number_of(key: Key) -> u128
    ensures { result ≡ number_of key }
{
    key.serial()
}
