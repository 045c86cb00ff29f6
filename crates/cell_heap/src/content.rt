ghost use Rattle.std.specs.Prelude.{◌≡◌, [], map, slice_get, slice_set, IfSome, OnOk, OnErr};
ghost use Rattle.std.specs.Option.{option_map};
ghost use Rattle.cell_heap.specs.Contents.{word_named, pair_named, content_named};
ghost use Rattle.cell_heap.specs.Marks.{marks_of, keys_in, KeepsKeys, IsPut, IsTakenOut};
ghost use Rattle.cell_heap.specs.Pairs.{with_pair, pair_in, without_pair};
ghost use Rattle.cell_heap.specs.Words.{word_in, set_item, set_value, with_word, with_last, last_in, without_last};

use crate::letters::Letters;
use crate::pairs::Pairs;
use crate::word::Word;
use std::alloc::Global;
use value_core::{ExcClass, Many, Memory, Text};

/// What a cell holds. `specs/Contents.antt` says which content of the machine it is.
#[derive(Drop)]
pub enum Content {
    /// A number.
    Int(i128),
    Str(Letters),
    /// The items.
    List(Many<Word>),
    /// The pairs of a key and a value, in the order of their insertion.
    Dict(Pairs),
    /// The items.
    Tuple(Many<Word>),
    /// The number of the class, and what each attribute holds, or nothing.
    Inst(usize, Many<Option<Word>>),
    /// The class and the text.
    Exc(ExcClass, Text),
}

impl Content {
    /// Forgets the marks of a dict's keys.
    pub(crate) fn forget_marks(&mut self)
        ensures content { content_named self.new ≡ content_named self.old }
        ensures marks { IfSome (marks_of self.new) (λ marks. (marks ≡ []) × (keys_in self.new ≡ [])) }
    {
        if let Content::Dict(dict) = self {
            dict.forget_marks();
        }
    }

    /// The word at a place: an item, the value of a pair, or what an attribute holds.
    pub(crate) fn word_at(&self, place: usize) -> Option<Word>
        ensures { option_map word_named result ≡ word_in place (content_named self.now) }
    {
        match self {
            Content::Int(_) | Content::Str(_) | Content::Exc(_, _) => None,
            Content::List(items) | Content::Tuple(items) => items.get(place).copied(),
            Content::Dict(dict) => match dict.pairs.get(place) {
                None => None,
                Some(pair) => Some(pair.1),
            },
            Content::Inst(_, attributes) => attributes.get(place).copied().flatten(),
        }
    }

    /// Writes a word to a place, or nothing to that of an attribute, and answers what stood there.
    pub(crate) fn set_word(&mut self, place: usize, word: Option<Word>) -> Option<Word>
        ensures written { content_named self.new ≡ with_word place (option_map word_named word) (content_named self.old) }
        ensures old { option_map word_named result ≡ word_in place (content_named self.old) }
        ensures keys { KeepsKeys self.old self.new }
    {
        match self {
            Content::Int(_) | Content::Str(_) | Content::Exc(_, _) => None,
            Content::List(items) => write_item(items, place, word),
            Content::Dict(dict) => write_value(&mut dict.pairs, place, word),
            Content::Tuple(items) => write_item(items, place, word),
            Content::Inst(_, attributes) => replaced(attributes, place, word).flatten(),
        }
    }

    /// Puts a word at the end of a list.
    pub(crate) fn push_word(&mut self, word: Word) -> Result<(), Memory>
        ensures ok { OnOk result (content_named self.new ≡ with_last (word_named word) (content_named self.old)) }
        ensures err { OnErr result (content_named self.new ≡ content_named self.old) }
        ensures keys { KeepsKeys self.old self.new }
    {
        match self {
            Content::List(items) => items.push(word),
            _ => Ok(()),
        }
    }

    /// Takes the last word off a list that has one.
    pub(crate) fn pop_word(&mut self) -> Option<Word>
        ensures rest { content_named self.new ≡ without_last (content_named self.old) }
        ensures last { option_map word_named result ≡ last_in (content_named self.old) }
        ensures keys { KeepsKeys self.old self.new }
    {
        match self {
            Content::List(items) => items.pop(),
            _ => None,
        }
    }

    /// Puts a pair behind the others of a dict, whose key has a mark or none.
    pub(crate) fn push_pair(&mut self, pair: (Word, Word), mark: Option<u64>) -> Result<(), Memory>
        ensures ok { OnOk result (content_named self.new ≡ with_pair (pair_named pair) (content_named self.old)) }
        ensures marked { OnOk result (IsPut pair mark self.old self.new) }
        ensures err { OnErr result (self.new ≡ self.old) }
    {
        match self {
            Content::Dict(dict) => dict.push(pair, mark),
            _ => Ok(()),
        }
    }

    /// Takes the pair at a place out of a dict that has one there.
    pub(crate) fn take_pair(&mut self, alloc: Global, place: usize) -> Option<(Word, Word)>
        ensures rest { content_named self.new ≡ without_pair place (content_named self.old) }
        ensures pair { option_map pair_named result ≡ pair_in place (content_named self.old) }
        ensures marked { IsTakenOut place self.old self.new }
    {
        match self {
            Content::Dict(dict) => dict.take(alloc, place),
            _ => None,
        }
    }
}

// Replaces the element at a place, if there is such a place, and answers the old one.
fn replaced<T: Copy>(elements: &mut Many<T>, place: usize, element: T) -> Option<T>
    ensures written { elements.new ≡ slice_set elements.old place element }
    ensures old { result ≡ slice_get elements.old place }
{
    match elements.get(place).copied() {
        None => None,
        Some(old) => {
            elements.set(place, element);
            Some(old)
        }
    }
}

// Writes a word to a place of the items, if there is such a place, and answers the one that stood there.
fn write_item(items: &mut Many<Word>, place: usize, word: Option<Word>) -> Option<Word>
    ensures written { map word_named items.new ≡ set_item (map word_named items.old) place (option_map word_named word) }
    ensures old { result ≡ slice_get items.old place }
{
    match word {
        None => items.get(place).copied(),
        Some(word) => replaced(items, place, word),
    }
}

// Writes a word as the value of the pair at a place, if there is such a place, and answers the one that stood there.
fn write_value(pairs: &mut Many<(Word, Word)>, place: usize, word: Option<Word>) -> Option<Word>
    ensures written { map pair_named pairs.new ≡ set_value (map pair_named pairs.old) place (option_map word_named word) }
    ensures old { result ≡ option_map (λ pair. pair.1) (slice_get pairs.old place) }
{
    match pairs.get(place).copied() {
        None => None,
        Some(old) => {
            pairs.set(place, (old.0, word.unwrap_or(old.1)));
            Some(old.1)
        }
    }
}
