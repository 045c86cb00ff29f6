//! The keys of dicts: what a word is as a key, and where an equal one stands among pairs.
ghost use Rattle.std.specs.Prelude.{◌≡◌, map, slice_get, IfSome};
ghost use Rattle.std.specs.List.{position};
ghost use Rattle.std.specs.Option.{option_copied, option_map};
ghost use Rattle.c_core.specs.Keys as keys;
ghost use Rattle.cell_heap.specs.Contents.{name_of, word_named, pair_named, content_named};
ghost use Rattle.cell_heap.specs.Held.{cells_of};
ghost use Rattle.cell_heap.specs.Marks.{marks_in, AreMarked, has_key, mark_of, number_mark, text_mark};
ghost use Rattle.cell_heap.specs.Placed.{held_at, key_under, is_there, place_among};
ghost use Rattle.cell_heap.specs.Seen.{key_seen};

use crate::cells::{CountedCell, lookup};
use crate::content::Content;
use crate::pairs::Pairs;
use crate::word::Word;
use indexmap::IndexSet;
use slot_arena::{Arena, Key};

/// What a word is as the key of a dict. A truth is no number.
#[derive(Clone, Copy)]
pub(crate) enum DictKey<'a> {
    Number(i128),
    Text(&'a str),
    Truth(bool),
}

/// Whether the key of a word is in the map, if it has one.
pub(crate) fn has_cell(cells: &Arena<CountedCell>, word: Word) -> bool
    ensures { result ≡ is_there (cells_of cells.now.entries) (word_named word) }
{
    match word {
        Word::Big(key) | Word::Cell(key) => lookup(cells, key).is_some(),
        _ => true,
    }
}

/// The place of the first pair of a dict whose key equals that of a word. There is none where the word is no key.
pub(crate) fn place_of_key(cells: &Arena<CountedCell>, dict: &Pairs, word: Word) -> Option<usize>
    requires { IfSome (marks_in dict.now) (AreMarked (cells_of cells.now.entries) (map (λ pair. word_named pair.0) dict.now.pairs)) }
    ensures { result ≡ place_among (cells_of cells.now.entries) (key_under (cells_of cells.now.entries) (word_named word)) (map pair_named dict.now.pairs) }
{
    match key_of(cells, word) {
        None => None,
        Some(key) => place_in(cells, dict, key),
    }
}

/// The place of the first pair of a dict that has this key.
fn place_in(cells: &Arena<CountedCell>, dict: &Pairs, key: DictKey<'_>) -> Option<usize>
    requires { IfSome (marks_in dict.now) (AreMarked (cells_of cells.now.entries) (map (λ pair. word_named pair.0) dict.now.pairs)) }
    ensures { result ≡ position (λ pair. keys.is_key (key_seen key.entry) (key_under (cells_of cells.now.entries) (word_named pair.0))) dict.now.pairs }
{
    match &dict.marks {
        None => place_of(cells, dict.pairs.as_slice(), key),
        Some(marks) => marked_place(cells, dict.pairs.as_slice(), marks, key),
    }
}

/// The place of the first of pairs that has this key, where the keys have these marks.
fn marked_place(
    cells: &Arena<CountedCell>,
    pairs: &[(Word, Word)],
    marks: &IndexSet<u64>,
    key: DictKey<'_>,
) -> Option<usize>
    requires { AreMarked (cells_of cells.now.entries) (map (λ pair. word_named pair.0) pairs.now) marks.now.keys }
    ensures { result ≡ position (λ pair. keys.is_key (key_seen key.entry) (key_under (cells_of cells.now.entries) (word_named pair.0))) pairs.now }
{
    match marks.get_index_of(&mark(key)) {
        None => None,
        Some(place) => {
            if is_key_at(cells, pairs, place, key) {
                Some(place)
            } else {
                // Another key has the same mark.
                place_of(cells, pairs, key)
            }
        }
    }
}

/// Whether the pair at a place has this key.
fn is_key_at(
    cells: &Arena<CountedCell>,
    pairs: &[(Word, Word)],
    place: usize,
    key: DictKey<'_>,
) -> bool
    ensures { result ≡ has_key (cells_of cells.now.entries) (key_seen key.entry) (slice_get pairs.now place) }
{
    match pairs.get(place) {
        None => false,
        Some(pair) => is_key(cells, key, pair.0),
    }
}

/// The mark of the key that a word is, if it is one.
pub(crate) fn mark_of_word(cells: &Arena<CountedCell>, word: Word) -> Option<u64>
    ensures { result ≡ option_map mark_of (key_under (cells_of cells.now.entries) (word_named word)) }
{
    match key_of(cells, word) {
        None => None,
        Some(key) => Some(mark(key)),
    }
}

/// The mark of a key: equal keys have one mark, and few others have it too.
fn mark(key: DictKey<'_>) -> u64
    ensures { result ≡ mark_of (key_seen key.entry) }
{
    match key {
        DictKey::Number(n) => number_mark(n),
        DictKey::Text(text) => text_mark(text.as_bytes()),
        DictKey::Truth(true) => 1,
        DictKey::Truth(false) => 0,
    }
}

fn number_mark(n: i128) -> u64
    ensures { result ≡ number_mark n }
{
    let half = (n.unsigned_abs() % 0x8000_0000_0000_0000) as u64;
    if n < 0 { 2 * half + 1 } else { 2 * half }
}

fn text_mark(bytes: &[u8]) -> u64
    ensures { result ≡ text_mark 1 bytes.now }
{
    let mut mark = 1;
    for byte in bytes {
        mark = ((mark as u128 * 1_099_511_628_211 + u128::from(*byte))
            % 0x1_0000_0000_0000_0000) as u64;
    }
    mark
}

/// The place of the first of pairs that has this key.
fn place_of(cells: &Arena<CountedCell>, pairs: &[(Word, Word)], key: DictKey<'_>) -> Option<usize>
    ensures { result ≡ position (λ pair. keys.is_key (key_seen key.entry) (key_under (cells_of cells.now.entries) (word_named pair.0))) pairs.now }
{
    pairs.iter().position(|pair| is_key(cells, key, pair.0))
}

/// Whether a word is a key that equals this one.
fn is_key(cells: &Arena<CountedCell>, key: DictKey<'_>, word: Word) -> bool
    ensures { result ≡ keys.is_key (key_seen key.entry) (key_under (cells_of cells.now.entries) (word_named word)) }
{
    match key_of(cells, word) {
        None => false,
        Some(other) => same_key(key, other),
    }
}

/// What a word is as a key of a dict, nothing where it is none or its own key is not in the map.
fn key_of(cells: &Arena<CountedCell>, word: Word) -> Option<DictKey<'_>>
    ensures { option_map key_seen result ≡ key_under (cells_of cells.now.entries) (word_named word) }
{
    match word {
        Word::PyTrue => Some(DictKey::Truth(true)),
        Word::PyFalse => Some(DictKey::Truth(false)),
        Word::Cell(key) => match held(cells, key) {
            None => None,
            Some(content) => key_in(content),
        },
        _ => None,
    }
}

/// What the cell that a key names holds, if it is in the map.
fn held(cells: &Arena<CountedCell>, key: Key) -> Option<&Content>
    ensures { option_map content_named (option_copied result) ≡ held_at (cells_of cells.now.entries) (name_of key) }
{
    match lookup(cells, key) {
        None => None,
        Some(cell) => Some(&cell.content),
    }
}

/// What a content is as a key, if it is one.
fn key_in(content: &Content) -> Option<DictKey<'_>>
    ensures { option_map key_seen result ≡ keys.key_in (content_named content.now) }
{
    match content {
        Content::Int(n) => Some(DictKey::Number(*n)),
        Content::Str(text) => Some(DictKey::Text(text.as_str())),
        _ => None,
    }
}

/// Whether two keys are equal.
fn same_key(first: DictKey<'_>, second: DictKey<'_>) -> bool
    ensures { result ≡ keys.same_key (key_seen first.entry) (key_seen second.entry) }
{
    match (first, second) {
        (DictKey::Number(a), DictKey::Number(b)) => a == b,
        (DictKey::Text(a), DictKey::Text(b)) => a == b,
        (DictKey::Truth(a), DictKey::Truth(b)) => a == b,
        _ => false,
    }
}
