//! References are given up. A cell without any is condemned, and gives its own up once it is taken off.
ghost use Rattle.std.specs.Prelude.{◌≡◌, [], ◌∷◌, true};
ghost use Rattle.c_core.specs.Cells.{Cells};
ghost use Rattle.c_core.specs.Machine.{refs_of, refs_in};
ghost use Rattle.slot_arena.specs.Contents.{value_at};
ghost use Rattle.cell_heap.specs.Contents.{name_of, word_named, content_named, words_refs, pairs_refs, optional_refs};
ghost use Rattle.cell_heap.specs.Held.{cells_of, is_shared, leaves, optional_ref, IsLeft, IsNamed};
ghost use Rattle.cell_heap.specs.Placed.{Placed};
ghost use Rattle.cell_heap.specs.Marks.{AreAllMarked, Gives};

use crate::cells::{CountedCell, lookup, lookup_mut};
use crate::content::Content;
use crate::word::Word;
use slot_arena::{Arena, Key};

/// Gives one reference to the cell of a key up, and those that cells let go of on the way.
pub(crate) fn give(cells: &mut Arena<CountedCell>, key: Key)
    requires { cells.old.condemned ≡ [] }
    ensures cells { cells_of cells.new.entries ≡ leaves (cells_of cells.old.entries) (name_of key ∷ []) cells.old }
    ensures done { cells.new.condemned ≡ [] }
    ensures marked { AreAllMarked cells.old → AreAllMarked cells.new }
{
    lower(cells, key);
    take_off_all(cells);
}

/// Takes the condemned cells off until none is left, and gives up what they hold.
fn take_off_all(cells: &mut Arena<CountedCell>)
    ensures cells { (first : Cells Placed) → IsLeft first (cells_of cells.old.entries) → cells_of cells.new.entries ≡ leaves first [] cells.old }
    ensures done { cells.new.condemned ≡ [] }
    ensures marked { AreAllMarked cells.old → AreAllMarked cells.new }
{
    while let Some(pair) = cells.next_condemned() {
        lower_held(cells, pair.1);
    }
}

/// Gives up the references that a cell held.
fn lower_held(cells: &mut Arena<CountedCell>, cell: CountedCell)
    ensures { Gives (refs_in (content_named cell.content)) cells.old cells.new }
{
    lower_content(cells, &cell.content);
}

/// Gives one reference to the cell of a key up, if the key is in the map. With the last one the cell is condemned.
fn lower(cells: &mut Arena<CountedCell>, key: Key)
    ensures { Gives (name_of key ∷ []) cells.old cells.new }
{
    if is_shared(cells, key) {
        lower_count(cells, key);
    } else {
        cells.condemn(key);
    }
}

/// Whether there is more than one reference to the cell of a key.
fn is_shared(cells: &Arena<CountedCell>, key: Key) -> bool
    ensures shared { result ≡ is_shared (value_at cells.now key) }
    ensures named { IsNamed key }
{
    match lookup(cells, key) {
        None => false,
        Some(cell) => cell.count > 1,
    }
}

/// One reference less to a cell to which there are more.
fn lower_count(cells: &mut Arena<CountedCell>, key: Key)
    requires { is_shared (value_at cells.old key) ≡ true }
    ensures { Gives (name_of key ∷ []) cells.old cells.new }
{
    match lookup_mut(cells, key) {
        None => {}
        Some(cell) => cell.count -= 1,
    }
}

/// Gives up the reference of a word, if it has one.
fn lower_word(cells: &mut Arena<CountedCell>, word: Word)
    ensures { Gives (refs_of (word_named word)) cells.old cells.new }
{
    match word {
        Word::Big(key) | Word::Cell(key) => lower(cells, key),
        _ => {}
    }
}

/// Gives up the reference of a word, if there is one and it has one.
fn lower_optional(cells: &mut Arena<CountedCell>, word: Option<Word>)
    ensures { Gives (optional_ref word) cells.old cells.new }
{
    match word {
        None => {}
        Some(word) => lower_word(cells, word),
    }
}

/// Gives up the references that a content holds.
fn lower_content(cells: &mut Arena<CountedCell>, content: &Content)
    ensures { Gives (refs_in (content_named content.now)) cells.old cells.new }
{
    match content {
        Content::Int(_) | Content::Str(_) | Content::Exc(_, _) => {}
        Content::List(items) | Content::Tuple(items) => lower_words(cells, items.as_slice()),
        Content::Dict(dict) => lower_pairs(cells, dict.pairs.as_slice()),
        Content::Inst(_, attributes) => lower_attributes(cells, attributes.as_slice()),
    }
}

fn lower_words(cells: &mut Arena<CountedCell>, words: &[Word])
    ensures { Gives (words_refs words.now) cells.old cells.new }
{
    for word in words {
        lower_word(cells, *word);
    }
}

fn lower_pairs(cells: &mut Arena<CountedCell>, pairs: &[(Word, Word)])
    ensures { Gives (pairs_refs pairs.now) cells.old cells.new }
{
    for pair in pairs {
        lower_word(cells, pair.0);
        lower_word(cells, pair.1);
    }
}

fn lower_attributes(cells: &mut Arena<CountedCell>, attributes: &[Option<Word>])
    ensures { Gives (optional_refs attributes.now) cells.old cells.new }
{
    for attribute in attributes {
        lower_optional(cells, *attribute);
    }
}
