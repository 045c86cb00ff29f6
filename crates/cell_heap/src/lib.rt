//! The heap: counted cells under keys that are never used again.
//!
//! What comes in are contents, each of which goes into a new cell with one reference to it; what goes out are keys, and
//! under each key its cell until its last reference is given up. Then the cell goes, and gives up each reference that its
//! content holds, to any depth, without recursion and without memory. Contracts see a heap as a map from keys
//! (`specs/Placed.antt`): the cells of the machine (`Cells` of c_core) by serial, each with the slot in which it lies. A key
//! whose slot is another, or whose cell is gone, is not in the map, and each call by it answers so. A word that is stored
//! may have such a key: then it refers to nothing.
//!
//! `specs/Contents.antt` says which word and which content of the machine one of this crate is, where cells are called by the
//! names of their keys or by their serials, `specs/Words.antt` which word stands at a place of a content, and what becomes of
//! it as words are written, and `specs/Pairs.antt` the same of the pairs of a dict. Who has keys of one heap alone needs no
//! slots: `specs/Numbered.antt` is the heap as the machine's cells, `specs/Ours.antt` says which names are its own, and
//! `proofs/NumberedLemmas.antt` and `proofs/OursLemmas.antt` have for each call that it is the machine's there.
//!
//! `heap` has the calls, and `dicts` compares the keys of dicts. The cells lie in an arena, by whose keys `cells` finds them.
//! `release` gives references up: a cell without any is condemned, and the condemned ones are taken off until none is left.
//! In a dict of `pairs` a key is found by its mark. A text of `letters` knows whether it is ASCII alone, and then finds a code
//! point at once.
#![tactic(auto)]

mod cells;
mod content;
mod dicts;
mod heap;
mod letters;
mod pairs;
mod release;
mod word;

pub use content::Content;
pub use heap::{Dead, Heap, HeapError};
pub use letters::Letters;
pub use pairs::Pairs;
pub use slot_arena::Key;
pub use word::Word;
