//! The rules of displays and of items: lists, dicts, tuples, and what is read out of them.
//!
//! They are as the rules of `py_check_operators`: typed parts in, the typed node or its diagnostic out, exactly by the definitions in
//! `specs/`.
#![tactic(auto)]

mod dicts;
mod items;
mod lists;
mod tuples;

pub use dicts::{EntryTypes, dict_display, expected_entry, key_want, value_want, with_entry};
pub use items::{Literal, indexing, literal_of};
pub use lists::{item_type, items_row, list_display};
pub use tuples::{parts_row, tuple_display};
