//! What the primitives do that make and change objects: lists, tuples, dicts, and instances with their attributes.
#![tactic(auto)]

mod dicts;
mod entries;
mod instances;
mod items;
mod keys;
mod lists;
mod tuples;

pub use dicts::call_dict;
pub use instances::{call_attribute, call_instance};
pub use lists::call_list;
pub use tuples::call_tuple;
