//! Operations on values in registers: on whole numbers of 128 bits and of 64, on texts, lists, tuples and dicts, and between types.
//!
//! `emit_operation` adds the code of one operation, whose result goes into a register of its own. `specs/Rows.antt` is the table of
//! the operations: what each takes and gives, its primitive, and what the source does with the values in the registers. Where the
//! source raises an exception, so does the code, with the same class and text. Literals and what one operation does by the type of its
//! operand have functions of their own. `proofs/ThenLemmas.antt` has what two operations do together, one behind the other.
#![tactic(auto)]

mod boxes;
mod coercions;
mod containers;
mod conversions;
mod dicts;
mod input;
mod numbers;
mod operation;
mod parts;
mod texts;

pub use boxes::{emit_boxed, emit_unboxed};
pub use coercions::emit_coercion;
pub use containers::{emit_append, emit_item, emit_list, emit_tuple, emit_tuple_part};
pub use conversions::emit_conversion;
pub use dicts::{emit_dict, emit_entry};
pub use input::emit_input;
pub use numbers::{emit_int, emit_native};
pub use operation::{Compared, Operation, Test, Unboxed, emit_operation};
pub use parts::emit_written;
pub use texts::{emit_text, emit_text_of};
