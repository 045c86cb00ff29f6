//! The values that every other crate speaks of: texts, names and lists, numbers and their arithmetic,
//! exception classes.
//!
//! What comes in are plain numbers, texts and lists; what goes out are the results of Python's rules on them,
//! each exactly its definition, with each refusal exactly where the rule refuses. `specs/Arithmetic.antt` has
//! the arithmetic, `specs/Value.antt` the values, objects and stores of a running program, `specs/Items.antt`
//! what a program reads line by line, `specs/Exceptions.antt` exceptions and the tree of their classes,
//! `specs/Ending.antt` how a program ends, and `specs/Characters.antt` the code points of a text. `specs/Laws.antt`
//! says what holds of these definitions, and `laws` proves it.
#![tactic(auto)]

mod arith;
mod characters;
mod exception;
mod int;
mod int64;
mod laws;
mod many;
mod memory;
mod name;
mod number;
mod text;

pub use arith::Arith;
pub use characters::{char_at, char_len, place_of};
pub use exception::{ExcClass, is_under};
pub use int::{
    int_add, int_floor_div, int_modulo, int_mul, int_neg, int_shl, int_shr, int_sub, is_short,
};
pub use int64::{
    i64_add, i64_floor_div, i64_modulo, i64_mul, i64_neg, i64_shl, i64_shr, i64_sub, int_to_i64,
};
pub use laws::{
    byte_order_is_text_order, names_differ, parts_are_a_list, pieces_are_lines, rest_is_near,
};
pub use many::Many;
pub use memory::Memory;
pub use name::Name;
pub use number::number_text;
pub use text::Text;
