//! Typed values changed to what their place asks for, one by one and in rows.
//!
//! A typed expression comes in, with the type that is asked for; what goes out is the same expression, or its coercion, and of a
//! row of them the first that does not fit. Each is exactly its definition (`specs/Values.antt`, `specs/Rows.antt`).
//! `specs/Boxes.antt` and `specs/Several.antt` have words in which the rules of the crates above are written.
#![tactic(auto)]

mod rows;
mod values;

pub use rows::{Misfit, changed_row, unfit, with_item, with_operand};
pub use values::{changed, coerced, kept, truth};
