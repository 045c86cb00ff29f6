//! What a run of a C text holds, and what the primitives do that leave contents of cells as they are: those on numbers,
//! truths and texts, on exceptions and globals, and the one that writes.
//!
//! A runner keeps a state of its own: `specs/States.antt` says which state of the machine it stands for, and `Follows` and
//! `Leads` that a call leads from the machine's state of the old one to that of the new one. Its words and contents are those of
//! `cell_heap`, and its cells stand in a heap of that crate, whose contracts know a cell by its key, of a slot and a serial. The
//! machine knows it by its number, the serial alone. These are the same where each key is one that this heap gave out: `Cells`
//! keeps that of what the cells hold, and `State` of its variables, its globals and its pending exception (`specs/Ours.antt`).
#![tactic(auto)]

mod arguments;
mod boxes;
mod cells;
mod deed;
mod ending;
mod exceptions;
mod globals;
mod int64;
mod output;
mod pending;
mod results;
mod state;
mod stolen;
mod strings;
mod tagged;
mod words;
mod writing;

pub use arguments::written_number;
pub use cells::{Cells, number_of};
pub use deed::Deed;
pub use ending::Ending;
pub use output::Output;
pub use state::{Frame, State};
pub use stolen::give_word;
pub use tagged::int_deed;
pub use words::{equals_error, error_of, is_error, kind_of, of_literal, truth, unset};
