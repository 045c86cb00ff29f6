//! What the lines of a code name, found once before a run: the places of labels, what is called, the numbers of globals and
//! classes; and the functions of each class.
#![tactic(auto)]

mod naming;

pub use naming::{Callee, Methods, Named, Tables, Target, table, target_at};
