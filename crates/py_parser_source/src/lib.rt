//! From the bytes of a file to the tree of its module, or to what is wrong before that.
//!
//! What comes in are the bytes of a file; what goes out is the tree of the module, or the one fault for which there is none:
//! the first byte that belongs to no character, the first characters that are no token, or the first token that has no place
//! in a module. `specs/Modules.antt` says which files are modules. What is told of a file is a list of entries, each a line, a
//! text and a code: `specs/Faults.antt` has the list for every file, where what is told of a tree is left open, and
//! `specs/Laws.antt` what holds of it.
#![tactic(auto)]

mod fault;
mod laws;
mod place;
mod source;

pub use fault::{FaultKind, SourceFault};
pub use laws::{faults_are_one, module_is_one, tree_is_told};
pub use source::{SourceError, read_module};
