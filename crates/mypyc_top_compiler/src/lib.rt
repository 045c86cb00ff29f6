//! The compiler: from the bytes of a file to its typed module, or to all that is wrong with it, and from a module to its code.
//!
//! `specs/Source.antt` has the typed modules of files, `specs/Faults.antt` what is wrong with them, `specs/Faithful.antt` when a
//! code is faithful to a module, and `specs/SourceRun.antt` where a module's run stops.
#![tactic(auto)]

mod code;
mod faults;
mod laws;
mod typing;

pub use code::code_of;
pub use faults::{Faults, lines_of, notes_of};
pub use laws::{faults_are_one, typed_modules_are_one};
pub use typing::{ModuleError, read_typed};
