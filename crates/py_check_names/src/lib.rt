//! What each name of a module and of its functions means to typing: which variable, function, class or import it is, by its
//! number or its kind.
//!
//! What comes in are a module's tree and what binding gave: the roles of names. `specs/Outline.antt` lists a module's
//! definitions and imports and says what they make of names, `specs/Builtins.antt` has the builtins, and `specs/Meanings.antt`
//! the meaning of a name by its role.
#![tactic(auto)]

mod builtins;
mod meanings;
mod outline;
mod walk;

pub use builtins::{builtin_meaning, import_meaning};
pub use meanings::{ModuleNames, add_name, is_own, module_names, names_in, number, own_names};
pub use outline::{Outline, may_import_all, outline_of};
pub use walk::definitions_in;
