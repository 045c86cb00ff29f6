//! Which forms of typed modules are compiled.
//!
//! What comes in is a tree and its typed module; what goes out is the first form in it that is not compiled, with its line
//! (`uncompiled_form`): `specs/Statements.antt` and `specs/Expressions.antt` say which are compiled, `specs/Forms.antt` what the others
//! are called. `forms` has the tests of single nodes, `naming` the names, and `lines` the walk. `laws` has that a well typed module
//! without such a form is one that is built.
#![tactic(auto)]

mod forms;
mod laws;
mod lines;
mod naming;

pub use laws::compiled_suits;
pub use lines::uncompiled_form;
