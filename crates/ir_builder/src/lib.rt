//! From a typed module to a program of intermediate code.
//!
//! What comes in is a `Checked` that is well typed and whose forms are all compiled (`ModuleSuits` of `ir_builder_statements`); what goes
//! out is its `Program` (`build`). For every number of turns and all input the program does what the module does (`specs/Meaning.antt`); no run of
//! it is stuck; it has its shape, so that its C text is well formed and none of its operations counts references; behind
//! no operation that may fail stands a test of its result; and one that may fail has the line of the expression or of the statement
//! whose own it is.
//!
//! `specs/Registers.antt` says with which registers a function begins, `specs/Bodies.antt` what the code of its body does,
//! `specs/Lines.antt` which lines it has, and `specs/Functions.antt` what is built of each function and of the whole module.
#![tactic(auto)]

mod body;
mod functions;
mod program;
mod registers;

pub use program::build;
