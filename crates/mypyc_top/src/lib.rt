//! The compiler behind one call: `mypyc` takes the words of the command, files, an input and two sinks,
//! and answers a status.
//!
//! What comes in are words, the bytes of a module or of a C text, and the input of a program that runs; what goes out is
//! the C text of the module, its diagnostics, or the output of the program, then a line on errors, and the status. The
//! promise: wherever no object fails and memory lasts, it is exactly the answer of `specs/Answer.antt`, whose C text is
//! faithful to the module, and whose runs are those of the source and of the C text (`specs/Running.antt`).
//!
//! Its parts stand beside one another: `mypyc_top_words` has the words, `mypyc_top_reading` the bytes of files and C texts,
//! `mypyc_top_status` the statuses and the lines on errors, `mypyc_top_running` the runs, and `mypyc_top_compiler` what is
//! wrong with a module and when a code is faithful to it. Which forms are compiled is said by `ir_builder_supported`.
#![tactic(auto)]

mod plan;
mod top;

pub use top::mypyc;
