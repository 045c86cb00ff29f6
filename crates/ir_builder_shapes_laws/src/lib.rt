//! What programs look like that are built of typed modules.
//!
//! `specs/Built.antt` says what a builder leaves of each function; the law (`specs/Laws.antt`) says that such a program has its
//! shape, so that its C text is well formed. There is no code to run.
#![tactic(auto)]

mod laws;

pub use laws::built_has_shape;
