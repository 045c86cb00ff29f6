//! The intermediate code: what a function is as blocks of operations, and what a program of it does.
//!
//! What comes in are the registers, operations and ends of a function, one by one; what goes out is the function
//! (`Builder`), and of each operation how it tells that it failed and what is missing behind it (`kind_of`, `edge_of`, `is_edge`,
//! `missing_edges`). `specs/Meaning.antt` says what a program does, `specs/Runs.antt` when no run of it goes wrong, `specs/Shape.antt` what its blocks look like, and
//! `specs/Lower.antt` which C text it becomes. `specs/Laws.antt` says what holds of these, and `laws` proves it.
#![tactic(auto)]

mod builder;
mod code;
mod kind;
mod laws;
mod missing;

pub use builder::Builder;
pub use code::{Block, ErrorKind, Func, Last, Lit, Op, PArg, Program, RType, Reg};
pub use kind::{Edge, edge_of, is_edge, kind_of};
pub use laws::{
    bare_is_same, built_is_held, calls_extend, ended_is_calm, ends_are_one, fit_is_calm, left_ends,
    left_goes_on, lower_is_lowered, steps_compose, unstuck_is_plain,
};
pub use missing::{any_edge, missing_edges};
