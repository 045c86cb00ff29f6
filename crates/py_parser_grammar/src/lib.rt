//! The grammar of the language that is compiled, as definitions.
//!
//! What comes in is a list of tokens; what is said of it is its tree or its first fault. `specs/Grammar.antt` has the
//! grammar, one line a rule, `specs/Actions.antt` the tree of each rule, and `specs/Derivation.antt` what is derived
//! from a rule and what is a front of it. `specs/Faults.antt` has THE MEANING: `Says` says of some tokens that they are
//! a module with a tree, or where their first fault stands. `specs/Reader.antt` has a reader of the grammar that looks one
//! token ahead. The promise, which `laws` state and prove: each list of tokens that ends once has exactly one tree or
//! fault, and the reader answers it. A parser is proved by being equal to the reader.
#![tactic(auto)]

mod laws;
mod place;
mod terminal;

pub use laws::{
    faults_are_tokens, outcome_exists, outcome_is_one, reading_is_exact, tree_is_one,
    trees_are_shallow,
};
pub use place::Place;
pub use terminal::Terminal;
