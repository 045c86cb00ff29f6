//! The code of a choice between two values by the truth of a tested one.
//!
//! `begin`, `turn` and `meet` write what stands around the code of the two arms, and `specs/Choices.antt` says what each of them
//! adds. `specs/Choosing.antt` says what a choice means, and `choice_computes` of `proofs/ChoiceLemmas.antt` that the whole does it,
//! whatever the arms are.
#![tactic(auto)]

mod choice;

pub use choice::{Choice, begin, meet, turn};
