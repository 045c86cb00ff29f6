//! Laws of references, for any code: when its lines keep the references of each frame in order, that no run of such a code ends in
//! a fault of ownership, and that its checked run does what the unchecked one does.
//!
//! `specs/Shares.antt` says what a frame owns through its variables and which lines keep that in order, `specs/Order.antt` when a
//! function and a code do, `specs/Frames.antt` what the frames of a state then have, `specs/Groups.antt` what some lines lead to,
//! `specs/Alike.antt` what the two runs have in common, and `specs/Laws.antt` the laws. There is no code to run.
#![tactic(auto)]

mod laws;

pub use laws::{
    end_owns_nothing, group_runs, order_is_safe, placed_is_in_order, places_are_met,
    run_is_unchecked, runs_agree, step_is_unchecked,
};
