//! What the parts of the builder of intermediate code share: the code of a function while it is made, the registers that
//! stand for its variables, and what it means that code does what the source does.
//!
//! `Emitter` takes operations and ends one by one, and names the registers that it adds. `specs/Calling.antt` says what
//! each of its calls adds, `specs/Placing.antt` how that stands in the whole function, `specs/Coming.antt` and
//! `specs/Matching.antt` where a run comes to and how registers stand for variables, `specs/Computing.antt` what code for a
//! value does, `specs/Shaped.antt` where its ends may go, `specs/Kinds.antt` when its operations fit their registers,
//! `specs/Naming.antt` how registers are named, and `specs/Sound.antt` that at every moment all of this holds.
#![tactic(auto)]

mod code;
mod emitter;
mod frame;

pub use emitter::Emitter;
pub use frame::{Frame, Vars};
