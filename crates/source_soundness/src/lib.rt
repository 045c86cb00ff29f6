//! What a module's types say of its runs: no well-typed module is ever stuck, each value has the shape of its type, and each text is
//! in UTF-8.
//!
//! All is definition and proof, and no code stands on it. `specs/Watched.antt` is the meaning of a module once more, with a watcher at
//! each value that is read or made; `specs/Shapes.antt` has the watcher that asks for the shape of the value's type, and
//! `specs/Texts.antt` that which asks for texts in UTF-8; `specs/Laws.antt` has the laws, for each of which `laws` has a function. For
//! proofs above, `proofs/Inverse.antt` takes shapes apart, and `proofs/Members.antt`, `proofs/Linear.antt` and `proofs/Places.antt` have
//! what holds of the classes of a well-typed module.
#![tactic(auto)]

mod laws;

pub use laws::{
    attributes_keep_places, lines_are_utf8, never_stuck, texts_are_utf8, types_are_sound,
};
