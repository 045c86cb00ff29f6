//! What is assigned to at a place of a body, and when a value may be.
//!
//! `specs/Targets.antt` has the targets of an assignment, each by what it is, and the rules of a value for them.
#![tactic(auto)]

mod attributes;
mod several;
mod targets;
mod values;

pub use attributes::{OwnAttribute, lacking_in, may_declare, own_attribute};
pub use several::{binds_several, takes_several};
pub use targets::{aims_behind, in_box, name_aim, put_behind, target_aims, typed_at, value_aim};
pub use values::{asked_type, value_asked, value_type};
