//! The test that each member of a class has one signature: which classes fail it, and what is said of them.
//!
//! What comes in are the headers of all classes of a module, what is kept of their orders, and their own members; out comes a verdict on
//! each class, by its number, exactly as `specs/Overrides.antt` says. Of a class with one base only its own members are asked, against
//! what is kept of the line on which the base stands; along the whole order go the classes with several bases, and those that fail.
#![tactic(auto)]

mod below;
mod clash;
mod judge;
mod laws;
mod lines;
mod member;
mod own;
mod say;
mod verdict;

pub use judge::{Classes, verdicts};
pub use laws::{all_agree_where_none_fails, members_agree_where_none_clashes};
pub use member::OwnMember;
pub use own::own_members;
pub use say::add_override_said;
pub use verdict::{Clash, Verdict};
