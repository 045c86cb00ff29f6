//! The members that the classes of a module have of their own, what is behind each along its order, and what is said of the bodies of
//! classes.
//!
//! What comes in are a module's definitions in the order of the text, the headers of its classes, and what names mean in it and in
//! its functions. `specs/Deeds.antt` lists what the text of a class does with the names of its members, `specs/Members.antt` says
//! which of that declares a name and what a class has along its order, and `specs/Bodies.antt` what is said of a body. All of it
//! is exactly what comes out; memory is the one free answer. A class is one walk over its text, with a look-up for each name; only
//! where `__init__` sets what its class does not declare are the classes above asked, one by one.
#![tactic(auto)]

mod bodies;
mod declarations;
mod declaring;
mod entries;
mod events;
mod own;
mod places;
mod tables;
mod walk;

pub use bodies::add_body_said;
pub use declaring::declaring_places;
pub use entries::class_list;
pub use events::taken_name;
pub use tables::module_members;
