//! The headers of classes: which classes of a module have a type, of what kind they are and what their bases are, and what is wrong
//! with each that has none.
//!
//! What comes in are a module's definitions in the order of the text; out comes a header for each class, by its number. It is exactly
//! what `specs/Headers.antt` says, from names and syntax alone; memory is the one free answer. Work and memory grow with the text and
//! with the orders of classes that have several bases: nothing is kept of a class with one base.
#![tactic(auto)]

mod bodies;
mod conditions;
mod header;
mod headers;
mod laws;
mod names;
mod orders;
mod say;

pub use header::{Header, HeaderFault, Shape, Untyped};
pub use headers::{ModuleClasses, module_classes};
pub use laws::{headers_are_sound, orders_hang_on_bases};
pub use names::with_number;
pub use orders::order_row;
pub use say::{add_header_said, has_type, is_untyped_trait, typed_meaning};
