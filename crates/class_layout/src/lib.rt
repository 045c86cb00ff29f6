//! Where classes have their attributes and methods.
//!
//! `specs/Orders.antt` says which classes have an order, `specs/Layouts.antt` what `layout` answers, and `specs/Laws.antt` what holds of
//! the places that it gives, for each of which `laws` has a function.
#![tactic(auto)]

mod agreement;
mod laws;
mod layout_error;
mod layouts;
mod merge;
mod order;
mod table;

pub use laws::{
    lists_are_whole, lists_hold_members, names_have_places, places_are_numbered, places_stay,
    well_typed_classes_fit,
};
pub use layout_error::LayoutError;
pub use layouts::layout;
pub use merge::merge as merged_rows;
pub use order::{bases_fall, orders};
pub use table::LayoutTable;
