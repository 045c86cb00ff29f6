//! What a module's definitions are and what is said of them where they stand, and where the types of variables begin.
//!
//! `specs/Names.antt` has what names mean, `specs/Owners.antt` whose functions are, `specs/Definitions.antt` what is said of
//! definitions and imports, `specs/Classes.antt` what is said of classes as a whole, `specs/Decorators.antt` what decorators and
//! bases are asked for, `specs/Refused.antt` what is refused where nothing is said, and `specs/Starts.antt` and
//! `specs/Variables.antt` the types of variables where a module or a function begins and in the typed tree. A module's tree and its
//! scopes come in; what goes out are its definitions and functions, the types that are known of variables before any statement, and
//! diagnostics put behind those that there are.
#![tactic(auto)]

mod decorators;
mod definitions;
mod functions;
mod members;
mod outlines;
mod owners;
mod refused;
mod starts;
mod variables;

pub use definitions::{ClassTables, Earlier, add_definitions, add_inner_faults};
pub use functions::{Function, functions_of, signatures_of};
pub use outlines::{Outlined, definitions_of, headed_functions, names_alone, no_classes};
pub use refused::add_refusals;
pub use starts::{own_types, start_types};
pub use variables::{numbers_of, param_numbers, type_or_none, typed_variables};
