//! The rules of calls: what is called, what its arguments are there for, and what the call is.
//!
//! They are as the rules of `py_check_operators`: typed parts in, the typed node or its diagnostic out, exactly by the definitions in
//! `specs/`. `callee_of` says what is called, `arguments_row` what its arguments are there for, and `called` is the rule.
#![tactic(auto)]

mod arguments;
mod builtins;
mod callees;
mod calls;
mod exceptions;
mod methods;
mod sites;
mod taking;

pub use arguments::{arguments_row, has_key, positional};
pub use callees::{Callee, Single, callee_of, is_named, is_super_init};
pub use calls::called;
pub use exceptions::exception_made;
pub use methods::attribute;
pub use sites::CallSite;
