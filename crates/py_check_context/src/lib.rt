//! What typing may look at: what names mean in a scope, the signatures of functions, the classes and their members, the method that
//! a place stands in, and the types of variables so far; and what a place asks of the expression that stands there.
//!
//! `specs/Context.antt` has the same as plain data, with what the declared types stand for, and `specs/Members.antt` what a class
//! has under a name.
#![tactic(auto)]

mod members;
mod scope;
mod variables;
mod wanted;

pub use members::{Above, ClassMembers, Inside, Member, init_behind, init_in, member_in};
pub use scope::{Builtin, Context, Imported, Meaning, meaning_of, signature_at};
pub use variables::{VarType, Variables};
pub use wanted::{Row, Want, wanted_at};
