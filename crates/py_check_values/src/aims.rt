//! What values are bound to.
use py_typed::{Target, Ty};
use value_core::Name;

/// What a value is bound to.
#[derive(Drop)]
pub enum Aim<'a> {
    /// A variable, an attribute or an item of this type.
    Held(Target, Ty),
    /// A variable that has no type yet.
    First(Target, &'a Name),
    /// A name that nothing is assigned to.
    Barred(&'a Name),
    /// An item of what has none that is assigned, by the type of that.
    Unwritten(Ty),
    /// An attribute that nothing declares, of an object of this type.
    Lacking(Ty, &'a Name),
    /// An expression of this type, which is no target.
    Misplaced(Ty),
}
