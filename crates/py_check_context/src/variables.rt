//! The types of variables.
use py_typed::Ty;
use value_core::Many;

/// The type of a variable, so far in the order of the text.
#[derive(Drop)]
pub enum VarType {
    /// No assignment stands before this place.
    Unset,
    /// Its type would come from a node that has none.
    Untyped,
    Has(Ty),
}

/// The variables of the function and those of the module, by their numbers.
#[derive(Drop)]
pub struct Variables {
    pub locals: Many<VarType>,
    pub globals: Many<VarType>,
}
