//! Types.
use value_core::{ExcClass, Many};

/// A type (PEP 484). A class is known by its number.
#[derive(Drop)]
pub enum Ty {
    Int,
    I64,
    Bool,
    Str,
    /// The type of `None`.
    Nothing,
    List(Box<Ty>),
    /// Of the keys, and of the values.
    Dict(Box<Ty>, Box<Ty>),
    Tuple(Many<Ty>),
    Optional(Box<Ty>),
    Class(usize),
    Exc(ExcClass),
}
