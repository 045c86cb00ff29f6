//! What is seen of names, place by place.
use crate::scope::Role;
use py_syntax::{Func, Span};
use value_core::{Many, Name};

/// What an expression is read as: a value, or an annotation.
#[derive(Clone, Copy)]
pub enum Manner {
    Value,
    Annotation,
}

/// Where statements stand: in a module, or in a function's body.
#[derive(Clone, Copy)]
pub enum Home {
    InModule,
    InFunction,
}

/// What is done with a name where it stands. A `global` statement lists names; where a function's body stands, there is
/// the function.
#[derive(Drop)]
pub enum Use<'a> {
    Reads(Name),
    Binds(Name),
    Defines(Role, Name),
    Declares(&'a Many<Name>),
    Holds(&'a Func),
}

/// A use, with the place of the node that has the name, or of its statement.
#[derive(Drop)]
pub struct Sight<'a> {
    pub does: Use<'a>,
    pub span: Span,
}
