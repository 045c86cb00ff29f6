//! A whole typed module.
use crate::classes::Classes;
use crate::statement::TStmt;
use crate::types::Ty;
use value_core::{Many, Name};

/// A variable.
#[derive(Drop)]
pub struct Var {
    pub name: Name,
    pub ty: Ty,
}

/// A function, or a method of the class of this number. The first `params` of its locals are its parameters.
#[derive(Drop)]
pub struct TFunc {
    pub name: Name,
    pub class: Option<usize>,
    pub params: usize,
    pub locals: Many<Var>,
    pub ret: Ty,
    pub body: Many<TStmt>,
}

/// A typed module: its classes, variables and functions by their numbers, and its own statements.
#[derive(Drop)]
pub struct Checked {
    pub classes: Classes,
    pub globals: Many<Var>,
    pub funcs: Many<TFunc>,
    pub top: Many<TStmt>,
}
