//! Typed statements.
use crate::expression::TExpr;
use crate::types::Ty;
use py_syntax::BinOp;
use value_core::{ExcClass, Many, Name};

/// What is assigned to: a variable by its number, an attribute, or an item of a list or a dict.
#[derive(Drop)]
pub enum Target {
    Local(usize),
    Global(usize),
    Attr(TExpr, Name),
    At(TExpr, TExpr),
}

/// A statement, with its line.
#[cycle(typed_statement)]
#[derive(Drop)]
pub struct TStmt {
    pub kind: TStmtKind,
    pub line: usize,
}

/// What a typed statement is.
#[cycle(typed_statement)]
#[derive(Drop)]
pub enum TStmtKind {
    Expr(TExpr),
    /// One target takes a value that fits its type; else, and where there are several, the targets take the parts of a tuple.
    /// So it is for the targets of the three loops too.
    Assign(Many<Target>, TExpr),
    /// With the type of the operation's result.
    Aug(Target, BinOp, TExpr, Ty),
    /// `del dict[key]`.
    Del(TExpr, TExpr),
    /// Each test with its body, then the body of `else`.
    If(Many<(TExpr, Many<TStmt>)>, Many<TStmt>),
    While(TExpr, Many<TStmt>),
    /// From the first bound, or 0, up to the second and without it.
    ForRange(Many<Target>, Option<TExpr>, TExpr, Many<TStmt>),
    ForList(Many<Target>, TExpr, Many<TStmt>),
    ForDict(Many<Target>, TExpr, Many<TStmt>),
    Try(Many<TStmt>, Many<THandler>, Option<Many<TStmt>>),
    /// `raise`, with what it raises; without, the exception being handled.
    Raise(Option<TExpr>),
    Return(Option<TExpr>),
    Break,
    Continue,
    Assert(TExpr, Option<TExpr>),
    Pass,
}

/// An `except` clause.
#[cycle(typed_statement)]
#[derive(Drop)]
pub struct THandler {
    pub classes: Many<ExcClass>,
    pub name: Option<Target>,
    pub body: Many<TStmt>,
}
