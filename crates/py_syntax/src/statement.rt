//! Statements.
use crate::expression::{BinOp, Expr};
use crate::token::Span;
use value_core::{Many, Name};

/// A statement, with the place of its first token
/// (Python Language Reference, "Simple statements" and "Compound statements").
#[cycle(statement)]
#[derive(Drop)]
pub struct Stmt {
    pub kind: StmtKind,
    pub span: Span,
}

/// What a statement is. Parts stand in the order of the text.
#[cycle(statement)]
#[derive(Drop)]
pub enum StmtKind {
    Expr(Expr),
    /// `target = value`.
    Assign(Expr, Expr),
    /// `target: annotation`, or `target: annotation = value`.
    Annot(Expr, Expr, Option<Expr>),
    /// `target op= value`.
    Aug(Expr, BinOp, Expr),
    Del(Expr),
    Pass,
    Break,
    Continue,
    Return(Option<Expr>),
    Raise(Option<Expr>),
    Global(Many<Name>),
    /// The test, and the message.
    Assert(Expr, Option<Expr>),
    /// `import module as name`. The name of a module has its dots in it.
    Import(Name, Option<Name>),
    /// `from module import name as name, ..`.
    From(Name, Many<(Name, Option<Name>)>),
    /// The tests of `if` and of each `elif` with their bodies, and the body of `else`, which may be empty.
    If(Many<(Expr, Many<Stmt>)>, Many<Stmt>),
    While(Expr, Many<Stmt>),
    /// The target, what is gone over, and the body.
    For(Expr, Expr, Many<Stmt>),
    /// The body, the handlers, and the body of `finally`.
    Try(Many<Stmt>, Many<Handler>, Option<Many<Stmt>>),
    Def(Func),
    Class(Class),
}

/// `except class as name:` with its body.
#[cycle(statement)]
#[derive(Drop)]
pub struct Handler {
    pub class: Option<Expr>,
    pub name: Option<Name>,
    pub body: Many<Stmt>,
    pub span: Span,
}

/// A function definition: its parameters with their annotations, the annotation of its result, and its decorators.
#[cycle(statement)]
#[derive(Drop)]
pub struct Func {
    pub name: Name,
    pub params: Many<(Name, Option<Expr>)>,
    pub ret: Option<Expr>,
    pub body: Many<Stmt>,
    pub marks: Many<Expr>,
}

/// A class definition: its bases, its body, and its decorators.
#[cycle(statement)]
#[derive(Drop)]
pub struct Class {
    pub name: Name,
    pub bases: Many<Expr>,
    pub body: Many<Stmt>,
    pub marks: Many<Expr>,
}

/// A module, which is the body of a file.
#[derive(Drop)]
pub struct Module {
    pub body: Many<Stmt>,
}
