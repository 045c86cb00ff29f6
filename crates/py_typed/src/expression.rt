//! Typed expressions.
use crate::types::Ty;
use py_syntax::{BinOp, CmpOp, Span};
use value_core::{ExcClass, Many, Name, Text};

/// An expression with its type, and the place of its first token.
#[cycle(typed_expression)]
#[derive(Drop)]
pub struct TExpr {
    pub kind: TKind,
    pub ty: Ty,
    pub span: Span,
}

/// What a typed expression is. Variables, functions and classes are numbers, a local's within its function; attributes and
/// methods keep their names.
#[cycle(typed_expression)]
#[derive(Drop)]
pub enum TKind {
    Int(i128),
    Str(Text),
    Bool(bool),
    /// `None`.
    Nothing,
    Local(usize),
    Global(usize),
    Neg(Box<TExpr>),
    Not(Box<TExpr>),
    /// Whether a value is true.
    Truth(Box<TExpr>),
    /// Arithmetic in the expression's type.
    Arith(BinOp, Box<TExpr>, Box<TExpr>),
    Concat(Box<TExpr>, Box<TExpr>),
    /// The first operand, and each further one with the operator before it.
    Compare(Box<TExpr>, Many<(CmpOp, TExpr)>),
    And(Box<TExpr>, Box<TExpr>),
    Or(Box<TExpr>, Box<TExpr>),
    /// `a if test else b`, as a, test, b.
    Cond(Box<TExpr>, Box<TExpr>, Box<TExpr>),
    List(Many<TExpr>),
    /// Keys with their values.
    Dict(Many<(TExpr, TExpr)>),
    Tuple(Many<TExpr>),
    Attr(Box<TExpr>, Name),
    /// An item of a list, a dict or a text.
    At(Box<TExpr>, Box<TExpr>),
    /// The part of a tuple at this place.
    TupleAt(Box<TExpr>, usize),
    Call(usize, Many<TExpr>),
    /// A new instance.
    Make(usize, Many<TExpr>),
    MakeExc(ExcClass, Option<Box<TExpr>>),
    Method(Box<TExpr>, Name, Many<TExpr>),
    /// `super().__init__(..)`, with the function that it calls, if there is one.
    SuperInit(Option<usize>, Many<TExpr>),
    Print(Many<TExpr>),
    Input,
    Len(Box<TExpr>),
    ToStr(Box<TExpr>),
    Append(Box<TExpr>, Box<TExpr>),
    Pop(Box<TExpr>),
    /// A value as one of the expression's type.
    Coerce(Box<TExpr>),
}
