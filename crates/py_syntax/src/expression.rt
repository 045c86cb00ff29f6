//! Expressions.
use crate::token::Span;
use value_core::{Many, Name, Text};

/// An expression, with the place of its first token (Python Language Reference, "Expressions").
#[cycle(expression)]
#[derive(Drop)]
pub struct Expr {
    pub kind: ExprKind,
    pub span: Span,
}

/// What an expression is. Parts stand in the order of the text, but where it is said.
#[cycle(expression)]
#[derive(Drop)]
pub enum ExprKind {
    Int(i128),
    /// String literals side by side are one text.
    Str(Text),
    True,
    False,
    /// `None`.
    Nothing,
    Name(Name),
    Neg(Box<Expr>),
    Plus(Box<Expr>),
    Not(Box<Expr>),
    Bin(BinOp, Box<Expr>, Box<Expr>),
    /// The first operand, and each further one with the operator before it: `a < b < c` is one chain.
    Compare(Box<Expr>, Many<(CmpOp, Expr)>),
    And(Box<Expr>, Box<Expr>),
    Or(Box<Expr>, Box<Expr>),
    /// `a if test else b`, as a, test, b.
    Cond(Box<Expr>, Box<Expr>, Box<Expr>),
    List(Many<Expr>),
    /// Keys with their values.
    Dict(Many<(Expr, Expr)>),
    Tuple(Many<Expr>),
    Attr(Box<Expr>, Name),
    Index(Box<Expr>, Box<Expr>),
    Call(Box<Expr>, Many<Arg>),
}

/// An argument of a call: `value`, or `key=value`.
#[cycle(expression)]
#[derive(Drop)]
pub struct Arg {
    pub key: Option<Expr>,
    pub value: Expr,
}

/// The operators with two operands, but for comparisons, `and` and `or`.
#[derive(Clone, Copy, Debug, PartialEq, Eq)]
pub enum BinOp {
    Add,
    Sub,
    Mul,
    FloorDiv,
    Mod,
    Shl,
    Shr,
    Bar,
}

/// The comparison operators.
#[derive(Clone, Copy, Debug, PartialEq, Eq)]
pub enum CmpOp {
    Eq,
    Ne,
    Lt,
    Le,
    Gt,
    Ge,
    /// `in`.
    Member,
    /// `not in`.
    NotMember,
    Is,
    IsNot,
}
