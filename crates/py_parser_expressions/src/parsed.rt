//! What is kept while expressions are read.
use py_parser_grammar::Place;
use py_syntax::{Expr, Span};
use value_core::Many;

/// An expression that was read: with the place of its first token, which may be a bracket around it, its level, from 1
/// to 100, and where the parser stands behind it. Where that is deep, the expression is `None` in the place of what is
/// too deep, so that nothing is ever built that is nested without bound. The expression stands on the heap, since a
/// value that is handed through exits is let go at each of them.
#[derive(Drop)]
pub struct Parsed {
    pub expr: Box<Expr>,
    pub begin: Span,
    pub level: usize,
    pub place: Place,
}

/// Parts in a row, the greatest of their levels, up to 100, and where the parser stands behind them.
#[derive(Drop)]
pub struct Row<T> {
    pub list: Many<T>,
    pub level: usize,
    pub place: Place,
}
