//! The parser of expressions.
//!
//! What comes in are tokens and a place in them; what goes out is the expression that `py_parser_grammar`'s reader reads there,
//! or its fault. Reading goes from left to right, by recursive descent with one token of look-ahead. `not`, signs and
//! conditions, which nest before anything is finished, are collected by loops, so that only brackets take stack.
#![tactic(auto)]

pub mod atom;
pub mod behind;
pub mod chain;
pub mod display;
pub mod expression;
pub mod join;
pub mod parsed;
pub mod prefix;
pub mod row;
pub mod target;
pub mod trailer;
