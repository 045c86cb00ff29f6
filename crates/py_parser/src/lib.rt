//! The syntax tree of a module's tokens.
//!
//! What comes in are the tokens of a text; what goes out is their tree, or the first fault, by its token's number.
//! Either is exactly what the grammar says, as `py_parser_grammar` defines it: `specs/Whole.antt` puts the promise together.
//! The code reads from left to right, by recursive descent with one token of look-ahead. `not`, signs and conditions,
//! which nest before anything is finished, are collected by loops, so that only brackets and indentation take stack.
#![tactic(auto)]

ghost use Rattle.std.specs.Prelude.{IfOk};
ghost use Rattle.py_syntax.specs.Statements.{module_tree};
ghost use Rattle.py_syntax.specs.Tokens.{EndsOnce};
ghost use Rattle.py_parser_grammar.specs.Levels.{IsShallow};
ghost use Rattle.py_parser.specs.Whole.{IsRight};

mod define;
mod top;

use crate::top::whole;
pub use py_parser_cursor::fault::ParseError;
use py_syntax::{Module, Tokens};
use std::alloc::Global;

/// The tree of a module's tokens, or its first fault. For want of memory the answer is `Memory`, also where a fault
/// stands further on.
pub fn module(alloc: Global, tokens: &Tokens) -> Result<Module, ParseError>
    requires { EndsOnce tokens.now.list }
    ensures exact { IsRight tokens.now.list result }
    ensures shallow { IfOk result (λ m. IsShallow (module_tree m)) }
{
    let (body, _) = whole(alloc, tokens.list.as_slice())?;
    Ok(Module { body })
}
