//! Expressions behind a token.
ghost use Rattle.std.specs.Prelude.{IfOk};
ghost use Rattle.py_parser_grammar.specs.Grammar.{TESTS};
ghost use Rattle.py_parser_expressions.specs.Behind.{reads_behind};
ghost use Rattle.py_parser_cursor.specs.Gives.{Gives};
ghost use Rattle.py_parser_expressions.specs.Parsed.{seen, Moves};

use crate::expression::tests;
use crate::parsed::Parsed;
use py_parser_cursor::fault::ParseError;
use py_parser_cursor::place::accept;
use py_parser_grammar::{Place, Terminal};
use py_syntax::Token;
use std::alloc::Global;

/// An expression, or several between commas, behind a token of a terminal.
#[tactic(auto, unfolding(crate::specs::Behind::reads_behind))]
pub fn tests_behind(
    alloc: Global,
    tokens: &[Token],
    place: Place,
    terminal: Terminal,
) -> Result<Parsed, ParseError>
    ensures read { Gives seen result (reads_behind tokens.now terminal TESTS place) }
    ensures moves { IfOk result (λ x. Moves tokens.now place x) }
{
    let (_, place) = accept(tokens, place, terminal)?;
    tests(alloc, tokens, place)
}
