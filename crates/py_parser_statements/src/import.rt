//! Imports, and the names of `global`.
ghost use Rattle.std.specs.Prelude.{IfOk};
ghost use Rattle.py_parser_grammar.specs.Grammar.{GLOBAL, IMPORT, FROM};
ghost use Rattle.py_parser_grammar.specs.Readings.{reads_sym};
ghost use Rattle.py_parser_cursor.specs.Gives.{Gives};
ghost use Rattle.py_parser_cursor.specs.Moves.{MovesTo};
ghost use Rattle.py_parser_statements.specs.Statements.{stmt_seen};

use py_parser_cursor::fault::ParseError;
use py_parser_cursor::names::{dotted, imported, maybe_as, names};
use py_parser_cursor::place::{accept, accept_key};
use py_parser_cursor::word::name_of;
use py_parser_grammar::{Place, Terminal};
use py_parser_nodes::statement::{from_importing, globals, importing};
use py_syntax::{Key, Stmt, Token};
use std::alloc::Global;

/// `global name, ..`.
#[tactic(auto, using(crate::proofs::ImportReading::global_names))]
pub fn global(
    alloc: Global,
    tokens: &[Token],
    place: Place,
) -> Result<(Box<Stmt>, Place), ParseError>
    ensures read { Gives stmt_seen result (reads_sym tokens.now GLOBAL place) }
    ensures moves { IfOk result (λ x. MovesTo tokens.now place x.1) }
{
    let (token, place) = accept_key(tokens, place, Key::Global)?;
    let (first, place) = accept(tokens, place, Terminal::Name)?;
    let first = name_of(alloc, first)?;
    let (found, place) = names(alloc, tokens, first, place)?;
    Ok((globals(alloc, found, token.span)?, place))
}

/// `import module as name`.
#[tactic(auto, using(crate::proofs::ImportReading::importing))]
pub fn import(
    alloc: Global,
    tokens: &[Token],
    place: Place,
) -> Result<(Box<Stmt>, Place), ParseError>
    ensures read { Gives stmt_seen result (reads_sym tokens.now IMPORT place) }
    ensures moves { IfOk result (λ x. MovesTo tokens.now place x.1) }
{
    let (token, place) = accept_key(tokens, place, Key::Import)?;
    let (module, place) = dotted(alloc, tokens, place)?;
    let (other, place) = maybe_as(alloc, tokens, place)?;
    Ok((importing(alloc, module, other, token.span)?, place))
}

/// `from module import name as name, ..`.
#[tactic(auto, using(crate::proofs::ImportReading::importing))]
pub fn from_import(
    alloc: Global,
    tokens: &[Token],
    place: Place,
) -> Result<(Box<Stmt>, Place), ParseError>
    ensures read { Gives stmt_seen result (reads_sym tokens.now FROM place) }
    ensures moves { IfOk result (λ x. MovesTo tokens.now place x.1) }
{
    let (token, place) = accept_key(tokens, place, Key::From)?;
    let (module, place) = dotted(alloc, tokens, place)?;
    let (_, place) = accept_key(tokens, place, Key::Import)?;
    let (names, place) = imported(alloc, tokens, place)?;
    Ok((from_importing(alloc, module, names, token.span)?, place))
}
