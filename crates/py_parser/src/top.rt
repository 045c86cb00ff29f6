//! Modules.
ghost use Rattle.std.specs.Prelude.{[], IfOk};
ghost use Rattle.py_parser_grammar.specs.Grammar.{TOP, MODULE};
ghost use Rattle.py_parser_grammar.specs.Reader.{start};
ghost use Rattle.py_parser_grammar.specs.Readings.{reads_sym};
ghost use Rattle.py_parser.specs.Definitions.{reads_tops};
ghost use Rattle.py_parser_cursor.specs.Gives.{Gives};
ghost use Rattle.py_parser_cursor.specs.Moves.{MovesTo, MovesUpTo};
ghost use Rattle.py_parser_statements.specs.Statements.{stmts_seen};
ghost use Rattle.py_parser.specs.Whole.{body_seen};

use crate::define::{decorated, plain_class, plain_def};
use py_parser_cursor::fault::ParseError;
use py_parser_cursor::place::{accept, sees_key, sees_sign};
use py_parser_cursor::starts::begins_top;
use py_parser_grammar::{Place, Terminal};
use py_parser_nodes::append::{append, row_of};
use py_parser_statements::block::stmt;
use py_syntax::{Key, Sign, Stmt, Token};
use std::alloc::Global;
use value_core::Many;

/// All the tokens, as the statements of a module, and the place behind them.
#[tactic(auto, using(crate::proofs::DefinitionReading::modules))]
pub(crate) fn whole(alloc: Global, tokens: &[Token]) -> Result<(Many<Stmt>, Place), ParseError>
    ensures { Gives body_seen result (reads_sym tokens.now MODULE start) }
{
    let place = Place { at: 0, deep: false };
    let (body, place) = tops(alloc, tokens, place)?;
    let (_, place) = accept(tokens, place, Terminal::End)?;
    Ok((body, place))
}

// What stands in a module.
#[tactic(auto, using(crate::proofs::DefinitionReading::top_rows))]
fn tops(alloc: Global, tokens: &[Token], place: Place) -> Result<(Many<Stmt>, Place), ParseError>
    ensures read { Gives stmts_seen result (reads_tops tokens.now [] place) }
    ensures moves { IfOk result (λ x. MovesUpTo tokens.now place x.1) }
{
    let mut found = Many::new(alloc);
    let mut place = place;
    'tops: while begins_top(tokens, place) {
        let (more, next) = top(alloc, tokens, place)?;
        found = append(found, more)?;
        place = next;
    }
    Ok((found, place))
}

// What may stand in a module.
#[tactic(auto, using(crate::proofs::DefinitionReading::tops))]
fn top(alloc: Global, tokens: &[Token], place: Place) -> Result<(Many<Stmt>, Place), ParseError>
    ensures read { Gives stmts_seen result (reads_sym tokens.now TOP place) }
    ensures moves { IfOk result (λ x. MovesTo tokens.now place x.1) }
{
    if sees_key(tokens, place, Key::Def) {
        return plain_def(alloc, tokens, place);
    }
    if sees_key(tokens, place, Key::Class) {
        return plain_class(alloc, tokens, place);
    }
    if sees_sign(tokens, place, Sign::At) {
        let (one, place) = decorated(alloc, tokens, place)?;
        return Ok((row_of(alloc, one)?, place));
    }
    stmt(alloc, tokens, place)
}
