//! Operands and the operators between them.
ghost use Rattle.std.specs.Prelude.{◌≡◌, ◌≢◌, [], map, IfOk, true};
ghost use Rattle.py_syntax.specs.Expressions.{comparison_tree};
ghost use Rattle.py_parser_grammar.specs.Grammar.{NOT, FACTOR, COMP, COMP_MORE};
ghost use Rattle.py_parser_grammar.specs.Reader as reader;
ghost use Rattle.py_parser_grammar.specs.Reader.{sees};
ghost use Rattle.py_parser_grammar.specs.Readings.{reads_expr, reads_sym, growth};
ghost use Rattle.py_parser_expressions.specs.Behind.{reads_behind};
ghost use Rattle.py_parser_expressions.specs.Chains.{reads_comparisons};
ghost use Rattle.py_parser_cursor.specs.Gives.{Gives};
ghost use Rattle.py_parser_cursor.specs.Operators.{sym_of, below_of, more_of};
ghost use Rattle.py_parser_expressions.specs.Parsed.{seen, piece_of, comparisons_seen, IsFinished, Moves, AreComparisons};
ghost use Rattle.py_parser_cursor.specs.Moves.{MovesTo};
ghost use Rattle.py_parser_expressions.specs.Rows.{one_more};

use crate::display::atom;
use crate::join::{compared, joined};
use crate::parsed::{Parsed, Row};
use crate::prefix::{prefixes, sign_at};
use crate::row::{no_row, push_comparison};
use crate::trailer::trailer;
use py_parser_cursor::comparison::comparison_operator;
use py_parser_cursor::fault::ParseError;
use py_parser_cursor::operator::{Level, goes_on, operator_at};
use py_parser_cursor::place::{accept, accept_key, accept_sign, sees_key};
use py_parser_cursor::starts::{begins_comparison, begins_sign};
use py_parser_grammar::{Place, Terminal};
use py_syntax::{CmpOp, Expr, Key, Token};
use std::alloc::Global;

/// An expression of a level whose operators group from the left.
#[cycle(expression)]
#[tactic(auto, using(crate::proofs::ChainReading::chains))]
pub fn chain(
    alloc: Global,
    tokens: &[Token],
    place: Place,
    level: Level,
) -> Result<Parsed, ParseError>
    ensures read { Gives seen result (reads_expr tokens.now (sym_of level) place) }
    ensures moves { IfOk result (λ x. Moves tokens.now place x) }
{
    let mut left = operand(alloc, tokens, place, level)?;
    'growth: while goes_on(tokens, left.place, level) {
        left = grow(alloc, tokens, left, level)?;
    }
    Ok(left)
}

// What stands between the operators of a level.
#[cycle(expression)]
fn operand(
    alloc: Global,
    tokens: &[Token],
    place: Place,
    level: Level,
) -> Result<Parsed, ParseError>
    ensures read { Gives seen result (reads_expr tokens.now (below_of level) place) }
    ensures moves { IfOk result (λ x. Moves tokens.now place x) }
{
    match level {
        Level::Or => chain(alloc, tokens, place, Level::And),
        Level::And => not_test(alloc, tokens, place),
        Level::Bar => chain(alloc, tokens, place, Level::Shift),
        Level::Shift => chain(alloc, tokens, place, Level::Sum),
        Level::Sum => chain(alloc, tokens, place, Level::Term),
        Level::Term => factor(alloc, tokens, place),
        Level::Primary => atom(alloc, tokens, place),
    }
}

// One more operator and operand behind an expression, or one more trailer.
#[cycle(expression)]
#[tactic(auto, using(crate::proofs::ExprEquations::growths))]
fn grow(alloc: Global, tokens: &[Token], left: Parsed, level: Level) -> Result<Parsed, ParseError>
    requires { IsFinished left }
    ensures read { Gives seen result (growth tokens.now (more_of level) (piece_of left) left.place) }
    ensures moves { IfOk result (λ x. Moves tokens.now left.place x) }
{
    match operator_at(tokens, left.place, level) {
        None => trailer(alloc, tokens, left),
        Some(next) => {
            let (terminal, operator) = next;
            let right = operand_behind(alloc, tokens, left.place, terminal, level)?;
            joined(alloc, operator, left, right)
        }
    }
}

// What stands between the operators of a level, behind such an operator.
#[cycle(expression)]
#[tactic(auto, unfolding(crate::specs::Behind::reads_behind))]
fn operand_behind(
    alloc: Global,
    tokens: &[Token],
    place: Place,
    terminal: Terminal,
    level: Level,
) -> Result<Parsed, ParseError>
    ensures read { Gives seen result (reads_behind tokens.now terminal (below_of level) place) }
    ensures moves { IfOk result (λ x. Moves tokens.now place x) }
{
    let (_, place) = accept(tokens, place, terminal)?;
    operand(alloc, tokens, place, level)
}

// `not` any number of times, and a comparison.
#[cycle(expression)]
#[tactic(auto, using(crate::proofs::PrefixReading::nots))]
fn not_test(alloc: Global, tokens: &[Token], place: Place) -> Result<Parsed, ParseError>
    ensures read { Gives seen result (reads_expr tokens.now NOT place) }
    ensures moves { IfOk result (λ x. Moves tokens.now place x) }
{
    let mut inner = place;
    'nots: while sees_key(tokens, inner, Key::Not) {
        let (_, next) = accept_key(tokens, inner, Key::Not)?;
        inner = next;
    }
    let found = comparison(alloc, tokens, inner)?;
    prefixes(alloc, tokens, place.at, inner.at, found)
}

// Minus and plus signs, any number, and a primary.
#[cycle(expression)]
#[tactic(auto, using(crate::proofs::PrefixReading::signs))]
fn factor(alloc: Global, tokens: &[Token], place: Place) -> Result<Parsed, ParseError>
    ensures read { Gives seen result (reads_expr tokens.now FACTOR place) }
    ensures moves { IfOk result (λ x. Moves tokens.now place x) }
{
    let mut inner = place;
    'signs: while begins_sign(tokens, inner) {
        let (_, next) = accept_sign(tokens, inner, sign_at(tokens, inner))?;
        inner = next;
    }
    let found = chain(alloc, tokens, inner, Level::Primary)?;
    prefixes(alloc, tokens, place.at, inner.at, found)
}

// Operands with the comparisons between them, which are one chain.
#[cycle(expression)]
#[tactic(auto, using(crate::proofs::ComparisonReading::comparing))]
fn comparison(alloc: Global, tokens: &[Token], place: Place) -> Result<Parsed, ParseError>
    ensures read { Gives seen result (reads_expr tokens.now COMP place) }
    ensures moves { IfOk result (λ x. Moves tokens.now place x) }
{
    let first = chain(alloc, tokens, place, Level::Bar)?;
    if !begins_comparison(tokens, first.place) {
        return Ok(first);
    }
    let more = comparisons(alloc, tokens, first.place)?;
    compared(alloc, first, more)
}

// The comparisons behind an operand, of which there is one at least.
#[cycle(expression)]
fn comparisons(
    alloc: Global,
    tokens: &[Token],
    place: Place,
) -> Result<Row<(CmpOp, Expr)>, ParseError>
    requires { sees tokens.now place reader.comparisons ≡ true }
    ensures read { Gives comparisons_seen result (reads_comparisons tokens.now place) }
    ensures some { IfOk result (λ x. map comparison_tree x.list ≢ []) }
    ensures moves { IfOk result (λ x. MovesTo tokens.now place x.place) }
    ensures row { IfOk result AreComparisons }
{
    let mut more = compare(alloc, tokens, no_row(alloc, place))?;
    'comparisons: while begins_comparison(tokens, more.place) {
        more = compare(alloc, tokens, more)?;
    }
    Ok(more)
}

// One comparison operator and operand more.
#[cycle(expression)]
#[tactic(auto, using(crate::proofs::ExprEquations::comp_more_eq))]
fn compare(
    alloc: Global,
    tokens: &[Token],
    row: Row<(CmpOp, Expr)>,
) -> Result<Row<(CmpOp, Expr)>, ParseError>
    requires { AreComparisons row }
    ensures read { Gives comparisons_seen result (one_more (map comparison_tree row.list) (reads_sym tokens.now COMP_MORE row.place)) }
    ensures moves { IfOk result (λ x. MovesTo tokens.now row.place x.place) }
    ensures row { IfOk result AreComparisons }
{
    let (op, place) = comparison_operator(tokens, row.place)?;
    let right = chain(alloc, tokens, place, Level::Bar)?;
    Ok(push_comparison(row, op, right)?)
}
