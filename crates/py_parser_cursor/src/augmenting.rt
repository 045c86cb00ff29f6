//! The operators of augmented assignments.
ghost use Rattle.std.specs.Prelude.{IfOk};
ghost use Rattle.py_parser_grammar.specs.Grammar.{AUG};
ghost use Rattle.py_parser_grammar.specs.Readings.{reads_sym};
ghost use Rattle.py_parser_cursor.specs.Augmenting.{reads_augmenting};
ghost use Rattle.py_parser_cursor.specs.Gives.{Gives};
ghost use Rattle.py_parser_cursor.specs.Moves.{MovesTo};

use crate::fault::ParseError;
use crate::place::{accept_sign, sees_sign};
use py_parser_grammar::Place;
use py_syntax::{BinOp, Sign, Token};

/// The operator of an augmented assignment.
#[tactic(auto, using(crate::proofs::OperatorReading::augmenting_eq))]
pub fn augmenting(tokens: &[Token], place: Place) -> Result<(BinOp, Place), ParseError>
    ensures read { Gives (λ x. x) result (reads_sym tokens.now AUG place) }
    ensures moves { IfOk result (λ x. MovesTo tokens.now place x.1) }
{
    if sees_sign(tokens, place, Sign::PlusAssign) {
        return of_sign(tokens, place, Sign::PlusAssign, BinOp::Add);
    }
    if sees_sign(tokens, place, Sign::MinusAssign) {
        return of_sign(tokens, place, Sign::MinusAssign, BinOp::Sub);
    }
    if sees_sign(tokens, place, Sign::StarAssign) {
        return of_sign(tokens, place, Sign::StarAssign, BinOp::Mul);
    }
    if sees_sign(tokens, place, Sign::SlashSlashAssign) {
        return of_sign(tokens, place, Sign::SlashSlashAssign, BinOp::FloorDiv);
    }
    if sees_sign(tokens, place, Sign::PercentAssign) {
        return of_sign(tokens, place, Sign::PercentAssign, BinOp::Mod);
    }
    if sees_sign(tokens, place, Sign::ShlAssign) {
        return of_sign(tokens, place, Sign::ShlAssign, BinOp::Shl);
    }
    of_sign(tokens, place, Sign::ShrAssign, BinOp::Shr)
}

fn of_sign(
    tokens: &[Token],
    place: Place,
    sign: Sign,
    op: BinOp,
) -> Result<(BinOp, Place), ParseError>
    ensures read { Gives (λ x. x) result (reads_augmenting tokens.now sign op place) }
    ensures moves { IfOk result (λ x. MovesTo tokens.now place x.1) }
{
    let (_, place) = accept_sign(tokens, place, sign)?;
    Ok((op, place))
}
