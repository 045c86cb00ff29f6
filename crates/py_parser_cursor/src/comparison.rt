//! The comparison operators.
ghost use Rattle.std.specs.Prelude.{IfOk};
ghost use Rattle.py_parser_grammar.specs.Grammar.{COMP_OP};
ghost use Rattle.py_parser_grammar.specs.Readings.{reads_sym};
ghost use Rattle.py_parser_cursor.specs.Comparisons.{reads_sign, reads_words};
ghost use Rattle.py_parser_cursor.specs.Gives.{Gives};
ghost use Rattle.py_parser_cursor.specs.Moves.{MovesTo};

use crate::fault::ParseError;
use crate::place::{accept_key, accept_sign, sees_key, sees_sign};
use py_parser_grammar::Place;
use py_syntax::{CmpOp, Key, Sign, Token};

/// A comparison operator, of one token or two.
#[tactic(auto, using(crate::proofs::OperatorReading::comp_op_eq))]
pub fn comparison_operator(tokens: &[Token], place: Place) -> Result<(CmpOp, Place), ParseError>
    ensures read { Gives (λ x. x) result (reads_sym tokens.now COMP_OP place) }
    ensures moves { IfOk result (λ x. MovesTo tokens.now place x.1) }
{
    if sees_sign(tokens, place, Sign::Lt) {
        return of_sign(tokens, place, Sign::Lt, CmpOp::Lt);
    }
    if sees_sign(tokens, place, Sign::Gt) {
        return of_sign(tokens, place, Sign::Gt, CmpOp::Gt);
    }
    if sees_sign(tokens, place, Sign::EqEq) {
        return of_sign(tokens, place, Sign::EqEq, CmpOp::Eq);
    }
    if sees_sign(tokens, place, Sign::Ge) {
        return of_sign(tokens, place, Sign::Ge, CmpOp::Ge);
    }
    if sees_sign(tokens, place, Sign::Le) {
        return of_sign(tokens, place, Sign::Le, CmpOp::Le);
    }
    if sees_sign(tokens, place, Sign::NotEq) {
        return of_sign(tokens, place, Sign::NotEq, CmpOp::Ne);
    }
    of_words(tokens, place)
}

fn of_sign(
    tokens: &[Token],
    place: Place,
    sign: Sign,
    op: CmpOp,
) -> Result<(CmpOp, Place), ParseError>
    ensures read { Gives (λ x. x) result (reads_sign tokens.now sign op place) }
    ensures moves { IfOk result (λ x. MovesTo tokens.now place x.1) }
{
    let (_, place) = accept_sign(tokens, place, sign)?;
    Ok((op, place))
}

#[tactic(auto, unfolding(crate::specs::Comparisons::reads_words))]
fn of_words(tokens: &[Token], place: Place) -> Result<(CmpOp, Place), ParseError>
    ensures read { Gives (λ x. x) result (reads_words tokens.now place) }
    ensures moves { IfOk result (λ x. MovesTo tokens.now place x.1) }
{
    if sees_key(tokens, place, Key::In) {
        let (_, place) = accept_key(tokens, place, Key::In)?;
        return Ok((CmpOp::Member, place));
    }
    if sees_key(tokens, place, Key::Not) {
        let (_, place) = accept_key(tokens, place, Key::Not)?;
        let (_, place) = accept_key(tokens, place, Key::In)?;
        return Ok((CmpOp::NotMember, place));
    }
    let (_, place) = accept_key(tokens, place, Key::Is)?;
    if sees_key(tokens, place, Key::Not) {
        let (_, place) = accept_key(tokens, place, Key::Not)?;
        return Ok((CmpOp::IsNot, place));
    }
    Ok((CmpOp::Is, place))
}
