//! Operators between operands.
ghost use Rattle.std.specs.Prelude.{◌≡◌};
ghost use Rattle.py_parser_grammar.specs.Reader as reader;
ghost use Rattle.py_parser_cursor.specs.Operators.{more_of, operator_at};

use crate::place::{sees_key, sees_sign};
use py_parser_grammar::{Place, Terminal};
use py_syntax::{BinOp, Key, Sign, Token};

/// The levels whose operators group from the left, the loosest first. At the last one it is trailers that do.
#[derive(Clone, Copy, Debug)]
pub enum Level {
    Or,
    And,
    Bar,
    Shift,
    Sum,
    Term,
    Primary,
}

/// The operators between two operands.
#[derive(Clone, Copy, Debug)]
pub enum Operator {
    Or,
    And,
    Bin(BinOp),
}

/// Whether an operator of a level, or a trailer, comes next.
pub fn goes_on(tokens: &[Token], place: Place, level: Level) -> bool
    ensures { result ≡ reader.sees tokens.now place (reader.starts_more (more_of level)) }
{
    match level {
        Level::Or => sees_key(tokens, place, Key::Or),
        Level::And => sees_key(tokens, place, Key::And),
        Level::Bar => sees_sign(tokens, place, Sign::Bar),
        Level::Shift => sees_sign(tokens, place, Sign::Shl) || sees_sign(tokens, place, Sign::Shr),
        Level::Sum => sees_sign(tokens, place, Sign::Plus) || sees_sign(tokens, place, Sign::Minus),
        Level::Term => {
            sees_sign(tokens, place, Sign::Star)
                || sees_sign(tokens, place, Sign::SlashSlash)
                || sees_sign(tokens, place, Sign::Percent)
        }
        Level::Primary => {
            sees_sign(tokens, place, Sign::Dot)
                || sees_sign(tokens, place, Sign::LeftParen)
                || sees_sign(tokens, place, Sign::LeftSquare)
        }
    }
}

/// The operator of a level that has to come next, with its terminal. None at the level of trailers.
pub fn operator_at(tokens: &[Token], place: Place, level: Level) -> Option<(Terminal, Operator)>
    ensures { result ≡ operator_at tokens.now place level }
{
    match level {
        Level::Or => Some((Terminal::Key(Key::Or), Operator::Or)),
        Level::And => Some((Terminal::Key(Key::And), Operator::And)),
        Level::Bar => Some(binary(Sign::Bar, BinOp::Bar)),
        Level::Shift if sees_sign(tokens, place, Sign::Shl) => Some(binary(Sign::Shl, BinOp::Shl)),
        Level::Shift => Some(binary(Sign::Shr, BinOp::Shr)),
        Level::Sum if sees_sign(tokens, place, Sign::Plus) => Some(binary(Sign::Plus, BinOp::Add)),
        Level::Sum => Some(binary(Sign::Minus, BinOp::Sub)),
        Level::Term if sees_sign(tokens, place, Sign::Star) => Some(binary(Sign::Star, BinOp::Mul)),
        Level::Term if sees_sign(tokens, place, Sign::SlashSlash) => {
            Some(binary(Sign::SlashSlash, BinOp::FloorDiv))
        }
        Level::Term => Some(binary(Sign::Percent, BinOp::Mod)),
        Level::Primary => None,
    }
}

fn binary(sign: Sign, op: BinOp) -> (Terminal, Operator)
    ensures { result ≡ (Terminal.Sign sign, Operator.Bin op) }
{
    (Terminal::Sign(sign), Operator::Bin(op))
}
