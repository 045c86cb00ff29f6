//! Columns, and the levels of indentation that they open and close.
ghost use Rattle.std.specs.Prelude.{◌≡◌, ◌<◌, ◌≤◌, ◌-◌, ◌++◌, length, reverse, take, replicate, List, OnOk};
ghost use Rattle.py_lexer.specs.Indents as spec;
ghost use Rattle.py_lexer.specs.Remaining.{behind, Keeps, dedent};
ghost use Rattle.py_lexer.specs.Tokens.{Item, after_move};

use crate::fault::{LexError, LexKind};
use py_syntax::{Span, Token, TokenKind};
use std::alloc::AllocError;

/// A column, counted twice.
#[derive(Clone, Copy)]
pub(crate) struct Column {
    /// With tabs up to the next multiple of 8.
    pub(crate) wide: usize,
    /// With each tab as one.
    pub(crate) narrow: usize,
}

/// The column of a line without leading space.
pub(crate) const MARGIN: Column = Column { wide: 0, narrow: 0 };

/// How many brackets, and how many levels of indentation, may be open at once.
pub(crate) const MOST_LEVELS: usize = 100;

/// Whether two columns compare alike both ways.
fn agree(a: Column, b: Column) -> bool
    ensures { result ≡ spec.agree a b }
{
    a.wide.cmp(&b.wide) == a.narrow.cmp(&b.narrow)
}

/// How many levels a column leaves open. The innermost stands last.
fn kept(levels: &[Column], at: Column) -> usize
    ensures value { spec.kept at (reverse levels.now) ≡ reverse (take result levels.now) }
    ensures within { result ≤ length levels.now }
{
    let mut count = levels.len();
    while count > 0 && at.wide < levels[count - 1].wide {
        count -= 1;
    }
    count
}

fn innermost(levels: &[Column]) -> Column
    ensures { result ≡ spec.innermost (reverse levels.now) }
{
    match levels.last() {
        Some(level) => *level,
        None => MARGIN,
    }
}

/// Closes levels of indentation, before the token at a place.
#[tactic(auto, using(crate::proofs::RemainingLemmas::behind_push))]
pub(crate) fn close(tokens: &mut Vec<Token>, count: usize, place: Span) -> Result<(), AllocError>
    ensures { OnOk result ((items : List Item) →
        behind tokens.old.items (replicate count (dedent place) ++ items) ≡ behind tokens.new.items items) }
{
    let mut rest = count;
    while rest > 0 {
        tokens.push(Token {
            kind: TokenKind::Dedent,
            span: place,
        })?;
        rest -= 1;
    }
    Ok(())
}

/// Opens or closes levels of indentation for a line that begins at `line`, whose first token stands at a column and a
/// place.
pub(crate) fn move_to(
    tokens: &mut Vec<Token>,
    levels: &mut Vec<Column>,
    line: usize,
    at: Column,
    place: Span,
) -> Result<(), LexError>
    ensures { (items : List Item) (more : List Column → List Item) →
        Keeps result
        (behind tokens.old.items (after_move line place (spec.moved at (reverse levels.old.items)) items more))
        (behind tokens.new.items (items ++ more (reverse levels.new.items))) }
{
    let count = kept(levels, at);
    let closed = levels.len() - count;
    let level = innermost(&levels[..count]);
    if closed > 0 && level.wide < at.wide {
        return Err(LexError::Fault(line, LexKind::BadIndent));
    }
    if !agree(at, level) {
        return Err(LexError::Fault(line, LexKind::Tab));
    }
    if at.wide == level.wide {
        levels.truncate(count);
        close(tokens, closed, place)?;
        return Ok(());
    }
    if count >= MOST_LEVELS {
        return Err(LexError::Fault(line, LexKind::TooDeep));
    }
    levels.push(at)?;
    tokens.push(Token {
        kind: TokenKind::Indent,
        span: place,
    })?;
    Ok(())
}
