//! The tokens of a text so far, and what is open.
ghost use Rattle.std.specs.Prelude.{◌≡◌, ◌≤◌, ◌<◌, ◌+◌, ◌^◌, ℕ, List, [], ◌∷◌, None, true, IsSome, OnOk, reverse};
ghost use Rattle.py_syntax.specs.declared.token.Span.{Span};
ghost use Rattle.py_lexer.specs.Pieces.{Piece};
ghost use Rattle.py_lexer.specs.Lines.{LogicalLine, logical_lines, onto, nested};
ghost use Rattle.py_lexer.specs.Indents.{margin};
ghost use Rattle.py_lexer.specs.Reading.{Gives};
ghost use Rattle.py_lexer.specs.Remaining.{Keeps, remaining, whole, with_lines, between, token_piece, IsToken, bracket_of, over_of};

use crate::fault::{LexError, LexKind};
use crate::gap::Gap;
use crate::indent::{Column, MARGIN, MOST_LEVELS, close, move_to};
use py_syntax::{Sign, Span, Token, TokenKind, Tokens};
use std::alloc::{AllocError, Global};
use value_core::Many;

/// The tokens so far, and what is open.
#[derive(Drop)]
pub(crate) struct Reader {
    tokens: Vec<Token>,
    /// The lines where the open brackets stand, the innermost last.
    brackets: Vec<usize>,
    /// The columns of the open levels of indentation, the innermost last.
    levels: Vec<Column>,
    /// The line where the logical line begins.
    line: usize,
    /// The column behind its leading space, as far as that is read.
    column: Column,
    /// Whether all that is read of it is leading space.
    is_leading: bool,
    /// The place behind its last token.
    last: Option<Span>,
    /// The line of a join that stands directly before.
    joined: Option<usize>,
}

impl Reader {
    /// A reader at the start of a text.
    #[tactic(auto, using(crate::proofs::LineLemmas::fresh))]
    pub(crate) fn new(alloc: Global) -> Reader
        ensures begins { (end : Span) (ps : List Piece) → whole end ps ≡ remaining end result ps }
        ensures margin { (result.column.wide ≡ 0) × (result.column.narrow ≡ 0) }
    {
        Reader {
            tokens: Vec::new(alloc),
            brackets: Vec::new(alloc),
            levels: Vec::new(alloc),
            line: 1,
            column: MARGIN,
            is_leading: true,
            last: None,
            joined: None,
        }
    }

    /// Takes a gap that begins at a place, and the place behind it.
    #[tactic(auto, using(crate::proofs::GapLemmas::gaps))]
    pub(crate) fn gap(&mut self, gap: Gap, from: Span, to: Span) -> Result<(), LexError>
        requires wide { self.old.column.wide + 8 < 2 ^ 64 }
        requires narrow { self.old.column.narrow + 8 < 2 ^ 64 }
        ensures keeps { (end : Span) (text : List ℕ) (ps : List Piece) →
            Keeps result (remaining end self.old (between gap text from to ∷ ps)) (remaining end self.new ps) }
        ensures wide { self.new.column.wide ≤ self.old.column.wide + 8 }
        ensures narrow { self.new.column.narrow ≤ self.old.column.narrow + 8 }
    {
        self.joined = None;
        match gap {
            Gap::Space => {
                if self.is_leading {
                    self.column.wide += 1;
                    self.column.narrow += 1;
                }
            }
            Gap::Tab => {
                if self.is_leading {
                    self.column.wide = (self.column.wide / 8 + 1) * 8;
                    self.column.narrow += 1;
                }
            }
            Gap::FormFeed => {}
            Gap::Comment => self.is_leading = false,
            Gap::Join => {
                self.joined = Some(from.line);
                self.is_leading = false;
            }
            Gap::LineEnd => {
                if self.brackets.is_empty() {
                    self.end_line(to.line)?;
                }
            }
        }
        Ok(())
    }

    /// Ends the logical line, outside brackets. The next one begins at `line`.
    #[tactic(auto, using(crate::proofs::LineLemmas::ends))]
    fn end_line(&mut self, line: usize) -> Result<(), AllocError>
        ensures keeps { (end : Span) (l : ℕ) (ps : List Piece) →
            OnOk result
            (with_lines end self.old (record { line = l; pieces = [] } ∷ logical_lines line ps) ≡ with_lines end self.new (logical_lines line ps)) }
        ensures same { (self.new.brackets.items ≡ self.old.brackets.items) × (self.new.joined ≡ self.old.joined) }
        ensures ended { OnOk result ((self.new.last ≡ None) × (self.new.line ≡ line)) }
        ensures levels { self.new.levels.items ≡ self.old.levels.items }
        ensures column { (self.new.column.wide ≤ self.old.column.wide) × (self.new.column.narrow ≤ self.old.column.narrow) }
    {
        let Some(last) = self.last else {
            self.begin_line(line);
            return Ok(());
        };
        self.tokens.push(Token {
            kind: TokenKind::Newline,
            span: last,
        })?;
        self.begin_line(line);
        Ok(())
    }

    /// Begins a logical line at `line`.
    fn begin_line(&mut self, line: usize)
        ensures { self.new
            ≡ record self.old { line = line; column = margin; is_leading = true; last = None } }
    {
        self.line = line;
        self.column = MARGIN;
        self.is_leading = true;
        self.last = None;
    }

    /// Opens or closes levels of indentation, where the token that begins at a place is the first one of its line.
    pub(crate) fn begin(&mut self, from: Span) -> Result<(), LexError>
        ensures keeps { (end : Span) (p : Piece) (ls : List LogicalLine) → IsToken p.kind → p.from ≡ from →
            Keeps result (with_lines end self.old (onto self.old.line p ls)) (with_lines end self.new (onto self.old.line p ls)) }
        ensures same { (self.new.brackets.items ≡ self.old.brackets.items) × (self.new.column ≡ self.old.column) × (self.new.line ≡ self.old.line) }
        ensures begun { OnOk result (IsSome self.new.last) }
    {
        if self.last.is_none() {
            move_to(
                &mut self.tokens,
                &mut self.levels,
                self.line,
                self.column,
                from,
            )?;
            self.last = Some(from);
        }
        Ok(())
    }

    /// Takes a token of the line that has begun, and the places where it begins and ends.
    pub(crate) fn token(&mut self, kind: TokenKind, from: Span, to: Span) -> Result<(), LexError>
        requires { IsSome self.old.last }
        ensures keeps { (end : Span) (text : List ℕ) (ps : List Piece) →
            Keeps result (remaining end self.old (token_piece kind text from to ∷ ps)) (remaining end self.new ps) }
        ensures same { self.new.column ≡ self.old.column }
    {
        match bracket_of(&kind) {
            Bracket::Opening => {
                if self.brackets.len() >= MOST_LEVELS {
                    return Err(LexError::Fault(from.line, LexKind::TooDeep));
                }
                self.brackets.push(from.line)?;
            }
            Bracket::Closing => {
                let _closed = self.brackets.pop();
            }
            Bracket::Neither => {}
        }
        self.tokens.push(Token { kind, span: from })?;
        self.last = Some(to);
        self.joined = None;
        Ok(())
    }

    /// The line of the bracket or join that is open at the end of the text.
    fn unclosed(&self) -> Option<usize>
        ensures { nested self.now.joined (reverse self.now.brackets.items) [] ≡ over_of result }
    {
        match self.brackets.last() {
            Some(line) => Some(*line),
            None => self.joined,
        }
    }

    /// The tokens, at the end of the text.
    #[tactic(auto, using(crate::proofs::LineLemmas::is_over))]
    pub(crate) fn finish(mut self, end: Span) -> Result<Tokens, LexError>
        ensures { Gives (λ t. t.list) result (remaining end self []) }
    {
        if let Some(line) = self.unclosed() {
            return Err(LexError::Fault(line, LexKind::Unended));
        }
        self.end_line(end.line)?;
        let Reader {
            mut tokens,
            levels,
            ..
        } = self;
        close(&mut tokens, levels.len(), end)?;
        tokens.push(Token {
            kind: TokenKind::End,
            span: end,
        })?;
        Ok(Tokens {
            list: Many::from_vec(tokens),
        })
    }
}

/// What a token does to the open brackets.
#[derive(Clone, Copy)]
enum Bracket {
    Opening,
    Closing,
    Neither,
}

fn bracket_of(kind: &TokenKind) -> Bracket
    ensures { result ≡ bracket_of kind.now }
{
    match kind {
        TokenKind::Sign(Sign::LeftParen | Sign::LeftSquare | Sign::LeftBrace) => Bracket::Opening,
        TokenKind::Sign(Sign::RightParen | Sign::RightSquare | Sign::RightBrace) =>
            Bracket::Closing,
        _ => Bracket::Neither,
    }
}
