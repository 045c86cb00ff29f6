//! Tokens and their places.
use crate::key::Key;
use crate::sign::Sign;
use value_core::{Many, Name, Text};

/// A place in a source text. Places are ordered by line, then by column.
#[derive(Clone, Copy, Debug, PartialEq, Eq, PartialOrd, Ord)]
pub struct Span {
    /// The line, from 1.
    pub line: usize,
    /// The column in characters, from 1.
    pub col: usize,
}

/// A token, with the place where it begins (Python Language Reference, "Lexical analysis").
#[derive(PartialEq, Eq, Drop)]
pub struct Token {
    pub kind: TokenKind,
    pub span: Span,
}

/// The tokens of a text, in its order. The last one is `End`, and no other one is.
#[derive(Drop)]
pub struct Tokens {
    pub list: Many<Token>,
}

/// What a token is.
#[derive(PartialEq, Eq, Drop)]
pub enum TokenKind {
    /// An identifier that is no keyword, in the normal form NFKC.
    Name(Name),
    /// An integer literal, by its value, which is not negative.
    Int(i128),
    /// A string literal, by its value.
    Str(Text),
    /// A keyword.
    Key(Key),
    /// An operator or a delimiter.
    Sign(Sign),
    /// The end of a logical line.
    Newline,
    /// A logical line that is indented further than the one before it begins.
    Indent,
    /// A level of indentation ends.
    Dedent,
    /// The end of the text.
    End,
}
