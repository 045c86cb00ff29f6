//! What is wrong with a file that has no tree, in words.
ghost use Rattle.std.specs.Prelude.{◌≡◌};
ghost use Rattle.py_parser_source.specs.Texts.{kind_code};

use py_lexer::LexKind;
use py_syntax::Key;
use std::fmt;

/// What is wrong at a line of a file that has no tree. It is written in words.
#[derive(Clone, Copy)]
pub enum FaultKind {
    /// A byte that belongs to no character.
    NoText,
    /// Characters that are no token.
    NoToken(LexKind),
    /// A token that cannot stand where it stands.
    NoTree,
    /// A keyword that this language has not.
    LeftOut(Key),
    /// An expression of more than 100 levels ends.
    TooDeep,
}

/// Why a file has no tree: what is wrong, and its line, from 1.
#[derive(Clone, Copy)]
pub struct SourceFault {
    pub line: usize,
    pub kind: FaultKind,
}

impl FaultKind {
    /// The code of the rule that is broken.
    pub fn code(self) -> &'static str
        ensures { result.now ≡ kind_code self }
    {
        match self {
            FaultKind::LeftOut(_) => "profile",
            _ => "syntax",
        }
    }
}

impl fmt::Display for FaultKind {
    ghost use Rattle.std.specs.Prelude.{Some};
    ghost use Rattle.py_parser_source.specs.Texts.{kind_text};

    ghost output = { λ kind. Some (kind_text kind) };

    fn fmt<W: fmt::Write>(&self, f: &mut fmt::Formatter<W>) -> fmt::Result {
        match self {
            FaultKind::NoText => f.write_str("File is not UTF-8"),
            FaultKind::NoToken(kind) => write!(f, "{kind}"),
            FaultKind::NoTree => f.write_str("Invalid syntax, or syntax outside the profile"),
            FaultKind::LeftOut(key) => { write!(f, "\"{}\" is outside the profile", key.text()) }
            FaultKind::TooDeep => write!(f, "{}", LexKind::TooDeep),
        }
    }
}
