//! Why a text has no tokens.
ghost use Rattle.std.specs.Prelude.{◌≡◌};

use std::alloc::{AllocError, AllocFailed};
use std::fmt;
use thiserror::Error;

/// What is wrong at a place of a text.
#[derive(Clone, Copy, Debug, PartialEq, Eq)]
pub enum LexKind {
    /// A line closes levels of indentation, and its column is that of none that stays open.
    BadIndent,
    /// Two columns compare in one way with tabs up to multiples of 8, and in another with each tab as one.
    Tab,
    /// A character that begins no token, or a name whose normal form is no identifier.
    BadCharacter,
    /// A number that is no integer literal, or is above 2^127 - 1.
    BadNumber,
    /// A wrong escape, or a prefix that no string of the profile has.
    BadString,
    /// A string, a bracket or a join that is still open at the end of its line or of the text.
    Unended,
    /// More than 100 brackets, or levels of indentation, are open.
    TooDeep,
}

impl fmt::Display for LexKind {
    ghost use Rattle.std.specs.Prelude.{Some};
    ghost use Rattle.py_lexer.specs.Faults.{fault_text};

    ghost output = { λ kind. Some (fault_text kind) };

    fn fmt<W: fmt::Write>(&self, f: &mut fmt::Formatter<W>) -> fmt::Result {
        f.write_str(match self {
            LexKind::BadIndent => "Unindent does not match an outer level",
            LexKind::Tab => "Inconsistent use of tabs in indentation",
            LexKind::BadCharacter => "Invalid character",
            LexKind::BadNumber => "Invalid number",
            LexKind::BadString => "Invalid string",
            LexKind::Unended => "Unended bracket or string",
            LexKind::TooDeep => "Nested too deeply",
        })
    }
}

/// Why a text has no tokens.
#[derive(Clone, Copy, Debug, PartialEq, Eq, Error)]
pub enum LexError {
    /// The first fault of the text, with its line, from 1.
    #[error("line {0}: {1}")]
    Fault(usize, LexKind),
    /// Want of memory.
    #[error("out of memory")]
    Memory,
}

impl From<AllocError> for LexError {
    ghost use Rattle.py_lexer.specs.declared.fault.LexError.TheVariants.{Memory};

    ghost from_gives = { λ _ e. e ≡ Memory };

    fn from(_refused: AllocError) -> LexError {
        LexError::Memory
    }
}

impl<T: Drop> From<AllocFailed<T>> for LexError {
    ghost use Rattle.py_lexer.specs.declared.fault.LexError.TheVariants.{Memory};

    ghost from_gives = { λ _ e. e ≡ Memory };

    fn from(_refused: AllocFailed<T>) -> LexError {
        LexError::Memory
    }
}
