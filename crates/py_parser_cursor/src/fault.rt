//! Why tokens have no tree.
use std::alloc::{AllocError, AllocFailed};
use thiserror::Error;
use value_core::Memory;

/// Why tokens have no tree. The number is a token's index, from 0.
#[derive(Clone, Copy, Debug, PartialEq, Eq, Error)]
pub enum ParseError {
    /// The first token that cannot stand where it stands.
    #[error("invalid syntax at token {0}")]
    Syntax(usize),
    /// The same, where the token is one of the six keywords that the profile leaves out.
    #[error("keyword outside the profile at token {0}")]
    Profile(usize),
    /// The last token of the first expression of more than 100 levels.
    #[error("nested too deeply at token {0}")]
    TooDeep(usize),
    /// Want of memory.
    #[error("out of memory")]
    Memory,
}

impl From<AllocError> for ParseError {
    ghost use Rattle.std.specs.Prelude.{◌≡◌};
    ghost use Rattle.py_parser_cursor.specs.declared.fault.ParseError.TheVariants as fault;

    ghost from_gives = { λ _ e. e ≡ fault.Memory };

    fn from(_refused: AllocError) -> ParseError {
        ParseError::Memory
    }
}

impl From<Memory> for ParseError {
    ghost use Rattle.std.specs.Prelude.{◌≡◌};
    ghost use Rattle.py_parser_cursor.specs.declared.fault.ParseError.TheVariants as fault;

    ghost from_gives = { λ _ e. e ≡ fault.Memory };

    fn from(_refused: Memory) -> ParseError {
        ParseError::Memory
    }
}

impl<T: Drop> From<AllocFailed<T>> for ParseError {
    ghost use Rattle.std.specs.Prelude.{◌≡◌};
    ghost use Rattle.py_parser_cursor.specs.declared.fault.ParseError.TheVariants as fault;

    ghost from_gives = { λ _ e. e ≡ fault.Memory };

    fn from(_refused: AllocFailed<T>) -> ParseError {
        ParseError::Memory
    }
}
