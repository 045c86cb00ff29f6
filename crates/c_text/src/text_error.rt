ghost use Rattle.std.specs.Prelude.{◌≡◌};
ghost use Rattle.c_text.specs.declared.text_error.TextError.TheVariants as errors;

use thiserror::Error;
use value_core::Memory;

/// Why a text has no code.
#[derive(Clone, Copy, Debug, PartialEq, Eq, Error)]
pub enum TextError {
    /// No code has this text. The byte, counted from 0, is where the first line begins that cannot stand, or the text's
    /// length where each line can.
    #[error("refused at byte {0}")]
    Refused(usize),
    #[error("there is no memory")]
    Memory,
}

impl From<Memory> for TextError {
    ghost from_gives = { λ _ e. e ≡ errors.Memory };

    fn from(_refused: Memory) -> TextError {
        TextError::Memory
    }
}
