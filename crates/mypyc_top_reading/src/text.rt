//! A file that is run as C text.
ghost use Rattle.std.specs.Prelude.{◌≡◌, IfOk, IfErr};
ghost use Rattle.c_core.specs.WellFormed.{WellFormed};
ghost use Rattle.c_core.specs.Text.{code_text};
ghost use Rattle.mypyc_top_reading.specs.TextFaults.{IsTextFault};

use c_core::{Code, check_well_formed};
use c_text::{TextError, read};
use std::alloc::Global;
use value_core::Memory as NoMemory;

/// Why a file is no C text that can be run.
#[derive(Clone, Copy)]
pub enum TextFault {
    /// It is the text of no code, which shows at this byte.
    Refused(usize),
    /// It is the text of a code that is not well formed.
    IllFormed,
    /// There is no memory.
    Memory,
}

impl From<NoMemory> for TextFault {
    ghost use Rattle.std.specs.Prelude.{◌≡◌};
    ghost use Rattle.mypyc_top_reading.specs.declared.text.TextFault.TheVariants as faults;

    ghost from_gives = { λ _ e. e ≡ faults.Memory };

    fn from(_refused: NoMemory) -> TextFault {
        TextFault::Memory
    }
}

/// The well-formed code that has this text.
pub fn text_code(alloc: Global, bytes: &[u8]) -> Result<Code, TextFault>
    ensures code { IfOk result (λ code. WellFormed code × (code_text code ≡ bytes.now)) }
    ensures fault { IfErr result (IsTextFault bytes.now) }
{
    match read(alloc, bytes) {
        Ok(code) => {
            if check_well_formed(alloc, &code)? {
                Ok(code)
            } else {
                Err(TextFault::IllFormed)
            }
        }
        Err(TextError::Refused(place)) => Err(TextFault::Refused(place)),
        Err(TextError::Memory) => Err(TextFault::Memory),
    }
}
