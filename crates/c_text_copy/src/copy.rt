ghost use Rattle.std.specs.Prelude.{◌≡◌, ◌≢◌, ◌++◌, [], IsTrue, IfOk, IfErr, OnOk, IsErrOf};
ghost use Rattle.outside_core.specs.Bytes.{TakesFront};
ghost use Rattle.c_core.specs.Text.{code_text};
ghost use Rattle.c_core.specs.WellFormed.{WellFormed};
ghost use Rattle.c_text_copy.specs.Copying.{Judges, JudgesBytes, faults_of_input, faults_of_out, status_number};

use crate::input::read_input;
use c_core::{Code, check_well_formed};
use c_text::{TextError, read, write};
use outside_core::{Failed, ReadError, Sink, Source, WriteFault};
use std::alloc::Global;
use value_core::Memory;

/// How many bytes a text may have.
const MOST_BYTES: usize = 16_777_216;

/// Why a text is not copied.
#[derive(Clone, Copy, Debug, PartialEq, Eq)]
pub(crate) enum CopyError {
    /// The input cannot be read.
    ReadFault,
    /// The output cannot be written.
    WriteFault,
    /// The input has more bytes than a text may have.
    TooLarge,
    /// The input is no text of a well-formed code.
    TextRefused,
    /// There is no memory.
    Memory,
}

impl From<ReadError> for CopyError {
    ghost use Rattle.std.specs.Prelude.{◌≡◌};
    ghost use Rattle.c_text_copy.specs.Copying.{reading_error};

    ghost from_gives = { λ error e. e ≡ reading_error error };

    fn from(error: ReadError) -> CopyError {
        match error {
            ReadError::Failed => CopyError::ReadFault,
            ReadError::TooLong => CopyError::TooLarge,
            ReadError::Memory => CopyError::Memory,
        }
    }
}

impl From<TextError> for CopyError {
    ghost use Rattle.std.specs.Prelude.{◌≡◌};
    ghost use Rattle.c_text_copy.specs.Copying.{text_error};

    ghost from_gives = { λ error e. e ≡ text_error error };

    fn from(error: TextError) -> CopyError {
        match error {
            TextError::Refused(_) => CopyError::TextRefused,
            TextError::Memory => CopyError::Memory,
        }
    }
}

impl From<Memory> for CopyError {
    ghost use Rattle.std.specs.Prelude.{◌≡◌};
    ghost use Rattle.c_text_copy.specs.declared.copy.CopyError.TheVariants as errors;

    ghost from_gives = { λ _ e. e ≡ errors.Memory };

    fn from(_refused: Memory) -> CopyError {
        CopyError::Memory
    }
}

impl From<WriteFault> for CopyError {
    ghost use Rattle.std.specs.Prelude.{◌≡◌};
    ghost use Rattle.c_text_copy.specs.declared.copy.CopyError.TheVariants as errors;

    ghost from_gives = { λ _ e. e ≡ errors.WriteFault };

    fn from(_refused: WriteFault) -> CopyError {
        CopyError::WriteFault
    }
}

impl From<Failed> for CopyError {
    ghost use Rattle.std.specs.Prelude.{◌≡◌};
    ghost use Rattle.c_text_copy.specs.declared.copy.CopyError.TheVariants as errors;

    ghost from_gives = { λ _ e. e ≡ errors.WriteFault };

    fn from(_refused: Failed) -> CopyError {
        CopyError::WriteFault
    }
}

/// The well-formed code that has these bytes as its text.
fn code_of(alloc: Global, bytes: &[u8]) -> Result<Code, CopyError>
    ensures well_formed { IfOk result WellFormed }
    ensures text { IfOk result (λ code. code_text code ≡ bytes.now) }
    ensures refused { IfErr result (JudgesBytes bytes.now) }
{
    let code = read(alloc, bytes)?;
    if check_well_formed(alloc, &code)? {
        Ok(code)
    } else {
        Err(CopyError::TextRefused)
    }
}

/// Reads a C text to the end of the input, and writes the text of its code to the output, which is the same text.
pub(crate) fn copy<I: Source, O: Sink>(
    alloc: Global,
    input: &mut I,
    out: &mut O,
) -> Result<(), CopyError>
    // Which text is copied, and why another is not.
    ensures judged { IsTrue I.tells → Judges (I.left input.old) result }
    ensures read { OnOk result (IsTrue I.tells → I.left input.new ≡ []) }
    // What the output took: the whole text, a front of it where the output failed, and else nothing.
    ensures taken { OnOk result (IsTrue I.tells → IsTrue O.tells →
        O.taken out.new ≡ O.taken out.old ++ I.left input.old) }
    ensures front { IsErrOf result CopyError.WriteFault → IsTrue I.tells → IsTrue O.tells →
        TakesFront (O.taken out.old) (O.taken out.new) (I.left input.old) }
    ensures untouched { IfErr result (λ error. error ≢ CopyError.WriteFault → out.new ≡ out.old) }
    ensures input_faults { I.faults input.new ≡ faults_of_input result (I.faults input.old) }
    ensures out_faults { O.faults out.new ≡ faults_of_out result (O.faults out.old) }
{
    let bytes = read_input(alloc, input, MOST_BYTES)?;
    let code = code_of(alloc, &bytes)?;
    write(&code, out)?;
    out.flush()?;
    Ok(())
}

/// The exit status of a copy: the number that `mypyc` has for the same cause.
pub(crate) fn status_of(copied: Result<(), CopyError>) -> u8
    ensures { result ≡ status_number copied }
{
    match copied {
        Ok(()) => 0,
        Err(CopyError::ReadFault) => 4,
        Err(CopyError::WriteFault) => 5,
        Err(CopyError::TooLarge) => 6,
        Err(CopyError::TextRefused) => 9,
        Err(CopyError::Memory) => 12,
    }
}
