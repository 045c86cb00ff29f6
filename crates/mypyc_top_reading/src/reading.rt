ghost use Rattle.std.specs.Prelude.{◌≡◌, ◌+◌, ◌<◌, ◌≤◌, ℕ, List, Some, vec_len, is_none, IsTrue, IfOk, IfErr};
ghost use Rattle.outside_core.specs.Bytes.{GivesAtMost};
ghost use Rattle.outside_core.specs.Counts.{count_if};
ghost use Rattle.mypyc_top_reading.specs.Refusals.{faults_after, Refused};

use outside_core::{Failed, Files, ReadError, read_whole};
use std::alloc::Global;
use value_core::Text;

/// Why a file is not read.
#[derive(Clone, Copy)]
pub enum Refusal {
    /// It cannot be opened.
    Open,
    /// It cannot be read.
    Read,
    /// It has more bytes than it may have.
    TooLarge,
    /// There is no memory for its bytes.
    Memory,
}

impl From<Failed> for Refusal {
    ghost use Rattle.std.specs.Prelude.{◌≡◌};
    ghost use Rattle.mypyc_top_reading.specs.declared.reading.Refusal.TheVariants as refusals;

    ghost from_gives = { λ _ e. e ≡ refusals.Open };

    fn from(_refused: Failed) -> Refusal {
        Refusal::Open
    }
}

impl From<ReadError> for Refusal {
    ghost use Rattle.std.specs.Prelude.{◌≡◌};
    ghost use Rattle.mypyc_top_reading.specs.Refusals.{refusal_of};

    ghost from_gives = { λ error e. e ≡ refusal_of error };

    fn from(error: ReadError) -> Refusal {
        match error {
            ReadError::Failed => Refusal::Read,
            ReadError::TooLong => Refusal::TooLarge,
            ReadError::Memory => Refusal::Memory,
        }
    }
}

/// The bytes of a file that has at most so many.
pub fn read_file<F: Files>(
    alloc: Global,
    files: &mut F,
    name: &Text,
    most: usize,
) -> Result<Vec<u8>, Refusal>
    ensures counted { F.faults files.new ≡ faults_after result (F.faults files.old) }
    ensures within { IfOk result (λ bytes. vec_len bytes ≤ most) }
    ensures whole { IfOk result (λ bytes. IsTrue F.tells →
        F.content files.old name.now ≡ Some bytes.items) }
    ensures refused { IfErr result
        (Refused most F.tells (F.is_open files.new) (F.content files.old name.now)) }
    ensures absent { IsTrue F.tells → F.absent_opens files.new
        ≡ count_if (is_none (F.content files.old name.now)) (F.absent_opens files.old) }
    ensures read_at_most { (bytes : List ℕ) → IsTrue F.tells
        → F.content files.old name.now ≡ Some bytes → IsTrue (F.is_open files.new)
        → GivesAtMost (most + 1) bytes (F.left files.new) }
{
    files.open_file(name.as_str())?;
    Ok(read_whole(alloc, files, most)?)
}
