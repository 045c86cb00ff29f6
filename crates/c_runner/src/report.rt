use c_runner_deeds::Ending;
use outside_core::WriteFault;
use thiserror::Error;
use value_core::{Many, Memory as NoMemory, Text};

/// What came of a run: how it ended, the cells that are still there in the order in which they were made, how many turns
/// are left, and whether the program wrote anything.
#[derive(Debug, Drop)]
pub struct Report {
    pub ending: Ending,
    pub live: Many<LiveCell>,
    pub turns_left: u64,
    pub has_output: bool,
}

/// A cell at the end of a run: what it holds, by name, and its count.
#[derive(Debug, Drop)]
pub struct LiveCell {
    pub kind: Text,
    pub count: u128,
}

/// Why a run has no report.
#[derive(Clone, Copy, Debug, PartialEq, Eq, Error)]
pub enum RunError {
    /// The input refused a call. The output up to there was handed on, and this says whether there was any.
    #[error("the input refused a call")]
    InputFault { has_output: bool },
    #[error("the output refused a call")]
    WriteFault,
    #[error("there is no memory")]
    Memory,
}

impl From<NoMemory> for RunError {
    ghost use Rattle.std.specs.Prelude.{◌≡◌};
    ghost use Rattle.c_runner.specs.declared.report.RunError.TheVariants as errors;

    ghost from_gives = { λ _ e. e ≡ errors.Memory };

    fn from(_refused: NoMemory) -> RunError {
        RunError::Memory
    }
}

impl From<WriteFault> for RunError {
    ghost use Rattle.std.specs.Prelude.{◌≡◌};
    ghost use Rattle.c_runner.specs.declared.report.RunError.TheVariants as errors;

    ghost from_gives = { λ _ e. e ≡ errors.WriteFault };

    fn from(_refused: WriteFault) -> RunError {
        RunError::WriteFault
    }
}
