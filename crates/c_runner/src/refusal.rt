ghost use Rattle.std.specs.Prelude.{◌≡◌};
ghost use Rattle.c_runner.specs.Advancing.{error_after};

use crate::report::RunError;
use c_runner_lines::ReadFault;
use outside_core::WriteFault;
use value_core::Memory;

/// Why a step was not made: what refused it, or refused the line that it asked for.
#[derive(Clone, Copy)]
pub(crate) enum Refusal {
    /// The input refused a call.
    InputFault,
    /// The output refused a call.
    WriteFault,
    /// There is no memory.
    Memory,
}

impl Refusal {
    /// Why the run has no report, where the program had written something before or had not.
    pub(crate) fn after(self, has_output: bool) -> RunError
        ensures { result ≡ error_after has_output self }
    {
        match self {
            Refusal::InputFault => RunError::InputFault { has_output },
            Refusal::WriteFault => RunError::WriteFault,
            Refusal::Memory => RunError::Memory,
        }
    }
}

impl From<Memory> for Refusal {
    ghost use Rattle.std.specs.Prelude.{◌≡◌};
    ghost use Rattle.c_runner.specs.declared.refusal.Refusal.TheVariants as refusals;

    ghost from_gives = { λ _ e. e ≡ refusals.Memory };

    fn from(_refused: Memory) -> Refusal {
        Refusal::Memory
    }
}

impl From<WriteFault> for Refusal {
    ghost use Rattle.std.specs.Prelude.{◌≡◌};
    ghost use Rattle.c_runner.specs.declared.refusal.Refusal.TheVariants as refusals;

    ghost from_gives = { λ _ e. e ≡ refusals.WriteFault };

    fn from(_refused: WriteFault) -> Refusal {
        Refusal::WriteFault
    }
}

impl From<ReadFault> for Refusal {
    ghost use Rattle.std.specs.Prelude.{◌≡◌};
    ghost use Rattle.c_runner.specs.Advancing.{refusal_of_read};

    ghost from_gives = { λ refused e. e ≡ refusal_of_read refused };

    fn from(refused: ReadFault) -> Refusal {
        match refused {
            ReadFault::Failed => Refusal::InputFault,
            ReadFault::Memory => Refusal::Memory,
        }
    }
}
