ghost use Rattle.std.specs.Prelude.{◌≡◌};
ghost use Rattle.c_runner_lines.specs.declared.read_fault.ReadFault.TheVariants as faults;

use outside_core::Failed;
use std::alloc::AllocError;
use thiserror::Error;

/// Why a line was not read.
#[derive(Clone, Copy, Debug, PartialEq, Eq, Error)]
pub enum ReadFault {
    /// A read failed.
    #[error("the input cannot be read")]
    Failed,
    /// There is no memory for its bytes.
    #[error("out of memory")]
    Memory,
}

impl From<Failed> for ReadFault {
    ghost from_gives = { λ _ e. e ≡ faults.Failed };

    fn from(_refused: Failed) -> ReadFault {
        ReadFault::Failed
    }
}

impl From<AllocError> for ReadFault {
    ghost from_gives = { λ _ e. e ≡ faults.Memory };

    fn from(_refused: AllocError) -> ReadFault {
        ReadFault::Memory
    }
}

impl From<value_core::Memory> for ReadFault {
    ghost from_gives = { λ _ e. e ≡ faults.Memory };

    fn from(_refused: value_core::Memory) -> ReadFault {
        ReadFault::Memory
    }
}
