ghost use Rattle.std.specs.Prelude.{◌≡◌};
ghost use Rattle.c_runner.specs.declared.pause.Pause.TheVariants as pauses;

use std::alloc::AllocError;
use value_core::Memory;

/// Why a step was not made.
#[derive(Clone, Copy)]
pub(crate) enum Pause {
    /// There is no memory.
    Memory,
    /// A line of input is asked for, whose text is to go to this variable, if it is to go to one.
    Waits(Option<usize>),
}

impl From<Memory> for Pause {
    ghost from_gives = { λ _ e. e ≡ pauses.Memory };

    fn from(_refused: Memory) -> Pause {
        Pause::Memory
    }
}

impl From<AllocError> for Pause {
    ghost from_gives = { λ _ e. e ≡ pauses.Memory };

    fn from(_refused: AllocError) -> Pause {
        Pause::Memory
    }
}
