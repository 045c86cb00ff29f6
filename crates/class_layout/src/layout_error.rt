//! Why classes have no layout.
ghost use Rattle.std.specs.Prelude.{◌≡◌};

use std::alloc::{AllocError, AllocFailed};
use thiserror::Error;
use value_core::{Memory, Name};

/// Why classes have no layout.
#[derive(Error, Debug, Drop)]
pub enum LayoutError {
    /// The first class, by its number, whose bases stand in no order (C3).
    #[error("class {0} has no order of bases")]
    NoOrder(usize),
    /// The first class, by its number, with a member of which not all definitions along its order are as the first, and its first such
    /// member.
    #[error("class {0} has definitions of {1} that differ")]
    Clash(usize, Name),
    /// Want of memory.
    #[error("out of memory")]
    Memory,
}

impl From<Memory> for LayoutError {
    ghost use Rattle.class_layout.specs.declared.layout_error.LayoutError.TheVariants.{Memory as memory};

    ghost from_gives = { λ _ e. e ≡ memory };

    fn from(_want: Memory) -> LayoutError {
        LayoutError::Memory
    }
}

impl From<AllocError> for LayoutError {
    ghost use Rattle.class_layout.specs.declared.layout_error.LayoutError.TheVariants.{Memory as memory};

    ghost from_gives = { λ _ e. e ≡ memory };

    fn from(_refused: AllocError) -> LayoutError {
        LayoutError::Memory
    }
}

impl<T: Drop> From<AllocFailed<T>> for LayoutError {
    ghost use Rattle.class_layout.specs.declared.layout_error.LayoutError.TheVariants.{Memory as memory};

    ghost from_gives = { λ _ e. e ≡ memory };

    fn from(_refused: AllocFailed<T>) -> LayoutError {
        LayoutError::Memory
    }
}
