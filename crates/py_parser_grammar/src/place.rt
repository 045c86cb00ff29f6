//! Where a reader stands.

/// A place between tokens.
#[derive(Clone, Copy, Debug, PartialEq, Eq)]
pub struct Place {
    /// How many tokens lie in front of it.
    pub at: usize,
    /// Whether an expression of level above 100 was finished directly in front of it.
    pub deep: bool,
}
