//! How a run ends.
use c_core::Fault;
use value_core::{ExcClass, Text};

/// How a run ends.
#[derive(Debug, Drop)]
pub enum Ending {
    /// The module ended by itself.
    Done,
    /// An exception of this class and text left the module.
    Raised(ExcClass, Text),
    /// No turns were left.
    Cut,
    /// A line of input stands too far along.
    Over,
    /// The code broke a rule of the machine.
    Fault(Fault),
}
