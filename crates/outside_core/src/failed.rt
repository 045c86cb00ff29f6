use thiserror::Error;

/// The outside refused a call. Its object counted one more fault, or stood at the end of its count.
#[derive(Clone, Copy, Debug, PartialEq, Eq, Error)]
#[error("the outside refused a call")]
pub struct Failed;

/// A sink refused a call while a whole text was written to it. What it took is a front of the text.
#[derive(Clone, Copy, Debug, PartialEq, Eq, Error)]
#[error("a sink refused a call")]
pub struct WriteFault;

impl From<Failed> for WriteFault {
    fn from(_refused: Failed) -> WriteFault {
        WriteFault
    }
}
