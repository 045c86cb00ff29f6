/// Why the machine refuses to go on.
#[derive(Clone, Copy, Debug, PartialEq, Eq)]
pub enum Fault {
    /// A word, a content or a place is not of the kind that a statement asks for.
    Kind,
    /// A cell that is used is gone.
    Dead,
    /// A reference that is given up or handed on is not in the frame's ledger.
    NotOwned,
    /// A frame returns while its ledger holds more than the result.
    Leak,
}
