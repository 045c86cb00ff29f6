use thiserror::Error;

/// Why an operation on numbers has no result.
#[derive(Clone, Copy, Debug, PartialEq, Eq, Error)]
pub enum Arith {
    /// The result is past the type's range.
    #[error("the result is past the range")]
    Overflow,
    /// A quotient or a remainder by zero.
    #[error("the divisor is zero")]
    ZeroDivisor,
    /// A shift of an `int` by a negative count.
    #[error("the shift count is negative")]
    NegativeShift,
    /// A shift count of an `i64` outside 0 to 63, or an `int` that is no `i64`.
    #[error("the value is out of range")]
    OutOfRange,
}
