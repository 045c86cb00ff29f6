//! `i64`: whole numbers of 64 bits. Sums, differences, products and left shifts wrap.
ghost use Rattle.std.specs.Prelude.{◌≡◌};
ghost use Rattle.value_core.specs.Arithmetic as spec;

use crate::arith::Arith;
use crate::int::{int_floor_div, int_modulo};

/// `a + b`, wrapped.
pub fn i64_add(a: i64, b: i64) -> i64
    ensures { result ≡ spec.i64_add a b }
{
    a.wrapping_add(b)
}

/// `a - b`, wrapped.
pub fn i64_sub(a: i64, b: i64) -> i64
    ensures { result ≡ spec.i64_sub a b }
{
    a.wrapping_sub(b)
}

/// `a * b`, wrapped.
pub fn i64_mul(a: i64, b: i64) -> i64
    ensures { result ≡ spec.i64_mul a b }
{
    a.wrapping_mul(b)
}

/// `-a`, wrapped.
pub fn i64_neg(a: i64) -> i64
    ensures { result ≡ spec.i64_neg a }
{
    a.wrapping_neg()
}

/// `a // b`, rounded to minus infinity. `ZeroDivisor` for a `b` of 0 and for no other; `Overflow` for the least value and -1 alone.
pub fn i64_floor_div(a: i64, b: i64) -> Result<i64, Arith>
    ensures { result ≡ spec.i64_floor_div a b }
{
    let quotient = int_floor_div(a.into(), b.into())?;
    i64::try_from(quotient).map_err(|_| Arith::Overflow)
}

/// `a % b`, with the sign of `b`. `ZeroDivisor` for a `b` of 0 and for no other.
pub fn i64_modulo(a: i64, b: i64) -> Result<i64, Arith>
    ensures { result ≡ spec.i64_modulo a b }
{
    let rest = int_modulo(a.into(), b.into())?;
    Ok(rest as i64)
}

/// `a << n`, wrapped. `OutOfRange` for an `n` below 0 or above 63, and for no other.
pub fn i64_shl(a: i64, n: i64) -> Result<i64, Arith>
    ensures { result ≡ spec.i64_shl a n }
{
    match n {
        0..=63 => Ok(a << n as u32),
        _ => Err(Arith::OutOfRange),
    }
}

/// `a >> n`, rounded to minus infinity. `OutOfRange` for an `n` below 0 or above 63, and for no other.
pub fn i64_shr(a: i64, n: i64) -> Result<i64, Arith>
    ensures { result ≡ spec.i64_shr a n }
{
    match n {
        0..=63 => Ok(a >> n as u32),
        _ => Err(Arith::OutOfRange),
    }
}

/// The equal `i64`. OutOfRange exactly where there is none.
pub fn int_to_i64(a: i128) -> Result<i64, Arith>
    ensures { result ≡ spec.int_to_i64 a }
{
    i64::try_from(a).map_err(|_| Arith::OutOfRange)
}
