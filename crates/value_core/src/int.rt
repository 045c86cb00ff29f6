//! `int`: whole numbers of 128 bits. A result past the range is refused.
ghost use Rattle.std.specs.Prelude.{◌≡◌, ◌≤◌, ◌<◌, ◌^◌, pos, ◌*ℤ◌};
ghost use Rattle.value_core.specs.Arithmetic as spec;
ghost use Rattle.value_core.specs.Division as division;

use crate::arith::Arith;

// Past this shift count nothing but a sign is left of an `int`.
const BITS: i128 = 127;

/// `a + b`. Overflow exactly where the sum is outside 128 bits.
pub fn int_add(a: i128, b: i128) -> Result<i128, Arith>
    ensures { result ≡ spec.int_add a b }
{
    a.checked_add(b).ok_or(Arith::Overflow)
}

/// `a - b`. Overflow exactly where the difference is outside 128 bits.
pub fn int_sub(a: i128, b: i128) -> Result<i128, Arith>
    ensures { result ≡ spec.int_sub a b }
{
    a.checked_sub(b).ok_or(Arith::Overflow)
}

/// `a * b`. Overflow exactly where the product is outside 128 bits.
pub fn int_mul(a: i128, b: i128) -> Result<i128, Arith>
    ensures { result ≡ spec.int_mul a b }
{
    a.checked_mul(b).ok_or(Arith::Overflow)
}

/// `-a`. Overflow exactly at the least value.
pub fn int_neg(a: i128) -> Result<i128, Arith>
    ensures { result ≡ spec.int_neg a }
{
    a.checked_neg().ok_or(Arith::Overflow)
}

/// `a // b`, rounded to minus infinity. `ZeroDivisor` for a `b` of 0 and for no other; `Overflow` for the least value and -1 alone.
pub fn int_floor_div(a: i128, b: i128) -> Result<i128, Arith>
    ensures { result ≡ spec.int_floor_div a b }
{
    if b == 0 {
        return Err(Arith::ZeroDivisor);
    }
    let Some(quotient) = a.checked_div(b) else {
        return Err(Arith::Overflow);
    };
    let rest = a % b;
    if rounds_down(rest, b) {
        Ok(quotient - 1)
    } else {
        Ok(quotient)
    }
}

/// `a % b`, with the sign of `b`. `ZeroDivisor` for a `b` of 0 and for no other.
pub fn int_modulo(a: i128, b: i128) -> Result<i128, Arith>
    ensures { result ≡ spec.int_modulo a b }
{
    if b == 0 {
        return Err(Arith::ZeroDivisor);
    }
    let rest = a.wrapping_rem(b);
    if rounds_down(rest, b) {
        Ok(rest + b)
    } else {
        Ok(rest)
    }
}

/// `a << n`. NegativeShift exactly where `n` is negative; Overflow exactly where `a * 2^n` is outside 128 bits.
pub fn int_shl(a: i128, n: i128) -> Result<i128, Arith>
    ensures { result ≡ spec.int_shl a n }
{
    if n < 0 {
        Err(Arith::NegativeShift)
    } else if a == 0 {
        Ok(0)
    } else if n > BITS {
        Err(Arith::Overflow)
    } else {
        doubled(a, n as u32)
    }
}

/// `a >> n`, rounded to minus infinity. NegativeShift exactly where `n` is negative.
pub fn int_shr(a: i128, n: i128) -> Result<i128, Arith>
    ensures { result ≡ spec.int_shr a n }
{
    if n < 0 {
        Err(Arith::NegativeShift)
    } else if n < BITS {
        Ok(a >> n as u32)
    } else if a < 0 {
        Ok(-1)
    } else {
        Ok(0)
    }
}

/// Whether `a` is from -2^62 to 2^62 - 1, so that a tagged word holds it.
pub fn is_short(a: i128) -> bool
    ensures { result ≡ spec.is_short a }
{
    (-(1 << 62)..1 << 62).contains(&a)
}

// `a` doubled n times, in two halves, since 2^127 is itself past the range.
fn doubled(a: i128, n: u32) -> Result<i128, Arith>
    requires { n ≤ 127 }
    ensures { result ≡ spec.as_int (a *ℤ pos (2 ^ n)) }
{
    let half = n / 2;
    let Some(first) = a.checked_mul(power_of_two(half)) else {
        return Err(Arith::Overflow);
    };
    first
        .checked_mul(power_of_two(n - half))
        .ok_or(Arith::Overflow)
}

fn power_of_two(n: u32) -> i128
    requires { n < 127 }
    ensures { result ≡ pos (2 ^ n) }
{
    1 << n
}

// Whether the floor is one below the quotient that is rounded toward zero.
fn rounds_down(rest: i128, divisor: i128) -> bool
    ensures { result ≡ division.rounds_down rest divisor }
{
    rest != 0 && (rest < 0) != (divisor < 0)
}
