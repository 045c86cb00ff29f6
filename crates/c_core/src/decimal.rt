//! Decimals of `int`s that are not short.
ghost use Rattle.std.specs.Prelude.{◌≡◌, Some, None, cond, is_some};
ghost use Rattle.std.specs.Str.Parse.{signed_digits_value};
ghost use Rattle.c_core.specs.Strings.{is_long_decimal};

use itoa::Buffer;
use value_core::is_short;

/// The number of a text that is the decimal of an `int` that is not short, as it is printed. It takes no memory.
pub fn long_decimal(text: &str) -> Option<i128>
    ensures { result ≡ cond (is_long_decimal text.now) (Some (signed_digits_value 10 text.now)) None }
{
    match text.parse::<i128>() {
        Ok(n) if !is_short(n) && Buffer::new().format(n) == text => Some(n),
        _ => None,
    }
}

/// Whether a text is the decimal of an `int` that is not short.
pub(crate) fn is_long_decimal(text: &str) -> bool
    ensures { result ≡ is_long_decimal text.now }
{
    long_decimal(text).is_some()
}
