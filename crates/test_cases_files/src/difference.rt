//! Where two texts differ.
ghost use Rattle.std.specs.Prelude.{◌≡◌, ◌↔◌, IsNone};

use bstr::ByteSlice;

/// A line at which two texts differ: its number, from 1 on, and what each of them has there.
#[derive(Clone, Copy)]
pub struct Difference<'a> {
    pub number: usize,
    pub wanted: &'a [u8],
    pub given: &'a [u8],
}

/// The first line at which two texts differ. There is none exactly where they are the same.
pub fn first_difference<'a>(wanted: &'a [u8], given: &'a [u8]) -> Option<Difference<'a>>
    ensures { IsNone result ↔ (wanted.now ≡ given.now) }
{
    if wanted == given {
        return None;
    }
    let mut number = 1usize;
    let mut others = given.lines_with_terminator();
    for wanted in wanted.lines_with_terminator() {
        let given = others.next().unwrap_or(b"");
        if wanted != given {
            return Some(Difference {
                number,
                wanted,
                given,
            });
        }
        number = number.saturating_add(1);
    }
    Some(Difference {
        number,
        wanted: b"",
        given: others.next().unwrap_or(b""),
    })
}
