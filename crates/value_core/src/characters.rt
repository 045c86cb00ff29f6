//! The code points of a text.
ghost use Rattle.std.specs.Prelude.{◌≡◌, ◌<◌};
ghost use Rattle.value_core.specs.Characters as spec;

/// How many code points a text has.
pub fn char_len(s: &str) -> usize
    ensures { result ≡ spec.char_len s.now }
{
    s.chars().count()
}

/// Where the bytes of the code point at an index begin and end, for `s[i]`. A negative index counts from the end.
/// None exactly where the index is out of range.
pub fn char_at(s: &str, i: i128) -> Option<(usize, usize)>
    ensures { result ≡ spec.char_at s.now i }
{
    let place = place_of(char_len(s), i)?;
    Some(char_range(s, place))
}

/// The place, from 0, that an index means in a sequence of `count` items. A negative index counts from the end.
/// None exactly where it is out of range.
pub fn place_of(count: usize, i: i128) -> Option<usize>
    ensures { result ≡ spec.place_of count i }
{
    let count = count as i128;
    let place = if i < 0 { i + count } else { i };
    if 0 <= place && place < count {
        Some(place as usize)
    } else {
        None
    }
}

fn char_range(s: &str, place: usize) -> (usize, usize)
    requires { place < spec.char_len s.now }
    ensures { result ≡ spec.char_range s.now place }
{
    let end = s.len();
    let mut from = 0;
    let mut left = place;
    for c in s.chars() {
        let to = from + c.len_utf8();
        if left == 0 {
            return (from, to);
        }
        from = to;
        left -= 1;
    }
    (end, end)
}
