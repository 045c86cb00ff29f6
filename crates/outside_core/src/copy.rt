ghost use Rattle.std.specs.Prelude.{◌≡◌, ◌+◌, ◌-◌, ◌++◌, ◌≤◌, length, take, drop, min};

/// Copies bytes from a place on, as many as there are and as there is room for, but `most` at
/// most. Answers how many.
pub(crate) fn copy_from(bytes: &[u8], at: usize, most: usize, into: &mut [u8]) -> usize
    requires { at ≤ length bytes.now }
    ensures count { result ≡ min most (min (length into.old) (length bytes.now - at)) }
    ensures given { drop at bytes.now ≡ take result into.new ++ drop (at + result) bytes.now }
    ensures behind { drop result into.new ≡ drop result into.old }
{
    let count = most.min(into.len()).min(bytes.len() - at);
    into[..count].copy_from_slice(&bytes[at..at + count]);
    count
}
