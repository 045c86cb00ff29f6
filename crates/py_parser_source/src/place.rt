//! Lines of a file.
ghost use Rattle.std.specs.Prelude.{◌≡◌, ◌+◌, ◌∷◌, if◌then◌else◌};
ghost use Rattle.py_parser_source.specs.Faults.{line_ends};

/// The line of the place behind these bytes, from 1: a line's end is LF, CR or both.
pub(crate) fn line_behind(bytes: &[u8]) -> usize
    ensures { result ≡ 1 + line_ends bytes.now }
{
    let mut line = 1;
    let mut rest = bytes;
    while let Some((byte, behind)) = rest.split_first() {
        if ends_line(*byte, behind) {
            line += 1;
        }
        rest = behind;
    }
    line
}

/// Whether a line ends at a byte with these bytes behind it: a CR before an LF leaves the end to it.
fn ends_line(byte: u8, behind: &[u8]) -> bool
    ensures { line_ends (byte ∷ behind.now) ≡ (if result then 1 else 0) + line_ends behind.now }
{
    byte == b'\n' || byte == b'\r' && behind.first() != Some(&b'\n')
}
