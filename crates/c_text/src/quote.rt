ghost use Rattle.std.specs.Prelude.{◌++◌};
ghost use Rattle.std.specs.List.{flat_map};
ghost use Rattle.c_core.specs.Text.{quoted, byte_text};
ghost use Rattle.c_text.specs.Writing.{Wrote};

use crate::written::{write_word, write_words};
use outside_core::{Sink, WriteFault};

/// Writes a text between double quotes, with its escapes, behind what separates it from what stands before.
pub(crate) fn write_quoted<O: Sink>(
    separator: &[u8],
    text: &[u8],
    out: &mut O,
) -> Result<(), WriteFault>
    ensures { Wrote result O.tells (O.faults out.old) (O.faults out.new) (O.taken out.old) (O.taken out.new)
        (separator.now ++ quoted text.now) }
{
    write_words(&[separator, b"\""], out)?;
    write_bytes(text, out)?;
    write_word(b"\"", out)
}

fn write_bytes<O: Sink>(text: &[u8], out: &mut O) -> Result<(), WriteFault>
    ensures { Wrote result O.tells (O.faults out.old) (O.faults out.new) (O.taken out.old) (O.taken out.new)
        (flat_map byte_text text.now) }
{
    for byte in text {
        write_byte(*byte, out)?;
    }
    Ok(())
}

/// Writes a byte as it stands in a quoted text: a backslash before `"`, `\` and line feeds, three octal digits for
/// other control characters.
fn write_byte<O: Sink>(byte: u8, out: &mut O) -> Result<(), WriteFault>
    ensures { Wrote result O.tells (O.faults out.old) (O.faults out.new) (O.taken out.old) (O.taken out.new)
        (byte_text byte) }
{
    match byte {
        b'"' => write_word(b"\\\"", out),
        b'\\' => write_word(b"\\\\", out),
        b'\n' => write_word(b"\\n", out),
        0..32 | 127 => {
            let octal = [
                b'\\',
                b'0' + byte / 64,
                b'0' + byte / 8 % 8,
                b'0' + byte % 8,
            ];
            write_word(&octal, out)
        }
        _ => write_word(&[byte], out),
    }
}
