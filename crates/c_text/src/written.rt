//! Words that are written one behind another.
ghost use Rattle.std.specs.Prelude.{◌≡◌};
ghost use Rattle.c_core.specs.Text.{kind_text};
ghost use Rattle.c_text.specs.Writing.{Wrote, words_text};

use c_core::Kind;
use outside_core::{Sink, WriteFault, write_whole};
use value_core::Name;

/// Writes one word.
pub(crate) fn write_word<O: Sink>(word: &[u8], out: &mut O) -> Result<(), WriteFault>
    ensures { Wrote result O.tells (O.faults out.old) (O.faults out.new) (O.taken out.old) (O.taken out.new)
        word.now }
{
    write_whole(out, word)
}

/// Writes words one behind another.
pub(crate) fn write_words<O: Sink>(words: &[&[u8]], out: &mut O) -> Result<(), WriteFault>
    ensures { Wrote result O.tells (O.faults out.old) (O.faults out.new) (O.taken out.old) (O.taken out.new)
        (words_text words.now) }
{
    for word in words {
        write_word(word, out)?;
    }
    Ok(())
}

/// A kind as it stands before a name.
pub(crate) fn kind_word(kind: &Kind) -> &[u8]
    ensures { result.now ≡ kind_text kind.now }
{
    match kind {
        Kind::Tagged => b"CPyTagged ",
        Kind::Int64 => b"int64_t ",
        Kind::Char => b"char ",
        Kind::Object => b"PyObject *",
    }
}

/// The bytes of a name.
pub(crate) fn name_word(name: &Name) -> &[u8]
    ensures { result.now ≡ name.now }
{
    name.as_str().as_bytes()
}
