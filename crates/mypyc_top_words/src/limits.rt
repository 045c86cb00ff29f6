ghost use Rattle.std.specs.Prelude.{◌≡◌};
ghost use Rattle.mypyc_top_words.specs.Limits.{most_bytes};

use crate::words::Emit;

/// How many bytes a module may have, and how many a C text.
const MOST_OF_MODULE: usize = 262_144;

const MOST_OF_TEXT: usize = 16_777_216;

/// How many bytes a file may have in this mode.
pub fn most_bytes_of(mode: Emit) -> usize
    ensures { result ≡ most_bytes mode }
{
    match mode {
        Emit::Runc => MOST_OF_TEXT,
        Emit::Check | Emit::C | Emit::Run => MOST_OF_MODULE,
    }
}
