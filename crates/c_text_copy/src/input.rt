ghost use Rattle.std.specs.Prelude.{◌≡◌, ◌+◌, ◌≤◌, [], length, vec_len, IsTrue, IfOk, OnOk, IsErrOf};
ghost use Rattle.outside_core.specs.Reading.{count_after_reading};

use outside_core::{ReadError, Source};
use std::alloc::Global;

/// How many bytes a read asks for at most.
const PIECE: usize = 4096;

/// Reads an input to its end, which may have `limit` bytes at most. It stops at the first refusal, and after one byte
/// more than the limit, which is `TooLong`.
pub(crate) fn read_input<I: Source>(
    alloc: Global,
    input: &mut I,
    limit: usize,
) -> Result<Vec<u8>, ReadError>
    ensures counted { I.faults input.new ≡ count_after_reading result (I.faults input.old) }
    ensures within { IfOk result (λ bytes. vec_len bytes ≤ limit) }
    ensures whole { IfOk result (λ bytes. IsTrue I.tells → bytes.items ≡ I.left input.old) }
    ensures end { OnOk result (IsTrue I.tells → I.left input.new ≡ []) }
    ensures too_long { IsErrOf result ReadError.TooLong → IsTrue I.tells →
        length (I.left input.old) ≡ limit + 1 + length (I.left input.new) }
{
    let mut bytes = Vec::new(alloc);
    let mut piece = [0; PIECE];
    while bytes.len() <= limit {
        let room = (limit - bytes.len()).min(PIECE - 1) + 1;
        let count = input.read(&mut piece[..room])?;
        if count == 0 {
            return Ok(bytes);
        }
        bytes.extend_from_slice(&piece[..count])?;
    }
    Err(ReadError::TooLong)
}
