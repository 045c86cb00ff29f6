ghost use Rattle.std.specs.Prelude.{◌≡◌, ◌+◌, ◌++◌, ◌≤◌, [], length, vec_len, IsTrue, IfOk, OnOk, OnErr, IsErrOf};
ghost use Rattle.outside_core.specs.Counts.{count_after};
ghost use Rattle.outside_core.specs.Bytes.{TakesFront, GivesAtMost};
ghost use Rattle.outside_core.specs.Reading.{count_after_reading};

use crate::failed::WriteFault;
use crate::files::Files;
use crate::read_error::ReadError;
use crate::sink::Sink;
use std::alloc::Global;

/// How many bytes a read asks for at most.
const PIECE: usize = 4096;

/// Reads what is left of the open file, which may be `limit` bytes at most. It stops at the end, at
/// the first refusal, and after one byte more than the limit, which is `TooLong`. However it ends,
/// it has taken one byte more than the limit at most, and what it did not take is left.
pub fn read_whole<F: Files>(
    alloc: Global,
    files: &mut F,
    limit: usize,
) -> Result<Vec<u8>, ReadError>
    requires { IsTrue (F.is_open files.old) }
    ensures counted { F.faults files.new ≡ count_after_reading result (F.faults files.old) }
    ensures within { IfOk result (λ bytes. vec_len bytes ≤ limit) }
    ensures whole { IfOk result (λ bytes. IsTrue F.tells → bytes.items ≡ F.left files.old) }
    ensures end { OnOk result (IsTrue F.tells → F.left files.new ≡ []) }
    ensures too_long { IsErrOf result ReadError.TooLong → IsTrue F.tells →
        length (F.left files.old) ≡ limit + 1 + length (F.left files.new) }
    ensures taken { IsTrue F.tells → GivesAtMost (limit + 1) (F.left files.old) (F.left files.new) }
    ensures stays_open { IsTrue (F.is_open files.new) }
    ensures absent { F.absent_opens files.new ≡ F.absent_opens files.old }
    ensures kept { F.content files.new ≡ F.content files.old }
{
    let mut bytes = Vec::new(alloc);
    let mut piece = [0; PIECE];
    while bytes.len() <= limit {
        let room = (limit - bytes.len()).min(PIECE - 1) + 1;
        let count = files.read(&mut piece[..room])?;
        if count == 0 {
            return Ok(bytes);
        }
        bytes.extend_from_slice(&piece[..count])?;
    }
    Err(ReadError::TooLong)
}

/// Writes all bytes, in as many pieces as the sink wants. It stops at the first refusal.
#[tactic(auto, using(crate::proofs::Fronts::front_more))]
pub fn write_whole<S: Sink>(sink: &mut S, bytes: &[u8]) -> Result<(), WriteFault>
    ensures counted { S.faults sink.new ≡ count_after result (S.faults sink.old) }
    ensures taken { OnOk result (IsTrue S.tells →
        S.taken sink.new ≡ S.taken sink.old ++ bytes.now) }
    ensures front { OnErr result (IsTrue S.tells →
        TakesFront (S.taken sink.old) (S.taken sink.new) bytes.now) }
{
    let mut done = 0;
    while done < bytes.len() {
        done += sink.write(&bytes[done..])?;
    }
    Ok(())
}
