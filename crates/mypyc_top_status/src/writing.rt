//! Bytes and lines that are sent as they are.
ghost use Rattle.std.specs.Prelude.{◌≡◌, ◌++◌, [], false, IsTrue, IfOk, OnOk, OnErr};
ghost use Rattle.outside_core.specs.Bytes.{TakesFront};
ghost use Rattle.outside_core.specs.Counts.{Rose, count_after};
ghost use Rattle.mypyc_top_status.specs.ErrorLines.{memory_line};
ghost use Rattle.mypyc_top_status.specs.Sinks.{sink_call, TookFront};

use crate::status::Status;
use outside_core::{Sink, WriteFault, write_whole};

/// Tries to say that there is no memory, and answers so.
pub fn out_of_memory<E: Sink>(err: &mut E) -> Status
    ensures status { result ≡ Status.Memory }
    ensures front { TookFront (sink_call E.tells (E.taken err.old) (E.taken err.new)) memory_line }
{
    let _ = write_whole(err, b"mypyc: out of memory\n");
    Status::Memory
}

/// Writes bytes, and says whether there were any. Where there are none, the sink is left alone.
pub fn write_any<S: Sink>(sink: &mut S, bytes: &[u8]) -> Result<bool, WriteFault>
    ensures ok { OnOk result (IsTrue S.tells → S.taken sink.new ≡ S.taken sink.old ++ bytes.now) }
    ensures err { OnErr result (IsTrue S.tells → TakesFront (S.taken sink.old) (S.taken sink.new) bytes.now) }
    ensures any { IfOk result (λ any. bytes.now ≡ [] → any ≡ false) }
    ensures alone { bytes.now ≡ [] → sink.new ≡ sink.old }
    ensures counted { S.faults sink.new ≡ count_after result (S.faults sink.old) }
{
    if bytes.is_empty() {
        return Ok(false);
    }
    write_whole(sink, bytes)?;
    Ok(true)
}

/// Sends a line. Where there is none, the sink is left alone.
pub fn send_line<S: Sink>(sink: &mut S, line: &[u8]) -> Result<(), WriteFault>
    ensures ok { OnOk result (IsTrue S.tells → S.taken sink.new ≡ S.taken sink.old ++ line.now) }
    ensures err { OnErr result (IsTrue S.tells → TakesFront (S.taken sink.old) (S.taken sink.new) line.now) }
    ensures alone { line.now ≡ [] → sink.new ≡ sink.old }
    ensures refused { OnErr result (Rose (S.faults sink.old) (S.faults sink.new)) }
{
    if write_any(sink, line)? {
        sink.flush()?;
    }
    Ok(())
}
