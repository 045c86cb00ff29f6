ghost use Rattle.std.specs.Prelude.{◌≡◌, ◌++◌, [], ◌⊎◌, false, IsTrue, IfOk, OnOk, OnErr};
ghost use Rattle.outside_core.specs.Bytes.{TakesFront};
ghost use Rattle.outside_core.specs.Counts.{Rose, count_after};
ghost use Rattle.mypyc_top_status.specs.Output.{output_text};
ghost use Rattle.mypyc_top_status.specs.Replies.{IsReplied};
ghost use Rattle.mypyc_top_status.specs.Sinks.{sink_call, Took, TookFront};
ghost use Rattle.mypyc_top_status.specs.Gave.{Gave};

use c_text::write;
use mypyc_top_status::{Output, Reply, Status, send_line, write_any};
use outside_core::{Sink, WriteFault};

/// Sends a reply to the output and the lines on errors, and answers its status. A sink that got bytes, also before, is
/// told to pass them on; one that got none is left alone. It stops at the first refusal.
pub fn send_reply<O: Sink, E: Sink>(
    reply: &Reply,
    has_output: bool,
    out: &mut O,
    err: &mut E,
) -> Status
    ensures gave { IsReplied reply.now.status → Gave
        (sink_call O.tells (O.taken out.old) (O.taken out.new))
        (sink_call E.tells (E.taken err.old) (E.taken err.new))
        (output_text reply.now.out) reply.now.err.items reply.now.status result }
    ensures out_alone { has_output ≡ false → output_text reply.now.out ≡ [] → out.new ≡ out.old }
    ensures err_alone { reply.now.err.items ≡ [] → err.new ≡ err.old }
    ensures status { (result ≡ reply.now.status) ⊎ (result ≡ Status.WriteFault) }
    ensures write_fault { IsReplied reply.now.status → result ≡ Status.WriteFault →
        Rose (O.faults out.old) (O.faults out.new) ⊎ Rose (E.faults err.old) (E.faults err.new) }
{
    match send_both(reply, has_output, out, err) {
        Ok(()) => reply.status,
        Err(WriteFault) => Status::WriteFault,
    }
}

fn send_both<O: Sink, E: Sink>(
    reply: &Reply,
    has_output: bool,
    out: &mut O,
    err: &mut E,
) -> Result<(), WriteFault>
    ensures out { OnOk result (Took
        (sink_call O.tells (O.taken out.old) (O.taken out.new)) (output_text reply.now.out)) }
    ensures err { OnOk result (Took
        (sink_call E.tells (E.taken err.old) (E.taken err.new)) reply.now.err.items) }
    ensures out_front { OnErr result (TookFront
        (sink_call O.tells (O.taken out.old) (O.taken out.new)) (output_text reply.now.out)) }
    ensures err_front { OnErr result (TookFront
        (sink_call E.tells (E.taken err.old) (E.taken err.new)) reply.now.err.items) }
    ensures out_alone { has_output ≡ false → output_text reply.now.out ≡ [] → out.new ≡ out.old }
    ensures err_alone { reply.now.err.items ≡ [] → err.new ≡ err.old }
    ensures refused { OnErr result
        (Rose (O.faults out.old) (O.faults out.new) ⊎ Rose (E.faults err.old) (E.faults err.new)) }
{
    send_output(out, &reply.out, has_output)?;
    send_line(err, &reply.err)
}

/// Sends what goes to an output, which may have got bytes before.
fn send_output<O: Sink>(sink: &mut O, output: &Output, has_output: bool) -> Result<(), WriteFault>
    ensures ok { OnOk result (IsTrue O.tells →
        O.taken sink.new ≡ O.taken sink.old ++ output_text output.now) }
    ensures err { OnErr result (IsTrue O.tells →
        TakesFront (O.taken sink.old) (O.taken sink.new) (output_text output.now)) }
    ensures alone { has_output ≡ false → output_text output.now ≡ [] → sink.new ≡ sink.old }
    ensures refused { OnErr result (Rose (O.faults sink.old) (O.faults sink.new)) }
{
    let any = write_output(sink, output)?;
    if any || has_output {
        sink.flush()?;
    }
    Ok(())
}

/// Writes what goes to an output, and says whether there was anything.
fn write_output<O: Sink>(sink: &mut O, output: &Output) -> Result<bool, WriteFault>
    ensures ok { OnOk result (IsTrue O.tells →
        O.taken sink.new ≡ O.taken sink.old ++ output_text output.now) }
    ensures err { OnErr result (IsTrue O.tells →
        TakesFront (O.taken sink.old) (O.taken sink.new) (output_text output.now)) }
    ensures any { IfOk result (λ any. output_text output.now ≡ [] → any ≡ false) }
    ensures alone { output_text output.now ≡ [] → sink.new ≡ sink.old }
    ensures counted { O.faults sink.new ≡ count_after result (O.faults sink.old) }
{
    match output {
        Output::Nothing => Ok(false),
        Output::Bytes(bytes) => write_any(sink, bytes),
        Output::Text(code) => {
            write(code, sink)?;
            Ok(true)
        }
    }
}
