ghost use Rattle.std.specs.Prelude.{◌≡◌, ◌⊎◌, [], Some, IsTrue, IfOk, IfErr, OnOk, IsErrOf};
ghost use Rattle.value_core.specs.Items.{Items};
ghost use Rattle.outside_core.specs.Counts.{Rose};
ghost use Rattle.c_core.specs.Run.{Stop, machine_run};
ghost use Rattle.c_runner_deeds.specs.States.{ending_of};
ghost use Rattle.c_runner.specs.Ran.{AreGiven};
ghost use Rattle.mypyc_top_status.specs.Output.{output_text};
ghost use Rattle.mypyc_top_status.specs.ErrorLines.{input_line};
ghost use Rattle.mypyc_top_status.specs.Ends.{machine_ending};
ghost use Rattle.mypyc_top_status.specs.Replies.{is_run_status};
ghost use Rattle.mypyc_top_status.specs.Sinks.{sink_call};
ghost use Rattle.mypyc_top_running.specs.Programs.{IsRunnable, IsRest, Finishes, RunGave};
ghost use Rattle.mypyc_top_running.specs.Takes.{TookBefore, RunTook};

use crate::sending::send_reply;
use crate::summary::summary_of;
use c_core::Code;
use c_runner::{Ending, Report, RunError, run};
use mypyc_top_status::{Output, ProgramEnd, Reply, Status, ending_reply, out_of_memory};
use outside_core::{Sink, Source};
use std::alloc::Global;
use value_core::Memory;

/// What is to be run: a code, for how many turns, and whether a summary follows its output.
#[derive(Drop)]
pub struct Program {
    pub code: Code,
    pub turns: u64,
    pub has_summary: bool,
}

/// What is left to send of a run, and whether the output got any byte of it.
#[derive(Drop)]
pub(crate) struct Rest {
    pub(crate) reply: Reply,
    pub(crate) has_output: bool,
}

/// Why a program's run is not finished.
#[derive(Clone, Copy)]
pub(crate) enum Unfinished {
    /// The output refused a call.
    WriteFault,
    /// There is no memory.
    Memory,
}

impl From<Memory> for Unfinished {
    ghost use Rattle.std.specs.Prelude.{◌≡◌};
    ghost use Rattle.mypyc_top_running.specs.declared.running.Unfinished.TheVariants as reasons;

    ghost from_gives = { λ _ e. e ≡ reasons.Memory };

    fn from(_refused: Memory) -> Unfinished {
        Unfinished::Memory
    }
}

/// Runs a program, sends what is left, and answers the status.
pub fn run_and_send<I: Source, O: Sink, E: Sink>(
    alloc: Global,
    program: &Program,
    input: &mut I,
    out: &mut O,
    err: &mut E,
) -> Status
    requires { IsRunnable program.now }
    ensures gave { (items : Items)
        × AreGiven I.tells (I.faults input.old) (I.faults input.new) (I.left input.old) (I.left input.new) items
        × RunGave program.now items (sink_call O.tells (O.taken out.old) (O.taken out.new))
        (sink_call E.tells (E.taken err.old) (E.taken err.new))
        (out.new ≡ out.old) (err.new ≡ err.old) result }
    ensures status { IsTrue (is_run_status result) }
    ensures reads { IsTrue I.tells → (items : Items)
        × AreGiven I.tells (I.faults input.old) (I.faults input.new) (I.left input.old) (I.left input.new) items
        × RunTook program.now items (sink_call O.tells (O.taken out.old) (O.taken out.new))
        (I.left input.old) (I.left input.new) result }
    ensures input_fault { result ≡ Status.InputFault → Rose (I.faults input.old) (I.faults input.new) }
    ensures write_fault { result ≡ Status.WriteFault →
        Rose (O.faults out.old) (O.faults out.new) ⊎ Rose (E.faults err.old) (E.faults err.new) }
{
    match run_program(alloc, program, input, out) {
        Ok(rest) => send_reply(&rest.reply, rest.has_output, out, err),
        Err(Unfinished::WriteFault) => Status::WriteFault,
        Err(Unfinished::Memory) => out_of_memory(err),
    }
}

/// Runs a program, and makes what is left to send.
fn run_program<I: Source, O: Sink>(
    alloc: Global,
    program: &Program,
    input: &mut I,
    out: &mut O,
) -> Result<Rest, Unfinished>
    requires { IsRunnable program.now }
    ensures ran { (items : Items)
        × AreGiven I.tells (I.faults input.old) (I.faults input.new) (I.left input.old) (I.left input.new) items
        × ((stop : Stop) × (machine_run program.now.turns items program.now.code ≡ Some stop)
        × Finishes program.now stop (sink_call O.tells (O.taken out.old) (O.taken out.new)) result
        × (stop.state.output ≡ [] → out.new ≡ out.old)
        × (IsTrue I.tells → TookBefore result program.now (sink_call O.tells (O.taken out.old) (O.taken out.new))
        items stop (I.left input.old) (I.left input.new))) }
    ensures input_fault { IfOk result (λ rest. rest.reply.status ≡ Status.InputFault →
        Rose (I.faults input.old) (I.faults input.new)) }
    ensures calm { OnOk result (O.faults out.new ≡ O.faults out.old) }
    ensures write_fault { IsErrOf result Unfinished.WriteFault → Rose (O.faults out.old) (O.faults out.new) }
{
    match run(alloc, &program.code, program.turns, input, out) {
        Ok(report) => rest_of(alloc, program.has_summary, &report),
        Err(RunError::InputFault { has_output }) => broken_off(alloc, has_output),
        Err(RunError::WriteFault) => Err(Unfinished::WriteFault),
        Err(RunError::Memory) => Err(Unfinished::Memory),
    }
}

/// What is left to send of a run that ended.
fn rest_of(alloc: Global, has_summary: bool, report: &Report) -> Result<Rest, Unfinished>
    ensures ok { IfOk result (λ rest. IsRest has_summary (ending_of report.now.ending) report.now.live rest.reply) }
    ensures output { IfOk result (λ rest. rest.has_output ≡ report.now.has_output) }
    ensures err { IfErr result (λ reason. reason ≡ Unfinished.Memory) }
{
    let text = if has_summary {
        summary_of(alloc, report)?
    } else {
        Vec::new(alloc)
    };
    let end = end_of(&report.ending);
    let reply = ending_reply(alloc, &end, report.live.len(), Output::Bytes(text))?;
    Ok(Rest {
        reply,
        has_output: report.has_output,
    })
}

/// What is left to send of a run that could not read its input: its line, where all of its output went before.
fn broken_off(alloc: Global, has_output: bool) -> Result<Rest, Unfinished>
    ensures ok { IfOk result (λ rest. (output_text rest.reply.out ≡ []) × (rest.reply.err.items ≡ input_line)
        × (rest.reply.status ≡ Status.InputFault)) }
    ensures output { IfOk result (λ rest. rest.has_output ≡ has_output) }
    ensures err { IfErr result (λ reason. reason ≡ Unfinished.Memory) }
{
    let reply = ending_reply(alloc, &ProgramEnd::Broken, 0, Output::Nothing)?;
    Ok(Rest { reply, has_output })
}

/// How the program of a report ended.
fn end_of(ending: &Ending) -> ProgramEnd<'_>
    ensures { machine_ending result ≡ ending_of ending.now }
{
    match ending {
        Ending::Done => ProgramEnd::Done,
        Ending::Raised(class, text) => ProgramEnd::Raised(*class, text.as_str()),
        Ending::Cut => ProgramEnd::Cut,
        Ending::Over => ProgramEnd::Over,
        Ending::Fault(fault) => ProgramEnd::Fault(*fault),
    }
}
