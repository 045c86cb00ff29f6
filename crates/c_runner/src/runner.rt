ghost use Rattle.std.specs.Prelude.{◌≡◌, ◌<◌, ◌≤◌, ◌++◌, Bool, [], Some, IsTrue, IsErrOf, OnOk, OnErr};
ghost use Rattle.outside_core.specs.Bytes.{TakesFront};
ghost use Rattle.outside_core.specs.Counts.{Rose, count_after};
ghost use Rattle.value_core.specs.Items.{Items};
ghost use Rattle.c_core.specs.Run.{Stop, machine_run, most_turns, most_steps, most_lines};
ghost use Rattle.c_core.specs.WellFormed.{WellFormed};
ghost use Rattle.c_runner_deeds.specs.Handing.{HandsOn};
ghost use Rattle.c_runner_deeds.specs.States.{seen};
ghost use Rattle.c_runner.specs.Ran.{AreGiven, Ran, Took, faults_of_out};

use crate::lines::do_lines;
use crate::live::report_of;
use crate::reading::advance;
use crate::report::{Report, RunError};
use crate::start::start;
use c_core::{CFunc, Code, run_exists, run_keeps_counts, run_stays_small};
use c_runner_deeds::State;
use c_runner_lines::LineReader;
use c_runner_table::table;
use outside_core::{Sink, Source, WriteFault};
use std::alloc::Global;

/// So many steps are made at once at most.
const MOST_AT_ONCE: usize = 65_536;

/// Runs a well-formed code for so many turns, on the lines of the input. What the program writes goes to `out`,
/// whenever 65536 bytes have come together, before each read of the input, and what is left before the answer; where it writes nothing, nothing
/// happens to `out`. It is never told to pass on what it got: the answer says whether there was any. The input is read only for a line that is
/// asked for. In all no more than one byte more is taken of it than may be used; where no read fails and no line stands too far along, at most
/// 4095 bytes are taken behind the lines that were used, and none where no line was used. No line is used behind a call that `out` refused.
pub fn run<I: Source, O: Sink>(
    alloc: Global,
    code: &Code,
    turns: u64,
    input: &mut I,
    out: &mut O,
) -> Result<Report, RunError>
    requires well_formed { WellFormed code.now }
    requires turns { turns ≤ most_turns }
    ensures ran { (items : Items)
        × AreGiven I.tells (I.faults input.old) (I.faults input.new) (I.left input.old) (I.left input.new) items
        × ((stop : Stop) × (machine_run turns items code.now ≡ Some stop)
        × Ran code.now stop O.tells (O.taken out.old) (O.taken out.new) result
        × (stop.state.output ≡ [] → out.new ≡ out.old)
        × (IsTrue I.tells → Took code.now turns O.tells (O.taken out.old) (O.taken out.new) result
        items stop (I.left input.old) (I.left input.new))) }
    ensures input_fault { (has_output : Bool) → IsErrOf result (RunError.InputFault has_output) → Rose (I.faults input.old) (I.faults input.new) }
    ensures out_faults { O.faults out.new ≡ faults_of_out result (O.faults out.old) }
{
    run_exists();
    run_keeps_counts();
    run_stays_small();
    let table = table(alloc, code)?;
    let mut state = start(alloc, code, turns)?;
    // A well-formed code stops before these steps are taken.
    let mut left = most_steps(code, turns);
    let mut has_output = false;
    let mut reader = LineReader::new(alloc);
    'steps: loop {
        let done = do_lines(&mut state, code, &table, some_steps(left));
        left -= done as u128;
        left -= 1;
        let ending = match advance(alloc, code, &table, &mut state, &mut reader, input, out) {
            Ok(ending) => ending,
            Err(refusal) => return Err(refusal.after(has_output)),
        };
        has_output = state.output.has_any(has_output);
        match ending {
            None => hand_on_if_full(&mut state, out)?,
            Some(ending) => {
                hand_on(&mut state, out)?;
                return Ok(report_of(&state, alloc, code, ending, has_output)?);
            }
        }
    }
}

/// Hands on what is held of the output, where there is enough of it.
fn hand_on_if_full<O: Sink>(state: &mut State, out: &mut O) -> Result<(), WriteFault>
    ensures counted { O.faults out.new ≡ count_after result (O.faults out.old) }
    ensures taken { OnOk result
        (HandsOn O.tells (O.taken out.old) (O.taken out.new) state.old.output state.new.output (out.new ≡ out.old)) }
    ensures front { OnErr result (IsTrue O.tells →
        TakesFront (O.taken out.old) (O.taken out.new) state.old.output) }
    ensures alone { state.old.output ≡ [] → out.new ≡ out.old }
    ensures others { seen state.new ≡ record (seen state.old) { output = state.new.output } }
{
    state.output.hand_on_if_full(out)
}

/// Hands on all that is held of the output.
fn hand_on<O: Sink>(state: &mut State, out: &mut O) -> Result<(), WriteFault>
    ensures counted { O.faults out.new ≡ count_after result (O.faults out.old) }
    ensures taken { OnOk result (IsTrue O.tells →
        O.taken out.new ≡ O.taken out.old ++ state.old.output) }
    ensures front { OnErr result (IsTrue O.tells →
        TakesFront (O.taken out.old) (O.taken out.new) state.old.output) }
    ensures alone { state.old.output ≡ [] → out.new ≡ out.old }
    ensures others { seen state.new ≡ record (seen state.old) { output = state.new.output } }
{
    state.output.hand_on(out)
}

/// How many steps are made at once at most, where so many are left: fewer.
fn some_steps(left: u128) -> usize
    requires { 1 ≤ left }
    ensures { result < left }
{
    if left > MOST_AT_ONCE as u128 {
        MOST_AT_ONCE
    } else {
        (left - 1) as usize
    }
}

/// More steps than a run for so many turns can take.
fn most_steps(code: &Code, turns: u64) -> u128
    requires { turns ≤ most_turns }
    ensures { result ≡ most_steps turns code.now }
{
    (turns as u128 + 2) * most_lines(code.funcs.as_slice()) as u128
}

/// How many lines the longest function has.
fn most_lines(functions: &[CFunc]) -> usize
    ensures { result ≡ most_lines functions.now }
{
    let mut most = 0;
    for function in functions {
        most = function.lines.len().max(most);
    }
    most
}
