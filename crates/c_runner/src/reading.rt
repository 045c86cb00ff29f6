//! Steps of a run that may read a line of the input first.
ghost use Rattle.std.specs.Prelude.{◌≡◌};
ghost use Rattle.c_core.specs.Step.{step};
ghost use Rattle.c_runner.specs.Advancing.{Fetches, Advances, faults_of_input, faults_of_output};
ghost use Rattle.c_runner_deeds.specs.States.{IsSmall, seen};
ghost use Rattle.c_runner_table.specs.Targets.{table_of};

use crate::input::receive;
use crate::pause::Pause;
use crate::refusal::Refusal;
use crate::step::step;
use c_core::Code;
use c_runner_deeds::{Ending, Output, State};
use c_runner_lines::{Item, LineReader};
use c_runner_table::Tables;
use outside_core::{Sink, Source};
use std::alloc::Global;

/// Makes the next step, and reads a line of the input where it asks for one.
pub(crate) fn advance<I: Source, O: Sink>(
    alloc: Global,
    code: &Code,
    table: &Tables,
    state: &mut State,
    reader: &mut LineReader,
    input: &mut I,
    out: &mut O,
) -> Result<Option<Ending>, Refusal>
    requires table { table.now ≡ table_of code.now }
    requires small { IsSmall (seen state.old) }
    ensures advances { Advances (step code.now) (seen state.old) (seen state.new) reader.old reader.new
        O.tells (O.taken out.old) (O.taken out.new) (out.new ≡ out.old)
        I.tells (I.left input.old) (I.left input.new) result }
    ensures counted { I.faults input.new ≡ faults_of_input result (I.faults input.old) }
    ensures out_counted { O.faults out.new ≡ faults_of_output result (O.faults out.old) }
{
    match step(state, alloc, code, table) {
        Ok(ending) => Ok(ending),
        Err(Pause::Memory) => Err(Refusal::Memory),
        Err(Pause::Waits(target)) => {
            let item = next_item(reader, &mut state.output, input, out)?;
            Ok(receive(state, alloc, target, item)?)
        }
    }
}

/// The next line of the input. What is held of the output is handed on before a read.
fn next_item<I: Source, O: Sink>(
    reader: &mut LineReader,
    output: &mut Output,
    input: &mut I,
    out: &mut O,
) -> Result<Item, Refusal>
    ensures fetches { Fetches reader.old reader.new output.old output.new
        O.tells (O.taken out.old) (O.taken out.new) (out.new ≡ out.old)
        I.tells (I.left input.old) (I.left input.new) result }
    ensures counted { I.faults input.new ≡ faults_of_input result (I.faults input.old) }
    ensures out_counted { O.faults out.new ≡ faults_of_output result (O.faults out.old) }
{
    let will_read = !reader.is_ready();
    output.hand_on_if(will_read, out)?;
    Ok(reader.next(input)?)
}
