//! Calls that read a line of input. The line is read outside of a step: the call asks for it, and goes on when it is there.
ghost use Rattle.std.specs.Prelude.{◌≡◌, ◌+◌, ◌^◌, ◌<◌, true, IfOk, codes};
ghost use Rattle.c_core.specs.declared.code.Code as machine_code;
ghost use Rattle.c_core.specs.declared.primitive.Primitive.TheVariants as prim;
ghost use Rattle.c_core.specs.declared.primitive.IoPrim.TheVariants as io;
ghost use Rattle.c_core.specs.Step.{primitive_step};
ghost use Rattle.c_runner_deeds.specs.States.{IsSmall, seen};
ghost use Rattle.c_runner.specs.Waiting.{Steps, Receives};

use crate::pause::Pause;
use c_core::{CArg, Fault};
use c_runner_deeds::{Ending, State};
use c_runner_lines::Item;
use cell_heap::{Content, Letters, Word};
use std::alloc::Global;
use value_core::{ExcClass, Memory, Text};

/// Asks for a line of input, where the call has no argument.
pub(crate) fn ask_for_line(
    state: &State,
    target: Option<usize>,
    args: &[CArg],
) -> Result<Option<Ending>, Pause>
    requires place { state.now.top.place + 1 < 2 ^ 64 }
    ensures { (code : machine_code.Code) → Steps
        (λ s. primitive_step true s code target args.now (prim.Io io.Input)) result (seen state.now) (seen state.now) }
{
    if args.is_empty() {
        Err(Pause::Waits(target))
    } else {
        Ok(Some(Ending::Fault(Fault::Kind)))
    }
}

/// Goes on behind a call that asked for a line, with what was found of it.
pub(crate) fn receive(
    state: &mut State,
    alloc: Global,
    target: Option<usize>,
    item: Item,
) -> Result<Option<Ending>, Memory>
    requires small { IsSmall (seen state.old) }
    requires place { state.old.top.place + 1 < 2 ^ 64 }
    ensures { IfOk result (λ ending. Receives target item ending (seen state.old) (seen state.new)) }
{
    match item {
        Item::Line(text) => state.make_cell(target, Content::Str(Letters::of(text))),
        Item::Bad => {
            let text = no_text(alloc)?;
            state.fail(target, Word::Null, ExcClass::ValueError, text)
        }
        Item::Eof => {
            let text = no_line(alloc)?;
            state.fail(target, Word::Null, ExcClass::EOFError, text)
        }
        Item::Over => Ok(Some(Ending::Over)),
    }
}

/// What the exception of a line says that is not UTF-8.
fn no_text(alloc: Global) -> Result<Text, Memory>
    ensures { IfOk result (λ text. text ≡ codes "input is not UTF-8") }
{
    Text::from_str(alloc, "input is not UTF-8")
}

/// What the exception at the end of the input says.
fn no_line(alloc: Global) -> Result<Text, Memory>
    ensures { IfOk result (λ text. text ≡ codes "EOF when reading a line") }
{
    Text::from_str(alloc, "EOF when reading a line")
}
