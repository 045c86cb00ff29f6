//! One step of a run, with the tests in the machine's order. At a fault the state is as it was before the line.
ghost use Rattle.std.specs.Prelude.{◌≡◌, ◌+◌, ◌^◌, ◌<◌, true, Some, slice_get, IfOk};
ghost use Rattle.std.specs.Option.{option_and_then};
ghost use Rattle.c_core.specs.declared.fault.Fault.TheVariants as fault;
ghost use Rattle.c_core.specs.Functions.{label_places};
ghost use Rattle.c_core.specs.Step.{Goes, literal_word, with_var, next_line, if_calm, if_some, if_there, word_of, jumped, chosen, turned, step, step_at};
ghost use Rattle.c_runner.specs.Parts.{callee_called, plain_step, jumped_by_error};
ghost use Rattle.c_runner_deeds.specs.Parts.{is_there};
ghost use Rattle.c_runner_deeds.specs.States.{Follows, IsSmall, seen};
ghost use Rattle.c_runner_table.specs.Targets.{named_of, target_of, methods_of, table_of};
ghost use Rattle.c_runner.specs.Waiting.{Steps};

use crate::calls::call_primitive;
use crate::counts::{decrement, decrement_if_set, increment};
use crate::frames::{enter, leave};
use crate::methods::{call_own_method, call_trait_method};
use crate::pause::Pause;
use c_core::{CArg, CFunc, CLit, Code, Fault, Kind, Line};
use c_runner_deeds::{Ending, State, equals_error, kind_of, of_literal};
use c_runner_table::{Callee, Methods, Named, Tables, Target, target_at};
use cell_heap::Word;
use std::alloc::Global;
use value_core::{Many, Memory};

/// What the next line does, and how the run ends if it ends there. The table tells what the lines of the code name.
/// Where a line of input is asked for nothing is done. Without memory the state is not said.
pub(crate) fn step(
    state: &mut State,
    alloc: Global,
    code: &Code,
    table: &Tables,
) -> Result<Option<Ending>, Pause>
    requires table { table.now ≡ table_of code.now }
    requires small { IsSmall (seen state.old) }
    ensures { Steps (step code.now) result (seen state.old) (seen state.new) }
{
    let Some(function) = code.funcs.get(state.top.func) else {
        return Ok(Some(Ending::Fault(Fault::Kind)));
    };
    let lines = function.lines.as_slice();
    let Some(line) = lines.get(state.top.place) else {
        return Ok(Some(Ending::Fault(Fault::Kind)));
    };
    let target = target_at(&table.lines, state.top.func, state.top.place);
    line_step(state, alloc, code, &table.classes, function, line, target)
}

/// What a line of a function does. The functions of the classes are known.
fn line_step(
    state: &mut State,
    alloc: Global,
    code: &Code,
    classes: &Many<Methods>,
    function: &CFunc,
    line: &Line,
    target: Target,
) -> Result<Option<Ending>, Pause>
    requires small { IsSmall (seen state.old) }
    requires place { state.old.top.place + 1 < 2 ^ 64 }
    requires classes { classes.now ≡ methods_of code.now }
    requires function { slice_get code.now.funcs state.old.top.func ≡ Some function.now }
    requires target { target ≡ target_of code.now (label_places function.now.lines) line.now }
    ensures { Steps (λ s. step_at true code.now s (Some line.now)) result (seen state.old) (seen state.new) }
{
    match line {
        Line::Call(x, _, args) => match target.callee {
            None => Ok(Some(Ending::Fault(Fault::Kind))),
            Some(callee) => call(
                state,
                alloc,
                code,
                callee,
                target.named,
                *x,
                args.as_slice(),
            ),
        },
        Line::Virtual(x, object, number, args) => Ok(call_own_method(
            state,
            alloc,
            code,
            classes,
            *x,
            *object,
            *number,
            args.as_slice(),
        )?),
        Line::TraitCall(x, object, name, number, args) => Ok(call_trait_method(
            state,
            alloc,
            code,
            classes,
            *x,
            *object,
            name.as_str(),
            *number,
            args.as_slice(),
        )?),
        _ => Ok(plain_line(state, code, function, line, target)?),
    }
}

/// What a line of a function does that calls nothing.
fn plain_line(
    state: &mut State,
    code: &Code,
    function: &CFunc,
    line: &Line,
    target: Target,
) -> Result<Option<Ending>, Memory>
    requires small { IsSmall (seen state.old) }
    requires place { state.old.top.place + 1 < 2 ^ 64 }
    requires function { slice_get code.now.funcs state.old.top.func ≡ Some function.now }
    requires target { target ≡ target_of code.now (label_places function.now.lines) line.now }
    ensures { IfOk result (λ ending. Follows (λ s. plain_step code.now s line.now) ending (seen state.old) (seen state.new)) }
{
    match line {
        Line::Label => Ok(go_on(state)),
        Line::Move(x, y) => Ok(copy(state, *x, *y)),
        Line::Lit(x, literal) => Ok(assign(state, kind_of(function, *x), *x, *literal)),
        Line::Call(_, _, _) | Line::Virtual(_, _, _, _) | Line::TraitCall(_, _, _, _, _) => {
            Ok(Some(Ending::Fault(Fault::Kind)))
        }
        Line::Goto(_) => Ok(jump(state, target.first)),
        Line::If(x, _, _) => Ok(choose(state, *x, target.first, target.second)),
        Line::IfError(x, _, _) => Ok(choose_by_error(state, *x, target.first, target.second)),
        Line::Turn => Ok(spend_turn(state)),
        Line::Return(x) => leave(state, *x),
        Line::Inc(x) => increment(state, *x),
        Line::Dec(x) => Ok(decrement(state, *x)),
        Line::XDec(x) => Ok(decrement_if_set(state, *x)),
    }
}

/// Calls a primitive, whose first argument may name a global or a class, or a function.
fn call(
    state: &mut State,
    alloc: Global,
    code: &Code,
    callee: Callee,
    named: Named,
    target: Option<usize>,
    args: &[CArg],
) -> Result<Option<Ending>, Pause>
    requires small { IsSmall (seen state.old) }
    requires place { state.old.top.place + 1 < 2 ^ 64 }
    requires named { named ≡ named_of code.now args.now }
    ensures { Steps (callee_called code.now target args.now callee) result (seen state.old) (seen state.new) }
{
    match callee {
        Callee::Primitive(primitive) => {
            call_primitive(state, alloc, code, primitive, named, target, args)
        }
        Callee::Function(func) => Ok(enter(state, alloc, code, func, target, args)?),
    }
}

/// Goes on to the next line.
fn go_on(state: &mut State) -> Option<Ending>
    requires { state.old.top.place + 1 < 2 ^ 64 }
    ensures { Follows (λ s. Goes (next_line s)) result (seen state.old) (seen state.new) }
{
    state.top.place += 1;
    None
}

/// Writes the word of a variable to another one. A cell that it refers to is to be there.
fn copy(state: &mut State, x: usize, y: usize) -> Option<Ending>
    requires { state.old.top.place + 1 < 2 ^ 64 }
    ensures { Follows (λ s. word_of true s y (λ w. if_there true s w (λ a. Goes (next_line (with_var x w s)))))
        result (seen state.old) (seen state.new) }
{
    let Some(word) = state.top.vars.get(y) else {
        return Some(Ending::Fault(Fault::Kind));
    };
    let word = *word;
    if !state.is_there(word) {
        return Some(Ending::Fault(Fault::Dead));
    }
    state.top.set(x, word);
    state.top.place += 1;
    None
}

/// Writes a literal to a variable of this kind.
fn assign(state: &mut State, kind: Option<Kind>, x: usize, literal: CLit) -> Option<Ending>
    requires { state.old.top.place + 1 < 2 ^ 64 }
    ensures { Follows (λ s. if_some true s fault.Kind
        (option_and_then (λ k. literal_word k literal) kind)
        (λ w. Goes (next_line (with_var x w s)))) result (seen state.old) (seen state.new) }
{
    match kind {
        None => Some(Ending::Fault(Fault::Kind)),
        Some(kind) => match of_literal(kind, literal) {
            None => Some(Ending::Fault(Fault::Kind)),
            Some(word) => {
                state.top.set(x, word);
                state.top.place += 1;
                None
            }
        },
    }
}

/// Goes on at the place of a label, if the label is there.
fn jump(state: &mut State, place: Option<usize>) -> Option<Ending>
    ensures { Follows (λ s. jumped true s place) result (seen state.old) (seen state.new) }
{
    match place {
        None => Some(Ending::Fault(Fault::Kind)),
        Some(place) => {
            state.top.place = place;
            None
        }
    }
}

/// Goes on at the first place where a variable is 1, and at the second one where it is 0.
fn choose(
    state: &mut State,
    x: usize,
    first: Option<usize>,
    second: Option<usize>,
) -> Option<Ending>
    ensures { Follows (λ s. word_of true s x (chosen true s first second)) result (seen state.old) (seen state.new) }
{
    let Some(word) = state.top.vars.get(x) else {
        return Some(Ending::Fault(Fault::Kind));
    };
    match *word {
        Word::Char(0) => jump(state, second),
        Word::Char(1) => jump(state, first),
        _ => Some(Ending::Fault(Fault::Kind)),
    }
}

/// Goes on at the first place where a variable equals the error value of its kind, and else at the second one.
fn choose_by_error(
    state: &mut State,
    x: usize,
    first: Option<usize>,
    second: Option<usize>,
) -> Option<Ending>
    ensures { Follows (λ s. word_of true s x (jumped_by_error s first second)) result (seen state.old) (seen state.new) }
{
    let Some(word) = state.top.vars.get(x) else {
        return Some(Ending::Fault(Fault::Kind));
    };
    if equals_error(*word) {
        jump(state, first)
    } else {
        jump(state, second)
    }
}

/// Spends a turn, where no exception is pending. Without one the run is cut.
fn spend_turn(state: &mut State) -> Option<Ending>
    requires { state.old.top.place + 1 < 2 ^ 64 }
    ensures { Follows (λ s. if_calm true s s.pending (turned true s s.turns)) result (seen state.old) (seen state.new) }
{
    if state.pending.is_some() {
        return Some(Ending::Fault(Fault::Kind));
    }
    if state.turns == 0 {
        return Some(Ending::Cut);
    }
    state.turns -= 1;
    state.top.place += 1;
    None
}
