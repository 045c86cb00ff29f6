//! Calls of functions, and returns from them. The frames that wait stand in a list, the innermost last.
ghost use Rattle.std.specs.Prelude.{◌≡◌, ◌≢◌, ◌+◌, ◌^◌, ◌<◌, true, cond, List, [], Some, None, map, take, drop, IfOk, OnOk};
ghost use Rattle.c_core.specs.declared.fault.Fault.TheVariants as fault;
ghost use Rattle.c_core.specs.Functions.{entry_words};
ghost use Rattle.c_core.specs.Machine as machine;
ghost use Rattle.c_core.specs.Step as machine_step;
ghost use Rattle.c_core.specs.Step.{Next, function_called, entered, returned, if_passed, if_in_order, if_result, if_none_left, Ends, Faulted};
ghost use Rattle.c_runner.specs.Parts.{unless_fault, waits_for, handed_back};
ghost use Rattle.c_runner_deeds.specs.States.{Rest, Follows, IsSmall, state_of, seen};
ghost use Rattle.c_runner_deeds.specs.Ours.{IsOurWord};
ghost use Rattle.cell_heap.specs.Contents.{name_of, number_of, word_of, words_refs};
ghost use Rattle.cell_heap.specs.Ours.{IsOurs, AreOurs};

use crate::start::push_error_values;
use c_core::{CArg, CFunc, Code, Fault, Kind};
use c_runner_deeds::{Ending, Frame, State, equals_error, is_error, number_of};
use c_runner_ledger::Ledger;
use cell_heap::{Content, Key, Word};
use std::alloc::Global;
use std::mem;
use value_core::{Many, Memory, Name};

/// Calls the function of a number, where no exception is pending. What it is passed stays with the caller, who waits at the line behind the call.
pub(crate) fn enter(
    state: &mut State,
    alloc: Global,
    code: &Code,
    func: usize,
    target: Option<usize>,
    args: &[CArg],
) -> Result<Option<Ending>, Memory>
    requires { state.old.top.place + 1 < 2 ^ 64 }
    ensures { IfOk result (λ ending. Follows
        (λ s. function_called true s code.now target args.now (Some func)) ending (seen state.old) (seen state.new)) }
{
    if state.pending.is_some() {
        return Ok(Some(Ending::Fault(Fault::Kind)));
    }
    let Some(function) = code.funcs.get(func) else {
        return Ok(Some(Ending::Fault(Fault::Kind)));
    };
    let mut vars = room_for_vars(alloc, function)?;
    match pass(state, parameters(function), args, &mut vars)? {
        Some(fault) => Ok(Some(Ending::Fault(fault))),
        None => {
            begin(state, alloc, func, function, target, vars)?;
            Ok(None)
        }
    }
}

/// No words yet, with memory for all variables of a function.
pub(crate) fn room_for_vars(alloc: Global, function: &CFunc) -> Result<Many<Word>, Memory>
    ensures { IfOk result (λ vars. vars ≡ []) }
{
    let vars = Vec::with_capacity(alloc, function.vars.len())?;
    Ok(Many::from_vec(vars))
}

/// Lets a function begin with what it is passed. The frame that ran waits for it at the line behind the call.
pub(crate) fn begin(
    state: &mut State,
    alloc: Global,
    func: usize,
    function: &CFunc,
    target: Option<usize>,
    mut vars: Many<Word>,
) -> Result<(), Memory>
    requires place { state.old.top.place + 1 < 2 ^ 64 }
    requires ours { AreOurs state.old.cells (words_refs vars) }
    ensures { OnOk result ((rest : Rest) →
        state_of rest (seen state.new) ≡ entered true (state_of rest (seen state.old)) target func (entry_words (map word_of vars) function.now)) }
{
    push_error_values(&mut vars, other_vars(function))?;
    wait_for(
        state,
        Frame {
            func,
            place: 0,
            vars,
            ledger: Ledger::new(alloc),
            into: target,
        },
    )
}

/// Lets a frame run, for which the one that ran waits at its next line.
fn wait_for(state: &mut State, callee: Frame) -> Result<(), Memory>
    requires place { state.old.top.place + 1 < 2 ^ 64 }
    requires ours { AreOurs state.old.cells (words_refs callee.vars) }
    ensures { OnOk result ((rest : Rest) → state_of rest (seen state.new) ≡ waits_for callee (state_of rest (seen state.old))) }
{
    state.top.place += 1;
    let caller = mem::replace(&mut state.top, callee);
    state.below.push(caller)?;
    Ok(())
}

/// Adds a word for each parameter, and answers the fault of the first argument that may not be passed.
fn pass(
    state: &State,
    parameters: &[(Name, Kind)],
    args: &[CArg],
    words: &mut Many<Word>,
) -> Result<Option<Fault>, Memory>
    requires { words.old ≡ [] }
    ensures passed { IfOk result (λ fault. (rest : Rest) (go : List machine.Word → Next) →
        if_passed true (state_of rest (seen state.now)) (map (λ v. v.1) parameters.now) args.now go
        ≡ unless_fault fault (state_of rest (seen state.now)) (go (map word_of words.new))) }
    ensures ours { IfOk result (λ _. AreOurs state.now.cells (words_refs words.new)) }
{
    for (i, parameter) in parameters.iter().enumerate() {
        let Some(argument) = args.get(i) else {
            return Ok(Some(Fault::Kind));
        };
        match state.passed(parameter.1, argument) {
            Err(fault) => return Ok(Some(fault)),
            Ok(word) => words.push(word)?,
        }
    }
    if args.len() > parameters.len() {
        return Ok(Some(Fault::Kind));
    }
    Ok(None)
}

/// Returns the word of a variable: to the frame that waits, or from the module, which ends.
pub(crate) fn leave(state: &mut State, x: usize) -> Result<Option<Ending>, Memory>
    requires { IsSmall (seen state.old) }
    ensures { IfOk result (λ ending. Follows
        (λ s. machine_step.word_of true s x (returned true s)) ending (seen state.old) (seen state.new)) }
{
    let Some(word) = state.top.vars.get(x) else {
        return Ok(Some(Ending::Fault(Fault::Kind)));
    };
    let word = *word;
    if state.below.is_empty() {
        return Ok(Some(end(state, word)?));
    }
    match return_fault(state, word) {
        Some(fault) => Ok(Some(Ending::Fault(fault))),
        None => {
            hand_back(state, word)?;
            Ok(None)
        }
    }
}

/// How the module ends that returns a word.
fn end(state: &State, word: Word) -> Result<Ending, Memory>
    requires { state.now.below ≡ [] }
    ensures { IfOk result (λ ending. Follows (λ s. returned true s (word_of word)) (Some ending) (seen state.now) (seen state.now)) }
{
    match state.pending {
        None => Ok(end_calmly(state, word)),
        Some(key) => match word {
            Word::Char(2) => end_raised(state, key),
            _ => Ok(Ending::Fault(Fault::Kind)),
        },
    }
}

/// How the module ends that returns 2 while the exception in a cell is pending.
fn end_raised(state: &State, key: Key) -> Result<Ending, Memory>
    requires below { state.now.below ≡ [] }
    requires pending { state.now.pending ≡ Some key }
    ensures { IfOk result (λ ending. Follows (λ s. returned true s (machine.CharWord 2)) (Some ending) (seen state.now) (seen state.now)) }
{
    let Ok(content) = state.cells.content(key) else {
        return Ok(Ending::Fault(Fault::Dead));
    };
    let Content::Exc(class, text) = content else {
        return Ok(Ending::Fault(Fault::Kind));
    };
    if state.top.ledger.is_empty() {
        Ok(Ending::Raised(*class, text.clone()?))
    } else {
        Ok(Ending::Fault(Fault::Leak))
    }
}

/// How the module ends that returns a word while no exception is pending.
fn end_calmly(state: &State, word: Word) -> Ending
    requires below { state.now.below ≡ [] }
    requires pending { state.now.pending ≡ None }
    ensures { Follows (λ s. returned true s (word_of word)) (Some result) (seen state.now) (seen state.now) }
{
    match word {
        Word::Char(1) => {
            if state.top.ledger.is_empty() {
                Ending::Done
            } else {
                Ending::Fault(Fault::Leak)
            }
        }
        _ => Ending::Fault(Fault::Kind),
    }
}

/// Why a frame may not return a word: it is an error value and no exception is pending, or the other way round, its cell
/// is gone or not owned, or something else is owned.
fn return_fault(state: &State, word: Word) -> Option<Fault>
    requires { IsOurWord state.now.cells word }
    ensures { (rest : Rest) (next : Next) →
        (let s = state_of rest (seen state.now) in
        if_in_order true s (word_of word) s.pending (if_result true s (word_of word) (λ l. if_none_left true s l next))
        ≡ unless_fault result s next) }
{
    if !is_in_order(state, word) {
        return Some(Fault::Kind);
    }
    match word {
        Word::Big(key) | Word::Cell(key) => cell_fault(state, key),
        _ => {
            if state.top.ledger.is_empty() {
                None
            } else {
                Some(Fault::Leak)
            }
        }
    }
}

/// Whether a word may be returned now: an error value with a pending exception, any other with none, -113 with either.
fn is_in_order(state: &State, word: Word) -> bool
    ensures { (rest : Rest) (next : Next) →
        (let s = state_of rest (seen state.now) in
        if_in_order true s (word_of word) s.pending next ≡ cond result next (Ends (Faulted fault.Kind) s)) }
{
    match state.pending {
        None => !is_error(word),
        Some(_) => equals_error(word),
    }
}

/// Why a frame may not return the reference to a cell.
fn cell_fault(state: &State, key: Key) -> Option<Fault>
    requires { IsOurs state.now.cells (name_of key) }
    ensures { (rest : Rest) (next : Next) →
        (let s = state_of rest (seen state.now) in
        if_result true s (machine.ObjectCell (number_of key)) (λ l. if_none_left true s l next)
        ≡ unless_fault result s next) }
{
    if !state.is_live(key) {
        Some(Fault::Dead)
    } else if !state.top.ledger.owns(number_of(key)) {
        Some(Fault::NotOwned)
    } else if !state.top.ledger.owns_only(number_of(key)) {
        Some(Fault::Leak)
    } else {
        None
    }
}

/// Lets the frame that waits go on. It has the word in the variable that it asked for, and owns its reference.
fn hand_back(state: &mut State, word: Word) -> Result<(), Memory>
    requires small { IsSmall (seen state.old) }
    requires waits { state.old.below ≢ [] }
    requires ours { IsOurWord state.old.cells word }
    ensures { OnOk result ((rest : Rest) → handed_back (word_of word) (state_of rest (seen state.old)) ≡ state_of rest (seen state.new)) }
{
    let Some(caller) = state.below.pop() else {
        return Ok(());
    };
    let callee = mem::replace(&mut state.top, caller);
    state.top.own(word)?;
    state.top.set_target(callee.into, word);
    Ok(())
}

/// The parameters of a function, which are the first of its variables.
pub(crate) fn parameters(function: &CFunc) -> &[(Name, Kind)]
    ensures { result.now ≡ take function.now.params function.now.vars }
{
    let vars = function.vars.as_slice();
    if function.params <= vars.len() {
        &vars[..function.params]
    } else {
        vars
    }
}

/// The other variables of a function.
fn other_vars(function: &CFunc) -> &[(Name, Kind)]
    ensures { result.now ≡ drop function.now.params function.now.vars }
{
    let vars = function.vars.as_slice();
    if function.params <= vars.len() {
        &vars[function.params..]
    } else {
        &vars[vars.len()..]
    }
}
