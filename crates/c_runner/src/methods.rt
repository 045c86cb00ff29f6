//! Calls of methods: of the function that the class of an object has for one, with the object as its first argument.
ghost use Rattle.std.specs.Prelude.{◌≡◌, ℕ, ◌+◌, ◌^◌, ◌<◌, ◌∷◌, true, List, [], Option, Some, map, slice_get, IfOk};
ghost use Rattle.std.specs.List.{position};
ghost use Rattle.std.specs.Str.{bytes_eq};
ghost use Rattle.c_core.specs.declared.code.CArg.TheVariants as machine_arg;
ghost use Rattle.c_core.specs.declared.code.CClass as machine_class;
ghost use Rattle.c_core.specs.declared.code.Code as machine_code;
ghost use Rattle.c_core.specs.Functions.{method_at, trait_method_at};
ghost use Rattle.c_core.specs.Machine as machine;
ghost use Rattle.c_core.specs.Step as machine_step;
ghost use Rattle.c_core.specs.Step.{Next, if_passed, method_called};
ghost use Rattle.c_runner.specs.Methods.{function_for, method_begins, class_calls};
ghost use Rattle.c_runner.specs.Parts.{unless_fault};
ghost use Rattle.c_runner_deeds.specs.States.{Rest, Follows, state_of, seen};
ghost use Rattle.c_runner_table.specs.Targets.{methods_of};
ghost use Rattle.cell_heap.specs.Contents.{word_of, words_refs};
ghost use Rattle.cell_heap.specs.Ours.{AreOurs};

use crate::frames::{begin, parameters, room_for_vars};
use c_core::{CFunc, Code, Fault, Kind};
use c_runner_deeds::{Ending, State};
use c_runner_table::Methods;
use cell_heap::Word;
use std::alloc::Global;
use value_core::{Many, Memory, Name};

/// Calls the method of a number among those of the class of an object.
pub(crate) fn call_own_method(
    state: &mut State,
    alloc: Global,
    code: &Code,
    classes: &Many<Methods>,
    target: usize,
    object: usize,
    number: usize,
    args: &[usize],
) -> Result<Option<Ending>, Memory>
    requires place { state.old.top.place + 1 < 2 ^ 64 }
    requires classes { classes.now ≡ methods_of code.now }
    ensures { IfOk result (λ ending. Follows
        (λ s. method_called true s code.now target object args.now (method_at number)) ending (seen state.old) (seen state.new)) }
{
    match receiver(state, object) {
        Err(fault) => Ok(Some(Ending::Fault(fault))),
        Ok(class) => {
            let func = own_method(code, classes, class, number);
            call_method(state, alloc, code, func, target, object, args)
        }
    }
}

/// The same of the methods that the class has for a trait.
pub(crate) fn call_trait_method(
    state: &mut State,
    alloc: Global,
    code: &Code,
    classes: &Many<Methods>,
    target: usize,
    object: usize,
    name: &str,
    number: usize,
    args: &[usize],
) -> Result<Option<Ending>, Memory>
    requires place { state.old.top.place + 1 < 2 ^ 64 }
    requires classes { classes.now ≡ methods_of code.now }
    ensures { IfOk result (λ ending. Follows
        (λ s. method_called true s code.now target object args.now (trait_method_at name.now number)) ending (seen state.old) (seen state.new)) }
{
    match receiver(state, object) {
        Err(fault) => Ok(Some(Ending::Fault(fault))),
        Ok(class) => {
            let func = trait_method(code, classes, class, name, number);
            call_method(state, alloc, code, func, target, object, args)
        }
    }
}

/// The class, by its number, of the object whose method is called, where no exception is pending.
fn receiver(state: &State, object: usize) -> Result<usize, Fault>
    ensures { (rest : Rest) (code : machine_code.Code) (target : ℕ) (args : List ℕ) (entry : machine_class.CClass → Option (List ℕ)) →
        (let s = state_of rest (seen state.now) in
        method_called true s code target object args entry ≡ class_calls code target (object ∷ args) entry result s) }
{
    if state.pending.is_some() {
        return Err(Fault::Kind);
    }
    match state.instance_variable(object) {
        Err(fault) => Err(fault),
        Ok(found) => Ok(found.1),
    }
}

/// Calls the function that was found for a method, if one was. It is to take as many arguments, of which the object is the
/// first, and to give a result of the target's kind.
fn call_method(
    state: &mut State,
    alloc: Global,
    code: &Code,
    func: Option<usize>,
    target: usize,
    object: usize,
    args: &[usize],
) -> Result<Option<Ending>, Memory>
    requires { state.old.top.place + 1 < 2 ^ 64 }
    ensures { IfOk result (λ ending. Follows (method_begins code.now target (object ∷ args.now) func) ending (seen state.old) (seen state.new)) }
{
    let Some(func) = func else {
        return Ok(Some(Ending::Fault(Fault::Kind)));
    };
    let Some(function) = code.funcs.get(func) else {
        return Ok(Some(Ending::Fault(Fault::Kind)));
    };
    if !takes_and_gives(state, code, target, args, function) {
        return Ok(Some(Ending::Fault(Fault::Kind)));
    }
    let mut vars = room_for_vars(alloc, function)?;
    match pass_variables(state, parameters(function), object, args, &mut vars)? {
        Some(fault) => Ok(Some(Ending::Fault(fault))),
        None => {
            begin(state, alloc, func, function, Some(target), vars)?;
            Ok(None)
        }
    }
}

/// Whether a function takes an object and as many other arguments, and gives a result of the target's kind.
fn takes_and_gives(
    state: &State,
    code: &Code,
    target: usize,
    args: &[usize],
    function: &CFunc,
) -> bool
    ensures { (rest : Rest) (object : ℕ) → result
        ≡ machine_step.takes_and_gives true (state_of rest (seen state.now)) code.now target (object ∷ args.now) function.now }
{
    args.len() + 1 == parameters(function).len()
        && state.kind_of_variable(code, target) == Some(function.ret)
}

/// Adds a word for each parameter, of which the object is the first, and answers the fault of the first variable that may
/// not be passed.
fn pass_variables(
    state: &State,
    parameters: &[(Name, Kind)],
    object: usize,
    args: &[usize],
    words: &mut Many<Word>,
) -> Result<Option<Fault>, Memory>
    requires { words.old ≡ [] }
    ensures passed { IfOk result (λ fault. (rest : Rest) (go : List machine.Word → Next) →
        if_passed true (state_of rest (seen state.now)) (map (λ v. v.1) parameters.now) (map machine_arg.Var (object ∷ args.now)) go
        ≡ unless_fault fault (state_of rest (seen state.now)) (go (map word_of words.new))) }
    ensures ours { IfOk result (λ _. AreOurs state.now.cells (words_refs words.new)) }
{
    for (i, parameter) in parameters.iter().enumerate() {
        let Some(x) = variable_at(object, args, i) else {
            return Ok(Some(Fault::Kind));
        };
        match state.passed_variable(parameter.1, x) {
            Err(fault) => return Ok(Some(fault)),
            Ok(word) => words.push(word)?,
        }
    }
    if args.len() >= parameters.len() {
        return Ok(Some(Fault::Kind));
    }
    Ok(None)
}

/// The variable at a place among an object and other arguments.
fn variable_at(object: usize, args: &[usize], place: usize) -> Option<usize>
    ensures { result ≡ slice_get (object ∷ args.now) place }
{
    if place == 0 {
        Some(object)
    } else {
        args.get(place - 1).copied()
    }
}

/// The function that a class has for the method of a number, if there is one.
fn own_method(_code: &Code, classes: &Many<Methods>, class: usize, number: usize) -> Option<usize>
    requires { classes.now ≡ methods_of _code.now }
    ensures { result ≡ function_for _code.now (method_at number) class }
{
    match classes.get(class) {
        None => None,
        Some(methods) => methods.own.get(number).copied().flatten(),
    }
}

/// The function that a class has for the method of a number of a trait, if there is one.
fn trait_method(
    code: &Code,
    classes: &Many<Methods>,
    class: usize,
    name: &str,
    number: usize,
) -> Option<usize>
    requires { classes.now ≡ methods_of code.now }
    ensures { result ≡ function_for code.now (trait_method_at name.now number) class }
{
    let Some(declared) = code.classes.get(class) else {
        return None;
    };
    let Some(methods) = classes.get(class) else {
        return None;
    };
    let Some(place) = trait_place(declared.traits.as_slice(), name) else {
        return None;
    };
    match methods.traits.get(place) {
        None => None,
        Some(functions) => functions.get(number).copied().flatten(),
    }
}

/// The place of a trait by its name.
fn trait_place(traits: &[(Name, Many<Name>)], name: &str) -> Option<usize>
    ensures { result ≡ position (λ entry. bytes_eq name.now entry.0) traits.now }
{
    traits.iter().position(|entry| name == entry.0.as_str())
}
