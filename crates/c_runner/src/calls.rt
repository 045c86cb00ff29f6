//! Calls of primitives. Which arguments a primitive takes and what it does are its row and its effect in the machine.
ghost use Rattle.std.specs.Prelude.{◌≡◌, ◌+◌, ◌^◌, ◌<◌, true, cond, IfOk};
ghost use Rattle.c_core.specs.declared.code.Code as machine_code;
ghost use Rattle.c_core.specs.declared.fault.Fault.TheVariants as fault;
ghost use Rattle.c_core.specs.declared.primitive.Primitive.TheVariants as prim;
ghost use Rattle.c_core.specs.Primitives.{row_of};
ghost use Rattle.c_core.specs.Step.{Next, if_may_stand, faulted, primitive_step, called};
ghost use Rattle.c_runner.specs.Parts.{quiet_step};
ghost use Rattle.c_runner_deeds.specs.States.{Rest, Follows, IsSmall, state_of, seen};
ghost use Rattle.c_runner_table.specs.Targets.{named_of};
ghost use Rattle.c_runner.specs.Waiting.{Steps};

use crate::input::ask_for_line;
use crate::pause::Pause;
use c_core::{CArg, Code, ErrPrim, Fault, IoPrim, Prim};
use c_runner_deeds::{Ending, State};
use c_runner_objects::{call_attribute, call_dict, call_instance, call_list, call_tuple};
use c_runner_table::Named;
use std::alloc::Global;
use value_core::Memory;

/// Calls a primitive, whose first argument may name a global or a class. While an exception is pending only some may be
/// called.
pub(crate) fn call_primitive(
    state: &mut State,
    alloc: Global,
    code: &Code,
    primitive: Prim,
    named: Named,
    target: Option<usize>,
    args: &[CArg],
) -> Result<Option<Ending>, Pause>
    requires small { IsSmall (seen state.old) }
    requires place { state.old.top.place + 1 < 2 ^ 64 }
    requires named { named ≡ named_of code.now args.now }
    ensures { Steps (λ s. called true s code.now target args.now primitive) result (seen state.old) (seen state.new) }
{
    if !may_stand(state, primitive) {
        return Ok(Some(Ending::Fault(Fault::Kind)));
    }
    perform(state, alloc, code, primitive, named, target, args)
}

/// Whether a primitive may be called now.
fn may_stand(state: &State, primitive: Prim) -> bool
    ensures { (rest : Rest) (go : Next) →
        (let s = state_of rest (seen state.now) in
        if_may_stand true s (row_of primitive).while_pending go ≡ cond result go (faulted true s fault.Kind)) }
{
    match state.pending {
        None => true,
        Some(_) => stands_while_pending(primitive),
    }
}

/// Does what a primitive does that may be called now.
fn perform(
    state: &mut State,
    alloc: Global,
    code: &Code,
    primitive: Prim,
    named: Named,
    target: Option<usize>,
    args: &[CArg],
) -> Result<Option<Ending>, Pause>
    requires small { IsSmall (seen state.old) }
    requires place { state.old.top.place + 1 < 2 ^ 64 }
    requires named { named ≡ named_of code.now args.now }
    ensures { Steps (λ s. primitive_step true s code.now target args.now primitive) result (seen state.old) (seen state.new) }
{
    match primitive {
        Prim::Dict(operation) => Ok(call_dict(state, alloc, operation, target, args)?),
        Prim::List(operation) => Ok(call_list(state, alloc, operation, target, args)?),
        Prim::Instance(operation) => {
            Ok(call_instance(state, alloc, code, operation, named.class(), target, args)?)
        }
        Prim::Io(operation) => call_io(state, operation, target, args),
        _ => Ok(perform_quietly(state, alloc, code, primitive, named, target, args)?),
    }
}

/// Does what a primitive does that may be called now, makes no object and asks for no line of the input.
fn perform_quietly(
    state: &mut State,
    alloc: Global,
    code: &Code,
    primitive: Prim,
    named: Named,
    target: Option<usize>,
    args: &[CArg],
) -> Result<Option<Ending>, Memory>
    requires small { IsSmall (seen state.old) }
    requires place { state.old.top.place + 1 < 2 ^ 64 }
    requires named { named ≡ named_of code.now args.now }
    ensures { IfOk result (λ ending. Follows
        (quiet_step code.now target args.now primitive) ending (seen state.old) (seen state.new)) }
{
    match primitive {
        Prim::Int64(operation) => state.call_int64(alloc, operation, target, args),
        Prim::Tagged(operation) => state.call_tagged(alloc, operation, target, args),
        Prim::Bool(operation) => state.call_bool(alloc, operation, target, args),
        Prim::Object(operation) => state.call_object(operation, target, args),
        Prim::Str(operation) => state.call_str(alloc, operation, target, args),
        Prim::Dict(_) => Ok(Some(Ending::Fault(Fault::Kind))),
        Prim::Tuple(operation) => call_tuple(state, alloc, operation, target, args),
        Prim::Attr(operation) => call_attribute(state, alloc, code, operation, target, args),
        Prim::Global(operation) => {
            state.call_global(alloc, code, operation, named.global(), target, args)
        }
        Prim::Exc(operation) => state.call_exception(operation, target, args),
        Prim::Err(operation) => state.call_error(alloc, operation, target, args),
        Prim::List(_) | Prim::Instance(_) | Prim::Io(_) => { Ok(Some(Ending::Fault(Fault::Kind))) }
    }
}

/// Calls a primitive that writes or reads.
fn call_io(
    state: &mut State,
    operation: IoPrim,
    target: Option<usize>,
    args: &[CArg],
) -> Result<Option<Ending>, Pause>
    requires place { state.old.top.place + 1 < 2 ^ 64 }
    ensures { (code : machine_code.Code) → Steps
        (λ s. primitive_step true s code target args.now (prim.Io operation)) result (seen state.old) (seen state.new) }
{
    match operation {
        IoPrim::Write => Ok(state.call_write(args)?),
        IoPrim::Input => ask_for_line(state, target, args),
    }
}

/// Whether a primitive may be called while an exception is pending.
fn stands_while_pending(primitive: Prim) -> bool
    ensures { result ≡ (row_of primitive).while_pending }
{
    match primitive {
        Prim::Err(ErrPrim::Occurred | ErrPrim::Matches | ErrPrim::Catch) => true,
        _ => false,
    }
}
