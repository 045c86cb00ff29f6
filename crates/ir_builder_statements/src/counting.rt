//! Loops that count: the register of a number, and what goes on to the next one.
ghost use Rattle.std.specs.Prelude.{◌≡◌, IfOk, OnOk, pos, ◌≤◌, ◌<◌};
ghost use Rattle.value_core.specs.Value.{IntVal};
ghost use Rattle.value_core.specs.Arithmetic.{lies_within};
ghost use Rattle.ir_core.specs.Registers.{Holds};
ghost use Rattle.ir_builder_frames.specs.Building.{Extends};
ghost use Rattle.ir_builder_frames.specs.Computing.{Makes};
ghost use Rattle.ir_builder_frames.specs.Placing.{HasType};
ghost use Rattle.ir_builder_frames.specs.Settings.{rtype_of};
ghost use Rattle.ir_builder_frames.specs.Lines.{OwnLines};
ghost use Rattle.ir_builder_loops_and_jumps.specs.Around.{Splits};
ghost use Rattle.ir_builder_statements.specs.Counting.{number_sort, less_of, adding_of, Copies, CountsOn, HasCounter, StepsOn, FindsLess};

use ir_builder_frames::Emitter;
use ir_builder_loops_and_jumps::{LoopStart, Test};
use ir_builder_operations::{
    Compared, Operation, Test as Tested, emit_int, emit_native, emit_operation,
};
use ir_core::{Last, Op, RType, Reg};
use py_syntax::BinOp;
use std::alloc::Global;
use value_core::Memory;

/// The register of a number that a loop counts up, and whether it is a native integer.
#[derive(Clone, Copy)]
pub(crate) struct Counter {
    pub(crate) reg: Reg,
    pub(crate) native: bool,
}

/// A loop that was begun, and the number that it counts up behind its body, where it counts.
#[derive(Clone, Copy)]
pub(crate) struct Begun {
    pub(crate) start: LoopStart,
    pub(crate) counter: Option<Counter>,
}

/// A value in a register of its own, which no assignment changes.
pub(crate) fn emit_copy(b: &mut Emitter, t: RType, x: Reg, line: usize) -> Result<Reg, Memory>
    requires value { HasType b.old x.0 t }
    ensures kept { Extends b.old b.new }
    ensures made { IfOk result (λ r. Makes b.old b.new r.0 t (Copies x.0)) }
    ensures lined { OwnLines line b.old b.new }
{
    let r = b.temporary(t)?;
    b.push(Op::Move(r, x), line)?;
    Ok(r)
}

/// A small number in a register of its own.
pub(crate) fn emit_number(
    b: &mut Emitter,
    alloc: Global,
    native: bool,
    n: i64,
    line: usize,
) -> Result<Reg, Memory>
    ensures kept { Extends b.old b.new }
    ensures made { IfOk result (λ r. Makes b.old b.new r.0 (rtype_of (number_sort native)) (λ regs h. h ≡ Holds (IntVal n))) }
    ensures lined { OwnLines line b.old b.new }
{
    if native {
        emit_native(b, n, line)
    } else {
        emit_int(b, alloc, i128::from(n), line)
    }
}

// The operation that adds two numbers, and the one that finds whether the first of two is less.
fn adding(native: bool) -> Operation
    ensures { result ≡ adding_of native }
{
    if native {
        Operation::NativeArithmetic(BinOp::Add)
    } else {
        Operation::IntArithmetic(BinOp::Add)
    }
}

fn less(native: bool) -> Operation
    ensures { result ≡ less_of native }
{
    if native {
        Operation::Comparison(Compared::Natives, Tested::Less)
    } else {
        Operation::Comparison(Compared::Ints, Tested::Less)
    }
}

// Counts up.
fn emit_next(b: &mut Emitter, alloc: Global, counter: Counter, line: usize) -> Result<(), Memory>
    requires counter { HasType b.old counter.reg.0 (rtype_of (number_sort counter.native)) }
    ensures kept { Extends b.old b.new }
    ensures counts { OnOk result (CountsOn (number_sort counter.native) counter.reg.0 b.old b.new) }
    ensures lined { OwnLines line b.old b.new }
{
    let one = emit_number(b, alloc, counter.native, 1, line)?;
    let op = adding(counter.native);
    let sum = emit_operation(b, alloc, op, &[counter.reg, one], line)?;
    b.push(Op::Move(counter.reg, sum), line)
}

/// What stands between the body of a loop and its turn.
pub(crate) fn emit_step(
    b: &mut Emitter,
    alloc: Global,
    counter: Option<Counter>,
    line: usize,
) -> Result<(), Memory>
    requires counter { HasCounter counter b.old }
    ensures kept { Extends b.old b.new }
    ensures steps { OnOk result (StepsOn counter b.old b.new) }
    ensures lined { OwnLines line b.old b.new }
{
    match counter {
        Some(counter) => emit_next(b, alloc, counter, line),
        None => Ok(()),
    }
}

/// Tests whether the number is less than another one, and ends the block.
pub(crate) fn emit_less(
    b: &mut Emitter,
    alloc: Global,
    counter: Counter,
    stop: Reg,
    line: usize,
) -> Result<Test, Memory>
    requires counter { HasType b.old counter.reg.0 (rtype_of (number_sort counter.native)) }
    requires stop { HasType b.old stop.0 (rtype_of (number_sort counter.native)) }
    ensures kept { Extends b.old b.new }
    ensures splits { IfOk result (λ t. Splits (FindsLess (number_sort counter.native) counter.reg.0 stop.0 b.old) b.new t) }
    ensures lined { OwnLines line b.old b.new }
{
    let op = less(counter.native);
    let condition = emit_operation(b, alloc, op, &[counter.reg, stop], line)?;
    let block = b.close(Last::Unreachable)?;
    Ok(Test {
        condition,
        block,
        start: b.here(),
    })
}
