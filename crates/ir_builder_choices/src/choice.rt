//! A choice between two values.
ghost use Rattle.std.specs.Prelude.{◌≡◌, ◌<◌, ◌≤◌, length, IfOk, OnOk, OnErr, ℕ};
ghost use Rattle.ir_builder_frames.specs.Building.{Extends};
ghost use Rattle.ir_builder_frames.specs.Calling.{Open};
ghost use Rattle.ir_builder_frames.specs.Kinds.{IsOf, AreAlike};
ghost use Rattle.ir_builder_frames.specs.Lines.{OwnLines};
ghost use Rattle.ir_builder_choices.specs.Choices.{Opens, Brings, Meets};

use ir_builder_frames::Emitter;
use ir_core::{Last, Op, RType, Reg};
use value_core::Memory;

/// A choice that was begun: the register that both values are brought into, the block where the test will stand, and the
/// block of the first value.
#[derive(Clone, Copy)]
pub struct Choice {
    pub target: Reg,
    pub test: usize,
    pub first: usize,
}

/// Begins a choice between two values of a type. Behind it comes the first value.
pub fn begin(b: &mut Emitter, t: RType) -> Result<Choice, Memory>
    ensures kept { Extends b.old b.new }
    ensures opens { IfOk result (λ c. Opens b.old b.new c.target.0 c.test c.first t) }
    ensures lined { (l : ℕ) → OwnLines l b.old b.new }
{
    let target = b.temporary(t)?;
    let test = b.close(Last::Unreachable)?;
    let first = b.here();
    Ok(Choice {
        target,
        test,
        first,
    })
}

/// Brings the first value, and answers the block that ends with it. Behind it comes the second value.
pub fn turn(b: &mut Emitter, choice: Choice, r: Reg, line: usize) -> Result<usize, Memory>
    requires alike { AreAlike b.old.regs choice.target r }
    ensures kept { Extends b.old b.new }
    ensures brings { IfOk result (λ k. Brings b.old b.new choice.target.0 r.0 k) }
    ensures lined { OwnLines line b.old b.new }
{
    b.push(Op::Move(choice.target, r), line)?;
    b.close(Last::Unreachable)
}

/// Brings the second value, and writes the test of the condition and both jumps. `end` is the block that the first value
/// ends with, and `second` the one that the second begins with.
pub fn meet(
    b: &mut Emitter,
    choice: Choice,
    condition: Reg,
    end: usize,
    second: usize,
    r: Reg,
    line: usize,
) -> Result<(), Memory>
    requires test_open { Open b.old choice.test }
    requires end_open { Open b.old end }
    requires first { choice.test < choice.first }
    requires end { choice.first ≤ end }
    requires second { end < second }
    requires here { second ≤ length b.old.blocks }
    requires alike { AreAlike b.old.regs choice.target r }
    requires flag { IsOf b.old.regs condition RType.Bool }
    ensures kept { OnErr result (Extends b.old b.new) }
    ensures meets { OnOk result (Meets b.old b.new choice.target.0 r.0 condition.0 choice.test choice.first end second) }
    ensures lined { OwnLines line b.old b.new }
{
    b.push(Op::Move(choice.target, r), line)?;
    let join = b.step_on()?;
    b.patch(choice.test, Last::If(condition, choice.first, second));
    b.patch(end, Last::Goto(join));
    Ok(())
}
