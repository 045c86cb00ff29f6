//! What stands around the bodies of `if` and of loops.
ghost use Rattle.std.specs.Prelude.{◌<◌, ◌≤◌, ℕ, length, IfOk, OnOk, OnErr, [], ◌∷◌};
ghost use Rattle.py_typed.specs.Expressions.{typed_expr};
ghost use Rattle.ir_builder_frames.specs.Building.{Extends};
ghost use Rattle.ir_builder_frames.specs.Calling.{Open};
ghost use Rattle.ir_builder_frames.specs.Matching.{HasRoom};
ghost use Rattle.ir_builder_frames.specs.Kinds.{IsOf};
ghost use Rattle.ir_builder_expressions.specs.Site.{setting_of};
ghost use Rattle.ir_builder_expressions.specs.Suiting.{Suits};
ghost use Rattle.ir_builder_loops_and_jumps.specs.Runs.{OpenIn};
ghost use Rattle.ir_builder_loops_and_jumps.specs.Around.{SplitsBy, EndsArm, Joins, EndsLoop};
ghost use Rattle.ir_builder_frames.specs.Lines.{OwnLines};
ghost use Rattle.ir_builder_expressions.specs.Lined.{Around};
ghost use Rattle.ir_builder_statements.specs.Lined.{value, LinedPieces};

use crate::exits::{leave_by, pass_on, patch_all};
use ir_builder_expressions::{Site, emit_expression};
use ir_builder_frames::Emitter;
use ir_builder_loops_and_jumps::{Exit, ExitPlan, LoopStart, Test, Way};
use ir_core::{Last, Op, RType};
use py_typed::TExpr;
use value_core::Memory;

/// Emits a test, and ends the block.
pub(crate) fn emit_split(b: &mut Emitter, site: Site, e: &TExpr) -> Result<Test, Memory>
    requires suits { Suits (setting_of site).source (setting_of site).variables (typed_expr e.now) }
    requires room { HasRoom (setting_of site) b.old }
    ensures kept { Extends b.old b.new }
    ensures splits { IfOk result (λ t. SplitsBy (setting_of site.entry) (typed_expr e.now) b.old b.new t) }
    ensures lined { OnOk result ((l : ℕ) → LinedPieces (setting_of site.entry) l (value (typed_expr e.now) ∷ []) b.old b.new) }
{
    let condition = emit_expression(b, site, e)?;
    let block = b.close(Last::Unreachable)?;
    Ok(Test {
        condition,
        block,
        start: b.here(),
    })
}

/// Ends the body of an arm of an `if`, and writes the jumps of its test.
pub(crate) fn end_arm(b: &mut Emitter, test: Test, exits: &mut Vec<Exit>) -> Result<(), Memory>
    requires start { test.block < test.start }
    requires here { test.start ≤ length b.old.blocks }
    requires flag { IsOf b.old.regs test.condition RType.Bool }
    ensures kept { OnErr result (Extends b.old b.new) }
    ensures ends { OnOk result (EndsArm b.old b.new test exits.old.items exits.new.items) }
    ensures lined { (l : ℕ) → OwnLines l b.old b.new }
{
    leave_by(b, Way::Join, exits)?;
    let next = b.here();
    b.patch(test.block, Last::If(test.condition, test.start, next));
    Ok(())
}

/// Ends the last body of an `if`, and writes the jumps of the others to what comes next.
pub(crate) fn join(b: &mut Emitter, inner: &[Exit], exits: &mut Vec<Exit>) -> Result<(), Memory>
    requires opens { (from : ℕ) × OpenIn b.old from (length b.old.blocks) inner.now }
    ensures kept { OnErr result (Extends b.old b.new) }
    ensures joins { OnOk result (Joins b.old b.new inner.now exits.old.items exits.new.items) }
    ensures lined { OnOk result ((l : ℕ) → Around l b.old b.new) }
{
    let end = b.step_on()?;
    let plan = ExitPlan {
        breaks: None,
        continues: None,
        returns: None,
        joins: Some(end),
    };
    pass_on(exits, inner, plan)?;
    patch_all(b, inner, plan);
    Ok(())
}

/// Ends a loop behind its body and its step: it spends a turn and goes to the block where the test begins. The test goes to the
/// body or to what comes next, and `continue` to the block `next`.
pub(crate) fn end_loop(
    b: &mut Emitter,
    start: LoopStart,
    next: usize,
    inner: &[Exit],
    exits: &mut Vec<Exit>,
    line: usize,
) -> Result<(), Memory>
    requires head { (1 ≤ start.head) × (start.head ≤ length b.old.blocks) }
    requires open { Open b.old start.test.block }
    requires start { start.test.block < start.test.start }
    requires here { start.test.start ≤ next }
    requires next { next ≤ length b.old.blocks }
    requires opens { OpenIn b.old start.test.start next inner.now }
    requires flag { IsOf b.old.regs start.test.condition RType.Bool }
    ensures kept { OnErr result (Extends b.old b.new) }
    ensures ends { OnOk result (EndsLoop b.old b.new start next inner.now exits.old.items exits.new.items) }
    ensures lined { OnOk result (Around line b.old b.new) }
{
    let LoopStart { head, test } = start;
    b.push(Op::Turn, line)?;
    b.close(Last::Goto(head))?;
    let exit = b.here();
    let plan = ExitPlan {
        breaks: Some(exit),
        continues: Some(next),
        returns: None,
        joins: None,
    };
    pass_on(exits, inner, plan)?;
    b.patch(test.block, Last::If(test.condition, test.start, exit));
    patch_all(b, inner, plan);
    Ok(())
}
