//! The blocks that are left by ways whose places come later.
ghost use Rattle.std.specs.Prelude.{◌≡◌, ◌++◌, [], ◌∷◌, ℕ, length, OnOk};
ghost use Rattle.ir_builder_frames.specs.Building.{Extends};
ghost use Rattle.ir_builder_frames.specs.Calling.{Closes};
ghost use Rattle.ir_builder_loops_and_jumps.specs.Ways.{planned, left};
ghost use Rattle.ir_builder_loops_and_jumps.specs.Plans.{PlanFits};
ghost use Rattle.ir_builder_loops_and_jumps.specs.Runs.{OpenIn, all_jumping};
ghost use Rattle.ir_builder_frames.specs.Lines.{OwnLines};

use ir_builder_frames::Emitter;
use ir_builder_loops_and_jumps::{Exit, ExitPlan, Way};
use ir_core::Last;
use value_core::Memory;

/// Ends the block by a way, and notes it. Its jump is still to be written.
pub(crate) fn leave_by(b: &mut Emitter, way: Way, exits: &mut Vec<Exit>) -> Result<(), Memory>
    ensures kept { Extends b.old b.new }
    ensures noted { OnOk result (exits.new.items ≡ exits.old.items ++ record { way = way; block = length b.old.blocks } ∷ []) }
    ensures closed { OnOk result (Closes b.old b.new Last.Unreachable) }
    ensures lined { (l : ℕ) → OwnLines l b.old b.new }
{
    let block = b.close(Last::Unreachable)?;
    exits.push(Exit { way, block })?;
    Ok(())
}

/// The block to which a way goes, where a plan knows it.
fn place_of(plan: ExitPlan, way: Way) -> Option<usize>
    ensures { result ≡ planned plan way }
{
    match way {
        Way::Break => plan.breaks,
        Way::Continue => plan.continues,
        Way::Return => plan.returns,
        Way::Join => plan.joins,
    }
}

/// Writes the jumps of the exits whose way is in a plan. It takes no memory.
pub(crate) fn patch_all(b: &mut Emitter, exits: &[Exit], plan: ExitPlan)
    requires opens { (from : ℕ) × OpenIn b.old from (length b.old.blocks) exits.now }
    requires fits { PlanFits (length b.old.blocks) (planned plan) exits.now }
    ensures jumps { b.new ≡ all_jumping (planned plan) exits.now b.old }
    ensures lined { (l : ℕ) → OwnLines l b.old b.new }
{
    for exit in exits {
        if let Some(place) = place_of(plan, exit.way) {
            b.patch(exit.block, Last::Goto(place));
        }
    }
}

/// Hands the exits on whose way is not in a plan.
pub(crate) fn pass_on(exits: &mut Vec<Exit>, inner: &[Exit], plan: ExitPlan) -> Result<(), Memory>
    ensures { OnOk result (exits.new.items ≡ exits.old.items ++ left (planned plan) inner.now) }
{
    for exit in inner {
        if place_of(plan, exit.way).is_none() {
            exits.push(*exit)?;
        }
    }
    Ok(())
}
