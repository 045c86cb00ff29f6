//! The choices of a chain of comparisons, each by whether the one before holds.
ghost use Rattle.std.specs.Prelude.{IfOk, OnOk, OnErr, ℕ};
ghost use Rattle.ir_builder_frames.specs.Building.{Building, Extends};
ghost use Rattle.ir_builder_frames.specs.Placing.{HasType};
ghost use Rattle.ir_builder_frames.specs.Lines.{OwnLines};
ghost use Rattle.ir_builder_expressions.specs.Linking.{Begins, Linked, Pending, Met, Ended};

use ir_builder_choices::{Choice, begin, meet, turn};
use ir_builder_frames::Emitter;
use ir_core::{RType, Reg};
use value_core::{Many, Memory};

/// A comparison of a chain that others follow: the choice whose first value is the rest of the chain, and the register that
/// tells whether the comparison holds.
#[derive(Clone, Copy)]
pub struct Link {
    pub choice: Choice,
    pub holds: Reg,
}

/// Begins the choice of a comparison. Behind it comes the rest of the chain.
pub fn begin_link(b: &mut Emitter, links: &mut Many<Link>, holds: Reg) -> Result<(), Memory>
    ensures kept { Extends b.old b.new }
    ensures linked { OnOk result (Linked b.old b.new links.old links.new holds) }
    ensures lined { (l : ℕ) → OwnLines l b.old b.new }
{
    let choice = begin(b, RType::Bool)?;
    links.push(Link { choice, holds })
}

// Meets the choice of a comparison, whose rest of the chain is in a register.
fn meet_link(b: &mut Emitter, link: Link, r: Reg, line: usize) -> Result<(), Memory>
    requires begun { (a : Building) × (d : Building) × Begins a d link × Extends d b.old }
    requires flag { HasType b.old r.0 RType.Bool }
    ensures kept { OnErr result (Extends b.old b.new) }
    ensures met { OnOk result (Met b.old b.new link r.0) }
    ensures lined { OwnLines line b.old b.new }
{
    let end = turn(b, link.choice, r, line)?;
    let second = b.here();
    meet(b, link.choice, link.holds, end, second, link.holds, line)
}

/// Meets the choices of a chain whose last comparison is in a register, and answers the register of the chain.
pub fn meet_links(b: &mut Emitter, links: Many<Link>, last: Reg, line: usize) -> Result<Reg, Memory>
    requires pending { (a : Building) × Pending a links b.old }
    requires flag { HasType b.old last.0 RType.Bool }
    ensures kept { (a : Building) → Pending a links b.old → Extends a b.new }
    ensures ended { IfOk result (λ q. Ended links b.old last.0 b.new q.0) }
    ensures lined { OwnLines line b.old b.new }
{
    let mut rest = links;
    let mut r = last;
    while let Some(link) = rest.pop() {
        meet_link(b, link, r, line)?;
        r = link.choice.target;
    }
    Ok(r)
}
