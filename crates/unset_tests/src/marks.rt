//! Marks of blocks: those at whose start a register may be unset, and those that paths reach.
ghost use Rattle.std.specs.Prelude.{◌≡◌, ◌<◌, ◌∷◌, ◌++◌, false, length, replicate, get_or, IfOk, OnOk};
ghost use Rattle.std.specs.List.{flat_map};
ghost use Rattle.unset_tests.specs.Walk.{onward, IsSureOf, AreUnset};
ghost use Rattle.unset_tests.specs.Ways.{leads_to, AreSpread};

use crate::walk::push_onward;
use crate::ways::push_ways;
use ir_core::{Block, RType};
use std::alloc::Global;
use value_core::{Memory, Name};

/// So many marks, none of them set.
pub(crate) fn no_marks(alloc: Global, count: usize) -> Result<Vec<bool>, Memory>
    ensures { IfOk result (λ marks. marks.items ≡ replicate count false) }
{
    let mut marks = Vec::new(alloc);
    for _ in 0..count {
        marks.push(false)?;
    }
    Ok(marks)
}

/// Whether a number is marked.
pub(crate) fn is_marked(marks: &[bool], t: usize) -> bool
    ensures { result ≡ get_or marks.now t false }
{
    match marks.get(t) {
        Some(mark) => *mark,
        None => false,
    }
}

/// Where a register comes unset at first: to the entry, and from operations that may leave it so.
fn first_work(
    alloc: Global,
    regs: &[(Name, RType)],
    blocks: &[Block],
    r: usize,
) -> Result<Vec<usize>, Memory>
    ensures { IfOk result (λ work. work.items ≡ 0 ∷ flat_map (λ b. onward regs.now r b false) blocks.now) }
{
    let mut work = Vec::new(alloc);
    work.push(0)?;
    for block in blocks {
        push_onward(&mut work, regs, r, block, false)?;
    }
    Ok(work)
}

/// The same, where it is told whether some operation may leave it so.
fn work_of(
    alloc: Global,
    regs: &[(Name, RType)],
    blocks: &[Block],
    r: usize,
    is_unsure: bool,
) -> Result<Vec<usize>, Memory>
    requires { IsSureOf regs.now blocks.now r is_unsure }
    ensures { IfOk result (λ work. work.items ≡ 0 ∷ flat_map (λ b. onward regs.now r b false) blocks.now) }
{
    if is_unsure {
        return first_work(alloc, regs, blocks, r);
    }
    let mut work = Vec::new(alloc);
    work.push(0)?;
    Ok(work)
}

/// What is followed from block to block.
#[derive(Clone, Copy)]
pub(crate) enum Followed {
    /// A register that is unset.
    Register(usize),
    /// Any path.
    Paths,
}

/// Puts behind others the blocks to which a block leads.
fn push_led(
    alloc: Global,
    work: &mut Vec<usize>,
    regs: &[(Name, RType)],
    blocks: &[Block],
    followed: Followed,
    block: &Block,
) -> Result<(), Memory>
    ensures { OnOk result (work.new.items ≡ work.old.items ++ leads_to regs.now blocks.now followed block.now) }
{
    match followed {
        Followed::Register(r) => push_onward(work, regs, r, block, true),
        Followed::Paths => push_ways(alloc, work, regs, blocks, block),
    }
}

/// Marks of the blocks to which one comes from those in `work`.
pub(crate) fn spread(
    alloc: Global,
    regs: &[(Name, RType)],
    blocks: &[Block],
    followed: Followed,
    mut work: Vec<usize>,
) -> Result<Vec<bool>, Memory>
    ensures { IfOk result (λ marks. AreSpread regs.now blocks.now followed work.items marks.items) }
{
    let mut marks = no_marks(alloc, blocks.len())?;
    while let Some(t) = work.pop() {
        if t < blocks.len() && !is_marked(marks.as_slice(), t) {
            marks[t] = true;
            push_led(alloc, &mut work, regs, blocks, followed, &blocks[t])?;
        }
    }
    Ok(marks)
}

/// Of each block whether a register may be unset at its start.
pub(crate) fn unset_starts(
    alloc: Global,
    regs: &[(Name, RType)],
    blocks: &[Block],
    r: usize,
    is_unsure: bool,
) -> Result<Vec<bool>, Memory>
    requires declared { r < length regs.now }
    requires sure { IsSureOf regs.now blocks.now r is_unsure }
    ensures { IfOk result (λ marks. AreUnset regs.now blocks.now r marks.items) }
{
    let work = work_of(alloc, regs, blocks, r, is_unsure)?;
    spread(alloc, regs, blocks, Followed::Register(r), work)
}
