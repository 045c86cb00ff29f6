//! The detours to blocks: blocks of counts alone, which stand in front of the block that edges go to.
ghost use Rattle.std.specs.Prelude.{◌≡◌, ◌≤◌, ℕ, List, length, reverse, get_or, Some, slice_get, IfOk};
ghost use Rattle.refcount_insert.specs.declared.sharing.EdgeCounts.{EdgeCounts as EdgeItem};
ghost use Rattle.refcount_insert.specs.declared.detours.Detour.{Detour as DetourItem};
ghost use Rattle.refcount_insert.specs.Pairs.{AreParted};
ghost use Rattle.refcount_insert.specs.Detours.{IsPlaced, AreWays, IsFrontOf, AreFronts};

use crate::pairs::{Part, in_parts};
use crate::sharing::{EdgeCounts, copy_counts};
use std::alloc::Global;
use value_core::{Many, Memory};

/// A detour to a block: what it counts, and how many in front of the block that one stands to which it goes, the block itself
/// being none in front.
#[derive(Drop)]
pub struct Detour {
    pub counts: EdgeCounts,
    pub next: usize,
}

/// The detours to a block in their order, and for each of the different counts of edges to it how many in front of the block the
/// way of these edges begins.
#[derive(Drop)]
pub struct Front {
    pub detours: Many<Detour>,
    pub entries: Many<usize>,
}

/// Puts a detour with these counts in front of the others, unless there are none, and tells how many in front of the block the way
/// over it begins.
fn place(detours: &mut Vec<Detour>, counts: EdgeCounts, next: usize) -> Result<usize, Memory>
    requires { next ≤ length detours.old.items }
    ensures { IfOk result (IsPlaced (reverse detours.old.items) (reverse detours.new.items) counts next) }
{
    if counts.is_none() {
        return Ok(next);
    }
    detours.push(Detour { counts, next })?;
    Ok(detours.len())
}

/// Puts a detour for each of some counts in front of the others, and tells how many in front of the block the way of each
/// begins.
fn alone(alloc: Global, all: &[EdgeCounts], detours: &mut Vec<Detour>) -> Result<Vec<usize>, Memory>
    ensures ways { IfOk result (λ entries. AreWays (reverse detours.old.items) (reverse detours.new.items) all.now entries.items) }
    ensures size { IfOk result (λ entries. length entries.items ≡ length all.now) }
{
    let mut entries = Vec::new(alloc);
    for counts in all {
        let own = copy_counts(alloc, counts)?;
        let entry = place(detours, own, 0)?;
        entries.push(entry)?;
    }
    Ok(entries)
}

fn entry_at(entries: &[usize], place: usize) -> usize
    ensures { result ≡ get_or entries.now place 0 }
{
    entries.get(place).copied().unwrap_or(0)
}

/// Puts a detour for what some counts have alone in front of the others, each of which goes on by the way of what it shares.
fn over_commons(
    alloc: Global,
    parts: &[Part],
    commons: &[usize],
    detours: &mut Vec<Detour>,
) -> Result<Vec<usize>, Memory>
    requires { (j n : ℕ) → slice_get commons.now j ≡ Some n → n ≤ length detours.old.items }
    ensures ways { IfOk result (λ entries. (old : List DetourItem) (all shared : List EdgeItem) → AreParted all parts.now shared → AreWays old (reverse detours.old.items) shared commons.now → length commons.now ≡ length shared → AreWays old (reverse detours.new.items) all entries.items) }
    ensures size { IfOk result (λ entries. length entries.items ≡ length parts.now) }
{
    let mut entries = Vec::new(alloc);
    for part in parts {
        let next = entry_at(commons, part.over);
        let own = copy_counts(alloc, &part.own)?;
        let entry = place(detours, own, next)?;
        entries.push(entry)?;
    }
    Ok(entries)
}

/// Puts the detours for some counts in front of the others, and tells how many in front of the block the way of each begins. What
/// two of them that stand side by side have in common is counted on a way that both share, and so on: no way has more detours
/// than such counts can be halved.
fn ways(alloc: Global, all: &[EdgeCounts], detours: &mut Vec<Detour>) -> Result<Vec<usize>, Memory>
    ensures ways { IfOk result (λ entries. AreWays (reverse detours.old.items) (reverse detours.new.items) all.now entries.items) }
    ensures size { IfOk result (λ entries. length entries.items ≡ length all.now) }
{
    if all.len() < 2 {
        return alone(alloc, all, detours);
    }
    let parted = in_parts(alloc, all)?;
    let shared = ways(alloc, &parted.commons, detours)?;
    let entries = over_commons(alloc, &parted.parts, &shared, detours)?;
    Ok(entries)
}

/// The detours to a block for the different counts of edges to it.
fn front_of(alloc: Global, all: &[EdgeCounts]) -> Result<Front, Memory>
    ensures { IfOk result (IsFrontOf all.now) }
{
    let mut detours = Vec::new(alloc);
    let entries = ways(alloc, all, &mut detours)?;
    detours.reverse();
    Ok(Front {
        detours: Many::from_vec(detours),
        entries: Many::from_vec(entries),
    })
}

/// The detours to each of the blocks.
pub(crate) fn fronts_of(alloc: Global, all: &[Many<EdgeCounts>]) -> Result<Vec<Front>, Memory>
    ensures { IfOk result (λ fronts. AreFronts all.now fronts.items) }
{
    let mut fronts = Vec::new(alloc);
    for counts in all {
        fronts.push(front_of(alloc, counts.as_slice())?)?;
    }
    Ok(fronts)
}
