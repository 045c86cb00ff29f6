//! Equal counts of edges to one block are kept once.
ghost use Rattle.std.specs.Prelude.{◌≡◌, ◌<◌, [], true, length, Some, slice_get, IfOk, OnOk};
ghost use Rattle.refcount_insert_rule.specs.Rule.{given_up};
ghost use Rattle.refcount_insert.specs.Sharing as spec;
ghost use Rattle.refcount_insert.specs.Sharing.{IsPlain, Keeps, Adds, IsShared};

use indexmap::IndexMap;
use refcount_insert_counts::Counts;
use std::alloc::Global;
use value_core::{Many, Memory};

/// The counts of an edge: which registers get a reference, and which are given up.
#[derive(Drop)]
pub struct EdgeCounts {
    pub ups: Many<usize>,
    pub downs: Many<usize>,
}

impl EdgeCounts {
    /// Whether there are none.
    pub(crate) fn is_none(&self) -> bool
        ensures { result ≡ spec.is_none self.now }
    {
        self.ups.is_empty() && self.downs.is_empty()
    }

    /// Whether others are the same.
    fn is_same(&self, other: &EdgeCounts) -> bool
        ensures { result ≡ true → self.now ≡ other.now }
    {
        self.ups.as_slice() == other.ups.as_slice()
            && self.downs.as_slice() == other.downs.as_slice()
    }
}

/// No counts.
pub(crate) fn no_counts(alloc: Global) -> EdgeCounts
    ensures ups { result.ups ≡ [] }
    ensures downs { result.downs ≡ [] }
{
    EdgeCounts {
        ups: Many::new(alloc),
        downs: Many::new(alloc),
    }
}

/// A copy of counts.
pub(crate) fn copy_counts(alloc: Global, counts: &EdgeCounts) -> Result<EdgeCounts, Memory>
    ensures { IfOk result (λ copy. copy ≡ counts.now) }
{
    let ups = Many::from_slice(alloc, counts.ups.as_slice())?;
    let downs = Many::from_slice(alloc, counts.downs.as_slice())?;
    Ok(EdgeCounts { ups, downs })
}

/// The registers that are given up.
fn given_up(alloc: Global, downs: &[(usize, bool)]) -> Result<Many<usize>, Memory>
    ensures { IfOk result (λ all. all ≡ given_up downs.now) }
{
    let mut all = Vec::new(alloc);
    for (r, _) in downs {
        all.push(*r)?;
    }
    Ok(Many::from_vec(all))
}

/// The counts of an edge, without what is known of error values: on an edge nothing is.
fn edge_counts(alloc: Global, counts: &Counts) -> Result<EdgeCounts, Memory>
    ensures { IfOk result (λ e. IsPlain counts.now e) }
{
    let ups = Many::from_slice(alloc, counts.ups.as_slice())?;
    let downs = given_up(alloc, counts.downs.as_slice())?;
    Ok(EdgeCounts { ups, downs })
}

/// A number that is the same for equal counts of edges to one block, and mostly another one for others.
fn mark(t: usize, counts: &EdgeCounts) -> usize {
    let mut mark = t;
    for r in counts.ups.as_slice() {
        mark = mark.wrapping_mul(0x9e37_79b9_7f4a_7c15).wrapping_add(*r);
    }
    mark = mark.wrapping_mul(0x9e37_79b9_7f4a_7c15).wrapping_sub(1);
    for r in counts.downs.as_slice() {
        mark = mark.wrapping_mul(0x9e37_79b9_7f4a_7c15).wrapping_add(*r);
    }
    mark
}

/// Whether the same counts stand at a place.
fn stands_at(kept: &[EdgeCounts], place: usize, counts: &EdgeCounts) -> bool
    ensures { result ≡ true → slice_get kept.now place ≡ Some counts.now }
{
    match kept.get(place) {
        Some(found) => found.is_same(counts),
        None => false,
    }
}

/// Where the counts of an edge to block t stand among the different ones of edges to it, unless there are none. They are put
/// behind the others where they are new. `places` has the place of counts by their mark.
pub(crate) fn share(
    alloc: Global,
    kept: &mut [Many<EdgeCounts>],
    places: &mut IndexMap<usize, usize>,
    t: usize,
    counts: &Counts,
) -> Result<Option<usize>, Memory>
    requires { t < length kept.old }
    ensures keeps { OnOk result (Keeps kept.old kept.new) }
    ensures adds { OnOk result (Adds kept.old kept.new t counts.now) }
    ensures shared { IfOk result (IsShared kept.new t counts.now) }
{
    if counts.is_none() {
        return Ok(None);
    }
    let new = edge_counts(alloc, counts)?;
    let mark = mark(t, &new);
    if let Some(place) = places.get(&mark).copied() {
        if stands_at(kept[t].as_slice(), place, &new) {
            return Ok(Some(place));
        }
    }
    let place = kept[t].len();
    kept[t].push(new)?;
    places.insert(mark, place)?;
    Ok(Some(place))
}
