//! What each two of some counts of edges have in common, and what each of them has alone.
ghost use Rattle.std.specs.Prelude.{◌≡◌, ◌≤◌, ◌<◌, ◌+◌, ℕ, suc, take, length, IfOk, OnOk};
ghost use Rattle.c_core.specs.Cells.{same, times};
ghost use Rattle.refcount_insert.specs.Pairs.{IsSum, IsPair, IsAlone, AreParted};

use crate::sharing::{EdgeCounts, copy_counts, no_counts};
use std::alloc::Global;
use value_core::{Many, Memory};

/// What two lists have in common, and what each has alone.
#[derive(Drop)]
struct Split {
    common: Many<usize>,
    first: Many<usize>,
    second: Many<usize>,
}

/// The same of two counts.
#[derive(Drop)]
struct Halves {
    common: EdgeCounts,
    first: EdgeCounts,
    second: EdgeCounts,
}

/// What counts have alone, and where the counts stand that they share with others.
#[derive(Drop)]
pub struct Part {
    pub own: EdgeCounts,
    pub over: usize,
}

/// Counts in parts, and what they share.
#[derive(Drop)]
pub(crate) struct Parted {
    pub(crate) parts: Vec<Part>,
    pub(crate) commons: Vec<EdgeCounts>,
}

/// Puts numbers from a place on behind others, as long as they are below a bound, and tells where that ends.
fn push_below(
    rest: &mut Vec<usize>,
    numbers: &[usize],
    place: usize,
    bound: usize,
) -> Result<usize, Memory>
    requires { place ≤ length numbers.now }
    ensures within { IfOk result (λ end. end ≤ length numbers.now) }
    ensures pushed { IfOk result (λ end. (r : ℕ) → times rest.new.items r + times (take place numbers.now) r ≡ times rest.old.items r + times (take end numbers.now) r) }
{
    for i in place..numbers.len() {
        let number = numbers[i];
        if number >= bound {
            return Ok(i);
        }
        rest.push(number)?;
    }
    Ok(numbers.len())
}

/// Puts a number behind what is common, where it stands at a place of a second list, which is then passed, and else behind what
/// the first list has alone.
fn push_either(
    common: &mut Vec<usize>,
    first: &mut Vec<usize>,
    second: &[usize],
    place: usize,
    number: usize,
) -> Result<usize, Memory>
    requires { place ≤ length second.now }
    ensures within { IfOk result (λ end. end ≤ length second.now) }
    ensures first { OnOk result ((r : ℕ) → times common.new.items r + times first.new.items r ≡ times common.old.items r + times first.old.items r + same number r) }
    ensures second { IfOk result (λ end. (r : ℕ) → times common.new.items r + times (take place second.now) r ≡ times common.old.items r + times (take end second.now) r) }
{
    if place < second.len() && second[place] == number {
        common.push(number)?;
        Ok(place + 1)
    } else {
        first.push(number)?;
        Ok(place)
    }
}

/// Two lists, by what they have in common. Of rising lists that is all that stands in both.
fn split_lists(alloc: Global, a: &[usize], b: &[usize]) -> Result<Split, Memory>
    ensures first { IfOk result (λ s. (r : ℕ) → times s.common r + times s.first r ≡ times a.now r) }
    ensures second { IfOk result (λ s. (r : ℕ) → times s.common r + times s.second r ≡ times b.now r) }
{
    let mut common = Vec::new(alloc);
    let mut first = Vec::new(alloc);
    let mut second = Vec::new(alloc);
    let mut place = 0usize;
    for x in a {
        let next = push_below(&mut second, b, place, *x)?;
        place = push_either(&mut common, &mut first, b, next, *x)?;
    }
    second.extend_from_slice(&b[place..])?;
    Ok(Split {
        common: Many::from_vec(common),
        first: Many::from_vec(first),
        second: Many::from_vec(second),
    })
}

fn halve(alloc: Global, a: &EdgeCounts, b: &EdgeCounts) -> Result<Halves, Memory>
    ensures first { IfOk result (λ h. IsSum h.common h.first a.now) }
    ensures second { IfOk result (λ h. IsSum h.common h.second b.now) }
{
    let ups = split_lists(alloc, a.ups.as_slice(), b.ups.as_slice())?;
    let downs = split_lists(alloc, a.downs.as_slice(), b.downs.as_slice())?;
    Ok(Halves {
        common: EdgeCounts {
            ups: ups.common,
            downs: downs.common,
        },
        first: EdgeCounts {
            ups: ups.first,
            downs: downs.first,
        },
        second: EdgeCounts {
            ups: ups.second,
            downs: downs.second,
        },
    })
}

/// Puts two counts, by what they have in common, behind others.
fn push_pair(
    alloc: Global,
    parts: &mut Vec<Part>,
    commons: &mut Vec<EdgeCounts>,
    a: &EdgeCounts,
    b: &EdgeCounts,
) -> Result<(), Memory>
    ensures { OnOk result (IsPair parts.old.items commons.old.items a.now b.now parts.new.items commons.new.items) }
{
    let over = commons.len();
    let pair = halve(alloc, a, b)?;
    parts.push(Part {
        own: pair.first,
        over,
    })?;
    parts.push(Part {
        own: pair.second,
        over,
    })?;
    commons.push(pair.common)?;
    Ok(())
}

/// Puts counts that share nothing with others behind others: all of them are common.
fn push_alone(
    alloc: Global,
    parts: &mut Vec<Part>,
    commons: &mut Vec<EdgeCounts>,
    counts: &EdgeCounts,
) -> Result<(), Memory>
    ensures { OnOk result (IsAlone parts.old.items commons.old.items counts.now parts.new.items commons.new.items) }
{
    let over = commons.len();
    let copy = copy_counts(alloc, counts)?;
    parts.push(Part {
        own: no_counts(alloc),
        over,
    })?;
    commons.push(copy)?;
    Ok(())
}

/// Each two of some counts that stand side by side, by what they have in common; a last one alone is all common.
pub(crate) fn in_parts(alloc: Global, all: &[EdgeCounts]) -> Result<Parted, Memory>
    ensures are { IfOk result (λ p. AreParted all.now p.parts.items p.commons.items) }
    ensures size { IfOk result (λ p. length p.parts.items ≡ length all.now) }
    ensures few { IfOk result (λ p. length p.commons.items + length p.commons.items ≤ suc (length all.now)) }
{
    let mut parts = Vec::new(alloc);
    let mut commons = Vec::new(alloc);
    let mut i = 0usize;
    while i + 1 < all.len() {
        push_pair(alloc, &mut parts, &mut commons, &all[i], &all[i + 1])?;
        i += 2;
    }
    if i < all.len() {
        push_alone(alloc, &mut parts, &mut commons, &all[i])?;
    }
    Ok(Parted { parts, commons })
}
