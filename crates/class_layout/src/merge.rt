//! The merge of rows of classes into one (C3): again and again the first head that stands in no row behind its head.
ghost use Rattle.std.specs.Prelude.{◌≡◌, ◌+◌, ◌<◌, ◌==◌, ◌∷◌, [], true, ℕ, IfOk, OnOk, map, find, take, length, get_or, slice_get, Some};
ghost use Rattle.py_typed.specs.Order as order;
ghost use Rattle.py_typed.specs.Order.{is_free, heads, headless};
ghost use Rattle.class_layout.specs.Merging.{has_first, next, once, rows_of, entries, times, times_behind, is_below, are_below, behind};

use std::alloc::Global;
use value_core::{Many, Memory};

/// The rows as one behind what comes first, where the numbers of all classes are below `count`: `None` where at some point no
/// head is free.
pub fn merge(
    alloc: Global,
    first: Many<usize>,
    rows: &mut [&[usize]],
    count: usize,
) -> Result<Option<Many<usize>>, Memory>
    requires { are_below count (rows_of rows.old) ≡ true }
    ensures { IfOk result (λ merged. merged ≡ behind first (order.merge (rows_of rows.old))) }
{
    let entries = entries_in(rows)?;
    let mut behind = count_behind(alloc, rows, count)?;
    let mut merged = first;
    for _ in 0..entries {
        let Some(class) = free_head(rows, &behind) else {
            return Ok(if has_head(rows) { None } else { Some(merged) });
        };
        count_off(&mut behind, rows, class);
        take(rows, class);
        merged.push(class)?;
    }
    Ok(Some(merged))
}

/// How many entries the rows have.
fn entries_in(rows: &[&[usize]]) -> Result<usize, Memory>
    ensures { IfOk result (λ count. count ≡ entries (rows_of rows.now)) }
{
    let mut count = 0usize;
    for row in rows {
        count = count.checked_add(row.len()).ok_or(Memory)?;
    }
    Ok(count)
}

/// How often each class stands behind a head.
fn count_behind(alloc: Global, rows: &[&[usize]], count: usize) -> Result<Many<usize>, Memory>
    requires { are_below count (rows_of rows.now) ≡ true }
    ensures { IfOk result (λ behind. (c : ℕ) → get_or behind c 0 ≡ times_behind c (rows_of rows.now)) }
{
    let mut behind = zeros(alloc, count)?;
    for row in rows {
        if let Some((_, rest)) = row.split_first() {
            add_row(&mut behind, rest)?;
        }
    }
    Ok(behind)
}

fn zeros(alloc: Global, count: usize) -> Result<Many<usize>, Memory>
    ensures zeros { IfOk result (λ all. (c : ℕ) → get_or all c 0 ≡ 0) }
    ensures length { IfOk result (λ all. length all ≡ count) }
{
    let mut all = Many::new(alloc);
    for _ in 0..count {
        all.push(0)?;
    }
    Ok(all)
}

/// Counts each class of a row once more.
fn add_row(behind: &mut Many<usize>, row: &[usize]) -> Result<(), Memory>
    requires { is_below (length behind.old) row.now ≡ true }
    ensures counted { OnOk result ((c : ℕ) → get_or behind.new c 0 ≡ get_or behind.old c 0 + times c row.now) }
    ensures length { OnOk result (length behind.new ≡ length behind.old) }
{
    for class in row {
        add(behind, *class)?;
    }
    Ok(())
}

/// Counts a class once more.
fn add(behind: &mut Many<usize>, class: usize) -> Result<(), Memory>
    requires { class < length behind.old }
    ensures counted { OnOk result ((c : ℕ) → get_or behind.new c 0 ≡ get_or behind.old c 0 + times c (class ∷ [])) }
    ensures length { OnOk result (length behind.new ≡ length behind.old) }
{
    let times = times_of(behind, class);
    let times = times.checked_add(1).ok_or(Memory)?;
    behind.set(class, times);
    Ok(())
}

/// Counts a class once less.
fn subtract(behind: &mut Many<usize>, class: usize)
    requires { 0 < get_or behind.old class 0 }
    ensures { (c : ℕ) → get_or behind.old c 0 ≡ get_or behind.new c 0 + times c (class ∷ []) }
{
    let times = times_of(behind, class);
    behind.set(class, times - 1);
}

fn times_of(behind: &Many<usize>, class: usize) -> usize
    ensures { result ≡ get_or behind.now class 0 }
{
    match behind.get(class) {
        Some(times) => *times,
        None => 0,
    }
}

/// The first head that stands behind no other.
fn free_head(rows: &[&[usize]], behind: &Many<usize>) -> Option<usize>
    requires { (c : ℕ) → get_or behind.now c 0 ≡ times_behind c (rows_of rows.now) }
    ensures { result ≡ find (is_free (rows_of rows.now)) (heads (rows_of rows.now)) }
{
    for row in rows {
        if let Some(class) = unmet_head(row, behind) {
            return Some(class);
        }
    }
    None
}

/// The head of a row, if it was counted nowhere.
fn unmet_head(row: &[usize], behind: &Many<usize>) -> Option<usize>
    ensures { result ≡ find (λ c. get_or behind.now c 0 == 0) (take 1 row.now) }
{
    let class = *row.first()?;
    if times_of(behind, class) == 0 {
        Some(class)
    } else {
        None
    }
}

/// Whether a row is left that has a head.
fn has_head(rows: &[&[usize]]) -> bool
    ensures { result ≡ has_first (heads (rows_of rows.now)) }
{
    for row in rows {
        if !row.is_empty() {
            return true;
        }
    }
    false
}

/// Counts once less what comes to the head where a class is taken from the heads.
fn count_off(behind: &mut Many<usize>, rows: &[&[usize]], class: usize)
    requires { (c : ℕ) → get_or behind.old c 0 ≡ times_behind c (rows_of rows.now) }
    ensures { (c : ℕ) → get_or behind.new c 0 ≡ times_behind c (map (headless class) (rows_of rows.now)) }
{
    for row in rows {
        count_off_row(behind, row, class);
    }
}

fn count_off_row(behind: &mut Many<usize>, row: &[usize], class: usize)
    requires { (x : ℕ) → next row.now class ≡ Some x → 0 < get_or behind.old x 0 }
    ensures { (c : ℕ) → get_or behind.old c 0 ≡ get_or behind.new c 0 + once c (next row.now class) }
{
    if let Some(next) = next_head(row, class) {
        subtract(behind, next);
    }
}

/// What comes to the head of a row where a class is taken from it.
fn next_head(row: &[usize], class: usize) -> Option<usize>
    ensures { result ≡ next row.now class }
{
    if row.first() == Some(&class) {
        row.get(1).copied()
    } else {
        None
    }
}

/// Takes a class from all heads.
fn take(rows: &mut [&[usize]], class: usize)
    ensures { rows_of rows.new ≡ map (headless class) (rows_of rows.old) }
{
    for row in rows.iter_mut() {
        if let Some((head, rest)) = row.split_first() {
            if *head == class {
                *row = rest;
            }
        }
    }
}
