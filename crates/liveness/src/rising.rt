//! Numbers that rise, and rows of them.
ghost use Rattle.std.specs.Prelude.{◌≡◌, ◌≤◌, ◌<◌, ℕ, List, [], ◌∷◌, ◌++◌, cond, not, length, replicate, get_or, IfOk, OnOk};
ghost use Rattle.liveness.specs.Paths.{is_among};
ghost use Rattle.liveness.specs.Rising.{IsRising, IsAtMost, next_from, last_below, with_number, has, with_mark, lacks, AreAtMost, rows_with, IsInverse};

use std::alloc::Global;
use std::marker::Model;
use value_core::{Many, Memory};

/// Numbers, each larger than the one before it.
#[derive(Drop)]
pub struct Rising {
    numbers: Many<usize>,
}

impl Model for Rising {
    ghost Value = { List ℕ };

    ghost view = { λ rising. rising.numbers };

    ghost invariant = { λ rising. IsRising rising.numbers };
}

/// How many of some rising numbers are below a bound.
fn count_below(numbers: &[usize], bound: usize) -> usize
    requires { IsRising numbers.now }
    ensures within { result ≤ length numbers.now }
    ensures below { (i : ℕ) → i < result → get_or numbers.now i 0 < bound }
    ensures behind { (i : ℕ) → result ≤ i → i < length numbers.now → bound ≤ get_or numbers.now i 0 }
{
    let mut low = 0;
    let mut high = numbers.len();
    while low < high {
        let middle = low + (high - low) / 2;
        if numbers[middle] < bound {
            low = middle + 1;
        } else {
            high = middle;
        }
    }
    low
}

/// Whether the last of some rising numbers, of which none is larger, is a number.
fn ends_with(numbers: &[usize], number: usize) -> bool
    requires rising { IsRising numbers.now }
    requires most { IsAtMost number numbers.now }
    ensures { result ≡ is_among numbers.now number }
{
    match numbers.last() {
        Some(last) => *last == number,
        None => false,
    }
}

impl Rising {
    /// No number.
    pub fn new(alloc: Global) -> Rising
        ensures { result ≡ [] }
    {
        Rising {
            numbers: Many::new(alloc),
        }
    }

    /// The numbers as a slice.
    pub fn as_slice(&self) -> &[usize]
        ensures value { result.now ≡ self.now }
        ensures rising { IsRising result.now }
    {
        self.numbers.as_slice()
    }

    /// The first number that is not below a bound.
    pub fn next_from(&self, bound: usize) -> Option<usize>
        ensures { result ≡ next_from self.now bound }
    {
        let place = count_below(self.numbers.as_slice(), bound);
        self.numbers.get(place).copied()
    }

    /// The last number that is below a bound.
    pub fn last_below(&self, bound: usize) -> Option<usize>
        ensures { result ≡ last_below self.now bound }
    {
        let place = count_below(self.numbers.as_slice(), bound);
        if place == 0 {
            return None;
        }
        self.numbers.get(place - 1).copied()
    }

    /// Whether a number is among them.
    pub fn contains(&self, number: usize) -> bool
        ensures { result ≡ is_among self.now number }
    {
        let place = count_below(self.numbers.as_slice(), number);
        match self.numbers.get(place) {
            Some(found) => *found == number,
            None => false,
        }
    }

    /// Puts a number at the end unless it is there, and says whether it was not.
    pub fn add(&mut self, number: usize) -> Result<bool, Memory>
        requires { IsAtMost number self.old }
        ensures is_new { IfOk result (λ is_new. is_new ≡ not (is_among self.old number)) }
        ensures adds { OnOk result (self.new ≡ with_number self.old number) }
    {
        if ends_with(self.numbers.as_slice(), number) {
            return Ok(false);
        }
        self.numbers.push(number)?;
        Ok(true)
    }
}

/// Whether a number stands in a row.
pub(crate) fn stands(rows: &[Rising], number: usize, t: usize) -> bool
    ensures { result ≡ has rows.now number t }
{
    match rows.get(t) {
        Some(row) => row.contains(number),
        None => false,
    }
}

/// Puts a number at the end of a row unless it is there, and says whether it was not.
pub(crate) fn mark(rows: &mut [Rising], number: usize, t: usize) -> Result<bool, Memory>
    requires { IsAtMost number (get_or rows.old t []) }
    ensures is_new { IfOk result (λ is_new. is_new ≡ lacks rows.old number t) }
    ensures marks { OnOk result (rows.new ≡ with_mark rows.old number t) }
{
    if t < rows.len() {
        rows[t].add(number)
    } else {
        Ok(false)
    }
}

/// Puts a number at the end of the rows of some others.
fn mark_all(rows: &mut [Rising], number: usize, keys: &[usize]) -> Result<(), Memory>
    requires { AreAtMost number rows.old }
    ensures { OnOk result ((k : ℕ) → k < length rows.old → get_or rows.new k [] ≡ cond (is_among keys.now k) (with_number (get_or rows.old k []) number) (get_or rows.old k [])) }
{
    for key in keys {
        mark(rows, number, *key)?;
    }
    Ok(())
}

/// Puts the number of each row at the end of the rows of what stands in it.
fn turn(rows: &[Many<usize>], inverse: &mut [Rising]) -> Result<(), Memory>
    requires { (k : ℕ) → get_or inverse.old k [] ≡ [] }
    ensures size { length inverse.new ≡ length inverse.old }
    ensures turns { OnOk result (IsInverse rows.now inverse.new) }
{
    for (number, row) in rows.iter().enumerate() {
        mark_all(inverse, number, row.as_slice())?;
    }
    Ok(())
}

/// So many empty rows.
pub(crate) fn empty_rows(alloc: Global, count: usize) -> Result<Vec<Rising>, Memory>
    ensures { IfOk result (λ rows. rows.items ≡ replicate count []) }
{
    let mut rows = Vec::new(alloc);
    for _ in 0..count {
        rows.push(Rising::new(alloc))?;
    }
    Ok(rows)
}

/// Of each number below a count the rows in which it stands.
pub(crate) fn inverse(
    alloc: Global,
    rows: &[Many<usize>],
    count: usize,
) -> Result<Many<Rising>, Memory>
    ensures size { IfOk result (λ inverse. length inverse ≡ count) }
    ensures turns { IfOk result (λ inverse. IsInverse rows.now inverse) }
{
    let mut inverse = empty_rows(alloc, count)?;
    turn(rows, inverse.as_mut_slice())?;
    Ok(Many::from_vec(inverse))
}

/// The rows as plain lists.
pub(crate) fn as_rows(alloc: Global, rising: &[Rising]) -> Result<Many<Many<usize>>, Memory>
    ensures { IfOk result (λ rows. rows ≡ rising.now) }
{
    let mut rows = Vec::new(alloc);
    for row in rising {
        rows.push(Many::from_slice(alloc, row.as_slice())?)?;
    }
    Ok(Many::from_vec(rows))
}
