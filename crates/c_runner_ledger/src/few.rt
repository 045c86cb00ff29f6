ghost use Rattle.std.specs.Prelude.{◌≡◌, ◌≤◌, ◌==◌, nat_le, length, position, count_by, insert};
ghost use Rattle.c_core.specs.Ledgers.{more};

use std::alloc::Global;
use std::marker::Model;
use value_core::Memory;

/// The most numbers that a short list is to have: a walk over so many costs less than a look-up in a map.
const MOST: usize = 12;

/// The numbers of cells in a short list that ascends, each as often as a frame owns its cell. Contracts see that list.
#[derive(Drop)]
pub(crate) struct Few {
    numbers: Vec<u128>,
}

impl Model for Few {
    ghost use Rattle.std.specs.Prelude.{ℕ, List};
    ghost use Rattle.c_core.specs.Ledgers.{Ascends};

    ghost Value = { List ℕ };

    ghost view = { λ few. few.numbers.items };

    ghost invariant = { λ few. Ascends few.numbers.items };
}

/// The first place of a number that is not below another one.
fn place_not_below(numbers: &[u128], c: u128) -> Option<usize>
    ensures { result ≡ position (λ number. nat_le c number) numbers.now }
{
    numbers.iter().position(|number| c <= *number)
}

/// The place at which a number goes in.
fn place_for(numbers: &[u128], c: u128) -> usize
    ensures within { result ≤ length numbers.now }
    ensures place { insert numbers.now result c ≡ more c numbers.now }
{
    match place_not_below(numbers, c) {
        Some(place) => place,
        None => numbers.len(),
    }
}

/// The first place of a number.
fn place_of(numbers: &[u128], c: u128) -> Option<usize>
    ensures { result ≡ position (λ number. number == c) numbers.now }
{
    numbers.iter().position(|number| *number == c)
}

/// How often a number is there.
fn count_of(numbers: &[u128], c: u128) -> usize
    ensures { result ≡ count_by (λ number. number == c) numbers.now }
{
    numbers.iter().filter(|number| **number == c).count()
}

impl Few {
    ghost use Rattle.std.specs.Prelude.{◌≡◌, ◌↔◌, [], false, length, nat_le, nat_lt, IsTrue, OnOk};
    ghost use Rattle.c_core.specs.Cells.{times};
    ghost use Rattle.c_core.specs.Ledgers.{more, without, Ascends};
    ghost use Rattle.c_runner_ledger.specs.Ledgers.{is_only};

    /// Nothing is owned. It takes no memory.
    pub fn new(alloc: Global) -> Few
        ensures { result ≡ [] }
    {
        Few {
            numbers: Vec::new(alloc),
        }
    }

    /// The numbers as a slice.
    pub fn as_slice(&self) -> &[u128]
        ensures value { result.now ≡ self.now }
        ensures ascends { Ascends result.now }
    {
        self.numbers.as_slice()
    }

    /// Whether there is no number, nor memory for one.
    pub fn is_unused(&self) -> bool
        ensures { IsTrue result → self.now ≡ [] }
    {
        self.numbers.is_empty() && self.numbers.capacity() == 0
    }

    /// Whether no further number is to be added.
    pub fn is_full(&self) -> bool
        ensures { result ≡ nat_le MOST (length self.now) }
    {
        self.numbers.len() >= MOST
    }

    /// Adds one reference to a cell.
    pub fn add(&mut self, c: u128) -> Result<(), Memory>
        ensures { OnOk result (self.new ≡ more c self.old) }
    {
        let place = place_for(self.numbers.as_slice(), c);
        self.numbers.insert(place, c)?;
        Ok(())
    }

    /// Takes one reference to a cell out, and says whether there was one.
    pub fn take(&mut self, c: u128) -> bool
        ensures owned { result ≡ nat_lt 0 (times self.old c) }
        ensures taken { self.new ≡ without c self.old }
        ensures kept { result ≡ false → self.new ≡ self.old }
    {
        match place_of(self.numbers.as_slice(), c) {
            Some(place) => {
                self.numbers.remove(place);
                true
            }
            None => false,
        }
    }

    /// Whether there are more references to a cell than so many.
    pub fn owns_more_than(&self, c: u128, n: usize) -> bool
        ensures { result ≡ nat_lt n (times self.now c) }
    {
        n < count_of(self.numbers.as_slice(), c)
    }

    /// Whether one reference to a cell is all that is owned.
    pub fn owns_only(&self, c: u128) -> bool
        ensures { result ≡ is_only c self.now }
    {
        let numbers = self.numbers.as_slice();
        numbers.len() == 1 && numbers[0] == c
    }

    /// Whether nothing is owned.
    pub fn is_empty(&self) -> bool
        ensures { IsTrue result ↔ (self.now ≡ []) }
    {
        self.numbers.is_empty()
    }
}
