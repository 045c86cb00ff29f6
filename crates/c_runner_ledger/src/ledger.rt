use crate::few::Few;
use crate::numbers::Numbers;
use crate::wide::Wide;
use std::alloc::Global;
use std::marker::Model;
use value_core::Memory;

/// The cells that a frame owns, by their numbers. Contracts see the list of the numbers, each as often as it is owned.
#[derive(Drop)]
pub struct Ledger {
    alloc: Global,
    held: Held,
}

/// One number, which takes no memory: many frames own one cell and no other. A few in a list, which most others have.
/// Any number of them in a map.
#[derive(Drop)]
pub(crate) enum Held {
    Once(Wide),
    Few(Few),
    Several(Numbers),
}

impl Model for Ledger {
    ghost use Rattle.std.specs.Prelude.{ℕ, List};

    ghost Value = { List ℕ };

    ghost use Rattle.c_runner_ledger.specs.Held.{held_numbers};

    ghost view = { λ ledger. held_numbers ledger.held };
}

impl Ledger {
    ghost use Rattle.std.specs.Prelude.{◌≡◌, ◌↔◌, ◌<◌, ◌^◌, [], false, nat_lt, IsTrue, OnOk};
    ghost use Rattle.c_core.specs.Cells.{times};
    ghost use Rattle.c_core.specs.Ledgers.{more, without};
    ghost use Rattle.c_runner_ledger.specs.Ledgers.{is_only};

    /// Nothing is owned. It takes no memory.
    pub fn new(alloc: Global) -> Ledger
        ensures { result ≡ [] }
    {
        Ledger {
            alloc,
            held: Held::Few(Few::new(alloc)),
        }
    }

    /// Adds one reference to a cell.
    pub fn add(&mut self, c: u128) -> Result<(), Memory>
        requires countable { times self.old c < 2 ^ 128 }
        ensures { OnOk result (self.new ≡ more c self.old) }
    {
        match &mut self.held {
            Held::Once(first) => {
                let mut few = Few::new(self.alloc);
                few.add(first.number())?;
                few.add(c)?;
                self.held = Held::Few(few);
            }
            Held::Few(few) => {
                if few.is_unused() {
                    self.held = Held::Once(Wide::of(c));
                } else if few.is_full() {
                    let mut numbers = Numbers::of(self.alloc, few.as_slice())?;
                    numbers.add(c)?;
                    self.held = Held::Several(numbers);
                } else {
                    few.add(c)?;
                }
            }
            Held::Several(numbers) => numbers.add(c)?,
        }
        Ok(())
    }

    /// Takes one reference to a cell out, and says whether there was one.
    pub fn take(&mut self, c: u128) -> bool
        ensures owned { result ≡ nat_lt 0 (times self.old c) }
        ensures taken { self.new ≡ without c self.old }
        ensures kept { result ≡ false → self.new ≡ self.old }
    {
        match &mut self.held {
            Held::Once(first) => {
                if first.number() != c {
                    return false;
                }
                self.held = Held::Few(Few::new(self.alloc));
                true
            }
            Held::Few(few) => few.take(c),
            Held::Several(numbers) => {
                let was_owned = numbers.take(c);
                if numbers.is_empty() {
                    self.held = Held::Few(Few::new(self.alloc));
                }
                was_owned
            }
        }
    }

    /// Whether there is any reference to a cell.
    pub fn owns(&self, c: u128) -> bool
        ensures { result ≡ nat_lt 0 (times self.now c) }
    {
        self.owns_more_than(c, 0)
    }

    /// Whether there are more references to a cell than so many.
    pub fn owns_more_than(&self, c: u128, n: usize) -> bool
        ensures { result ≡ nat_lt n (times self.now c) }
    {
        match &self.held {
            Held::Once(first) => n == 0 && first.number() == c,
            Held::Few(few) => few.owns_more_than(c, n),
            Held::Several(numbers) => numbers.owns_more_than(c, n),
        }
    }

    /// Whether one reference to a cell is all that is owned.
    pub fn owns_only(&self, c: u128) -> bool
        ensures { result ≡ is_only c self.now }
    {
        match &self.held {
            Held::Once(first) => first.number() == c,
            Held::Few(few) => few.owns_only(c),
            Held::Several(numbers) => numbers.owns_only(c),
        }
    }

    /// Whether nothing is owned.
    pub fn is_empty(&self) -> bool
        ensures { IsTrue result ↔ (self.now ≡ []) }
    {
        match &self.held {
            Held::Once(_) => false,
            Held::Few(few) => few.is_empty(),
            Held::Several(numbers) => numbers.is_empty(),
        }
    }
}
