use std::alloc::Global;
use std::collections::BTreeMap;
use std::marker::Model;
use value_core::Memory;

/// The cells that a frame owns, by their numbers: for each how often the frame owns it beyond the first time. Contracts
/// see the list of the numbers, each as often as it is owned.
#[derive(Drop)]
pub(crate) struct Numbers {
    further: BTreeMap<u128, u128>,
}

impl Model for Numbers {
    ghost use Rattle.std.specs.Prelude.{ℕ, List};
    ghost use Rattle.c_runner_ledger.specs.Ledgers.{numbers_of};

    ghost Value = { List ℕ };

    ghost view = { λ ledger. numbers_of ledger.further.entries };
}

impl Numbers {
    ghost use Rattle.std.specs.Prelude.{◌≡◌, ◌↔◌, ◌<◌, ◌^◌, [], false, nat_lt, IsTrue, IfOk, OnOk};
    ghost use Rattle.c_core.specs.Cells.{times};
    ghost use Rattle.c_core.specs.Ledgers.{more, without, Ascends};
    ghost use Rattle.c_runner_ledger.specs.Ledgers.{is_only};

    /// Nothing is owned. It takes no memory.
    pub fn new(alloc: Global) -> Numbers
        ensures { result ≡ [] }
    {
        Numbers {
            further: BTreeMap::new(alloc),
        }
    }

    /// The numbers of a list that ascends.
    pub fn of(alloc: Global, list: &[u128]) -> Result<Numbers, Memory>
        requires { Ascends list.now }
        ensures { IfOk result (λ numbers. numbers ≡ list.now) }
    {
        let mut numbers = Numbers::new(alloc);
        for place in (0..list.len()).rev() {
            numbers.add(list[place])?;
        }
        Ok(numbers)
    }

    /// Adds one reference to a cell.
    pub fn add(&mut self, c: u128) -> Result<(), Memory>
        requires countable { times self.old c < 2 ^ 128 }
        ensures { OnOk result (self.new ≡ more c self.old) }
    {
        let further = match self.further.get(&c) {
            None => 0,
            Some(further) => *further + 1,
        };
        self.further.insert(c, further)?;
        Ok(())
    }

    /// Takes one reference to a cell out, and says whether there was one.
    pub fn take(&mut self, c: u128) -> bool
        ensures owned { result ≡ nat_lt 0 (times self.old c) }
        ensures taken { self.new ≡ without c self.old }
        ensures kept { result ≡ false → self.new ≡ self.old }
    {
        let is_last = match self.further.get_mut(&c) {
            None => return false,
            Some(further) => {
                if *further > 0 {
                    *further -= 1;
                    return true;
                }
                true
            }
        };
        self.further.remove(&c);
        is_last
    }

    /// Whether there are more references to a cell than so many.
    pub fn owns_more_than(&self, c: u128, n: usize) -> bool
        ensures { result ≡ nat_lt n (times self.now c) }
    {
        // Its contract says that no number has two entries.
        let _entries = self.further.len();
        match self.further.get(&c) {
            None => false,
            Some(further) => n as u128 <= *further,
        }
    }

    /// Whether one reference to a cell is all that is owned.
    pub fn owns_only(&self, c: u128) -> bool
        ensures { result ≡ is_only c self.now }
    {
        match self.further.get(&c) {
            None => false,
            Some(further) => {
                if *further > 0 {
                    false
                } else {
                    self.further.len() == 1
                }
            }
        }
    }

    /// Whether nothing is owned.
    pub fn is_empty(&self) -> bool
        ensures { IsTrue result ↔ (self.now ≡ []) }
    {
        self.further.is_empty()
    }
}
