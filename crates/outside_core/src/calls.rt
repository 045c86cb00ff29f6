ghost use Rattle.std.specs.Prelude.{◌≡◌, ◌≤◌, is_ok, not};
ghost use Rattle.outside_core.specs.Schedule.{schedule, is_refused, after_call};
ghost use Rattle.outside_core.specs.Counts.{count_end, one_more};

use crate::failed::Failed;
use crate::faults::Faults;
use std::marker::Model;

/// The calls of an object in memory: their numbers, those that are to fail, and how many failed.
#[derive(Drop)]
pub(crate) struct Calls {
    fails: Vec<u64>,
    next: u64,
    faults: Faults,
}

impl Model for Calls {
    ghost use Rattle.outside_core.specs.Schedule.{Schedule};

    ghost Value = { Schedule };

    ghost view = { λ calls. record {
      fails = calls.fails.items;
      next = calls.next;
      faults = calls.faults;
    } };
}

impl Calls {
    /// No call was made. Those with a number in the list are to fail; the first has number 0.
    pub(crate) fn new(fails: Vec<u64>) -> Calls
        ensures { result ≡ schedule fails.items }
    {
        Calls {
            fails,
            next: 0,
            faults: Faults::new(),
        }
    }

    /// Makes the next call, unless it is to fail.
    pub(crate) fn make(&mut self) -> Result<(), Failed>
        ensures answer { is_ok result ≡ not (is_refused self.old) }
        ensures after { self.new ≡ after_call self.old (is_ok result) }
        ensures bounded { self.new.faults ≤ count_end }
    {
        let is_refused = self.fails.contains(&self.next);
        self.next = self.next.saturating_add(1);
        self.faults
            .counted(if is_refused { Err(Failed) } else { Ok(()) })
    }

    /// Counts one more fault.
    pub(crate) fn refuse(&mut self) -> Failed
        ensures after { self.new ≡ record self.old { faults = one_more self.old.faults } }
        ensures bounded { self.new.faults ≤ count_end }
    {
        self.faults.refuse()
    }

    /// How many calls failed.
    pub(crate) fn faults(&self) -> u64
        ensures { result ≡ self.now.faults }
    {
        self.faults.count()
    }
}
