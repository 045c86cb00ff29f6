ghost use Rattle.std.specs.Prelude.{◌≡◌, ◌≤◌, Ok, is_ok, IfOk};
ghost use Rattle.outside_core.specs.Counts.{count_end, one_more, count_after};

use crate::failed::Failed;
use std::marker::Model;

/// How many calls failed. Contracts see it as the number, which stands still at 2^64 - 1.
#[derive(Drop)]
pub(crate) struct Faults {
    count: u64,
}

impl Model for Faults {
    ghost use Rattle.std.specs.Prelude.{ℕ};

    ghost Value = { ℕ };

    ghost view = { λ faults. faults.count };
}

impl Faults {
    /// No call failed.
    pub(crate) fn new() -> Faults
        ensures { result ≡ 0 }
    {
        Faults { count: 0 }
    }

    /// The number.
    pub(crate) fn count(&self) -> u64
        ensures { result ≡ self.now }
    {
        self.count
    }

    /// Counts one more fault.
    pub(crate) fn refuse(&mut self) -> Failed
        ensures after { self.new ≡ one_more self.old }
        ensures bounded { self.new ≤ count_end }
    {
        self.count = self.count.saturating_add(1);
        Failed
    }

    /// The answer of a call, counted where the call failed.
    pub(crate) fn counted<T, E: Drop>(&mut self, answer: Result<T, E>) -> Result<T, Failed>
        ensures ok { IfOk result (λ x. answer ≡ Ok x) }
        ensures same { is_ok result ≡ is_ok answer }
        ensures after { self.new ≡ count_after result self.old }
        ensures bounded { self.new ≤ count_end }
    {
        self.count = self.count.saturating_add(u64::from(answer.is_err()));
        answer.ok().ok_or(Failed)
    }
}
