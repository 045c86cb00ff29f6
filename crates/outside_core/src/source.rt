ghost use Rattle.std.specs.Prelude.{◌≡◌, ℕ, List, [], ◌++◌, ◌<◌, ◌≤◌, ◌↔◌, Bool, false, length, take, IsTrue, IfOk, OnErr};
ghost use Rattle.outside_core.specs.Counts.{count_end, count_after};

use crate::failed::Failed;

/// Where bytes come from.
pub trait Source {
    /// How many calls failed so far. The number stands still at 2^64 - 1.
    ghost faults: { Self → ℕ };

    /// Whether the source tells which bytes are left. It is a matter of the type.
    ghost tells: { Bool } = { false };

    /// The bytes left, where the source tells.
    ghost left: { Self → List ℕ } = { λ _. [] };

    /// Reads bytes to the front of `into`, and answers how many. Where `into` has room, 0 means the
    /// end. What stands behind them in `into` is not said. After `Failed` the same bytes are left.
    fn read(&mut self, into: &mut [u8]) -> Result<usize, Failed>
        ensures counted { faults self.new ≡ count_after result (faults self.old) }
        ensures bounded { faults self.new ≤ count_end }
        ensures within { IfOk result (λ n. n ≤ length into.new) }
        ensures given { IfOk result (λ n. IsTrue tells →
            left self.old ≡ take n into.new ++ left self.new) }
        ensures end { IfOk result (λ n. IsTrue tells →
            0 < length into.old → ((n ≡ 0) ↔ (left self.old ≡ []))) }
        ensures failed { OnErr result (left self.new ≡ left self.old) };
}
