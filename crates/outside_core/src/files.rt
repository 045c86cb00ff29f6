ghost use Rattle.std.specs.Prelude.{◌≡◌, ℕ, List, [], ◌++◌, ◌<◌, ◌≤◌, ◌↔◌, Bool, false, Option, Some, None, length, take, is_ok, is_none, IsTrue, IfOk, OnOk, OnErr};
ghost use Rattle.outside_core.specs.Counts.{count_end, count_after, count_if};

use crate::failed::Failed;

/// Files by their names, of which at most one is open at a time.
pub trait Files {
    /// How many calls failed so far. The number stands still at 2^64 - 1.
    ghost faults: { Self → ℕ };

    /// Whether a file is open.
    ghost is_open: { Self → Bool };

    /// Whether the files tell their content. It is a matter of the type.
    ghost tells: { Bool } = { false };

    /// The bytes of a name, or that it is absent. No call changes them.
    ghost content: { Self → List ℕ → Option (List ℕ) } = { λ _ _. None };

    /// The bytes left of the open file.
    ghost left: { Self → List ℕ } = { λ _. [] };

    /// How many times an absent name was to be opened. The number stands still at 2^64 - 1.
    ghost absent_opens: { Self → ℕ } = { λ _. 0 };

    /// Opens the file of this name; one that was open is open no more. An absent name is `Failed`,
    /// and after `Failed` no file is open.
    fn open_file(&mut self, name: &str) -> Result<(), Failed>
        ensures counted { faults self.new ≡ count_after result (faults self.old) }
        ensures bounded { faults self.new ≤ count_end }
        ensures opened { is_open self.new ≡ is_ok result }
        ensures found { OnOk result (IsTrue tells →
            content self.old name.now ≡ Some (left self.new)) }
        ensures absent { IsTrue tells → absent_opens self.new
            ≡ count_if (is_none (content self.old name.now)) (absent_opens self.old) }
        ensures absent_bounded { absent_opens self.new ≤ count_end }
        ensures kept { content self.new ≡ content self.old };

    /// Reads bytes of the open file to the front of `into`, and answers how many. Where `into` has
    /// room, 0 means the end. What stands behind them in `into` is not said. The file stays open,
    /// and after `Failed` it has the same bytes left.
    fn read(&mut self, into: &mut [u8]) -> Result<usize, Failed>
        requires { IsTrue (is_open self.old) }
        ensures counted { faults self.new ≡ count_after result (faults self.old) }
        ensures bounded { faults self.new ≤ count_end }
        ensures stays_open { IsTrue (is_open self.new) }
        ensures within { IfOk result (λ n. n ≤ length into.new) }
        ensures given { IfOk result (λ n. IsTrue tells →
            left self.old ≡ take n into.new ++ left self.new) }
        ensures end { IfOk result (λ n. IsTrue tells →
            0 < length into.old → ((n ≡ 0) ↔ (left self.old ≡ []))) }
        ensures failed { OnErr result (left self.new ≡ left self.old) }
        ensures absent { absent_opens self.new ≡ absent_opens self.old }
        ensures kept { content self.new ≡ content self.old };
}
