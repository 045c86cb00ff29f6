ghost use Rattle.std.specs.Prelude.{◌≡◌, ℕ, List, [], ◌++◌, ◌<◌, ◌≤◌, Bool, false, length, take, IsTrue, IfOk, OnErr};
ghost use Rattle.outside_core.specs.Counts.{count_end, count_after};

use crate::failed::Failed;

/// Where bytes go.
pub trait Sink {
    /// How many calls failed so far. The number stands still at 2^64 - 1.
    ghost faults: { Self → ℕ };

    /// Whether the sink tells which bytes it took. It is a matter of the type.
    ghost tells: { Bool } = { false };

    /// The bytes taken so far, where the sink tells.
    ghost taken: { Self → List ℕ } = { λ _. [] };

    /// Takes bytes from the front of a piece, and answers how many: at least one, where the piece
    /// has any. After `Failed` nothing of the piece was taken.
    fn write(&mut self, piece: &[u8]) -> Result<usize, Failed>
        ensures counted { faults self.new ≡ count_after result (faults self.old) }
        ensures bounded { faults self.new ≤ count_end }
        ensures within { IfOk result (λ n. n ≤ length piece.now) }
        ensures some { IfOk result (λ n. 0 < length piece.now → 0 < n) }
        ensures taken { IfOk result (λ n. IsTrue tells →
            taken self.new ≡ taken self.old ++ take n piece.now) }
        ensures failed { OnErr result (taken self.new ≡ taken self.old) };

    /// Passes on what the sink may hold back. Nothing more is taken.
    fn flush(&mut self) -> Result<(), Failed>
        ensures counted { faults self.new ≡ count_after result (faults self.old) }
        ensures bounded { faults self.new ≤ count_end }
        ensures taken { taken self.new ≡ taken self.old };
}
