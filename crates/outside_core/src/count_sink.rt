ghost use Rattle.std.specs.Prelude.{◌≡◌, ◌+◌, min, length, Ok, IsOk};
ghost use Rattle.outside_core.specs.Counts.{count_end};

use crate::failed::Failed;
use crate::sink::Sink;
use std::marker::Model;

/// A sink that never fails and keeps only how many bytes it took. Contracts see it as that number,
/// which stands still at 2^64 - 1.
#[derive(Default, Drop)]
pub struct CountSink {
    taken: u64,
}

impl Model for CountSink {
    ghost use Rattle.std.specs.Prelude.{ℕ};

    ghost Value = { ℕ };

    ghost view = { λ sink. sink.taken };
}

impl CountSink {
    /// A sink that took nothing.
    pub fn new() -> CountSink
        ensures { result ≡ 0 }
    {
        CountSink { taken: 0 }
    }

    /// How many bytes it took.
    pub fn taken(&self) -> u64
        ensures { result ≡ self.now }
    {
        self.taken
    }
}

impl Sink for CountSink {
    ghost faults = { λ _. 0 };

    /// Takes the whole piece.
    fn write(&mut self, piece: &[u8]) -> Result<usize, Failed>
        ensures answer { result ≡ Ok (length piece.now) }
        ensures counted { self.new ≡ min (self.old + length piece.now) count_end }
    {
        self.taken = self.taken.saturating_add(piece.len() as u64);
        Ok(piece.len())
    }

    fn flush(&mut self) -> Result<(), Failed>
        ensures answer { IsOk result }
        ensures after { self.new ≡ self.old }
    {
        Ok(())
    }
}
