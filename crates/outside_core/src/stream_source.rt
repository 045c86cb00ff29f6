ghost use Rattle.std.specs.Prelude.{◌≡◌, ◌≤◌, length, IfOk};
ghost use Rattle.std.specs.Io.KnownBytes.{ReadConsumes};
ghost use Rattle.outside_core.specs.Counts.{count_end, count_after};
ghost use Rattle.outside_core.specs.Streams.{read_stream};

use crate::failed::Failed;
use crate::faults::Faults;
use crate::source::Source;
use std::io::Read;

/// A real stream that is read, as the standard input. It tells nothing of its content.
#[derive(Drop)]
pub struct StreamSource<R> {
    from: R,
    faults: Faults,
}

impl<R: Read> StreamSource<R> {
    /// Reads from a stream, such as the reader that the runtime gives.
    pub fn new(from: R) -> StreamSource<R>
        ensures { ⟦<StreamSource<R> as Source>⟧.faults result ≡ 0 }
    {
        StreamSource {
            from,
            faults: Faults::new(),
        }
    }

    /// How many reads failed.
    pub fn faults(&self) -> u64
        ensures { result ≡ ⟦<StreamSource<R> as Source>⟧.faults self.now }
    {
        self.faults.count()
    }
}

impl<R: Read> Source for StreamSource<R> {
    ghost faults = { λ source. source.faults };

    /// Gives what the stream gives, and fails where it fails.
    fn read(&mut self, into: &mut [u8]) -> Result<usize, Failed>
        ensures counted { ⟦<StreamSource<R> as Source>⟧.faults self.new
            ≡ count_after result (⟦<StreamSource<R> as Source>⟧.faults self.old) }
        ensures bounded { ⟦<StreamSource<R> as Source>⟧.faults self.new ≤ count_end }
        ensures within { IfOk result (λ n. n ≤ length into.new) }
        ensures bytes { ReadConsumes (R.remaining (read_stream self.old))
            (R.remaining (read_stream self.new)) result into.new }
    {
        let answer = self.from.read(into);
        self.faults.counted(answer)
    }
}
