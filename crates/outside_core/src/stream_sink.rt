ghost use Rattle.std.specs.Prelude.{◌≡◌, ◌<◌, ◌≤◌, length, IfOk};
ghost use Rattle.std.specs.Io.KnownBytes.{Keeps, WriteAppends};
ghost use Rattle.outside_core.specs.Streams.{written_stream};
ghost use Rattle.outside_core.specs.Counts.{count_end, count_after};

use crate::failed::Failed;
use crate::faults::Faults;
use crate::sink::Sink;
use std::io::Write;

/// A real stream that is written, as the standard output. It tells nothing of its content.
#[derive(Drop)]
pub struct StreamSink<W> {
    to: W,
    faults: Faults,
}

impl<W: Write> StreamSink<W> {
    /// Writes to a stream, such as the standard output that the runtime gives.
    pub fn new(to: W) -> StreamSink<W>
        ensures { ⟦<StreamSink<W> as Sink>⟧.faults result ≡ 0 }
    {
        StreamSink {
            to,
            faults: Faults::new(),
        }
    }

    /// How many calls failed.
    pub fn faults(&self) -> u64
        ensures { result ≡ ⟦<StreamSink<W> as Sink>⟧.faults self.now }
    {
        self.faults.count()
    }
}

impl<W: Write> Sink for StreamSink<W> {
    ghost faults = { λ sink. sink.faults };

    /// Takes what the stream takes. A stream that takes nothing of a piece has failed.
    fn write(&mut self, piece: &[u8]) -> Result<usize, Failed>
        ensures counted { ⟦<StreamSink<W> as Sink>⟧.faults self.new
            ≡ count_after result (⟦<StreamSink<W> as Sink>⟧.faults self.old) }
        ensures bounded { ⟦<StreamSink<W> as Sink>⟧.faults self.new ≤ count_end }
        ensures within { IfOk result (λ n. n ≤ length piece.now) }
        ensures some { IfOk result (λ n. 0 < length piece.now → 0 < n) }
        ensures bytes { WriteAppends (W.contents (written_stream self.old))
            (W.contents (written_stream self.new)) result piece.now }
    {
        let answer = match self.to.write(piece) {
            Ok(0) if !piece.is_empty() => Err(Failed),
            Ok(count) => Ok(count),
            Err(_) => Err(Failed),
        };
        self.faults.counted(answer)
    }

    fn flush(&mut self) -> Result<(), Failed>
        ensures counted { ⟦<StreamSink<W> as Sink>⟧.faults self.new
            ≡ count_after result (⟦<StreamSink<W> as Sink>⟧.faults self.old) }
        ensures bounded { ⟦<StreamSink<W> as Sink>⟧.faults self.new ≤ count_end }
        ensures bytes { Keeps (W.contents (written_stream self.old))
            (W.contents (written_stream self.new)) }
    {
        let answer = self.to.flush();
        self.faults.counted(answer)
    }
}
