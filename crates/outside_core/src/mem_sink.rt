ghost use Rattle.std.specs.Prelude.{◌≡◌, [], ◌++◌, ◌<◌, ◌≤◌, true, length, is_ok, not, IsTrue, IsErr, IfOk, OnOk, OnErr};
ghost use Rattle.outside_core.specs.Counts.{count_end};
ghost use Rattle.outside_core.specs.Schedule.{schedule, is_refused, after_call};

use crate::calls::Calls;
use crate::failed::Failed;
use crate::sink::Sink;
use std::alloc::Global;
use std::marker::Model;

/// A sink in memory. It takes each piece whole and keeps the bytes.
#[derive(Drop)]
pub struct MemSink {
    bytes: Vec<u8>,
    calls: Calls,
}

impl Model for MemSink {
    ghost use Rattle.outside_core.specs.States.{MemSinkState};

    ghost Value = { MemSinkState };

    ghost view = { λ sink. record { taken = sink.bytes.items; calls = sink.calls } };
}

impl MemSink {
    /// A sink that took nothing. The calls with a number in `fails` fail; a write and a flush are
    /// calls, and the first has number 0.
    pub fn new(alloc: Global, fails: Vec<u64>) -> MemSink
        ensures { result ≡ record { taken = []; calls = schedule fails.items } }
    {
        MemSink {
            bytes: Vec::new(alloc),
            calls: Calls::new(fails),
        }
    }

    /// What it took.
    pub fn bytes(&self) -> &[u8]
        ensures { result.now ≡ self.now.taken }
    {
        self.bytes.as_slice()
    }

    /// How many calls failed.
    pub fn faults(&self) -> u64
        ensures { result ≡ self.now.calls.faults }
    {
        self.calls.faults()
    }
}

impl Sink for MemSink {
    ghost faults = { λ sink. sink.calls.faults };

    ghost tells = { true };

    ghost taken = { λ sink. sink.taken };

    /// Takes the whole piece, unless the call is to fail or there is no memory for it.
    fn write(&mut self, piece: &[u8]) -> Result<usize, Failed>
        ensures whole { IfOk result (λ n. n ≡ length piece.now) }
        ensures refused { IsTrue (is_refused self.old.calls) → IsErr result }
        ensures ok { OnOk result (self.new.taken ≡ self.old.taken ++ piece.now) }
        ensures err { OnErr result (self.new.taken ≡ self.old.taken) }
        ensures calls { self.new.calls ≡ after_call self.old.calls (is_ok result) }
        ensures bounded { self.new.calls.faults ≤ count_end }
    {
        self.calls.make()?;
        match self.bytes.extend_from_slice(piece) {
            Ok(()) => Ok(piece.len()),
            Err(_) => Err(self.calls.refuse()),
        }
    }

    fn flush(&mut self) -> Result<(), Failed>
        ensures answer { is_ok result ≡ not (is_refused self.old.calls) }
        ensures after { self.new
            ≡ record self.old { calls = after_call self.old.calls (is_ok result) } }
        ensures bounded { self.new.calls.faults ≤ count_end }
    {
        self.calls.make()
    }
}
