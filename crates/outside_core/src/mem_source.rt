ghost use Rattle.std.specs.Prelude.{◌≡◌, [], ◌++◌, ◌<◌, ◌≤◌, ◌↔◌, true, min, not, length, take, drop, is_ok, IfOk, OnErr};
ghost use Rattle.outside_core.specs.Counts.{count_end};
ghost use Rattle.outside_core.specs.Schedule.{schedule, is_refused, after_call};

use crate::calls::Calls;
use crate::copy::copy_from;
use crate::failed::Failed;
use crate::source::Source;
use std::marker::Model;

/// A source in memory, which gives at most so many bytes a read.
#[derive(Drop)]
pub struct MemSource {
    bytes: Vec<u8>,
    at: usize,
    piece: usize,
    calls: Calls,
}

impl Model for MemSource {
    ghost use Rattle.std.specs.Prelude.{◌<◌, ◌≤◌, drop, vec_len};
    ghost use Rattle.outside_core.specs.States.{MemSourceState};

    ghost Value = { MemSourceState };

    ghost view = { λ source. record {
      left = drop source.at source.bytes.items;
      piece = source.piece;
      calls = source.calls;
    } };

    ghost invariant = { λ source. (source.at ≤ vec_len source.bytes) × (0 < source.piece) };
}

impl MemSource {
    /// A source that gives these bytes, at most `piece` of them a read. The reads with a number in
    /// `fails` fail, and the first has number 0.
    pub fn new(bytes: Vec<u8>, piece: usize, fails: Vec<u64>) -> MemSource
        requires { 0 < piece }
        ensures { result
            ≡ record { left = bytes.items; piece = piece; calls = schedule fails.items } }
    {
        MemSource {
            bytes,
            at: 0,
            piece,
            calls: Calls::new(fails),
        }
    }

    /// The bytes that are left.
    pub fn left(&self) -> &[u8]
        ensures { result.now ≡ self.now.left }
    {
        &self.bytes[self.at..]
    }

    /// How many reads failed.
    pub fn faults(&self) -> u64
        ensures { result ≡ self.now.calls.faults }
    {
        self.calls.faults()
    }
}

impl Source for MemSource {
    ghost faults = { λ source. source.calls.faults };

    ghost tells = { true };

    ghost left = { λ source. source.left };

    /// Gives as many bytes as there are and as there is room for but at most a piece, unless the
    /// call is to fail.
    fn read(&mut self, into: &mut [u8]) -> Result<usize, Failed>
        ensures answer { is_ok result ≡ not (is_refused self.old.calls) }
        ensures count { IfOk result (λ n.
            n ≡ min self.old.piece (min (length into.old) (length self.old.left))) }
        ensures within { IfOk result (λ n. n ≤ length into.new) }
        ensures given { IfOk result (λ n. self.old.left ≡ take n into.new ++ self.new.left) }
        ensures behind { IfOk result (λ n. drop n into.new ≡ drop n into.old) }
        ensures end { IfOk result (λ n. 0 < length into.old → ((n ≡ 0) ↔ (self.old.left ≡ []))) }
        ensures failed { OnErr result ((self.new.left ≡ self.old.left) × (into.new ≡ into.old)) }
        ensures calls { self.new.calls ≡ after_call self.old.calls (is_ok result) }
        ensures bounded { self.new.calls.faults ≤ count_end }
        ensures piece { self.new.piece ≡ self.old.piece }
    {
        self.calls.make()?;
        let count = copy_from(&self.bytes, self.at, self.piece, into);
        self.at += count;
        Ok(count)
    }
}
