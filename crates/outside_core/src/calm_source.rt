ghost use Rattle.std.specs.Prelude.{◌≡◌, ◌++◌, ◌<◌, ◌≤◌, true, min, length, take, drop, IsOk, IfOk};

use crate::copy::copy_from;
use crate::failed::Failed;
use crate::source::Source;
use std::marker::Model;

/// A source in memory that never fails. Contracts see it as the bytes that are left.
#[derive(Drop)]
pub struct CalmSource {
    bytes: Vec<u8>,
    at: usize,
}

impl Model for CalmSource {
    ghost use Rattle.std.specs.Prelude.{ℕ, List, ◌≤◌, drop, vec_len};

    ghost Value = { List ℕ };

    ghost view = { λ source. drop source.at source.bytes.items };

    ghost invariant = { λ source. source.at ≤ vec_len source.bytes };
}

impl CalmSource {
    /// A source that gives these bytes.
    pub fn new(bytes: Vec<u8>) -> CalmSource
        ensures { result ≡ bytes.items }
    {
        CalmSource { bytes, at: 0 }
    }
}

impl Source for CalmSource {
    ghost faults = { λ _. 0 };

    ghost tells = { true };

    ghost left = { λ source. source };

    /// Gives as many bytes as there are and as there is room for.
    fn read(&mut self, into: &mut [u8]) -> Result<usize, Failed>
        ensures answer { IsOk result }
        ensures count { IfOk result (λ n. n ≡ min (length into.old) (length self.old)) }
        ensures within { IfOk result (λ n. n ≤ length into.new) }
        ensures given { IfOk result (λ n. self.old ≡ take n into.new ++ self.new) }
        ensures behind { IfOk result (λ n. drop n into.new ≡ drop n into.old) }
    {
        let room = into.len();
        let count = copy_from(&self.bytes, self.at, room, into);
        self.at += count;
        Ok(count)
    }
}
