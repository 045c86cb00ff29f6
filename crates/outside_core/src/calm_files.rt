ghost use Rattle.std.specs.Prelude.{◌≡◌, [], ◌++◌, ◌<◌, ◌≤◌, true, min, length, take, drop, Some, None, is_some, unwrap_or, IsTrue, IsOk, IfOk};

use crate::copy::copy_from;
use crate::failed::Failed;
use crate::files::Files;
use std::marker::Model;

/// Files in memory that never fail: every name opens the same bytes.
#[derive(Drop)]
pub struct CalmFiles {
    bytes: Vec<u8>,
    at: Option<usize>,
}

impl Model for CalmFiles {
    ghost use Rattle.std.specs.Prelude.{◌≤◌, drop, vec_len};
    ghost use Rattle.std.specs.Option.{option_map, ForSome};
    ghost use Rattle.outside_core.specs.States.{CalmFilesState};

    ghost Value = { CalmFilesState };

    ghost view = { λ files. record {
      bytes = files.bytes.items;
      left = option_map (λ at. drop at files.bytes.items) files.at;
    } };

    ghost invariant = { λ files. ForSome files.at (λ at. at ≤ vec_len files.bytes) };
}

impl CalmFiles {
    /// Files that all have these bytes. None is open.
    pub fn new(bytes: Vec<u8>) -> CalmFiles
        ensures { result ≡ record { bytes = bytes.items; left = None } }
    {
        CalmFiles { bytes, at: None }
    }
}

impl Files for CalmFiles {
    ghost faults = { λ _. 0 };

    ghost is_open = { λ files. is_some files.left };

    ghost tells = { true };

    ghost content = { λ files name. Some files.bytes };

    ghost left = { λ files. unwrap_or files.left [] };

    fn open_file(&mut self, _name: &str) -> Result<(), Failed>
        ensures answer { IsOk result }
        ensures after { self.new ≡ record self.old { left = Some self.old.bytes } }
    {
        self.at = Some(0);
        Ok(())
    }

    /// Gives as many bytes as there are and as there is room for.
    fn read(&mut self, into: &mut [u8]) -> Result<usize, Failed>
        requires { IsTrue (is_some self.old.left) }
        ensures answer { IsOk result }
        ensures count { IfOk result (λ n.
            n ≡ min (length into.old) (length (unwrap_or self.old.left []))) }
        ensures within { IfOk result (λ n. n ≤ length into.new) }
        ensures given { IfOk result (λ n.
            unwrap_or self.old.left [] ≡ take n into.new ++ unwrap_or self.new.left []) }
        ensures behind { IfOk result (λ n. drop n into.new ≡ drop n into.old) }
        ensures stays_open { IsTrue (is_some self.new.left) }
        ensures bytes { self.new.bytes ≡ self.old.bytes }
    {
        let at = self.at.unwrap();
        let room = into.len();
        let count = copy_from(&self.bytes, at, room, into);
        self.at = Some(at + count);
        Ok(count)
    }
}
