ghost use Rattle.std.specs.Prelude.{◌≡◌, if◌then◌else◌, [], ◌++◌, ◌<◌, ◌≤◌, ◌&&◌, true, not, min, length, take, drop, None, is_ok, is_some, is_none, unwrap_or, IsTrue, IfOk, OnErr, position};
ghost use Rattle.outside_core.specs.Counts.{count_end, count_if};
ghost use Rattle.outside_core.specs.Schedule.{schedule, is_refused, after_call};
ghost use Rattle.outside_core.specs.States.{content_of, named, is_called};

use crate::calls::Calls;
use crate::copy::copy_from;
use crate::failed::Failed;
use crate::files::Files;
use std::marker::Model;

/// Files in memory, which tell all and fail where they are told to.
#[derive(Drop)]
pub struct MemFiles {
    files: Vec<(String, Vec<u8>)>,
    calls: Calls,
    absent_opens: u64,
    place: Option<Place>,
}

/// How far the open file was read: its number among the files, and the place of its next byte.
#[derive(Clone, Copy)]
struct Place {
    file: usize,
    at: usize,
}

impl Model for MemFiles {
    ghost use Rattle.std.specs.Prelude.{◌<◌, ◌≤◌, drop, length, vec_len};
    ghost use Rattle.std.specs.Option.{option_map, ForSome};
    ghost use Rattle.outside_core.specs.States.{MemFilesState, named, bytes_of};

    ghost Value = { MemFilesState };

    ghost view = { λ m. record {
      files = named m.files.items;
      calls = m.calls;
      absent_opens = m.absent_opens;
      left = option_map (λ place. drop place.at (bytes_of m.files.items place.file)) m.place;
    } };

    ghost invariant = { λ m. ForSome m.place (λ place.
        (place.file < vec_len m.files) × (place.at ≤ length (bytes_of m.files.items place.file))) };
}

impl MemFiles {
    /// Files of these names and bytes, of which none is open. Where a name stands twice, the
    /// bytes beside the first of them are its own. The calls with a number in `fails` fail; an open and a read are calls, and the
    /// first has number 0.
    pub fn new(files: Vec<(String, Vec<u8>)>, fails: Vec<u64>) -> MemFiles
        ensures { result ≡ record {
          files = named files.items;
          calls = schedule fails.items;
          absent_opens = 0;
          left = None;
        } }
    {
        MemFiles {
            files,
            calls: Calls::new(fails),
            absent_opens: 0,
            place: None,
        }
    }

    /// How many calls failed.
    pub fn faults(&self) -> u64
        ensures { result ≡ self.now.calls.faults }
    {
        self.calls.faults()
    }

    /// How many times an absent name was to be opened.
    pub fn absent_opens(&self) -> u64
        ensures { result ≡ self.now.absent_opens }
    {
        self.absent_opens
    }
}

impl Files for MemFiles {
    ghost faults = { λ m. m.calls.faults };

    ghost is_open = { λ m. is_some m.left };

    ghost tells = { true };

    ghost content = { λ m. content_of m.files };

    ghost left = { λ m. unwrap_or m.left [] };

    ghost absent_opens = { λ m. m.absent_opens };

    /// Opens the first file of this name, unless there is none or the call is to fail. An absent
    /// name is counted in both cases.
    #[tactic(auto, using(crate::proofs::Names::content_of_position))]
    fn open_file(&mut self, name: &str) -> Result<(), Failed>
        ensures answer { is_ok result
            ≡ (not (is_refused self.old.calls) && is_some (content_of self.old.files name.now)) }
        ensures left { self.new.left
            ≡ (if is_ok result then content_of self.old.files name.now else None) }
        ensures calls { self.new.calls ≡ after_call self.old.calls (is_ok result) }
        ensures bounded { self.new.calls.faults ≤ count_end }
        ensures absent { self.new.absent_opens
            ≡ count_if (is_none (content_of self.old.files name.now)) self.old.absent_opens }
        ensures absent_bounded { self.new.absent_opens ≤ count_end }
        ensures files { self.new.files ≡ self.old.files }
    {
        self.place = None;
        let number = number_of(&self.files, name);
        if number.is_none() {
            self.absent_opens = self.absent_opens.saturating_add(1);
        }
        self.calls.make()?;
        let Some(file) = number else {
            return Err(self.calls.refuse());
        };
        self.place = Some(Place { file, at: 0 });
        Ok(())
    }

    /// Gives as many bytes as there are and as there is room for, unless the call is to fail.
    fn read(&mut self, into: &mut [u8]) -> Result<usize, Failed>
        requires { IsTrue (is_some self.old.left) }
        ensures answer { is_ok result ≡ not (is_refused self.old.calls) }
        ensures count { IfOk result (λ n.
            n ≡ min (length into.old) (length (unwrap_or self.old.left []))) }
        ensures within { IfOk result (λ n. n ≤ length into.new) }
        ensures given { IfOk result (λ n.
            unwrap_or self.old.left [] ≡ take n into.new ++ unwrap_or self.new.left []) }
        ensures behind { IfOk result (λ n. drop n into.new ≡ drop n into.old) }
        ensures failed { OnErr result ((self.new.left ≡ self.old.left) × (into.new ≡ into.old)) }
        ensures stays_open { IsTrue (is_some self.new.left) }
        ensures calls { self.new.calls ≡ after_call self.old.calls (is_ok result) }
        ensures bounded { self.new.calls.faults ≤ count_end }
        ensures absent { self.new.absent_opens ≡ self.old.absent_opens }
        ensures files { self.new.files ≡ self.old.files }
    {
        let place = self.place.unwrap();
        self.calls.make()?;
        let room = into.len();
        let (_, bytes) = &self.files[place.file];
        let count = copy_from(bytes, place.at, room, into);
        self.place = Some(Place {
            file: place.file,
            at: place.at + count,
        });
        Ok(count)
    }
}

/// The number of the first file with this name.
fn number_of(files: &[(String, Vec<u8>)], name: &str) -> Option<usize>
    ensures { result ≡ position (is_called name.now) files.now }
{
    files.iter().position(|(called, _)| called.as_str() == name)
}
