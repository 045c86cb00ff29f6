ghost use Rattle.std.specs.Prelude.{◌≡◌, ◌≤◌, false, length, is_some, IfOk};

use crate::failed::Failed;
use crate::faults::Faults;
use crate::files::Files;
use std::io::{Input, Read};
use std::{fs, io, rt};

/// The files of the disk. The name `-` is the standard input. They tell nothing of their content.
#[derive(Drop)]
pub struct DiskFiles<R: rt::Files + Input> {
    rt: R,
    reader: Option<Reader<R>>,
    faults: Faults,
}

/// What is open.
#[derive(Drop)]
enum Reader<R: rt::Files + Input> {
    File(R::File),
    Input(R::Reader),
}

impl<R: rt::Files + Input> Reader<R> {
    fn read(&mut self, into: &mut [u8]) -> io::Result<usize>
        ensures { IfOk result (λ n. n ≤ length into.new) }
    {
        match self {
            Reader::File(file) => file.read(into),
            Reader::Input(input) => input.read(into),
        }
    }
}

impl<R: rt::Files + Input> DiskFiles<R> {
    /// The files that the runtime reaches. None is open.
    pub fn new(rt: R) -> DiskFiles<R>
        ensures closed { ⟦<DiskFiles<R> as Files>⟧.is_open result ≡ false }
        ensures calm { ⟦<DiskFiles<R> as Files>⟧.faults result ≡ 0 }
    {
        DiskFiles {
            rt,
            reader: None,
            faults: Faults::new(),
        }
    }

    /// How many calls failed.
    pub fn faults(&self) -> u64
        ensures { result ≡ ⟦<DiskFiles<R> as Files>⟧.faults self.now }
    {
        self.faults.count()
    }

    fn reader_of(&self, name: &str) -> io::Result<Reader<R>> {
        if name == "-" {
            return Ok(Reader::Input(self.rt.reader()));
        }
        Ok(Reader::File(fs::open(&self.rt, name)?))
    }
}

impl<R: rt::Files + Input> Files for DiskFiles<R> {
    ghost faults = { λ files. files.faults };

    ghost is_open = { λ files. is_some files.reader };

    fn open_file(&mut self, name: &str) -> Result<(), Failed> {
        self.reader = None;
        let answer = self.reader_of(name);
        self.reader = Some(self.faults.counted(answer)?);
        Ok(())
    }

    fn read(&mut self, into: &mut [u8]) -> Result<usize, Failed> {
        let answer = self.reader.as_mut().unwrap().read(into);
        self.faults.counted(answer)
    }
}
