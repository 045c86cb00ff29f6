//! Files, sources and sinks of the system.
use crate::case::check;
use outside_core::{
    DiskFiles, Failed, Files, ReadError, Sink, Source, StreamSink, StreamSource, WriteFault,
    read_whole, write_whole,
};
use std::alloc::Global;
use std::io::{self, Input};
use std::process::Abort;
use std::test::Fail;
use std::{fs, rt};

/// Opens a file and reads it.
fn open_whole<R: rt::Files + Input>(
    alloc: Global,
    files: &mut DiskFiles<R>,
    name: &str,
    limit: usize,
) -> Result<Vec<u8>, ReadError> {
    files.open_file(name)?;
    read_whole(alloc, files, limit)
}

/// A name, the limit that its file is read with, and what comes of it.
type Case<'a> = (&'a str, usize, Result<&'a [u8], ReadError>);

const ON_DISK: &[Case<'static>] = &[
    ("disk_files.txt", 11, Ok(b"on the disk")),
    ("disk_files.txt", 10, Err(ReadError::TooLong)),
    ("absent.txt", 11, Err(ReadError::Failed)),
    // A folder can be opened and not be read.
    (".", 11, Err(ReadError::Failed)),
    ("disk_files.txt", 11, Ok(b"on the disk")),
];

fn check_disk<R: rt::Files + Input>(rt: &impl Abort, alloc: Global, files: &mut DiskFiles<R>) {
    for (name, limit, want) in ON_DISK {
        let found = open_whole(alloc, files, name, *limit);
        let is_right = match (&found, want) {
            (Ok(bytes), Ok(want)) => bytes.as_slice() == *want,
            (Err(e), Err(want)) => *e == *want,
            _ => false,
        };
        check(rt, &(name, limit), is_right);
    }
    let before = files.faults();
    let is_open = files.open_file("-") == Ok(());
    check(rt, &"-", is_open && (before, files.faults()) == (2, 2));
}

#[test]
fn files_of_the_disk(rt: HostRuntime) -> Result<(), Fail> {
    fs::write(&rt, "disk_files.txt", b"on the disk")?;
    check_disk(&rt, rt.alloc(), &mut DiskFiles::new(&rt));
    fs::remove_file(&rt, "disk_files.txt")?;
    Ok(())
}

/// What is written to a real stream is read from it.
#[test]
fn real_streams(rt: HostRuntime) -> Result<(), Fail> {
    let mut sink = StreamSink::new(fs::create(&rt, "streams.txt")?);
    let is_written = write_whole(&mut sink, b"streams").is_ok() && sink.flush().is_ok();
    check(&rt, &"written", is_written && sink.faults() == 0);
    let mut into = [0; 8];
    let mut source = StreamSource::new(fs::open(&rt, "streams.txt")?);
    for count in [7, 0] {
        let is_read = source.read(&mut into) == Ok(count) && into == *b"streams\0";
        check(&rt, &count, is_read && source.faults() == 0);
    }
    fs::remove_file(&rt, "streams.txt")?;
    Ok(())
}

/// A stream that is only written cannot be read, nor the other way round.
#[test]
fn streams_of_one_way(rt: HostRuntime) -> Result<(), Fail> {
    let mut mute = StreamSource::new(fs::create(&rt, "one_way.txt")?);
    let is_refused = mute.read(&mut [0; 8]) == Err(Failed);
    check(&rt, &"read", is_refused && mute.faults() == 1);
    let mut closed = StreamSink::new(fs::open(&rt, "one_way.txt")?);
    let is_refused = write_whole(&mut closed, b"streams") == Err(WriteFault);
    check(&rt, &"written", is_refused && closed.faults() == 1);
    fs::remove_file(&rt, "one_way.txt")?;
    Ok(())
}

/// A stream that takes at most two bytes a write, and six in all.
#[derive(Drop)]
struct Narrow {
    room: usize,
}

impl io::Write for Narrow {
    fn write(&mut self, piece: &[u8]) -> io::Result<usize> {
        let count = piece.len().min(2).min(self.room);
        self.room -= count;
        Ok(count)
    }

    fn flush(&mut self) -> io::Result<()> {
        Err(io::Error::from(io::ErrorKind::Other))
    }
}

const NARROW_WRITES: &[(&[u8], Result<(), WriteFault>, u64)] = &[
    (b"abcde", Ok(()), 0),
    (b"", Ok(()), 0),
    (b"fg", Err(WriteFault), 1),
];

#[test]
fn a_stream_that_takes_nothing_has_failed(rt: HostRuntime) {
    let mut narrow = Narrow { room: 6 };
    let mut sink = StreamSink::new(&mut narrow);
    for (bytes, want, faults) in NARROW_WRITES {
        let is_right = write_whole(&mut sink, bytes) == *want;
        check(&rt, bytes, is_right && sink.faults() == *faults);
    }
    let empty = sink.write(b"");
    let is_right = empty == Ok(0) && sink.faults() == 1 && sink.flush() == Err(Failed);
    check(&rt, &"flush", is_right && sink.faults() == 2);
    check(&rt, &"room", narrow.room == 0);
}
