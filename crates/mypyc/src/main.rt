//! The command `mypyc`: the compiler over real files and streams. Its words come from the system, the file from the
//! disk or, for `-`, from the standard input; it ends with the number of the status. A program that runs reads the
//! standard input, so one that came from `-` itself finds its input at its end.
#![tactic(auto)]

use mypyc_top::mypyc;
use mypyc_top_status::{Status, status_number};
use outside_core::{DiskFiles, StreamSink, StreamSource};
use std::env;
use std::io::{self, BufWriter, Input};
use std::process::ExitCode;

/// How many bytes of a C text are held back at most. It is written in pieces of a few bytes.
const HELD: usize = 65_536;

fn main(rt: HostRuntime) -> ExitCode {
    let status = match run(&rt) {
        Ok(status) => status,
        Err(_) => {
            let _ = rt.eprintln("mypyc: out of memory");
            Status::Memory
        }
    };
    ExitCode::from(status_number(status))
}

/// Runs the compiler. An error is want of memory before it begins.
fn run(rt: &HostRuntime) -> io::Result<Status> {
    let words = words(rt)?;
    let mut files = DiskFiles::new(rt);
    let mut input = StreamSource::new(rt.reader());
    let mut writer = BufWriter::with_capacity(rt.alloc(), held_at_most(&words), rt.stdout())?;
    let mut out = StreamSink::new(&mut writer);
    let mut err = StreamSink::new(rt.stderr());
    let status = mypyc(
        rt.alloc(),
        &words,
        &mut files,
        &mut input,
        &mut out,
        &mut err,
    );
    // What is held still is left of a write that failed, and a writer that is let go would try it again.
    let (_stdout, _unwritten) = writer.into_parts();
    Ok(status)
}

/// How many bytes of the output may be held back: none but of a C text, so that what a program prints is seen before it
/// waits for its input.
fn held_at_most(words: &[String]) -> usize {
    if words.iter().any(|word| word.as_str() == "--emit=c") {
        HELD
    } else {
        0
    }
}

/// The words of the command. Words that are no text are no command, as no words are.
fn words(rt: &HostRuntime) -> io::Result<Vec<String>> {
    match env::args(rt) {
        Ok(args) => Ok(args.skip(1).collect(rt.alloc())?),
        Err(error) if error.kind() == io::ErrorKind::InvalidData => Ok(Vec::new(rt.alloc())),
        Err(error) => Err(error),
    }
}
