//! The program `c_text_copy`: reads a C text from the standard input, and writes the text of its code to the standard output.
//! One that is well formed comes out as it came in, and of another nothing does. It measures reading and writing a text
//! of any size, since what the compiler itself writes is no longer than a module of 256 KiB makes it. The exit status is
//! that of `mypyc` for the same cause (`specs/Copying.antt`); nothing goes to standard error.
#![tactic(auto)]

mod copy;
mod input;
#[cfg(test)]
mod tests;

use crate::copy::{CopyError, copy, status_of};
use outside_core::{StreamSink, StreamSource};
use std::io::{BufWriter, Input};
use std::process::ExitCode;

fn main(rt: HostRuntime) -> ExitCode {
    ExitCode::from(status_of(copy_streams(&rt)))
}

/// Copies the standard input to the standard output.
fn copy_streams(rt: &HostRuntime) -> Result<(), CopyError> {
    let Ok(writer) = BufWriter::new(rt.alloc(), rt.stdout()) else {
        return Err(CopyError::Memory);
    };
    let mut input = StreamSource::new(rt.reader());
    let mut out = StreamSink::new(writer);
    copy(rt.alloc(), &mut input, &mut out)
}
