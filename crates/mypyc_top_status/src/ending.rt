ghost use Rattle.std.specs.Prelude.{◌≡◌, IfOk};
ghost use Rattle.value_core.specs.Exceptions.{thrown};
ghost use Rattle.mypyc_top_status.specs.ErrorLines.{raised_line, turns_line};
ghost use Rattle.mypyc_top_status.specs.Endings.{machine_status, machine_line};
ghost use Rattle.mypyc_top_status.specs.Ends.{machine_ending};
ghost use Rattle.mypyc_top_status.specs.Output.{output_text};

use crate::reply::{Output, Reply};
use crate::status::Status;
use c_core::Fault;
use itoa::Buffer;
use std::alloc::Global;
use value_core::{ExcClass, Memory};

/// How a program ended.
#[derive(Clone, Copy)]
pub enum ProgramEnd<'a> {
    /// It ended by itself.
    Done,
    /// An exception of this class and text left it.
    Raised(ExcClass, &'a str),
    /// No turns were left.
    Cut,
    /// A line of its input stands too far along.
    Over,
    /// Its input could not be read.
    Broken,
    /// It broke a rule of the machine.
    Fault(Fault),
}

/// The answer to a program that ended so and left so many cells, with what is left for the output.
pub fn ending_reply(
    alloc: Global,
    end: &ProgramEnd<'_>,
    live: usize,
    out: Output,
) -> Result<Reply, Memory>
    ensures { IfOk result (λ reply. (output_text reply.out ≡ output_text out)
        × (reply.err.items ≡ machine_line (machine_ending end.now) live)
        × (reply.status ≡ machine_status (machine_ending end.now))) }
{
    Ok(Reply {
        out,
        err: line_of(alloc, end, live)?,
        status: status_of(end),
    })
}

/// The status of a program that ended so.
fn status_of(end: &ProgramEnd<'_>) -> Status
    ensures { result ≡ machine_status (machine_ending end.now) }
{
    match *end {
        ProgramEnd::Done => Status::Done,
        ProgramEnd::Raised(_, _) => Status::Raised,
        ProgramEnd::Cut => Status::Cut,
        ProgramEnd::Over => Status::InputOver,
        ProgramEnd::Broken => Status::InputFault,
        ProgramEnd::Fault(_) => Status::Faulted,
    }
}

/// The line on errors of a program that ended so and left so many cells.
fn line_of(alloc: Global, end: &ProgramEnd<'_>, live: usize) -> Result<Vec<u8>, Memory>
    ensures { IfOk result (λ line. line.items ≡ machine_line (machine_ending end.now) live) }
{
    match end {
        ProgramEnd::Done => Ok(Vec::new(alloc)),
        ProgramEnd::Raised(class, text) => raised_text(alloc, *class, text),
        ProgramEnd::Cut => turns_text(alloc, live),
        ProgramEnd::Over => Ok(Vec::from_slice(alloc, b"mypyc: input is too long\n")?),
        ProgramEnd::Broken => Ok(Vec::from_slice(alloc, b"mypyc: cannot read input\n")?),
        ProgramEnd::Fault(_) => Ok(Vec::from_slice(alloc, b"mypyc: ownership fault\n")?),
    }
}

/// An exception that left the module: its class, and its text if it has one.
fn raised_text(alloc: Global, class: ExcClass, text: &str) -> Result<Vec<u8>, Memory>
    ensures { IfOk result (λ line. line.items ≡ raised_line (thrown class text.now)) }
{
    let mut line = Vec::from_slice(alloc, class.name().as_bytes())?;
    if !text.is_empty() {
        line.extend_from_slice(b": ")?;
        line.extend_from_slice(text.as_bytes())?;
    }
    line.extend_from_slice(b"\n")?;
    Ok(line)
}

/// A program without turns, and how many cells it left.
fn turns_text(alloc: Global, live: usize) -> Result<Vec<u8>, Memory>
    ensures { IfOk result (λ line. line.items ≡ turns_line live) }
{
    let mut line = Vec::from_slice(alloc, b"mypyc: out of turns, ")?;
    line.extend_from_slice(Buffer::new().format(live).as_bytes())?;
    line.extend_from_slice(b" live cells\n")?;
    Ok(line)
}
