ghost use Rattle.std.specs.Prelude.{◌≡◌, ◌++◌, [], codes, decimal, IfOk};
ghost use Rattle.mypyc_top_status.specs.Output.{output_text};
ghost use Rattle.mypyc_top_status.specs.ErrorLines.{usage_line, open_line, read_line, large_line, refused_line, ill_formed_line};

use crate::status::Status;
use c_core::Code;
use itoa::Buffer;
use std::alloc::Global;
use value_core::Memory;

/// How the command is used.
const USAGE: &[u8] =
    b"usage: mypyc [--emit=check|ir|c|run|runc|selftest] [--stage=build|errors|owned] [--turns=N] FILE\n";

/// What goes to the output.
#[derive(Drop)]
pub enum Output {
    /// Nothing, and the output is left alone.
    Nothing,
    /// These bytes; none are passed on like some.
    Bytes(Vec<u8>),
    /// The text of a code.
    Text(Code),
}

/// What is to be answered: what goes to the output, the line on errors, and the status.
#[derive(Drop)]
pub struct Reply {
    pub out: Output,
    pub err: Vec<u8>,
    pub status: Status,
}

/// The answer to words that are no command.
pub fn usage_reply(alloc: Global) -> Result<Reply, Memory>
    ensures { IfOk result (λ reply.
        (output_text reply.out ≡ []) × (reply.err.items ≡ usage_line) × (reply.status ≡ Status.Usage)) }
{
    Ok(Reply {
        out: Output::Nothing,
        err: Vec::from_slice(alloc, USAGE)?,
        status: Status::Usage,
    })
}

/// The answer to a file that cannot be opened.
pub fn open_reply(alloc: Global, file: &str) -> Result<Reply, Memory>
    ensures { IfOk result (λ reply.
        (output_text reply.out ≡ []) × (reply.err.items ≡ open_line file.now)
        × (reply.status ≡ Status.OpenFault)) }
{
    file_reply(
        alloc,
        Status::OpenFault,
        b"mypyc: cannot open ",
        file,
        b"\n",
    )
}

/// The answer to a file that cannot be read.
pub fn read_reply(alloc: Global, file: &str) -> Result<Reply, Memory>
    ensures { IfOk result (λ reply.
        (output_text reply.out ≡ []) × (reply.err.items ≡ read_line file.now)
        × (reply.status ≡ Status.ReadFault)) }
{
    file_reply(
        alloc,
        Status::ReadFault,
        b"mypyc: cannot read ",
        file,
        b"\n",
    )
}

/// The answer to a file with more bytes than it may have.
pub fn large_reply(alloc: Global, file: &str) -> Result<Reply, Memory>
    ensures { IfOk result (λ reply.
        (output_text reply.out ≡ []) × (reply.err.items ≡ large_line file.now)
        × (reply.status ≡ Status.TooLarge)) }
{
    file_reply(
        alloc,
        Status::TooLarge,
        b"mypyc: ",
        file,
        b" is too large\n",
    )
}

/// The answer to a C text that is refused at a byte.
pub fn refused_reply(alloc: Global, file: &str, place: usize) -> Result<Reply, Memory>
    ensures { IfOk result (λ reply.
        (output_text reply.out ≡ []) × (reply.err.items ≡ refused_line file.now place)
        × (reply.status ≡ Status.TextRefused)) }
{
    let behind = place_text(alloc, place)?;
    file_reply(alloc, Status::TextRefused, b"mypyc: ", file, &behind)
}

/// The answer to a C text that is not well formed.
pub fn ill_formed_reply(alloc: Global, file: &str) -> Result<Reply, Memory>
    ensures { IfOk result (λ reply.
        (output_text reply.out ≡ []) × (reply.err.items ≡ ill_formed_line file.now)
        × (reply.status ≡ Status.TextRefused)) }
{
    file_reply(
        alloc,
        Status::TextRefused,
        b"mypyc: ",
        file,
        b": not well formed\n",
    )
}

/// What goes to the output alone.
pub fn output_reply(alloc: Global, status: Status, out: Output) -> Reply
    ensures { (output_text result.out ≡ output_text out) × (result.err.items ≡ []) × (result.status ≡ status) }
{
    Reply {
        out,
        err: Vec::new(alloc),
        status,
    }
}

/// A line on errors alone: what stands before the file's name, the name, and what stands behind it.
fn file_reply(
    alloc: Global,
    status: Status,
    before: &[u8],
    file: &str,
    behind: &[u8],
) -> Result<Reply, Memory>
    ensures { IfOk result (λ reply.
        (output_text reply.out ≡ []) × (reply.err.items ≡ before.now ++ (file.now ++ behind.now))
        × (reply.status ≡ status)) }
{
    let mut err = Vec::from_slice(alloc, before)?;
    err.extend_from_slice(file.as_bytes())?;
    err.extend_from_slice(behind)?;
    Ok(Reply {
        out: Output::Nothing,
        err,
        status,
    })
}

/// What a line says of a byte at which a text is refused.
fn place_text(alloc: Global, place: usize) -> Result<Vec<u8>, Memory>
    ensures { IfOk result (λ text. text.items ≡ codes ": refused at byte " ++ (decimal place ++ codes "\n")) }
{
    let mut text = Vec::from_slice(alloc, b": refused at byte ")?;
    text.extend_from_slice(Buffer::new().format(place).as_bytes())?;
    text.extend_from_slice(b"\n")?;
    Ok(text)
}
