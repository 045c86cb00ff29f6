//! Commands over objects in memory.
ghost use Rattle.std.specs.Prelude.{◌<◌};

use crate::Done;
use crate::case::Case;
use crate::checker::Checker;
use mypyc_top_status::Status;
use outside_core::{MemFiles, MemSink, MemSource};
use std::alloc::{AllocError, Global};

/// A command: the words of a line, a mode in place of their own where one is named, and how many bytes a read of the input
/// gives at most.
#[derive(Clone, Copy)]
pub struct Command<'a> {
    pub words: &'a str,
    pub mode: &'a str,
    pub piece: usize,
}

/// What a command reads and writes, in memory.
#[derive(Drop)]
pub struct Outside {
    pub files: MemFiles,
    pub input: MemSource,
    pub out: MemSink,
    pub err: MemSink,
}

/// What a command gave, and what it left.
#[derive(Drop)]
pub struct Given {
    pub status: Status,
    pub outside: Outside,
}

/// The compiler that cases are for.
pub trait Compiler {
    /// Runs the command of these words, and gives its status.
    fn run(&self, alloc: Global, words: &[String], outside: &mut Outside) -> Status;
}

impl<C: Compiler> Checker<C> {
    /// Runs a command over the module, the input and the failing calls of a case.
    pub(crate) fn run(
        &self,
        case: &Case<'_>,
        command: &Command<'_>,
        module: &[u8],
    ) -> Result<Given, AllocError> {
        let words = words_of(case.alloc, command)?;
        let mut outside = outside_of(case, command.piece, module)?;
        let status = self.compiler.run(case.alloc, &words, &mut outside);
        Ok(Given { status, outside })
    }
}

fn outside_of(case: &Case<'_>, piece: usize, module: &[u8]) -> Result<Outside, AllocError> {
    Ok(Outside {
        files: files_of(case, module)?,
        input: input_of(case, piece)?,
        out: sink_of(case, "fails out")?,
        err: sink_of(case, "fails err")?,
    })
}

/// The words of a command. `''` is the word of no letters.
fn words_of(alloc: Global, command: &Command<'_>) -> Result<Vec<String>, AllocError> {
    let mut words = Vec::new(alloc);
    let Command {
        words: line,
        mode,
        ..
    } = *command;
    if !mode.is_empty() {
        push_word(mode, &mut words)?;
    }
    for word in line.split_whitespace() {
        if mode.is_empty() || !word.starts_with("--emit=") {
            push_word(word, &mut words)?;
        }
    }
    Ok(words)
}

fn push_word(word: &str, words: &mut Vec<String>) -> Done {
    let word = if word == "''" { "" } else { word };
    let word = String::from_str(*words.allocator(), word)?;
    words.push(word)?;
    Ok(())
}

fn files_of(case: &Case<'_>, module: &[u8]) -> Result<MemFiles, AllocError> {
    let fails = numbers_of(case, "fails files")?;
    let name = String::from_str(case.alloc, "t.py")?;
    let module = Vec::from_slice(case.alloc, module)?;
    let mut files = Vec::new(case.alloc);
    files.push((name, module))?;
    Ok(MemFiles::new(files, fails))
}

fn input_of(case: &Case<'_>, piece: usize) -> Result<MemSource, AllocError> {
    let fails = numbers_of(case, "fails input")?;
    let bytes = Vec::from_slice(case.alloc, case.text("input").unwrap_or(b""))?;
    Ok(MemSource::new(bytes, piece.max(1), fails))
}

fn sink_of(case: &Case<'_>, key: &str) -> Result<MemSink, AllocError> {
    let fails = numbers_of(case, key)?;
    Ok(MemSink::new(case.alloc, fails))
}

/// The numbers that the text with this key has.
fn numbers_of(case: &Case<'_>, key: &str) -> Result<Vec<u64>, AllocError> {
    let mut numbers = Vec::new(case.alloc);
    for word in case.words(key).split_whitespace() {
        numbers.push(word.parse().unwrap_or(u64::MAX))?;
    }
    Ok(numbers)
}
