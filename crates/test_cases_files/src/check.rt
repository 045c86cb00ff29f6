//! Whether a case gives what it says.
use crate::Done;
use crate::case::Case;
use crate::change::changed;
use crate::checker::Checker;
use crate::command::{Command, Compiler, Given};
use bstr::ByteSlice;
use std::alloc::AllocError;

/// The keys of the texts that a mode gives, and these modes.
const MODES: &[(&str, &str)] = &[("check", "--emit=check"), ("c", "--emit=c")];

/// What the lines of a C text that count begin with.
const COUNTS: &[&str] = &[
    "    CPy_INCREF(",
    "    CPy_DECREF(",
    "    CPy_XDECREF(",
    "    CPyTagged_INCREF(",
    "    CPyTagged_DECREF(",
    "    CPyTagged_XDECREF(",
];

/// What a command has to give: its output, what stands behind that, its lines on errors, and its status.
#[derive(Clone, Copy)]
struct Wanted<'a> {
    out: &'a [u8],
    behind: &'a [u8],
    err: &'a [u8],
    status: &'a str,
}

impl<C: Compiler> Checker<C> {
    /// Checks a case: its commands, the modes that it has texts for, and its C text, where it says something of that.
    pub(crate) fn check_case(&mut self, case: &Case<'_>) -> Done {
        let module = case.module()?;
        let words = match case.text("words") {
            Some(_) => case.words("words"),
            None => "t.py",
        };
        let first = words.lines().next().unwrap_or("");
        self.check_commands(case, words, &module)?;
        self.check_modes(case, first, &module)?;
        self.check_c_text(case, first, &module)
    }

    /// The command of each line, with the input in pieces of each size.
    fn check_commands(&mut self, case: &Case<'_>, words: &str, module: &[u8]) -> Done {
        let wanted = wanted_of(case, b"");
        let lines = if words.is_empty() { "\n" } else { words };
        for words in lines.lines() {
            self.check_pieces(case, words, "", module, &wanted)?;
        }
        Ok(())
    }

    fn check_pieces(
        &mut self,
        case: &Case<'_>,
        words: &str,
        mode: &str,
        module: &[u8],
        wanted: &Wanted<'_>,
    ) -> Done {
        let pieces = case.words("pieces");
        let pieces = if pieces.is_empty() { "4096" } else { pieces };
        for piece in pieces.split_whitespace() {
            let piece = piece.parse().unwrap_or(0);
            let command = Command { words, mode, piece };
            self.check_command(case, &command, module, wanted)?;
        }
        Ok(())
    }

    fn check_modes(&mut self, case: &Case<'_>, words: &str, module: &[u8]) -> Done {
        for (key, mode) in MODES {
            if let Some(out) = case.text(key) {
                let wanted = Wanted {
                    out,
                    behind: b"",
                    err: b"",
                    status: "",
                };
                self.check_command(case, &emitting(words, mode), module, &wanted)?;
            }
        }
        Ok(())
    }

    /// Checks the C text of the module, where the case says something of it.
    fn check_c_text(&mut self, case: &Case<'_>, words: &str, module: &[u8]) -> Done {
        if case.text("runc").is_none() && case.text("counts").is_none() {
            return Ok(());
        }
        let given = self.run(case, &emitting(words, "--emit=c"), module)?;
        self.check_run(case, words, given.outside.out.bytes())
    }

    /// Runs a C text: it gives the same as the module, and behind the output what the case says.
    fn check_run(&mut self, case: &Case<'_>, words: &str, text: &[u8]) -> Done {
        if let Some(behind) = case.text("runc") {
            let wanted = wanted_of(case, behind);
            self.check_pieces(case, words, "--emit=runc", text, &wanted)?;
        }
        match case.text("counts") {
            Some(_) => self.check_counts(case, words, text),
            None => Ok(()),
        }
    }

    /// Checks that a C text has so many lines that count as the case says, and that without any of them its run gives another
    /// output.
    fn check_counts(&mut self, case: &Case<'_>, words: &str, text: &[u8]) -> Done {
        let command = emitting(words, "--emit=runc");
        let whole = self.output_of(case, &command, text)?;
        let mut count = 0usize;
        for (index, line) in text.lines().enumerate() {
            if is_count(line) {
                count = count.saturating_add(1);
                let number = index.saturating_add(1);
                self.check_count(case, &command, text, number, &whole)?;
            }
        }
        self.compare_numbers(case, &command, count)
    }

    /// What a command writes.
    fn output_of(
        &self,
        case: &Case<'_>,
        command: &Command<'_>,
        module: &[u8],
    ) -> Result<Vec<u8>, AllocError> {
        let given = self.run(case, command, module)?;
        Vec::from_slice(case.alloc, given.outside.out.bytes())
    }

    /// Checks that a C text without its line of this number gives another output.
    fn check_count(
        &mut self,
        case: &Case<'_>,
        command: &Command<'_>,
        text: &[u8],
        number: usize,
        whole: &[u8],
    ) -> Done {
        let change = format!(in case.alloc; "drop {number}")?;
        let rest = changed(case.alloc, text, change.as_str())?;
        let output = self.output_of(case, command, &rest)?;
        if output.as_slice() == whole {
            self.report.compare(
                case,
                command,
                "a count that is not needed",
                b"",
                change.as_bytes(),
            )?;
        }
        Ok(())
    }

    fn compare_numbers(&mut self, case: &Case<'_>, command: &Command<'_>, count: usize) -> Done {
        let count = format!(in case.alloc; "{count}")?;
        let wanted = case.words("counts");
        self.report.compare(case, command, "counts", wanted.as_bytes(), count.as_bytes())
    }

    /// Runs a command, and says how it differs from what is wanted.
    fn check_command(
        &mut self,
        case: &Case<'_>,
        command: &Command<'_>,
        module: &[u8],
        wanted: &Wanted<'_>,
    ) -> Done {
        let given = self.run(case, command, module)?;
        self.compare_given(case, command, wanted, &given)
    }

    fn compare_given(
        &mut self,
        case: &Case<'_>,
        command: &Command<'_>,
        wanted: &Wanted<'_>,
        given: &Given,
    ) -> Done {
        self.compare_out(case, command, wanted, given.outside.out.bytes())?;
        self.report.compare(case, command, "err", wanted.err, given.outside.err.bytes())?;
        if let Some(left) = case.text("left") {
            self.report
                .compare(case, command, "left", left, given.outside.input.left())?;
        }
        self.report
            .compare_status(case, command, wanted.status, given.status)
    }

    /// Compares the output. A front of it is enough where the case says `prefix`.
    fn compare_out(
        &mut self,
        case: &Case<'_>,
        command: &Command<'_>,
        wanted: &Wanted<'_>,
        given: &[u8],
    ) -> Done {
        if case.text("prefix").is_some() && wanted.out.starts_with(given) {
            return Ok(());
        }
        let (out, behind) = given.split_at(wanted.out.len().min(given.len()));
        self.report.compare(case, command, "out", wanted.out, out)?;
        self.report
            .compare(case, command, "behind out", wanted.behind, behind)
    }
}

/// What the texts of a case say, with a text behind the output.
fn wanted_of<'a>(case: &Case<'a>, behind: &'a [u8]) -> Wanted<'a> {
    Wanted {
        out: case.text("out").unwrap_or(b""),
        behind,
        err: case.text("err").unwrap_or(b""),
        status: case.words("status"),
    }
}

fn emitting<'a>(words: &'a str, mode: &'a str) -> Command<'a> {
    Command {
        words,
        mode,
        piece: 4096,
    }
}

fn is_count(line: &[u8]) -> bool {
    for front in COUNTS {
        if line.starts_with(front.as_bytes()) {
            return true;
        }
    }
    false
}
