//! What is said of cases.
ghost use Rattle.std.specs.Prelude.{◌≡◌, ◌+◌, if◌then◌else◌, min};

use crate::Done;
use crate::case::Case;
use crate::command::Command;
use crate::difference::first_difference;
use mypyc_top_status::Status;
use std::alloc::Global;

/// How many cases give what they say, how many do not, and what is said of them.
#[derive(Drop)]
pub struct Report {
    pub passed: usize,
    pub failed: usize,
    pub said: String,
}

impl Report {
    /// No case yet.
    pub fn new(alloc: Global) -> Report
        ensures passed { result.passed ≡ 0 }
        ensures failed { result.failed ≡ 0 }
    {
        Report {
            passed: 0,
            failed: 0,
            said: String::new(alloc),
        }
    }

    /// How many cases there were.
    pub fn all(&self) -> usize
        ensures { result ≡ min (self.now.passed + self.now.failed) 18446744073709551615 }
    {
        self.passed.saturating_add(self.failed)
    }

    /// Counts a case.
    pub fn count(&mut self, has_passed: bool)
        ensures passed { self.new.passed
            ≡ (if has_passed then min (self.old.passed + 1) 18446744073709551615 else self.old.passed) }
        ensures failed { self.new.failed
            ≡ (if has_passed then self.old.failed else min (self.old.failed + 1) 18446744073709551615) }
        ensures said { self.new.said ≡ self.old.said }
    {
        if has_passed {
            self.passed = self.passed.saturating_add(1);
        } else {
            self.failed = self.failed.saturating_add(1);
        }
    }

    /// Says how many cases of a file there were since there were so many.
    pub fn say_count(&mut self, file: &str, before: usize) -> Done {
        let count = self.all().saturating_sub(before);
        write!(self.said, "{file}: {count} cases\n")
    }

    /// Counts a failure of the file itself, and says what is wrong in a line of it.
    pub fn fail(&mut self, file: &str, line: usize, what: &str) -> Done {
        self.count(false);
        write!(self.said, "{file}:{line}: {what}\n")
    }

    /// Compares a text that a command gave with what the case wants of it, and says where they differ.
    pub fn compare(
        &mut self,
        case: &Case<'_>,
        command: &Command<'_>,
        name: &str,
        wanted: &[u8],
        given: &[u8],
    ) -> Done {
        let Some(difference) = first_difference(wanted, given) else {
            return Ok(());
        };
        self.say_place(case, command)?;
        let number = difference.number;
        let wanted = difference.wanted.escape_ascii();
        let given = difference.given.escape_ascii();
        write!(
            self.said,
            "{name}, line {number}\n  wanted `{wanted}`\n  given  `{given}`\n"
        )
    }

    /// Compares a status with the name of the one that the case wants, which is `Done` where it names none.
    pub fn compare_status(
        &mut self,
        case: &Case<'_>,
        command: &Command<'_>,
        wanted: &str,
        given: Status,
    ) -> Done {
        let wanted = if wanted.is_empty() { "Done" } else { wanted };
        let given = format!(in case.alloc; "{given:?}")?;
        if wanted == given.as_str() {
            return Ok(());
        }
        self.say_place(case, command)?;
        write!(self.said, "status\n  wanted {wanted}\n  given  {given}\n")
    }

    fn say_place(&mut self, case: &Case<'_>, command: &Command<'_>) -> Done {
        let Case {
            file,
            line,
            name,
            row,
            ..
        } = *case;
        let Command { words, mode, piece } = *command;
        write!(
            self.said,
            "{file}:{line}: {name} {row} `{mode} {words}`, {piece} bytes a read: "
        )
    }
}
