//! The cases of a file.
use crate::Done;
use crate::case::Case;
use crate::checker::Checker;
use crate::command::Compiler;
use crate::section::{MODULE, Section, begin, read_sections, text_of};
use std::alloc::{AllocError, Global};

/// What the parts of a row stand in the place of.
const MARKS: &[&str] = &["{1}", "{2}", "{3}", "{4}", "{5}"];

impl<C: Compiler> Checker<C> {
    /// Checks the cases of a file with this text, or those of one name.
    pub fn check_file(&mut self, file: &str, text: &str, name: &str) -> Done {
        let (front, cases) = text.split_once("\n[case ").unwrap_or((text, ""));
        let alloc = self.alloc;
        let mut head = Vec::new(alloc);
        read_sections(front, 1, &mut head)?;
        self.check_known(file, &head)?;
        let front = Case {
            alloc,
            file,
            line: lines_of(front),
            name,
            row: "",
            head: &head,
            own: &[],
        };
        self.check_cases(&front, cases)
    }

    fn check_known(&mut self, file: &str, sections: &[Section]) -> Done {
        for section in sections {
            if !section.is_known() {
                self.report
                    .fail(file, section.line, "there is no such section")?;
            }
        }
        Ok(())
    }

    /// Checks the cases of a text that stands behind the head, or those of one name.
    fn check_cases(&mut self, front: &Case<'_>, text: &str) -> Done {
        let mut line = front.line;
        for case in text.split("\n[case ") {
            let (name, own) = case.split_once("]\n").unwrap_or((case, ""));
            line = line.saturating_add(1);
            if front.name.is_empty() || front.name == name {
                let case = Case {
                    line,
                    name,
                    ..*front
                };
                self.check_text(&case, own)?;
            }
            line = line.saturating_add(lines_of(own));
        }
        Ok(())
    }

    /// Checks a case with this text, or each row of it: a line of its section `each`.
    fn check_text(&mut self, case: &Case<'_>, text: &str) -> Done {
        let mut own = Vec::new(case.alloc);
        read_case(case.line, text, &mut own)?;
        self.check_known(case.file, &own)?;
        match text_of(&own, "each") {
            Some(each) => self.check_rows(case, text, each),
            None => self.check_counted(&Case { own: &own, ..*case }),
        }
    }

    fn check_rows(&mut self, case: &Case<'_>, text: &str, each: &[u8]) -> Done {
        for row in str::from_utf8(each).unwrap_or("").lines() {
            match bounds_of(row) {
                Some((first, end)) => self.check_numbers(case, text, first, end)?,
                None => self.check_row(case, text, row)?,
            }
        }
        Ok(())
    }

    fn check_numbers(&mut self, case: &Case<'_>, text: &str, first: u64, end: u64) -> Done {
        for number in first..end {
            let row = format!(in case.alloc; "{number}")?;
            self.check_row(case, text, row.as_str())?;
        }
        Ok(())
    }

    /// Checks a case with a row in the place of `{0}`, and its parts, between which ` | ` stands, in those of `{1}`, `{2}` and
    /// so on.
    fn check_row(&mut self, case: &Case<'_>, text: &str, row: &str) -> Done {
        let text = filled(case.alloc, text, row)?;
        let mut own = Vec::new(case.alloc);
        read_case(case.line, text.as_str(), &mut own)?;
        let case = Case {
            row,
            own: &own,
            ..*case
        };
        self.check_counted(&case)
    }

    /// Checks a case, and counts it: it has passed where nothing is said of it.
    fn check_counted(&mut self, case: &Case<'_>) -> Done {
        let before = self.report.said.len();
        self.check_case(case)?;
        let has_passed = self.report.said.len() == before;
        self.report.count(has_passed);
        Ok(())
    }
}

fn lines_of(text: &str) -> usize {
    text.split('\n').count()
}

/// Reads the sections of a case, of which the first is its module.
fn read_case(line: usize, text: &str, sections: &mut Vec<Section>) -> Done {
    begin(line, MODULE, "", sections)?;
    read_sections(text, line.saturating_add(1), sections)
}

/// The numbers of a row `FIRST..END`, which is a row for each number from the first on and below the end.
fn bounds_of(row: &str) -> Option<(u64, u64)> {
    let (first, end) = row.split_once("..")?;
    Some((first.parse().ok()?, end.parse().ok()?))
}

/// The text with a row in it. A part that the row does not have is empty.
fn filled(alloc: Global, text: &str, row: &str) -> Result<String, AllocError> {
    let mut text = text.replace(alloc, "{0}", row)?;
    let mut parts = row.split(" | ");
    for mark in MARKS {
        let part = parts.next().unwrap_or("");
        text = text.replace(alloc, mark, part)?;
    }
    Ok(text)
}
