//! The sections of a case file: a line `[KEY]` or `[KEY] TEXT`, and the lines of its text below it.
use crate::Done;
use bstr::ByteVec;
use std::alloc::{AllocError, Global};

/// The key of the module's own section.
pub const MODULE: &str = "file t.py";

const KEYS: &[&str] = &[
    MODULE,
    "change",
    "words",
    "input",
    "pieces",
    "fails files",
    "fails input",
    "fails out",
    "fails err",
    "out",
    "err",
    "status",
    "prefix",
    "left",
    "check",
    "c",
    "counts",
    "runc",
    "each",
];

#[derive(Drop)]
pub struct Section {
    pub line: usize,
    key: String,
    text: Vec<u8>,
    /// How many blank lines stand behind its text. They are no part of it unless a further line follows.
    blank_lines: usize,
}

impl Section {
    /// Whether there is such a section.
    pub fn is_known(&self) -> bool {
        KEYS.contains(&self.key.as_str())
    }

    /// Takes a line.
    fn take_line(&mut self, line: &str) -> Done {
        if line.is_empty() {
            self.blank_lines = self.blank_lines.saturating_add(1);
            return Ok(());
        }
        self.take_blank_lines()?;
        self.text.extend_from_slice(line.as_bytes())?;
        self.text.extend_from_slice(b"\n")
    }

    fn take_blank_lines(&mut self) -> Done {
        for _ in 0..self.blank_lines {
            self.text.extend_from_slice(b"\n")?;
        }
        self.blank_lines = 0;
        Ok(())
    }

    /// Takes a text with escapes so often, and no end of a line. In each of them `{n}` is its number, from 0 on, `{n+1}`
    /// the next one, and `{spaces}` so many spaces.
    fn repeat(&mut self, text: &str, count: u64) -> Done {
        self.take_blank_lines()?;
        if text.contains('{') {
            return self.repeat_numbered(text, count);
        }
        let bytes = Vec::<u8>::unescape_bytes(*self.text.allocator(), text)?;
        for _ in 0..count {
            self.text.extend_from_slice(&bytes)?;
        }
        Ok(())
    }

    fn repeat_numbered(&mut self, text: &str, count: u64) -> Done {
        for number in 0..count {
            self.take_numbered(text, number)?;
        }
        Ok(())
    }

    fn take_numbered(&mut self, text: &str, number: u64) -> Done {
        let alloc = *self.text.allocator();
        let text = numbered(alloc, text, number)?;
        let bytes = Vec::<u8>::unescape_bytes(alloc, text.as_str())?;
        self.text.extend_from_slice(&bytes)
    }
}

fn numbered(alloc: Global, text: &str, number: u64) -> Result<String, AllocError> {
    let text = with_number(alloc, text, "{n+1}", number.saturating_add(1))?;
    let text = with_number(alloc, text.as_str(), "{n}", number)?;
    let spaces = spaces(alloc, number)?;
    text.replace(alloc, "{spaces}", spaces.as_str())
}

/// A text with a number in the place of a mark.
fn with_number(alloc: Global, text: &str, mark: &str, number: u64) -> Result<String, AllocError> {
    let number = format!(in alloc; "{number}")?;
    text.replace(alloc, mark, number.as_str())
}

fn spaces(alloc: Global, count: u64) -> Result<String, AllocError> {
    let mut spaces = String::new(alloc);
    for _ in 0..count {
        spaces.push(' ')?;
    }
    Ok(spaces)
}

/// Reads the sections of a text whose first line has this number. A line that begins with `--` is a comment; before `[`
/// and `--` at the front of a line `\` is left out.
pub fn read_sections(text: &str, first: usize, sections: &mut Vec<Section>) -> Done {
    for (index, line) in text.lines().enumerate() {
        let number = index.saturating_add(first);
        if let Some(header) = line.strip_prefix('[') {
            take_header(number, header, sections)?;
        } else if !line.starts_with("--") {
            take_line(number, line, sections)?;
        }
    }
    Ok(())
}

/// Takes a line without its `[`. Those of `[escaped] TEXT` and `[repeat N] TEXT` belong to the text of the section.
fn take_header(number: usize, header: &str, sections: &mut Vec<Section>) -> Done {
    let (key, text) = header.split_once(']').unwrap_or(("", header));
    let text = text.strip_prefix(' ').unwrap_or(text);
    match sections.last_mut() {
        Some(section) if key == "escaped" => section.repeat(text, 1),
        Some(section) if key.starts_with("repeat ") => section.repeat(text, count_of(key)),
        _ => begin(number, key, text, sections),
    }
}

fn count_of(key: &str) -> u64 {
    key.strip_prefix("repeat ")
        .unwrap_or("")
        .parse()
        .unwrap_or(0)
}

/// Begins a section with this line, key and text.
pub fn begin(line: usize, key: &str, text: &str, sections: &mut Vec<Section>) -> Done {
    let alloc = *sections.allocator();
    let key = String::from_str(alloc, key)?;
    let text = Vec::from_slice(alloc, text.as_bytes())?;
    sections.push(Section {
        line,
        key,
        text,
        blank_lines: 0,
    })?;
    Ok(())
}

fn take_line(number: usize, line: &str, sections: &mut Vec<Section>) -> Done {
    let text = match line.strip_prefix('\\') {
        Some(text) if text.starts_with('[') || text.starts_with("--") => text,
        _ => line,
    };
    match sections.last_mut() {
        Some(section) => section.take_line(text),
        None if line.is_empty() => Ok(()),
        // A text before the first section: a section that is not known.
        None => begin(number, "", text, sections),
    }
}

/// The text of the first section with this key.
pub fn text_of<'a>(sections: &'a [Section], key: &str) -> Option<&'a [u8]> {
    for section in sections {
        if section.key.as_str() == key {
            return Some(section.text.as_slice());
        }
    }
    None
}
