//! One case, with the sections of the file's head and its own.
use crate::change::changed;
use crate::section::{MODULE, Section, text_of};
use bstr::ByteSlice;
use std::alloc::{AllocError, Global};

/// A case of a file: the line and the name that it begins with, the row of it that is looked at, and its sections. Those
/// of the head hold where it has none of the same key itself.
#[derive(Clone, Copy)]
pub struct Case<'a> {
    pub alloc: Global,
    pub file: &'a str,
    pub line: usize,
    pub name: &'a str,
    pub row: &'a str,
    pub head: &'a [Section],
    pub own: &'a [Section],
}

impl<'a> Case<'a> {
    /// The text with this key, if there is one.
    pub fn text(&self, key: &str) -> Option<&'a [u8]> {
        match text_of(self.own, key) {
            Some(text) => Some(text),
            None => text_of(self.head, key),
        }
    }

    /// The text with this key, without spaces around it; nothing where there is none.
    pub fn words(&self, key: &str) -> &'a str {
        match self.text(key) {
            Some(text) => str::from_utf8(text).unwrap_or("").trim(),
            None => "",
        }
    }

    /// The module that the commands read: its own stands in the place of the line `{case}` of the head's, and is then
    /// changed as the case says.
    pub fn module(&self) -> Result<Vec<u8>, AllocError> {
        let whole = self.whole_module()?;
        match self.text("change") {
            Some(_) => changed(self.alloc, &whole, self.words("change")),
            None => Ok(whole),
        }
    }

    fn whole_module(&self) -> Result<Vec<u8>, AllocError> {
        let own = text_of(self.own, MODULE).unwrap_or(b"");
        match text_of(self.head, MODULE) {
            Some(head) => head.replace(self.alloc, b"{case}\n", own),
            None => Vec::from_slice(self.alloc, own),
        }
    }
}
