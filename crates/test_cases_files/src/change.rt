//! Modules that are changed at one place.
use bstr::ByteSlice;
use std::alloc::{AllocError, Global};

/// A text with a change: `cut N` leaves its first N bytes, `drop N` leaves out its line N, counted from 1, `double N` has it
/// twice, and `swap N` has it behind the next one.
pub fn changed(alloc: Global, text: &[u8], change: &str) -> Result<Vec<u8>, AllocError> {
    let (kind, number) = change.split_once(' ').unwrap_or((change, ""));
    let number: usize = number.parse().unwrap_or(0);
    if kind == "cut" {
        return Vec::from_slice(alloc, &text[..number.min(text.len())]);
    }
    let (front, rest) = split_lines(text, number.saturating_sub(1));
    let (line, rest) = split_lines(rest, 1);
    let (next, rest) = split_lines(rest, 1);
    match kind {
        "double" => joined(alloc, &[front, line, line, next, rest]),
        "swap" => joined(alloc, &[front, next, line, rest]),
        _ => joined(alloc, &[front, next, rest]),
    }
}

/// A text's first lines, so many, and what stands behind them.
fn split_lines(text: &[u8], count: usize) -> (&[u8], &[u8]) {
    let mut length = 0usize;
    for line in text.lines_with_terminator().take(count) {
        length = length.saturating_add(line.len());
    }
    text.split_at(length.min(text.len()))
}

fn joined(alloc: Global, parts: &[&[u8]]) -> Result<Vec<u8>, AllocError> {
    let mut text = Vec::new(alloc);
    for part in parts {
        text.extend_from_slice(part)?;
    }
    Ok(text)
}
