//! The lines of a program's input.
//!
//! What comes in is a source of bytes (`outside_core::Source`), lent to each call of `next`; what goes out are its lines one by
//! one, without their line feeds: texts (`Line`), lines that are not UTF-8 (`Bad`), the end (`Eof`), a line that ends further along
//! than bytes may be used (`Over`), or a fault. The promise: these are the items of the whole input (`Items` of value_core), whatever
//! follows the bytes that were read so far, and however many bytes each read gives. Nothing is read while a whole line is held, so no
//! more than one read's bytes are held behind a line, and never more than one byte is read past those that may be used. Before a call
//! `is_ready` tells whether it will read.
//! `specs/Reading.antt` says what an answer tells of the lines that are left, and `specs/ReaderState.antt` what is seen of a reader.
//!
//! `reader` has the reader: its bytes lie in one piece of memory, with the place where what is held begins and the place up to which no
//! line feed is, so a byte is searched once and moved at most once before it is used. `search` has what needs no reader.
#![tactic(auto)]

mod item;
mod read_fault;
mod reader;
mod search;

pub use item::Item;
pub use read_fault::ReadFault;
pub use reader::LineReader;
