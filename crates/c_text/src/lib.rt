//! The C text of a code, written and read.
//!
//! `write`: what comes in is a `Code` and a sink; what goes out are the bytes of the code's one text. Where the sink
//! refuses a call, a front of the text has gone out. The one text is `code_text` of c_core's `specs/Text.antt`;
//! `writer.rt` goes from the whole code to its lines, `statement.rt` writes a line, `class.rt` that of a class,
//! `quote.rt` a text in quotes, and `written.rt` the words that these are made of.
//!
//! `read`: what comes in are bytes; what goes out is the code that has them as its text, or the place of the first line
//! that cannot stand, exactly as `specs/Reading.antt` says. There is one relation for both ways: a line is read as what
//! it seems to be, and is that line only where writing it gives the same bytes. `reader.rt` goes from line to line,
//! `part.rt` says which line may follow, `declaration.rt`, `line.rt`, `argument.rt` and `method_call.rt` read the parts of
//! a line, `class.rt` the line of a class, whose lists are those of `braces.rt` with the items of `class_items.rt`,
//! `unquote.rt` a text in quotes, `variable.rt` finds variables by their names, and `word.rt` reads words. The laws are that
//! a text is refused at one place (`places_are_one`), and that it has at most one well-formed code (`codes_are_one`).
#![tactic(auto)]

mod argument;
mod braces;
mod class;
mod class_items;
mod count;
mod declaration;
mod head;
mod jump;
mod laws;
mod line;
mod lines;
mod method_call;
mod part;
mod quote;
mod reader;
mod statement;
mod text_error;
mod unquote;
mod variable;
mod word;
mod writer;
mod written;

pub use laws::{codes_are_one, places_are_one};
pub use reader::read;
pub use text_error::TextError;
pub use writer::write;
