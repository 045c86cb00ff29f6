//! The tokens of a source text.
//!
//! What comes in is a text; what goes out are its tokens with their places, or the first fault with its line.
//! Either is exactly what `specs/Tokens.antt` defines, by cutting the text into pieces, the pieces into logical
//! lines, and by judging each line's column. What each token means is said a second time and apart from that, in
//! `specs/Spelling.antt`: how it is written. The code places the characters, and then reads them once, from left to
//! right, with a stack of brackets and one of columns.
#![tactic(auto)]

ghost use Rattle.std.specs.Prelude.{chars, ℕ, List, IfOk};
ghost use Rattle.py_syntax.specs.Tokens.{EndsOnce, AreBalanced, AreInOrder};
ghost use Rattle.py_lexer.specs.Laws.{AreSideBySide, AreSpelled};
ghost use Rattle.py_lexer.specs.Places.{start, plain};
ghost use Rattle.py_lexer.specs.Reading.{Gives};
ghost use Rattle.py_lexer.specs.Tokens.{tokens_of, pieces_of};

mod fault;
mod gap;
mod indent;
mod lexeme;
mod number;
mod placed;
mod plain;
mod read;
mod reader;
mod sign;
mod string;
mod word;

use crate::plain::{place_all, plain};
use crate::read::read;
pub use fault::{LexError, LexKind};
use py_lexer_words::characters;
use py_syntax::Tokens;
use std::alloc::Global;

/// The tokens of a text (Python Language Reference, "Lexical analysis"), or its first fault. For want of memory the
/// answer is `Memory`, also where a fault stands further on.
///
/// `End` stands last and nowhere else; indents and dedents are balanced; no token stands before an
/// earlier one. The text is what spells the tokens, each at its place, with nothing but gaps between them.
pub fn tokens(alloc: Global, text: &str) -> Result<Tokens, LexError>
    ensures exact { Gives (λ t. t.list) result (tokens_of (chars text.now)) }
    ensures ended { IfOk result (λ t. EndsOnce t.list) }
    ensures balanced { IfOk result (λ t. AreBalanced t.list) }
    ensures in_order { IfOk result (λ t. AreInOrder t.list) }
    ensures spelled { IfOk result (λ t. AreSpelled t.list start (plain (chars text.now))) }
{
    let text = characters(alloc, text)?;
    let text = plain(alloc, &text)?;
    let (text, end) = place_all(alloc, &text)?;
    read(alloc, &text, end)
}

/// A law of the definition: cutting a text into pieces loses nothing and moves nothing, and each piece is spelled by its
/// characters, also before a fault. The call does nothing.
#[tactic(auto, using(crate::proofs::PieceLemmas::side_by_side))]
pub fn pieces_lie_side_by_side()
    ensures { (text : List ℕ) → AreSideBySide start text (pieces_of text) }
{}
