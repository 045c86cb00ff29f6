//! From the bytes of a file to its module.
ghost use Rattle.std.specs.Prelude.{◌≡◌, true, false, Some, MatchResult, IfOk, IfErr};
ghost use Rattle.std.specs.Str.{chars, is_utf8};
ghost use Rattle.py_syntax.specs.Statements.{module_tree};
ghost use Rattle.py_syntax.specs.Tokens.{EndsOnce};
ghost use Rattle.py_parser_grammar.specs.Terminals.{IsLeftOutAt};
ghost use Rattle.py_lexer.specs.Tokens.{tokens_of};
ghost use Rattle.py_parser_grammar.specs.Faults.{IsTree};
ghost use Rattle.py_parser.specs.Whole.{IsRight};
ghost use Rattle.py_parser_source.specs.Modules.{HasTree, IsModule};
ghost use Rattle.py_parser_source.specs.Faults.{bad_line, line_at, key_at};
ghost use Rattle.py_parser_source.specs.Sayings.{fault_on, SaysOfTokens, SaysOfText, SaysOfFile};

use crate::fault::{FaultKind, SourceFault};
use crate::place::line_behind;
use py_lexer::{LexError, tokens};
use py_parser::{ParseError, module};
use py_syntax::{Key, Module, Token, TokenKind, Tokens};
use std::alloc::Global;

/// Why a file gives no module.
#[derive(Clone, Copy)]
pub enum SourceError {
    /// It has no tree, and this is all that is wrong with it.
    Faulty(SourceFault),
    /// Want of memory.
    Memory,
}

/// The module that a file is, or the one fault for which it is none. For want of memory the answer is `Memory`, also where
/// there is a fault.
#[tactic(auto, using(crate::proofs::SayingLemmas::no_text_said, crate::proofs::SayingLemmas::file_module, crate::proofs::SayingLemmas::file_said))]
pub fn read_module(alloc: Global, bytes: &[u8]) -> Result<Module, SourceError>
    ensures module { IfOk result (λ found. IsModule bytes.now (module_tree found)) }
    ensures fault { IfErr result (SaysOfFile bytes.now) }
{
    match text_of(bytes) {
        Ok(text) => read_text(alloc, text),
        Err(fault) => Err(SourceError::Faulty(fault)),
    }
}

/// The text of a file, or its first byte that belongs to no character.
#[tactic(auto, using(crate::proofs::SayingLemmas::not_text))]
fn text_of(bytes: &[u8]) -> Result<&str, SourceFault>
    ensures { MatchResult result
        (λ text. (text.now ≡ bytes.now) × (is_utf8 bytes.now ≡ true))
        (λ fault. (is_utf8 bytes.now ≡ false) × (fault ≡ fault_on (bad_line bytes.now) FaultKind.NoText)) }
{
    match str::from_utf8(bytes) {
        Ok(text) => Ok(text),
        Err(error) => Err(SourceFault {
            line: line_behind(&bytes[..error.valid_up_to()]),
            kind: FaultKind::NoText,
        }),
    }
}

/// The module of a text.
#[tactic(auto, using(crate::proofs::SayingLemmas::text_said))]
fn read_text(alloc: Global, text: &str) -> Result<Module, SourceError>
    ensures module { IfOk result (λ found. HasTree (chars text.now) (module_tree found)) }
    ensures fault { IfErr result (SaysOfText (chars text.now)) }
{
    let tokens = read_tokens(alloc, text)?;
    tree_of(alloc, &tokens)
}

/// The tokens of a text, or its first fault.
fn read_tokens(alloc: Global, text: &str) -> Result<Tokens, SourceError>
    ensures tokens { IfOk result (λ t. tokens_of (chars text.now) ≡ Ok t.list) }
    ensures ended { IfOk result (λ t. EndsOnce t.list) }
    ensures fault { IfErr result (SaysOfText (chars text.now)) }
{
    match tokens(alloc, text) {
        Ok(tokens) => Ok(tokens),
        Err(LexError::Fault(line, kind)) => Err(SourceError::Faulty(SourceFault {
            line,
            kind: FaultKind::NoToken(kind),
        })),
        Err(LexError::Memory) => Err(SourceError::Memory),
    }
}

/// The tree of a module's tokens, or their fault.
fn tree_of(alloc: Global, tokens: &Tokens) -> Result<Module, SourceError>
    requires { EndsOnce tokens.now.list }
    ensures tree { IfOk result (λ m. IsTree tokens.now.list (module_tree m)) }
    ensures fault { IfErr result (SaysOfTokens tokens.now.list) }
{
    match module(alloc, tokens) {
        Ok(module) => Ok(module),
        Err(error) => Err(tree_fault(tokens, error)),
    }
}

#[tactic(auto, using(crate::proofs::SayingLemmas::syntax_said, crate::proofs::SayingLemmas::profile_said, crate::proofs::SayingLemmas::too_deep_said))]
fn tree_fault(tokens: &Tokens, error: ParseError) -> SourceError
    requires { IsRight tokens.now.list (Err error) }
    ensures { SaysOfTokens tokens.now.list result }
{
    match error {
        ParseError::Syntax(place) => fault_at(tokens, place, FaultKind::NoTree),
        ParseError::Profile(place) => {
            let kind = FaultKind::LeftOut(keyword_at(tokens, place));
            fault_at(tokens, place, kind)
        }
        ParseError::TooDeep(place) => fault_at(tokens, place, FaultKind::TooDeep),
        ParseError::Memory => SourceError::Memory,
    }
}

/// A fault at a token, on its line.
fn fault_at(tokens: &Tokens, place: usize, kind: FaultKind) -> SourceError
    ensures { result ≡ SourceError.Faulty (fault_on (line_at tokens.now.list place) kind) }
{
    let line = tokens.list.get(place).map_or(0, |token| token.span.line);
    SourceError::Faulty(SourceFault { line, kind })
}

/// The keyword that a token is, of those that this language has not.
fn keyword_at(tokens: &Tokens, place: usize) -> Key
    requires { IsLeftOutAt tokens.now.list place }
    ensures { key_at tokens.now.list place ≡ Some result }
{
    match tokens.list.get(place) {
        Some(
            Token {
                kind: TokenKind::Key(key),
                ..
            },
        ) => *key,
        _ => unreachable!(),
    }
}
