//! Lists of tokens, with the trees that CPython has for them, or with their first fault.
ghost use Rattle.std.specs.Prelude.{◌≢◌, IfOk};
ghost use Rattle.std.specs.List.{AllByRecursion};
ghost use Rattle.py_syntax.specs.Tokens.{EndsOnce};
ghost use Rattle.py_syntax.specs.declared.token.TokenKind.TheVariants as k;

use crate::case::check;
use crate::py_parser_tables::{BLOCKS, EXPRESSIONS, LEFT_OUT, LINES, ROWS};
use crate::tree_text::suite_text;
use py_parser::{ParseError, module};
use py_syntax::{Key, Sign, Span, Token, TokenKind, Tokens};
use std::alloc::Global;
use std::process::Abort;
use std::test::Fail;
use value_core::{Many, Memory, Name, Text};

fn key_of(word: &str) -> Option<Key> {
    Key::ALL.iter().copied().find(|key| key.text() == word)
}

fn sign_of(word: &str) -> Option<Sign> {
    Sign::ALL.iter().copied().find(|sign| sign.text() == word)
}

#[tactic(auto, using(crate::proofs::Endings::others))]
fn kind_of(alloc: Global, word: &str) -> Result<TokenKind, Memory>
    ensures { IfOk result (λ kind. kind ≢ k.End) }
{
    if let Some(key) = key_of(word) {
        return Ok(TokenKind::Key(key));
    }
    if let Some(sign) = sign_of(word) {
        return Ok(TokenKind::Sign(sign));
    }
    if let Ok(value) = word.parse::<i128>() {
        return Ok(TokenKind::Int(value));
    }
    if let Some(text) = word.strip_prefix("'") {
        return Ok(TokenKind::Str(Text::from_str(alloc, text)?));
    }
    match word {
        "NEWLINE" => Ok(TokenKind::Newline),
        "INDENT" => Ok(TokenKind::Indent),
        "DEDENT" => Ok(TokenKind::Dedent),
        _ => Ok(TokenKind::Name(Name::from_str(alloc, word)?)),
    }
}

/// The tokens of words, of which none is `End`.
fn words_of(alloc: Global, text: &str) -> Result<Many<Token>, Memory>
    ensures { IfOk result (λ list. AllByRecursion (λ t. t.kind ≢ k.End) list) }
{
    let mut list = Many::new(alloc);
    'words: for word in text.split_ascii_whitespace() {
        let kind = kind_of(alloc, word)?;
        let col = list.len().saturating_add(1);
        let span = Span { line: 1, col };
        list.push(Token { kind, span })?;
    }
    Ok(list)
}

#[tactic(auto, using(crate::proofs::Endings::ended))]
fn tokens_of(alloc: Global, text: &str) -> Result<Tokens, Memory>
    ensures { IfOk result (λ tokens. EndsOnce tokens.list) }
{
    let mut list = words_of(alloc, text)?;
    let col = list.len().saturating_add(1);
    let span = Span { line: 1, col };
    let kind = TokenKind::End;
    list.push(Token { kind, span })?;
    Ok(Tokens { list })
}

fn shown(alloc: Global, text: &str) -> Result<String, Fail> {
    let tokens = tokens_of(alloc, text).ok().ok_or("no memory")?;
    let found = module(alloc, &tokens)?;
    let shown = suite_text(alloc, found.body.as_slice())?;
    Ok(shown)
}

fn fault_of(alloc: Global, text: &str) -> Result<Option<ParseError>, Fail> {
    let tokens = tokens_of(alloc, text).ok().ok_or("no memory")?;
    Ok(module(alloc, &tokens).err())
}

fn check_fault(
    rt: &impl Abort,
    alloc: Global,
    text: &str,
    want: Option<ParseError>,
) -> Result<(), Fail> {
    let found = fault_of(alloc, text)?;
    check(rt, &text, found == want);
    Ok(())
}

#[test]
fn trees_are_pythons(rt: HostRuntime) -> Result<(), Fail> {
    for (text, want) in ROWS {
        let found = shown(rt.alloc(), text)?;
        check(&rt, &(text, found.as_str()), found.as_str() == *want);
    }
    Ok(())
}

#[test]
fn faults_of_syntax(rt: HostRuntime) -> Result<(), Fail> {
    for table in [LINES, EXPRESSIONS, BLOCKS] {
        for (text, at) in table {
            check_fault(&rt, rt.alloc(), text, Some(ParseError::Syntax(*at)))?;
        }
    }
    for (text, at) in LEFT_OUT {
        check_fault(&rt, rt.alloc(), text, Some(ParseError::Profile(*at)))?;
    }
    Ok(())
}
