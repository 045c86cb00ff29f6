//! The lines of a function, as they are written. What a line seems to be is written again: it is that line only where
//! the bytes are the same.
ghost use Rattle.std.specs.Prelude.{◌≡◌, ◌≢◌, ◌++◌, ◌↔◌, ℕ, List, Option, Some, None, codes, false, IsTrue, IfOk, MatchOption};
ghost use Rattle.std.specs.List.{list_all};
ghost use Rattle.c_core.specs.declared.code.CArg.{CArg};
ghost use Rattle.c_core.specs.declared.code.Line.{Line};
ghost use Rattle.c_core.specs.Text.{label_line, statement_text};
ghost use Rattle.c_core.specs.WellFormed.{is_call_name, is_declared, spelled_arg, spelled_target};
ghost use Rattle.c_text.specs.Words.{HasNo, IsBracketed, bracketed};
ghost use Rattle.c_text.specs.Variables.{Finds};
ghost use Rattle.c_text.specs.Statements.{AreNamed, FindsTarget, IsLine, IsNoLine, IsNoStatement, IsSpelledLine, IsStatement, Reads, args_text, assignment_text};

use crate::argument::arguments;
use crate::count::{count_named, counted};
use crate::jump::{goto, test};
use crate::method_call::{trait_call, virtual_call};
use crate::statement::write_statement;
use crate::variable::{Variables, variable, variable_of};
use crate::word::{before, behind, cut, inside_line, is, literal};
use c_core::{Line, is_call_name};
use itoa::Buffer;
use outside_core::MemSink;
use std::alloc::Global;
use std::str;
use value_core::{Memory, Name};

/// The bytes as the name in a call.
fn call_name(alloc: Global, bytes: &[u8]) -> Result<Option<Name>, Memory>
    ensures { IfOk result (λ found. MatchOption found (is_call_name bytes.now ≡ false) (λ name. (name ≡ bytes.now) × IsTrue (is_call_name bytes.now))) }
{
    let Ok(text) = str::from_utf8(bytes) else {
        return Ok(None);
    };
    if !is_call_name(text) {
        return Ok(None);
    }
    let name = Name::from_str(alloc, text)?;
    Ok(Some(name))
}

/// A word, and what stands between the brackets behind it.
fn word_and_inside(text: &[u8]) -> Option<(&[u8], &[u8])>
    ensures { MatchOption result ((word inside : List ℕ) → HasNo 40 word → bracketed word inside ≢ text.now) (λ p. IsBracketed p.0.now p.1.now text.now) }
{
    match cut(text, b'(') {
        Some((word, rest)) => match before(rest, b")") {
            Some(inside) => Some((word, inside)),
            None => None,
        },
        None => None,
    }
}

/// The call of a word with what stands between its brackets.
fn call_of(
    alloc: Global,
    vars: &Variables,
    target: Option<usize>,
    word: &[u8],
    inside: &[u8],
) -> Result<Option<Line>, Memory>
    requires named { AreNamed vars.now }
    requires declared { IsTrue (spelled_target vars.now target) }
    ensures finds { (args : List CArg) → IsTrue (is_call_name word.now) → IsTrue (list_all (spelled_arg vars.now) args) → args_text vars.now args ≡ inside.now →
        IfOk result (λ found. Finds (statement_text vars.now) found (Line.Call target word.now args)) }
    ensures spelled { IfOk result (IsSpelledLine vars.now) }
{
    let Some(name) = call_name(alloc, word)? else {
        return Ok(None);
    };
    match arguments(alloc, vars, inside)? {
        Some(args) => Ok(Some(Line::Call(target, name, args))),
        None => Ok(None),
    }
}

/// A turn, a count or a call without a target, by its word and what stands between its brackets.
fn word_statement(
    alloc: Global,
    vars: &Variables,
    word: &[u8],
    inside: &[u8],
) -> Result<Option<Line>, Memory>
    requires named { AreNamed vars.now }
    requires plain { HasNo 40 word.now }
    requires begins { (rest : List ℕ) × (bracketed word.now inside.now ≡ codes "CPy" ++ rest) }
    ensures { IfOk result (Reads vars.now (bracketed word.now inside.now)) }
{
    if is(word, b"CPyTurn") {
        return Ok(Some(Line::Turn));
    }
    let Some((count, kind)) = count_named(word) else {
        return call_of(alloc, vars, None, word, inside);
    };
    match variable_of(vars, inside, kind) {
        Some(place) => Ok(Some(counted(count, place))),
        None => Ok(None),
    }
}

/// A statement that begins with a word of the runtime.
fn call(alloc: Global, vars: &Variables, text: &[u8]) -> Result<Option<Line>, Memory>
    requires named { AreNamed vars.now }
    requires begins { (rest : List ℕ) × (text.now ≡ codes "CPy" ++ rest) }
    ensures { IfOk result (Reads vars.now text.now) }
{
    match word_and_inside(text) {
        Some((word, inside)) => word_statement(alloc, vars, word, inside),
        None => Ok(None),
    }
}

/// An assignment of what a call answers, by the word of the call and what stands between its brackets.
fn called(
    alloc: Global,
    vars: &Variables,
    place: usize,
    word: &[u8],
    inside: &[u8],
) -> Result<Option<Line>, Memory>
    requires named { AreNamed vars.now }
    requires declared { IsTrue (is_declared vars.now place) }
    requires plain { HasNo 40 word.now }
    requires begins { (rest : List ℕ) × (bracketed word.now inside.now ≡ codes "CPy" ++ rest) }
    ensures { IfOk result (Reads vars.now (assignment_text vars.now place (bracketed word.now inside.now))) }
{
    if is(word, b"CPyVirtual") {
        virtual_call(alloc, vars, place, inside)
    } else if is(word, b"CPyTrait") {
        trait_call(alloc, vars, place, inside)
    } else {
        call_of(alloc, vars, Some(place), word, inside)
    }
}

/// An assignment to a variable, by what is assigned: a call, a variable or a literal.
fn assigned(
    alloc: Global,
    vars: &Variables,
    place: usize,
    value: &[u8],
) -> Result<Option<Line>, Memory>
    requires named { AreNamed vars.now }
    requires declared { IsTrue (is_declared vars.now place) }
    ensures { IfOk result (Reads vars.now (assignment_text vars.now place value.now)) }
{
    if let Some(_) = behind(value, b"CPy") {
        match word_and_inside(value) {
            Some((word, inside)) => called(alloc, vars, place, word, inside),
            None => Ok(None),
        }
    } else if let Some(_) = behind(value, b"cpy_") {
        match variable(vars, value) {
            Some(source) => Ok(Some(Line::Move(place, source))),
            None => Ok(None),
        }
    } else {
        match literal(value) {
            Some(literal) => Ok(Some(Line::Lit(place, literal))),
            None => Ok(None),
        }
    }
}

/// The target of an assignment, and what stands behind the equals sign.
fn target<'a>(vars: &Variables, text: &'a [u8]) -> Option<(usize, &'a [u8])>
    requires { AreNamed vars.now }
    ensures { FindsTarget vars.now result text.now }
{
    let Some((word, rest)) = cut(text, b' ') else {
        return None;
    };
    let Some(value) = behind(rest, b"= ") else {
        return None;
    };
    match variable(vars, word) {
        Some(place) => Some((place, value)),
        None => None,
    }
}

/// A statement that begins with a variable.
fn assignment(alloc: Global, vars: &Variables, text: &[u8]) -> Result<Option<Line>, Memory>
    requires named { AreNamed vars.now }
    requires begins { (rest : List ℕ) × (text.now ≡ codes "cpy_" ++ rest) }
    ensures { IfOk result (Reads vars.now text.now) }
{
    match target(vars, text) {
        Some((place, value)) => assigned(alloc, vars, place, value),
        None => Ok(None),
    }
}

/// A return, by the word of its variable.
fn returned(vars: &Variables, word: &[u8]) -> Option<Line>
    ensures { Reads vars.now (codes "return " ++ word.now) result }
{
    match variable(vars, word) {
        Some(place) => Some(Line::Return(place)),
        None => None,
    }
}

/// A statement: what stands between the spaces and the semicolon of its line.
fn statement(alloc: Global, vars: &Variables, text: &[u8]) -> Result<Option<Line>, Memory>
    requires { AreNamed vars.now }
    ensures { IfOk result (Reads vars.now text.now) }
{
    if let Some(_) = behind(text, b"cpy_") {
        assignment(alloc, vars, text)
    } else if let Some(_) = behind(text, b"CPy") {
        call(alloc, vars, text)
    } else if let Some(digits) = behind(text, b"goto CPyL") {
        Ok(goto(digits))
    } else if let Some(rest) = behind(text, b"if (") {
        Ok(test(vars, rest))
    } else if let Some(word) = behind(text, b"return ") {
        Ok(returned(vars, word))
    } else {
        Ok(None)
    }
}

/// Whether a statement is written so.
fn is_written(alloc: Global, vars: &Variables, line: &Line, text: &[u8]) -> Result<bool, Memory>
    ensures { IfOk result (λ same. IsTrue same ↔ (statement_text vars.now line.now ≡ text.now)) }
{
    let mut written = MemSink::new(alloc, Vec::new(alloc));
    match write_statement(vars.list(), line, &mut written) {
        Ok(()) => Ok(is(written.bytes(), text)),
        Err(_) => Err(Memory),
    }
}

/// The statement that a text is.
fn written_statement(alloc: Global, vars: &Variables, text: &[u8]) -> Result<Option<Line>, Memory>
    requires { AreNamed vars.now }
    ensures { IfOk result (λ found. MatchOption found (IsNoStatement vars.now text.now) (IsStatement vars.now text.now)) }
{
    let Some(line) = statement(alloc, vars, text)? else {
        return Ok(None);
    };
    if is_written(alloc, vars, &line, text)? {
        Ok(Some(line))
    } else {
        Ok(None)
    }
}

/// Whether a line is the label of a number.
fn is_label(number: usize, piece: &[u8]) -> bool
    ensures { IsTrue result ↔ (label_line number ≡ piece.now) }
{
    let Some(rest) = behind(piece, b"CPyL") else {
        return false;
    };
    let Some(digits) = before(rest, b": ;") else {
        return false;
    };
    let mut buffer = Buffer::new();
    is(digits, buffer.format(number).as_bytes())
}

/// The line of a function that is written so, where so many labels stand above it.
pub(crate) fn line(
    alloc: Global,
    vars: &Variables,
    labels: usize,
    piece: &[u8],
) -> Result<Option<Line>, Memory>
    requires { AreNamed vars.now }
    ensures { IfOk result (λ found. MatchOption found (IsNoLine vars.now labels piece.now) (IsLine vars.now labels piece.now)) }
{
    if is_label(labels, piece) {
        return Ok(Some(Line::Label));
    }
    match inside_line(piece) {
        Some(text) => written_statement(alloc, vars, text),
        None => Ok(None),
    }
}
