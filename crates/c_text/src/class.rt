//! The lines of classes. What a line seems to be is written again: it is that class only where the bytes are the same.
ghost use Rattle.std.specs.Prelude.{◌≡◌, ◌↔◌, Some, IsTrue, IfOk, IfSome, MatchOption};
ghost use Rattle.c_core.specs.declared.code.CClass.{CClass};
ghost use Rattle.c_core.specs.Text.{class_line};
ghost use Rattle.c_core.specs.WellFormed.{is_identifier, spelled_class};
ghost use Rattle.c_text.specs.Braces.{FindsFront};
ghost use Rattle.c_text.specs.Classes.{IsClass, IsNoClass, class_lists};
ghost use Rattle.c_text.specs.Writing.{Wrote};

use crate::braces::{next_items, write_next_items};
use crate::quote::write_quoted;
use crate::unquote::unquoted;
use crate::word::{behind, cut, is};
use crate::written::{name_word, write_word, write_words};
use c_core::{CClass, is_identifier};
use outside_core::{MemSink, Sink, WriteFault};
use std::alloc::Global;
use value_core::{Memory, Name};

/// The name of a class, as it stands in its quotes, and what stands behind them.
fn class_name(alloc: Global, piece: &[u8]) -> Result<Option<(Name, &[u8])>, Memory>
    ensures finds { (k : CClass) → IsTrue (spelled_class k) → class_line k ≡ piece.now →
        IfOk result (λ found. FindsFront found k.name (class_lists k)) }
    ensures spelled { IfOk result (λ found. IfSome found (λ p. IsTrue (is_identifier p.0))) }
{
    let Some(text) = behind(piece, b"CPyClass CPyType_") else {
        return Ok(None);
    };
    let Some((_, inside)) = cut(text, b'"') else {
        return Ok(None);
    };
    let Some((quoted, rest)) = unquoted(alloc, inside)? else {
        return Ok(None);
    };
    let name = Name::from_string(quoted.into_string());
    if is_identifier(name.as_str()) {
        Ok(Some((name, rest)))
    } else {
        Ok(None)
    }
}

/// The class that a line seems to be.
fn class_parts(alloc: Global, piece: &[u8]) -> Result<Option<CClass>, Memory>
    ensures finds { (k : CClass) → IsTrue (spelled_class k) → class_line k ≡ piece.now → IfOk result (λ found. found ≡ Some k) }
    ensures spelled { IfOk result (λ found. IfSome found (λ k. IsTrue (spelled_class k))) }
{
    let Some((name, lists)) = class_name(alloc, piece)? else {
        return Ok(None);
    };
    let (attrs, lists) = next_items(alloc, lists)?;
    let (methods, lists) = next_items(alloc, lists)?;
    let (traits, _) = next_items(alloc, lists)?;
    Ok(Some(CClass {
        name,
        attrs,
        methods,
        traits,
    }))
}

/// Whether a class is written so.
fn is_written(alloc: Global, class: &CClass, piece: &[u8]) -> Result<bool, Memory>
    ensures { IfOk result (λ same. IsTrue same ↔ (class_line class.now ≡ piece.now)) }
{
    let mut written = MemSink::new(alloc, Vec::new(alloc));
    match write_class(class, &mut written) {
        Ok(()) => Ok(is(written.bytes(), piece)),
        Err(_) => Err(Memory),
    }
}

/// The class that a line is.
pub(crate) fn class(alloc: Global, piece: &[u8]) -> Result<Option<CClass>, Memory>
    ensures { IfOk result (λ found. MatchOption found (IsNoClass piece.now) (IsClass piece.now)) }
{
    let Some(class) = class_parts(alloc, piece)? else {
        return Ok(None);
    };
    if is_written(alloc, &class, piece)? {
        Ok(Some(class))
    } else {
        Ok(None)
    }
}

/// Writes the line of a class, without its line feed.
pub(crate) fn write_class<O: Sink>(class: &CClass, out: &mut O) -> Result<(), WriteFault>
    ensures { Wrote result O.tells (O.faults out.old) (O.faults out.new) (O.taken out.old) (O.taken out.new)
        (class_line class.now) }
{
    let name = name_word(&class.name);
    write_words(&[b"CPyClass CPyType_", name], out)?;
    write_quoted(b" = {", name, out)?;
    write_lists(class, out)
}

/// Writes the lists of a class, and the end of its line.
fn write_lists<O: Sink>(class: &CClass, out: &mut O) -> Result<(), WriteFault>
    ensures { Wrote result O.tells (O.faults out.old) (O.faults out.new) (O.taken out.old) (O.taken out.new)
        (class_lists class.now) }
{
    write_next_items(&class.attrs, out)?;
    write_next_items(&class.methods, out)?;
    write_next_items(&class.traits, out)?;
    write_word(b"};", out)
}
