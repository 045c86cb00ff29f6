//! Declarations and globals, as they are written.
ghost use Rattle.std.specs.Prelude.{◌≡◌, ◌≢◌, ◌++◌, List, ℕ, IsTrue, IfOk, MatchOption};
ghost use Rattle.c_core.specs.declared.code.Kind.{Kind};
ghost use Rattle.c_core.specs.Text.{declaration_text, global_line, indented, kind_text};
ghost use Rattle.c_core.specs.WellFormed.{Declared, is_identifier};

use crate::word::{before, behind, inside_line, name};
use c_core::Kind;
use std::alloc::Global;
use value_core::{Memory, Name};

/// A kind as it stands before a name, and what stands behind it.
fn front_kind(text: &[u8]) -> Option<(Kind, &[u8])>
    ensures { MatchOption result ((kind : Kind) (rest : List ℕ) → kind_text kind ++ rest ≢ text.now) (λ p. kind_text p.0 ++ p.1.now ≡ text.now) }
{
    if let Some(rest) = behind(text, b"CPyTagged ") {
        Some((Kind::Tagged, rest))
    } else if let Some(rest) = behind(text, b"int64_t ") {
        Some((Kind::Int64, rest))
    } else if let Some(rest) = behind(text, b"char ") {
        Some((Kind::Char, rest))
    } else if let Some(rest) = behind(text, b"PyObject *") {
        Some((Kind::Object, rest))
    } else {
        None
    }
}

/// The kind and the name that a text declares, where this prefix stands between them.
pub(crate) fn kind_and_name(
    alloc: Global,
    text: &[u8],
    prefix: &[u8],
) -> Result<Option<(Name, Kind)>, Memory>
    ensures { IfOk result (λ found. MatchOption found ((v : Declared) → IsTrue (is_identifier v.0) → kind_text v.1 ++ (prefix.now ++ v.0) ≢ text.now)
        (λ v. IsTrue (is_identifier v.0) × (kind_text v.1 ++ (prefix.now ++ v.0) ≡ text.now))) }
{
    let Some((kind, rest)) = front_kind(text) else {
        return Ok(None);
    };
    let Some(bytes) = behind(rest, prefix) else {
        return Ok(None);
    };
    match name(alloc, bytes)? {
        Some(name) => Ok(Some((name, kind))),
        None => Ok(None),
    }
}

/// The variable that a line declares.
pub(crate) fn declaration(alloc: Global, piece: &[u8]) -> Result<Option<(Name, Kind)>, Memory>
    ensures { IfOk result (λ found. MatchOption found ((v : Declared) → IsTrue (is_identifier v.0) → indented (declaration_text v) ≢ piece.now)
        (λ v. IsTrue (is_identifier v.0) × (indented (declaration_text v) ≡ piece.now))) }
{
    match inside_line(piece) {
        Some(text) => kind_and_name(alloc, text, b"cpy_"),
        None => Ok(None),
    }
}

/// The global that a line declares.
pub(crate) fn global(alloc: Global, piece: &[u8]) -> Result<Option<(Name, Kind)>, Memory>
    ensures { IfOk result (λ found. MatchOption found ((v : Declared) → IsTrue (is_identifier v.0) → global_line v ≢ piece.now)
        (λ v. IsTrue (is_identifier v.0) × (global_line v ≡ piece.now))) }
{
    match before(piece, b";") {
        Some(text) => kind_and_name(alloc, text, b"CPyStatic_"),
        None => Ok(None),
    }
}
