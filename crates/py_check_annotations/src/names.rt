//! What the names of an annotation stand for.
ghost use Rattle.std.specs.Prelude.{◌≡◌, map, IfOk};
ghost use Rattle.std.specs.Option.{option_map};
ghost use Rattle.py_typed.specs.Sorts.{sort, ListOf};
ghost use Rattle.py_typed.specs.Fits as fit;
ghost use Rattle.py_check_messages.specs.Seen.{Tells};
ghost use Rattle.py_check_annotations.specs.Names as spec;

use py_check_context::{Builtin, Imported, Meaning};
use py_check_messages::invalid_type;
use py_syntax::Span;
use py_syntax_diagnostics::Diag;
use py_typed::{Ty, is_key_type, optional};
use std::alloc::Global;
use value_core::{Many, Memory};

/// A form of types, which takes others in brackets.
#[derive(Clone, Copy, PartialEq, Eq)]
pub enum Former {
    List,
    Dict,
    Tuple,
    Optional,
}

/// The type that a name stands for by itself.
fn plain_type(meaning: Meaning) -> Option<Ty>
    ensures { option_map sort result ≡ spec.plain_type meaning }
{
    match meaning {
        Meaning::Builtin(Builtin::Int) => Some(Ty::Int),
        Meaning::Builtin(Builtin::Bool) => Some(Ty::Bool),
        Meaning::Builtin(Builtin::Str) => Some(Ty::Str),
        Meaning::Import(Imported::I64) => Some(Ty::I64),
        Meaning::Class(c) => Some(Ty::Class(c)),
        Meaning::Exception(c) => Some(Ty::Exc(c)),
        _ => None,
    }
}

/// The form of types that a name stands for.
pub(crate) fn former_of(meaning: Meaning) -> Option<Former>
    ensures { result ≡ spec.former_of meaning }
{
    match meaning {
        Meaning::Builtin(Builtin::List) => Some(Former::List),
        Meaning::Builtin(Builtin::Dict) => Some(Former::Dict),
        Meaning::Builtin(Builtin::Tuple) => Some(Former::Tuple),
        Meaning::Import(Imported::List) => Some(Former::List),
        Meaning::Import(Imported::Dict) => Some(Former::Dict),
        Meaning::Import(Imported::Tuple) => Some(Former::Tuple),
        Meaning::Import(Imported::Optional) => Some(Former::Optional),
        _ => None,
    }
}

pub(crate) fn is_unknown(meaning: Meaning) -> bool
    ensures { result ≡ spec.is_unknown meaning }
{
    matches!(meaning, Meaning::Unknown)
}

/// Whether a name has no type, and nothing is said of it.
pub(crate) fn is_untyped(meaning: Meaning) -> bool
    ensures { result ≡ spec.is_untyped meaning }
{
    match meaning {
        Meaning::UntypedClass => true,
        Meaning::Untyped => true,
        _ => false,
    }
}

/// The type that a name is as an annotation; of one that is not known nothing is said.
pub(crate) fn named(
    alloc: Global,
    meaning: Meaning,
    span: Span,
    faults: &mut Many<Diag>,
) -> Result<Option<Ty>, Memory>
    ensures { IfOk result (λ t. Tells sort t faults.old faults.new (spec.named meaning span)) }
{
    if is_unknown(meaning) || is_untyped(meaning) {
        return Ok(None);
    }
    valid(alloc, plain_type(meaning), span, faults)
}

/// The type, or that there is none.
pub(crate) fn valid(
    alloc: Global,
    t: Option<Ty>,
    span: Span,
    faults: &mut Many<Diag>,
) -> Result<Option<Ty>, Memory>
    ensures { IfOk result (λ r. Tells sort r faults.old faults.new (spec.valid span (option_map sort t))) }
{
    match t {
        Some(t) => Ok(Some(t)),
        None => {
            invalid_type(alloc, span, faults)?;
            Ok(None)
        }
    }
}

/// The type of a form with the types in its brackets, if it takes them.
pub(crate) fn applied(alloc: Global, former: Former, parts: Many<Ty>) -> Result<Option<Ty>, Memory>
    ensures { IfOk result (λ t. option_map sort t ≡ spec.applied former (map sort parts)) }
{
    match former {
        Former::List => list_of(alloc, only(parts)),
        Former::Optional => or_none(alloc, only(parts)),
        Former::Dict => some_dict(alloc, both_of(parts)),
        Former::Tuple => Ok(tuple_of(parts)),
    }
}

/// The one part, where there is one.
fn only(mut parts: Many<Ty>) -> Option<Ty>
    ensures { option_map sort result ≡ spec.only (map sort parts) }
{
    let last = parts.pop()?;
    if parts.is_empty() { Some(last) } else { None }
}

/// The two parts, where there are two.
fn both_of(mut parts: Many<Ty>) -> Option<(Ty, Ty)>
    ensures { option_map (λ p. (sort p.0, sort p.1)) result ≡ spec.both_of (map sort parts) }
{
    let last = parts.pop()?;
    let first = only(parts)?;
    Some((first, last))
}

fn list_of(alloc: Global, t: Option<Ty>) -> Result<Option<Ty>, Memory>
    ensures { IfOk result (λ r. option_map sort r ≡ option_map ListOf (option_map sort t)) }
{
    match t {
        Some(t) => Ok(Some(Ty::List(Box::new(alloc, t)?))),
        None => Ok(None),
    }
}

/// A type, or `None`.
pub(crate) fn or_none(alloc: Global, t: Option<Ty>) -> Result<Option<Ty>, Memory>
    ensures { IfOk result (λ r. option_map sort r ≡ option_map fit.optional (option_map sort t)) }
{
    match t {
        Some(t) => Ok(Some(optional(alloc, &t)?)),
        None => Ok(None),
    }
}

fn some_dict(alloc: Global, types: Option<(Ty, Ty)>) -> Result<Option<Ty>, Memory>
    ensures { IfOk result (λ r. option_map sort r ≡ spec.some_dict (option_map (λ p. (sort p.0, sort p.1)) types)) }
{
    match types {
        Some((k, t)) => dict_of(alloc, k, t),
        None => Ok(None),
    }
}

fn dict_of(alloc: Global, k: Ty, t: Ty) -> Result<Option<Ty>, Memory>
    ensures { IfOk result (λ r. option_map sort r ≡ spec.dict_of (sort k) (sort t)) }
{
    if !is_key_type(&k) {
        return Ok(None);
    }
    let k = Box::new(alloc, k)?;
    Ok(Some(Ty::Dict(k, Box::new(alloc, t)?)))
}

/// A tuple has 1 to 16 items.
fn tuple_of(parts: Many<Ty>) -> Option<Ty>
    ensures { option_map sort result ≡ spec.tuple_of (map sort parts) }
{
    if 0 < parts.len() && parts.len() < 17 {
        Some(Ty::Tuple(parts))
    } else {
        None
    }
}
