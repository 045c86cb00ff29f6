//! Copies and texts of types.
ghost use Rattle.std.specs.Prelude.{◌≡◌, ◌++◌, map, slice_get, IfOk};
ghost use Rattle.std.specs.String.{string_bytes};
ghost use Rattle.py_typed.specs.Sorts.{sort, sorts_of};
ghost use Rattle.py_typed.specs.Classes.{class_entry};
ghost use Rattle.py_typed.specs.TypeTexts as written;

use crate::classes::{ClassInfo, Classes};
use crate::types::Ty;
use std::alloc::Global;
use value_core::{Many, Memory, Text};

/// A copy of a type.
#[cycle(copies)]
pub fn copy_of(alloc: Global, t: &Ty) -> Result<Ty, Memory>
    ensures { IfOk result (λ copy. sort copy ≡ sort t.now) }
{
    match t {
        Ty::Int => Ok(Ty::Int),
        Ty::I64 => Ok(Ty::I64),
        Ty::Bool => Ok(Ty::Bool),
        Ty::Str => Ok(Ty::Str),
        Ty::Nothing => Ok(Ty::Nothing),
        Ty::List(t) => {
            let t = copy_of(alloc, t)?;
            Ok(Ty::List(Box::new(alloc, t)?))
        }
        Ty::Dict(k, t) => {
            let k = copy_of(alloc, k)?;
            let k = Box::new(alloc, k)?;
            let t = copy_of(alloc, t)?;
            Ok(Ty::Dict(k, Box::new(alloc, t)?))
        }
        Ty::Tuple(ts) => {
            let ts = copies(alloc, ts.as_slice())?;
            Ok(Ty::Tuple(ts))
        }
        Ty::Optional(t) => {
            let t = copy_of(alloc, t)?;
            Ok(Ty::Optional(Box::new(alloc, t)?))
        }
        Ty::Class(c) => Ok(Ty::Class(*c)),
        Ty::Exc(c) => Ok(Ty::Exc(*c)),
    }
}

// Copies of types.
#[cycle(copies)]
fn copies(alloc: Global, ts: &[Ty]) -> Result<Many<Ty>, Memory>
    ensures { IfOk result (λ copies. map sort copies ≡ map sort ts.now) }
{
    let mut found = Many::new(alloc);
    for t in ts {
        found.push(copy_of(alloc, t)?)?;
    }
    Ok(found)
}

/// A type as diagnostics write it.
pub fn type_text(alloc: Global, t: &Ty, classes: &Classes) -> Result<Text, Memory>
    ensures { IfOk result (λ text. text ≡ written.type_text (map class_entry classes.now.list) (sort t.now)) }
{
    let mut text = String::new(alloc);
    write_type(t, classes.list.as_slice(), &mut text)?;
    Ok(Text::from_string(text))
}

// Puts the text of a type behind a text.
#[cycle(texts)]
fn write_type(t: &Ty, classes: &[ClassInfo], text: &mut String) -> Result<(), Memory>
    ensures { IfOk result (λ done. string_bytes text.new ≡ string_bytes text.old ++ written.type_text (map class_entry classes.now) (sort t.now)) }
{
    match t {
        Ty::Int => text.push_str("int")?,
        Ty::I64 => text.push_str("i64")?,
        Ty::Bool => text.push_str("bool")?,
        Ty::Str => text.push_str("str")?,
        Ty::Nothing => text.push_str("None")?,
        Ty::List(t) => {
            text.push_str("list[")?;
            write_type(t, classes, text)?;
            text.push_str("]")?;
        }
        Ty::Dict(k, t) => {
            text.push_str("dict[")?;
            write_type(k, classes, text)?;
            text.push_str(", ")?;
            write_type(t, classes, text)?;
            text.push_str("]")?;
        }
        Ty::Tuple(ts) => {
            text.push_str("tuple[")?;
            write_types(ts.as_slice(), classes, text)?;
            text.push_str("]")?;
        }
        Ty::Optional(t) => {
            text.push_str("Optional[")?;
            write_type(t, classes, text)?;
            text.push_str("]")?;
        }
        Ty::Class(c) => text.push_str(name_of(classes, *c))?,
        Ty::Exc(c) => text.push_str(c.name())?,
    }
    Ok(())
}

// The name of the class of a number.
#[tactic(auto, using(crate::proofs::TypeLemmas::entry_found))]
fn name_of(classes: &[ClassInfo], c: usize) -> &str
    ensures { result.now ≡ written.name_in (slice_get (map class_entry classes.now) c) }
{
    match classes.get(c) {
        Some(info) => info.name.as_str(),
        None => "",
    }
}

// The same of types with commas between them.
#[cycle(texts)]
fn write_types(ts: &[Ty], classes: &[ClassInfo], text: &mut String) -> Result<(), Memory>
    ensures { IfOk result (λ done. string_bytes text.new ≡ string_bytes text.old ++ written.types_text (map class_entry classes.now) (sorts_of (map sort ts.now))) }
{
    for (i, t) in ts.iter().enumerate() {
        if i > 0 {
            text.push_str(", ")?;
        }
        write_type(t, classes, text)?;
    }
    Ok(())
}
