//! When a value of one type stands where another is asked for, and the type of a choice.
ghost use Rattle.std.specs.Prelude.{◌≡◌, map, IfOk};
ghost use Rattle.std.specs.Option.{option_map};
ghost use Rattle.py_typed.specs.Sorts.{sort, sorts_of};
ghost use Rattle.py_typed.specs.Classes.{class_entry};
ghost use Rattle.py_typed.specs.Fits as fit;
ghost use Rattle.py_typed.specs.WellTypedExpr as well_typed;

use crate::class_list::ClassList;
use crate::classes::Classes;
use crate::copies::copy_of;
use crate::types::Ty;
use std::alloc::Global;
use value_core::{Memory, is_under};

/// Whether a value of the first type stands where the second is asked for, changed if need be.
pub fn fits(s: &Ty, t: &Ty, classes: &Classes) -> bool
    ensures { result ≡ fit.fits (map class_entry classes.now.list) (sort s.now) (sort t.now) }
{
    takes(t, s, &classes.list)
}

/// The type of a choice between two, if there is one.
pub fn join(alloc: Global, s: &Ty, t: &Ty, classes: &Classes) -> Result<Option<Ty>, Memory>
    ensures { IfOk result (λ j. option_map sort j ≡ fit.join (map class_entry classes.now.list) (sort s.now) (sort t.now)) }
{
    let list = &classes.list;
    let joined = if is_same_type(s, t) {
        copy_of(alloc, s)?
    } else if is_number(s) && is_number(t) {
        number_join(s, t)
    } else if is_nothing(s) {
        optional(alloc, t)?
    } else if is_nothing(t) {
        optional(alloc, s)?
    } else if is_also(t, s, list) {
        copy_of(alloc, t)?
    } else if is_also(s, t, list) {
        copy_of(alloc, s)?
    } else {
        return Ok(None);
    };
    Ok(Some(joined))
}

/// Whether a value of the first type is one of the second as it stands.
pub fn same(s: &Ty, t: &Ty, classes: &Classes) -> bool
    ensures { result ≡ fit.same (map class_entry classes.now.list) (sort s.now) (sort t.now) }
{
    is_also(t, s, &classes.list)
}

/// Whether two types are one.
#[cycle(one)]
pub fn is_same_type(s: &Ty, t: &Ty) -> bool
    ensures { result ≡ fit.is_same_type (sort s.now) (sort t.now) }
{
    match (s, t) {
        (Ty::Int, Ty::Int) => true,
        (Ty::I64, Ty::I64) => true,
        (Ty::Bool, Ty::Bool) => true,
        (Ty::Str, Ty::Str) => true,
        (Ty::Nothing, Ty::Nothing) => true,
        (Ty::List(s), Ty::List(t)) => is_same_type(s, t),
        (Ty::Dict(j, s), Ty::Dict(k, t)) => is_same_type(j, k) && is_same_type(s, t),
        (Ty::Tuple(ss), Ty::Tuple(ts)) => are_same_types(ss.as_slice(), ts.as_slice()),
        (Ty::Optional(s), Ty::Optional(t)) => is_same_type(s, t),
        (Ty::Class(c), Ty::Class(d)) => *c == *d,
        (Ty::Exc(c), Ty::Exc(d)) => c.name() == d.name(),
        _ => false,
    }
}

#[cycle(one)]
#[tactic(auto, using(crate::proofs::TypeLemmas::same_at_end))]
fn are_same_types(ss: &[Ty], ts: &[Ty]) -> bool
    ensures { result ≡ fit.are_same_types (sorts_of (map sort ss.now)) (sorts_of (map sort ts.now)) }
{
    for (i, s) in ss.iter().enumerate() {
        let Some(t) = ts.get(i) else {
            return false;
        };
        if !is_same_type(s, t) {
            return false;
        }
    }
    ss.len() == ts.len()
}

// Whether a value of the second type is one of the first as it stands: the recursion goes down the first.
#[cycle(also)]
fn is_also(t: &Ty, s: &Ty, classes: &ClassList) -> bool
    ensures { result ≡ fit.same (map class_entry classes.now) (sort s.now) (sort t.now) }
{
    match (t, s) {
        (Ty::Optional(_), Ty::Nothing) => true,
        (Ty::Optional(t), Ty::Optional(s)) => is_also(t, s, classes),
        (Ty::Optional(t), _) => is_also(t, s, classes),
        (Ty::Tuple(ts), Ty::Tuple(ss)) => are_also(ts.as_slice(), ss.as_slice(), classes),
        (Ty::Class(d), Ty::Class(c)) => classes.is_under(*c, *d),
        (Ty::Exc(d), Ty::Exc(c)) => is_under(*c, *d),
        _ => is_same_type(s, t),
    }
}

#[cycle(also)]
#[tactic(auto, using(crate::proofs::TypeLemmas::also_at_end))]
fn are_also(ts: &[Ty], ss: &[Ty], classes: &ClassList) -> bool
    ensures { result ≡ fit.all_same (map class_entry classes.now) (sorts_of (map sort ss.now)) (sorts_of (map sort ts.now)) }
{
    for (i, t) in ts.iter().enumerate() {
        let Some(s) = ss.get(i) else {
            return false;
        };
        if !is_also(t, s, classes) {
            return false;
        }
    }
    ss.len() == ts.len()
}

// Whether a value of the second type stands where the first is asked for.
fn takes(t: &Ty, s: &Ty, classes: &ClassList) -> bool
    ensures { result ≡ fit.fits (map class_entry classes.now) (sort s.now) (sort t.now) }
{
    match (t, s) {
        (Ty::Int, _) => is_number(s),
        (Ty::I64, _) => is_number(s),
        (Ty::Optional(_), Ty::Nothing) => true,
        (Ty::Optional(t), Ty::Optional(s)) => is_also(t, s, classes),
        (Ty::Optional(t), _) => takes(t, s, classes),
        _ => is_also(t, s, classes),
    }
}

/// Whether a type is one of numbers: int, i64 or bool.
pub fn is_number(t: &Ty) -> bool
    ensures { result ≡ fit.is_number (sort t.now) }
{
    matches!(t, Ty::Int | Ty::I64 | Ty::Bool)
}

/// Whether a type is that of `None`.
pub fn is_nothing(t: &Ty) -> bool
    ensures { result ≡ fit.is_nothing (sort t.now) }
{
    matches!(t, Ty::Nothing)
}

/// Whether a type is that of texts.
pub fn is_text(t: &Ty) -> bool
    ensures { result ≡ fit.is_text (sort t.now) }
{
    matches!(t, Ty::Str)
}

/// Whether a type is one of dicts.
pub fn is_dict(t: &Ty) -> bool
    ensures { result ≡ fit.is_dict (sort t.now) }
{
    matches!(t, Ty::Dict(_, _))
}

/// Whether a dict may have keys of a type: texts and numbers.
pub fn is_key_type(t: &Ty) -> bool
    ensures { result ≡ well_typed.is_key_type (sort t.now) }
{
    is_text(t) || is_number(t)
}

/// The type of arithmetic on two numbers.
pub fn number_join(s: &Ty, t: &Ty) -> Ty
    ensures { sort result ≡ fit.number_join (sort s.now) (sort t.now) }
{
    match (s, t) {
        (Ty::I64, _) => Ty::I64,
        (_, Ty::I64) => Ty::I64,
        _ => Ty::Int,
    }
}

/// The type of what is `None` or a value of a type.
pub fn optional(alloc: Global, t: &Ty) -> Result<Ty, Memory>
    ensures { IfOk result (λ j. sort j ≡ fit.optional (sort t.now)) }
{
    match t {
        Ty::Optional(_) => copy_of(alloc, t),
        _ => {
            let t = copy_of(alloc, t)?;
            Ok(Ty::Optional(Box::new(alloc, t)?))
        }
    }
}
