//! The members of classes in a row.
ghost use Rattle.std.specs.Prelude.{◌≡◌, ◌++◌, map, slice_get, IfOk, OnOk};
ghost use Rattle.std.specs.Option.{option_map};
ghost use Rattle.std.specs.Borrow.{Bor};
ghost use Rattle.py_typed.specs.Sorts.{sort, sorts_of};
ghost use Rattle.py_typed.specs.Classes.{class_entry, signature, with_sort};
ghost use Rattle.py_typed.specs.ClassTables.{class_table};
ghost use Rattle.py_typed.specs.declared.classes.Sig.{Sig};
ghost use Rattle.py_typed.specs.Fits.{are_same_types};
ghost use Rattle.py_typed.specs.Order.{own_attributes};
ghost use Rattle.class_layout_members.specs.Clashes as spec;
ghost use Rattle.class_layout_members.specs.Clashes.{members_along};
ghost use Rattle.class_layout_members.specs.Views.{definition, member, of_type, of_signature};

use crate::functions::methods_at;
use py_typed::{ClassInfo, Classes, Sig, Ty, is_same_type};
use std::alloc::Global;
use value_core::{Many, Memory, Name};

/// What a class says of a name of its own.
#[derive(Clone, Copy)]
pub enum Definition<'a> {
    /// The type of an attribute.
    Attribute(&'a Ty),
    /// The signature of a method, if it has one.
    Method(Option<&'a Sig>),
}

/// A name with what a class says of it.
#[derive(Clone, Copy)]
pub struct Member<'a> {
    pub name: &'a Name,
    pub definition: Definition<'a>,
}

/// The members of classes in a row: of each its attributes, and then its methods.
pub(crate) fn members_of<'a>(
    alloc: Global,
    row: &[usize],
    classes: &'a Classes,
) -> Result<Many<Member<'a>>, Memory>
    ensures { IfOk result (λ members. map member members ≡ members_along (class_table classes.now) row.now) }
{
    let list = classes.list.as_slice();
    let mut members = Many::new(alloc);
    for class in row {
        add_attributes(&mut members, attributes_at(list, *class))?;
        add_methods(&mut members, methods_at(list, *class), &classes.sigs)?;
    }
    Ok(members)
}

fn add_attributes<'a>(
    members: &mut Many<Member<'a>>,
    attributes: &'a [(Name, Ty)],
) -> Result<(), Memory>
    ensures { OnOk result (map member members.new ≡ map member members.old ++ map of_type (map with_sort attributes.now)) }
{
    for (name, ty) in attributes {
        members.push(Member {
            name,
            definition: Definition::Attribute(ty),
        })?;
    }
    Ok(())
}

fn add_methods<'a>(
    members: &mut Many<Member<'a>>,
    methods: &'a [(Name, usize)],
    sigs: &'a Many<Sig>,
) -> Result<(), Memory>
    ensures { OnOk result (map member members.new ≡ map member members.old ++ map (of_signature (map signature sigs.now)) methods.now) }
{
    for (name, function) in methods {
        members.push(Member {
            name,
            definition: Definition::Method(sigs.get(*function)),
        })?;
    }
    Ok(())
}

/// The own attributes of the class of a number: none where there is no such class.
#[tactic(auto, using(py_typed::proofs::TypeLemmas::entry_found))]
fn attributes_at(classes: &[ClassInfo], class: usize) -> &[(Name, Ty)]
    ensures { map with_sort result.now ≡ own_attributes (slice_get (map class_entry classes.now) class) }
{
    match classes.get(class) {
        Some(class) => class.attrs.as_slice(),
        None => &[],
    }
}

/// Whether two definitions of a name agree: one type, or one signature.
pub fn agree(name: &Name, d: &Definition<'_>, e: &Definition<'_>) -> bool
    ensures { result ≡ spec.agree name.now (definition d.now) (definition e.now) }
{
    match (*d, *e) {
        (Definition::Attribute(s), Definition::Attribute(t)) => is_same_type(s, t),
        (Definition::Method(s), Definition::Method(t)) => is_init(name) || is_same_signature(s, t),
        _ => false,
    }
}

fn is_init(name: &Name) -> bool
    ensures { result ≡ spec.is_init name.now }
{
    name.as_str() == "__init__"
}

fn is_same_signature(s: Option<&Sig>, t: Option<&Sig>) -> bool
    ensures { result ≡ spec.is_same_signature (option_map (λ (r : Bor Sig). signature r.now) s.entry) (option_map (λ (r : Bor Sig). signature r.now) t.entry) }
{
    match (s, t) {
        (Some(s), Some(t)) => {
            is_same_row(s.params.as_slice(), t.params.as_slice()) && is_same_type(&s.ret, &t.ret)
        }
        (None, None) => true,
        _ => false,
    }
}

/// Whether the types of two rows are one by one the same.
fn is_same_row(ss: &[Ty], ts: &[Ty]) -> bool
    ensures { result ≡ are_same_types (sorts_of (map sort ss.now)) (sorts_of (map sort ts.now)) }
{
    for (i, s) in ss.iter().enumerate() {
        let Some(t) = ts.get(i) else {
            return false;
        };
        if !is_same_type(s, t) {
            return false;
        }
    }
    ss.len() == ts.len()
}
