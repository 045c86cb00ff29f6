//! The own members of classes, from what typing knows of them.
ghost use Rattle.std.specs.Prelude.{◌≡◌, ◌++◌, ◌∷◌, [], map, slice_get, IfOk, OnOk};
ghost use Rattle.std.specs.Option.{option_map};
ghost use Rattle.py_typed.specs.Classes.{signature};
ghost use Rattle.class_layout_members.specs.Views.{definition};
ghost use Rattle.py_check_context.specs.Members as members;
ghost use Rattle.py_check_overrides.specs.Own as spec;
ghost use Rattle.py_check_overrides.specs.Views as view;

use crate::member::OwnMember;
use class_layout_members::Definition;
use py_check_context::{ClassMembers, Member};
use py_typed::Sig;
use std::alloc::Global;
use value_core::{Many, Memory, Name};

/// The own members of all classes, where these are the signatures of functions by their numbers.
///
/// # Errors
///
/// `Memory` alone.
pub fn own_members<'a>(
    alloc: Global,
    classes: &'a [ClassMembers],
    sigs: &'a [Option<Sig>],
) -> Result<Many<Many<OwnMember<'a>>>, Memory>
    ensures { IfOk result (λ all. view.owns all ≡ map (spec.own_row (map (option_map signature) sigs.now)) classes.now) }
{
    let mut all = Many::new(alloc);
    for class in classes {
        let row = own_row(alloc, class, sigs)?;
        all.push(row)?;
    }
    Ok(all)
}

/// The own members of a class.
fn own_row<'a>(
    alloc: Global,
    class: &'a ClassMembers,
    sigs: &'a [Option<Sig>],
) -> Result<Many<OwnMember<'a>>, Memory>
    ensures { IfOk result (λ row. map view.own row ≡ spec.own_row (map (option_map signature) sigs.now) class.now) }
{
    let mut row = Many::new(alloc);
    for (name, member) in class.own.iter() {
        add_member(&mut row, name, member, sigs)?;
    }
    Ok(row)
}

fn add_member<'a>(
    row: &mut Many<OwnMember<'a>>,
    name: &'a Name,
    member: &'a Member,
    sigs: &'a [Option<Sig>],
) -> Result<(), Memory>
    ensures { OnOk result (map view.own row.new ≡ map view.own row.old ++ spec.own_in (map (option_map signature) sigs.now) ((name.now, members.member member.now) ∷ [])) }
{
    match member {
        Member::Attribute(ty) => row.push(OwnMember {
            name,
            definition: Some(Definition::Attribute(ty)),
        }),
        Member::Untyped => row.push(OwnMember {
            name,
            definition: None,
        }),
        Member::Unknown(_) => Ok(()),
        Member::Method(function) => row.push(OwnMember {
            name,
            definition: method_of(sigs, *function),
        }),
    }
}

/// What is said by the method of a function's number.
fn method_of<'a>(sigs: &'a [Option<Sig>], function: usize) -> Option<Definition<'a>>
    ensures { option_map definition result ≡ spec.method_says (map (option_map signature) sigs.now) function }
{
    match sigs.get(function) {
        Some(Some(sig)) => Some(Definition::Method(Some(sig))),
        Some(None) => None,
        None => None,
    }
}
