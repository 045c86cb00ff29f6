//! The own members of classes.
ghost use Rattle.std.specs.Prelude.{◌≡◌, ◌∷◌, ◌++◌, [], map, IfOk, OnOk};
ghost use Rattle.class_layout_members.specs.Views.{member};
ghost use Rattle.py_check_overrides.specs.Overrides as spec;
ghost use Rattle.py_check_overrides.specs.Views as view;

use class_layout_members::{Definition, Member};
use std::alloc::Global;
use value_core::{Many, Memory, Name};

/// A member that a class has of its own, and what the class says of it: nothing of an attribute without a type, and of a method
/// without a signature.
#[derive(Clone, Copy)]
pub struct OwnMember<'a> {
    pub name: &'a Name,
    pub definition: Option<Definition<'a>>,
}

/// The members of classes in a row.
pub(crate) fn all_along<'a>(
    alloc: Global,
    members: &[Many<OwnMember<'a>>],
    row: &[usize],
) -> Result<Many<OwnMember<'a>>, Memory>
    ensures { IfOk result (λ all. map view.own all ≡ spec.all_along (view.owns members.now) row.now) }
{
    let mut all = Many::new(alloc);
    for class in row {
        add_all(&mut all, members, *class)?;
    }
    Ok(all)
}

/// Adds the own members of the class of a number: none where there is no such class.
#[tactic(auto, using(crate::proofs::ViewLemmas::owns_found))]
fn add_all<'a>(
    all: &mut Many<OwnMember<'a>>,
    members: &[Many<OwnMember<'a>>],
    class: usize,
) -> Result<(), Memory>
    ensures { OnOk result (map view.own all.new ≡ map view.own all.old ++ spec.own_of (view.owns members.now) class) }
{
    match members.get(class) {
        Some(own) => add_row(all, own.as_slice()),
        None => Ok(()),
    }
}

fn add_row<'a>(all: &mut Many<OwnMember<'a>>, own: &[OwnMember<'a>]) -> Result<(), Memory>
    ensures { OnOk result (map view.own all.new ≡ map view.own all.old ++ map view.own own.now) }
{
    for member in own {
        all.push(*member)?;
    }
    Ok(())
}

/// The definitions of classes in a row.
pub(crate) fn defined_along<'a>(
    alloc: Global,
    members: &[Many<OwnMember<'a>>],
    row: &[usize],
) -> Result<Many<Member<'a>>, Memory>
    ensures { IfOk result (λ all. map member all ≡ spec.defined_along (view.owns members.now) row.now) }
{
    let mut all = Many::new(alloc);
    for class in row {
        add_defined(&mut all, members, *class)?;
    }
    Ok(all)
}

/// Adds the definitions of the class of a number: none where there is no such class.
#[tactic(auto, using(crate::proofs::ViewLemmas::owns_found))]
fn add_defined<'a>(
    all: &mut Many<Member<'a>>,
    members: &[Many<OwnMember<'a>>],
    class: usize,
) -> Result<(), Memory>
    ensures { OnOk result (map member all.new ≡ map member all.old ++ spec.defined (spec.own_of (view.owns members.now) class)) }
{
    match members.get(class) {
        Some(own) => add_defined_row(all, own.as_slice()),
        None => Ok(()),
    }
}

fn add_defined_row<'a>(all: &mut Many<Member<'a>>, own: &[OwnMember<'a>]) -> Result<(), Memory>
    ensures { OnOk result (map member all.new ≡ map member all.old ++ spec.defined (map view.own own.now)) }
{
    for member in own {
        add_definition(all, member)?;
    }
    Ok(())
}

fn add_definition<'a>(all: &mut Many<Member<'a>>, own: &OwnMember<'a>) -> Result<(), Memory>
    ensures { OnOk result (map member all.new ≡ map member all.old ++ spec.defined (view.own own.now ∷ [])) }
{
    match own.definition {
        Some(definition) => all.push(Member {
            name: own.name,
            definition,
        }),
        None => Ok(()),
    }
}
