//! Copies of classes.
ghost use Rattle.std.specs.Prelude.{◌≡◌, IfOk};

use c_core::{CClass, Kind};
use std::alloc::Global;
use value_core::{Many, Memory, Name};

fn copy_name(alloc: Global, name: &Name) -> Result<Name, Memory>
    ensures { IfOk result (λ copy. copy ≡ name.now) }
{
    Name::from_str(alloc, name.as_str())
}

fn copy_names(alloc: Global, names: &[Name]) -> Result<Many<Name>, Memory>
    ensures { IfOk result (λ copy. copy ≡ names.now) }
{
    let mut copy = Vec::new(alloc);
    for name in names {
        copy.push(copy_name(alloc, name)?)?;
    }
    Ok(Many::from_vec(copy))
}

fn copy_attributes(alloc: Global, attributes: &[(Name, Kind)]) -> Result<Many<(Name, Kind)>, Memory>
    ensures { IfOk result (λ copy. copy ≡ attributes.now) }
{
    let mut copy = Vec::new(alloc);
    for attribute in attributes {
        copy.push((copy_name(alloc, &attribute.0)?, attribute.1))?;
    }
    Ok(Many::from_vec(copy))
}

fn copy_traits(
    alloc: Global,
    traits: &[(Name, Many<Name>)],
) -> Result<Many<(Name, Many<Name>)>, Memory>
    ensures { IfOk result (λ copy. copy ≡ traits.now) }
{
    let mut copy = Vec::new(alloc);
    for entry in traits {
        let name = copy_name(alloc, &entry.0)?;
        copy.push((name, copy_names(alloc, entry.1.as_slice())?))?;
    }
    Ok(Many::from_vec(copy))
}

fn copy_class(alloc: Global, class: &CClass) -> Result<CClass, Memory>
    ensures { IfOk result (λ copy. copy ≡ class.now) }
{
    let name = copy_name(alloc, &class.name)?;
    let attrs = copy_attributes(alloc, class.attrs.as_slice())?;
    let methods = copy_names(alloc, class.methods.as_slice())?;
    let traits = copy_traits(alloc, class.traits.as_slice())?;
    Ok(CClass {
        name,
        attrs,
        methods,
        traits,
    })
}

/// A copy of classes.
pub fn copy_classes(alloc: Global, classes: &[CClass]) -> Result<Many<CClass>, Memory>
    ensures { IfOk result (λ copy. copy ≡ classes.now) }
{
    let mut copy = Vec::new(alloc);
    for class in classes {
        copy.push(copy_class(alloc, class)?)?;
    }
    Ok(Many::from_vec(copy))
}
