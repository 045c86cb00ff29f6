//! The names that imports bind.
ghost use Rattle.std.specs.Prelude.{◌≡◌, [], ◌∷◌, ◌++◌, IfOk, OnOk};
ghost use Rattle.py_binder.specs.Sights as spec;
ghost use Rattle.py_binder.specs.Collected.{sights_of};

use crate::scope::Role;
use crate::sight::{Home, Sight, Use};
use py_syntax::Span;
use std::alloc::Global;
use value_core::{Memory, Name};

/// Puts what `import` binds behind the sights: in a function nothing.
pub(crate) fn see_import(
    alloc: Global,
    sights: &mut Vec<Sight<'_>>,
    home: Home,
    name: &Name,
    other: &Option<Name>,
    span: Span,
) -> Result<(), Memory>
    ensures { OnOk result (sights_of sights.new.items ≡ sights_of sights.old.items ++ spec.import_sights home name.now other.now span) }
{
    match home {
        Home::InModule => {
            let first = first_part(alloc, name)?;
            see_defined(sights, Role::Import, bound_as(&first, other)?, span)
        }
        Home::InFunction => Ok(()),
    }
}

/// Puts what `from .. import` binds behind the sights: in a function nothing.
pub(crate) fn see_names(
    sights: &mut Vec<Sight<'_>>,
    home: Home,
    names: &[(Name, Option<Name>)],
    span: Span,
) -> Result<(), Memory>
    ensures { OnOk result (sights_of sights.new.items ≡ sights_of sights.old.items ++ spec.from_sights home names.now span) }
{
    match home {
        Home::InModule => see_aliases(sights, names, span),
        Home::InFunction => Ok(()),
    }
}

fn see_aliases(
    sights: &mut Vec<Sight<'_>>,
    names: &[(Name, Option<Name>)],
    span: Span,
) -> Result<(), Memory>
    ensures { OnOk result (sights_of sights.new.items ≡ sights_of sights.old.items ++ spec.aliases_sights names.now span) }
{
    for (name, other) in names {
        see_defined(sights, Role::Import, bound_as(name, other)?, span)?;
    }
    Ok(())
}

fn bound_as(name: &Name, other: &Option<Name>) -> Result<Name, Memory>
    ensures { IfOk result (λ n. n ≡ spec.bound_as name.now other.now) }
{
    match other {
        None => Ok(name.clone()?),
        Some(other) => Ok(other.clone()?),
    }
}

/// The part of a dotted name before its first dot.
fn first_part(alloc: Global, name: &Name) -> Result<Name, Memory>
    ensures { IfOk result (λ n. n ≡ spec.first_part name.now) }
{
    match name.as_str().split_once('.') {
        None => Ok(name.clone()?),
        Some((first, _)) => Name::from_str(alloc, first),
    }
}

/// Puts one name that is said to be something behind the sights.
pub(crate) fn see_defined(
    sights: &mut Vec<Sight<'_>>,
    role: Role,
    name: Name,
    span: Span,
) -> Result<(), Memory>
    ensures { OnOk result (sights_of sights.new.items ≡ sights_of sights.old.items ++ spec.sight (spec.Defines role name) span ∷ []) }
{
    let does = Use::Defines(role, name);
    sights.push(Sight { does, span })?;
    Ok(())
}
