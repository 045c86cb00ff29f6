//! The names that collected sights speak of, in the order of the text.
ghost use Rattle.std.specs.Prelude.{◌≡◌, [], ◌∷◌, ◌++◌, OnOk};
ghost use Rattle.py_binder.specs.Scope.{all_there, seen_there, bound_there, listed_there, said_there};
ghost use Rattle.py_binder.specs.Collected.{use_of, sights_of};

use crate::scope::Role;
use crate::sight::{Sight, Use};
use value_core::{Memory, Name};

/// Adds the names that are seen.
pub(crate) fn add_seen(names: &mut Vec<Name>, sights: &[Sight<'_>]) -> Result<(), Memory>
    ensures { OnOk result (names.new.items ≡ names.old.items ++ all_there seen_there (sights_of sights.now)) }
{
    for sight in sights {
        add_seen_there(names, &sight.does)?;
    }
    Ok(())
}

pub(crate) fn add_seen_there(names: &mut Vec<Name>, does: &Use<'_>) -> Result<(), Memory>
    ensures { OnOk result (names.new.items ≡ names.old.items ++ seen_there (use_of does.now)) }
{
    match does {
        Use::Reads(name) => add(names, name),
        Use::Binds(name) => add(names, name),
        Use::Defines(_, name) => add(names, name),
        Use::Declares(_) => Ok(()),
        Use::Holds(_) => Ok(()),
    }
}

fn add(names: &mut Vec<Name>, name: &Name) -> Result<(), Memory>
    ensures { OnOk result (names.new.items ≡ names.old.items ++ name.now ∷ []) }
{
    names.push(name.clone()?)?;
    Ok(())
}

/// Adds the names that are bound.
pub(crate) fn add_bound(names: &mut Vec<Name>, sights: &[Sight<'_>]) -> Result<(), Memory>
    ensures { OnOk result (names.new.items ≡ names.old.items ++ all_there bound_there (sights_of sights.now)) }
{
    for sight in sights {
        add_bound_there(names, &sight.does)?;
    }
    Ok(())
}

fn add_bound_there(names: &mut Vec<Name>, does: &Use<'_>) -> Result<(), Memory>
    ensures { OnOk result (names.new.items ≡ names.old.items ++ bound_there (use_of does.now)) }
{
    match does {
        Use::Binds(name) => add(names, name),
        Use::Reads(_) => Ok(()),
        Use::Defines(_, _) => Ok(()),
        Use::Declares(_) => Ok(()),
        Use::Holds(_) => Ok(()),
    }
}

/// Adds the names that `global` lists.
pub(crate) fn add_listed(names: &mut Vec<Name>, sights: &[Sight<'_>]) -> Result<(), Memory>
    ensures { OnOk result (names.new.items ≡ names.old.items ++ all_there listed_there (sights_of sights.now)) }
{
    for sight in sights {
        add_listed_there(names, &sight.does)?;
    }
    Ok(())
}

fn add_listed_there(names: &mut Vec<Name>, does: &Use<'_>) -> Result<(), Memory>
    ensures { OnOk result (names.new.items ≡ names.old.items ++ listed_there (use_of does.now)) }
{
    match does {
        Use::Declares(listed) => add_all(names, listed.as_slice()),
        Use::Reads(_) => Ok(()),
        Use::Binds(_) => Ok(()),
        Use::Defines(_, _) => Ok(()),
        Use::Holds(_) => Ok(()),
    }
}

/// Adds names.
pub(crate) fn add_all(names: &mut Vec<Name>, more: &[Name]) -> Result<(), Memory>
    ensures { OnOk result (names.new.items ≡ names.old.items ++ more.now) }
{
    for name in more {
        add(names, name)?;
    }
    Ok(())
}

/// Adds the names that definitions and imports say something of, each with that.
pub(crate) fn add_said(said: &mut Vec<(Name, Role)>, sights: &[Sight<'_>]) -> Result<(), Memory>
    ensures { OnOk result (said.new.items ≡ said.old.items ++ all_there said_there (sights_of sights.now)) }
{
    for sight in sights {
        add_said_there(said, &sight.does)?;
    }
    Ok(())
}

fn add_said_there(said: &mut Vec<(Name, Role)>, does: &Use<'_>) -> Result<(), Memory>
    ensures { OnOk result (said.new.items ≡ said.old.items ++ said_there (use_of does.now)) }
{
    match does {
        Use::Defines(role, name) => {
            said.push((name.clone()?, *role))?;
            Ok(())
        }
        Use::Reads(_) => Ok(()),
        Use::Binds(_) => Ok(()),
        Use::Declares(_) => Ok(()),
        Use::Holds(_) => Ok(()),
    }
}
