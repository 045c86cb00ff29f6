//! The names of the attributes and methods of classes.
ghost use Rattle.std.specs.Prelude.{◌≡◌, [], flat_map, IfOk, OnOk};
ghost use Rattle.std.specs.Str.{bytes_eq};
ghost use Rattle.indexmap.specs.IndexSet.{insert_all};
ghost use Rattle.class_layout_members.specs.Names.{names_in};
ghost use Rattle.class_layout_members.specs.Tables.{names_at};

use indexmap::IndexSet;
use std::alloc::Global;
use value_core::{Memory, Name};

/// The names that the bases of a class have, base by base, each once.
///
/// # Errors
///
/// `Memory` alone.
pub fn names_above(
    alloc: Global,
    bases: &[usize],
    earlier: &[IndexSet<Name>],
) -> Result<IndexSet<Name>, Memory>
    ensures { IfOk result (λ names. names.keys ≡ insert_all bytes_eq [] (flat_map (names_at earlier.now) bases.now)) }
{
    let mut names = IndexSet::new(alloc);
    for base in bases {
        add_all(&mut names, names_of(earlier, *base))?;
    }
    Ok(names)
}

/// The names of the class of a number: none where there is no such class.
pub fn names_of(tables: &[IndexSet<Name>], class: usize) -> &[Name]
    ensures { result.now ≡ names_at tables.now class }
{
    match tables.get(class) {
        Some(names) => names.as_slice(),
        None => &[],
    }
}

/// Puts names behind others, each that is new.
fn add_all(names: &mut IndexSet<Name>, more: &[Name]) -> Result<(), Memory>
    ensures { OnOk result (names.new.keys ≡ insert_all bytes_eq names.old.keys more.now) }
{
    for name in more {
        names.insert(name.clone()?)?;
    }
    Ok(())
}

/// Puts the names of a row of names and values behind others, each that is new.
///
/// # Errors
///
/// `Memory` alone.
pub fn add_names<T>(names: &mut IndexSet<Name>, row: &[(Name, T)]) -> Result<(), Memory>
    ensures { OnOk result (names.new.keys ≡ insert_all bytes_eq names.old.keys (names_in row.now)) }
{
    for (name, _) in row {
        names.insert(name.clone()?)?;
    }
    Ok(())
}
