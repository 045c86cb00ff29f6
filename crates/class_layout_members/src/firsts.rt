//! What comes first under each name.
ghost use Rattle.std.specs.Prelude.{◌≡◌, List, ℕ, Some, None, cond, OnOk};
ghost use Rattle.std.specs.Option.{option_or};
ghost use Rattle.std.specs.Str.{bytes_eq};
ghost use Rattle.indexmap.specs.IndexMap.{get};

use indexmap::IndexMap;
use value_core::{Memory, Name};

/// Notes a value of a name of which none was noted.
///
/// # Errors
///
/// `Memory` alone.
pub fn add_first<T: Copy>(
    firsts: &mut IndexMap<Name, T>,
    name: &Name,
    value: T,
) -> Result<(), Memory>
    ensures { OnOk result ((q : List ℕ) → get bytes_eq firsts.new q ≡ option_or (get bytes_eq firsts.old q) (cond (bytes_eq q name.now) (Some value) None)) }
{
    if firsts.contains_key(name) {
        return Ok(());
    }
    firsts.insert(name.clone()?, value)?;
    Ok(())
}

/// Notes the values that another map has, of names of which none was noted.
///
/// # Errors
///
/// `Memory` alone.
pub fn add_missing<T: Copy>(
    firsts: &mut IndexMap<Name, T>,
    more: &IndexMap<Name, T>,
) -> Result<(), Memory>
    ensures { OnOk result ((q : List ℕ) → get bytes_eq firsts.new q ≡ option_or (get bytes_eq firsts.old q) (get bytes_eq more.now q)) }
{
    let names = more.keys().as_slice();
    for name in names {
        if let Some(value) = more.get(name) {
            add_first(firsts, name, *value)?;
        }
    }
    Ok(())
}
