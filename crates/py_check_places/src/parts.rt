//! The types of the parts of a value.
ghost use Rattle.std.specs.Prelude.{◌≡◌, map};
ghost use Rattle.std.specs.Option.{option_map, option_copied};
ghost use Rattle.py_typed.specs.Sorts.{sort};
ghost use Rattle.py_check_places.specs.Shapes as shapes;

use py_check_values::items_for;
use py_typed::Ty;
use std::slice::from_ref;

/// The types of the parts of a value for so many targets, as far as there are such.
pub fn parts_of(several: bool, n: usize, t: Option<&Ty>) -> &[Ty]
    ensures { map sort result.now ≡ shapes.parts_of several n (option_map sort (option_copied t.entry)) }
{
    match t {
        Some(t) => parts_for(several, n, t),
        None => &[],
    }
}

fn parts_for(several: bool, n: usize, t: &Ty) -> &[Ty]
    ensures { map sort result.now ≡ shapes.parts_for several n (sort t.now) }
{
    if several {
        some_parts(items_for(t, n))
    } else {
        from_ref(t)
    }
}

/// These types, or none.
pub fn some_parts(ts: Option<&[Ty]>) -> &[Ty]
    ensures { map sort result.now ≡ shapes.some_parts (option_map (map sort) (option_copied ts.entry)) }
{
    match ts {
        Some(ts) => ts,
        None => &[],
    }
}
