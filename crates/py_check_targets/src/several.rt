//! A value that is bound to several targets.
ghost use Rattle.std.specs.Prelude.{◌≡◌, [], map, IfOk};
ghost use Rattle.std.specs.Option.{option_map, option_copied};
ghost use Rattle.std.specs.Map.{lookup};
ghost use Rattle.std.specs.Str.{bytes_eq};
ghost use Rattle.py_typed.specs.Sorts.{sort, sorts_of};
ghost use Rattle.py_typed.specs.Classes.{class_entry};
ghost use Rattle.py_check_messages.specs.Seen.{Finds};
ghost use Rattle.py_check_values.specs.Aims.{aim_seen};
ghost use Rattle.py_check_values.specs.Assignments as assignments;
ghost use Rattle.py_check_places.specs.Shapes as shapes;
ghost use Rattle.py_check_targets.specs.Targets as rule_of;
ghost use Rattle.py_check_targets.specs.Views.{part_seen};

use py_check_messages::wrong_assignment;
use py_check_places::some_parts;
use py_check_values::{Aim, items_for, unpacks};
use py_syntax::Span;
use py_syntax_diagnostics::Diag;
use py_typed::{Classes, Ty, fits};
use std::alloc::Global;
use value_core::{Many, Memory, Name};

/// Whether a value of a type may be bound to several targets; what is wrong is said.
pub fn binds_several(
    alloc: Global,
    classes: &Classes,
    span: Span,
    aims: &[Aim<'_>],
    t: &Ty,
    faults: &mut Many<Diag>,
) -> Result<bool, Memory>
    ensures { IfOk result (λ right. Finds right faults.old faults.new span (rule_of.several_fault (map class_entry classes.now.list) (map aim_seen aims.now) (sort t.now))) }
{
    if !unpacks(alloc, classes, span, aims, t, faults)? {
        return Ok(false);
    }
    let parts = some_parts(items_for(t, aims.len()));
    fit_parts(alloc, classes, span, aims, parts, faults)
}

/// The same of a value that was asked for this type, if for any: where it has an item of None's type it has to fit that too.
pub fn takes_several(
    alloc: Global,
    classes: &Classes,
    span: Span,
    asked: Option<&Ty>,
    aims: &[Aim<'_>],
    t: &Ty,
    faults: &mut Many<Diag>,
) -> Result<bool, Memory>
    ensures { IfOk result (λ right. Finds right faults.old faults.new span (rule_of.taking_fault (map class_entry classes.now.list) (option_map sort (option_copied asked.entry)) (map aim_seen aims.now) (sort t.now))) }
{
    if !binds_several(alloc, classes, span, aims, t, faults)? {
        return Ok(false);
    }
    fits_asked(alloc, classes, span, aims.len(), asked, t, faults)
}

// Whether a value of a type, where that has an item of None's type, fits what it was asked for, part by part for so many targets.
fn fits_asked(
    alloc: Global,
    classes: &Classes,
    span: Span,
    count: usize,
    asked: Option<&Ty>,
    t: &Ty,
    faults: &mut Many<Diag>,
) -> Result<bool, Memory>
    ensures { IfOk result (λ right. Finds right faults.old faults.new span (rule_of.asked_fault (map class_entry classes.now.list) count (option_map sort (option_copied asked.entry)) (sort t.now))) }
{
    let Some(asked) = asked else {
        return Ok(true);
    };
    if !holds_none(t) {
        return Ok(true);
    }
    fits_parts(alloc, classes, span, count, asked, t, faults)
}

fn fits_parts(
    alloc: Global,
    classes: &Classes,
    span: Span,
    count: usize,
    asked: &Ty,
    t: &Ty,
    faults: &mut Many<Diag>,
) -> Result<bool, Memory>
    ensures { IfOk result (λ right. Finds right faults.old faults.new span (rule_of.unfit_fault (map class_entry classes.now.list) (shapes.some_parts (assignments.items_for (sort asked.now) count)) (shapes.some_parts (assignments.items_for (sort t.now) count)))) }
{
    let asked = some_parts(items_for(asked, count));
    let parts = some_parts(items_for(t, count));
    fit_each(alloc, classes, span, asked, parts, faults)
}

/// Whether a type is that of None, or of a tuple that has such an item.
#[cycle(none)]
fn holds_none(t: &Ty) -> bool
    ensures { result ≡ rule_of.holds_none (sort t.now) }
{
    match t {
        Ty::Nothing => true,
        Ty::Tuple(ts) => hold_none(ts.as_slice()),
        _ => false,
    }
}

#[cycle(none)]
fn hold_none(ts: &[Ty]) -> bool
    ensures { result ≡ rule_of.hold_none (sorts_of (map sort ts.now)) }
{
    for t in ts {
        if holds_none(t) {
            return true;
        }
    }
    false
}

// Whether each part fits its type; the first that does not is said.
fn fit_each(
    alloc: Global,
    classes: &Classes,
    span: Span,
    types: &[Ty],
    parts: &[Ty],
    faults: &mut Many<Diag>,
) -> Result<bool, Memory>
    ensures { IfOk result (λ right. Finds right faults.old faults.new span (rule_of.unfit_fault (map class_entry classes.now.list) (map sort types.now) (map sort parts.now))) }
{
    for (i, t) in types.iter().enumerate() {
        let Some(s) = parts.get(i) else {
            return Ok(true);
        };
        if !fits_again(alloc, classes, span, Some(t), s, faults)? {
            return Ok(false);
        }
    }
    Ok(true)
}

/// A new name, with the type of the part that it takes.
#[derive(Clone, Copy)]
pub(crate) struct NewName<'a> {
    pub(crate) name: &'a Name,
    pub(crate) ty: &'a Ty,
}

// Whether each part fits its target; the first that does not is said.
fn fit_parts(
    alloc: Global,
    classes: &Classes,
    span: Span,
    aims: &[Aim<'_>],
    parts: &[Ty],
    faults: &mut Many<Diag>,
) -> Result<bool, Memory>
    ensures { IfOk result (λ right. Finds right faults.old faults.new span (rule_of.parts_fault (map class_entry classes.now.list) [] (map aim_seen aims.now) (map sort parts.now))) }
{
    let mut seen = Vec::new(alloc);
    for (i, a) in aims.iter().enumerate() {
        let Some(t) = parts.get(i) else {
            return Ok(true);
        };
        if !fits_part(alloc, classes, span, seen.as_slice(), a, t, faults)? {
            return Ok(false);
        }
        put_new_name(&mut seen, a, t)?;
    }
    Ok(true)
}

// The same of one target, behind these new names.
fn fits_part(
    alloc: Global,
    classes: &Classes,
    span: Span,
    seen: &[NewName<'_>],
    a: &Aim<'_>,
    s: &Ty,
    faults: &mut Many<Diag>,
) -> Result<bool, Memory>
    ensures { IfOk result (λ right. Finds right faults.old faults.new span (rule_of.part_fault (map class_entry classes.now.list) (map part_seen seen.now) (aim_seen a.now) (sort s.now))) }
{
    match a {
        Aim::Held(_, t) => fits_again(alloc, classes, span, Some(t), s, faults),
        Aim::First(_, x) => fits_again(alloc, classes, span, first_part(seen, x), s, faults),
        Aim::Barred(_) => Ok(true),
        Aim::Unwritten(_) => Ok(true),
        Aim::Lacking(_, _) => Ok(true),
        Aim::Misplaced(_) => Ok(true),
    }
}

// The type of the first part of a new name.
fn first_part<'a>(seen: &[NewName<'a>], x: &Name) -> Option<&'a Ty>
    ensures { option_map sort (option_copied result) ≡ lookup (bytes_eq x.now) (map part_seen seen.now) }
{
    for part in seen {
        if *x == *part.name {
            return Some(part.ty);
        }
    }
    None
}

// A part fits what its target has, if that has a type.
fn fits_again(
    alloc: Global,
    classes: &Classes,
    span: Span,
    t: Option<&Ty>,
    s: &Ty,
    faults: &mut Many<Diag>,
) -> Result<bool, Memory>
    ensures { IfOk result (λ right. Finds right faults.old faults.new span (rule_of.again_fault (map class_entry classes.now.list) (option_map sort (option_copied t.entry)) (sort s.now))) }
{
    let Some(t) = t else {
        return Ok(true);
    };
    if fits(s, t, classes) {
        return Ok(true);
    }
    wrong_assignment(alloc, classes, span, s, t, faults)?;
    Ok(false)
}

// The new names with that of one more target.
fn put_new_name<'a>(seen: &mut Vec<NewName<'a>>, a: &'a Aim<'_>, ty: &'a Ty) -> Result<(), Memory>
    ensures { IfOk result (λ done. map part_seen seen.new.items ≡ rule_of.with_new_name (map part_seen seen.old.items) (aim_seen a.now) (sort ty.now)) }
{
    match a {
        Aim::First(_, name) => {
            seen.push(NewName { name, ty })?;
            Ok(())
        }
        Aim::Held(_, _) => Ok(()),
        Aim::Barred(_) => Ok(()),
        Aim::Unwritten(_) => Ok(()),
        Aim::Lacking(_, _) => Ok(()),
        Aim::Misplaced(_) => Ok(()),
    }
}
