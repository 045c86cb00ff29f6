//! What a value is bound to: variables and items of lists, alone or in a row.
ghost use Rattle.std.specs.Prelude.{◌≡◌, ◌<◌, ◌≤◌, ◌^◌, [], ◌∷◌, true, false, length, map, List, None, IfOk, OnOk};
ghost use Rattle.py_typed.specs.Sorts.{Sort, sort, sorts_of, TupleOf};
ghost use Rattle.py_typed.specs.Statements.{typed_target};
ghost use Rattle.ir_builder_frames.specs.Building.{Extends};
ghost use Rattle.ir_builder_frames.specs.Computing.{HaveTypes};
ghost use Rattle.ir_builder_frames.specs.Lines.{OwnLines};
ghost use Rattle.ir_builder_frames.specs.Matching.{HasRoom};
ghost use Rattle.ir_builder_frames.specs.Placing.{HasType};
ghost use Rattle.ir_builder_frames.specs.Settings.{rtype_of};
ghost use Rattle.ir_builder_expressions.specs.Site.{setting_of};
ghost use Rattle.ir_builder_statements.specs.Suiting.{TakesValue, TargetTakes, TargetsTake, OneSuits, PartsSuit, TargetsSuit};
ghost use Rattle.ir_builder_statements.specs.Counting.{Binds};
ghost use Rattle.ir_builder_statements.specs.Targets.{own_sort, own_sorts, Lasting, PutsEach, TakesPart, Unpacks};
ghost use Rattle.ir_builder_statements.specs.Lined.{target_pieces, all_target_pieces, LinedPieces};

use crate::counting::emit_copy;
use crate::items::{emit_item_set, item_type};
use crate::variables::{emit_set, variable_type};
use ir_builder_expressions::{Site, register_type};
use ir_builder_frames::Emitter;
use ir_builder_operations::{emit_conversion, emit_tuple_part, emit_unboxed};
use ir_core::{RType, Reg};
use py_typed::{Target, Ty, fits};
use value_core::{Many, Memory};

// The type of what a target takes.
fn own_type<'a>(site: Site<'a>, target: &'a Target) -> &'a Ty
    requires { (u : Sort) × TakesValue (setting_of site).source (setting_of site).variables None (typed_target target.now) u }
    ensures { TakesValue (setting_of site.entry).source (setting_of site.entry).variables None (typed_target target.now) (sort result.now) }
{
    match target {
        Target::At(list, _) => item_type(list),
        _ => variable_type(site, target),
    }
}

// The types of the parts of a tuple.
fn part_types(t: &Ty) -> &[Ty]
    requires { (ss : List Sort) × (sort t.now ≡ TupleOf (sorts_of ss)) }
    ensures { sort t.now ≡ TupleOf (sorts_of (map sort result.now)) }
{
    match t {
        Ty::Tuple(parts) => parts.as_slice(),
        _ => unreachable!(),
    }
}

// Whether a target stands alone and takes a value of a type as a whole.
fn is_whole(site: Site, targets: &[Target], t: &Ty) -> bool
    requires { TargetsSuit (setting_of site).source (setting_of site).variables None (map typed_target targets.now) (sort t.now) }
    ensures whole { result ≡ true → OneSuits (setting_of site.entry).source (setting_of site.entry).variables None (map typed_target targets.now) (sort t.now) }
    ensures parts { result ≡ false → PartsSuit (setting_of site.entry).source (setting_of site.entry).variables None (map typed_target targets.now) (sort t.now) }
{
    match targets {
        [target] => {
            let own = own_type(site, target);
            fits(t, own, &site.checked.classes)
        }
        _ => false,
    }
}

// Puts the value of a register into a target of its type. The parts of the target are evaluated behind the value. At run time an
// index out of range raises IndexError.
fn emit_put(b: &mut Emitter, site: Site, target: &Target, r: Reg) -> Result<(), Memory>
    requires takes { (u : Sort) × TakesValue (setting_of site).source (setting_of site).variables None (typed_target target.now) u × HasType b.old r.0 (rtype_of u) }
    requires room { HasRoom (setting_of site) b.old }
    ensures kept { Extends b.old b.new }
    ensures puts { OnOk result (PutsEach (setting_of site.entry) (typed_target target.now ∷ []) (r ∷ []) b.old b.new) }
    ensures lined { OnOk result (LinedPieces (setting_of site.entry) site.entry.line (target_pieces (typed_target target.now)) b.old b.new) }
{
    match target {
        Target::At(list, index) => emit_item_set(b, site, list, index, r),
        _ => emit_set(b, site, target, r),
    }
}

// Puts the values of registers into as many targets of their types, from the left.
fn emit_each(b: &mut Emitter, site: Site, targets: &[Target], values: &[Reg]) -> Result<(), Memory>
    requires targets { (ss : List Sort) × TargetsTake (setting_of site).source (setting_of site).variables None (map typed_target targets.now) ss }
    requires values { HaveTypes b.old.regs (own_sorts (setting_of site) (map typed_target targets.now)) values.now }
    requires lasting { Lasting site.frame values.now }
    requires room { HasRoom (setting_of site) b.old }
    ensures kept { Extends b.old b.new }
    ensures puts { OnOk result (PutsEach (setting_of site.entry) (map typed_target targets.now) values.now b.old b.new) }
    ensures lined { OnOk result (LinedPieces (setting_of site.entry) site.entry.line (all_target_pieces (map typed_target targets.now)) b.old b.new) }
{
    for (i, target) in targets.iter().enumerate() {
        let value = values[i];
        emit_put(b, site, target, value)?;
    }
    Ok(())
}

// The part of a tuple with a number, from 0, as a value of its target's own type, in a register of its own.
fn emit_part(
    b: &mut Emitter,
    site: Site,
    target: &Target,
    from: &Ty,
    number: usize,
    tuple: Reg,
) -> Result<Reg, Memory>
    requires target { TargetTakes (setting_of site).source (setting_of site).variables None (typed_target target.now) (sort from.now) }
    requires small { number < 2 ^ 63 }
    requires tuple { HasType b.old tuple.0 RType.Ref }
    ensures kept { Extends b.old b.new }
    ensures takes { IfOk result (λ r. TakesPart number (sort from.now) (own_sort (setting_of site.entry) (typed_target target.now)) tuple.0 b.old b.new r.0) }
    ensures lined { OwnLines site.entry.line b.old b.new }
{
    let own = own_type(site, target);
    let part = emit_tuple_part(b, site.alloc, tuple, number, site.line)?;
    let taken = emit_unboxed(b, site.alloc, from, part, site.line)?;
    let value = emit_conversion(b, site.alloc, from, own, taken, site.line)?;
    emit_copy(b, register_type(own), value, site.line)
}

// The parts of a tuple, from the left, as values of their targets' own types.
fn emit_parts(
    b: &mut Emitter,
    site: Site,
    targets: &[Target],
    parts: &[Ty],
    tuple: Reg,
) -> Result<Many<Reg>, Memory>
    requires targets { TargetsTake (setting_of site).source (setting_of site).variables None (map typed_target targets.now) (map sort parts.now) }
    requires few { length targets.now ≤ 16 }
    requires tuple { HasType b.old tuple.0 RType.Ref }
    requires room { HasRoom (setting_of site) b.old }
    ensures kept { Extends b.old b.new }
    ensures unpacks { IfOk result (λ rs. Unpacks (setting_of site.entry) (map typed_target targets.now) (map sort parts.now) 0 tuple.0 b.old b.new rs) }
    ensures lined { OwnLines site.entry.line b.old b.new }
{
    let mut values = Many::new(site.alloc);
    for (i, target) in targets.iter().enumerate() {
        let value = emit_part(b, site, target, &parts[i], i, tuple)?;
        values.push(value)?;
    }
    Ok(values)
}

// Binds a value in a register, of a type, to the target that takes it as a whole.
fn emit_whole(b: &mut Emitter, site: Site, target: &Target, t: &Ty, r: Reg) -> Result<(), Memory>
    requires target { TargetTakes (setting_of site).source (setting_of site).variables None (typed_target target.now) (sort t.now) }
    requires value { HasType b.old r.0 (rtype_of (sort t.now)) }
    requires room { HasRoom (setting_of site) b.old }
    ensures kept { Extends b.old b.new }
    ensures binds { OnOk result (Binds (setting_of site.entry) (typed_target target.now ∷ []) (sort t.now) r.0 b.old b.new) }
    ensures lined { OnOk result (LinedPieces (setting_of site.entry) site.entry.line (target_pieces (typed_target target.now)) b.old b.new) }
{
    let own = own_type(site, target);
    let value = emit_conversion(b, site.alloc, t, own, r, site.line)?;
    emit_put(b, site, target, value)
}

// Binds the parts of the tuple in a register to as many targets. All parts are there, each as one of its target's own type, before
// the first target is written.
fn emit_unpacked(
    b: &mut Emitter,
    site: Site,
    targets: &[Target],
    t: &Ty,
    r: Reg,
) -> Result<(), Memory>
    requires targets { PartsSuit (setting_of site).source (setting_of site).variables None (map typed_target targets.now) (sort t.now) }
    requires value { HasType b.old r.0 (rtype_of (sort t.now)) }
    requires room { HasRoom (setting_of site) b.old }
    ensures kept { Extends b.old b.new }
    ensures binds { OnOk result (Binds (setting_of site.entry) (map typed_target targets.now) (sort t.now) r.0 b.old b.new) }
    ensures lined { OnOk result (LinedPieces (setting_of site.entry) site.entry.line (all_target_pieces (map typed_target targets.now)) b.old b.new) }
{
    let parts = part_types(t);
    let values = emit_parts(b, site, targets, parts, r)?;
    emit_each(b, site, targets, values.as_slice())
}

/// Binds a value in a register, of a type, to targets (Python Language Reference, "Assignment statements"): one target takes a value
/// that fits it, and else the parts of a tuple go to as many targets. All of it but the parts of the targets has the line of the
/// statement. At run time OverflowError is raised where an `int` has no place in 64 bits, and IndexError where an index is out of
/// range.
pub(crate) fn emit_targets(
    b: &mut Emitter,
    site: Site,
    targets: &[Target],
    t: &Ty,
    r: Reg,
) -> Result<(), Memory>
    requires targets { TargetsSuit (setting_of site).source (setting_of site).variables None (map typed_target targets.now) (sort t.now) }
    requires value { HasType b.old r.0 (rtype_of (sort t.now)) }
    requires room { HasRoom (setting_of site) b.old }
    ensures kept { Extends b.old b.new }
    ensures binds { OnOk result (Binds (setting_of site.entry) (map typed_target targets.now) (sort t.now) r.0 b.old b.new) }
    ensures lined { OnOk result (LinedPieces (setting_of site.entry) site.entry.line (all_target_pieces (map typed_target targets.now)) b.old b.new) }
{
    if is_whole(site, targets, t) {
        emit_whole(b, site, &targets[0], t, r)
    } else {
        emit_unpacked(b, site, targets, t, r)
    }
}
