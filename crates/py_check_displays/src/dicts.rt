//! Dict displays.
ghost use Rattle.std.specs.Prelude.{◌≡◌, map, IfOk, Some};
ghost use Rattle.std.specs.Option.{option_map, option_zip};
ghost use Rattle.py_typed.specs.Sorts.{sort};
ghost use Rattle.py_typed.specs.Classes.{class_entry};
ghost use Rattle.py_typed.specs.Expressions.{typed_expr, typed_entry};
ghost use Rattle.py_check_context.specs.Context.{wanted};
ghost use Rattle.py_check_messages.specs.Rows as typing;
ghost use Rattle.py_check_messages.specs.Seen.{Tells, judged, ruled};
ghost use Rattle.py_check_coercions.specs.Boxes.{boxed};
ghost use Rattle.py_check_displays.specs.Displays.{common};
ghost use Rattle.py_check_displays.specs.Dicts as rule_of;
ghost use Rattle.py_check_displays.specs.Entries.{entry_types, entry_misfit_seen};

use py_check_coercions::{coerced, kept};
use py_check_context::Want;
use py_check_messages::{empty_display, no_common_entry, wrong_entry};
use py_syntax::Span;
use py_syntax_diagnostics::Diag;
use py_typed::{Classes, TExpr, TKind, Ty, copy_of, fits, is_key_type, is_nothing, join};
use std::alloc::Global;
use value_core::{Many, Memory};

/// The types that the keys and the values of a dict are to have.
#[derive(Clone, Copy)]
pub struct EntryTypes<'a> {
    pub key: &'a Ty,
    pub value: &'a Ty,
}

/// The types of the entries of the dict that is expected, if one is.
pub fn expected_entry<'a>(want: Want<'a>) -> Option<EntryTypes<'a>>
    ensures { option_map entry_types result ≡ rule_of.entry_sorts (wanted want.entry) }
{
    match want {
        Want::Wants(Ty::Dict(key, value)) => Some(EntryTypes { key, value }),
        _ => None,
    }
}

/// What each key of a dict display is there for.
pub fn key_want<'a>(expected: Option<EntryTypes<'a>>) -> Want<'a>
    ensures { wanted result ≡ rule_of.key_wanted (option_map entry_types expected.entry) }
{
    match expected {
        Some(types) => Want::Wants(types.key),
        None => Want::Free,
    }
}

/// What each value of a dict display is there for.
pub fn value_want<'a>(expected: Option<EntryTypes<'a>>) -> Want<'a>
    ensures { wanted result ≡ rule_of.value_wanted (option_map entry_types expected.entry) }
{
    match expected {
        Some(types) => Want::Wants(types.value),
        None => Want::Free,
    }
}

/// One entry more, if all are typed.
#[tactic(auto, using(crate::proofs::EntryLemmas::rows))]
pub fn with_entry(
    found: Option<Many<(TExpr, TExpr)>>,
    k: Option<Box<TExpr>>,
    e: Option<Box<TExpr>>,
) -> Result<Option<Many<(TExpr, TExpr)>>, Memory>
    ensures { IfOk result (λ r. option_map (map typed_entry) r ≡ typing.kept (option_map (map typed_entry) found) (option_zip (option_map boxed k) (option_map boxed e))) }
{
    let Some(mut found) = found else {
        return Ok(None);
    };
    let Some(k) = k else {
        return Ok(None);
    };
    let Some(e) = e else {
        return Ok(None);
    };
    found.push((Box::into_inner(k), Box::into_inner(e)))?;
    Ok(Some(found))
}

/// A dict display (Python Language Reference, "Dictionary displays").
pub fn dict_display(
    alloc: Global,
    classes: &Classes,
    span: Span,
    expected: Option<EntryTypes<'_>>,
    es: Option<Many<(TExpr, TExpr)>>,
    faults: &mut Many<Diag>,
) -> Result<Option<Box<TExpr>>, Memory>
    ensures { IfOk result (λ t. Tells boxed t faults.old faults.new (ruled span (rule_of.dict_display (map class_entry classes.now.list) (option_map entry_types expected.entry) span) (option_map (map typed_entry) es))) }
{
    let Some(es) = es else {
        return Ok(None);
    };
    match expected {
        Some(types) => expected_dict(alloc, classes, span, types, es, faults),
        None => inferred_dict(alloc, classes, span, es, faults),
    }
}

// A dict of the types that are expected.
fn expected_dict(
    alloc: Global,
    classes: &Classes,
    span: Span,
    types: EntryTypes<'_>,
    es: Many<(TExpr, TExpr)>,
    faults: &mut Many<Diag>,
) -> Result<Option<Box<TExpr>>, Memory>
    ensures { IfOk result (λ r. Tells boxed r faults.old faults.new (judged span (rule_of.expected_dict (map class_entry classes.now.list) span (entry_types types.entry) (map typed_entry es)))) }
{
    if let Some(m) = unfit_entry(classes, types, es.as_slice()) {
        wrong_entry(
            alloc,
            classes,
            span,
            m.place,
            m.key,
            m.value,
            types.key,
            types.value,
            faults,
        )?;
        return Ok(None);
    }
    let e = dict_of(alloc, span, types, es)?;
    Ok(Some(e))
}

/// An entry whose key or value does not fit: its place, and the types of both.
#[derive(Clone, Copy)]
struct EntryMisfit<'a> {
    place: usize,
    key: &'a Ty,
    value: &'a Ty,
}

// The first entry that does not fit what is asked for.
fn unfit_entry<'a>(
    classes: &Classes,
    types: EntryTypes<'_>,
    es: &'a [(TExpr, TExpr)],
) -> Option<EntryMisfit<'a>>
    ensures { option_map entry_misfit_seen result ≡ rule_of.unfit_entry (map class_entry classes.now.list) (entry_types types.entry) 0 (map typed_entry es.now) }
{
    for (i, (k, e)) in es.iter().enumerate() {
        if !entry_fits(classes, types, k, e) {
            return Some(EntryMisfit {
                place: i,
                key: &k.ty,
                value: &e.ty,
            });
        }
    }
    None
}

fn entry_fits(classes: &Classes, types: EntryTypes<'_>, k: &TExpr, e: &TExpr) -> bool
    ensures { result ≡ rule_of.entry_fits (map class_entry classes.now.list) (entry_types types.entry) (typed_expr k.now, typed_expr e.now) }
{
    fits(&k.ty, types.key, classes) && fits(&e.ty, types.value, classes)
}

// A dict of entries that fit its types.
fn dict_of(
    alloc: Global,
    span: Span,
    types: EntryTypes<'_>,
    es: Many<(TExpr, TExpr)>,
) -> Result<Box<TExpr>, Memory>
    ensures { IfOk result (λ e. boxed e ≡ rule_of.dict_of span (entry_types types.entry) (map typed_entry es)) }
{
    let es = changed_entries(alloc, types, es)?;
    let k = copy_of(alloc, types.key)?;
    let k = Box::new(alloc, k)?;
    let t = copy_of(alloc, types.value)?;
    let t = Box::new(alloc, t)?;
    kept(alloc, TKind::Dict(es), Ty::Dict(k, t), span)
}

// Each entry as one of these types.
fn changed_entries(
    alloc: Global,
    types: EntryTypes<'_>,
    es: Many<(TExpr, TExpr)>,
) -> Result<Many<(TExpr, TExpr)>, Memory>
    ensures { IfOk result (λ r. map typed_entry r ≡ map (rule_of.changed_entry (entry_types types.entry)) (map typed_entry es)) }
{
    let mut rest = es;
    let mut back = Vec::new(alloc);
    while let Some((k, e)) = rest.pop() {
        let k = coerced(alloc, Box::new(alloc, k)?, types.key)?;
        let e = coerced(alloc, Box::new(alloc, e)?, types.value)?;
        back.push((Box::into_inner(k), Box::into_inner(e)))?;
    }
    back.reverse();
    Ok(Many::from_vec(back))
}

// A dict whose type its entries give.
fn inferred_dict(
    alloc: Global,
    classes: &Classes,
    span: Span,
    es: Many<(TExpr, TExpr)>,
    faults: &mut Many<Diag>,
) -> Result<Option<Box<TExpr>>, Memory>
    ensures { IfOk result (λ r. Tells boxed r faults.old faults.new (judged span (rule_of.inferred_dict (map class_entry classes.now.list) span (map typed_entry es)))) }
{
    let [first, more @ ..] = es.as_slice() else {
        empty_display(alloc, span, faults)?;
        return Ok(None);
    };
    let key = common_key(alloc, classes, &first.0.ty, more)?;
    let value = common_value(alloc, classes, &first.1.ty, more)?;
    joined_dict(alloc, span, key, value, es, faults)
}

// A dict of these types, if there is one for all keys and one for all values.
fn joined_dict(
    alloc: Global,
    span: Span,
    key: Option<Ty>,
    value: Option<Ty>,
    es: Many<(TExpr, TExpr)>,
    faults: &mut Many<Diag>,
) -> Result<Option<Box<TExpr>>, Memory>
    ensures { IfOk result (λ r. Tells boxed r faults.old faults.new (judged span (rule_of.joined_dict span (map typed_entry es) (option_zip (option_map sort key) (option_map sort value))))) }
{
    let Some(k) = key else {
        no_common_entry(alloc, span, faults)?;
        return Ok(None);
    };
    let Some(t) = value else {
        no_common_entry(alloc, span, faults)?;
        return Ok(None);
    };
    if !is_key_type(&k) || is_nothing(&t) {
        no_common_entry(alloc, span, faults)?;
        return Ok(None);
    }
    let types = EntryTypes { key: &k, value: &t };
    let e = dict_of(alloc, span, types, es)?;
    Ok(Some(e))
}

// The type that keys join to from the left, behind others of a type.
fn common_key(
    alloc: Global,
    classes: &Classes,
    first: &Ty,
    es: &[(TExpr, TExpr)],
) -> Result<Option<Ty>, Memory>
    ensures { IfOk result (λ t. option_map sort t ≡ common (map class_entry classes.now.list) (Some (sort first.now)) (rule_of.keys (map typed_entry es.now))) }
{
    let mut t = copy_of(alloc, first)?;
    for (k, _) in es {
        let Some(joined) = join(alloc, &t, &k.ty, classes)? else {
            return Ok(None);
        };
        t = joined;
    }
    Ok(Some(t))
}

// The same of values.
fn common_value(
    alloc: Global,
    classes: &Classes,
    first: &Ty,
    es: &[(TExpr, TExpr)],
) -> Result<Option<Ty>, Memory>
    ensures { IfOk result (λ t. option_map sort t ≡ common (map class_entry classes.now.list) (Some (sort first.now)) (rule_of.values (map typed_entry es.now))) }
{
    let mut t = copy_of(alloc, first)?;
    for (_, e) in es {
        let Some(joined) = join(alloc, &t, &e.ty, classes)? else {
            return Ok(None);
        };
        t = joined;
    }
    Ok(Some(t))
}
