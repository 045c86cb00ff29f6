//! Whether the machine may run a code, where memory may be taken: equal names, what the names in lines and classes stand for and the
//! labels that are gone to are then found in less time.
ghost use Rattle.std.specs.Prelude.{◌≡◌, ◌&&◌, [], map, slice_get, false, true, IfOk};
ghost use Rattle.std.specs.List.{list_all, list_any};
ghost use Rattle.std.specs.Str.{bytes_eq};
ghost use Rattle.c_core.specs.Arguments as arguments;
ghost use Rattle.c_core.specs.Functions.{label_places, number_of};
ghost use Rattle.c_core.specs.Index.{args_of, class_of, is_class, IsFound, IsIndex, IsKnown, no_code};
ghost use Rattle.c_core.specs.WellFormed as spec;

use crate::code::{CClass, CFunc, Code, Kind, Line};
use crate::names::{Found, Named, class_in_line, global_in_line};
use crate::shapes::kind_at;
use crate::well_formed::{
    begins_right, ends_leaving, goes_down, goes_on, is_label, is_spelled, is_turn, line_fits,
};
use std::alloc::Global;
use std::collections::{BTreeMap, BTreeSet};
use value_core::{Many, Memory, Name};

/// The numbers of the functions, globals and classes of a code by their names.
#[derive(Drop)]
struct Tables<'a> {
    functions: BTreeMap<&'a str, usize>,
    globals: BTreeMap<&'a str, usize>,
    classes: BTreeMap<&'a str, usize>,
}

/// Whether a code is well formed, as `is_well_formed` says it, in a time that grows with the size of the code and the
/// logarithm of the number of its names, and not with a square.
pub fn check_well_formed(alloc: Global, code: &Code) -> Result<bool, Memory>
    ensures { IfOk result (λ fits. fits ≡ spec.well_formed code.now) }
{
    if !is_spelled(code) {
        return Ok(false);
    }
    let mut tables = Tables {
        functions: BTreeMap::new(alloc),
        globals: BTreeMap::new(alloc),
        classes: BTreeMap::new(alloc),
    };
    check_parts(alloc, code, &mut tables)
}

fn check_parts<'a>(alloc: Global, code: &'a Code, tables: &mut Tables<'a>) -> Result<bool, Memory>
    requires { IsKnown no_code tables.old }
    ensures { IfOk result (λ fits. fits ≡ (spec.names_differ (map (λ v. v.0) code.now.globals) && (spec.classes_fit code.now && spec.functions_fit code.now))) }
{
    if !number_all(tables, code)? {
        return Ok(false);
    }
    Ok(
        check_classes(alloc, code, tables, code.classes.as_slice())?
            && check_functions(alloc, code, tables, code.funcs.as_slice())?,
    )
}

/// Notes the numbers of all names, or answers `false` where two globals, classes or functions have one name.
fn number_all<'a>(tables: &mut Tables<'a>, code: &'a Code) -> Result<bool, Memory>
    requires { IsKnown no_code tables.old }
    ensures differ { IfOk result (λ differ. differ ≡ (spec.names_differ (map (λ v. v.0) code.now.globals) && (spec.names_differ (map (λ k. k.name) code.now.classes) && spec.names_differ (map (λ g. g.name) code.now.funcs)))) }
    ensures numbered { IfOk result (λ differ. differ ≡ true → IsKnown code.now tables.new) }
{
    Ok(
        number_names(&mut tables.globals, code.globals.as_slice())?
            && number_names(&mut tables.classes, code.classes.as_slice())?
            && number_names(&mut tables.functions, code.funcs.as_slice())?,
    )
}

/// Notes the number of each name, or answers `false` where two have one name.
fn number_names<'a, T: Named>(
    numbers: &mut BTreeMap<&'a str, usize>,
    items: &'a [T],
) -> Result<bool, Memory>
    requires { IsIndex T.name_of [] numbers.old }
    ensures differ { IfOk result (λ differ. differ ≡ spec.names_differ (map T.name_of items.now)) }
    ensures numbered { IfOk result (λ differ. differ ≡ true → IsIndex T.name_of items.now numbers.new) }
{
    for i in 0..items.len() {
        if numbers.insert(items[i].name(), i)?.is_some() {
            return Ok(false);
        }
    }
    Ok(true)
}

/// Whether a name is among those that have numbers.
fn is_numbered<T: Named>(_items: &[T], numbers: &BTreeMap<&str, usize>, name: &str) -> bool
    requires { IsIndex T.name_of _items.now numbers.now }
    ensures { result ≡ list_any (λ item. bytes_eq name.now (T.name_of item)) _items.now }
{
    numbers.contains_key(name)
}

fn check_classes(
    alloc: Global,
    code: &Code,
    tables: &Tables<'_>,
    classes: &[CClass],
) -> Result<bool, Memory>
    requires { IsKnown code.now tables.now }
    ensures { IfOk result (λ fits. fits ≡ list_all (spec.class_fits code.now) classes.now) }
{
    for class in classes {
        if !check_class(alloc, code, tables, class)? {
            return Ok(false);
        }
    }
    Ok(true)
}

fn check_class(
    alloc: Global,
    code: &Code,
    tables: &Tables<'_>,
    class: &CClass,
) -> Result<bool, Memory>
    requires { IsKnown code.now tables.now }
    ensures { IfOk result (λ fits. fits ≡ spec.class_fits code.now class.now) }
{
    Ok(
        names_are_distinct(alloc, class.attrs.as_slice())?
            && have_functions(code, tables, class.methods.as_slice())
            && traits_fit(code, tables, class.traits.as_slice()),
    )
}

fn have_functions(code: &Code, tables: &Tables<'_>, names: &[Name]) -> bool
    requires { IsKnown code.now tables.now }
    ensures { result ≡ list_all (spec.has_function code.now) names.now }
{
    for name in names {
        if !has_function(code, &tables.functions, name.as_str()) {
            return false;
        }
    }
    true
}

fn has_function(code: &Code, numbers: &BTreeMap<&str, usize>, name: &str) -> bool
    requires { IsIndex (λ function. function.name) code.now.funcs numbers.now }
    ensures { result ≡ spec.has_function code.now name.now }
{
    is_numbered(code.funcs.as_slice(), numbers, name)
}

fn traits_fit(code: &Code, tables: &Tables<'_>, traits: &[(Name, Many<Name>)]) -> bool
    requires { IsKnown code.now tables.now }
    ensures { result ≡ list_all (spec.trait_fits code.now) traits.now }
{
    for entry in traits {
        if !trait_fits(code, tables, entry) {
            return false;
        }
    }
    true
}

fn trait_fits(code: &Code, tables: &Tables<'_>, entry: &(Name, Many<Name>)) -> bool
    requires { IsKnown code.now tables.now }
    ensures { result ≡ spec.trait_fits code.now entry.now }
{
    has_class(code, &tables.classes, entry.0.as_str())
        && have_functions(code, tables, entry.1.as_slice())
}

fn has_class(code: &Code, numbers: &BTreeMap<&str, usize>, name: &str) -> bool
    requires { IsIndex (λ class. class.name) code.now.classes numbers.now }
    ensures { result ≡ spec.has_class code.now name.now }
{
    is_numbered(code.classes.as_slice(), numbers, name)
}

fn check_functions(
    alloc: Global,
    code: &Code,
    tables: &Tables<'_>,
    functions: &[CFunc],
) -> Result<bool, Memory>
    requires { IsKnown code.now tables.now }
    ensures { IfOk result (λ fits. fits ≡ list_all (spec.function_fits code.now) functions.now) }
{
    for function in functions {
        if !check_function(alloc, code, tables, function)? {
            return Ok(false);
        }
    }
    Ok(true)
}

fn check_function(
    alloc: Global,
    code: &Code,
    tables: &Tables<'_>,
    function: &CFunc,
) -> Result<bool, Memory>
    requires { IsKnown code.now tables.now }
    ensures { IfOk result (λ fits. fits ≡ spec.function_fits code.now function.now) }
{
    let vars = function.vars.as_slice();
    let lines = function.lines.as_slice();
    Ok(
        names_are_distinct(alloc, vars)?
            && lines_fit(code, tables, vars, function.ret, lines)
            && lines_lead_on(alloc, lines)?
            && begins_right(function),
    )
}

fn lines_fit(
    code: &Code,
    tables: &Tables<'_>,
    vars: &[(Name, Kind)],
    ret: Kind,
    lines: &[Line],
) -> bool
    requires { IsKnown code.now tables.now }
    ensures { result ≡ list_all (spec.line_fits code.now vars.now ret) lines.now }
{
    for line in lines {
        if !line_fits(code, vars, ret, line, found_in(code, tables, line)) {
            return false;
        }
    }
    true
}

/// What the names in a line stand for.
fn found_in(code: &Code, tables: &Tables<'_>, line: &Line) -> Found
    requires { IsKnown code.now tables.now }
    ensures { IsFound code.now line.now result }
{
    Found {
        callee: callee_of(code, &tables.functions, line),
        global: global_of(code, &tables.globals, line),
        class: class_of(code, &tables.classes, line),
    }
}

fn callee_of(_code: &Code, numbers: &BTreeMap<&str, usize>, line: &Line) -> Option<usize>
    requires { IsIndex (λ function. function.name) _code.now.funcs numbers.now }
    ensures { result ≡ spec.callee_of _code.now.funcs line.now }
{
    match line {
        Line::Call(_, name, _) => match name.as_str().strip_prefix("CPyDef_") {
            Some(rest) => number_of(_code, numbers, rest),
            None => None,
        },
        _ => None,
    }
}

fn number_of(_code: &Code, numbers: &BTreeMap<&str, usize>, name: &str) -> Option<usize>
    requires { IsIndex (λ function. function.name) _code.now.funcs numbers.now }
    ensures { result ≡ number_of _code.now.funcs name.now }
{
    if name.is_empty() {
        None
    } else {
        numbers.get(name).copied()
    }
}

fn global_of(code: &Code, numbers: &BTreeMap<&str, usize>, line: &Line) -> Option<Kind>
    requires { IsIndex (λ global. global.0) code.now.globals numbers.now }
    ensures { result ≡ spec.named_kind code.now (args_of line.now) }
{
    match global_in_line(line) {
        Some(name) => kind_of_global(code, numbers, name),
        None => None,
    }
}

fn kind_of_global(code: &Code, numbers: &BTreeMap<&str, usize>, name: &str) -> Option<Kind>
    requires { IsIndex (λ global. global.0) code.now.globals numbers.now }
    ensures { result ≡ arguments.kind_of_global code.now name.now }
{
    match numbers.get(name) {
        Some(number) => kind_at(code.globals.as_slice(), *number),
        None => None,
    }
}

fn class_of(code: &Code, numbers: &BTreeMap<&str, usize>, line: &Line) -> bool
    requires { IsIndex (λ class. class.name) code.now.classes numbers.now }
    ensures { result ≡ is_class code.now (class_of line.now) }
{
    match class_in_line(line) {
        Some(name) => has_class(code, numbers, name),
        None => false,
    }
}

fn lines_lead_on(alloc: Global, lines: &[Line]) -> Result<bool, Memory>
    ensures { IfOk result (λ fits. fits ≡ spec.lines_lead_on lines.now) }
{
    let labels = places_of_labels(alloc, lines)?;
    Ok(jumps_fit(labels.as_slice(), lines) && ends_leaving(lines))
}

/// The places of the labels.
fn places_of_labels(alloc: Global, lines: &[Line]) -> Result<Vec<usize>, Memory>
    ensures { IfOk result (λ labels. labels.items ≡ label_places lines.now) }
{
    let mut labels = Vec::new(alloc);
    for place in 0..lines.len() {
        if is_label(&lines[place]) {
            labels.push(place)?;
        }
    }
    Ok(labels)
}

fn jumps_fit(labels: &[usize], lines: &[Line]) -> bool
    ensures { result ≡ spec.jumps_fit labels.now 0 false lines.now }
{
    let mut after_turn = false;
    for place in 0..lines.len() {
        let line = &lines[place];
        if !jump_fits(labels, place, after_turn, line) {
            return false;
        }
        after_turn = is_turn(line);
    }
    true
}

fn jump_fits(labels: &[usize], place: usize, after_turn: bool, line: &Line) -> bool
    ensures { result ≡ spec.jump_fits labels.now place after_turn line.now }
{
    match line {
        Line::Goto(label) => goes_on(place, after_turn, labels.get(*label).copied()),
        Line::If(_, label, other) => branches_fit(labels, place, *label, *other),
        Line::IfError(_, label, other) => branches_fit(labels, place, *label, *other),
        _ => true,
    }
}

fn branches_fit(labels: &[usize], place: usize, label: usize, other: usize) -> bool
    ensures { result ≡ (spec.goes_down place (slice_get labels.now label) && spec.goes_down place (slice_get labels.now other)) }
{
    goes_down(place, labels.get(label).copied()) && goes_down(place, labels.get(other).copied())
}

fn names_are_distinct(alloc: Global, vars: &[(Name, Kind)]) -> Result<bool, Memory>
    ensures { IfOk result (λ differ. differ ≡ spec.names_differ (map (λ var. var.0) vars.now)) }
{
    let mut seen = BTreeSet::new(alloc);
    for var in vars {
        if !seen.insert(var.0.as_str())? {
            return Ok(false);
        }
    }
    Ok(true)
}
