//! Whether the machine may run a code.
ghost use Rattle.std.specs.Prelude.{◌≡◌, ◌&&◌, ◌-◌, false, [], ◌∷◌, length, map, take, slice_get, Some};
ghost use Rattle.std.specs.List.{list_all, list_any};
ghost use Rattle.std.specs.Option.{option_and_then};
ghost use Rattle.std.specs.Str.{bytes_eq, is_utf8};
ghost use Rattle.value_core.specs.Arithmetic.{lies_within};
ghost use Rattle.c_core.specs.Functions as function;
ghost use Rattle.c_core.specs.Functions.{label_places};
ghost use Rattle.c_core.specs.Index.{class_in, is_class, IsFound};
ghost use Rattle.c_core.specs.WellFormed as spec;

use crate::classes::{classes_fit, spelled_classes};
use crate::code::{CArg, CFunc, CLit, Code, Kind, Line};
use crate::names::{Found, found_in, names_differ};
use crate::primitive::Primitive;
use crate::rows::primitive_call_fits;
use crate::shapes::{answers, is_passed, kind_at, same_kinds};
use unicode_ident::is_xid_continue;
use value_core::Name;

/// Whether a code is well formed: it is spelled, its names differ, lines, calls and returns have the numbers and kinds that
/// they ask for, labels, functions and classes are there, and no way round passes no turn. It takes no memory, and a time that
/// grows with the square of the number of names, calls and jumps.
pub fn is_well_formed(code: &Code) -> bool
    ensures { result ≡ spec.well_formed code.now }
{
    is_spelled(code)
        && names_differ(code.globals.as_slice())
        && classes_fit(code)
        && functions_fit(code)
}

/// Whether each part of a code stands in its text as C text wants it. It takes no memory.
pub fn is_spelled(code: &Code) -> bool
    ensures { result ≡ spec.is_spelled code.now }
{
    spelled_globals(code.globals.as_slice())
        && spelled_classes(code.classes.as_slice())
        && spelled_functions(code.funcs.as_slice())
}

fn spelled_globals(globals: &[(Name, Kind)]) -> bool
    ensures { result ≡ spec.spelled_globals globals.now }
{
    spelled_names(globals)
}

fn spelled_functions(functions: &[CFunc]) -> bool
    ensures { result ≡ spec.spelled_functions functions.now }
{
    if functions.is_empty() {
        return false;
    }
    let last = functions.len() - 1;
    for i in 0..last {
        if !spelled_function(&functions[i]) {
            return false;
        }
    }
    spelled_top(&functions[last])
}

fn spelled_function(function: &CFunc) -> bool
    ensures { result ≡ spec.spelled_function function.now }
{
    is_identifier(function.name.as_str())
        && function.params <= function.vars.len()
        && spelled_body(function)
}

fn spelled_top(function: &CFunc) -> bool
    ensures { result ≡ spec.spelled_top function.now }
{
    function.name.as_str().is_empty()
        && matches!(function.ret, Kind::Char)
        && function.params == 0
        && spelled_body(function)
}

fn spelled_body(function: &CFunc) -> bool
    ensures { result ≡ spec.spelled_body function.now }
{
    let vars = function.vars.as_slice();
    spelled_names(vars) && spelled_lines(vars, function.lines.as_slice())
}

fn spelled_names(vars: &[(Name, Kind)]) -> bool
    ensures { result ≡ list_all (λ var. spec.is_identifier var.0) vars.now }
{
    vars.iter().all(|var| is_identifier(var.0.as_str()))
}

fn spelled_lines(vars: &[(Name, Kind)], lines: &[Line]) -> bool
    ensures { result ≡ list_all (spec.spelled_line vars.now) lines.now }
{
    lines.iter().all(|line| spelled_line(vars, line))
}

fn spelled_line(vars: &[(Name, Kind)], line: &Line) -> bool
    ensures { result ≡ spec.spelled_line vars.now line.now }
{
    match line {
        Line::Label | Line::Turn => true,
        Line::Move(x, y) => *x < vars.len() && *y < vars.len(),
        Line::Lit(x, literal) => *x < vars.len() && spelled_literal(*literal),
        Line::Call(target, name, args) => {
            spelled_target(vars, *target)
                && is_call_name(name.as_str())
                && spelled_args(vars, args.as_slice())
        }
        Line::Virtual(x, object, place, args) => {
            *x < vars.len()
                && *object < vars.len()
                && spelled_label(*place)
                && are_declared(vars, args.as_slice())
        }
        Line::TraitCall(x, object, name, place, args) => {
            *x < vars.len()
                && *object < vars.len()
                && is_identifier(name.as_str())
                && spelled_label(*place)
                && are_declared(vars, args.as_slice())
        }
        Line::Goto(label) => spelled_label(*label),
        Line::If(x, label, other) | Line::IfError(x, label, other) => {
            *x < vars.len() && spelled_label(*label) && spelled_label(*other)
        }
        Line::Return(x) => *x < vars.len(),
        Line::Inc(x) | Line::Dec(x) | Line::XDec(x) => {
            matches!(kind_at(vars, *x), Some(Kind::Tagged | Kind::Object))
        }
    }
}

// Each number of a `usize` has a text.
fn spelled_label(_label: usize) -> bool
    ensures { result ≡ spec.spelled_label _label }
{
    true
}

// Each number of an `i64` has a text.
fn spelled_literal(literal: CLit) -> bool
    ensures { result ≡ spec.spelled_literal literal }
{
    match literal {
        CLit::Number(n) => is_native(n),
        _ => true,
    }
}

fn is_native(n: i64) -> bool
    ensures { result ≡ lies_within 63 n }
{
    (i64::MIN..=i64::MAX).contains(&n)
}

fn spelled_args(vars: &[(Name, Kind)], args: &[CArg]) -> bool
    ensures { result ≡ list_all (spec.spelled_arg vars.now) args.now }
{
    args.iter().all(|arg| spelled_arg(vars, arg))
}

fn are_declared(vars: &[(Name, Kind)], args: &[usize]) -> bool
    ensures { result ≡ list_all (spec.is_declared vars.now) args.now }
{
    args.iter().all(|x| *x < vars.len())
}

fn spelled_target(vars: &[(Name, Kind)], target: Option<usize>) -> bool
    ensures { result ≡ spec.spelled_target vars.now target }
{
    match target {
        None => true,
        Some(x) => x < vars.len(),
    }
}

fn spelled_arg(vars: &[(Name, Kind)], arg: &CArg) -> bool
    ensures { result ≡ spec.spelled_arg vars.now arg.now }
{
    match arg {
        CArg::Var(x) => *x < vars.len(),
        CArg::Number(n) => is_native(*n),
        CArg::Text(text) => is_text(text.as_str()),
        CArg::Global(name) | CArg::Class(name) => is_identifier(name.as_str()),
    }
}

// Each `str` is UTF-8.
pub(crate) fn is_text(_text: &str) -> bool
    ensures { result ≡ is_utf8 _text.now }
{
    true
}

/// Whether a text is one or more characters that may continue an identifier.
pub fn is_identifier(name: &str) -> bool
    ensures { result ≡ spec.is_identifier name.now }
{
    !name.is_empty() && name.chars().all(is_xid_continue)
}

/// Whether a text may be the name in a call: `CPy` and an identifier, but no word that begins another statement.
pub fn is_call_name(name: &str) -> bool
    ensures { result ≡ spec.is_call_name name.now }
{
    match name.strip_prefix("CPy") {
        Some(rest) => is_identifier(rest) && !is_other_word(name),
        None => false,
    }
}

fn is_other_word(name: &str) -> bool
    ensures { result ≡ list_any (bytes_eq name.now) spec.other_words }
{
    matches!(
        name,
        "CPyVirtual"
            | "CPyTrait"
            | "CPyTurn"
            | "CPy_INCREF"
            | "CPy_DECREF"
            | "CPy_XDECREF"
            | "CPyTagged_INCREF"
            | "CPyTagged_DECREF"
            | "CPyTagged_XDECREF"
    )
}

fn functions_fit(code: &Code) -> bool
    ensures { result ≡ spec.functions_fit code.now }
{
    names_differ(code.funcs.as_slice()) && each_fits(code, code.funcs.as_slice())
}

fn each_fits(code: &Code, functions: &[CFunc]) -> bool
    ensures { result ≡ list_all (spec.function_fits code.now) functions.now }
{
    functions
        .iter()
        .all(|function| function_fits(code, function))
}

fn function_fits(code: &Code, function: &CFunc) -> bool
    ensures { result ≡ spec.function_fits code.now function.now }
{
    let vars = function.vars.as_slice();
    let lines = function.lines.as_slice();
    names_differ(vars)
        && lines_fit(code, vars, function.ret, lines)
        && lines_lead_on(lines)
        && begins_right(function)
}

fn lines_fit(code: &Code, vars: &[(Name, Kind)], ret: Kind, lines: &[Line]) -> bool
    ensures { result ≡ list_all (spec.line_fits code.now vars.now ret) lines.now }
{
    lines.iter().all(|line| line_fits(code, vars, ret, line, found_in(code, line)))
}

fn lines_lead_on(lines: &[Line]) -> bool
    ensures { result ≡ spec.lines_lead_on lines.now }
{
    jumps_fit(lines) && ends_leaving(lines)
}

// Without memory each jump looks for its labels.
fn jumps_fit(lines: &[Line]) -> bool
    ensures { result ≡ spec.jumps_fit (label_places lines.now) 0 false lines.now }
{
    let mut after_turn = false;
    for place in 0..lines.len() {
        let line = &lines[place];
        if !jump_fits(lines, place, after_turn, line) {
            return false;
        }
        after_turn = is_turn(line);
    }
    true
}

fn jump_fits(lines: &[Line], place: usize, after_turn: bool, line: &Line) -> bool
    ensures { result ≡ spec.jump_fits (label_places lines.now) place after_turn line.now }
{
    match line {
        Line::Goto(label) => goes_on(place, after_turn, place_of_label(lines, *label)),
        Line::If(_, label, other) => branches_fit(lines, place, *label, *other),
        Line::IfError(_, label, other) => branches_fit(lines, place, *label, *other),
        _ => true,
    }
}

fn branches_fit(lines: &[Line], place: usize, label: usize, other: usize) -> bool
    ensures { result ≡ (spec.goes_down place (slice_get (label_places lines.now) label) && spec.goes_down place (slice_get (label_places lines.now) other)) }
{
    goes_down(place, place_of_label(lines, label)) && goes_down(place, place_of_label(lines, other))
}

pub(crate) fn goes_down(place: usize, label: Option<usize>) -> bool
    ensures { result ≡ spec.goes_down place label }
{
    match label {
        Some(other) => place < other,
        None => false,
    }
}

pub(crate) fn goes_on(place: usize, after_turn: bool, label: Option<usize>) -> bool
    ensures { result ≡ spec.goes_on place after_turn label }
{
    match label {
        Some(other) => place < other || after_turn,
        None => false,
    }
}

fn place_of_label(lines: &[Line], label: usize) -> Option<usize>
    ensures { result ≡ slice_get (label_places lines.now) label }
{
    let mut others = label;
    for place in 0..lines.len() {
        if is_label(&lines[place]) {
            if others == 0 {
                return Some(place);
            }
            others -= 1;
        }
    }
    None
}

pub(crate) fn is_label(line: &Line) -> bool
    ensures { result ≡ function.is_label line.now }
{
    matches!(line, Line::Label)
}

pub(crate) fn is_turn(line: &Line) -> bool
    ensures { result ≡ function.is_turn line.now }
{
    matches!(line, Line::Turn)
}

pub(crate) fn ends_leaving(lines: &[Line]) -> bool
    ensures { result ≡ spec.is_leaving (slice_get lines.now (length lines.now - 1)) }
{
    match lines.last() {
        Some(line) => is_leaving(line),
        None => false,
    }
}

fn is_leaving(line: &Line) -> bool
    ensures { result ≡ spec.is_leaving (Some line.now) }
{
    matches!(
        line,
        Line::Goto(_) | Line::If(..) | Line::IfError(..) | Line::Return(_)
    )
}

pub(crate) fn begins_right(function: &CFunc) -> bool
    ensures { result ≡ spec.begins_right function.now }
{
    function.name.as_str().is_empty() || begins_with_turn(function.lines.as_slice())
}

fn begins_with_turn(lines: &[Line]) -> bool
    ensures { result ≡ spec.is_turn_at (slice_get lines.now 0) }
{
    match lines.first() {
        Some(line) => is_turn(line),
        None => false,
    }
}

/// Whether a line fits, where it is known what its names stand for.
pub(crate) fn line_fits(
    code: &Code,
    vars: &[(Name, Kind)],
    ret: Kind,
    line: &Line,
    found: Found,
) -> bool
    requires { IsFound code.now line.now found }
    ensures { result ≡ spec.line_fits code.now vars.now ret line.now }
{
    match line {
        Line::Move(x, y) => same_kinds(kind_at(vars, *x), kind_at(vars, *y)),
        Line::Lit(x, literal) => literal_fits(*literal, kind_at(vars, *x)),
        Line::Call(target, name, args) => {
            let primitive = Primitive::named(name.as_str());
            call_fits(code, vars, primitive, found, *target, args.as_slice())
        }
        Line::TraitCall(..) => found.class,
        Line::Return(x) => kind_at(vars, *x) == Some(ret),
        _ => true,
    }
}

// A call of a primitive, or of the function that was found.
fn call_fits(
    code: &Code,
    vars: &[(Name, Kind)],
    primitive: Option<Primitive>,
    found: Found,
    target: Option<usize>,
    args: &[CArg],
) -> bool
    requires global { found.global ≡ spec.named_kind code.now args.now }
    requires class { found.class ≡ is_class code.now (class_in args.now) }
    ensures { result ≡ spec.call_fits code.now vars.now target args.now primitive found.callee }
{
    match primitive {
        Some(primitive) => primitive_call_fits(vars, primitive, found, target, args),
        None => function_call_fits(code, vars, found.callee, target, args),
    }
}

fn function_call_fits(
    code: &Code,
    vars: &[(Name, Kind)],
    callee: Option<usize>,
    target: Option<usize>,
    args: &[CArg],
) -> bool
    ensures { result ≡ spec.function_call_fits code.now vars.now target args.now (option_and_then (slice_get code.now.funcs) callee) }
{
    let Some(number) = callee else {
        return false;
    };
    match code.funcs.get(number) {
        Some(function) => {
            passes(vars, parameters(function), args) && answers(vars, function.ret, target)
        }
        None => false,
    }
}

/// The variables of a function that are its parameters.
fn parameters(function: &CFunc) -> &[(Name, Kind)]
    ensures { result.now ≡ take function.now.params function.now.vars }
{
    let vars = function.vars.as_slice();
    &vars[..function.params.min(vars.len())]
}

fn passes(vars: &[(Name, Kind)], parameters: &[(Name, Kind)], args: &[CArg]) -> bool
    ensures { result ≡ spec.passes vars.now (map (λ var. var.1) parameters.now) args.now }
{
    if parameters.len() != args.len() {
        return false;
    }
    for i in 0..args.len() {
        if !is_passed(vars, parameters[i].1, &args[i]) {
            return false;
        }
    }
    true
}

fn literal_fits(literal: CLit, kind: Option<Kind>) -> bool
    ensures { result ≡ spec.literal_fits literal kind }
{
    match (kind, literal) {
        (Some(Kind::Tagged), CLit::Number(n)) => n % 2 == 0 || n == 1,
        (Some(Kind::Int64), CLit::Number(_)) => true,
        (Some(Kind::Char), CLit::Number(n)) => matches!(n, 0..=2),
        (Some(Kind::Object), CLit::Number(_)) => false,
        (Some(Kind::Object), _) => true,
        _ => false,
    }
}
