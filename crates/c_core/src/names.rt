//! Which names in a code differ, and what they stand for, found by walks that take no memory.
ghost use Rattle.std.specs.Prelude.{◌≡◌, ℕ, List, map};
ghost use Rattle.std.specs.List.{list_any, position};
ghost use Rattle.std.specs.Option.{option_copied};
ghost use Rattle.std.specs.Str.{bytes_eq};
ghost use Rattle.c_core.specs.Arguments as arguments;
ghost use Rattle.c_core.specs.Functions as function;
ghost use Rattle.c_core.specs.Index.{args_of, global_in, class_of, class_in, is_class, IsFound};
ghost use Rattle.c_core.specs.WellFormed as spec;

use crate::code::{CArg, CClass, CFunc, Code, Kind, Line};
use value_core::Name;

/// What has a name.
pub(crate) trait Named {
    /// The name.
    ghost name_of: { Self → List ℕ };

    /// The name.
    fn name(&self) -> &str
        ensures { result.now ≡ name_of self.now };
}

impl Named for (Name, Kind) {
    ghost name_of = { λ var. var.0 };

    fn name(&self) -> &str {
        self.0.as_str()
    }
}

impl Named for CClass {
    ghost name_of = { λ class. class.name };

    fn name(&self) -> &str {
        self.name.as_str()
    }
}

impl Named for CFunc {
    ghost name_of = { λ function. function.name };

    fn name(&self) -> &str {
        self.name.as_str()
    }
}

/// Whether no two have one name.
pub(crate) fn names_differ<T: Named>(items: &[T]) -> bool
    ensures { result ≡ spec.names_differ (map T.name_of items.now) }
{
    for i in 0..items.len() {
        if is_name_in(items[i].name(), &items[i + 1..]) {
            return false;
        }
    }
    true
}

/// Whether one has this name.
pub(crate) fn is_name_in<T: Named>(name: &str, items: &[T]) -> bool
    ensures { result ≡ list_any (λ item. bytes_eq name.now (T.name_of item)) items.now }
{
    items.iter().any(|item| name == item.name())
}

/// The place of the first one of a name.
fn place_of_name<T: Named>(name: &str, items: &[T]) -> Option<usize>
    ensures { result ≡ position (λ item. bytes_eq name.now (T.name_of item)) items.now }
{
    items.iter().position(|item| name == item.name())
}

/// What the names in a line stand for.
#[derive(Clone, Copy)]
pub(crate) struct Found {
    /// The number of the function that it calls.
    pub callee: Option<usize>,
    /// The kind of the global that it names.
    pub global: Option<Kind>,
    /// Whether the class that it names is there.
    pub class: bool,
}

/// What the names in a line stand for.
pub(crate) fn found_in(code: &Code, line: &Line) -> Found
    ensures { IsFound code.now line.now result }
{
    Found {
        callee: callee_of(code.funcs.as_slice(), line),
        global: global_of(code, line),
        class: class_of(code, line),
    }
}

fn callee_of(functions: &[CFunc], line: &Line) -> Option<usize>
    ensures { result ≡ spec.callee_of functions.now line.now }
{
    match line {
        Line::Call(_, name, _) => function_named(functions, name.as_str()),
        _ => None,
    }
}

/// The number of the function that a call means by a name, if there is one.
fn function_named(functions: &[CFunc], name: &str) -> Option<usize>
    ensures { result ≡ function.function_named functions.now name.now }
{
    match name.strip_prefix("CPyDef_") {
        Some(rest) => number_of(functions, rest),
        None => None,
    }
}

fn number_of(functions: &[CFunc], name: &str) -> Option<usize>
    ensures { result ≡ function.number_of functions.now name.now }
{
    if name.is_empty() {
        None
    } else {
        place_of_name(name, functions)
    }
}

fn global_of(code: &Code, line: &Line) -> Option<Kind>
    ensures { result ≡ spec.named_kind code.now (args_of line.now) }
{
    match global_in_line(line) {
        Some(name) => kind_of_global(code, name),
        None => None,
    }
}

/// The kind of the global of a name, if there is one.
fn kind_of_global(code: &Code, name: &str) -> Option<Kind>
    ensures { result ≡ arguments.kind_of_global code.now name.now }
{
    code.globals
        .as_slice()
        .iter()
        .find(|global| name == global.0.as_str())
        .map(|global| global.1)
}

fn class_of(code: &Code, line: &Line) -> bool
    ensures { result ≡ is_class code.now (class_of line.now) }
{
    match class_in_line(line) {
        Some(name) => is_name_in(name, code.classes.as_slice()),
        None => false,
    }
}

/// The class that a line names, if it names one.
pub(crate) fn class_in_line(line: &Line) -> Option<&str>
    ensures { option_copied result ≡ class_of line.now }
{
    match line {
        Line::TraitCall(_, _, name, _, _) => Some(name.as_str()),
        Line::Call(_, _, args) => class_in(args.as_slice()),
        _ => None,
    }
}

fn class_in(args: &[CArg]) -> Option<&str>
    ensures { option_copied result ≡ class_in args.now }
{
    match args.first() {
        Some(CArg::Class(name)) => Some(name.as_str()),
        _ => None,
    }
}

/// The global that a line names, if it names one.
pub(crate) fn global_in_line(line: &Line) -> Option<&str>
    ensures { option_copied result ≡ global_in (args_of line.now) }
{
    match line {
        Line::Call(_, _, args) => global_in(args.as_slice()),
        _ => None,
    }
}

fn global_in(args: &[CArg]) -> Option<&str>
    ensures { option_copied result ≡ global_in args.now }
{
    match args.first() {
        Some(CArg::Global(name)) => Some(name.as_str()),
        _ => None,
    }
}
