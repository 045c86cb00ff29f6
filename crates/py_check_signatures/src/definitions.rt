//! What is wrong with a function definition by itself.
ghost use Rattle.std.specs.Prelude.{◌≡◌, ℕ, ◌∷◌, ◌++◌, [], map, find, IfOk};
ghost use Rattle.std.specs.Option.{option_map, option_copied};
ghost use Rattle.py_syntax.specs.Expressions.{expr_tree};
ghost use Rattle.py_syntax.specs.Statements.{func_tree, param_tree};
ghost use Rattle.py_binder.specs.Scope.{param_names};
ghost use Rattle.py_typed.specs.Sorts.{sort};
ghost use Rattle.py_check_messages.specs.Seen.{diag};
ghost use Rattle.py_check_signatures.specs.Views.{header_sorts, fault_message, parts};
ghost use Rattle.py_check_signatures.specs.Definitions as spec;

use crate::headers::{Header, Owner, asked, is_init};
use indexmap::IndexSet;
use py_binder::Scope;
use py_check_flow::is_closed;
use py_check_messages::{
    already_defined, cannot_assign, duplicate_parameter, missing_annotation, missing_return,
    outside_profile, self_missing, too_many_names,
};
use py_check_names::{builtin_meaning, is_own};
use py_syntax::{Expr, Func, Span};
use py_syntax_diagnostics::Diag;
use py_typed::Ty;
use std::alloc::Global;
use value_core::{Many, Memory, Name};

/// What may be wrong with a definition.
#[derive(Clone, Copy)]
pub(crate) enum DefFault<'a> {
    AlreadyDefined,
    OutsideProfile,
    SelfMissing,
    DuplicateParameter(&'a Name),
    BuiltinName(&'a Name),
    MissingAnnotation,
    TooManyNames,
    MissingReturn,
}

/// The most names that a function may have of its own.
const MOST_NAMES: usize = 100;

/// Whether a name is new: nothing defined it before, and it is no builtin.
pub fn is_new(earlier: &IndexSet<Name>, name: &Name) -> bool
    ensures { result ≡ spec.is_new earlier.now.keys name.now }
{
    !earlier.contains(name) && !is_builtin_name(name)
}

fn is_builtin_name(name: &Name) -> bool
    ensures { result ≡ spec.is_builtin_name name.now }
{
    builtin_meaning(name).is_some()
}

/// How many names a function has of its own.
pub fn own_count(inside: &Scope) -> usize
    ensures { result ≡ spec.own_count inside.now }
{
    inside
        .names
        .as_slice()
        .iter()
        .filter(|p| is_own(p.1))
        .count()
}

/// Adds what is wrong with a definition of so many names of its own, whose name is new or not, if its annotations have types and its
/// decorators do.
pub fn add_def_fault(
    alloc: Global,
    span: Span,
    fresh: bool,
    own: usize,
    marked: bool,
    f: &Func,
    header: &Header,
    faults: &mut Many<Diag>,
) -> Result<(), Memory>
    ensures { IfOk result (λ done. faults.new ≡ faults.old ++ spec.def_said span fresh own marked (func_tree f.now) (header_sorts header.now)) }
{
    add_fault(alloc, span, fresh, own, marked, f, header, faults)
}

fn add_fault(
    alloc: Global,
    span: Span,
    fresh: bool,
    own: usize,
    marked: bool,
    f: &Func,
    header: &Header,
    faults: &mut Many<Diag>,
) -> Result<(), Memory>
    ensures { IfOk result (λ done. faults.new ≡ faults.old ++ spec.def_said span fresh own marked (parts f.now) (header_sorts header.now)) }
{
    if !(header.typed && marked) {
        return Ok(());
    }
    let twice = repeated(alloc, f)?;
    match def_fault(header, fresh, own, f, twice) {
        Some(fault) => say(alloc, span, &f.name, fault, faults),
        None => Ok(()),
    }
}

/// Whether there are no decorators.
fn no_marks(marks: &[Expr]) -> bool
    ensures { result ≡ spec.no_marks (map expr_tree marks.now) }
{
    match marks {
        [] => true,
        [_, ..] => false,
    }
}

/// What is wrong with a definition, where this parameter stands twice.
fn def_fault<'a>(
    header: &Header,
    fresh: bool,
    own: usize,
    f: &'a Func,
    twice: Option<&'a Name>,
) -> Option<DefFault<'a>>
    ensures { option_map (fault_message (parts f.now).name) result ≡ spec.fault_by header.now.owner fresh own (parts f.now) (option_copied twice.entry) (header_sorts header.now).ret }
{
    if !fresh {
        return Some(DefFault::AlreadyDefined);
    }
    if is_outside(header.owner, f) {
        return Some(DefFault::OutsideProfile);
    }
    if lacks_own(header.owner, f.params.as_slice()) {
        return Some(DefFault::SelfMissing);
    }
    if let Some(x) = twice {
        return Some(DefFault::DuplicateParameter(x));
    }
    if let Some(x) = builtin_param(f) {
        return Some(DefFault::BuiltinName(x));
    }
    body_fault(header, own, f)
}

/// Whether a function of this owner has a decorator, a name or an annotation that has no place there.
fn is_outside(owner: Owner, f: &Func) -> bool
    ensures { result ≡ spec.is_outside owner (parts f.now) }
{
    !no_marks(f.marks.as_slice())
        || no_method_name(owner, &f.name)
        || own_marked(owner, f.params.as_slice())
}

/// Whether a function of this owner may not have this name.
fn no_method_name(owner: Owner, name: &Name) -> bool
    ensures { result ≡ spec.no_method_name owner name.now }
{
    match owner {
        Owner::Module => false,
        Owner::Class(_) | Owner::UntypedTrait => is_special(name) && !is_init(owner, name),
    }
}

/// Whether a name is `__x__` for some x.
fn is_special(name: &Name) -> bool
    ensures { result ≡ spec.is_special name.now }
{
    let text = name.as_str().as_bytes();
    text.len() > 4 && text.starts_with(b"__") && text.ends_with(b"__")
}

/// Whether the first parameter of a method has an annotation.
fn own_marked(owner: Owner, params: &[(Name, Option<Expr>)]) -> bool
    ensures { result ≡ spec.own_marked owner (map param_tree params.now) }
{
    match owner {
        Owner::Module => false,
        Owner::Class(_) | Owner::UntypedTrait => first_marked(params),
    }
}

fn first_marked(params: &[(Name, Option<Expr>)]) -> bool
    ensures { result ≡ spec.first_marked (map param_tree params.now) }
{
    match params {
        [] => false,
        [(_, mark), ..] => mark.is_some(),
    }
}

/// Whether this is a method without a first parameter.
fn lacks_own(owner: Owner, params: &[(Name, Option<Expr>)]) -> bool
    ensures { result ≡ spec.lacks_own owner (map param_tree params.now) }
{
    match owner {
        Owner::Module => false,
        Owner::Class(_) | Owner::UntypedTrait => params.is_empty(),
    }
}

fn body_fault<'a>(header: &Header, own: usize, f: &'a Func) -> Option<DefFault<'a>>
    ensures { option_map (fault_message (parts f.now).name) result ≡ spec.body_fault header.now.owner own (parts f.now) (header_sorts header.now).ret }
{
    if !all_marked(header, f) {
        return Some(DefFault::MissingAnnotation);
    }
    if own > MOST_NAMES {
        return Some(DefFault::TooManyNames);
    }
    if gives_value(&header.ret) && !is_closed(f.body.as_slice()) {
        return Some(DefFault::MissingReturn);
    }
    None
}

/// Whether each parameter has an annotation that is asked for one, and what is returned has a type.
fn all_marked(header: &Header, f: &Func) -> bool
    ensures { result ≡ spec.all_marked header.now.owner (parts f.now) (header_sorts header.now).ret }
{
    are_marked(asked(header.owner, f.params.as_slice())) && header.ret.is_some()
}

fn are_marked(params: &[(Name, Option<Expr>)]) -> bool
    ensures { result ≡ spec.are_marked (map param_tree params.now) }
{
    for (_, mark) in params {
        if mark.is_none() {
            return false;
        }
    }
    true
}

/// Whether a value is due, of another type than `None`.
fn gives_value(ret: &Option<Ty>) -> bool
    ensures { result ≡ spec.gives_value (option_map sort ret.now) }
{
    match ret {
        None => false,
        Some(Ty::Nothing) => false,
        Some(_) => true,
    }
}

/// The first parameter that has the name of a builtin.
fn builtin_param(f: &Func) -> Option<&Name>
    ensures { option_copied result ≡ find spec.is_builtin_name (param_names (parts f.now)) }
{
    first_builtin(f.params.as_slice())
}

fn first_builtin(params: &[(Name, Option<Expr>)]) -> Option<&Name>
    ensures { option_copied result ≡ find spec.is_builtin_name (map (λ p. p.0) (map param_tree params.now)) }
{
    for (name, _) in params {
        if is_builtin_name(name) {
            return Some(name);
        }
    }
    None
}

/// The first parameter whose name stands before it.
fn repeated(alloc: Global, f: &Func) -> Result<Option<&Name>, Memory>
    ensures { IfOk result (λ x. option_copied x ≡ spec.repeated [] (param_names (parts f.now))) }
{
    let mut before = IndexSet::new(alloc);
    first_repeated(&mut before, f.params.as_slice())
}

fn first_repeated<'a>(
    before: &mut IndexSet<Name>,
    params: &'a [(Name, Option<Expr>)],
) -> Result<Option<&'a Name>, Memory>
    ensures { IfOk result (λ x. option_copied x ≡ spec.repeated before.old.keys (map (λ p. p.0) (map param_tree params.now))) }
{
    for (name, _) in params {
        if before.contains(name) {
            return Ok(Some(name));
        }
        before.insert(name.clone()?)?;
    }
    Ok(None)
}

/// Puts the text of a fault behind those that there are.
fn say(
    alloc: Global,
    span: Span,
    name: &Name,
    fault: DefFault<'_>,
    faults: &mut Many<Diag>,
) -> Result<(), Memory>
    ensures { IfOk result (λ done. faults.new ≡ faults.old ++ diag span (fault_message name.now fault.entry) ∷ []) }
{
    match fault {
        DefFault::AlreadyDefined => already_defined(alloc, span, name.as_str(), faults),
        DefFault::OutsideProfile => outside_profile(alloc, span, name.as_str(), faults),
        DefFault::SelfMissing => self_missing(alloc, span, name.as_str(), faults),
        DefFault::DuplicateParameter(x) => duplicate_parameter(alloc, span, x.as_str(), faults),
        DefFault::BuiltinName(x) => cannot_assign(alloc, span, x.as_str(), faults),
        DefFault::MissingAnnotation => missing_annotation(alloc, span, faults),
        DefFault::TooManyNames => too_many_names(alloc, span, name.as_str(), faults),
        DefFault::MissingReturn => missing_return(alloc, span, faults),
    }
}
