//! What is refused where nothing else is said of a module.
ghost use Rattle.std.specs.Prelude.{◌≡◌, ◌++◌, map, IfOk};
ghost use Rattle.std.specs.Option.{option_copied, option_map};
ghost use Rattle.py_syntax.specs.Expressions.{expr_tree};
ghost use Rattle.py_syntax.specs.Statements.{stmt_tree, body_tree, func_tree, class_tree};
ghost use Rattle.py_check_context.specs.Members as context_members;
ghost use Rattle.py_check_names.specs.Walked.{trees};
ghost use Rattle.py_check_classes.specs.Views.{class_parts};
ghost use Rattle.py_check_members.specs.Members.{row_of};
ghost use Rattle.py_check_members.specs.Views.{own_of};
ghost use Rattle.py_check_signatures.specs.Views.{parts};
ghost use Rattle.py_check_definitions.specs.Refused as spec;

use crate::definitions::with_class;
use py_check_classes::{Header, has_type};
use py_check_context::{ClassMembers, Member};
use py_check_messages::outside_profile;
use py_syntax::{Class, Func, Span, Stmt, StmtKind};
use py_syntax_diagnostics::Diag;
use std::alloc::Global;
use value_core::{Many, Memory, Name};

/// Where nothing is said, adds that each function with decorators, and each class that is not whole, is outside the profile.
pub fn add_refusals(
    alloc: Global,
    headers: &[Header],
    members: &[ClassMembers],
    definitions: &[&Stmt],
    faults: &mut Many<Diag>,
) -> Result<(), Memory>
    ensures { IfOk result (λ done. faults.new ≡ spec.or_refused faults.old (spec.refusals headers.now (map own_of members.now) 0 (trees definitions.now))) }
{
    if faults.is_empty() {
        return refuse_all(alloc, headers, members, definitions, faults);
    }
    Ok(())
}

fn refuse_all(
    alloc: Global,
    headers: &[Header],
    members: &[ClassMembers],
    definitions: &[&Stmt],
    faults: &mut Many<Diag>,
) -> Result<(), Memory>
    ensures { IfOk result (λ done. faults.new ≡ faults.old ++ spec.refusals headers.now (map own_of members.now) 0 (trees definitions.now)) }
{
    let mut classes = 0;
    for s in definitions {
        let whole = is_whole(headers, members, classes);
        refuse(alloc, whole, *s, faults)?;
        classes = with_class(classes, *s)?;
    }
    Ok(())
}

/// Whether the class of a number has a type, and each attribute of its own has one.
fn is_whole(headers: &[Header], members: &[ClassMembers], class: usize) -> bool
    ensures { result ≡ spec.is_whole headers.now (map own_of members.now) class }
{
    has_type(headers.get(class)) && are_whole(members.get(class))
}

fn are_whole(members: Option<&ClassMembers>) -> bool
    ensures { result ≡ spec.are_whole (row_of (option_map own_of (option_copied members.entry))) }
{
    match members {
        Some(members) => all_whole(members),
        None => true,
    }
}

fn all_whole(members: &ClassMembers) -> bool
    ensures { result ≡ spec.are_whole (own_of members.now) }
{
    for (_, member) in members.own.iter() {
        if !is_whole_member(member) {
            return false;
        }
    }
    true
}

/// Whether a member is a method, or an attribute with a type.
fn is_whole_member(member: &Member) -> bool
    ensures { result ≡ spec.is_whole_member (context_members.member member.now) }
{
    match member {
        Member::Attribute(_) => true,
        Member::Method(_) => true,
        Member::Untyped => false,
        Member::Unknown(_) => false,
    }
}

/// Refuses a function with decorators, a class that is not whole, and methods with decorators.
fn refuse(alloc: Global, whole: bool, s: &Stmt, faults: &mut Many<Diag>) -> Result<(), Memory>
    ensures { IfOk result (λ done. faults.new ≡ faults.old ++ spec.refused whole (stmt_tree s.now)) }
{
    match &s.kind {
        StmtKind::Def(f) => refuse_decorated(alloc, s.span, f, faults),
        StmtKind::Class(c) => refuse_class(alloc, whole, s.span, c, faults),
        _ => Ok(()),
    }
}

fn refuse_class(
    alloc: Global,
    whole: bool,
    span: Span,
    c: &Class,
    faults: &mut Many<Diag>,
) -> Result<(), Memory>
    ensures { IfOk result (λ done. faults.new ≡ faults.old ++ spec.class_refused whole span (class_tree c.now)) }
{
    refuse_parts(alloc, whole, span, c, faults)
}

fn refuse_parts(
    alloc: Global,
    whole: bool,
    span: Span,
    c: &Class,
    faults: &mut Many<Diag>,
) -> Result<(), Memory>
    ensures { IfOk result (λ done. faults.new ≡ faults.old ++ spec.class_refused whole span (class_parts c.now)) }
{
    refuse_unless(alloc, whole, span, &c.name, faults)?;
    refuse_methods(alloc, c.body.as_slice(), faults)
}

fn refuse_unless(
    alloc: Global,
    whole: bool,
    span: Span,
    name: &Name,
    faults: &mut Many<Diag>,
) -> Result<(), Memory>
    ensures { IfOk result (λ done. faults.new ≡ faults.old ++ spec.unless_whole whole span name.now) }
{
    if whole {
        return Ok(());
    }
    outside_profile(alloc, span, name.as_str(), faults)
}

fn refuse_methods(alloc: Global, body: &[Stmt], faults: &mut Many<Diag>) -> Result<(), Memory>
    ensures { IfOk result (λ done. faults.new ≡ faults.old ++ spec.methods_refused (body_tree body.now)) }
{
    for s in body {
        refuse_method(alloc, s, faults)?;
    }
    Ok(())
}

fn refuse_method(alloc: Global, s: &Stmt, faults: &mut Many<Diag>) -> Result<(), Memory>
    ensures { IfOk result (λ done. faults.new ≡ faults.old ++ spec.method_refused (stmt_tree s.now)) }
{
    match &s.kind {
        StmtKind::Def(f) => refuse_decorated(alloc, s.span, f, faults),
        _ => Ok(()),
    }
}

fn refuse_decorated(
    alloc: Global,
    span: Span,
    f: &Func,
    faults: &mut Many<Diag>,
) -> Result<(), Memory>
    ensures { IfOk result (λ done. faults.new ≡ faults.old ++ spec.decorated_said span (func_tree f.now).name (func_tree f.now).marks) }
{
    refuse_marked(alloc, span, f, faults)
}

fn refuse_marked(alloc: Global, span: Span, f: &Func, faults: &mut Many<Diag>) -> Result<(), Memory>
    ensures { IfOk result (λ done. faults.new ≡ faults.old ++ spec.decorated_said span (parts f.now).name (parts f.now).marks) }
{
    match f.marks.as_slice() {
        [] => Ok(()),
        [_, ..] => outside_profile(alloc, span, f.name.as_str(), faults),
    }
}
