//! What the body of a class has of its own.
ghost use Rattle.std.specs.Prelude.{◌≡◌, ◌||◌, IfOk};
ghost use Rattle.std.specs.Option.{option_copied};
ghost use Rattle.py_syntax.specs.Statements.{stmt_tree, body_tree};
ghost use Rattle.py_check_classes.specs.Bodies as spec;

use indexmap::IndexSet;
use py_check_flow::name_in;
use py_check_names::{add_name, builtin_meaning};
use py_syntax::{Stmt, StmtKind};
use std::alloc::Global;
use value_core::{Memory, Name};

/// Whether the body declares an attribute or defines `__init__`.
pub(crate) fn has_state(alloc: Global, body: &[Stmt]) -> Result<bool, Memory>
    ensures { IfOk result (λ b. b ≡ (spec.has_attributes (body_tree body.now) || spec.has_init (body_tree body.now))) }
{
    let mut methods = IndexSet::new(alloc);
    let declares = declares_behind(&mut methods, body)?;
    Ok(declares || has_init(body))
}

/// Whether it declares an attribute, behind these methods. They are used up.
fn declares_behind(methods: &mut IndexSet<Name>, body: &[Stmt]) -> Result<bool, Memory>
    ensures { IfOk result (λ b. b ≡ spec.declares_behind methods.old.keys (body_tree body.now)) }
{
    for s in body {
        if is_declared(methods, declared_name(s)) {
            return Ok(true);
        }
        add_method(methods, defined_name(s))?;
    }
    Ok(false)
}

fn is_declared(methods: &IndexSet<Name>, name: Option<&Name>) -> bool
    ensures { result ≡ spec.is_declared methods.now.keys (option_copied name.entry) }
{
    match name {
        Some(name) => !methods.contains(name),
        None => false,
    }
}

fn add_method(methods: &mut IndexSet<Name>, name: Option<&Name>) -> Result<(), Memory>
    ensures { IfOk result (λ done. methods.new.keys ≡ spec.with_method methods.old.keys (option_copied name.entry)) }
{
    let Some(name) = name else {
        return Ok(());
    };
    if builtin_meaning(name).is_some() {
        return Ok(());
    }
    add_name(methods, name)
}

/// The name of the attribute that a statement declares.
fn declared_name(s: &Stmt) -> Option<&Name>
    ensures { option_copied result ≡ spec.declared_name (stmt_tree s.now) }
{
    match &s.kind {
        StmtKind::Annot(target, _, None) => name_in(target),
        _ => None,
    }
}

/// The name of the function that a statement defines.
fn defined_name(s: &Stmt) -> Option<&Name>
    ensures { option_copied result ≡ spec.defined_name (stmt_tree s.now) }
{
    match &s.kind {
        StmtKind::Def(f) => Some(&f.name),
        _ => None,
    }
}

fn has_init(body: &[Stmt]) -> bool
    ensures { result ≡ spec.has_init (body_tree body.now) }
{
    for s in body {
        if is_init(defined_name(s)) {
            return true;
        }
    }
    false
}

fn is_init(name: Option<&Name>) -> bool
    ensures { result ≡ spec.is_init (option_copied name.entry) }
{
    match name {
        Some(name) => name.as_str() == "__init__",
        None => false,
    }
}
