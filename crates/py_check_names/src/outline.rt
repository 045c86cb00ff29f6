//! What definitions and imports make of names, and the functions that they hold.
ghost use Rattle.std.specs.Prelude.{◌≡◌, ◌++◌, map, IfOk};
ghost use Rattle.std.specs.List.{flat_map};
ghost use Rattle.py_syntax.specs.Statements.{stmt_tree, body_tree};
ghost use Rattle.py_binder.specs.Sights as sights;
ghost use Rattle.py_check_names.specs.Walked.{trees, func_trees};
ghost use Rattle.py_check_names.specs.Outline as spec;

use crate::builtins::import_meaning;
use py_check_context::Meaning;
use py_syntax::{Func, Stmt, StmtKind};
use std::alloc::Global;
use value_core::{Memory, Name};

/// What definitions make of names, the first of each name first, and the functions by their numbers.
#[derive(Drop)]
pub struct Outline<'a> {
    pub said: Vec<(Name, Meaning)>,
    pub functions: Vec<&'a Func>,
}

/// What these definitions make of names, and the functions that they hold.
pub fn outline_of<'a>(alloc: Global, definitions: &[&'a Stmt]) -> Result<Outline<'a>, Memory>
    ensures said { IfOk result (λ o. o.said.items ≡ spec.said_from 0 (trees definitions.now)) }
    ensures functions { IfOk result (λ o. func_trees o.functions.items ≡ flat_map spec.held_by (trees definitions.now)) }
{
    let mut said = Vec::new(alloc);
    let mut functions = Vec::new(alloc);
    for s in definitions {
        say(alloc, *s, functions.len(), &mut said)?;
        hold(*s, &mut functions)?;
    }
    Ok(Outline { said, functions })
}

/// Adds what a definition makes of names, where the function that comes next has this number.
fn say(alloc: Global, s: &Stmt, next: usize, said: &mut Vec<(Name, Meaning)>) -> Result<(), Memory>
    ensures { IfOk result (λ done. said.new.items ≡ said.old.items ++ spec.said_by next (stmt_tree s.now)) }
{
    match &s.kind {
        StmtKind::Def(f) => {
            said.push((f.name.clone()?, Meaning::Function(next)))?;
            Ok(())
        }
        StmtKind::Class(c) => {
            said.push((c.name.clone()?, Meaning::UntypedClass))?;
            Ok(())
        }
        StmtKind::Import(name, other) => {
            let first = first_part(alloc, name)?;
            said.push((bound_as(&first, other)?, Meaning::Untyped))?;
            Ok(())
        }
        StmtKind::From(source, names) => say_imports(source, names.as_slice(), said),
        _ => Ok(()),
    }
}

fn say_imports(
    source: &Name,
    names: &[(Name, Option<Name>)],
    said: &mut Vec<(Name, Meaning)>,
) -> Result<(), Memory>
    ensures { IfOk result (λ done. said.new.items ≡ said.old.items ++ map (spec.imported_as (spec.may_import_all source.now names.now) source.now) names.now) }
{
    let allowed = may_import_all(source, names);
    for (name, other) in names {
        said.push((bound_as(name, other)?, imported(allowed, source, name)))?;
    }
    Ok(())
}

/// Whether a module has each of the names, and none is given another name.
pub fn may_import_all(source: &Name, names: &[(Name, Option<Name>)]) -> bool
    ensures { result ≡ spec.may_import_all source.now names.now }
{
    for (name, other) in names {
        if !(other.is_none() && import_meaning(source, name).is_some()) {
            return false;
        }
    }
    true
}

fn imported(allowed: bool, source: &Name, name: &Name) -> Meaning
    ensures { result ≡ spec.what_is_imported allowed source.now name.now }
{
    if !allowed {
        return Meaning::Untyped;
    }
    match import_meaning(source, name) {
        Some(meaning) => meaning,
        None => Meaning::Untyped,
    }
}

fn bound_as(name: &Name, other: &Option<Name>) -> Result<Name, Memory>
    ensures { IfOk result (λ n. n ≡ sights.bound_as name.now other.now) }
{
    match other {
        None => Ok(name.clone()?),
        Some(other) => Ok(other.clone()?),
    }
}

/// The part of a dotted name before its first dot.
fn first_part(alloc: Global, name: &Name) -> Result<Name, Memory>
    ensures { IfOk result (λ n. n ≡ sights.first_part name.now) }
{
    match name.as_str().split_once('.') {
        None => Ok(name.clone()?),
        Some((first, _)) => Name::from_str(alloc, first),
    }
}

/// Adds the functions that a definition holds.
fn hold<'a>(s: &'a Stmt, functions: &mut Vec<&'a Func>) -> Result<(), Memory>
    ensures { IfOk result (λ done. func_trees functions.new.items ≡ func_trees functions.old.items ++ spec.held_by (stmt_tree s.now)) }
{
    match &s.kind {
        StmtKind::Def(f) => {
            functions.push(f)?;
            Ok(())
        }
        StmtKind::Class(c) => hold_methods(c.body.as_slice(), functions),
        _ => Ok(()),
    }
}

fn hold_methods<'a>(body: &'a [Stmt], functions: &mut Vec<&'a Func>) -> Result<(), Memory>
    ensures { IfOk result (λ done. func_trees functions.new.items ≡ func_trees functions.old.items ++ spec.methods_in (body_tree body.now)) }
{
    for s in body {
        hold_method(s, functions)?;
    }
    Ok(())
}

fn hold_method<'a>(s: &'a Stmt, functions: &mut Vec<&'a Func>) -> Result<(), Memory>
    ensures { IfOk result (λ done. func_trees functions.new.items ≡ func_trees functions.old.items ++ spec.method_in (stmt_tree s.now)) }
{
    match &s.kind {
        StmtKind::Def(f) => {
            functions.push(f)?;
            Ok(())
        }
        _ => Ok(()),
    }
}
