//! Whose the functions of a module are.
ghost use Rattle.std.specs.Prelude.{◌≡◌, ◌++◌, map, IfOk};
ghost use Rattle.py_syntax.specs.Statements.{stmt_tree, body_tree};
ghost use Rattle.py_check_names.specs.Walked.{trees};
ghost use Rattle.py_check_names.specs.Outline.{method_in, methods_in};
ghost use Rattle.py_check_definitions.specs.Owners as spec;

use crate::definitions::with_class;
use py_check_classes::{Header, has_type, is_untyped_trait};
use py_check_signatures::Owner;
use py_syntax::{Stmt, StmtKind};
use std::alloc::Global;
use value_core::{Many, Memory};

/// The owners of the functions that definitions hold, where the classes of the module have these headers.
pub(crate) fn owners_of(
    alloc: Global,
    headers: &[Header],
    definitions: &[&Stmt],
) -> Result<Many<Owner>, Memory>
    ensures { IfOk result (λ owners. owners ≡ spec.owners_from headers.now 0 (trees definitions.now)) }
{
    let mut owners = Many::new(alloc);
    let mut classes = 0;
    for s in definitions {
        add_owners(headers, classes, *s, &mut owners)?;
        classes = with_class(classes, *s)?;
    }
    Ok(owners)
}

/// Adds those of a definition, behind so many classes.
fn add_owners(
    headers: &[Header],
    classes: usize,
    s: &Stmt,
    owners: &mut Many<Owner>,
) -> Result<(), Memory>
    ensures { IfOk result (λ done. owners.new ≡ owners.old ++ spec.owners_in headers.now classes (stmt_tree s.now)) }
{
    match &s.kind {
        StmtKind::Def(_) => owners.push(Owner::Module),
        StmtKind::Class(c) => {
            let owner = class_owner(headers, classes);
            add_methods(c.body.as_slice(), owner, owners)
        }
        _ => Ok(()),
    }
}

/// Adds this one for each method in the body of a class.
fn add_methods(body: &[Stmt], owner: Owner, owners: &mut Many<Owner>) -> Result<(), Memory>
    ensures { IfOk result (λ done. owners.new ≡ owners.old ++ map (λ f. owner) (methods_in (body_tree body.now))) }
{
    for s in body {
        add_method(s, owner, owners)?;
    }
    Ok(())
}

fn add_method(s: &Stmt, owner: Owner, owners: &mut Many<Owner>) -> Result<(), Memory>
    ensures { IfOk result (λ done. owners.new ≡ owners.old ++ map (λ f. owner) (method_in (stmt_tree s.now))) }
{
    match &s.kind {
        StmtKind::Def(_) => owners.push(owner),
        _ => Ok(()),
    }
}

/// Whose the methods of the class of a number are.
pub(crate) fn class_owner(headers: &[Header], class: usize) -> Owner
    ensures { result ≡ spec.class_owner headers.now class }
{
    if has_type(headers.get(class)) {
        return Owner::Class(Some(class));
    }
    if is_untyped_trait(headers.get(class)) {
        return Owner::UntypedTrait;
    }
    Owner::Class(None)
}
