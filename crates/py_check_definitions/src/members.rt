//! What is said of the statements in the body of a class.
ghost use Rattle.std.specs.Prelude.{◌≡◌, ◌++◌, [], length, IfOk};
ghost use Rattle.std.specs.Option.{option_copied};
ghost use Rattle.py_syntax.specs.Expressions.{expr_tree};
ghost use Rattle.py_syntax.specs.Statements.{stmt_tree, body_tree};
ghost use Rattle.py_check_context.specs.Context.{context};
ghost use Rattle.py_check_names.specs.Outline.{method_in};
ghost use Rattle.py_check_members.specs.Deeds as deeds;
ghost use Rattle.py_check_places.specs.Views.{known_at};
ghost use Rattle.py_check_definitions.specs.Definitions as spec;
ghost use Rattle.py_check_definitions.specs.Views as views;

use crate::definitions::{Defined, add_first, behind};
use indexmap::IndexSet;
use py_binder::Scope;
use py_check_annotations::annotation;
use py_check_context::Context;
use py_check_flow::name_in;
use py_check_members::taken_name;
use py_check_names::add_name;
use py_check_places::Place;
use py_check_signatures::{Owner, is_new};
use py_syntax::{Expr, Stmt, StmtKind};
use py_syntax_diagnostics::Diag;
use std::alloc::Global;
use value_core::{Many, Memory, Name};

/// Adds what is said of the statements in the body of a class, whose methods have this owner and the first of these scopes.
pub(crate) fn add_members(
    alloc: Global,
    scope: &Context<'_>,
    place: &Place,
    owner: Owner,
    body: &[Stmt],
    insides: &[Scope],
    faults: &mut Many<Diag>,
) -> Result<(), Memory>
    ensures { IfOk result (λ done. faults.new ≡ faults.old ++ views.members_along (context scope.now) (known_at place.now) owner [] insides.now (body_tree body.now)) }
{
    let mut earlier = IndexSet::new(alloc);
    let mut rest = insides;
    for s in body {
        add_member(alloc, scope, place, owner, &earlier, rest, s, faults)?;
        add_taken(&mut earlier, taken_name(s))?;
        rest = behind(rest, method_count(s));
    }
    Ok(())
}

/// How many methods a statement is.
fn method_count(s: &Stmt) -> usize
    ensures { result ≡ length (method_in (stmt_tree s.now)) }
{
    match &s.kind {
        StmtKind::Def(_) => 1,
        _ => 0,
    }
}

/// Puts the name that a statement takes, if it takes one, behind those before it.
fn add_taken(earlier: &mut IndexSet<Name>, taken: Option<&Name>) -> Result<(), Memory>
    ensures { IfOk result (λ done. earlier.new.keys ≡ views.insert_taken earlier.old.keys (option_copied taken.entry)) }
{
    match taken {
        Some(name) => add_name(earlier, name),
        None => Ok(()),
    }
}

/// The same of one statement, behind these names.
fn add_member(
    alloc: Global,
    scope: &Context<'_>,
    place: &Place,
    owner: Owner,
    earlier: &IndexSet<Name>,
    insides: &[Scope],
    s: &Stmt,
    faults: &mut Many<Diag>,
) -> Result<(), Memory>
    ensures { IfOk result (λ done. faults.new ≡ faults.old ++ views.member_at (context scope.now) (known_at place.now) owner earlier.now.keys insides.now (stmt_tree s.now)) }
{
    match &s.kind {
        StmtKind::Def(f) => {
            let defined = Defined {
                span: s.span,
                owner,
                fresh: is_new(earlier, &f.name),
                tree: f,
            };
            add_first(alloc, scope, place, defined, insides, faults)
        }
        StmtKind::Annot(target, mark, None) => {
            add_attribute(alloc, scope, name_in(target), mark, faults)
        }
        _ => Ok(()),
    }
}

/// Adds what is said in the annotation of an attribute of this name, if it is one.
fn add_attribute(
    alloc: Global,
    scope: &Context<'_>,
    name: Option<&Name>,
    mark: &Expr,
    faults: &mut Many<Diag>,
) -> Result<(), Memory>
    ensures { IfOk result (λ done. faults.new ≡ faults.old ++ spec.attribute_said (context scope.now).meaning (option_copied name.entry) (expr_tree mark.now)) }
{
    if name.is_some() {
        annotation(alloc, scope, mark, faults)?;
    }
    Ok(())
}
