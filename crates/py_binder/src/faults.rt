//! What is wrong with names alone.
ghost use Rattle.std.specs.Prelude.{◌≡◌, ℕ, List, ◌∷◌, ◌++◌, [], find, IfOk, OnOk};
ghost use Rattle.std.specs.Option.{option_copied};
ghost use Rattle.py_binder.specs.Scope.{contains, seen_there};
ghost use Rattle.py_binder.specs.Faults as spec;
ghost use Rattle.py_binder.specs.Collected.{use_of, sights_of};
ghost use Rattle.py_binder.specs.Tables.{table_role, inside_role};

use crate::inside::{Inside, is_variable};
use crate::scope::Role;
use crate::sight::{Sight, Use};
use crate::table::Table;
use indexmap::IndexSet;
use py_syntax::Span;
use py_syntax_diagnostics::Diag;
use std::alloc::Global;
use value_core::{Many, Memory, Name, Text};

/// Adds what is wrong in a function's body, where some names may not be listed as global: the parameters, and each name
/// from where it is seen on.
pub(crate) fn add_body_faults(
    alloc: Global,
    inside: &Inside<'_>,
    refused: &mut IndexSet<Name>,
    sights: &[Sight<'_>],
    faults: &mut Many<Diag>,
) -> Result<(), Memory>
    ensures { OnOk result (faults.new ≡ faults.old ++ spec.body_faults (table_role inside.now.table.now) (inside_role inside.now) refused.old.keys (sights_of sights.now)) }
{
    for sight in sights {
        add_faults_at(alloc, inside, refused, sight, faults)?;
        refuse(refused, &sight.does)?;
    }
    Ok(())
}

/// Adds a name that is seen.
fn refuse(refused: &mut IndexSet<Name>, does: &Use<'_>) -> Result<(), Memory>
    ensures { OnOk result ((name : List ℕ) → contains refused.new.keys name ≡ contains (refused.old.keys ++ seen_there (use_of does.now)) name) }
{
    match does {
        Use::Reads(name) => put(refused, name),
        Use::Binds(name) => put(refused, name),
        Use::Defines(_, name) => put(refused, name),
        Use::Declares(_) => Ok(()),
        Use::Holds(_) => Ok(()),
    }
}

fn put(names: &mut IndexSet<Name>, name: &Name) -> Result<(), Memory>
    ensures { OnOk result ((x : List ℕ) → contains names.new.keys x ≡ contains (names.old.keys ++ name.now ∷ []) x) }
{
    names.insert(name.clone()?)?;
    Ok(())
}

/// Adds what is wrong at one place.
pub(crate) fn add_faults_at(
    alloc: Global,
    inside: &Inside<'_>,
    refused: &IndexSet<Name>,
    sight: &Sight<'_>,
    faults: &mut Many<Diag>,
) -> Result<(), Memory>
    ensures { OnOk result (faults.new ≡ faults.old ++ spec.place_faults (table_role inside.now.table.now) (inside_role inside.now) (contains refused.now.keys) (use_of sight.now.does) sight.now.span) }
{
    match &sight.does {
        Use::Reads(name) => add_read_fault(alloc, inside.role(name), name, sight.span, faults),
        Use::Declares(names) => {
            let names = names.as_slice();
            let unknown = first_unknown(inside.table, names);
            let found = first_refused(refused, names);
            add_global_fault(alloc, unknown, found, sight.span, faults)
        }
        Use::Binds(_) => Ok(()),
        Use::Defines(_, _) => Ok(()),
        Use::Holds(_) => Ok(()),
    }
}

fn add_read_fault(
    alloc: Global,
    role: Role,
    name: &Name,
    span: Span,
    faults: &mut Many<Diag>,
) -> Result<(), Memory>
    ensures { OnOk result (faults.new ≡ faults.old ++ spec.read_fault role name.now span) }
{
    if role == Role::Unknown {
        let fault = not_defined(alloc, name, span)?;
        faults.push(fault)?;
    }
    Ok(())
}

fn add_global_fault(
    alloc: Global,
    unknown: Option<&Name>,
    refused: Option<&Name>,
    span: Span,
    faults: &mut Many<Diag>,
) -> Result<(), Memory>
    ensures { OnOk result (faults.new ≡ faults.old ++ spec.global_fault (option_copied unknown.entry) (option_copied refused.entry) span) }
{
    match unknown {
        Some(name) => {
            let fault = not_defined(alloc, name, span)?;
            faults.push(fault)
        }
        None => match refused {
            Some(name) => {
                let fault = invalid_global(alloc, name, span)?;
                faults.push(fault)
            }
            None => Ok(()),
        },
    }
}

/// The first of the names that is no variable of the module.
fn first_unknown<'a>(table: &Table, names: &'a [Name]) -> Option<&'a Name>
    ensures { option_copied result ≡ spec.no_variable (table_role table.now) names.now }
{
    for name in names {
        if !is_variable(table.role(name)) {
            return Some(name);
        }
    }
    None
}

/// The first of the names that is refused.
fn first_refused<'a>(refused: &IndexSet<Name>, names: &'a [Name]) -> Option<&'a Name>
    ensures { option_copied result ≡ find (contains refused.now.keys) names.now }
{
    for name in names {
        if refused.contains(name) {
            return Some(name);
        }
    }
    None
}

fn not_defined(alloc: Global, name: &Name, span: Span) -> Result<Diag, Memory>
    ensures { IfOk result (λ d. d ≡ spec.not_defined name.now span) }
{
    let text = format!(in alloc; "Name \"{name}\" is not defined")?;
    let text = Text::from_string(text);
    let code = Text::from_str(alloc, "name-defined")?;
    Ok(Diag { span, text, code })
}

fn invalid_global(alloc: Global, name: &Name, span: Span) -> Result<Diag, Memory>
    ensures { IfOk result (λ d. d ≡ spec.invalid_global name.now span) }
{
    let text = format!(in alloc; "Invalid global declaration of \"{name}\"")?;
    let text = Text::from_string(text);
    let code = Text::from_str(alloc, "misc")?;
    Ok(Diag { span, text, code })
}
