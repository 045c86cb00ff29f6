//! The walk over a module's own statements, with the definitions among them.
ghost use Rattle.std.specs.Prelude.{◌≡◌, ◌++◌, ◌∷◌, [], map, false, IfOk};
ghost use Rattle.std.specs.Option.{option_map};
ghost use Rattle.py_syntax.specs.Statements.{stmt_tree, body_tree, no_stmts, stmt_then};
ghost use Rattle.py_typed.specs.Statements.{typed_stmt};
ghost use Rattle.py_check_context.specs.Context.{context};
ghost use Rattle.py_check_messages.specs.Rows.{appended};
ghost use Rattle.py_check_messages.specs.Seen.{Tells};
ghost use Rattle.py_check_names.specs.Outline.{stmt_definitions};
ghost use Rattle.py_check_values.specs.Returns.{outside};
ghost use Rattle.py_check_places.specs.Views.{known_at};
ghost use Rattle.py_check_statements.specs.Bodies as bodies;
ghost use Rattle.py_check_definitions.specs.Views as definitions;
ghost use Rattle.py_check.specs.Parts as views;

use indexmap::IndexSet;
use py_binder::Scope;
use py_check_context::Context;
use py_check_definitions::{ClassTables, Earlier, add_definitions};
use py_check_names::definitions_in;
use py_check_places::Place;
use py_check_statements::{Around, Inside, block};
use py_check_values::Returns;
use py_syntax::Stmt;
use py_syntax_diagnostics::Diag;
use py_typed::TStmt;
use std::alloc::Global;
use std::slice::from_ref;
use value_core::{Many, Memory};

/// A module's own statements, whose functions have these scopes: their typed forms, if they are typed, and what is said of each and
/// of the definitions in it, with what is known where it begins.
pub(crate) fn walk(
    alloc: Global,
    scope: &Context<'_>,
    classes: ClassTables<'_>,
    insides: &[Scope],
    body: &[Stmt],
    place: &mut Place,
    faults: &mut Many<Diag>,
) -> Result<Option<Many<TStmt>>, Memory>
    ensures typed { IfOk result (λ t. option_map (map typed_stmt) t ≡ (bodies.block (context scope.now) outside bodies.nothing_around (known_at place.old) (body_tree body.now)).got) }
    ensures told { IfOk result (λ t. faults.new ≡ faults.old ++ views.walk_along (definitions.classes_seen classes.entry) (context scope.now) (known_at place.old) [] 0 insides.now (body_tree body.now)) }
    ensures known { IfOk result (λ t. known_at place.new ≡ bodies.block_after (context scope.now) (known_at place.old) (body_tree body.now)) }
{
    let mut typed = Some(Many::new(alloc));
    let mut earlier = nothing_earlier(alloc);
    let mut rest = insides;
    for s in body {
        rest = add_definitions_of(alloc, scope, place, classes, s, rest, &mut earlier, faults)?;
        let one = statement(alloc, scope, s, place, faults)?;
        typed = with_all(typed, one)?;
    }
    Ok(typed)
}

fn nothing_earlier(alloc: Global) -> Earlier
    ensures names { result.names.keys ≡ [] }
    ensures classes { result.classes ≡ 0 }
{
    Earlier {
        names: IndexSet::new(alloc),
        classes: 0,
    }
}

/// Adds what is said of the definitions in a statement, which begins at this place.
fn add_definitions_of<'a>(
    alloc: Global,
    scope: &Context<'_>,
    place: &Place,
    classes: ClassTables<'_>,
    s: &Stmt,
    insides: &'a [Scope],
    earlier: &mut Earlier,
    faults: &mut Many<Diag>,
) -> Result<&'a [Scope], Memory>
    ensures told { IfOk result (λ rest. faults.new ≡ faults.old ++ definitions.said_along (definitions.classes_seen classes.entry) (context scope.now) (known_at place.now) earlier.old.names.keys earlier.old.classes insides.now (stmt_definitions (stmt_tree s.now))) }
    ensures names { IfOk result (λ rest. earlier.new.names.keys ≡ definitions.names_behind earlier.old.names.keys (stmt_definitions (stmt_tree s.now))) }
    ensures classes { IfOk result (λ rest. earlier.new.classes ≡ definitions.classes_behind earlier.old.classes (stmt_definitions (stmt_tree s.now))) }
    ensures scopes { IfOk result (λ rest. rest.now ≡ definitions.scopes_behind insides.now (stmt_definitions (stmt_tree s.now))) }
{
    let found = definitions_in(alloc, from_ref(s))?;
    add_definitions(
        alloc,
        scope,
        place,
        classes,
        found.as_slice(),
        insides,
        earlier,
        faults,
    )
}

/// A statement of a module, if it has a typed form: a definition has none.
fn statement(
    alloc: Global,
    scope: &Context<'_>,
    s: &Stmt,
    place: &mut Place,
    faults: &mut Many<Diag>,
) -> Result<Option<Many<TStmt>>, Memory>
    ensures told { IfOk result (λ t. Tells (map typed_stmt) t faults.old faults.new (bodies.block (context scope.now) outside bodies.nothing_around (known_at place.old) (stmt_then (stmt_tree s.now) no_stmts))) }
    ensures known { IfOk result (λ t. known_at place.new ≡ bodies.after (context scope.now) (known_at place.old) (stmt_tree s.now)) }
{
    let inside = Inside {
        returns: Returns::Outside,
        around: Around {
            looping: false,
            handling: false,
        },
    };
    block(alloc, scope, from_ref(s), inside, place, faults)
}

/// Those that were typed before, and all that is typed behind them.
fn with_all(
    found: Option<Many<TStmt>>,
    more: Option<Many<TStmt>>,
) -> Result<Option<Many<TStmt>>, Memory>
    ensures { IfOk result (λ r. option_map (map typed_stmt) r ≡ appended (option_map (map typed_stmt) found) (option_map (map typed_stmt) more)) }
{
    let Some(mut found) = found else {
        return Ok(None);
    };
    let Some(more) = more else {
        return Ok(None);
    };
    put_all(&mut found, more)?;
    Ok(Some(found))
}

fn put_all(found: &mut Many<TStmt>, more: Many<TStmt>) -> Result<(), Memory>
    ensures { IfOk result (λ done. found.new ≡ found.old ++ more) }
{
    for s in more.into_vec() {
        found.push(s)?;
    }
    Ok(())
}
