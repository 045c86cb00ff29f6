//! A module with its own statements and its functions.
ghost use Rattle.std.specs.Prelude.{◌≡◌, ◌++◌, ℕ, List, None, map, IfOk};
ghost use Rattle.std.specs.Option.{option_map};
ghost use Rattle.std.specs.Str.{bytes_eq};
ghost use Rattle.indexmap.specs.IndexMap.{get};
ghost use Rattle.py_syntax.specs.Statements.{body_tree};
ghost use Rattle.py_binder.specs.Scope.{module_scope};
ghost use Rattle.py_typed.specs.Statements.{typed_func, typed_module, typed_stmt, typed_suite, variable};
ghost use Rattle.py_check_context.specs.Context.{context, var_sort};
ghost use Rattle.py_check_names.specs.Meanings as meanings;
ghost use Rattle.py_check_classes.specs.Headers.{entry};
ghost use Rattle.py_check_classes.specs.Kept.{AreKept};
ghost use Rattle.py_check_places.specs.Views.{known_at};
ghost use Rattle.py_check_definitions.specs.Views.{headed_of, classes_seen};
ghost use Rattle.py_check.specs.Outcome.{IsBound};
ghost use Rattle.py_check.specs.Module as spec;
ghost use Rattle.py_check.specs.Parts as views;
ghost use Rattle.py_check.specs.Tables.{AreTables, tables_context, tables_classes};

use crate::bodies::{statements_or_none, typed_functions};
use crate::contexts::{ModuleContext, module_scope};
use crate::found::add_found;
use crate::tables::{Tables, tables_of};
use crate::walk::walk;
use indexmap::IndexSet;
use py_binder::{Scope, Scopes};
use py_check_context::Variables;
use py_check_definitions::{
    ClassTables, Function, Outlined, add_inner_faults, add_refusals, definitions_of,
    headed_functions, start_types, typed_variables,
};
use py_check_names::names_in;
use py_check_overrides::{Classes as Asked, own_members, verdicts};
use py_check_places::Place;
use py_syntax::Stmt;
use py_syntax_diagnostics::Diag;
use py_typed::{Checked, TFunc, TStmt, Var};
use std::alloc::Global;
use value_core::{Many, Memory, Name};

/// A module's own statements, if they are typed, and what is known behind them.
#[derive(Drop)]
struct Own {
    typed: Option<Many<TStmt>>,
    place: Place,
}

/// The variables, the functions and the own statements of a module.
#[derive(Drop)]
struct Parts {
    globals: Many<Var>,
    funcs: Many<TFunc>,
    top: Many<TStmt>,
}

/// The typed tree of a module, which is of use only where nothing is wrong with it, and what is.
#[derive(Drop)]
pub(crate) struct Typing {
    pub checked: Checked,
    pub faults: Many<Diag>,
}

/// The typing of a module of these scopes, with what is wrong in the order of the walk, and then what binding found.
pub(crate) fn typing_of(alloc: Global, body: &[Stmt], scopes: &Scopes) -> Result<Typing, Memory>
    requires { IsBound (body_tree body.now) scopes.now }
    ensures typed { IfOk result (λ t. typed_module t.checked ≡ spec.typed (body_tree body.now)) }
    ensures told { IfOk result (λ t. t.faults ≡ spec.said (body_tree body.now)) }
{
    let found = definitions_of(alloc, body, &scopes.top)?;
    let _count = found.functions.len();
    let functions = headed_functions(alloc, &found, scopes)?;
    let tables = tables_of(alloc, &found, functions.as_slice(), scopes)?;
    typing_by(alloc, &found, functions.as_slice(), tables, scopes, body)
}

/// The same with what is known of a module before its statements.
fn typing_by(
    alloc: Global,
    found: &Outlined<'_>,
    functions: &[Function<'_>],
    tables: Tables,
    scopes: &Scopes,
    body: &[Stmt],
) -> Result<Typing, Memory>
    requires bound { IsBound (body_tree body.now) scopes.now }
    requires known { AreTables (body_tree body.now) found.now (map headed_of functions.now) tables }
    requires nothing { (name : List ℕ) → get bytes_eq tables.nothing name ≡ None }
    ensures typed { IfOk result (λ t. typed_module t.checked ≡ spec.typed (body_tree body.now)) }
    ensures told { IfOk result (λ t. t.faults ≡ spec.said (body_tree body.now)) }
{
    let mut faults = Many::new(alloc);
    let parts = parts_of(alloc, found, functions, &tables, scopes, body, &mut faults)?;
    add_inner_faults(alloc, found.functions.as_slice(), &mut faults)?;
    add_found(scopes.faults.as_slice(), &mut faults)?;
    add_refusals(
        alloc,
        found.classes.headers.as_slice(),
        tables.members.as_slice(),
        found.definitions.as_slice(),
        &mut faults,
    )?;
    let checked = Checked {
        classes: tables.classes,
        globals: parts.globals,
        funcs: parts.funcs,
        top: parts.top,
    };
    Ok(Typing { checked, faults })
}

/// The parts of a module; and adds what is said of its statements.
fn parts_of(
    alloc: Global,
    found: &Outlined<'_>,
    functions: &[Function<'_>],
    tables: &Tables,
    scopes: &Scopes,
    body: &[Stmt],
    faults: &mut Many<Diag>,
) -> Result<Parts, Memory>
    requires bound { scopes.now.top ≡ module_scope (body_tree body.now) }
    requires names { found.now.known.variables.keys ≡ meanings.variables scopes.now.top }
    requires kept { AreKept (map entry found.now.classes.headers) found.now.classes.orders }
    requires nothing { (name : List ℕ) → get bytes_eq tables.now.nothing name ≡ None }
    ensures globals { IfOk result (λ p. map variable p.globals ≡ spec.global_variables (tables_context found.now tables.now) scopes.now.top (map headed_of functions.now) (body_tree body.now)) }
    ensures funcs { IfOk result (λ p. map typed_func p.funcs ≡ spec.functions_by (tables_context found.now tables.now) scopes.now.top (map headed_of functions.now) (body_tree body.now)) }
    ensures top { IfOk result (λ p. typed_suite p.top ≡ spec.top_by (tables_context found.now tables.now) scopes.now.top (map headed_of functions.now) (body_tree body.now)) }
    ensures told { IfOk result (λ p. faults.new ≡ faults.old ++ views.statements_along (tables_classes found.now tables.now) (tables_context found.now tables.now) scopes.now.top scopes.now.funcs (map headed_of functions.now) (body_tree body.now)) }
{
    let headers = found.classes.headers.as_slice();
    let rows = own_members(
        alloc,
        tables.members.as_slice(),
        tables.signatures.as_slice(),
    )?;
    let asked = Asked {
        headers,
        orders: &found.classes.orders,
        members: rows.as_slice(),
    };
    let verdicts = verdicts(alloc, &asked)?;
    let module_context = ModuleContext {
        known: &found.known,
        signatures: tables.signatures.as_slice(),
        classes: &tables.classes,
        members: tables.members.as_slice(),
        declaring: tables.declaring.as_slice(),
        nothing: &tables.nothing,
        tables: ClassTables {
            headers,
            verdicts: verdicts.as_slice(),
        },
    };
    typed_in(alloc, &module_context, functions, scopes, body, faults)
}

/// The same in its context: the module's own statements first, then the bodies of functions.
fn typed_in(
    alloc: Global,
    module_context: &ModuleContext<'_>,
    functions: &[Function<'_>],
    scopes: &Scopes,
    body: &[Stmt],
    faults: &mut Many<Diag>,
) -> Result<Parts, Memory>
    requires bound { scopes.now.top ≡ module_scope (body_tree body.now) }
    requires names { module_context.now.known.now.variables.keys ≡ meanings.variables scopes.now.top }
    requires nothing { (name : List ℕ) → get bytes_eq module_context.now.nothing.now name ≡ None }
    ensures globals { IfOk result (λ p. map variable p.globals ≡ spec.global_variables (views.module_context_of module_context.now) scopes.now.top (map headed_of functions.now) (body_tree body.now)) }
    ensures funcs { IfOk result (λ p. map typed_func p.funcs ≡ spec.functions_by (views.module_context_of module_context.now) scopes.now.top (map headed_of functions.now) (body_tree body.now)) }
    ensures top { IfOk result (λ p. typed_suite p.top ≡ spec.top_by (views.module_context_of module_context.now) scopes.now.top (map headed_of functions.now) (body_tree body.now)) }
    ensures told { IfOk result (λ p. faults.new ≡ faults.old ++ views.statements_along (classes_seen module_context.now.tables) (views.module_context_of module_context.now) scopes.now.top scopes.now.funcs (map headed_of functions.now) (body_tree body.now)) }
{
    let own = own_statements(alloc, module_context, scopes, body, faults)?;
    let Own { typed, mut place } = own;
    let funcs = typed_functions(alloc, module_context, functions, &mut place, faults)?;
    let variables = module_context.known.variables.as_slice();
    let globals = typed_variables(alloc, variables, &place.types.globals)?;
    Ok(Parts {
        globals,
        funcs,
        top: statements_or_none(alloc, typed),
    })
}

/// A module's own statements, which fix the types of its variables, with the definitions among them.
fn own_statements(
    alloc: Global,
    module_context: &ModuleContext<'_>,
    scopes: &Scopes,
    body: &[Stmt],
    faults: &mut Many<Diag>,
) -> Result<Own, Memory>
    ensures typed { IfOk result (λ o. option_map (map typed_stmt) o.typed ≡ (spec.own_statements (spec.context_in (views.module_context_of module_context.now) scopes.now.top) module_context.now.known.now.variables.keys (body_tree body.now)).got) }
    ensures told { IfOk result (λ o. faults.new ≡ faults.old ++ views.own_along (classes_seen module_context.now.tables) (spec.context_in (views.module_context_of module_context.now) scopes.now.top) module_context.now.known.now.variables.keys scopes.now.funcs (body_tree body.now)) }
    ensures known { IfOk result (λ o. (known_at o.place).types.globals ≡ spec.fixed_sorts (spec.context_in (views.module_context_of module_context.now) scopes.now.top) module_context.now.known.now.variables.keys (body_tree body.now)) }
{
    let names = names_in(alloc, module_context.known, &scopes.top)?;
    let scope = module_scope(
        &names,
        module_context.signatures,
        module_context.classes,
        module_context.members,
    );
    statements_in(
        alloc,
        &scope,
        module_context.tables,
        &module_context.known.variables,
        scopes.funcs.as_slice(),
        body,
        faults,
    )
}

/// The same in their scope.
fn statements_in(
    alloc: Global,
    scope: &py_check_context::Context<'_>,
    tables: ClassTables<'_>,
    variables: &IndexSet<Name>,
    insides: &[Scope],
    body: &[Stmt],
    faults: &mut Many<Diag>,
) -> Result<Own, Memory>
    ensures typed { IfOk result (λ o. option_map (map typed_stmt) o.typed ≡ (spec.own_statements (context scope.now) variables.now.keys (body_tree body.now)).got) }
    ensures told { IfOk result (λ o. faults.new ≡ faults.old ++ views.own_along (classes_seen tables.entry) (context scope.now) variables.now.keys insides.now (body_tree body.now)) }
    ensures known { IfOk result (λ o. (known_at o.place).types.globals ≡ spec.fixed_sorts (context scope.now) variables.now.keys (body_tree body.now)) }
{
    let mut place = start(alloc, scope, variables, body)?;
    let typed = walk(alloc, scope, tables, insides, body, &mut place, faults)?;
    Ok(Own { typed, place })
}

/// What is known where a module begins.
fn start(
    alloc: Global,
    scope: &py_check_context::Context<'_>,
    variables: &IndexSet<Name>,
    body: &[Stmt],
) -> Result<Place, Memory>
    ensures { IfOk result (λ p. known_at p ≡ spec.module_start (context scope.now) variables.now.keys (body_tree body.now)) }
{
    let globals = start_types(alloc, scope, body, variables.as_slice())?;
    Ok(Place {
        types: Variables {
            locals: Many::new(alloc),
            globals,
        },
        locals_bound: Vec::new(alloc),
        globals_bound: Vec::new(alloc),
        names: Vec::new(alloc),
    })
}
