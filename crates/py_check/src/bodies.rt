//! Functions with their bodies.
ghost use Rattle.std.specs.Prelude.{◌≡◌, ◌++◌, ℕ, List, None, map, IfOk};
ghost use Rattle.std.specs.Option.{option_map};
ghost use Rattle.std.specs.Str.{bytes_eq};
ghost use Rattle.indexmap.specs.IndexMap.{get};
ghost use Rattle.py_typed.specs.Sorts.{sort};
ghost use Rattle.py_typed.specs.Statements.{typed_func, typed_stmt, typed_suite};
ghost use Rattle.py_check_names.specs.Meanings as meanings;
ghost use Rattle.py_check_context.specs.Context.{context, var_sort};
ghost use Rattle.py_check_messages.specs.Seen.{Tells};
ghost use Rattle.py_check_values.specs.Returns.{return_sort};
ghost use Rattle.py_check_places.specs.Views.{known_at};
ghost use Rattle.py_check_definitions.specs.Views.{headed_of, headed_parts};
ghost use Rattle.py_check.specs.Module as spec;
ghost use Rattle.py_check.specs.Parts as views;
ghost use Rattle.py_check.specs.Fixed.{AreFixed};

use crate::contexts::{ModuleContext, declaring_of, first_name, next_init_of};
use indexmap::IndexSet;
use py_check_context::{Context, VarType};
use py_check_definitions::{
    Function, numbers_of, own_types, param_numbers, type_or_none, typed_variables,
};
use py_check_names::{names_in, own_names};
use py_check_places::Place;
use py_check_signatures::{Owner, is_init};
use py_check_statements::{Around, Inside, block};
use py_check_values::Returns;
use py_syntax_diagnostics::Diag;
use py_typed::{TFunc, TStmt, Ty};
use std::alloc::Global;
use value_core::{Many, Memory, Name};

/// The functions of a module with their bodies, in their order, where its variables have these types. They keep them: each of the
/// variables has one, or has none for good.
pub(crate) fn typed_functions(
    alloc: Global,
    module_context: &ModuleContext<'_>,
    functions: &[Function<'_>],
    place: &mut Place,
    faults: &mut Many<Diag>,
) -> Result<Many<TFunc>, Memory>
    requires fixed { AreFixed (known_at place.old).types.globals }
    requires nothing { (name : List ℕ) → get bytes_eq module_context.now.nothing.now name ≡ None }
    ensures typed { IfOk result (λ fs. map typed_func fs ≡ spec.typed_functions (views.module_context_of module_context.now) (known_at place.old).types.globals (map headed_of functions.now)) }
    ensures told { IfOk result (λ fs. faults.new ≡ faults.old ++ spec.bodies_said (views.module_context_of module_context.now) (known_at place.old).types.globals (map headed_of functions.now)) }
    ensures known { IfOk result (λ fs. (known_at place.new).types.globals ≡ (known_at place.old).types.globals) }
{
    let mut typed = Many::new(alloc);
    for f in functions {
        typed.push(typed_function(alloc, module_context, f, place, faults)?)?;
    }
    Ok(typed)
}

/// A function with its body.
fn typed_function(
    alloc: Global,
    module_context: &ModuleContext<'_>,
    f: &Function<'_>,
    place: &mut Place,
    faults: &mut Many<Diag>,
) -> Result<TFunc, Memory>
    requires { (name : List ℕ) → get bytes_eq module_context.now.nothing.now name ≡ None }
    ensures typed { IfOk result (λ t. typed_func t ≡ spec.typed_function (spec.function_context (views.module_context_of module_context.now) (headed_of f.now)) module_context.now.known.now.variables.keys (known_at place.old).types.globals (headed_of f.now)) }
    ensures told { IfOk result (λ t. faults.new ≡ faults.old ++ (spec.body (spec.function_context (views.module_context_of module_context.now) (headed_of f.now)) module_context.now.known.now.variables.keys (known_at place.old).types.globals (headed_of f.now)).said) }
    ensures known { IfOk result (λ t. (known_at place.new).types.globals ≡ (spec.body_after (spec.function_context (views.module_context_of module_context.now) (headed_of f.now)) module_context.now.known.now.variables.keys (known_at place.old).types.globals (headed_of f.now)).types.globals) }
{
    let names = names_in(alloc, module_context.known, f.inside)?;
    let first = first_name(f.tree.params.as_slice());
    // For `super().__init__` a trait without a type has no `__init__`; nothing else hangs on that in a class without a type.
    let inside = match f.header.owner {
        Owner::Module => None,
        Owner::Class(class) => Some(py_check_context::Inside {
            class,
            first,
            is_init: is_init(f.header.owner, &f.tree.name),
            declaring: declaring_of(module_context, class),
            next_init: next_init_of(module_context.members, class),
        }),
        Owner::UntypedTrait => Some(py_check_context::Inside {
            class: None,
            first,
            is_init: false,
            declaring: module_context.nothing,
            next_init: None,
        }),
    };
    let scope = Context {
        names: &names,
        sigs: module_context.signatures,
        classes: module_context.classes,
        members: module_context.members,
        inside,
    };
    function_in(
        alloc,
        &scope,
        &module_context.known.variables,
        f,
        place,
        faults,
    )
}

/// The same in its scope.
fn function_in(
    alloc: Global,
    scope: &Context<'_>,
    variables: &IndexSet<Name>,
    f: &Function<'_>,
    place: &mut Place,
    faults: &mut Many<Diag>,
) -> Result<TFunc, Memory>
    ensures typed { IfOk result (λ t. typed_func t ≡ spec.typed_function (context scope.now) variables.now.keys (known_at place.old).types.globals (headed_parts f.now)) }
    ensures told { IfOk result (λ t. faults.new ≡ faults.old ++ (spec.body (context scope.now) variables.now.keys (known_at place.old).types.globals (headed_parts f.now)).said) }
    ensures known { IfOk result (λ t. (known_at place.new).types.globals ≡ (spec.body_after (context scope.now) variables.now.keys (known_at place.old).types.globals (headed_parts f.now)).types.globals) }
{
    let own = own_names(alloc, f.inside)?;
    let body = body_in(alloc, scope, variables, &own, f, place, faults)?;
    with_body(alloc, f, &own, &place.types.locals, body)
}

/// The statements of a function that has these variables of its own.
fn body_in(
    alloc: Global,
    scope: &Context<'_>,
    variables: &IndexSet<Name>,
    own: &IndexSet<Name>,
    f: &Function<'_>,
    place: &mut Place,
    faults: &mut Many<Diag>,
) -> Result<Option<Many<TStmt>>, Memory>
    requires { own.now.keys ≡ meanings.own_names f.now.inside.now }
    ensures told { IfOk result (λ t. Tells (map typed_stmt) t faults.old faults.new (spec.body (context scope.now) variables.now.keys (known_at place.old).types.globals (headed_parts f.now))) }
    ensures known { IfOk result (λ t. known_at place.new ≡ spec.body_after (context scope.now) variables.now.keys (known_at place.old).types.globals (headed_parts f.now)) }
{
    begin(alloc, scope, variables, own, f, place)?;
    let inside = Inside {
        returns: returns_of(&f.header.ret),
        around: Around {
            looping: false,
            handling: false,
        },
    };
    let body = f.tree.body.as_slice();
    block(alloc, scope, body, inside, place, faults)
}

/// Where a function begins, its parameters are bound, and so are the module's variables, which keep their types.
fn begin(
    alloc: Global,
    scope: &Context<'_>,
    variables: &IndexSet<Name>,
    own: &IndexSet<Name>,
    f: &Function<'_>,
    place: &mut Place,
) -> Result<(), Memory>
    requires { own.now.keys ≡ meanings.own_names f.now.inside.now }
    ensures { IfOk result (λ done. known_at place.new ≡ spec.function_start (context scope.now) variables.now.keys (known_at place.old).types.globals (headed_parts f.now)) }
{
    place.types.locals = own_types(
        alloc,
        scope,
        f.tree.body.as_slice(),
        f.tree.params.as_slice(),
        &f.header.params,
        own.as_slice(),
    )?;
    place.locals_bound = param_numbers(alloc, own, f.tree.params.as_slice())?;
    place.globals_bound = numbers_of(alloc, variables.as_slice())?;
    place.names = Vec::new(alloc);
    Ok(())
}

fn returns_of(ret: &Option<Ty>) -> Returns<'_>
    ensures { return_sort result ≡ spec.return_of (option_map sort ret.now) }
{
    match ret {
        Some(t) => Returns::Gives(t),
        None => Returns::Untyped,
    }
}

/// A function with this body, behind which its own variables have these types.
fn with_body(
    alloc: Global,
    f: &Function<'_>,
    own: &IndexSet<Name>,
    locals: &Many<VarType>,
    body: Option<Many<TStmt>>,
) -> Result<TFunc, Memory>
    requires { own.now.keys ≡ meanings.own_names f.now.inside.now }
    ensures { IfOk result (λ t. typed_func t ≡ spec.function_by (headed_parts f.now) (map var_sort locals.now) (option_map (map typed_stmt) body)) }
{
    let name = f.tree.name.clone()?;
    let locals = typed_variables(alloc, own.as_slice(), locals)?;
    let ret = type_or_none(alloc, &f.header.ret)?;
    Ok(TFunc {
        name,
        class: class_of(f.header.owner),
        params: f.tree.params.len(),
        locals,
        ret,
        body: statements_or_none(alloc, body),
    })
}

/// The class that a function stands in, where that has a type.
fn class_of(owner: Owner) -> Option<usize>
    ensures { result ≡ spec.class_of owner }
{
    match owner {
        Owner::Module | Owner::UntypedTrait => None,
        Owner::Class(class) => class,
    }
}

/// Statements in a row, or none where they are not typed.
pub(crate) fn statements_or_none(alloc: Global, typed: Option<Many<TStmt>>) -> Many<TStmt>
    ensures { typed_suite result ≡ spec.statements_of (option_map (map typed_stmt) typed) }
{
    match typed {
        Some(statements) => statements,
        None => Many::new(alloc),
    }
}
