//! A module's definitions and functions.
ghost use Rattle.std.specs.Prelude.{◌≡◌, ◌+◌, ℕ, List, [], length, map, unwrap_or, IfOk};
ghost use Rattle.std.specs.Str.{bytes_eq};
ghost use Rattle.indexmap.specs.IndexMap.{get};
ghost use Rattle.py_syntax.specs.Statements.{body_tree};
ghost use Rattle.py_binder.specs.Scope.{functions};
ghost use Rattle.py_typed.specs.Classes.{class_entry};
ghost use Rattle.py_check_context.specs.Context.{context};
ghost use Rattle.py_check_names.specs.Walked.{trees, func_trees};
ghost use Rattle.py_check_names.specs.Outline.{suite_definitions};
ghost use Rattle.py_check_names.specs.Meanings.{variables};
ghost use Rattle.py_check_classes.specs.Names.{class_count};
ghost use Rattle.py_check_classes.specs.Headers.{entry, module_headers};
ghost use Rattle.py_check_classes.specs.Kept.{AreKept};
ghost use Rattle.py_check_definitions.specs.Names.{known_in};
ghost use Rattle.py_check_definitions.specs.Owners.{owners};
ghost use Rattle.py_check_definitions.specs.Views.{headed_of, headed_all, known_from, meanings_by};

use crate::functions::{Function, functions_of};
use crate::owners::owners_of;
use indexmap::IndexMap;
use py_binder::{Scope, Scopes};
use py_check_classes::{Header, ModuleClasses, module_classes, typed_meaning, with_number};
use py_check_context::{Context, Meaning};
use py_check_names::{ModuleNames, definitions_in, module_names, names_in, outline_of};
use py_check_signatures::Owner;
use py_syntax::{Func, Stmt};
use py_typed::{ClassList, Classes};
use std::alloc::Global;
use value_core::{Many, Memory, Name};

/// The definitions and imports of a module, its functions by their numbers, with their owners, what is known of names, and its
/// classes.
#[derive(Drop)]
pub struct Outlined<'a> {
    pub definitions: Vec<&'a Stmt>,
    pub functions: Vec<&'a Func>,
    pub owners: Many<Owner>,
    pub known: ModuleNames,
    pub classes: ModuleClasses,
}

/// The definitions of a module that has this scope.
pub fn definitions_of<'a>(
    alloc: Global,
    body: &'a [Stmt],
    top: &Scope,
) -> Result<Outlined<'a>, Memory>
    ensures definitions { IfOk result (λ o. trees o.definitions.items ≡ suite_definitions (body_tree body.now)) }
    ensures functions { IfOk result (λ o. func_trees o.functions.items ≡ functions (body_tree body.now)) }
    ensures owners { IfOk result (λ o. o.owners ≡ owners (body_tree body.now)) }
    ensures owned { IfOk result (λ o. length o.functions.items ≡ length o.owners) }
    ensures said { IfOk result (λ o. (name : List ℕ) → get bytes_eq o.known.said name ≡ known_in (body_tree body.now) name) }
    ensures variables { IfOk result (λ o. o.known.variables.keys ≡ variables top.now) }
    ensures headers { IfOk result (λ o. o.classes.headers ≡ module_headers (body_tree body.now)) }
    ensures kept { IfOk result (λ o. AreKept (map entry o.classes.headers) o.classes.orders) }
{
    let definitions = definitions_in(alloc, body)?;
    let classes = module_classes(alloc, definitions.as_slice())?;
    let headers = classes.headers.as_slice();
    let outline = outline_of(alloc, definitions.as_slice())?;
    let mut said = known_names(alloc, headers, outline.said.as_slice())?;
    let known = module_names(alloc, &mut said, top)?;
    let owners = owners_of(alloc, headers, definitions.as_slice())?;
    Ok(Outlined {
        definitions,
        functions: outline.functions,
        owners,
        known,
        classes,
    })
}

/// What definitions and imports say of names, with the number of each class that has a type.
fn known_names(
    alloc: Global,
    headers: &[Header],
    said: &[(Name, Meaning)],
) -> Result<Vec<(Name, Meaning)>, Memory>
    ensures { IfOk result (λ known. known.items ≡ known_from headers.now 0 said.now) }
{
    let mut known = Vec::new(alloc);
    let mut classes = 0;
    for (name, meaning) in said {
        let meaning = *meaning;
        let typed = typed_meaning(headers, with_number(classes, meaning));
        known.push((name.clone()?, typed))?;
        classes = behind_class(classes, meaning)?;
    }
    Ok(known)
}

/// So many classes, and one more where this is said of one.
fn behind_class(classes: usize, meaning: Meaning) -> Result<usize, Memory>
    ensures { IfOk result (λ n. n ≡ classes + class_count meaning) }
{
    match meaning {
        Meaning::UntypedClass => classes.checked_add(1).ok_or(Memory),
        _ => Ok(classes),
    }
}

/// The functions with their scopes and headers. Annotations are seen in the module's scope.
pub fn headed_functions<'a>(
    alloc: Global,
    found: &Outlined<'a>,
    scopes: &'a Scopes,
) -> Result<Vec<Function<'a>>, Memory>
    requires owned { length found.now.functions.items ≡ length found.now.owners }
    requires scoped { length found.now.functions.items ≡ length scopes.now.funcs }
    ensures { IfOk result (λ fs. map headed_of fs.items ≡ headed_all (meanings_by found.now.known scopes.now.top) (func_trees found.now.functions.items) found.now.owners scopes.now.funcs) }
{
    let names = names_in(alloc, &found.known, &scopes.top)?;
    let classes = no_classes(alloc);
    let scope = names_alone(&names, &classes);
    functions_of(
        alloc,
        &scope,
        found.functions.as_slice(),
        found.owners.as_slice(),
        scopes.funcs.as_slice(),
    )
}

/// A scope of these names, for what hangs on them alone.
pub fn names_alone<'a>(names: &'a IndexMap<Name, Meaning>, classes: &'a Classes) -> Context<'a>
    ensures { (context result).meaning ≡ (λ x. unwrap_or (get bytes_eq names.now x) Meaning.Unknown) }
{
    Context {
        names,
        sigs: &[],
        classes,
        members: &[],
        inside: None,
    }
}

/// No classes, for what hangs on names alone.
pub fn no_classes(alloc: Global) -> Classes
    ensures { map class_entry result.list ≡ [] }
{
    Classes {
        list: ClassList::new(alloc),
        sigs: Many::new(alloc),
    }
}
