//! What all scopes of a module share, and the contexts in it.
ghost use Rattle.std.specs.Prelude.{◌≡◌, ℕ, List, map, None};
ghost use Rattle.std.specs.Option.{option_map, option_and_then};
ghost use Rattle.std.specs.Str.{bytes_eq};
ghost use Rattle.indexmap.specs.IndexMap.{get};
ghost use Rattle.py_syntax.specs.Statements.{param_tree};
ghost use Rattle.py_check_context.specs.Context.{context};
ghost use Rattle.py_check_context.specs.Members as members;
ghost use Rattle.py_check.specs.Module as spec;
ghost use Rattle.py_check.specs.Parts as views;

use indexmap::IndexMap;
use py_check_context::{ClassMembers, Context, Meaning, init_behind};
use py_check_definitions::ClassTables;
use py_check_names::ModuleNames;
use py_syntax::{Expr, Span};
use py_typed::{Classes, Sig};
use value_core::Name;

/// What is known of names in a module, the signatures of its functions by their numbers, where they have one; and its classes by
/// their numbers, with their members, with the places of the statements in `__init__` that declare an attribute by an annotation, and
/// with what is said of them as a whole.
#[derive(Drop)]
pub(crate) struct ModuleContext<'a> {
    pub known: &'a ModuleNames,
    pub signatures: &'a [Option<Sig>],
    pub classes: &'a Classes,
    pub members: &'a [ClassMembers],
    pub declaring: &'a [IndexMap<Name, Span>],
    /// No places, for a class without a type.
    pub nothing: &'a IndexMap<Name, Span>,
    pub tables: ClassTables<'a>,
}

/// The context of a module's own statements, where names mean this.
pub(crate) fn module_scope<'a>(
    names: &'a IndexMap<Name, Meaning>,
    sigs: &'a [Option<Sig>],
    classes: &'a Classes,
    members: &'a [ClassMembers],
) -> Context<'a>
    ensures { context result ≡ views.context_of names.now sigs.now classes.now members.now }
{
    Context {
        names,
        sigs,
        classes,
        members,
        inside: None,
    }
}

/// The name of the first parameter, if there is one.
pub(crate) fn first_name(params: &[(Name, Option<Expr>)]) -> Option<&Name>
    ensures { option_map (λ x. x.now) result ≡ spec.first_name (map param_tree params.now) }
{
    match params {
        [] => None,
        [(name, _), ..] => Some(name),
    }
}

/// The places for the class of a number, if it has a type: else there are none.
pub(crate) fn declaring_of<'a>(
    module_context: &ModuleContext<'a>,
    class: Option<usize>,
) -> &'a IndexMap<Name, Span>
    requires { (name : List ℕ) → get bytes_eq module_context.now.nothing.now name ≡ None }
    ensures { (name : List ℕ) → get bytes_eq result.now name ≡ spec.declaring_in (views.module_context_of module_context.now).members class name }
{
    match class {
        None => module_context.nothing,
        Some(n) => match module_context.declaring.get(n) {
            None => module_context.nothing,
            Some(places) => places,
        },
    }
}

/// The next `__init__` behind the class of a number, if it has a type.
pub(crate) fn next_init_of(classes: &[ClassMembers], class: Option<usize>) -> Option<usize>
    ensures { result ≡ option_and_then (members.init_behind classes.now) class }
{
    match class {
        None => None,
        Some(n) => init_behind(classes, n),
    }
}
