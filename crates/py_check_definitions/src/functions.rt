//! The functions of a module, each with its scope and its header.
ghost use Rattle.std.specs.Prelude.{◌≡◌, length, map, IfOk};
ghost use Rattle.std.specs.Option.{option_map};
ghost use Rattle.py_syntax.specs.Statements.{func_tree};
ghost use Rattle.py_typed.specs.Classes.{signature};
ghost use Rattle.py_check_context.specs.Context.{context};
ghost use Rattle.py_check_names.specs.Walked.{func_trees};
ghost use Rattle.py_check_signatures.specs.Headers as headers;
ghost use Rattle.py_check_signatures.specs.Views.{header_sorts};
ghost use Rattle.py_check_definitions.specs.Views.{headed_of, headed_all};

use py_binder::Scope;
use py_check_signatures::{Header, Owner, header_of, signature_of};
use py_syntax::Func;
use py_typed::Sig;
use std::alloc::Global;
use value_core::{Many, Memory};

/// A function with the names that are seen in it, and with whose it is and what its annotations give.
#[derive(Drop)]
pub struct Function<'a> {
    pub tree: &'a Func,
    pub inside: &'a Scope,
    pub header: Header,
}

/// Functions with their owners and their scopes, one to one; their annotations are seen in the module's scope. What is wrong with an annotation is
/// said where its definition stands.
pub fn functions_of<'a>(
    alloc: Global,
    scope: &py_check_context::Context<'_>,
    found: &[&'a Func],
    owners: &[Owner],
    insides: &'a [Scope],
) -> Result<Vec<Function<'a>>, Memory>
    requires owned { length found.now ≡ length owners.now }
    requires scoped { length found.now ≡ length insides.now }
    ensures { IfOk result (λ fs. map headed_of fs.items ≡ headed_all (context scope.now).meaning (func_trees found.now) owners.now insides.now) }
{
    let mut functions = Vec::new(alloc);
    for f in found {
        let tree = *f;
        let number = functions.len();
        let owner = owners[number];
        let inside = &insides[number];
        let header = unsaid_header(alloc, scope, owner, tree)?;
        functions.push(Function {
            tree,
            inside,
            header,
        })?;
    }
    Ok(functions)
}

fn unsaid_header(
    alloc: Global,
    scope: &py_check_context::Context<'_>,
    owner: Owner,
    f: &Func,
) -> Result<Header, Memory>
    ensures { IfOk result (λ h. header_sorts h ≡ headers.header (context scope.now).meaning owner (func_tree f.now)) }
{
    let mut unsaid = Many::new(alloc);
    header_of(alloc, scope, owner, f, &mut unsaid)
}

/// The signatures of functions, by their numbers: some have none.
pub fn signatures_of(alloc: Global, functions: &[Function<'_>]) -> Result<Vec<Option<Sig>>, Memory>
    ensures { IfOk result (λ all. map (option_map signature) all.items ≡ map (λ f. headers.signature_of f.header) (map headed_of functions.now)) }
{
    let mut signatures = Vec::new(alloc);
    for f in functions {
        signatures.push(signature_of(alloc, &f.header)?)?;
    }
    Ok(signatures)
}
