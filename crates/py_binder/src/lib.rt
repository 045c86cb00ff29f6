//! What each name of a module is, and the two faults that hang on no type: a name that is not known, and a `global`
//! statement that lists what it may not.
//!
//! What comes in is a module's tree; what goes out are its scope, those of its functions, and the faults.
//! `specs/Sights.antt` lists what is seen of names, place by place, `specs/Scope.antt` says by that list what each name is,
//! and `specs/Faults.antt` what is wrong. The code collects the same list once, fills tables from it, and goes over it.
//! `specs/Laws.antt` says what holds of the names of every scope, and `laws` proves it.
#![tactic(auto)]

ghost use Rattle.std.specs.Prelude.{◌≡◌, map, IfOk};
ghost use Rattle.py_syntax.specs.Statements.{module_tree};
ghost use Rattle.py_binder.specs.Scope.{module_scope, module_role, function_scope, functions};
ghost use Rattle.py_binder.specs.Faults.{faults};

mod bodies;
mod definitions;
mod faults;
mod imports;
mod inside;
mod laws;
mod names;
mod reads;
mod scope;
mod sight;
mod statements;
mod table;
mod target;

use crate::bodies::add_all_functions;
use crate::inside::{in_module, scope_of};
use crate::names::add_seen;
use crate::sight::Home;
use crate::statements::see_all;
use crate::table::table_of;
use indexmap::IndexSet;
pub use laws::{first_come_first, no_name_is_lost};
use py_syntax::Module;
pub use py_syntax_diagnostics::Diag;
pub use scope::{Role, Scope, Scopes};
use std::alloc::Global;
use value_core::{Many, Memory};

/// What each name is in a module and in its functions (Python Language Reference, "Naming and binding"), and what is wrong
/// with names alone.
pub fn bind(alloc: Global, m: &Module) -> Result<Scopes, Memory>
    ensures top { IfOk result (λ s. s.top ≡ module_scope (module_tree m.now)) }
    ensures funcs { IfOk result (λ s. s.funcs ≡ map (function_scope (module_role (module_tree m.now))) (functions (module_tree m.now))) }
    ensures faults { IfOk result (λ s. s.faults ≡ faults (module_tree m.now)) }
{
    let mut sights = Vec::new(alloc);
    see_all(alloc, &mut sights, Home::InModule, m.body.as_slice())?;
    let table = table_of(alloc, sights.as_slice())?;
    let inside = in_module(alloc, &table);
    let mut seen = Vec::new(alloc);
    add_seen(&mut seen, sights.as_slice())?;
    let top = scope_of(alloc, &inside, seen.as_slice())?;
    let mut funcs = Many::new(alloc);
    let mut faults = Many::new(alloc);
    let none = IndexSet::new(alloc);
    add_all_functions(
        alloc,
        &inside,
        &none,
        sights.as_slice(),
        &mut funcs,
        &mut faults,
    )?;
    Ok(Scopes { funcs, top, faults })
}
