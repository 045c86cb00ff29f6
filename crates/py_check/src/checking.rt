//! The typing of a whole module.
ghost use Rattle.py_syntax.specs.Statements.{module_tree};
ghost use Rattle.py_syntax_diagnostics.specs.Order as order;
ghost use Rattle.py_typed.specs.Statements as tree;
ghost use Rattle.py_check.specs.Outcome.{IsBound, Outcome, Decided};

use crate::modules::typing_of;
use py_binder::Scopes;
use py_syntax::Module;
use py_syntax_diagnostics::{Diag, by_place};
use py_typed::Checked;
use std::alloc::Global;
use value_core::{Many, Memory};

/// Why a module has no typed tree.
#[derive(Drop)]
pub enum CheckError {
    /// What is wrong with it, by place.
    Diags(Many<Diag>),
    Memory,
}

impl From<Memory> for CheckError {
    ghost use Rattle.std.specs.Prelude.{◌≡◌};
    ghost use Rattle.py_check.specs.declared.checking.CheckError.TheVariants as reason;

    ghost from_gives = { λ _ e. e ≡ reason.Memory };

    fn from(_: Memory) -> CheckError {
        CheckError::Memory
    }
}

/// The typed tree of a module, where these are its scopes as binding gives them; or all that is wrong with it, by place.
///
/// # Errors
///
/// What is wrong with the module, or want of memory.
pub fn check(alloc: Global, m: &Module, scopes: &Scopes) -> Result<Checked, CheckError>
    requires { IsBound (module_tree m.now) scopes.now }
    ensures { Outcome (module_tree m.now) result }
{
    let typing = typing_of(alloc, m.body.as_slice(), scopes)?;
    by_faults(typing.checked, typing.faults)
}

/// A typed tree, or what is wrong, by place.
fn by_faults(typed: Checked, faults: Many<Diag>) -> Result<Checked, CheckError>
    ensures { Decided (order.by_place faults) (tree.typed_module typed) result }
{
    let faults = by_place(faults)?;
    decided(typed, faults)
}

/// A typed tree, where nothing is wrong.
fn decided(typed: Checked, faults: Many<Diag>) -> Result<Checked, CheckError>
    ensures { Decided faults (tree.typed_module typed) result }
{
    if faults.is_empty() {
        return Ok(typed);
    }
    Err(CheckError::Diags(faults))
}
