//! A diagnostic, and the order in which a list of them is told: by line, then by column; those of one place stay as they
//! were found.
//!
//! `specs/Order.antt` has the order as a definition; `specs/Laws.antt` says what holds of every list that is put in order.
#![tactic(auto)]

ghost use Rattle.std.specs.Prelude.{◌≡◌, IfOk};
ghost use Rattle.py_syntax_diagnostics.specs.Order as spec;

mod diagnostic;
mod laws;

pub use diagnostic::Diag;
pub use laws::{ascends, keeps_all, keeps_order_of_a_place};
use value_core::{Many, Memory};

/// The diagnostics by line, then by column. Those of one place stand in the order in which they came.
pub fn by_place(faults: Many<Diag>) -> Result<Many<Diag>, Memory>
    ensures { IfOk result (λ sorted. sorted ≡ spec.by_place faults) }
{
    let mut faults = faults.into_vec();
    faults.sort_by_key(|fault| fault.span)?;
    Ok(Many::from_vec(faults))
}
