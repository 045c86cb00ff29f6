//! The faults of names, which binding finds.
ghost use Rattle.std.specs.Prelude.{◌≡◌, ◌++◌, IfOk};

use py_syntax_diagnostics::Diag;
use value_core::{Many, Memory};

/// Adds what binding found.
pub(crate) fn add_found(found: &[Diag], faults: &mut Many<Diag>) -> Result<(), Memory>
    ensures { IfOk result (λ done. faults.new ≡ faults.old ++ found.now) }
{
    for d in found {
        faults.push(copy_of(d)?)?;
    }
    Ok(())
}

fn copy_of(d: &Diag) -> Result<Diag, Memory>
    ensures { IfOk result (λ copy. copy ≡ d.now) }
{
    Ok(Diag {
        span: d.span,
        text: d.text.clone()?,
        code: d.code.clone()?,
    })
}
