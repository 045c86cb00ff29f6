//! Registers that are added.
ghost use Rattle.std.specs.Prelude.{◌≡◌, IfOk};
ghost use Rattle.error_edges.specs.Names.{IsFirstFree, IsGrown};

use ir_core::RType;
use std::alloc::Global;
use std::collections::BTreeSet;
use value_core::{Many, Memory, Name};

/// The registers, with one of this type behind them where it is needed. It has the first temporary name that is free.
pub(crate) fn grown(
    alloc: Global,
    regs: Many<(Name, RType)>,
    is_needed: bool,
    t: RType,
) -> Result<Many<(Name, RType)>, Memory>
    ensures { IfOk result (λ more. IsGrown is_needed t regs more) }
{
    if !is_needed {
        return Ok(regs);
    }
    let mut regs = regs;
    let name = free_name(alloc, regs.as_slice())?;
    regs.push((name, t))?;
    Ok(regs)
}

/// The first of `r0`, `r1` and so on that no register has.
fn free_name(alloc: Global, regs: &[(Name, RType)]) -> Result<Name, Memory>
    ensures { IfOk result (λ name. IsFirstFree regs.now name) }
{
    let mut taken = BTreeSet::new(alloc);
    for register in regs {
        taken.insert(register.0.as_str())?;
    }
    for number in 0..u64::MAX {
        let name = Name::from_string(format!(in alloc; "r{number}")?);
        if !taken.contains(name.as_str()) {
            return Ok(name);
        }
    }
    Err(Memory)
}
