//! How many references a frame owns through a register.
ghost use Rattle.std.specs.Prelude.{◌≡◌, ◌≤◌, IfOk};
ghost use Rattle.ir_core.specs.Bare.{bare};
ghost use Rattle.refcount_insert_rule.specs.Rule as rule;
ghost use Rattle.refcount_insert_rule.specs.Counted.{counts_register};
ghost use Rattle.refcount_insert_counts.specs.Known.{IsKnown, owned_at, held_at, entered};

use ir_core::{Func, RType, Reg};
use liveness::{BorrowTable, LiveTable, borrowed_bare, live_bare};
use std::alloc::Global;
use value_core::{Memory, Name};

/// What is known of the registers of a function at each place.
#[derive(Drop)]
pub struct KnownRegisters {
    pub live: LiveTable,
    pub lent: BorrowTable,
}

/// What is known of a function in which each operation that fails has its edge: its handlers are passed over.
pub fn known_of(alloc: Global, f: &Func) -> Result<KnownRegisters, Memory>
    ensures { IfOk result (λ known. IsKnown (bare f.now) known) }
{
    let live = live_bare(alloc, f)?;
    let lent = borrowed_bare(alloc, f)?;
    Ok(KnownRegisters { live, lent })
}

fn is_counted(t: RType) -> bool
    ensures { result ≡ rule.is_counted t }
{
    match t {
        RType::Int | RType::Ref => true,
        RType::I64 | RType::Bool => false,
    }
}

/// Whether a register is counted.
pub(crate) fn counts(regs: &[(Name, RType)], r: usize) -> bool
    ensures { result ≡ counts_register regs.now r }
{
    match regs.get(r) {
        Some((_, t)) => is_counted(*t),
        None => false,
    }
}

impl KnownRegisters {
    /// How many references a frame owns through a register at a place of a block.
    pub(crate) fn owned(&self, regs: &[(Name, RType)], b: usize, p: usize, r: usize) -> usize
        ensures value { result ≡ owned_at self.now regs.now b p r }
        ensures few { result ≤ 1 }
    {
        usize::from(
            counts(regs, r)
                && self.live.is_live(b, p, Reg(r))
                && !self.lent.is_borrowed(b, p, Reg(r)),
        )
    }

    /// The same of a register that is read again there.
    pub(crate) fn held(&self, regs: &[(Name, RType)], b: usize, p: usize, r: usize) -> usize
        ensures value { result ≡ held_at self.now regs.now b p r }
        ensures few { result ≤ 1 }
    {
        usize::from(counts(regs, r) && !self.lent.is_borrowed(b, p, Reg(r)))
    }

    /// The same at the start of a block.
    pub(crate) fn entered(&self, regs: &[(Name, RType)], b: usize, r: usize) -> usize
        ensures value { result ≡ entered self.now regs.now b r }
        ensures few { result ≤ 1 }
    {
        usize::from(
            counts(regs, r)
                && self.live.is_live_at_start(b, Reg(r))
                && !self.lent.is_borrowed(b, 0, Reg(r)),
        )
    }
}
