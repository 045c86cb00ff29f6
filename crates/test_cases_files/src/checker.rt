//! What checks cases: the compiler that they are for, and what is said of them.
ghost use Rattle.std.specs.Prelude.{◌≡◌};

use crate::command::Compiler;
use crate::report::Report;
use std::alloc::Global;

/// Checks cases over a compiler, and keeps what is to be said of them.
#[derive(Drop)]
pub struct Checker<C: Compiler> {
    pub(crate) alloc: Global,
    pub(crate) compiler: C,
    pub report: Report,
}

impl<C: Compiler> Checker<C> {
    /// Nothing is checked yet.
    pub fn new(alloc: Global, compiler: C) -> Checker<C>
        ensures passed { result.report.passed ≡ 0 }
        ensures failed { result.report.failed ≡ 0 }
    {
        Checker {
            alloc,
            compiler,
            report: Report::new(alloc),
        }
    }
}
