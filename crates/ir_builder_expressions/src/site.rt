//! What an expression or a statement is built for.
use ir_builder_frames::Frame;
use py_typed::{Checked, Var};
use std::alloc::Global;

/// The module, the variables of the function, the registers that stand for them, and the source line of the expression or the
/// statement, which its own operations have.
#[derive(Clone, Copy)]
pub struct Site<'a> {
    pub alloc: Global,
    pub checked: &'a Checked,
    pub locals: &'a [Var],
    pub frame: Frame,
    pub line: usize,
}
