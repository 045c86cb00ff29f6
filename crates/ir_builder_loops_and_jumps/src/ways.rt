//! The ways out of a statement, and the blocks that are left by them.

use ir_core::Reg;

/// How a statement is left other than at its end or by an exception.
#[derive(Clone, Copy, PartialEq, Eq)]
pub enum Way {
    /// To behind the loop.
    Break,
    /// To the step of the loop, and behind it to its turn.
    Continue,
    /// Out of the function.
    Return,
    /// From the end of a branch to behind its `if`.
    Join,
}

/// A block that was ended and whose end is still to be written, as a jump to the place of its way.
#[derive(Clone, Copy)]
pub struct Exit {
    pub way: Way,
    pub block: usize,
}

/// The blocks to which the ways go, where they are known.
#[derive(Clone, Copy)]
pub struct ExitPlan {
    pub breaks: Option<usize>,
    pub continues: Option<usize>,
    pub returns: Option<usize>,
    pub joins: Option<usize>,
}

/// A test before a body: its register, the block that ends with it, whose jumps are still to be written, and the block that the
/// body begins with.
#[derive(Clone, Copy)]
pub struct Test {
    pub condition: Reg,
    pub block: usize,
    pub start: usize,
}

/// A loop that was begun, whose body comes next: the block that its test begins with, and the test.
#[derive(Clone, Copy)]
pub struct LoopStart {
    pub head: usize,
    pub test: Test,
}
