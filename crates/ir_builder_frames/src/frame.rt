//! The registers that stand for a function's variables.
ghost use Rattle.std.specs.Prelude.{◌≡◌, ◌≤◌, ◌<◌, ◌^◌};
ghost use Rattle.ir_builder_frames.specs.Matching.{flag_of};

use ir_core::Reg;

/// The variables of a function. The first `params` of them are its parameters, there are `count`, and each has the register
/// of its number. Behind them each variable that is no parameter has a flag besides, in the registers from `count` on, which
/// holds the error value until the variable is set. `top` is the first register that is none of these.
#[derive(Clone, Copy, Debug)]
pub struct Vars {
    pub params: usize,
    pub count: usize,
    pub top: usize,
}

impl Vars {
    /// The register of the flag of a variable that is no parameter.
    pub fn flag(self, variable: usize) -> Reg
        requires other { self.params ≤ variable }
        requires few { flag_of self variable < 2 ^ 64 }
        ensures { result.0 ≡ flag_of self variable }
    {
        Reg(self.count + (variable - self.params))
    }
}

/// What a statement or an expression stands in: the variables, and the register for a returned value where a statement
/// around waits for it.
#[derive(Clone, Copy, Debug)]
pub struct Frame {
    pub locals: Vars,
    pub ret: Option<Reg>,
}
