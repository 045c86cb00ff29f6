//! The laws of building, of runs, and of the C text of a program. Each function is its clause, and does nothing when it runs.
ghost use Rattle.ir_core.specs.Bare.{BareIsSame};
ghost use Rattle.ir_core.specs.Laws.{CallsExtend, BuiltIsHeld, StepsCompose, EndedIsCalm, UnstuckIsPlain, FitIsCalm, EndsAreOne, LeftGoesOn, LeftEnds, LowerIsLowered};

/// The builder's calls leave what stands as it is.
pub fn calls_extend()
    ensures { CallsExtend }
{}

/// What the builder holds stands in the function that is made of it.
pub fn built_is_held()
    ensures { BuiltIsHeld }
{}

/// A run of so many steps and then so many more is one run.
pub fn steps_compose()
    ensures { StepsCompose }
{}

/// A run that ends is never stuck; one of the strict machine is calm.
pub fn ended_is_calm()
    ensures { EndedIsCalm }
{}

/// A run that is not stuck is the plain run.
pub fn unstuck_is_plain()
    ensures { UnstuckIsPlain }
{}

/// A program that is fit is calm.
pub fn fit_is_calm()
    ensures { FitIsCalm }
{}

/// A program comes to one end.
pub fn ends_are_one()
    ensures { EndsAreOne }
{}

/// What is left of a block begins with the item at that place.
pub fn left_goes_on()
    ensures { LeftGoesOn }
{}

/// Where no operation is left, the block's end comes next.
pub fn left_ends()
    ensures { LeftEnds }
{}

/// The C text of a program is the program laid out in lines.
pub fn lower_is_lowered()
    ensures { LowerIsLowered }
{}

/// A program whose failures go over edges does the same without its handlers.
pub fn bare_is_same()
    ensures { BareIsSame }
{}
