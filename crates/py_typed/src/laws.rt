//! The laws of the definitions. Each function is its clause, and does nothing when it runs.
ghost use Rattle.py_typed.specs.Laws.{FitsItself, SameFits, UnderByBases, SameGoesOn, FitsGoesOn, JoinHoldsBoth, JoinIsSymmetric};

/// Each type fits itself.
pub fn fits_itself()
    ensures { FitsItself }
{}

/// What is of a type as it stands fits it.
pub fn same_fits()
    ensures { SameFits }
{}

/// A class whose bases have smaller numbers stands under another exactly where it is that one, or one of its bases stands
/// under it.
pub fn under_by_bases()
    ensures { UnderByBases }
{}

/// In a tree of classes: what is of a type as it stands is also of what that type is of.
pub fn same_goes_on()
    ensures { SameGoesOn }
{}

/// In a tree of classes: what fits a type fits also what that type fits.
pub fn fits_goes_on()
    ensures { FitsGoesOn }
{}

/// Both types fit their join.
pub fn join_holds_both()
    ensures { JoinHoldsBoth }
{}

/// In a tree of classes a join does not hang on the order of its parts.
pub fn join_is_symmetric()
    ensures { JoinIsSymmetric }
{}
