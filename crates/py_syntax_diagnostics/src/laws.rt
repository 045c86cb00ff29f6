//! Laws of the order by place. The calls do nothing.
ghost use Rattle.py_syntax_diagnostics.specs.Laws.{KeepsAll, Ascends, KeepsOrderOfAPlace};

/// No diagnostic is lost, and none is made.
pub fn keeps_all()
    ensures { KeepsAll }
{}

/// No diagnostic stands behind one of a later place.
pub fn ascends()
    ensures { Ascends }
{}

/// The diagnostics of one place stand in the order in which they came.
pub fn keeps_order_of_a_place()
    ensures { KeepsOrderOfAPlace }
{}
