//! Laws of scopes. The calls do nothing.
ghost use Rattle.py_binder.specs.Laws.{FirstComeFirst, NoneIsLost};

/// In a scope the names that are seen first come first, as a function's parameters.
pub fn first_come_first()
    ensures { FirstComeFirst }
{}

/// Each name that is seen stands in its scope, and no other one does.
pub fn no_name_is_lost()
    ensures { NoneIsLost }
{}
