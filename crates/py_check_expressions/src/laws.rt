//! Laws of typing. The calls do nothing.
ghost use Rattle.py_check_expressions.specs.Laws.{TypedIsQuiet};

/// What is typed has said nothing: no diagnostic stands in an expression that has a type.
pub fn what_is_typed_has_said_nothing()
    ensures { TypedIsQuiet }
{}
