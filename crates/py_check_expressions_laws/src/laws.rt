//! The laws. The calls do nothing.
ghost use Rattle.py_check_expressions_laws.specs.Bare.{TypedTellsNoMore};
ghost use Rattle.py_check_expressions_laws.specs.Laws.{OwnOrOfParts, UntypedIsLoud};
ghost use Rattle.py_check_expressions_laws.specs.WellTyped.{TypedTellsAsMuch, TypedIsWellTyped};

/// Where no name in reach and no member of a class is without a type, and each name that is read is known, an expression that has none
/// has said why: some diagnostic stands in it.
pub fn what_is_not_typed_has_said_why()
    ensures { UntypedIsLoud }
{}

/// All that is said of an expression, wherever it stands, is the same messages at its own place, or else what is said of its parts: of
/// both only of a chain of comparisons, whose own entries stand in front.
pub fn an_expression_has_an_entry_or_its_parts_have()
    ensures { OwnOrOfParts }
{}

/// What a test tells of names as it is written, its typed form tells.
pub fn typed_tests_tell_as_much()
    ensures { TypedTellsAsMuch }
{}

/// The typed form of a test tells nothing of names that the test as it is written does not, where no sign `+` and no call stands in it
/// where a test tells something.
pub fn bare_tests_tell_no_more()
    ensures { TypedTellsNoMore }
{}

/// What is typed is well typed, where its place takes it.
pub fn what_is_typed_is_well_typed()
    ensures { TypedIsWellTyped }
{}
