//! The laws. The calls do nothing.
ghost use Rattle.py_check_laws.specs.Entries.{StatementOwnOrOfParts};
ghost use Rattle.py_check_laws.specs.Modules.{QuietModuleHasLayout, QuietModuleIsTyped, QuietModuleIsWellTyped, QuietModuleNamesDiffer, QuietModuleStands, QuietModuleTypesVariables};
ghost use Rattle.py_check_laws.specs.Narrowing.{ForBodyKnowsNoMore, TestKnowsNoMore, TypedBlockKnowsNoMore, WhileBodyKnowsNoMore};
ghost use Rattle.py_check_laws.specs.Statements.{QuietBlockIsTyped, TypedBlockIsWellTyped};
ghost use Rattle.py_check_laws.specs.Variables.{AnnotationsGiveTypes, BindingsGiveTypes, BodiesFixNothing, FirstAssignmentsGiveTypes, ModuleFixesTypes, OnlyBindingsGiveTypes, TypesStay};

/// Where no name in reach and no member of a class is without a type, and each name in a block is known, a block of which nothing is
/// said is typed whole, and no name is without a type behind it.
pub fn what_is_not_typed_in_a_block_has_said_why()
    ensures { QuietBlockIsTyped }
{}

/// What is typed in a block is well typed, and what typing knows behind it is known there.
pub fn what_is_typed_in_a_block_is_well_typed()
    ensures { TypedBlockIsWellTyped }
{}

/// Behind statements that are typed, with bare tests and no annotation without a value of a function's own variable, their typed form
/// knows no more than typing does.
pub fn what_is_typed_in_a_block_knows_no_more()
    ensures { TypedBlockKnowsNoMore }
{}

/// Nor does a bare test that is typed, whichever way it comes out.
pub fn a_typed_test_knows_no_more()
    ensures { TestKnowsNoMore }
{}

/// Nor does it where the body of such a `while` begins.
pub fn the_body_of_a_while_knows_no_more()
    ensures { WhileBodyKnowsNoMore }
{}

/// Nor where the body of such a `for` begins.
pub fn the_body_of_a_for_knows_no_more()
    ensures { ForBodyKnowsNoMore }
{}

/// All that is said of a statement, wherever it stands, is the same messages at its own place, or else what is said of its parts: of
/// both only of a `for`, whose own entry stands in front of those of its body.
pub fn a_statement_has_an_entry_or_its_parts_have()
    ensures { StatementOwnOrOfParts }
{}

/// Behind any statements a variable that had a type, or had none for good, is as it was.
pub fn variables_keep_their_types()
    ensures { TypesStay }
{}

/// Statements that do not bind a name leave its variable as it is: with a variable that keeps what it has, its type is what its
/// first binding in the text gives.
pub fn only_bindings_give_types()
    ensures { OnlyBindingsGiveTypes }
{}

/// Behind statements that bind the name of a variable it has a type, or has none for good.
pub fn bindings_give_types()
    ensures { BindingsGiveTypes }
{}

/// A variable without a type that statements do not bind, and to whose name a value is assigned behind them, has the type of that
/// value whatever comes then, or has none for good.
pub fn first_assignments_give_types()
    ensures { FirstAssignmentsGiveTypes }
{}

/// Behind the own statements of a module each of its variables has a type, or has none for good.
pub fn statements_of_a_module_fix_types()
    ensures { ModuleFixesTypes }
{}

/// The body of a function changes the type of no variable of its module.
pub fn bodies_fix_no_types()
    ensures { BodiesFixNothing }
{}

/// A variable of a module whose first binding is annotated has the type of that annotation.
pub fn annotations_give_types()
    ensures { AnnotationsGiveTypes }
{}

/// A module of which nothing is said is typed whole: no part of its typed tree stands for what has no typed form.
pub fn what_is_not_typed_in_a_module_has_said_why()
    ensures { QuietModuleIsTyped }
{}

/// In a module of which nothing is said each variable has a type, of the module and of its functions.
pub fn variables_of_a_quiet_module_have_types()
    ensures { QuietModuleTypesVariables }
{}

/// In a module of which nothing is said the module's own statements and the bodies of its functions are well typed.
pub fn statements_of_a_quiet_module_are_well_typed()
    ensures { QuietModuleStands }
{}

/// In a module of which nothing is said the names of its variables, its classes and its functions, but for methods, differ.
pub fn names_of_a_quiet_module_differ()
    ensures { QuietModuleNamesDiffer }
{}

/// The typed tree of a module of which nothing is said is a well typed module.
pub fn a_quiet_module_is_well_typed()
    ensures { QuietModuleIsWellTyped }
{}

/// The classes of a module of which nothing is said have a layout: `layout` of `class_layout` fails for want of memory alone.
pub fn classes_of_a_quiet_module_have_a_layout()
    ensures { QuietModuleHasLayout }
{}
