//! The laws. The calls do nothing.
ghost use Rattle.py_check_names_laws.specs.Laws.{FunctionsPassAsTrees, VariablesPassAsTrees};

/// Where the names of a module's tree pass a test, so do its variables.
pub fn variables_pass_as_trees_do()
    ensures { VariablesPassAsTrees }
{}

/// Where a module's tree passes tests, so do its functions, and the names of their own.
pub fn functions_pass_as_trees_do()
    ensures { FunctionsPassAsTrees }
{}
