//! Laws of what is wrong with a file, and of what it is. Each function is its clause, and does nothing when it runs.
ghost use Rattle.mypyc_top_compiler.specs.FaultLaws.{FaultsAreOne, TypedModulesAreOne};

/// Each file has exactly one list of faults in a mode.
pub fn faults_are_one()
    ensures { FaultsAreOne }
{}

/// The typed module of a file is the only one.
pub fn typed_modules_are_one()
    ensures { TypedModulesAreOne }
{}
