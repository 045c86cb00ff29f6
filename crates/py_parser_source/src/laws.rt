//! Laws of what is wrong with a file. Each function is its clause, and does nothing when it runs.
ghost use Rattle.py_parser_source.specs.Laws.{FaultsAreOne, ModuleIsOne, TreeIsTold};

/// Whatever is told of a tree, each file has exactly one list of faults.
#[tactic(auto, using(crate::proofs::ListLemmas::faults_are_one))]
pub fn faults_are_one()
    ensures { FaultsAreOne }
{}

/// A file is no two modules.
pub fn module_is_one()
    ensures { ModuleIsOne }
{}

/// The faults of a file that is a module are what is told of its tree.
#[tactic(auto, using(crate::proofs::ListLemmas::tree_is_told))]
pub fn tree_is_told()
    ensures { TreeIsTold }
{}
