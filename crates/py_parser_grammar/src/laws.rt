//! The laws of the grammar. Each function is its clause, and does nothing when it runs.
ghost use Rattle.py_parser_grammar.specs.Laws.{OutcomeExists, OutcomeIsOne, TreeIsOne, TreesAreShallow, FaultsAreTokens, ReadingIsExact};

/// Each list of tokens with one `End`, at its end, has a tree or a fault.
pub fn outcome_exists()
    ensures { OutcomeExists }
{}

/// No list of tokens has both a tree and a fault, or two faults.
pub fn outcome_is_one()
    ensures { OutcomeIsOne }
{}

/// A list of tokens has at most one tree.
pub fn tree_is_one()
    ensures { TreeIsOne }
{}

/// No expression in a tree has a level above 100.
pub fn trees_are_shallow()
    ensures { TreesAreShallow }
{}

/// The number of a fault is that of a token.
pub fn faults_are_tokens()
    ensures { FaultsAreTokens }
{}

/// Reading by one token of look-ahead ends, and answers the tree or the fault that is defined without it.
pub fn reading_is_exact()
    ensures { ReadingIsExact }
{}
