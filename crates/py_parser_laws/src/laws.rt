//! The law. The call does nothing.
ghost use Rattle.py_parser_laws.specs.Laws.{TreesPassAsTokens};

/// Where names, numbers and texts of all tokens pass tests, so does the tree of the tokens.
pub fn trees_pass_as_tokens_do()
    ensures { TreesPassAsTokens }
{}
