//! The law. The call does nothing.
ghost use Rattle.py_lexer_laws.specs.Laws.{TokensAreFit};

/// Each name in the tokens of a text is an identifier, each number is within its bound, and each text is UTF-8.
pub fn tokens_are_fit()
    ensures { TokensAreFit }
{}
