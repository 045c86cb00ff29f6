//! The keywords and the signs of Python.
use crate::case::check;
use py_syntax::{Key, Sign};

/// `keyword.kwlist` of Python 3.
const KEYWORDS: [&str; 35] = [
    "False", "None", "True", "and", "as", "assert", "async", "await", "break", "class", "continue",
    "def", "del", "elif", "else", "except", "finally", "for", "from", "global", "if", "import",
    "in", "is", "lambda", "nonlocal", "not", "or", "pass", "raise", "return", "try", "while",
    "with", "yield",
];

/// The operators and delimiters, as the Python Language Reference lists them.
const SIGNS: [&str; 46] = [
    "+", "-", "*", "**", "/", "//", "%", "@", "<<", ">>", "&", "|", "^", "~", ":=", "<", ">", "<=",
    ">=", "==", "!=", "(", ")", "[", "]", "{", "}", ",", ":", ".", ";", "=", "->", "+=", "-=",
    "*=", "/=", "//=", "%=", "@=", "&=", "|=", "^=", ">>=", "<<=", "**=",
];

#[test]
fn texts_are_pythons(rt: HostRuntime) {
    for (key, text) in Key::ALL.iter().zip(KEYWORDS.iter()) {
        check(&rt, text, key.text() == *text);
    }
    for (sign, text) in Sign::ALL.iter().zip(SIGNS.iter()) {
        check(&rt, text, sign.text() == *text);
    }
}
