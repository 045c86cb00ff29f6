//! What is told of a module that is wrong.
use py_syntax::Span;
use value_core::Text;

/// A fault, with its place, its text and the code of its rule.
#[derive(Drop)]
pub struct Diag {
    pub span: Span,
    pub text: Text,
    pub code: Text,
}
