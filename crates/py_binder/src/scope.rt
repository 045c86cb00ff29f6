//! What binding names gives: what each name is, and what is wrong.
use py_syntax_diagnostics::Diag;
use value_core::{Many, Name};

/// What a name is.
#[derive(Clone, Copy, PartialEq, Eq)]
pub enum Role {
    Param,
    Local,
    /// A variable of the module.
    GlobalVar,
    Function,
    Class,
    Import,
    Builtin,
    Unknown,
}

/// The names that are seen in a module or in a function, each once, in the order of first sight.
#[derive(Drop)]
pub struct Scope {
    pub names: Many<(Name, Role)>,
}

/// The scopes of a module's functions in the order of the text, methods at their class's place; that of the module; and
/// the faults in the order of the text.
#[derive(Drop)]
pub struct Scopes {
    pub funcs: Many<Scope>,
    pub top: Scope,
    pub faults: Many<Diag>,
}
