//! What names mean, and what functions take and give.
ghost use Rattle.std.specs.Prelude.{◌≡◌, slice_get};
ghost use Rattle.std.specs.Option.{option_copied, option_map};
ghost use Rattle.py_typed.specs.Classes.{signature};
ghost use Rattle.py_check_context.specs.Context as spec;

use crate::members::{ClassMembers, Inside};
use indexmap::IndexMap;
use py_typed::{Classes, Sig};
use value_core::{ExcClass, Name};

/// What a name means in a scope.
#[derive(Clone, Copy, PartialEq, Eq)]
pub enum Meaning {
    /// A variable of the function, by its number.
    Local(usize),
    /// A variable of the module, by its number.
    Global(usize),
    /// A function, by its number.
    Function(usize),
    /// A class, by its number.
    Class(usize),
    /// A class that is refused: it has no type.
    UntypedClass,
    /// An exception class.
    Exception(ExcClass),
    Import(Imported),
    Builtin(Builtin),
    /// `__name__`.
    ModuleName,
    /// A name without a type, of which nothing is said: one of a refused import.
    Untyped,
    Unknown,
}

/// What may be imported (`typing`, `mypy_extensions` and `__future__`).
#[derive(Clone, Copy, PartialEq, Eq)]
pub enum Imported {
    Optional,
    List,
    Dict,
    Tuple,
    I64,
    Trait,
    Annotations,
}

/// The builtin functions and types (Python Library Reference, "Built-in Functions").
#[derive(Clone, Copy, PartialEq, Eq)]
pub enum Builtin {
    Print,
    Input,
    Len,
    Range,
    Str,
    Int,
    Bool,
    List,
    Dict,
    Tuple,
    Super,
}

/// The names of a function or of the module, the signatures of all functions by their numbers, where they have one, the classes
/// and their members by their numbers, and the method that the place stands in, if it stands in one.
#[derive(Drop)]
pub struct Context<'a> {
    pub names: &'a IndexMap<Name, Meaning>,
    pub sigs: &'a [Option<Sig>],
    pub classes: &'a Classes,
    pub members: &'a [ClassMembers],
    pub inside: Option<Inside<'a>>,
}

/// What a name means.
pub fn meaning_of(scope: &Context<'_>, x: &Name) -> Meaning
    ensures { result ≡ (spec.context scope.now).meaning x.now }
{
    match scope.names.get(x) {
        Some(meaning) => *meaning,
        None => Meaning::Unknown,
    }
}

/// The signature of the function of a number, if it has one.
pub fn signature_at<'a>(scope: &Context<'a>, i: usize) -> Option<&'a Sig>
    ensures { option_map signature (option_copied result) ≡ spec.some_signature (slice_get (spec.context scope.now).signatures i) }
{
    match scope.sigs.get(i) {
        Some(Some(sig)) => Some(sig),
        _ => None,
    }
}
