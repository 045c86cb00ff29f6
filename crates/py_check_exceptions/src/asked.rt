//! Names where an exception class is asked for.
ghost use Rattle.std.specs.Prelude.{◌≡◌};
ghost use Rattle.py_check_exceptions.specs.Raises as rule_of;

use py_check_context::Meaning;
use value_core::ExcClass;

/// What a name is where an exception class is asked for.
#[derive(Clone, Copy, PartialEq, Eq)]
pub enum Asked {
    Class(ExcClass),
    Variable,
    /// Nothing is said of it.
    Voiceless,
    /// It is known, and neither a class of exceptions nor a variable.
    Other,
}

/// What a name of this meaning is there.
pub fn asked_as(meaning: Meaning) -> Asked
    ensures { result ≡ rule_of.asked meaning }
{
    match meaning {
        Meaning::Exception(class) => Asked::Class(class),
        Meaning::Local(_) | Meaning::Global(_) => Asked::Variable,
        Meaning::Unknown | Meaning::Untyped | Meaning::UntypedClass => Asked::Voiceless,
        Meaning::Function(_)
        | Meaning::Class(_)
        | Meaning::Import(_)
        | Meaning::Builtin(_)
        | Meaning::ModuleName => Asked::Other,
    }
}
