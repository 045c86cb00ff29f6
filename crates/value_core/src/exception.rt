ghost use Rattle.std.specs.Prelude.{◌≡◌, find};
ghost use Rattle.value_core.specs.Exceptions.{class_above, class_name, is_under, is_called, class_named};

/// The exception classes of the language (Python Library Reference, "Exception hierarchy").
#[derive(Clone, Copy, Debug, PartialEq, Eq)]
pub enum ExcClass {
    Exception,
    ArithmeticError,
    ZeroDivisionError,
    OverflowError,
    LookupError,
    IndexError,
    KeyError,
    NameError,
    UnboundLocalError,
    ValueError,
    TypeError,
    AttributeError,
    AssertionError,
    RuntimeError,
    EOFError,
}

use ExcClass::*;

impl ExcClass {
    /// All classes, in the order of their declaration.
    pub const ALL: [ExcClass; 15] = [
        Exception,
        ArithmeticError,
        ZeroDivisionError,
        OverflowError,
        LookupError,
        IndexError,
        KeyError,
        NameError,
        UnboundLocalError,
        ValueError,
        TypeError,
        AttributeError,
        AssertionError,
        RuntimeError,
        EOFError,
    ];

    /// The class directly above this one; `Exception` has none.
    pub fn parent(self) -> Option<ExcClass>
        ensures { result ≡ class_above self }
    {
        match self {
            Exception => None,
            ZeroDivisionError | OverflowError => Some(ArithmeticError),
            IndexError | KeyError => Some(LookupError),
            UnboundLocalError => Some(NameError),
            _ => Some(Exception),
        }
    }

    /// The class's name, as source texts write it.
    pub fn name(self) -> &'static str
        ensures { result.now ≡ class_name self }
    {
        match self {
            Exception => "Exception",
            ArithmeticError => "ArithmeticError",
            ZeroDivisionError => "ZeroDivisionError",
            OverflowError => "OverflowError",
            LookupError => "LookupError",
            IndexError => "IndexError",
            KeyError => "KeyError",
            NameError => "NameError",
            UnboundLocalError => "UnboundLocalError",
            ValueError => "ValueError",
            TypeError => "TypeError",
            AttributeError => "AttributeError",
            AssertionError => "AssertionError",
            RuntimeError => "RuntimeError",
            EOFError => "EOFError",
        }
    }

    /// The class of a name; none for any other text.
    pub fn named(name: &str) -> Option<ExcClass>
        ensures { result ≡ class_named name.now }
    {
        class_among(&ExcClass::ALL, name)
    }
}

fn class_among(classes: &[ExcClass], name: &str) -> Option<ExcClass>
    ensures { result ≡ find (is_called name.now) classes.now }
{
    classes.iter().copied().find(|class| class.name() == name)
}

/// Whether `a` is `b` or stands below it, as an `except b` clause asks of an exception of class `a`.
pub fn is_under(a: ExcClass, b: ExcClass) -> bool
    ensures { result ≡ is_under a b }
{
    match b {
        Exception => true,
        ArithmeticError => matches!(a, ArithmeticError | ZeroDivisionError | OverflowError),
        LookupError => matches!(a, LookupError | IndexError | KeyError),
        NameError => matches!(a, NameError | UnboundLocalError),
        _ => a == b,
    }
}
