//! The laws. Each function is its clause, and does nothing when it runs.
ghost use Rattle.refcount_insert_lines_laws.specs.Lines.{CallsDo, CountsDo, EndsDo, IfErrorsDo, IfsDo, MethodsDo, OpsDo, ReturnsDo};

/// An operation that stays in its function.
pub fn ops_do()
    ensures { OpsDo }
{}

/// A call of a function.
pub fn calls_do()
    ensures { CallsDo }
{}

/// A call of a method.
pub fn methods_do()
    ensures { MethodsDo }
{}

/// A return to a caller.
pub fn returns_do()
    ensures { ReturnsDo }
{}

/// The end of the module.
pub fn ends_do()
    ensures { EndsDo }
{}

/// A test of a truth.
pub fn ifs_do()
    ensures { IfsDo }
{}

/// A test for an error value.
pub fn if_errors_do()
    ensures { IfErrorsDo }
{}

/// A count.
pub fn counts_do()
    ensures { CountsDo }
{}
