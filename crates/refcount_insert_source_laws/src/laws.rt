//! The law. The function is its clause, and does nothing when it runs.
ghost use Rattle.refcount_insert_source_laws.specs.Laws.{OrderedFollows};

/// A code that keeps its references in order follows the program that its runs do without tests of ownership.
pub fn ordered_follows()
    ensures { OrderedFollows }
{}
