//! The law. The function is its clause, and does nothing when it runs.
ghost use Rattle.refcount_insert_shapes_laws.specs.Laws.{CountedIsWellFormed};

/// The C text of a program with its counts is well formed.
pub fn counted_is_well_formed()
    ensures { CountedIsWellFormed }
{}
