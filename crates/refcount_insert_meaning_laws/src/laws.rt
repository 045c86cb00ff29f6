//! The laws. Each function is its clause, and does nothing when it runs.
ghost use Rattle.refcount_insert_meaning_laws.specs.Laws.{CountedFits, CountedMeansSame, UncountedIsSame};

/// A program with its counts comes to the same ends as the program that has none yet.
pub fn counted_means_same()
    ensures { CountedMeansSame }
{}

/// And where that fits it fits too.
pub fn counted_fits()
    ensures { CountedFits }
{}

/// A program that has its shape has no counts: without them it is the same program.
pub fn uncounted_is_same()
    ensures { UncountedIsSame }
{}
