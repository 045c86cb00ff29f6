//! The laws. Each function is its clause, and does nothing when it runs.
ghost use Rattle.refcount_insert_order_laws.specs.Laws.{CallersAreOwned, CountedIsInOrder, CountedIsPlaced, LedgersAreOwned, LentAreHeld, UnmetAreNeverEntered};

/// The C text of a program with its counts is in order.
pub fn counted_is_in_order()
    ensures { CountedIsInOrder }
{}

/// Its places have shares, which at the first line of each group are those of the old block and place.
pub fn counted_is_placed()
    ensures { CountedIsPlaced }
{}

/// In each run the frame owns in front of each group what its registers hold that are counted, read again and not only lent.
pub fn ledgers_are_owned()
    ensures { LedgersAreOwned }
{}

/// And a frame that waits in a call owns what it owned in front of the call.
pub fn callers_are_owned()
    ensures { CallersAreOwned }
{}

/// In both, a register that is only lent has no cell, or one that an older frame owns.
pub fn lent_are_held()
    ensures { LentAreHeld }
{}

/// A block to which no path leads is never entered.
pub fn unmet_are_never_entered()
    ensures { UnmetAreNeverEntered }
{}
