//! The law. The function is its clause, and does nothing when it runs.
ghost use Rattle.refcount_insert_ledger_laws.specs.Laws.{GroupsBringLedgers};

/// Between two moments in front of groups a frame's ledger changes by what the numbers of its references differ by.
pub fn groups_bring_ledgers()
    ensures { GroupsBringLedgers }
{}
