//! The laws. Each function is its clause, and does nothing when it runs.
ghost use Rattle.ir_builder_supported.specs.Laws.{CompiledSuits};

/// A well typed module all of which is compiled is one that is built.
pub fn compiled_suits()
    ensures { CompiledSuits }
{}
