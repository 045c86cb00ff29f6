//! The laws. Each function is its clause, and does nothing when it runs.
ghost use Rattle.ir_builder_shapes_laws.specs.Laws.{BuiltHasShape};

/// A program that is built has its shape.
pub fn built_has_shape()
    ensures { BuiltHasShape }
{}
