//! Lines of input.
ghost use Rattle.std.specs.Prelude.{IfOk};
ghost use Rattle.py_typed.specs.Sorts.{Str};
ghost use Rattle.source_meaning.specs.State.{look};
ghost use Rattle.source_meaning.specs.Operations.{next_line};
ghost use Rattle.ir_builder_frames.specs.Building.{Extends};
ghost use Rattle.ir_builder_frames.specs.Computing.{Shows, Attempts};
ghost use Rattle.ir_builder_frames.specs.Lines.{OwnLines};
ghost use Rattle.ir_builder_operations.specs.Operating.{Acts};

use crate::operation::{Operation, emit_operation};
use ir_builder_frames::Emitter;
use ir_core::{RType, Reg};
use std::alloc::Global;
use value_core::Memory;

/// The next line of input, without its line feed (Python Library Reference, "Built-in Functions", `input`). At run time the end
/// of the input raises EOFError, and a line that is not UTF-8 ValueError. The run ends at a line that ends too far along, and
/// where the input cannot be read.
pub fn emit_input(b: &mut Emitter, alloc: Global, line: usize) -> Result<Reg, Memory>
    ensures kept { Extends b.old b.new }
    ensures made { IfOk result (λ r. Attempts (Shows Str) b.old b.new r.0 RType.Ref (Acts (look (λ s. s.items) next_line))) }
    ensures lined { OwnLines line b.old b.new }
{
    emit_operation(b, alloc, Operation::Line, &[], line)
}
