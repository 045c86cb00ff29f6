//! Whole numbers as they stand in the program, of 128 bits and of 64.
ghost use Rattle.std.specs.Prelude.{◌≡◌, IfOk, true, pos, ◌*ℤ◌};
ghost use Rattle.value_core.specs.Arithmetic as spec;
ghost use Rattle.value_core.specs.Value.{IntVal};
ghost use Rattle.ir_core.specs.Registers.{Holds};
ghost use Rattle.ir_builder_frames.specs.Building.{Extends};
ghost use Rattle.ir_builder_frames.specs.Computing.{Makes};
ghost use Rattle.ir_builder_frames.specs.Lines.{OwnLines};

use crate::parts::emit_written;
use c_core::{Prim, TaggedPrim};
use ir_builder_frames::Emitter;
use ir_core::{Lit, RType, Reg};
use std::alloc::Global;
use value_core::{Memory, is_short, number_text};

// The word of a short number.
fn doubled(n: i128) -> i64
    requires { spec.is_short n ≡ true }
    ensures { result ≡ pos 2 *ℤ n }
{
    2 * n as i64
}

/// An `int` as it stands in the text (Python Language Reference, "Integer literals"): a literal where it is short, and else
/// read from its decimal. Nothing is raised.
pub fn emit_int(b: &mut Emitter, alloc: Global, n: i128, line: usize) -> Result<Reg, Memory>
    ensures kept { Extends b.old b.new }
    ensures made { IfOk result (λ r. Makes b.old b.new r.0 RType.Int (λ regs h. h ≡ Holds (IntVal n))) }
    ensures lined { OwnLines line b.old b.new }
{
    if is_short(n) {
        b.literal(RType::Int, Lit::Number(doubled(n)), line)
    } else {
        let decimal = number_text(alloc, n)?;
        let primitive = Prim::Tagged(TaggedPrim::FromText);
        emit_written(b, alloc, RType::Int, primitive, decimal.as_str(), line)
    }
}

/// A native integer as it stands in the text. Nothing is raised.
pub fn emit_native(b: &mut Emitter, n: i64, line: usize) -> Result<Reg, Memory>
    ensures kept { Extends b.old b.new }
    ensures made { IfOk result (λ r. Makes b.old b.new r.0 RType.I64 (λ regs h. h ≡ Holds (IntVal n))) }
    ensures lined { OwnLines line b.old b.new }
{
    b.literal(RType::I64, Lit::Number(n), line)
}
