//! A primitive on a written text, with a register of its own for its result.
ghost use Rattle.std.specs.Prelude.{[], ◌∷◌, IfOk, Some};
ghost use Rattle.ir_core.specs.declared.code.Op.{Op};
ghost use Rattle.ir_builder_frames.specs.Building.{Extends};
ghost use Rattle.ir_builder_frames.specs.Calling.{Adds};
ghost use Rattle.ir_builder_frames.specs.Kinds.{Answers};
ghost use Rattle.ir_builder_frames.specs.Lines.{OwnLines};

use c_core::Prim;
use ir_builder_frames::Emitter;
use ir_core::{PArg, RType, Reg};
use std::alloc::Global;
use value_core::{Many, Memory, Text};

/// The result of a primitive on a text as it is written.
pub fn emit_written(
    b: &mut Emitter,
    alloc: Global,
    t: RType,
    primitive: Prim,
    text: &str,
    line: usize,
) -> Result<Reg, Memory>
    requires fits { Answers t b.old.regs primitive (PArg.Text text.now ∷ []) }
    ensures kept { Extends b.old b.new }
    ensures added { IfOk result (λ r. Adds b.old b.new r.0 t (Op.Prim (Some r) primitive (PArg.Text text.now ∷ [])) line) }
    ensures lined { OwnLines line b.old b.new }
{
    let mut args = Many::new(alloc);
    args.push(PArg::Text(Text::from_str(alloc, text)?))?;
    b.primitive(t, primitive, args, line)
}
