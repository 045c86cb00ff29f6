//! Texts.
ghost use Rattle.std.specs.Prelude.{◌≡◌, IfOk, true};
ghost use Rattle.value_core.specs.Value.{StrVal};
ghost use Rattle.py_typed.specs.Sorts.{sort, Str};
ghost use Rattle.source_meaning.specs.State.{give};
ghost use Rattle.source_meaning.specs.Operations.{text_of};
ghost use Rattle.ir_core.specs.Registers.{Holds};
ghost use Rattle.ir_builder_frames.specs.Building.{Extends};
ghost use Rattle.ir_builder_frames.specs.Computing.{Shows, Makes, Attempts};
ghost use Rattle.ir_builder_frames.specs.Placing.{HasType};
ghost use Rattle.ir_builder_frames.specs.Settings.{rtype_of};
ghost use Rattle.ir_builder_frames.specs.Lines.{OwnLines};
ghost use Rattle.ir_builder_operations.specs.Operating.{is_written, ActsOn};
ghost use Rattle.ir_builder_operations.specs.Converting.{text_operation};

use crate::operation::{Operation, emit_operation};
use crate::parts::emit_written;
use c_core::{Prim, StrPrim};
use ir_builder_frames::Emitter;
use ir_core::{RType, Reg};
use py_typed::Ty;
use std::alloc::Global;
use value_core::Memory;

/// A text as it stands in the program (Python Language Reference, "String and Bytes literals"). Nothing is raised.
pub fn emit_text(b: &mut Emitter, alloc: Global, text: &str, line: usize) -> Result<Reg, Memory>
    ensures kept { Extends b.old b.new }
    ensures made { IfOk result (λ r. Makes b.old b.new r.0 RType.Ref (λ regs h. h ≡ Holds (StrVal text.now))) }
    ensures lined { OwnLines line b.old b.new }
{
    let primitive = Prim::Str(StrPrim::Literal);
    emit_written(b, alloc, RType::Ref, primitive, text, line)
}

// The operation that makes the text of a value, where it is none itself.
fn operation_of_text(t: &Ty) -> Option<Operation>
    ensures { result ≡ text_operation (sort t.now) }
{
    match t {
        Ty::Int => Some(Operation::IntText),
        Ty::I64 => Some(Operation::NativeText),
        Ty::Bool => Some(Operation::BoolText),
        _ => None,
    }
}

/// A number, a bool or a text as `print` and `str` write it (Python Library Reference, "Built-in Types", `str`). A text is in its
/// register already. Nothing is raised.
pub fn emit_text_of(
    b: &mut Emitter,
    alloc: Global,
    t: &Ty,
    x: Reg,
    line: usize,
) -> Result<Reg, Memory>
    requires written { is_written (sort t.now) ≡ true }
    requires value { HasType b.old x.0 (rtype_of (sort t.now)) }
    ensures kept { Extends b.old b.new }
    ensures made { IfOk result (λ r. Attempts (Shows Str) b.old b.new r.0 RType.Ref (ActsOn (sort t.now) x.0 (λ v. give (StrVal (text_of v))))) }
    ensures lined { OwnLines line b.old b.new }
{
    match operation_of_text(t) {
        Some(op) => emit_operation(b, alloc, op, &[x], line),
        None => Ok(x),
    }
}
