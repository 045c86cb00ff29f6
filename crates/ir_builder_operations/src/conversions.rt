//! A value of one type as one of another type that it fits.
ghost use Rattle.std.specs.Prelude.{◌≡◌, IfOk, false};
ghost use Rattle.py_typed.specs.Sorts.{sort, Optional};
ghost use Rattle.source_meaning.specs.Operations.{coerced};
ghost use Rattle.ir_builder_frames.specs.Building.{Extends};
ghost use Rattle.ir_builder_frames.specs.Computing.{Shows, Attempts};
ghost use Rattle.ir_builder_frames.specs.Placing.{HasType};
ghost use Rattle.ir_builder_frames.specs.Settings.{rtype_of};
ghost use Rattle.ir_builder_frames.specs.Lines.{OwnLines};
ghost use Rattle.ir_builder_operations.specs.Operating.{ActsOn};
ghost use Rattle.ir_builder_operations.specs.Selecting as selecting;
ghost use Rattle.ir_builder_operations.specs.Converting.{Converts, is_optional};

use crate::boxes::{emit_boxed, unboxed};
use crate::coercions::emit_coercion;
use ir_builder_frames::Emitter;
use ir_core::Reg;
use py_typed::Ty;
use std::alloc::Global;
use value_core::Memory;

// Whether a type is one of whole numbers.
fn is_whole(t: &Ty) -> bool
    ensures { result ≡ selecting.is_whole (sort t.now) }
{
    matches!(t, Ty::Int | Ty::I64)
}

// A value as one of a type that is never None.
fn emit_plain(
    b: &mut Emitter,
    alloc: Global,
    from: &Ty,
    to: &Ty,
    x: Reg,
    line: usize,
) -> Result<Reg, Memory>
    requires fits { Converts (sort from.now) (sort to.now) }
    requires plain { is_optional (sort to.now) ≡ false }
    requires value { HasType b.old x.0 (rtype_of (sort from.now)) }
    ensures kept { Extends b.old b.new }
    ensures made { IfOk result (λ r. Attempts (Shows (sort to.now)) b.old b.new r.0 (rtype_of (sort to.now)) (ActsOn (sort from.now) x.0 (coerced (sort to.now)))) }
    ensures lined { OwnLines line b.old b.new }
{
    if is_whole(to) {
        emit_coercion(b, alloc, from, to, x, line)
    } else {
        Ok(x)
    }
}

// A value as an object, where None or a value of a type is asked for.
fn emit_optional(
    b: &mut Emitter,
    alloc: Global,
    from: &Ty,
    inner: &Ty,
    x: Reg,
    line: usize,
) -> Result<Reg, Memory>
    requires fits { Converts (sort from.now) (Optional (sort inner.now)) }
    requires value { HasType b.old x.0 (rtype_of (sort from.now)) }
    ensures kept { Extends b.old b.new }
    ensures made { IfOk result (λ r. Attempts (Shows (Optional (sort inner.now))) b.old b.new r.0 (rtype_of (Optional (sort inner.now))) (ActsOn (sort from.now) x.0 (coerced (Optional (sort inner.now))))) }
    ensures lined { OwnLines line b.old b.new }
{
    match unboxed(from) {
        Some(_) => {
            let y = emit_plain(b, alloc, from, inner, x, line)?;
            emit_boxed(b, alloc, inner, y, line)
        }
        None => Ok(x),
    }
}

/// A value of one type as one of another type that it fits (PEP 484, "Union types"; mypyc's "Native integer types"): a number as
/// one of the other type, a value that may be None too as an object. At run time OverflowError is raised where an `int` has no place in
/// 64 bits. What is kept as it is is in its register already.
pub fn emit_conversion(
    b: &mut Emitter,
    alloc: Global,
    from: &Ty,
    to: &Ty,
    x: Reg,
    line: usize,
) -> Result<Reg, Memory>
    requires fits { Converts (sort from.now) (sort to.now) }
    requires value { HasType b.old x.0 (rtype_of (sort from.now)) }
    ensures kept { Extends b.old b.new }
    ensures made { IfOk result (λ r. Attempts (Shows (sort to.now)) b.old b.new r.0 (rtype_of (sort to.now)) (ActsOn (sort from.now) x.0 (coerced (sort to.now)))) }
    ensures lined { OwnLines line b.old b.new }
{
    match to {
        Ty::Optional(inner) => emit_optional(b, alloc, from, inner, x, line),
        _ => emit_plain(b, alloc, from, to, x, line),
    }
}
