//! Types of values and of registers, and the literal of a bool.
ghost use Rattle.std.specs.Prelude.{◌≡◌};
ghost use Rattle.py_typed.specs.Sorts.{sort};
ghost use Rattle.ir_builder_frames.specs.Kinds.{LiteralFits};
ghost use Rattle.ir_builder_frames.specs.Settings.{rtype_of};
ghost use Rattle.ir_builder_expressions.specs.Parts.{is_i64};
ghost use Rattle.ir_builder_expressions.specs.Literals.{literal_of_truth};

use ir_core::{Lit, RType};
use py_typed::Ty;

/// Whether values of a type are native integers.
pub(crate) fn is_native(t: &Ty) -> bool
    ensures { result ≡ is_i64 (sort t.now) }
{
    match t {
        Ty::I64 => true,
        _ => false,
    }
}

/// The literal of a bool.
pub(crate) fn truth(value: bool) -> Lit
    ensures is { result ≡ literal_of_truth value }
    ensures fits { LiteralFits RType.Bool result }
{
    if value {
        Lit::Number(1)
    } else {
        Lit::Number(0)
    }
}

/// The type of the registers for values of a type.
pub fn register_type(t: &Ty) -> RType
    ensures { result ≡ rtype_of (sort t.now) }
{
    match t {
        Ty::Int => RType::Int,
        Ty::I64 => RType::I64,
        Ty::Bool => RType::Bool,
        _ => RType::Ref,
    }
}
