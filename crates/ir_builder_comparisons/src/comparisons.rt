//! Comparisons and truths.
ghost use Rattle.std.specs.Prelude.{◌≡◌, IfOk, true};
ghost use Rattle.py_syntax.specs.declared.expression.CmpOp.TheVariants.{Ne};
ghost use Rattle.py_typed.specs.Sorts.{sort};
ghost use Rattle.ir_core.specs.Registers.{Holds};
ghost use Rattle.ir_builder_frames.specs.Building.{Extends};
ghost use Rattle.ir_builder_frames.specs.Computing.{Makes};
ghost use Rattle.ir_builder_frames.specs.Placing.{HasType};
ghost use Rattle.ir_builder_frames.specs.Settings.{rtype_of};
ghost use Rattle.ir_builder_frames.specs.Lines.{OwnLines};
ghost use Rattle.ir_builder_operations.specs.Operating.{is_written};
ghost use Rattle.ir_builder_operations.specs.Rows.{compared_sort, tested};
ghost use Rattle.ir_builder_comparisons.specs.Comparing.{Compares, FindsTruth, is_ordering, ordered, compared_of, false_of};

use ir_builder_frames::Emitter;
use ir_builder_operations::{
    Compared, Operation, Test, emit_int, emit_native, emit_operation, emit_text,
};
use ir_core::Reg;
use py_syntax::CmpOp;
use py_typed::Ty;
use std::alloc::Global;
use value_core::Memory;

// A test of two values.
fn emit_test(
    b: &mut Emitter,
    alloc: Global,
    compared: Compared,
    test: Test,
    x: Reg,
    y: Reg,
    line: usize,
) -> Result<Reg, Memory>
    requires left { HasType b.old x.0 (rtype_of (compared_sort compared)) }
    requires right { HasType b.old y.0 (rtype_of (compared_sort compared)) }
    ensures kept { Extends b.old b.new }
    ensures made { IfOk result (λ r. Compares compared (tested test) b.old b.new r.0 x.0 y.0) }
    ensures lined { OwnLines line b.old b.new }
{
    let operation = Operation::Comparison(compared, test);
    emit_operation(b, alloc, operation, &[x, y], line)
}

// Whether two values differ.
fn emit_difference(
    b: &mut Emitter,
    alloc: Global,
    compared: Compared,
    x: Reg,
    y: Reg,
    line: usize,
) -> Result<Reg, Memory>
    requires left { HasType b.old x.0 (rtype_of (compared_sort compared)) }
    requires right { HasType b.old y.0 (rtype_of (compared_sort compared)) }
    ensures kept { Extends b.old b.new }
    ensures made { IfOk result (λ r. Compares compared (ordered Ne) b.old b.new r.0 x.0 y.0) }
    ensures lined { OwnLines line b.old b.new }
{
    let same = emit_test(b, alloc, compared, Test::Equal, x, y, line)?;
    emit_operation(b, alloc, Operation::Inversion, &[same], line)
}

/// A comparison of two values of one type (Python Language Reference, "Value comparisons"). Texts stand in the order of their code
/// points. Nothing is raised.
pub fn emit_comparison(
    b: &mut Emitter,
    alloc: Global,
    compared: Compared,
    op: CmpOp,
    x: Reg,
    y: Reg,
    line: usize,
) -> Result<Reg, Memory>
    requires ordering { is_ordering op ≡ true }
    requires left { HasType b.old x.0 (rtype_of (compared_sort compared)) }
    requires right { HasType b.old y.0 (rtype_of (compared_sort compared)) }
    ensures kept { Extends b.old b.new }
    ensures made { IfOk result (λ r. Compares compared (ordered op) b.old b.new r.0 x.0 y.0) }
    ensures lined { OwnLines line b.old b.new }
{
    match op {
        CmpOp::Ne => emit_difference(b, alloc, compared, x, y, line),
        CmpOp::Lt => emit_test(b, alloc, compared, Test::Less, x, y, line),
        CmpOp::Le => emit_test(b, alloc, compared, Test::AtMost, x, y, line),
        CmpOp::Gt => emit_test(b, alloc, compared, Test::Less, y, x, line),
        CmpOp::Ge => emit_test(b, alloc, compared, Test::AtMost, y, x, line),
        _ => emit_test(b, alloc, compared, Test::Equal, x, y, line),
    }
}

// The value of a type that is false.
fn emit_false(
    b: &mut Emitter,
    alloc: Global,
    compared: Compared,
    line: usize,
) -> Result<Reg, Memory>
    ensures kept { Extends b.old b.new }
    ensures made { IfOk result (λ r. Makes b.old b.new r.0 (rtype_of (compared_sort compared)) (λ regs h. h ≡ Holds (false_of compared))) }
    ensures lined { OwnLines line b.old b.new }
{
    match compared {
        Compared::Ints => emit_int(b, alloc, 0, line),
        Compared::Natives => emit_native(b, 0, line),
        Compared::Texts => emit_text(b, alloc, "", line),
    }
}

// The truth of what may be compared, which is that it differs from the value that is false.
fn emit_compared_truth(
    b: &mut Emitter,
    alloc: Global,
    compared: Compared,
    x: Reg,
    line: usize,
) -> Result<Reg, Memory>
    requires { HasType b.old x.0 (rtype_of (compared_sort compared)) }
    ensures kept { Extends b.old b.new }
    ensures found { IfOk result (λ c. FindsTruth b.old b.new x.0 c.0 (compared_sort compared)) }
    ensures lined { OwnLines line b.old b.new }
{
    let none = emit_false(b, alloc, compared, line)?;
    emit_difference(b, alloc, compared, x, none, line)
}

// What values of a type are compared as, where their truth is found so.
fn compared_by(t: &Ty) -> Option<Compared>
    ensures { result ≡ compared_of (sort t.now) }
{
    match t {
        Ty::Int => Some(Compared::Ints),
        Ty::I64 => Some(Compared::Natives),
        Ty::Str => Some(Compared::Texts),
        _ => None,
    }
}

/// The truth of a number, a bool or a text (Python Library Reference, "Truth Value Testing"). That of a bool is in its register
/// already. Nothing is raised.
pub fn emit_truth(
    b: &mut Emitter,
    alloc: Global,
    t: &Ty,
    x: Reg,
    line: usize,
) -> Result<Reg, Memory>
    requires written { is_written (sort t.now) ≡ true }
    requires value { HasType b.old x.0 (rtype_of (sort t.now)) }
    ensures kept { Extends b.old b.new }
    ensures found { IfOk result (λ c. FindsTruth b.old b.new x.0 c.0 (sort t.now)) }
    ensures lined { OwnLines line b.old b.new }
{
    match compared_by(t) {
        Some(compared) => emit_compared_truth(b, alloc, compared, x, line),
        None => Ok(x),
    }
}
