//! What is printed.
ghost use Rattle.std.specs.Prelude.{◌≡◌, ◌<◌, true, map, length, OnOk};
ghost use Rattle.std.specs.List.{list_all};
ghost use Rattle.ir_builder_frames.specs.Building.{Extends};
ghost use Rattle.py_typed.specs.Sorts.{sort};
ghost use Rattle.py_typed.specs.Expressions.{typed_expr, type_of};
ghost use Rattle.source_meaning.specs.Operations.{line_of, text_of};
ghost use Rattle.ir_builder_frames.specs.Calling.{Pushes};
ghost use Rattle.ir_builder_frames.specs.Computing.{HaveTypes};
ghost use Rattle.ir_builder_frames.specs.Placing.{HasType};
ghost use Rattle.ir_builder_frames.specs.Settings.{rtype_of};
ghost use Rattle.ir_builder_frames.specs.Lines.{OwnLines};
ghost use Rattle.ir_builder_operations.specs.Operating.{is_written};
ghost use Rattle.ir_builder_loops_and_jumps.specs.Printing.{writes_of, item_text, WritesText, WritesOne, Writes};

use c_core::{IoPrim, Prim};
use ir_builder_frames::Emitter;
use ir_builder_operations::{emit_text, emit_text_of};
use ir_core::{Op, PArg, RType, Reg};
use py_typed::{TExpr, Ty};
use std::alloc::Global;
use value_core::{Many, Memory};

// The text in a register is written.
fn emit_write(b: &mut Emitter, alloc: Global, r: Reg, line: usize) -> Result<(), Memory>
    requires { HasType b.old r.0 RType.Ref }
    ensures kept { Extends b.old b.new }
    ensures pushed { OnOk result (Pushes b.old b.new (writes_of r) line) }
    ensures lined { OwnLines line b.old b.new }
{
    let mut written = Many::new(alloc);
    written.push(PArg::Var(r))?;
    b.push(Op::Prim(None, Prim::Io(IoPrim::Write), written), line)
}

// A text of the program is written.
fn emit_literal(b: &mut Emitter, alloc: Global, text: &str, line: usize) -> Result<(), Memory>
    ensures kept { Extends b.old b.new }
    ensures writes { OnOk result (WritesText b.old b.new text.now) }
    ensures lined { OwnLines line b.old b.new }
{
    let r = emit_text(b, alloc, text, line)?;
    emit_write(b, alloc, r, line)
}

// The text of a value of a type is written.
fn emit_value(b: &mut Emitter, alloc: Global, t: &Ty, x: Reg, line: usize) -> Result<(), Memory>
    requires text { is_written (sort t.now) ≡ true }
    requires value { HasType b.old x.0 (rtype_of (sort t.now)) }
    ensures kept { Extends b.old b.new }
    ensures writes { OnOk result (WritesOne (sort t.now) x.0 b.old b.new text_of) }
    ensures lined { OwnLines line b.old b.new }
{
    let r = emit_text_of(b, alloc, t, x, line)?;
    emit_write(b, alloc, r, line)
}

// The text of the value with a number in a row is written, behind a space where it is not the first.
fn emit_item(
    b: &mut Emitter,
    alloc: Global,
    i: usize,
    t: &Ty,
    x: Reg,
    line: usize,
) -> Result<(), Memory>
    requires text { is_written (sort t.now) ≡ true }
    requires value { HasType b.old x.0 (rtype_of (sort t.now)) }
    ensures kept { Extends b.old b.new }
    ensures writes { OnOk result (WritesOne (sort t.now) x.0 b.old b.new (item_text i)) }
    ensures lined { OwnLines line b.old b.new }
{
    if i == 0 {
        return emit_value(b, alloc, t, x, line);
    }
    emit_literal(b, alloc, " ", line)?;
    emit_value(b, alloc, t, x, line)
}

/// Writes values, whose registers are given, with a space between and a line feed behind the last (Python Library Reference,
/// "Built-in Functions", `print`). The text of each is made when it is written.
pub fn emit_print(
    b: &mut Emitter,
    alloc: Global,
    values: &[TExpr],
    regs: &[Reg],
    line: usize,
) -> Result<(), Memory>
    requires texts { list_all is_written (map type_of (map typed_expr values.now)) ≡ true }
    requires types { HaveTypes b.old.regs (map type_of (map typed_expr values.now)) regs.now }
    ensures kept { Extends b.old b.new }
    ensures writes { OnOk result (Writes (map type_of (map typed_expr values.now)) regs.now b.old b.new line_of) }
    ensures lined { OwnLines line b.old b.new }
{
    for i in 0..regs.len() {
        emit_item(b, alloc, i, &values[i].ty, regs[i], line)?;
    }
    emit_literal(b, alloc, "\n", line)
}
