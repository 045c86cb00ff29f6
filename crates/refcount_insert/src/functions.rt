//! The functions of a program, and the program.
ghost use Rattle.std.specs.Prelude.{◌≡◌, ◌≤◌, ◌^◌, length, map, IfOk};
ghost use Rattle.ir_core.specs.declared.code.Program.{Program as ProgramItem};
ghost use Rattle.ir_core.specs.Bare.{bare, bare_program};
ghost use Rattle.ir_core.specs.Lower as spec;
ghost use Rattle.ir_core.specs.Runs.{MeansSame, Fit};
ghost use Rattle.ir_core.specs.Shape.{Shape, FuncFits, FuncsFit};
ghost use Rattle.refcount_insert_counts.specs.declared.known.KnownRegisters.{KnownRegisters as KnownItem};
ghost use Rattle.refcount_insert_counts.specs.Known.{IsKnown};
ghost use Rattle.refcount_insert.specs.Sharing.{AreProper};
ghost use Rattle.refcount_insert.specs.Plan.{ArePlanned};
ghost use Rattle.refcount_insert.specs.Layout.{AreLaid};
ghost use Rattle.refcount_insert_lines_laws.specs.Follows.{Follows};
ghost use Rattle.refcount_insert_meaning_laws.specs.Uncounted.{uncounted};
ghost use Rattle.refcount_insert_rule.specs.Counted.{IsCountedFunc, AreCounted, IsCountedProgram};

use crate::copies::copy_declared;
use crate::detours::fronts_of;
use crate::layout::laid_out;
use crate::plan::{FunctionPlan, plan};
use c_core::Code;
use error_edges::Edged;
use ir_core::{Block, Func, Program};
use refcount_insert_counts::known_of;
use refcount_insert_lowering::{copy_classes, lower};
use std::alloc::Global;
use value_core::{Many, Memory, Name};

/// The plan of a function.
fn planned_function(alloc: Global, f: &Func) -> Result<FunctionPlan, Memory>
    requires { FuncFits f.now }
    ensures planned { IfOk result (λ plan. (known : KnownItem) × IsKnown (bare f.now) known × ArePlanned known f.now.regs plan.kept.items 0 f.now.blocks plan.blocks.items × AreProper known f.now.regs plan.kept.items) }
    ensures size { IfOk result (λ plan. length plan.kept.items ≡ length f.now.blocks) }
{
    let known = known_of(alloc, f)?;
    let planned = plan(alloc, f.regs.as_slice(), &known, f.blocks.as_slice())?;
    Ok(planned)
}

/// The blocks of a function with their counts. They are as few as numbers of 64 bits can name.
fn counted_blocks(alloc: Global, f: &Func) -> Result<Many<Block>, Memory>
    requires { FuncFits f.now }
    ensures laid { IfOk result (λ blocks. (known : KnownItem) × IsKnown (bare f.now) known × AreLaid known f.now.regs f.now.blocks blocks) }
    ensures few { IfOk result (λ blocks. length blocks ≤ 2 ^ 64) }
{
    let plan = planned_function(alloc, f)?;
    let fronts = fronts_of(alloc, &plan.kept)?;
    let blocks = laid_out(alloc, plan.blocks, &fronts)?;
    Ok(blocks)
}

/// A function with its counts.
fn counted_function(alloc: Global, f: &Func) -> Result<Func, Memory>
    requires { FuncFits f.now }
    ensures { IfOk result (λ g. IsCountedFunc (bare f.now) g) }
{
    let blocks = counted_blocks(alloc, f)?;
    let name = Name::from_str(alloc, f.name.as_str())?;
    let regs = copy_declared(alloc, f.regs.as_slice())?;
    Ok(Func {
        name,
        params: f.params,
        regs,
        ret: f.ret,
        blocks,
    })
}

fn counted_functions(alloc: Global, funcs: &[Func]) -> Result<Many<Func>, Memory>
    requires { FuncsFit funcs.now }
    ensures { IfOk result (λ all. AreCounted (map bare funcs.now) all) }
{
    let mut all = Vec::new(alloc);
    for f in funcs {
        all.push(counted_function(alloc, f)?)?;
    }
    Ok(Many::from_vec(all))
}

fn counted_program(alloc: Global, p: &Program) -> Result<Program, Memory>
    requires { Shape p.now }
    ensures { IfOk result (λ q. IsCountedProgram (bare_program p.now) q) }
{
    let globals = copy_declared(alloc, p.globals.as_slice())?;
    let classes = copy_classes(alloc, p.classes.as_slice())?;
    let funcs = counted_functions(alloc, p.funcs.as_slice())?;
    Ok(Program {
        globals,
        classes,
        funcs,
    })
}

/// A program with its counts, and without its handlers. Where each operation that fails has its edge, no handler is ever gone to;
/// then what is given means the same without its counts, each operation that fails has its edge again, and the C text with
/// the counts does what the program does.
pub fn with_counts(alloc: Global, e: &Edged) -> Result<Program, Memory>
    requires { Shape e.now.program }
    ensures counted { IfOk result (λ q. IsCountedProgram (bare_program e.now.program) q) }
    ensures follows { IfOk result (λ q. Fit e.now.program → Follows e.now.program (spec.lower q)) }
    ensures means { IfOk result (λ q. Fit e.now.program → MeansSame e.now.program (uncounted q)) }
    ensures fits { IfOk result (λ q. Fit e.now.program → Fit (uncounted q)) }
{
    let counted = counted_program(alloc, &e.program)?;
    Ok(counted)
}

/// The C text of a program with its counts, as data. It does what the program does, its runs never fault, and where they end by
/// themselves or by an exception each count is the number of places that hold the cell (mypyc's developer guide, "Reference
/// counting").
pub fn insert_counts(alloc: Global, e: &Edged) -> Result<Code, Memory>
    requires shape { Shape e.now.program }
    requires fits { Fit e.now.program }
    ensures follows { IfOk result (Follows e.now.program) }
    ensures counted { IfOk result (λ code. (q : ProgramItem) × IsCountedProgram (bare_program e.now.program) q × (code ≡ spec.lower q)) }
{
    let counted = with_counts(alloc, e)?;
    let code = lower(alloc, &counted)?;
    Ok(code)
}
