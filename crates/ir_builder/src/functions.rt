//! The functions of a program.
ghost use Rattle.std.specs.Prelude.{◌≡◌, IfOk};
ghost use Rattle.py_typed.specs.Statements.{typed_module, typed_func};
ghost use Rattle.ir_builder_statements.specs.Modules.{ModuleSuits, FunctionSuits};
ghost use Rattle.ir_builder.specs.Functions.{end_literal, IsFunctionOf, IsOwnOf};

use crate::body::{NO_LINE, emit_body};
use crate::registers::{add_flags, registers_for, vars_of};
use ir_builder_expressions::register_type;
use ir_builder_frames::Emitter;
use ir_core::{Func, Lit, Op, RType};
use py_typed::{Checked, TFunc};
use std::alloc::Global;
use value_core::{Many, Memory, Name};

/// The code of a function.
#[tactic(auto, using(crate::proofs::FunctionLemmas::few_params, crate::proofs::FunctionLemmas::literal_fits))]
pub fn build_function(alloc: Global, checked: &Checked, f: &TFunc) -> Result<Func, Memory>
    requires module { ModuleSuits (typed_module checked.now) }
    requires function { FunctionSuits (typed_module checked.now) (typed_func f.now) }
    ensures { IfOk result (IsFunctionOf (typed_module checked.now) (typed_func f.now)) }
{
    let variables = registers_for(alloc, f.locals.as_slice())?;
    let ret = register_type(&f.ret);
    let mut b = Emitter::new(alloc, checked, ret, variables);
    let count = f.locals.len();
    let vars = vars_of(f.params, count)?;
    add_flags(&mut b, f.params, count)?;
    b.push(Op::Turn, NO_LINE)?;
    emit_body(
        &mut b,
        alloc,
        checked,
        f.locals.as_slice(),
        vars,
        Some(&f.ret),
        ret,
        end_of(ret),
        f.body.as_slice(),
    )?;
    let name = f.name.clone()?;
    Ok(b.finish(name, f.params))
}

/// The code of a module's own statements, which gives true at their end. It has no name.
pub fn build_own(alloc: Global, checked: &Checked) -> Result<Func, Memory>
    requires { ModuleSuits (typed_module checked.now) }
    ensures { IfOk result (IsOwnOf (typed_module checked.now)) }
{
    let mut b = Emitter::new(alloc, checked, RType::Bool, Many::new(alloc));
    let vars = vars_of(0, 0)?;
    emit_body(
        &mut b,
        alloc,
        checked,
        &[],
        vars,
        None,
        RType::Bool,
        Lit::Number(1),
        checked.top.as_slice(),
    )?;
    Ok(b.finish(Name::from_string(String::new(alloc)), 0))
}

// What the code of a function gives at its end, where its result has registers of a type.
fn end_of(ret: RType) -> Lit
    ensures { result ≡ end_literal ret }
{
    match ret {
        RType::Ref => Lit::PyNone,
        _ => Lit::Number(0),
    }
}
