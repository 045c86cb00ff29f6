//! The program of a module.
ghost use Rattle.std.specs.Prelude.{◌≡◌, ℕ, IfOk};
ghost use Rattle.py_typed.specs.Statements.{typed_module};
ghost use Rattle.ir_core.specs.Runs.{Calm};
ghost use Rattle.ir_core.specs.Shape.{Shape};
ghost use Rattle.ir_builder_frames.specs.Placing.{NoEdges};
ghost use Rattle.ir_builder_statements.specs.Modules.{ModuleSuits};
ghost use Rattle.ir_builder.specs.Functions.{AllBuilt, IsBuiltOf};
ghost use Rattle.ir_builder.specs.Lines.{HasLines};
ghost use Rattle.ir_builder.specs.Meaning.{DoesAsModule, globals_of};

use crate::functions::{build_function, build_own};
use crate::registers::registers_for;
use ir_core::{Func, Program};
use py_typed::Checked;
use std::alloc::Global;
use value_core::{Many, Memory};

/// The intermediate code of a module. Each operation that may fail has the line of the expression or of the statement
/// whose own it is. Behind no operation that may fail stands a test of its result: `error_edges` puts such tests in. Want
/// of memory is the only other answer.
pub fn build(alloc: Global, checked: &Checked) -> Result<Program, Memory>
    requires { ModuleSuits (typed_module checked.now) }
    ensures means { IfOk result (DoesAsModule (typed_module checked.now)) }
    ensures calm { IfOk result Calm }
    ensures shape { IfOk result Shape }
    ensures edges { IfOk result (λ p. (fn : ℕ) → NoEdges p fn) }
    ensures lined { IfOk result (HasLines (typed_module checked.now)) }
    ensures globals { IfOk result (λ p. p.globals ≡ globals_of (typed_module checked.now)) }
{
    build_all(alloc, checked)
}

// The functions, the module's own code and the variables.
fn build_all(alloc: Global, checked: &Checked) -> Result<Program, Memory>
    requires { ModuleSuits (typed_module checked.now) }
    ensures { IfOk result (IsBuiltOf (typed_module checked.now)) }
{
    let mut funcs = build_functions(alloc, checked)?;
    let own = build_own(alloc, checked)?;
    funcs.push(own)?;
    let globals = registers_for(alloc, checked.globals.as_slice())?;
    Ok(Program {
        globals,
        classes: Many::new(alloc),
        funcs: Many::from_vec(funcs),
    })
}

// The code of each function.
fn build_functions(alloc: Global, checked: &Checked) -> Result<Vec<Func>, Memory>
    requires { ModuleSuits (typed_module checked.now) }
    ensures { IfOk result (λ made. AllBuilt (typed_module checked.now) (typed_module checked.now).funcs made.items) }
{
    let mut made = Vec::new(alloc);
    let functions = checked.funcs.as_slice();
    for f in functions {
        let one = build_function(alloc, checked, f)?;
        made.push(one)?;
    }
    Ok(made)
}
