//! The functions of a program, and the program.
ghost use Rattle.std.specs.Prelude.{◌≡◌, ◌<◌, length, map, IfOk};
ghost use Rattle.ir_core.specs.Lower.{kind_of_type, variable_of, global_of, lowered_as, name_in, lowered_from};
ghost use Rattle.ir_core.specs.Lower as spec;

use crate::classes::copy_classes;
use crate::lines::lines_of;
use crate::names::{function_name, variable_name};
use c_core::{CFunc, Code, Kind};
use ir_core::{Func, Program, RType};
use std::alloc::Global;
use value_core::{Many, Memory, Name};

fn kind_of(t: RType) -> Kind
    ensures { result ≡ kind_of_type t }
{
    match t {
        RType::Int => Kind::Tagged,
        RType::I64 => Kind::Int64,
        RType::Bool => Kind::Char,
        RType::Ref => Kind::Object,
    }
}

fn variables_of(alloc: Global, registers: &[(Name, RType)]) -> Result<Many<(Name, Kind)>, Memory>
    ensures { IfOk result (λ all. all ≡ map variable_of registers.now) }
{
    let mut all = Vec::new(alloc);
    for register in registers {
        let name = variable_name(alloc, register.0.as_str())?;
        all.push((name, kind_of(register.1)))?;
    }
    Ok(Many::from_vec(all))
}

fn globals_of(alloc: Global, globals: &[(Name, RType)]) -> Result<Many<(Name, Kind)>, Memory>
    ensures { IfOk result (λ all. all ≡ map global_of globals.now) }
{
    let mut all = Vec::new(alloc);
    for global in globals {
        let name = Name::from_str(alloc, global.0.as_str())?;
        all.push((name, kind_of(global.1)))?;
    }
    Ok(Many::from_vec(all))
}

/// The name of the function of a number. The last one, the module's own, has none.
fn name_of(alloc: Global, p: &Program, number: usize, function: &Func) -> Result<Name, Memory>
    requires { number < length p.now.funcs }
    ensures { IfOk result (λ name. name ≡ name_in p.now number function.now) }
{
    let count = p.funcs.len();
    if number + 1 == count {
        Name::from_str(alloc, "")
    } else {
        function_name(alloc, function.name.as_str())
    }
}

fn function_of(alloc: Global, p: &Program, number: usize, function: &Func) -> Result<CFunc, Memory>
    requires { number < length p.now.funcs }
    ensures { IfOk result (λ code. code ≡ lowered_as p.now (name_in p.now number function.now) function.now) }
{
    let name = name_of(alloc, p, number, function)?;
    let vars = variables_of(alloc, function.regs.as_slice())?;
    let lines = lines_of(alloc, p, function.blocks.as_slice())?;
    Ok(CFunc {
        name,
        ret: kind_of(function.ret),
        params: function.params,
        vars,
        lines,
    })
}

fn functions_of(alloc: Global, p: &Program) -> Result<Many<CFunc>, Memory>
    ensures { IfOk result (λ all. all ≡ lowered_from p.now 0 p.now.funcs) }
{
    let mut all = Many::new(alloc);
    for (number, function) in p.funcs.as_slice().iter().enumerate() {
        all.push(function_of(alloc, p, number, function)?)?;
    }
    Ok(all)
}

/// The C text of a program, as data: one statement for each operation and each end. Want of memory is the only other answer.
pub fn lower(alloc: Global, p: &Program) -> Result<Code, Memory>
    ensures { IfOk result (λ code. code ≡ spec.lower p.now) }
{
    let globals = globals_of(alloc, p.globals.as_slice())?;
    let classes = copy_classes(alloc, p.classes.as_slice())?;
    let funcs = functions_of(alloc, p)?;
    Ok(Code {
        globals,
        classes,
        funcs,
    })
}
