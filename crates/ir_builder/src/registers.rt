//! The registers with which a function begins.
ghost use Rattle.std.specs.Prelude.{◌≡◌, ◌≤◌, ◌-◌, map, IfOk, OnOk};
ghost use Rattle.py_typed.specs.Statements.{variable};
ghost use Rattle.ir_builder.specs.Registers.{variable_registers, variables_of, AddsFlags};

use ir_builder_expressions::register_type;
use ir_builder_frames::{Emitter, Vars};
use ir_core::RType;
use py_typed::Var;
use std::alloc::Global;
use value_core::{Many, Memory, Name};

/// A register for each variable, under its name.
pub fn registers_for(alloc: Global, variables: &[Var]) -> Result<Many<(Name, RType)>, Memory>
    ensures { IfOk result (λ made. made ≡ variable_registers (map variable variables.now)) }
{
    let mut registers = Many::new(alloc);
    for one in variables {
        let name = one.name.clone()?;
        registers.push((name, register_type(&one.ty)))?;
    }
    Ok(registers)
}

/// The numbers of the registers of a function of so many parameters and variables in all. With more registers than there are
/// numbers it is want of memory.
pub fn vars_of(params: usize, count: usize) -> Result<Vars, Memory>
    requires { params ≤ count }
    ensures { IfOk result (λ vars. vars ≡ variables_of params count) }
{
    match count.checked_add(count - params) {
        Some(top) => Ok(Vars { params, count, top }),
        None => Err(Memory),
    }
}

/// The flags of the variables that are no parameters. They are unset when the function begins.
pub fn add_flags(b: &mut Emitter, params: usize, count: usize) -> Result<(), Memory>
    requires { params ≤ count }
    ensures { OnOk result (AddsFlags (count - params) b.old b.new) }
{
    for variable in params..count {
        b.temporary(RType::Bool)?;
    }
    Ok(())
}
