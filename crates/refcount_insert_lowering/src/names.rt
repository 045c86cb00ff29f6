//! Names in C text.
ghost use Rattle.std.specs.Prelude.{◌≡◌, suc, nat_eq, length, IfOk};
ghost use Rattle.ir_core.specs.Names.{method_id, function_id, variable_id};
ghost use Rattle.ir_core.specs.Lower.{called_as, class_called};
ghost use Rattle.ir_core.specs.Lower as spec;

use ir_core::{Func, Program};
use std::alloc::Global;
use value_core::{Memory, Name, char_len};

fn method_name(alloc: Global, class: &str, method: &str) -> Result<Name, Memory>
    ensures { IfOk result (λ name. name ≡ method_id class.now method.now) }
{
    let letters = char_len(class);
    let text = format!(in alloc; "{letters}{class}_{method}")?;
    Ok(Name::from_string(text))
}

/// The name of a function, which is that of a method where it has a dot.
pub(crate) fn function_name(alloc: Global, name: &str) -> Result<Name, Memory>
    ensures { IfOk result (λ copy. copy ≡ function_id name.now) }
{
    match name.split_once('.') {
        Some((class, method)) => method_name(alloc, class, method),
        None => Name::from_str(alloc, name),
    }
}

/// The name of a register's variable.
pub(crate) fn variable_name(alloc: Global, name: &str) -> Result<Name, Memory>
    ensures { IfOk result (λ copy. copy ≡ variable_id name.now) }
{
    let text = format!(in alloc; "r_{name}")?;
    Ok(Name::from_string(text))
}

fn call_name(alloc: Global, function: &Func) -> Result<Name, Memory>
    ensures { IfOk result (λ name. name ≡ spec.call_name function.now) }
{
    let id = function_name(alloc, function.name.as_str())?;
    let text = format!(in alloc; "CPyDef_{id}")?;
    Ok(Name::from_string(text))
}

// Whether a function is the last one of a program.
fn is_last(p: &Program, g: usize) -> bool
    ensures { result ≡ nat_eq (suc g) (length p.now.funcs) }
{
    p.funcs.len().checked_sub(1) == Some(g)
}

/// The name by which a function of a program is called. One that is not there has none, nor has the module's own, which is the
/// last.
pub(crate) fn name_in_call(alloc: Global, p: &Program, g: usize) -> Result<Name, Memory>
    ensures { IfOk result (λ name. name ≡ called_as p.now g) }
{
    if is_last(p, g) {
        return Name::from_str(alloc, "");
    }
    match p.funcs.get(g) {
        Some(function) => call_name(alloc, function),
        None => Name::from_str(alloc, ""),
    }
}

/// The name of a class of a program. One that is not there has none.
pub(crate) fn name_of_class(alloc: Global, p: &Program, t: usize) -> Result<Name, Memory>
    ensures { IfOk result (λ name. name ≡ class_called p.now t) }
{
    match p.classes.get(t) {
        Some(class) => Name::from_str(alloc, class.name.as_str()),
        None => Name::from_str(alloc, ""),
    }
}
