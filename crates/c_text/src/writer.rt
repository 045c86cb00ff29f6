ghost use Rattle.std.specs.Prelude.{◌≡◌, ◌++◌, codes, length, min, take, drop, IsTrue, OnOk, OnErr};
ghost use Rattle.std.specs.List.{flat_map};
ghost use Rattle.outside_core.specs.Counts.{count_after};
ghost use Rattle.outside_core.specs.Bytes.{TakesFront};
ghost use Rattle.c_core.specs.Text.{code_text, declaration_text, parameters_text};
ghost use Rattle.c_text.specs.Classes.{class_written};
ghost use Rattle.c_text.specs.Writing.{Wrote};
ghost use Rattle.c_text.specs.Written.{declaration_written, functions_written, global_written, head_written, lines_written, next_parameter, other_written, top_written};

use crate::class::write_class;
use crate::lines::is_label;
use crate::statement::write_line;
use crate::written::{kind_word, name_word, write_word, write_words};
use c_core::{CClass, CFunc, Code, Kind, Line};
use outside_core::{Sink, WriteFault};
use value_core::{Many, Name};

/// Writes the text of a code. It takes no memory, and any code has a text; where the sink refuses a call, what it
/// took is a front of the text.
pub fn write<O: Sink>(code: &Code, out: &mut O) -> Result<(), WriteFault>
    ensures counted { O.faults out.new ≡ count_after result (O.faults out.old) }
    ensures taken { OnOk result (IsTrue O.tells →
        O.taken out.new ≡ O.taken out.old ++ code_text code.now) }
    ensures front { OnErr result (IsTrue O.tells →
        TakesFront (O.taken out.old) (O.taken out.new) (code_text code.now)) }
{
    write_code(code, out)
}

fn write_code<O: Sink>(code: &Code, out: &mut O) -> Result<(), WriteFault>
    ensures { Wrote result O.tells (O.faults out.old) (O.faults out.new) (O.taken out.old) (O.taken out.new)
        (code_text code.now) }
{
    write_word(b"/* mypyc subset 1 */\n", out)?;
    write_globals(&code.globals, out)?;
    write_classes(&code.classes, out)?;
    write_functions(&code.funcs, out)
}

fn write_globals<O: Sink>(globals: &Many<(Name, Kind)>, out: &mut O) -> Result<(), WriteFault>
    ensures { Wrote result O.tells (O.faults out.old) (O.faults out.new) (O.taken out.old) (O.taken out.new)
        (flat_map global_written globals.now) }
{
    for global in globals.as_slice() {
        write_global(global, out)?;
    }
    Ok(())
}

fn write_global<O: Sink>(global: &(Name, Kind), out: &mut O) -> Result<(), WriteFault>
    ensures { Wrote result O.tells (O.faults out.old) (O.faults out.new) (O.taken out.old) (O.taken out.new)
        (global_written global.now) }
{
    let kind = kind_word(&global.1);
    let name = name_word(&global.0);
    write_words(&[kind, b"CPyStatic_", name, b";\n"], out)
}

fn write_classes<O: Sink>(classes: &Many<CClass>, out: &mut O) -> Result<(), WriteFault>
    ensures { Wrote result O.tells (O.faults out.old) (O.faults out.new) (O.taken out.old) (O.taken out.new)
        (flat_map class_written classes.now) }
{
    for class in classes.as_slice() {
        write_class_line(class, out)?;
    }
    Ok(())
}

fn write_class_line<O: Sink>(class: &CClass, out: &mut O) -> Result<(), WriteFault>
    ensures { Wrote result O.tells (O.faults out.old) (O.faults out.new) (O.taken out.old) (O.taken out.new)
        (class_written class.now) }
{
    write_class(class, out)?;
    write_word(b"\n", out)
}

/// Writes the functions. The last one is the module's own.
fn write_functions<O: Sink>(functions: &Many<CFunc>, out: &mut O) -> Result<(), WriteFault>
    ensures { Wrote result O.tells (O.faults out.old) (O.faults out.new) (O.taken out.old) (O.taken out.new)
        (functions_written functions.now) }
{
    let [others @ .., top] = functions.as_slice() else {
        return Ok(());
    };
    write_others(others, out)?;
    write_top(top, out)
}

fn write_others<O: Sink>(functions: &[CFunc], out: &mut O) -> Result<(), WriteFault>
    ensures { Wrote result O.tells (O.faults out.old) (O.faults out.new) (O.taken out.old) (O.taken out.new)
        (flat_map other_written functions.now) }
{
    for function in functions {
        write_other(function, out)?;
    }
    Ok(())
}

/// Writes a function that is not the module's own.
fn write_other<O: Sink>(function: &CFunc, out: &mut O) -> Result<(), WriteFault>
    ensures { Wrote result O.tells (O.faults out.old) (O.faults out.new) (O.taken out.old) (O.taken out.new)
        (other_written function.now) }
{
    write_head(function, out)?;
    write_body(own_variables(function), function, out)
}

/// Writes the module's own function.
fn write_top<O: Sink>(function: &CFunc, out: &mut O) -> Result<(), WriteFault>
    ensures { Wrote result O.tells (O.faults out.old) (O.faults out.new) (O.taken out.old) (O.taken out.new)
        (top_written function.now) }
{
    write_word(b"char CPyModule(void) {\n", out)?;
    write_body(function.vars.as_slice(), function, out)
}

/// Writes what stands behind the first line of a function, which declares these variables.
fn write_body<O: Sink>(
    declared: &[(Name, Kind)],
    function: &CFunc,
    out: &mut O,
) -> Result<(), WriteFault>
    ensures { Wrote result O.tells (O.faults out.old) (O.faults out.new) (O.taken out.old) (O.taken out.new)
        (flat_map declaration_written declared.now ++ (lines_written function.now.vars 0 function.now.lines ++ codes "}\n")) }
{
    write_declarations(declared, out)?;
    write_lines(&function.vars, &function.lines, out)?;
    write_word(b"}\n", out)
}

/// Writes the first line of a function that is not the module's own.
fn write_head<O: Sink>(function: &CFunc, out: &mut O) -> Result<(), WriteFault>
    ensures { Wrote result O.tells (O.faults out.old) (O.faults out.new) (O.taken out.old) (O.taken out.new)
        (head_written function.now) }
{
    let kind = kind_word(&function.ret);
    let name = name_word(&function.name);
    write_words(&[kind, b"CPyDef_", name, b"("], out)?;
    write_parameters(parameters(function), out)?;
    write_word(b") {\n", out)
}

/// How many variables of a function are parameters.
fn parameter_count(function: &CFunc) -> usize
    ensures { result ≡ min function.now.params (length function.now.vars) }
{
    function.params.min(function.vars.len())
}

fn parameters(function: &CFunc) -> &[(Name, Kind)]
    ensures { result.now ≡ take function.now.params function.now.vars }
{
    &function.vars.as_slice()[..parameter_count(function)]
}

/// The variables of a function that are no parameters.
fn own_variables(function: &CFunc) -> &[(Name, Kind)]
    ensures { result.now ≡ drop function.now.params function.now.vars }
{
    &function.vars.as_slice()[parameter_count(function)..]
}

/// Writes parameters with a comma and a space between each two, or `void` where there are none.
fn write_parameters<O: Sink>(vars: &[(Name, Kind)], out: &mut O) -> Result<(), WriteFault>
    ensures { Wrote result O.tells (O.faults out.old) (O.faults out.new) (O.taken out.old) (O.taken out.new)
        (parameters_text vars.now) }
{
    let [first, others @ ..] = vars else {
        return write_word(b"void", out);
    };
    write_parameter(b"", first, out)?;
    write_other_parameters(others, out)
}

fn write_other_parameters<O: Sink>(vars: &[(Name, Kind)], out: &mut O) -> Result<(), WriteFault>
    ensures { Wrote result O.tells (O.faults out.old) (O.faults out.new) (O.taken out.old) (O.taken out.new)
        (flat_map next_parameter vars.now) }
{
    for declared in vars {
        write_parameter(b", ", declared, out)?;
    }
    Ok(())
}

/// Writes a parameter behind what separates it from the one before.
fn write_parameter<'a, O: Sink>(
    separator: &'a [u8],
    declared: &'a (Name, Kind),
    out: &mut O,
) -> Result<(), WriteFault>
    ensures { Wrote result O.tells (O.faults out.old) (O.faults out.new) (O.taken out.old) (O.taken out.new)
        (separator.now ++ declaration_text declared.now) }
{
    let kind = kind_word(&declared.1);
    let name = name_word(&declared.0);
    write_words(&[separator, kind, b"cpy_", name], out)
}

fn write_declarations<O: Sink>(vars: &[(Name, Kind)], out: &mut O) -> Result<(), WriteFault>
    ensures { Wrote result O.tells (O.faults out.old) (O.faults out.new) (O.taken out.old) (O.taken out.new)
        (flat_map declaration_written vars.now) }
{
    for declared in vars {
        write_declaration(declared, out)?;
    }
    Ok(())
}

fn write_declaration<O: Sink>(declared: &(Name, Kind), out: &mut O) -> Result<(), WriteFault>
    ensures { Wrote result O.tells (O.faults out.old) (O.faults out.new) (O.taken out.old) (O.taken out.new)
        (declaration_written declared.now) }
{
    let kind = kind_word(&declared.1);
    let name = name_word(&declared.0);
    write_words(&[b"    ", kind, b"cpy_", name, b";\n"], out)
}

fn write_lines<O: Sink>(
    vars: &Many<(Name, Kind)>,
    lines: &Many<Line>,
    out: &mut O,
) -> Result<(), WriteFault>
    ensures { Wrote result O.tells (O.faults out.old) (O.faults out.new) (O.taken out.old) (O.taken out.new)
        (lines_written vars.now 0 lines.now) }
{
    let mut labels = 0;
    for line in lines.as_slice() {
        write_line(vars, labels, line, out)?;
        if is_label(line) {
            labels += 1;
        }
    }
    Ok(())
}
