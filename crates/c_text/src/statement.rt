ghost use Rattle.std.specs.Prelude.{◌≡◌, ◌++◌, ℕ, List, slice_get, codes};
ghost use Rattle.std.specs.Fmt.{decimal};
ghost use Rattle.std.specs.List.{flat_map};
ghost use Rattle.c_core.specs.Text.{arg_text, arg_texts, branches_text, comma, count_text, counter_of, error_text, joined, goto_text, literal_text, statement_text, target_text, var_text};
ghost use Rattle.c_text.specs.Arguments.{next_text};
ghost use Rattle.c_text.specs.Methods.{method_behind, next_variable, others_text};
ghost use Rattle.c_text.specs.Writing.{Wrote};
ghost use Rattle.c_text.specs.Written.{indented_written, label_written, line_written};

use crate::quote::write_quoted;
use crate::written::{name_word, write_word, write_words};
use c_core::{CArg, CLit, Kind, Line};
use itoa::Buffer;
use outside_core::{Sink, WriteFault};
use value_core::{Many, Name};

/// Writes a line of a function with these variables, above which so many labels stand.
pub(crate) fn write_line<O: Sink>(
    vars: &Many<(Name, Kind)>,
    labels: usize,
    line: &Line,
    out: &mut O,
) -> Result<(), WriteFault>
    ensures { Wrote result O.tells (O.faults out.old) (O.faults out.new) (O.taken out.old) (O.taken out.new)
        (line_written vars.now labels line.now) }
{
    match line {
        Line::Label => write_label(labels, out),
        _ => write_indented(vars, line, out),
    }
}

fn write_label<O: Sink>(number: usize, out: &mut O) -> Result<(), WriteFault>
    ensures { Wrote result O.tells (O.faults out.old) (O.faults out.new) (O.taken out.old) (O.taken out.new)
        (label_written number) }
{
    let mut digits = Buffer::new();
    let number = number_word(number, &mut digits);
    write_words(&[b"CPyL", number, b": ;\n"], out)
}

fn write_indented<O: Sink>(
    vars: &Many<(Name, Kind)>,
    line: &Line,
    out: &mut O,
) -> Result<(), WriteFault>
    ensures { Wrote result O.tells (O.faults out.old) (O.faults out.new) (O.taken out.old) (O.taken out.new)
        (indented_written vars.now line.now) }
{
    write_word(b"    ", out)?;
    write_statement(vars, line, out)?;
    write_word(b";\n", out)
}

/// Writes what stands between the spaces and the semicolon of a line; a label has nothing there.
pub(crate) fn write_statement<O: Sink>(
    vars: &Many<(Name, Kind)>,
    line: &Line,
    out: &mut O,
) -> Result<(), WriteFault>
    ensures { Wrote result O.tells (O.faults out.old) (O.faults out.new) (O.taken out.old) (O.taken out.new)
        (statement_text vars.now line.now) }
{
    match line {
        Line::Label => Ok(()),
        Line::Move(place, source) => write_move(vars, *place, *source, out),
        Line::Lit(place, literal) => write_assignment(vars, *place, *literal, out),
        Line::Call(target, name, args) => write_call(vars, *target, name, args, out),
        Line::Virtual(place, object, number, args) => {
            write_virtual(vars, *place, *object, *number, args, out)
        }
        Line::TraitCall(place, object, name, number, args) => {
            write_trait_call(vars, *place, *object, name, *number, args, out)
        }
        Line::Goto(label) => write_jump(*label, out),
        Line::If(place, first, second) => write_test(vars, *place, *first, *second, out),
        Line::IfError(place, first, second) => write_error_test(vars, *place, *first, *second, out),
        Line::Turn => write_word(b"CPyTurn()", out),
        Line::Return(place) => write_return(vars, *place, out),
        Line::Inc(place) => write_count(vars, b"INCREF", *place, out),
        Line::Dec(place) => write_count(vars, b"DECREF", *place, out),
        Line::XDec(place) => write_count(vars, b"XDECREF", *place, out),
    }
}

fn write_move<O: Sink>(
    vars: &Many<(Name, Kind)>,
    place: usize,
    source: usize,
    out: &mut O,
) -> Result<(), WriteFault>
    ensures { Wrote result O.tells (O.faults out.old) (O.faults out.new) (O.taken out.old) (O.taken out.new)
        (statement_text vars.now (Line.Move place source)) }
{
    let target = variable_words(vars, place);
    let value = variable_words(vars, source);
    write_words(&[target.0, target.1, b" = ", value.0, value.1], out)
}

fn write_assignment<O: Sink>(
    vars: &Many<(Name, Kind)>,
    place: usize,
    literal: CLit,
    out: &mut O,
) -> Result<(), WriteFault>
    ensures { Wrote result O.tells (O.faults out.old) (O.faults out.new) (O.taken out.old) (O.taken out.new)
        (statement_text vars.now (Line.Lit place literal)) }
{
    let target = variable_words(vars, place);
    let mut digits = Buffer::new();
    let value = literal_word(literal, &mut digits);
    write_words(&[target.0, target.1, b" = ", value], out)
}

fn write_call<O: Sink>(
    vars: &Many<(Name, Kind)>,
    target: Option<usize>,
    name: &Name,
    args: &Many<CArg>,
    out: &mut O,
) -> Result<(), WriteFault>
    ensures { Wrote result O.tells (O.faults out.old) (O.faults out.new) (O.taken out.old) (O.taken out.new)
        (statement_text vars.now (Line.Call target name.now args.now)) }
{
    let target = target_words(vars, target);
    let name = name_word(name);
    write_words(&[target.0, target.1, target.2, name, b"("], out)?;
    write_arguments(vars, args, out)?;
    write_word(b")", out)
}

fn write_virtual<O: Sink>(
    vars: &Many<(Name, Kind)>,
    place: usize,
    object: usize,
    number: usize,
    args: &Many<usize>,
    out: &mut O,
) -> Result<(), WriteFault>
    ensures { Wrote result O.tells (O.faults out.old) (O.faults out.new) (O.taken out.old) (O.taken out.new)
        (statement_text vars.now (Line.Virtual place object number args.now)) }
{
    let target = variable_words(vars, place);
    let object = variable_words(vars, object);
    write_words(
        &[
            target.0,
            target.1,
            b" = ",
            b"CPyVirtual(",
            object.0,
            object.1,
        ],
        out,
    )?;
    write_method(vars, number, args, out)?;
    write_word(b")", out)
}

fn write_trait_call<O: Sink>(
    vars: &Many<(Name, Kind)>,
    place: usize,
    object: usize,
    name: &Name,
    number: usize,
    args: &Many<usize>,
    out: &mut O,
) -> Result<(), WriteFault>
    ensures { Wrote result O.tells (O.faults out.old) (O.faults out.new) (O.taken out.old) (O.taken out.new)
        (statement_text vars.now (Line.TraitCall place object name.now number args.now)) }
{
    let target = variable_words(vars, place);
    let object = variable_words(vars, object);
    let name = name_word(name);
    write_words(
        &[
            target.0,
            target.1,
            b" = ",
            b"CPyTrait(",
            object.0,
            object.1,
            b", CPyType_",
            name,
        ],
        out,
    )?;
    write_method(vars, number, args, out)?;
    write_word(b")", out)
}

/// Writes the place of a method and the arguments behind it, each behind a comma and a space.
fn write_method<O: Sink>(
    vars: &Many<(Name, Kind)>,
    number: usize,
    args: &Many<usize>,
    out: &mut O,
) -> Result<(), WriteFault>
    ensures { Wrote result O.tells (O.faults out.old) (O.faults out.new) (O.taken out.old) (O.taken out.new)
        (method_behind vars.now (number, args.now)) }
{
    let mut digits = Buffer::new();
    let number = number_word(number, &mut digits);
    write_words(&[b", ", number], out)?;
    write_variables(vars, args, out)
}

fn write_variables<O: Sink>(
    vars: &Many<(Name, Kind)>,
    args: &Many<usize>,
    out: &mut O,
) -> Result<(), WriteFault>
    ensures { Wrote result O.tells (O.faults out.old) (O.faults out.new) (O.taken out.old) (O.taken out.new)
        (others_text vars.now args.now) }
{
    for arg in args.as_slice() {
        write_next_variable(vars, *arg, out)?;
    }
    Ok(())
}

/// Writes a variable behind a comma and a space.
fn write_next_variable<O: Sink>(
    vars: &Many<(Name, Kind)>,
    place: usize,
    out: &mut O,
) -> Result<(), WriteFault>
    ensures { Wrote result O.tells (O.faults out.old) (O.faults out.new) (O.taken out.old) (O.taken out.new)
        (next_variable vars.now place) }
{
    let variable = variable_words(vars, place);
    write_words(&[b", ", variable.0, variable.1], out)
}

fn write_return<O: Sink>(
    vars: &Many<(Name, Kind)>,
    place: usize,
    out: &mut O,
) -> Result<(), WriteFault>
    ensures { Wrote result O.tells (O.faults out.old) (O.faults out.new) (O.taken out.old) (O.taken out.new)
        (statement_text vars.now (Line.Return place)) }
{
    let value = variable_words(vars, place);
    write_words(&[b"return ", value.0, value.1], out)
}

fn write_jump<O: Sink>(label: usize, out: &mut O) -> Result<(), WriteFault>
    ensures { Wrote result O.tells (O.faults out.old) (O.faults out.new) (O.taken out.old) (O.taken out.new)
        (goto_text label) }
{
    let mut digits = Buffer::new();
    let label = number_word(label, &mut digits);
    write_words(&[b"goto CPyL", label], out)
}

/// Writes what stands behind a test: where it goes on if it holds, and where else.
fn write_branches<O: Sink>(first: usize, second: usize, out: &mut O) -> Result<(), WriteFault>
    ensures { Wrote result O.tells (O.faults out.old) (O.faults out.new) (O.taken out.old) (O.taken out.new)
        (branches_text first second) }
{
    let mut digits = Buffer::new();
    let mut others = Buffer::new();
    let first = number_word(first, &mut digits);
    let second = number_word(second, &mut others);
    write_words(
        &[b") ", b"goto CPyL", first, b"; else ", b"goto CPyL", second],
        out,
    )
}

fn write_test<O: Sink>(
    vars: &Many<(Name, Kind)>,
    place: usize,
    first: usize,
    second: usize,
    out: &mut O,
) -> Result<(), WriteFault>
    ensures { Wrote result O.tells (O.faults out.old) (O.faults out.new) (O.taken out.old) (O.taken out.new)
        (statement_text vars.now (Line.If place first second)) }
{
    let tested = variable_words(vars, place);
    write_words(&[b"if (", tested.0, tested.1], out)?;
    write_branches(first, second, out)
}

fn write_error_test<O: Sink>(
    vars: &Many<(Name, Kind)>,
    place: usize,
    first: usize,
    second: usize,
    out: &mut O,
) -> Result<(), WriteFault>
    ensures { Wrote result O.tells (O.faults out.old) (O.faults out.new) (O.taken out.old) (O.taken out.new)
        (statement_text vars.now (Line.IfError place first second)) }
{
    let tested = variable_words(vars, place);
    let error = error_word(vars, place);
    write_words(&[b"if (", tested.0, tested.1, b" == ", error], out)?;
    write_branches(first, second, out)
}

/// Writes a count by what stands in its word behind the name of the kind.
fn write_count<'a, O: Sink>(
    vars: &'a Many<(Name, Kind)>,
    verb: &'a [u8],
    place: usize,
    out: &mut O,
) -> Result<(), WriteFault>
    ensures { Wrote result O.tells (O.faults out.old) (O.faults out.new) (O.taken out.old) (O.taken out.new)
        (count_text vars.now verb.now place) }
{
    let counter = counter_word(vars, place);
    let counted = variable_words(vars, place);
    write_words(&[counter, verb, b"(", counted.0, counted.1, b")"], out)
}

/// The words of a variable by its number; one that is not declared has none.
fn variable_words(vars: &Many<(Name, Kind)>, place: usize) -> (&[u8], &[u8])
    ensures whole { result.0.now ++ result.1.now ≡ var_text vars.now place }
    ensures before { (rest : List ℕ) → result.0.now ++ (result.1.now ++ rest) ≡ var_text vars.now place ++ rest }
{
    match vars.get(place) {
        Some((name, _)) => (b"cpy_", name_word(name)),
        None => (b"", b""),
    }
}

/// The words of a variable that is assigned to, if there is one.
fn target_words(vars: &Many<(Name, Kind)>, target: Option<usize>) -> (&[u8], &[u8], &[u8])
    ensures { (rest : List ℕ) →
        result.0.now ++ (result.1.now ++ (result.2.now ++ rest)) ≡ target_text vars.now target ++ rest }
{
    match target {
        Some(place) => {
            let (prefix, name) = variable_words(vars, place);
            (prefix, name, b" = ")
        }
        None => (b"", b"", b""),
    }
}

/// The error value of a variable's kind.
fn error_word(vars: &Many<(Name, Kind)>, place: usize) -> &[u8]
    ensures { result.now ≡ error_text (slice_get vars.now place) }
{
    match vars.get(place) {
        Some((_, Kind::Tagged)) => b"1",
        Some((_, Kind::Int64)) => b"-113",
        Some((_, Kind::Char)) => b"2",
        Some((_, Kind::Object)) => b"NULL",
        None => b"",
    }
}

/// How a count statement begins: it goes by the kind of its variable.
fn counter_word(vars: &Many<(Name, Kind)>, place: usize) -> &[u8]
    ensures { result.now ≡ counter_of (slice_get vars.now place) }
{
    match vars.get(place) {
        Some((_, Kind::Tagged)) => b"CPyTagged_",
        _ => b"CPy_",
    }
}

/// A number, whose digits are put into a buffer.
fn number_word(number: usize, digits: &mut Buffer) -> &[u8]
    ensures { result.now ≡ decimal number }
{
    digits.format(number).as_bytes()
}

/// A literal, whose digits are put into a buffer where it is a number.
fn literal_word(literal: CLit, digits: &mut Buffer) -> &[u8]
    ensures { result.now ≡ literal_text literal }
{
    match literal {
        CLit::Number(number) => digits.format(number).as_bytes(),
        CLit::Null => b"NULL",
        CLit::PyNone => b"Py_None",
        CLit::PyTrue => b"Py_True",
        CLit::PyFalse => b"Py_False",
    }
}

/// Writes arguments with a comma and a space between each two.
fn write_arguments<O: Sink>(
    vars: &Many<(Name, Kind)>,
    args: &Many<CArg>,
    out: &mut O,
) -> Result<(), WriteFault>
    ensures { Wrote result O.tells (O.faults out.old) (O.faults out.new) (O.taken out.old) (O.taken out.new)
        (joined comma (arg_texts vars.now args.now)) }
{
    let [first, others @ ..] = args.as_slice() else {
        return Ok(());
    };
    write_argument(vars, b"", first, out)?;
    write_other_arguments(vars, others, out)
}

fn write_other_arguments<O: Sink>(
    vars: &Many<(Name, Kind)>,
    others: &[CArg],
    out: &mut O,
) -> Result<(), WriteFault>
    ensures { Wrote result O.tells (O.faults out.old) (O.faults out.new) (O.taken out.old) (O.taken out.new)
        (flat_map (next_text vars.now) others.now) }
{
    for other in others {
        write_argument(vars, b", ", other, out)?;
    }
    Ok(())
}

/// Writes an argument behind what separates it from the one before.
fn write_argument<O: Sink>(
    vars: &Many<(Name, Kind)>,
    separator: &[u8],
    arg: &CArg,
    out: &mut O,
) -> Result<(), WriteFault>
    ensures { Wrote result O.tells (O.faults out.old) (O.faults out.new) (O.taken out.old) (O.taken out.new)
        (separator.now ++ arg_text vars.now arg.now) }
{
    match arg {
        CArg::Var(place) => {
            let variable = variable_words(vars, *place);
            write_words(&[separator, variable.0, variable.1], out)
        }
        CArg::Number(number) => {
            let mut digits = Buffer::new();
            write_words(&[separator, digits.format(*number).as_bytes()], out)
        }
        CArg::Text(text) => write_quoted(separator, text.as_str().as_bytes(), out),
        CArg::Global(name) => write_words(&[separator, b"CPyStatic_", name_word(name)], out),
        CArg::Class(name) => write_words(&[separator, b"CPyType_", name_word(name)], out),
    }
}
