//! All that is wrong with a file, and the lines that say so.
ghost use Rattle.std.specs.Prelude.{◌≡◌, ◌++◌, map, string_bytes, IfOk};
ghost use Rattle.py_parser_source.specs.Sayings.{entry_of};
ghost use Rattle.mypyc_top_compiler.specs.Types.{entry_at};
ghost use Rattle.mypyc_top_compiler.specs.Faults.{unbuilt_entry};
ghost use Rattle.mypyc_top_compiler.specs.Diagnostics.{entry_text, errors_word, found_text, entries_text, note_text, notes_text};
ghost use Rattle.mypyc_top_compiler.specs.Found.{entries_of};

use ir_builder_forms::Unbuilt;
use py_parser_source::SourceFault;
use py_syntax_diagnostics::Diag;
use std::alloc::Global;
use value_core::{Many, Memory};

/// All that is wrong with a file. Only types can be wrong at several places.
#[derive(Drop)]
pub enum Faults {
    /// It is no module.
    OfSource(SourceFault),
    /// This form is not compiled.
    Unbuilt(Unbuilt),
    /// What is wrong with its names and types, by place.
    OfTypes(Many<Diag>),
}

/// The lines that tell of what is wrong with a file: one for each entry, and how many there are.
pub fn lines_of(alloc: Global, file: &str, faults: &Faults) -> Result<Vec<u8>, Memory>
    ensures { IfOk result (λ text. text.items ≡ entries_text file.now (entries_of faults.now)) }
{
    match faults {
        Faults::OfSource(fault) => {
            let line = source_line(alloc, file, fault)?;
            only_line(alloc, line.as_str())
        }
        Faults::Unbuilt(unbuilt) => {
            let line = unbuilt_line(alloc, file, *unbuilt)?;
            only_line(alloc, line.as_str())
        }
        Faults::OfTypes(diags) => lines_of_types(alloc, file, diags.as_slice()),
    }
}

/// The lines on errors that tell of what is wrong with a file: a form that is not compiled is named.
#[tactic(auto, using(crate::proofs::NoteLemmas::no_notes))]
pub fn notes_of(alloc: Global, file: &str, faults: &Faults) -> Result<Vec<u8>, Memory>
    ensures { IfOk result (λ text. text.items ≡ notes_text file.now (entries_of faults.now)) }
{
    match faults {
        Faults::OfSource(_) => Ok(Vec::new(alloc)),
        Faults::Unbuilt(unbuilt) => {
            let note = unbuilt_note(alloc, file, *unbuilt)?;
            Ok(Vec::from_slice(alloc, note.as_bytes())?)
        }
        Faults::OfTypes(_) => Ok(Vec::new(alloc)),
    }
}

/// A line and how many there are.
fn only_line(alloc: Global, line: &str) -> Result<Vec<u8>, Memory>
    ensures { IfOk result (λ text. text.items ≡ line.now ++ found_text 1) }
{
    let mut text = Vec::from_slice(alloc, line.as_bytes())?;
    let found = count_line(alloc, 1)?;
    text.extend_from_slice(found.as_bytes())?;
    Ok(text)
}

fn lines_of_types(alloc: Global, file: &str, diags: &[Diag]) -> Result<Vec<u8>, Memory>
    ensures { IfOk result (λ text. text.items ≡ entries_text file.now (map entry_at diags.now)) }
{
    let mut text = Vec::new(alloc);
    for diag in diags {
        let line = diag_line(alloc, file, diag)?;
        text.extend_from_slice(line.as_bytes())?;
    }
    let found = count_line(alloc, diags.len())?;
    text.extend_from_slice(found.as_bytes())?;
    Ok(text)
}

fn source_line(alloc: Global, file: &str, fault: &SourceFault) -> Result<String, Memory>
    ensures { IfOk result (λ line. string_bytes line ≡ entry_text file.now (entry_of fault.now)) }
{
    let SourceFault { line, kind } = *fault;
    let code = kind.code();
    Ok(format!(in alloc; "{file}:{line}: error: {kind}  [{code}]\n")?)
}

fn unbuilt_line(alloc: Global, file: &str, unbuilt: Unbuilt) -> Result<String, Memory>
    ensures { IfOk result (λ text. string_bytes text ≡ entry_text file.now (unbuilt_entry unbuilt)) }
{
    let line = unbuilt.line;
    Ok(format!(in alloc; "{file}:{line}: error: Form is not built yet  [unbuilt]\n")?)
}

fn unbuilt_note(alloc: Global, file: &str, unbuilt: Unbuilt) -> Result<String, Memory>
    ensures { IfOk result (λ text. string_bytes text ≡ note_text file.now (unbuilt_entry unbuilt)) }
{
    let Unbuilt { line, form } = unbuilt;
    Ok(format!(in alloc; "mypyc: {file}:{line}: not built yet: {form}\n")?)
}

fn diag_line(alloc: Global, file: &str, diag: &Diag) -> Result<String, Memory>
    ensures { IfOk result (λ line. string_bytes line ≡ entry_text file.now (entry_at diag.now)) }
{
    let line = diag.span.line;
    let text = diag.text.as_str();
    let code = diag.code.as_str();
    Ok(format!(in alloc; "{file}:{line}: error: {text}  [{code}]\n")?)
}

fn count_line(alloc: Global, count: usize) -> Result<String, Memory>
    ensures { IfOk result (λ line. string_bytes line ≡ found_text count) }
{
    let errors = errors_word(count);
    Ok(format!(in alloc; "Found {count} {errors} in 1 file (checked 1 source file)\n")?)
}

fn errors_word(count: usize) -> &'static str
    ensures { result.now ≡ errors_word count }
{
    if count == 1 { "error" } else { "errors" }
}
