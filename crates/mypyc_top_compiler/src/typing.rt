//! The front half of a compilation: from the bytes of a file to its typed module, or to all that is wrong with it.
ghost use Rattle.std.specs.Prelude.{◌≡◌, true, IfOk};
ghost use Rattle.py_syntax.specs.Statements.{module_tree};
ghost use Rattle.py_typed.specs.Statements.{typed_module};
ghost use Rattle.ir_builder_supported.specs.Statements.{uncompiled_form};
ghost use Rattle.ir_builder_statements.specs.Modules.{ModuleSuits};
ghost use Rattle.mypyc_top_compiler.specs.Types.{types_said, typed_tree};
ghost use Rattle.mypyc_top_compiler.specs.Source.{IsTyped};
ghost use Rattle.mypyc_top_compiler.specs.Faults.{compiles, unbuilt_at, of_compiling, told, AreFaults};
ghost use Rattle.mypyc_top_compiler.specs.Found.{Tells, Judges};

use crate::faults::Faults;
use ir_builder_forms::Unbuilt;
use ir_builder_supported::uncompiled_form;
use mypyc_top_words::Emit;
use py_binder::bind;
use py_check::{CheckError, check};
use py_check_source_laws::quiet_files_are_well_typed;
use py_parser_source::{SourceError, read_module};
use py_syntax::Module;
use py_typed::Checked;
use std::alloc::Global;
use value_core::Memory;

/// Why a file gives no typed module.
#[derive(Drop)]
pub enum ModuleError {
    /// This is wrong with it.
    Faulty(Faults),
    /// There is no memory.
    Memory,
}

impl From<Memory> for ModuleError {
    ghost use Rattle.std.specs.Prelude.{◌≡◌};
    ghost use Rattle.mypyc_top_compiler.specs.declared.typing.ModuleError.TheVariants as errors;

    ghost from_gives = { λ _ e. e ≡ errors.Memory };

    fn from(_refused: Memory) -> ModuleError {
        ModuleError::Memory
    }
}

/// The typed module of a file, or all that is wrong with it in this mode.
#[tactic(auto, using(crate::proofs::FaultLemmas::source_judged, crate::proofs::FaultLemmas::file_judged, crate::proofs::FaultLemmas::file_typed))]
pub fn read_typed(alloc: Global, mode: Emit, bytes: &[u8]) -> Result<Checked, ModuleError>
    ensures typed { IfOk result (λ checked. IsTyped bytes.now (typed_module checked)) }
    ensures judged { Judges (AreFaults mode bytes.now) result }
    ensures suits { IfOk result (λ checked. compiles mode ≡ true → ModuleSuits (typed_module checked)) }
{
    match read_module(alloc, bytes) {
        Ok(parsed) => {
            quiet_files_are_well_typed();
            typed_of(alloc, mode, &parsed)
        }
        Err(SourceError::Faulty(fault)) => Err(ModuleError::Faulty(Faults::OfSource(fault))),
        Err(SourceError::Memory) => Err(ModuleError::Memory),
    }
}

/// The typed module of a tree, or all that is wrong with it in this mode: its names and types, or else the first form that cannot
/// be compiled.
#[tactic(auto, using(crate::proofs::FaultLemmas::types_tell, crate::proofs::FaultLemmas::all_compiled))]
fn typed_of(alloc: Global, mode: Emit, parsed: &Module) -> Result<Checked, ModuleError>
    ensures typed { IfOk result (λ checked. typed_module checked ≡ typed_tree (module_tree parsed.now)) }
    ensures tells { Tells (told mode (module_tree parsed.now)) result }
{
    let checked = types_of(alloc, parsed)?;
    match form_not_compiled(alloc, mode, parsed, &checked)? {
        None => Ok(checked),
        Some(unbuilt) => Err(ModuleError::Faulty(Faults::Unbuilt(unbuilt))),
    }
}

/// What is not compiled, where this mode compiles.
fn form_not_compiled(
    alloc: Global,
    mode: Emit,
    parsed: &Module,
    checked: &Checked,
) -> Result<Option<Unbuilt>, Memory>
    ensures { IfOk result (λ found. unbuilt_at found
        ≡ of_compiling mode (uncompiled_form (module_tree parsed.now) (typed_module checked.now))) }
{
    if compiles(mode) {
        uncompiled_form(alloc, parsed, checked)
    } else {
        Ok(None)
    }
}

/// Whether a module is compiled in this mode.
fn compiles(mode: Emit) -> bool
    ensures { result ≡ compiles mode }
{
    match mode {
        Emit::C | Emit::Run => true,
        Emit::Check | Emit::Runc => false,
    }
}

/// The typed module of a tree, or what is wrong with its names and types.
#[tactic(auto, using(crate::proofs::TypeLemmas::checked_typed, crate::proofs::TypeLemmas::checked_tells, crate::proofs::TypeLemmas::diags_told, crate::proofs::TypeLemmas::diags_are_some))]
fn types_of(alloc: Global, parsed: &Module) -> Result<Checked, ModuleError>
    ensures typed { IfOk result (λ checked. typed_module checked ≡ typed_tree (module_tree parsed.now)) }
    ensures tells { Tells (types_said (module_tree parsed.now)) result }
{
    let scopes = bind(alloc, parsed)?;
    match check(alloc, parsed, &scopes) {
        Ok(checked) => Ok(checked),
        Err(CheckError::Diags(diags)) => Err(ModuleError::Faulty(Faults::OfTypes(diags))),
        Err(CheckError::Memory) => Err(ModuleError::Memory),
    }
}
