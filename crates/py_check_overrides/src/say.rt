//! What is said of a class that fails.
ghost use Rattle.std.specs.Prelude.{◌≡◌, ◌++◌, map, slice_get, IfOk};
ghost use Rattle.std.specs.Option.{option_map, option_copied};
ghost use Rattle.py_typed.specs.Classes.{class_entry};
ghost use Rattle.py_check_overrides.specs.Overrides as spec;
ghost use Rattle.py_check_overrides.specs.Views as view;

use crate::verdict::Verdict;
use py_check_messages::wrong_override;
use py_syntax::Span;
use py_syntax_diagnostics::Diag;
use py_typed::ClassInfo;
use std::alloc::Global;
use value_core::{Many, Memory};

/// Adds what is said of a class of this verdict, among these classes by their numbers.
///
/// # Errors
///
/// `Memory` alone.
pub fn add_override_said(
    alloc: Global,
    classes: &[ClassInfo],
    span: Span,
    verdict: Option<&Verdict<'_>>,
    faults: &mut Many<Diag>,
) -> Result<(), Memory>
    ensures { IfOk result (λ done. faults.new ≡ faults.old ++ spec.override_said (map class_entry classes.now) span (option_map view.verdict (option_copied verdict.entry))) }
{
    match verdict {
        Some(Verdict::Fails(clash)) => {
            let base = name_of(classes, clash.class);
            wrong_override(alloc, span, clash.name.as_str(), base, faults)
        }
        Some(Verdict::Passes) => Ok(()),
        Some(Verdict::Silent) => Ok(()),
        None => Ok(()),
    }
}

/// The name of the class of a number: empty where there is no such class.
#[tactic(auto, using(py_typed::proofs::TypeLemmas::entry_found))]
fn name_of(classes: &[ClassInfo], class: usize) -> &str
    ensures { result.now ≡ spec.name_of (slice_get (map class_entry classes.now) class) }
{
    match classes.get(class) {
        Some(class) => class.name.as_str(),
        None => "",
    }
}
