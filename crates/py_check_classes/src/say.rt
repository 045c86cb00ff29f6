//! What is said of headers, and what names mean once they are known.
ghost use Rattle.std.specs.Prelude.{◌≡◌, ◌∷◌, ◌++◌, [], IfOk};
ghost use Rattle.std.specs.Option.{option_copied};
ghost use Rattle.py_check_messages.specs.Seen.{diag};
ghost use Rattle.py_check_classes.specs.Headers as spec;

use crate::header::{Header, HeaderFault};
use py_check_context::Meaning;
use py_check_messages::{already_defined, invalid_base, invalid_bases, no_order, outside_profile};
use py_syntax::Span;
use py_syntax_diagnostics::Diag;
use std::alloc::Global;
use value_core::{Many, Memory, Name};

/// Adds what is said of a class of this header, whose decorators and bases are typed.
pub fn add_header_said(
    alloc: Global,
    span: Span,
    name: &Name,
    header: &Header,
    faults: &mut Many<Diag>,
) -> Result<(), Memory>
    ensures { IfOk result (λ done. faults.new ≡ faults.old ++ spec.header_said span name.now header.now) }
{
    match header {
        Header::Typed(_) => Ok(()),
        Header::Untyped(class) => match class.fault {
            Some(fault) => add_fault(alloc, span, name, fault, faults),
            None => Ok(()),
        },
    }
}

fn add_fault(
    alloc: Global,
    span: Span,
    name: &Name,
    fault: HeaderFault,
    faults: &mut Many<Diag>,
) -> Result<(), Memory>
    ensures { IfOk result (λ done. faults.new ≡ faults.old ++ diag span (spec.fault_message name.now fault) ∷ []) }
{
    match fault {
        HeaderFault::AlreadyDefined => already_defined(alloc, span, name.as_str(), faults),
        HeaderFault::OutsideProfile => outside_profile(alloc, span, name.as_str(), faults),
        HeaderFault::InvalidBase => invalid_base(alloc, span, faults),
        HeaderFault::InvalidBases => invalid_bases(alloc, span, name.as_str(), faults),
        HeaderFault::NoOrder => no_order(alloc, span, name.as_str(), faults),
    }
}

/// What a name means once these headers are known: a class without a type is no class to typing.
pub fn typed_meaning(headers: &[Header], meaning: Meaning) -> Meaning
    ensures { result ≡ spec.typed_meaning headers.now meaning }
{
    match meaning {
        Meaning::Class(class) => {
            if has_type(headers.get(class)) {
                Meaning::Class(class)
            } else {
                Meaning::UntypedClass
            }
        }
        other => other,
    }
}

/// Whether a class of this header has a type.
pub fn has_type(header: Option<&Header>) -> bool
    ensures { result ≡ spec.has_type (option_copied header.entry) }
{
    match header {
        None => false,
        Some(Header::Typed(_)) => true,
        Some(Header::Untyped(_)) => false,
    }
}

/// Whether a class of this header is marked `trait` and has no type.
pub fn is_untyped_trait(header: Option<&Header>) -> bool
    ensures { result ≡ spec.is_untyped_trait (option_copied header.entry) }
{
    match header {
        None => false,
        Some(Header::Typed(_)) => false,
        Some(Header::Untyped(class)) => class.is_trait,
    }
}
