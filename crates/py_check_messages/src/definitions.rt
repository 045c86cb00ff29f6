//! Functions and classes.
ghost use Rattle.std.specs.Prelude.{◌≡◌, [], ◌∷◌, ◌++◌, IfOk};
ghost use Rattle.py_check_messages.specs.Seen.{diag};
ghost use Rattle.py_check_messages.specs.Messages as message;

use crate::say::{say, say_text, say_word};
use py_syntax::Span;
use py_syntax_diagnostics::Diag;
use std::alloc::Global;
use value_core::{Many, Memory};

/// A definition with a decorator, a name or an annotation that it may not have.
#[tactic(auto, unfolding(crate::specs::Messages::outside_profile))]
pub fn outside_profile(
    alloc: Global,
    span: Span,
    f: &str,
    faults: &mut Many<Diag>,
) -> Result<(), Memory>
    ensures { IfOk result (λ done. faults.new ≡ faults.old ++ diag span (message.outside_profile f.now) ∷ []) }
{
    say_word(
        alloc,
        span,
        "\"",
        f,
        "\" is outside the profile",
        "profile",
        faults,
    )
}

/// A method without parameters.
#[tactic(auto, unfolding(crate::specs::Messages::self_missing))]
pub fn self_missing(
    alloc: Global,
    span: Span,
    f: &str,
    faults: &mut Many<Diag>,
) -> Result<(), Memory>
    ensures { IfOk result (λ done. faults.new ≡ faults.old ++ diag span (message.self_missing f.now) ∷ []) }
{
    say_word(
        alloc,
        span,
        "Self argument missing for \"",
        f,
        "\"",
        "misc",
        faults,
    )
}

/// A second parameter of one name.
#[tactic(auto, unfolding(crate::specs::Messages::duplicate_parameter))]
pub fn duplicate_parameter(
    alloc: Global,
    span: Span,
    x: &str,
    faults: &mut Many<Diag>,
) -> Result<(), Memory>
    ensures { IfOk result (λ done. faults.new ≡ faults.old ++ diag span (message.duplicate_parameter x.now) ∷ []) }
{
    say_word(
        alloc,
        span,
        "Duplicate parameter \"",
        x,
        "\"",
        "misc",
        faults,
    )
}

/// A parameter or a return without annotation, or `__init__` with another than `None`.
#[tactic(auto, unfolding(crate::specs::Messages::missing_annotation))]
pub fn missing_annotation(alloc: Global, span: Span, faults: &mut Many<Diag>) -> Result<(), Memory>
    ensures { IfOk result (λ done. faults.new ≡ faults.old ++ diag span message.missing_annotation ∷ []) }
{
    say_text(
        alloc,
        span,
        "Function is missing a type annotation",
        "no-untyped-def",
        faults,
    )
}

/// A function with more than 100 names of its own.
#[tactic(auto, unfolding(crate::specs::Messages::too_many_names))]
pub fn too_many_names(
    alloc: Global,
    span: Span,
    f: &str,
    faults: &mut Many<Diag>,
) -> Result<(), Memory>
    ensures { IfOk result (λ done. faults.new ≡ faults.old ++ diag span (message.too_many_names f.now) ∷ []) }
{
    say_word(
        alloc,
        span,
        "Too many names in \"",
        f,
        "\"",
        "profile",
        faults,
    )
}

/// A body whose end can be reached where a value is due.
#[tactic(auto, unfolding(crate::specs::Messages::missing_return))]
pub fn missing_return(alloc: Global, span: Span, faults: &mut Many<Diag>) -> Result<(), Memory>
    ensures { IfOk result (λ done. faults.new ≡ faults.old ++ diag span message.missing_return ∷ []) }
{
    say_text(alloc, span, "Missing return statement", "return", faults)
}

/// A base that is no earlier class, or stands twice.
#[tactic(auto, unfolding(crate::specs::Messages::invalid_base))]
pub fn invalid_base(alloc: Global, span: Span, faults: &mut Many<Diag>) -> Result<(), Memory>
    ensures { IfOk result (λ done. faults.new ≡ faults.old ++ diag span message.invalid_base ∷ []) }
{
    say_text(alloc, span, "Invalid base class", "misc", faults)
}

/// Bases that break a rule on traits.
#[tactic(auto, unfolding(crate::specs::Messages::invalid_bases))]
pub fn invalid_bases(
    alloc: Global,
    span: Span,
    c: &str,
    faults: &mut Many<Diag>,
) -> Result<(), Memory>
    ensures { IfOk result (λ done. faults.new ≡ faults.old ++ diag span (message.invalid_bases c.now) ∷ []) }
{
    say_word(alloc, span, "Invalid bases for \"", c, "\"", "misc", faults)
}

/// A class without a method resolution order.
#[tactic(auto, unfolding(crate::specs::Messages::no_order))]
pub fn no_order(alloc: Global, span: Span, c: &str, faults: &mut Many<Diag>) -> Result<(), Memory>
    ensures { IfOk result (λ done. faults.new ≡ faults.old ++ diag span (message.no_order c.now) ∷ []) }
{
    say_word(
        alloc,
        span,
        "Cannot determine consistent method resolution order (MRO) for \"",
        c,
        "\"",
        "misc",
        faults,
    )
}

/// A member with another signature or type than in a class above.
pub fn wrong_override(
    alloc: Global,
    span: Span,
    m: &str,
    b: &str,
    faults: &mut Many<Diag>,
) -> Result<(), Memory>
    ensures { IfOk result (λ done. faults.new ≡ faults.old ++ diag span (message.wrong_override m.now b.now) ∷ []) }
{
    let text = format!(in alloc; "Signature of \"{m}\" incompatible with supertype \"{b}\"")?;
    say(alloc, span, text, "override", faults)
}

/// A statement in the body of a class that has no place there.
#[tactic(auto, unfolding(crate::specs::Messages::outside_class_body))]
pub fn outside_class_body(alloc: Global, span: Span, faults: &mut Many<Diag>) -> Result<(), Memory>
    ensures { IfOk result (λ done. faults.new ≡ faults.old ++ diag span message.outside_class_body ∷ []) }
{
    say_text(
        alloc,
        span,
        "Statement is outside the profile in a class body",
        "profile",
        faults,
    )
}
