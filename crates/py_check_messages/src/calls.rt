//! Calls.
ghost use Rattle.std.specs.Prelude.{◌≡◌, [], ◌∷◌, ◌++◌, map, IfOk};
ghost use Rattle.py_typed.specs.Sorts.{sort};
ghost use Rattle.py_typed.specs.Classes.{class_entry};
ghost use Rattle.py_typed.specs.TypeTexts as written;
ghost use Rattle.py_check_messages.specs.Seen.{diag};
ghost use Rattle.py_check_messages.specs.Messages as message;

use crate::say::{say, say_text, say_word};
use py_syntax::Span;
use py_syntax_diagnostics::Diag;
use py_typed::{Classes, Ty, type_text};
use std::alloc::Global;
use value_core::{Many, Memory};

/// An argument with a key.
#[tactic(auto, unfolding(crate::specs::Messages::keyword_argument))]
pub fn keyword_argument(alloc: Global, span: Span, faults: &mut Many<Diag>) -> Result<(), Memory>
    ensures { IfOk result (λ done. faults.new ≡ faults.old ++ diag span message.keyword_argument ∷ []) }
{
    say_text(
        alloc,
        span,
        "Keyword arguments are outside the profile",
        "profile",
        faults,
    )
}

/// A call of what is no function, method or class.
#[tactic(auto, unfolding(crate::specs::Messages::not_callable))]
pub fn not_callable(alloc: Global, span: Span, faults: &mut Many<Diag>) -> Result<(), Memory>
    ensures { IfOk result (λ done. faults.new ≡ faults.old ++ diag span message.not_callable ∷ []) }
{
    say_text(
        alloc,
        span,
        "Expression is not callable",
        "operator",
        faults,
    )
}

/// A call of a trait.
#[tactic(auto, unfolding(crate::specs::Messages::no_instance))]
pub fn no_instance(
    alloc: Global,
    span: Span,
    c: &str,
    faults: &mut Many<Diag>,
) -> Result<(), Memory>
    ensures { IfOk result (λ done. faults.new ≡ faults.old ++ diag span (message.no_instance c.now) ∷ []) }
{
    say_word(
        alloc,
        span,
        "Cannot instantiate trait \"",
        c,
        "\"",
        "misc",
        faults,
    )
}

/// `range` that is not the whole iterable of a `for`.
#[tactic(auto, unfolding(crate::specs::Messages::range_outside_for))]
pub fn range_outside_for(alloc: Global, span: Span, faults: &mut Many<Diag>) -> Result<(), Memory>
    ensures { IfOk result (λ done. faults.new ≡ faults.old ++ diag span message.range_outside_for ∷ []) }
{
    say_text(
        alloc,
        span,
        "\"range\" is only for loops",
        "profile",
        faults,
    )
}

/// Another number of arguments than is expected, which is a text: `1 or 2`.
pub fn wrong_number(
    alloc: Global,
    span: Span,
    f: &str,
    expected: &str,
    faults: &mut Many<Diag>,
) -> Result<(), Memory>
    ensures { IfOk result (λ done. faults.new ≡ faults.old ++ diag span (message.wrong_number f.now expected.now) ∷ []) }
{
    let text = format!(in alloc; "Wrong number of arguments for \"{f}\"; expected {expected}")?;
    say(alloc, span, text, "call-arg", faults)
}

/// An argument, counted from 1, that does not fit what is expected, which is a text: `printable`.
pub fn wrong_argument(
    alloc: Global,
    classes: &Classes,
    span: Span,
    n: usize,
    f: &str,
    s: &Ty,
    expected: &str,
    faults: &mut Many<Diag>,
) -> Result<(), Memory>
    ensures { IfOk result (λ done. faults.new ≡ faults.old ++ diag span (message.wrong_argument (map class_entry classes.now.list) n f.now (sort s.now) expected.now) ∷ []) }
{
    let s = type_text(alloc, s, classes)?;
    let text = format!(in alloc;
        "Argument {n} to \"{f}\" has incompatible type \"{s}\"; expected \"{expected}\""
    )?;
    say(alloc, span, text, "arg-type", faults)
}

/// The same where a type is expected.
pub fn wrong_argument_type(
    alloc: Global,
    classes: &Classes,
    span: Span,
    n: usize,
    f: &str,
    s: &Ty,
    expected: &Ty,
    faults: &mut Many<Diag>,
) -> Result<(), Memory>
    ensures { IfOk result (λ done. faults.new ≡ faults.old ++ diag span (message.wrong_argument (map class_entry classes.now.list) n f.now (sort s.now) (written.type_text (map class_entry classes.now.list) (sort expected.now))) ∷ []) }
{
    let expected = type_text(alloc, expected, classes)?;
    wrong_argument(alloc, classes, span, n, f, s, expected.as_str(), faults)
}

/// A call that gives no value where one is used.
#[tactic(auto, unfolding(crate::specs::Messages::gives_nothing))]
pub fn gives_nothing(
    alloc: Global,
    span: Span,
    f: &str,
    faults: &mut Many<Diag>,
) -> Result<(), Memory>
    ensures { IfOk result (λ done. faults.new ≡ faults.old ++ diag span (message.gives_nothing f.now) ∷ []) }
{
    say_word(
        alloc,
        span,
        "\"",
        f,
        "\" does not return a value (it only ever returns None)",
        "func-returns-value",
        faults,
    )
}
