//! Statements and annotations.
ghost use Rattle.std.specs.Prelude.{◌≡◌, [], ◌∷◌, ◌++◌, map, IfOk};
ghost use Rattle.py_typed.specs.Sorts.{sort};
ghost use Rattle.py_typed.specs.Classes.{class_entry};
ghost use Rattle.py_check_messages.specs.Seen.{diag};
ghost use Rattle.py_check_messages.specs.Messages as message;

use crate::say::{say, say_text, say_type, say_word};
use py_syntax::Span;
use py_syntax_diagnostics::Diag;
use py_typed::{Classes, Ty, type_text};
use std::alloc::Global;
use value_core::{Many, Memory};

/// An annotation that is no type, or `None` where it may not stand.
#[tactic(auto, unfolding(crate::specs::Messages::invalid_type))]
pub fn invalid_type(alloc: Global, span: Span, faults: &mut Many<Diag>) -> Result<(), Memory>
    ensures { IfOk result (λ done. faults.new ≡ faults.old ++ diag span message.invalid_type ∷ []) }
{
    say_text(alloc, span, "Invalid type", "valid-type", faults)
}

/// A target that is neither a name, an attribute, an item, nor a row of such.
#[tactic(auto, unfolding(crate::specs::Messages::no_target))]
pub fn no_target(alloc: Global, span: Span, faults: &mut Many<Diag>) -> Result<(), Memory>
    ensures { IfOk result (λ done. faults.new ≡ faults.old ++ diag span message.no_target ∷ []) }
{
    say_text(
        alloc,
        span,
        "Cannot assign to this expression",
        "misc",
        faults,
    )
}

/// A target that is the name of a function, a class, an import or a builtin.
#[tactic(auto, unfolding(crate::specs::Messages::cannot_assign))]
pub fn cannot_assign(
    alloc: Global,
    span: Span,
    x: &str,
    faults: &mut Many<Diag>,
) -> Result<(), Memory>
    ensures { IfOk result (λ done. faults.new ≡ faults.old ++ diag span (message.cannot_assign x.now) ∷ []) }
{
    say_word(alloc, span, "Cannot assign to \"", x, "\"", "misc", faults)
}

/// A name that is defined, declared or bound before.
#[tactic(auto, unfolding(crate::specs::Messages::already_defined))]
pub fn already_defined(
    alloc: Global,
    span: Span,
    x: &str,
    faults: &mut Many<Diag>,
) -> Result<(), Memory>
    ensures { IfOk result (λ done. faults.new ≡ faults.old ++ diag span (message.already_defined x.now) ∷ []) }
{
    say_word(
        alloc,
        span,
        "Name \"",
        x,
        "\" already defined",
        "no-redef",
        faults,
    )
}

/// An assignment to an item of what is no list and no dict.
#[tactic(auto, unfolding(crate::specs::Messages::index_target))]
pub fn index_target(
    alloc: Global,
    classes: &Classes,
    span: Span,
    s: &Ty,
    faults: &mut Many<Diag>,
) -> Result<(), Memory>
    ensures { IfOk result (λ done. faults.new ≡ faults.old ++ diag span (message.index_target (map class_entry classes.now.list) (sort s.now)) ∷ []) }
{
    say_type(
        alloc,
        classes,
        span,
        "Unsupported target for indexed assignment (\"",
        s,
        "\")",
        "index",
        faults,
    )
}

/// A value that is no tuple of as many items as there are targets.
pub fn cannot_unpack(
    alloc: Global,
    classes: &Classes,
    span: Span,
    s: &Ty,
    n: usize,
    faults: &mut Many<Diag>,
) -> Result<(), Memory>
    ensures { IfOk result (λ done. faults.new ≡ faults.old ++ diag span (message.cannot_unpack (map class_entry classes.now.list) (sort s.now) n) ∷ []) }
{
    let s = type_text(alloc, s, classes)?;
    let text = format!(in alloc; "Cannot unpack \"{s}\" into {n} targets")?;
    say(alloc, span, text, "misc", faults)
}

/// A first assignment that gives `None`.
#[tactic(auto, unfolding(crate::specs::Messages::needs_annotation))]
pub fn needs_annotation(
    alloc: Global,
    span: Span,
    x: &str,
    faults: &mut Many<Diag>,
) -> Result<(), Memory>
    ensures { IfOk result (λ done. faults.new ≡ faults.old ++ diag span (message.needs_annotation x.now) ∷ []) }
{
    say_word(
        alloc,
        span,
        "Need type annotation for \"",
        x,
        "\"",
        "var-annotated",
        faults,
    )
}

/// A value that does not fit its target.
pub fn wrong_assignment(
    alloc: Global,
    classes: &Classes,
    span: Span,
    s: &Ty,
    t: &Ty,
    faults: &mut Many<Diag>,
) -> Result<(), Memory>
    ensures { IfOk result (λ done. faults.new ≡ faults.old ++ diag span (message.wrong_assignment (map class_entry classes.now.list) (sort s.now) (sort t.now)) ∷ []) }
{
    let s = type_text(alloc, s, classes)?;
    let t = type_text(alloc, t, classes)?;
    let text = format!(in alloc;
        "Incompatible types in assignment (expression has type \"{s}\", variable has type \"{t}\")"
    )?;
    say(alloc, span, text, "assignment", faults)
}

/// A deletion of what is no entry of a dict.
#[tactic(auto, unfolding(crate::specs::Messages::only_entries))]
pub fn only_entries(alloc: Global, span: Span, faults: &mut Many<Diag>) -> Result<(), Memory>
    ensures { IfOk result (λ done. faults.new ≡ faults.old ++ diag span message.only_entries ∷ []) }
{
    say_text(
        alloc,
        span,
        "Only dict entries can be deleted",
        "profile",
        faults,
    )
}

/// A loop over what is no range, list or dict.
#[tactic(auto, unfolding(crate::specs::Messages::not_iterable))]
pub fn not_iterable(
    alloc: Global,
    classes: &Classes,
    span: Span,
    s: &Ty,
    faults: &mut Many<Diag>,
) -> Result<(), Memory>
    ensures { IfOk result (λ done. faults.new ≡ faults.old ++ diag span (message.not_iterable (map class_entry classes.now.list) (sort s.now)) ∷ []) }
{
    say_type(
        alloc,
        classes,
        span,
        "\"",
        s,
        "\" is not iterable in this profile",
        "misc",
        faults,
    )
}

/// A handler for what is no exception class and no tuple of these.
#[tactic(auto, unfolding(crate::specs::Messages::no_exception_class))]
pub fn no_exception_class(alloc: Global, span: Span, faults: &mut Many<Diag>) -> Result<(), Memory>
    ensures { IfOk result (λ done. faults.new ≡ faults.old ++ diag span message.no_exception_class ∷ []) }
{
    say_text(
        alloc,
        span,
        "Exception type must be a known exception class",
        "misc",
        faults,
    )
}

/// A bare handler before another one.
#[tactic(auto, unfolding(crate::specs::Messages::bare_except))]
pub fn bare_except(alloc: Global, span: Span, faults: &mut Many<Diag>) -> Result<(), Memory>
    ensures { IfOk result (λ done. faults.new ≡ faults.old ++ diag span message.bare_except ∷ []) }
{
    say_text(alloc, span, "Bare except must be last", "misc", faults)
}

/// A `raise` of what is no exception.
#[tactic(auto, unfolding(crate::specs::Messages::no_exception))]
pub fn no_exception(alloc: Global, span: Span, faults: &mut Many<Diag>) -> Result<(), Memory>
    ensures { IfOk result (λ done. faults.new ≡ faults.old ++ diag span message.no_exception ∷ []) }
{
    say_text(
        alloc,
        span,
        "Exception must be a known exception",
        "misc",
        faults,
    )
}

/// A bare `raise` in no handler.
#[tactic(auto, unfolding(crate::specs::Messages::raise_outside))]
pub fn raise_outside(alloc: Global, span: Span, faults: &mut Many<Diag>) -> Result<(), Memory>
    ensures { IfOk result (λ done. faults.new ≡ faults.old ++ diag span message.raise_outside ∷ []) }
{
    say_text(
        alloc,
        span,
        "\"raise\" outside an except clause",
        "misc",
        faults,
    )
}

/// A `return` in no function.
#[tactic(auto, unfolding(crate::specs::Messages::return_outside))]
pub fn return_outside(alloc: Global, span: Span, faults: &mut Many<Diag>) -> Result<(), Memory>
    ensures { IfOk result (λ done. faults.new ≡ faults.old ++ diag span message.return_outside ∷ []) }
{
    say_text(alloc, span, "\"return\" outside function", "misc", faults)
}

/// A `return` without a value where one is due.
#[tactic(auto, unfolding(crate::specs::Messages::return_expected))]
pub fn return_expected(alloc: Global, span: Span, faults: &mut Many<Diag>) -> Result<(), Memory>
    ensures { IfOk result (λ done. faults.new ≡ faults.old ++ diag span message.return_expected ∷ []) }
{
    say_text(alloc, span, "Return value expected", "return-value", faults)
}

/// A `return` of a value where none is due.
#[tactic(auto, unfolding(crate::specs::Messages::no_return_expected))]
pub fn no_return_expected(alloc: Global, span: Span, faults: &mut Many<Diag>) -> Result<(), Memory>
    ensures { IfOk result (λ done. faults.new ≡ faults.old ++ diag span message.no_return_expected ∷ []) }
{
    say_text(
        alloc,
        span,
        "No return value expected",
        "return-value",
        faults,
    )
}

/// A returned value that does not fit the return type.
pub fn wrong_return(
    alloc: Global,
    classes: &Classes,
    span: Span,
    s: &Ty,
    t: &Ty,
    faults: &mut Many<Diag>,
) -> Result<(), Memory>
    ensures { IfOk result (λ done. faults.new ≡ faults.old ++ diag span (message.wrong_return (map class_entry classes.now.list) (sort s.now) (sort t.now)) ∷ []) }
{
    let s = type_text(alloc, s, classes)?;
    let t = type_text(alloc, t, classes)?;
    let text = format!(in alloc; "Incompatible return value type (got \"{s}\", expected \"{t}\")")?;
    say(alloc, span, text, "return-value", faults)
}

/// A `break` or `continue` in no loop.
#[tactic(auto, unfolding(crate::specs::Messages::outside_loop))]
pub fn outside_loop(
    alloc: Global,
    span: Span,
    word: &str,
    faults: &mut Many<Diag>,
) -> Result<(), Memory>
    ensures { IfOk result (λ done. faults.new ≡ faults.old ++ diag span (message.outside_loop word.now) ∷ []) }
{
    say_word(alloc, span, "\"", word, "\" outside loop", "misc", faults)
}

/// A name listed as global that is a parameter, or seen before in its function.
#[tactic(auto, unfolding(crate::specs::Messages::invalid_global))]
pub fn invalid_global(
    alloc: Global,
    span: Span,
    x: &str,
    faults: &mut Many<Diag>,
) -> Result<(), Memory>
    ensures { IfOk result (λ done. faults.new ≡ faults.old ++ diag span (message.invalid_global x.now) ∷ []) }
{
    say_word(
        alloc,
        span,
        "Invalid global declaration of \"",
        x,
        "\"",
        "misc",
        faults,
    )
}

/// An import of another form than those that are known, or in a function.
#[tactic(auto, unfolding(crate::specs::Messages::outside_import))]
pub fn outside_import(alloc: Global, span: Span, faults: &mut Many<Diag>) -> Result<(), Memory>
    ensures { IfOk result (λ done. faults.new ≡ faults.old ++ diag span message.outside_import ∷ []) }
{
    say_text(
        alloc,
        span,
        "Import is outside the profile",
        "import",
        faults,
    )
}
