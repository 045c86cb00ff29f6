//! Expressions.
ghost use Rattle.std.specs.Prelude.{◌≡◌, [], ◌∷◌, ◌++◌, map, IfOk};
ghost use Rattle.std.specs.String.{string_bytes};
ghost use Rattle.py_typed.specs.Sorts.{sort};
ghost use Rattle.py_typed.specs.Classes.{class_entry};
ghost use Rattle.py_check_messages.specs.Seen.{diag};
ghost use Rattle.py_check_messages.specs.Messages as message;

use crate::say::{say, say_text, say_type, say_word};
use py_syntax::Span;
use py_syntax_diagnostics::Diag;
use py_typed::{Classes, Ty, type_text};
use std::alloc::Global;
use value_core::{Many, Memory};

/// A name that is not known.
#[tactic(auto, unfolding(crate::specs::Messages::not_defined))]
pub fn not_defined(
    alloc: Global,
    span: Span,
    x: &str,
    faults: &mut Many<Diag>,
) -> Result<(), Memory>
    ensures { IfOk result (λ done. faults.new ≡ faults.old ++ diag span (message.not_defined x.now) ∷ []) }
{
    say_word(
        alloc,
        span,
        "Name \"",
        x,
        "\" is not defined",
        "name-defined",
        faults,
    )
}

/// A name of no variable, or of a method, where a value is asked for.
#[tactic(auto, unfolding(crate::specs::Messages::not_a_value))]
pub fn not_a_value(
    alloc: Global,
    span: Span,
    x: &str,
    faults: &mut Many<Diag>,
) -> Result<(), Memory>
    ensures { IfOk result (λ done. faults.new ≡ faults.old ++ diag span (message.not_a_value x.now) ∷ []) }
{
    say_word(
        alloc,
        span,
        "\"",
        x,
        "\" cannot be used as a value",
        "profile",
        faults,
    )
}

/// A variable that is read before its first assignment gave it a type.
#[tactic(auto, unfolding(crate::specs::Messages::no_type_yet))]
pub fn no_type_yet(
    alloc: Global,
    span: Span,
    x: &str,
    faults: &mut Many<Diag>,
) -> Result<(), Memory>
    ensures { IfOk result (λ done. faults.new ≡ faults.old ++ diag span (message.no_type_yet x.now) ∷ []) }
{
    say_word(
        alloc,
        span,
        "Cannot determine type of \"",
        x,
        "\"",
        "has-type",
        faults,
    )
}

/// A sign before what is no number.
pub fn unsupported_operand(
    alloc: Global,
    classes: &Classes,
    span: Span,
    sign: &str,
    s: &Ty,
    faults: &mut Many<Diag>,
) -> Result<(), Memory>
    ensures { IfOk result (λ done. faults.new ≡ faults.old ++ diag span (message.unsupported_operand (map class_entry classes.now.list) sign.now (sort s.now)) ∷ []) }
{
    let s = type_text(alloc, s, classes)?;
    let text = format!(in alloc; "Unsupported operand type for unary {sign} (\"{s}\")")?;
    say(alloc, span, text, "operator", faults)
}

/// Operands that an operator or a comparison does not take.
pub fn unsupported_operands(
    alloc: Global,
    classes: &Classes,
    span: Span,
    op: &str,
    s: &Ty,
    t: &Ty,
    faults: &mut Many<Diag>,
) -> Result<(), Memory>
    ensures { IfOk result (λ done. faults.new ≡ faults.old ++ diag span (message.unsupported_operands (map class_entry classes.now.list) op.now (sort s.now) (sort t.now)) ∷ []) }
{
    let s = type_text(alloc, s, classes)?;
    let t = type_text(alloc, t, classes)?;
    let text = format!(in alloc; "Unsupported operand types for {op} (\"{s}\" and \"{t}\")")?;
    say(alloc, span, text, "operator", faults)
}

/// An identity test against what is not the literal `None`.
#[tactic(auto, unfolding(crate::specs::Messages::only_for_none))]
pub fn only_for_none(alloc: Global, span: Span, faults: &mut Many<Diag>) -> Result<(), Memory>
    ensures { IfOk result (λ done. faults.new ≡ faults.old ++ diag span message.only_for_none ∷ []) }
{
    say_text(alloc, span, "\"is\" is only for None", "profile", faults)
}

/// Operands of `and`, `or` or `if` without a join.
pub fn no_common_type(
    alloc: Global,
    classes: &Classes,
    span: Span,
    word: &str,
    s: &Ty,
    t: &Ty,
    faults: &mut Many<Diag>,
) -> Result<(), Memory>
    ensures { IfOk result (λ done. faults.new ≡ faults.old ++ diag span (message.no_common_type (map class_entry classes.now.list) word.now (sort s.now) (sort t.now)) ∷ []) }
{
    let s = type_text(alloc, s, classes)?;
    let t = type_text(alloc, t, classes)?;
    let text = format!(in alloc;
        "Operands of \"{word}\" have no common type (\"{s}\" and \"{t}\")"
    )?;
    say(alloc, span, text, "misc", faults)
}

/// An item, counted from 0, that does not fit the type that a list is to have.
pub fn wrong_item(
    alloc: Global,
    classes: &Classes,
    span: Span,
    n: usize,
    s: &Ty,
    t: &Ty,
    faults: &mut Many<Diag>,
) -> Result<(), Memory>
    ensures { IfOk result (λ done. faults.new ≡ faults.old ++ diag span (message.wrong_item (map class_entry classes.now.list) n (sort s.now) (sort t.now)) ∷ []) }
{
    let s = type_text(alloc, s, classes)?;
    let t = type_text(alloc, t, classes)?;
    let text = format!(in alloc; "List item {n} has incompatible type \"{s}\"; expected \"{t}\"")?;
    say(alloc, span, text, "list-item", faults)
}

/// An empty list or dict where no type is expected.
#[tactic(auto, unfolding(crate::specs::Messages::empty_display))]
pub fn empty_display(alloc: Global, span: Span, faults: &mut Many<Diag>) -> Result<(), Memory>
    ensures { IfOk result (λ done. faults.new ≡ faults.old ++ diag span message.empty_display ∷ []) }
{
    say_text(
        alloc,
        span,
        "Need a type for an empty display",
        "var-annotated",
        faults,
    )
}

/// Items of a list without a join.
#[tactic(auto, unfolding(crate::specs::Messages::no_common_item))]
pub fn no_common_item(alloc: Global, span: Span, faults: &mut Many<Diag>) -> Result<(), Memory>
    ensures { IfOk result (λ done. faults.new ≡ faults.old ++ diag span message.no_common_item ∷ []) }
{
    say_text(
        alloc,
        span,
        "List items have no common type",
        "misc",
        faults,
    )
}

/// An entry, counted from 0, of a key and a value that do not both fit what a dict is to have.
pub fn wrong_entry(
    alloc: Global,
    classes: &Classes,
    span: Span,
    n: usize,
    j: &Ty,
    s: &Ty,
    k: &Ty,
    t: &Ty,
    faults: &mut Many<Diag>,
) -> Result<(), Memory>
    ensures { IfOk result (λ done. faults.new ≡ faults.old ++ diag span (message.wrong_entry (map class_entry classes.now.list) n (sort j.now) (sort s.now) (sort k.now) (sort t.now)) ∷ []) }
{
    let found = entry_text(alloc, classes, j, s)?;
    let wanted = entry_text(alloc, classes, k, t)?;
    let text = format!(in alloc;
        "Dict entry {n} has incompatible type {found}; expected {wanted}"
    )?;
    say(alloc, span, text, "dict-item", faults)
}

/// The types of a key and a value, each in quotes.
#[tactic(auto, unfolding(crate::specs::Messages::entry_text))]
fn entry_text(alloc: Global, classes: &Classes, k: &Ty, t: &Ty) -> Result<String, Memory>
    ensures { IfOk result (λ text. string_bytes text ≡ message.entry_text (map class_entry classes.now.list) (sort k.now) (sort t.now)) }
{
    let k = type_text(alloc, k, classes)?;
    let t = type_text(alloc, t, classes)?;
    Ok(format!(in alloc; "\"{k}\": \"{t}\"")?)
}

/// Keys or values of a dict without a join.
#[tactic(auto, unfolding(crate::specs::Messages::no_common_entry))]
pub fn no_common_entry(alloc: Global, span: Span, faults: &mut Many<Diag>) -> Result<(), Memory>
    ensures { IfOk result (λ done. faults.new ≡ faults.old ++ diag span message.no_common_entry ∷ []) }
{
    say_text(
        alloc,
        span,
        "Dict entries have no common type",
        "misc",
        faults,
    )
}

/// A tuple of no items, of over 16, or with an item `None`.
#[tactic(auto, unfolding(crate::specs::Messages::invalid_tuple))]
pub fn invalid_tuple(alloc: Global, span: Span, faults: &mut Many<Diag>) -> Result<(), Memory>
    ensures { IfOk result (λ done. faults.new ≡ faults.old ++ diag span message.invalid_tuple ∷ []) }
{
    say_text(alloc, span, "Invalid tuple", "misc", faults)
}

/// An attribute of an Optional whose class has it.
pub fn none_has_no_attribute(
    alloc: Global,
    classes: &Classes,
    span: Span,
    s: &Ty,
    a: &str,
    faults: &mut Many<Diag>,
) -> Result<(), Memory>
    ensures { IfOk result (λ done. faults.new ≡ faults.old ++ diag span (message.none_has_no_attribute (map class_entry classes.now.list) (sort s.now) a.now) ∷ []) }
{
    let s = type_text(alloc, s, classes)?;
    let text = format!(in alloc; "Item \"None\" of \"{s}\" has no attribute \"{a}\"")?;
    say(alloc, span, text, "union-attr", faults)
}

/// An attribute that a type does not have.
pub fn no_attribute(
    alloc: Global,
    classes: &Classes,
    span: Span,
    s: &Ty,
    a: &str,
    faults: &mut Many<Diag>,
) -> Result<(), Memory>
    ensures { IfOk result (λ done. faults.new ≡ faults.old ++ diag span (message.no_attribute (map class_entry classes.now.list) (sort s.now) a.now) ∷ []) }
{
    let s = type_text(alloc, s, classes)?;
    let text = format!(in alloc; "\"{s}\" has no attribute \"{a}\"")?;
    say(alloc, span, text, "attr-defined", faults)
}

/// An index of what has no items.
#[tactic(auto, unfolding(crate::specs::Messages::not_indexable))]
pub fn not_indexable(
    alloc: Global,
    classes: &Classes,
    span: Span,
    s: &Ty,
    faults: &mut Many<Diag>,
) -> Result<(), Memory>
    ensures { IfOk result (λ done. faults.new ≡ faults.old ++ diag span (message.not_indexable (map class_entry classes.now.list) (sort s.now)) ∷ []) }
{
    say_type(
        alloc,
        classes,
        span,
        "Value of type \"",
        s,
        "\" is not indexable",
        "index",
        faults,
    )
}

/// An index of a tuple that is no literal, or out of range.
#[tactic(auto, unfolding(crate::specs::Messages::tuple_index))]
pub fn tuple_index(alloc: Global, span: Span, faults: &mut Many<Diag>) -> Result<(), Memory>
    ensures { IfOk result (λ done. faults.new ≡ faults.old ++ diag span message.tuple_index ∷ []) }
{
    say_text(
        alloc,
        span,
        "Tuple index must be a literal in range",
        "misc",
        faults,
    )
}

/// An index of another type than a list, a text or a dict takes.
pub fn invalid_index(
    alloc: Global,
    classes: &Classes,
    span: Span,
    s: &Ty,
    t: &Ty,
    k: &Ty,
    faults: &mut Many<Diag>,
) -> Result<(), Memory>
    ensures { IfOk result (λ done. faults.new ≡ faults.old ++ diag span (message.invalid_index (map class_entry classes.now.list) (sort s.now) (sort t.now) (sort k.now)) ∷ []) }
{
    let s = type_text(alloc, s, classes)?;
    let t = type_text(alloc, t, classes)?;
    let k = type_text(alloc, k, classes)?;
    let text = format!(in alloc; "Invalid index type \"{s}\" for \"{t}\"; expected type \"{k}\"")?;
    say(alloc, span, text, "index", faults)
}
