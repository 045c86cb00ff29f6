//! A diagnostic, put behind those that there are.
ghost use Rattle.std.specs.Prelude.{◌≡◌, [], ◌∷◌, ◌++◌, map, IfOk};
ghost use Rattle.std.specs.String.{string_bytes};
ghost use Rattle.py_typed.specs.Sorts.{sort};
ghost use Rattle.py_typed.specs.Classes.{class_entry};
ghost use Rattle.py_typed.specs.TypeTexts as written;
ghost use Rattle.py_check_messages.specs.Seen.{diag};

use py_syntax::Span;
use py_syntax_diagnostics::Diag;
use py_typed::{Classes, Ty, type_text};
use std::alloc::Global;
use value_core::{Many, Memory, Text};

/// One of a text that is made.
pub(crate) fn say(
    alloc: Global,
    span: Span,
    text: String,
    code: &str,
    faults: &mut Many<Diag>,
) -> Result<(), Memory>
    ensures { IfOk result (λ done. faults.new ≡ faults.old ++ diag span (record { text = string_bytes text; code = code.now }) ∷ []) }
{
    let text = Text::from_string(text);
    let code = Text::from_str(alloc, code)?;
    faults.push(Diag { span, text, code })
}

/// One of a text that is always the same.
pub(crate) fn say_text(
    alloc: Global,
    span: Span,
    text: &str,
    code: &str,
    faults: &mut Many<Diag>,
) -> Result<(), Memory>
    ensures { IfOk result (λ done. faults.new ≡ faults.old ++ diag span (record { text = text.now; code = code.now }) ∷ []) }
{
    let text = String::from_str(alloc, text)?;
    say(alloc, span, text, code, faults)
}

/// One of a text round a word.
pub(crate) fn say_word(
    alloc: Global,
    span: Span,
    before: &str,
    word: &str,
    after: &str,
    code: &str,
    faults: &mut Many<Diag>,
) -> Result<(), Memory>
    ensures { IfOk result (λ done. faults.new ≡ faults.old ++ diag span (record { text = before.now ++ word.now ++ after.now; code = code.now }) ∷ []) }
{
    let text = format!(in alloc; "{before}{word}{after}")?;
    say(alloc, span, text, code, faults)
}

/// One of a text round a type.
pub(crate) fn say_type(
    alloc: Global,
    classes: &Classes,
    span: Span,
    before: &str,
    s: &Ty,
    after: &str,
    code: &str,
    faults: &mut Many<Diag>,
) -> Result<(), Memory>
    ensures { IfOk result (λ done. faults.new ≡ faults.old ++ diag span (record { text = before.now ++ written.type_text (map class_entry classes.now.list) (sort s.now) ++ after.now; code = code.now }) ∷ []) }
{
    let s = type_text(alloc, s, classes)?;
    say_word(alloc, span, before, s.as_str(), after, code, faults)
}
