//! Calls of methods, as they are written.
ghost use Rattle.std.specs.Prelude.{◌≡◌, ◌++◌, ℕ, List, IsTrue, IfOk, IfSome};
ghost use Rattle.std.specs.List.{list_all};
ghost use Rattle.c_core.specs.declared.code.Line.{Line};
ghost use Rattle.c_core.specs.Text.{statement_text, var_text};
ghost use Rattle.c_core.specs.WellFormed.{is_declared, is_identifier, spelled_label};
ghost use Rattle.c_text.specs.Methods.{FindsFirst, for_trait_text, method_behind, others_text, virtual_text};
ghost use Rattle.c_text.specs.Statements.{AreNamed, IsSpelledLine};
ghost use Rattle.c_text.specs.Variables.{Finds};
ghost use Rattle.c_text.specs.Words.{EndsArgument};

use crate::variable::{Variables, variable};
use crate::word::{behind, label, name, up_to_comma};
use c_core::Line;
use std::alloc::Global;
use value_core::{Many, Memory};

/// Variables, each behind a comma and a space.
fn variables(alloc: Global, vars: &Variables, text: &[u8]) -> Result<Option<Many<usize>>, Memory>
    requires { AreNamed vars.now }
    ensures finds { (args : List ℕ) → IsTrue (list_all (is_declared vars.now) args) → others_text vars.now args ≡ text.now →
        IfOk result (λ found. Finds (others_text vars.now) found args) }
    ensures spelled { IfOk result (λ found. IfSome found (λ args. IsTrue (list_all (is_declared vars.now) args))) }
{
    let mut places = Many::new(alloc);
    let mut rest = text;
    while let Some(next) = behind(rest, b", ") {
        let (word, after) = up_to_comma(next);
        let Some(place) = variable(vars, word) else {
            return Ok(None);
        };
        places.push(place)?;
        rest = after;
    }
    Ok(Some(places))
}

/// The place of a method behind a comma and a space, and the variables behind it.
fn method(
    alloc: Global,
    vars: &Variables,
    text: &[u8],
) -> Result<Option<(usize, Many<usize>)>, Memory>
    requires { AreNamed vars.now }
    ensures finds { (n : ℕ) (args : List ℕ) → IsTrue (spelled_label n) → IsTrue (list_all (is_declared vars.now) args) → method_behind vars.now (n, args) ≡ text.now →
        IfOk result (λ found. Finds (method_behind vars.now) found (n, args)) }
    ensures spelled { IfOk result (λ found. IfSome found (λ m. IsTrue (spelled_label m.0) × IsTrue (list_all (is_declared vars.now) m.1))) }
{
    let Some(inside) = behind(text, b", ") else {
        return Ok(None);
    };
    let (digits, rest) = up_to_comma(inside);
    let Some(number) = label(digits) else {
        return Ok(None);
    };
    match variables(alloc, vars, rest)? {
        Some(args) => Ok(Some((number, args))),
        None => Ok(None),
    }
}

/// The variable before the first comma, and the rest from there on.
fn first_variable<'a>(vars: &Variables, text: &'a [u8]) -> Option<(usize, &'a [u8])>
    requires { AreNamed vars.now }
    ensures finds { (x : ℕ) (rest : List ℕ) → IsTrue (is_declared vars.now x) → EndsArgument rest → var_text vars.now x ++ rest ≡ text.now →
        FindsFirst vars.now result x rest }
    ensures spelled { IfSome result (λ p. IsTrue (is_declared vars.now p.0)) }
{
    let (word, rest) = up_to_comma(text);
    match variable(vars, word) {
        Some(place) => Some((place, rest)),
        None => None,
    }
}

/// The call of a method of the object's own class, from what stands between its brackets.
pub(crate) fn virtual_call(
    alloc: Global,
    vars: &Variables,
    place: usize,
    inside: &[u8],
) -> Result<Option<Line>, Memory>
    requires named { AreNamed vars.now }
    requires declared { IsTrue (is_declared vars.now place) }
    ensures finds { (o n : ℕ) (args : List ℕ) → IsTrue (is_declared vars.now o) → IsTrue (spelled_label n) → IsTrue (list_all (is_declared vars.now) args) →
        virtual_text vars.now o n args ≡ inside.now → IfOk result (λ found. Finds (statement_text vars.now) found (Line.Virtual place o n args)) }
    ensures spelled { IfOk result (IsSpelledLine vars.now) }
{
    let Some((object, rest)) = first_variable(vars, inside) else {
        return Ok(None);
    };
    match method(alloc, vars, rest)? {
        Some((number, args)) => Ok(Some(Line::Virtual(place, object, number, args))),
        None => Ok(None),
    }
}

/// The call of a method that the object's class has for a trait, from what stands between its brackets.
pub(crate) fn trait_call(
    alloc: Global,
    vars: &Variables,
    place: usize,
    inside: &[u8],
) -> Result<Option<Line>, Memory>
    requires named { AreNamed vars.now }
    requires declared { IsTrue (is_declared vars.now place) }
    ensures finds { (o : ℕ) (t : List ℕ) (n : ℕ) (args : List ℕ) → IsTrue (is_declared vars.now o) → IsTrue (is_identifier t) → IsTrue (spelled_label n) →
        IsTrue (list_all (is_declared vars.now) args) → for_trait_text vars.now o t n args ≡ inside.now →
        IfOk result (λ found. Finds (statement_text vars.now) found (Line.TraitCall place o t n args)) }
    ensures spelled { IfOk result (IsSpelledLine vars.now) }
{
    let Some((object, after)) = first_variable(vars, inside) else {
        return Ok(None);
    };
    let Some(text) = behind(after, b", CPyType_") else {
        return Ok(None);
    };
    let (word, rest) = up_to_comma(text);
    let Some(name) = name(alloc, word)? else {
        return Ok(None);
    };
    match method(alloc, vars, rest)? {
        Some((number, args)) => Ok(Some(Line::TraitCall(place, object, name, number, args))),
        None => Ok(None),
    }
}
