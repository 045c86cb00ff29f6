//! The arguments of a call, as they are written.
ghost use Rattle.std.specs.Prelude.{◌≡◌, ◌++◌, ◌∷◌, ◌≤◌, ℕ, List, length, IsTrue, IfOk, IfSome};
ghost use Rattle.std.specs.List.{list_all};
ghost use Rattle.c_core.specs.declared.code.CArg.{CArg};
ghost use Rattle.c_core.specs.Text.{arg_text};
ghost use Rattle.c_core.specs.WellFormed.{spelled_arg};
ghost use Rattle.c_text.specs.Words.{EndsArgument};
ghost use Rattle.c_text.specs.Variables.{Finds};
ghost use Rattle.c_text.specs.Statements.{AreNamed, IsWord, FindsArgument, args_text};

use crate::unquote::unquoted;
use crate::variable::{Variables, variable};
use crate::word::{behind, name, number, up_to_comma};
use c_core::CArg;
use std::alloc::Global;
use value_core::{Many, Memory};

/// The argument that a word writes.
fn word_argument(alloc: Global, vars: &Variables, word: &[u8]) -> Result<Option<CArg>, Memory>
    ensures finds { (a : CArg) → IsTrue (spelled_arg vars.now a) → IsWord a → arg_text vars.now a ≡ word.now →
        IfOk result (λ found. Finds (arg_text vars.now) found a) }
    ensures spelled { IfOk result (λ found. IfSome found (λ a. IsTrue (spelled_arg vars.now a))) }
{
    if let Some(word) = behind(word, b"CPyStatic_") {
        match name(alloc, word)? {
            Some(name) => Ok(Some(CArg::Global(name))),
            None => Ok(None),
        }
    } else if let Some(word) = behind(word, b"CPyType_") {
        match name(alloc, word)? {
            Some(name) => Ok(Some(CArg::Class(name))),
            None => Ok(None),
        }
    } else if let Some(_) = behind(word, b"cpy_") {
        match variable(vars, word) {
            Some(place) => Ok(Some(CArg::Var(place))),
            None => Ok(None),
        }
    } else {
        match number(word) {
            Some(number) => Ok(Some(CArg::Number(number))),
            None => Ok(None),
        }
    }
}

/// The first of some arguments, and what stands behind it.
fn next_argument<'a>(
    alloc: Global,
    vars: &Variables,
    text: &'a [u8],
) -> Result<Option<(CArg, &'a [u8])>, Memory>
    requires { AreNamed vars.now }
    ensures finds { (a : CArg) (rest : List ℕ) → IsTrue (spelled_arg vars.now a) → EndsArgument rest →
        arg_text vars.now a ++ rest ≡ text.now → IfOk result (λ found. FindsArgument vars.now found a rest) }
    ensures spelled { IfOk result (λ found. IfSome found (λ p. IsTrue (spelled_arg vars.now p.0))) }
    ensures within { IfOk result (λ found. IfSome found (λ p. length p.1.now ≤ length text.now)) }
{
    if let Some(inside) = behind(text, b"\"") {
        match unquoted(alloc, inside)? {
            Some((text, rest)) => Ok(Some((CArg::Text(text), rest))),
            None => Ok(None),
        }
    } else {
        let (word, rest) = up_to_comma(text);
        match word_argument(alloc, vars, word)? {
            Some(argument) => Ok(Some((argument, rest))),
            None => Ok(None),
        }
    }
}

/// One or more arguments with a comma and a space between each two.
fn some_arguments(
    alloc: Global,
    vars: &Variables,
    text: &[u8],
) -> Result<Option<Many<CArg>>, Memory>
    requires { AreNamed vars.now }
    ensures finds { (a : CArg) (others : List CArg) → IsTrue (list_all (spelled_arg vars.now) (a ∷ others)) →
        args_text vars.now (a ∷ others) ≡ text.now →
        IfOk result (λ found. Finds (args_text vars.now) found (a ∷ others)) }
    ensures spelled { IfOk result (λ found. IfSome found (λ args. IsTrue (list_all (spelled_arg vars.now) args))) }
{
    let mut args = Vec::new(alloc);
    let mut rest = text;
    loop {
        let Some((argument, after)) = next_argument(alloc, vars, rest)? else {
            return Ok(None);
        };
        args.push(argument)?;
        if after.is_empty() {
            return Ok(Some(Many::from_vec(args)));
        }
        let Some(next) = behind(after, b", ") else {
            return Ok(None);
        };
        rest = next;
    }
}

/// The arguments between the brackets of a call.
pub(crate) fn arguments(
    alloc: Global,
    vars: &Variables,
    text: &[u8],
) -> Result<Option<Many<CArg>>, Memory>
    requires { AreNamed vars.now }
    ensures finds { (args : List CArg) → IsTrue (list_all (spelled_arg vars.now) args) → args_text vars.now args ≡ text.now →
        IfOk result (λ found. Finds (args_text vars.now) found args) }
    ensures spelled { IfOk result (λ found. IfSome found (λ args. IsTrue (list_all (spelled_arg vars.now) args))) }
{
    if text.is_empty() {
        return Ok(Some(Many::new(alloc)));
    }
    some_arguments(alloc, vars, text)
}
