//! The heads of functions, as they are written.
ghost use Rattle.std.specs.Prelude.{◌≡◌, ◌≢◌, ◌∷◌, List, map, IsTrue, IfOk, MatchOption};
ghost use Rattle.c_core.specs.Text.{comma, declaration_text, joined, parameters_text};
ghost use Rattle.c_core.specs.WellFormed.{Declared};
ghost use Rattle.c_text.specs.Heads.{BeginsFunction, HasNoParameters, IsNoFunctionHead, IsNoHead};
ghost use Rattle.c_text.specs.Statements.{AreNamed};

use crate::declaration::kind_and_name;
use crate::variable::Variables;
use crate::word::{before, behind, cut, is, up_to_comma};
use c_core::Kind;
use std::alloc::Global;
use value_core::{Memory, Name};

/// The head of a function: of the module's own, or of another one with its name, the kind of its result, and how many
/// parameters it has.
#[derive(Drop)]
pub(crate) enum FunctionHead {
    Module,
    Function(Name, Kind, usize),
}

/// One or more parameters with a comma and a space between each two.
fn some_parameters(alloc: Global, text: &[u8]) -> Result<Option<Variables>, Memory>
    ensures { IfOk result (λ found. MatchOption found ((v : Declared) (others : List Declared) → AreNamed (v ∷ others) → joined comma (map declaration_text (v ∷ others)) ≢ text.now)
        (λ vars. AreNamed vars × (parameters_text vars ≡ text.now))) }
{
    let mut vars = Variables::new(alloc);
    let mut rest = text;
    loop {
        let (word, after) = up_to_comma(rest);
        let Some(declared) = kind_and_name(alloc, word, b"cpy_")? else {
            return Ok(None);
        };
        vars = vars.and(alloc, declared)?;
        if after.is_empty() {
            return Ok(Some(vars));
        }
        let Some(next) = behind(after, b", ") else {
            return Ok(None);
        };
        rest = next;
    }
}

/// The parameters between the brackets of a head.
fn parameters(alloc: Global, text: &[u8]) -> Result<Option<Variables>, Memory>
    ensures { IfOk result (λ found. MatchOption found (HasNoParameters text.now) (λ vars. AreNamed vars × (parameters_text vars ≡ text.now))) }
{
    if is(text, b"void") {
        return Ok(Some(Variables::new(alloc)));
    }
    some_parameters(alloc, text)
}

/// The head of a function that is not the module's own, with its parameters.
fn function_head(alloc: Global, piece: &[u8]) -> Result<Option<(FunctionHead, Variables)>, Memory>
    ensures { IfOk result (λ found. MatchOption found (IsNoFunctionHead piece.now) (λ p. BeginsFunction p.0 p.1 piece.now)) }
{
    let Some((front, rest)) = cut(piece, b'(') else {
        return Ok(None);
    };
    let Some(text) = before(rest, b") {") else {
        return Ok(None);
    };
    let Some((name, kind)) = kind_and_name(alloc, front, b"CPyDef_")? else {
        return Ok(None);
    };
    let Some(vars) = parameters(alloc, text)? else {
        return Ok(None);
    };
    let count = vars.list().len();
    Ok(Some((FunctionHead::Function(name, kind, count), vars)))
}

/// The head of a function that stands on a line, with its parameters.
pub(crate) fn line_head(
    alloc: Global,
    piece: &[u8],
) -> Result<Option<(FunctionHead, Variables)>, Memory>
    ensures { IfOk result (λ found. MatchOption found (IsNoHead piece.now) (λ p. BeginsFunction p.0 p.1 piece.now)) }
{
    if is(piece, b"char CPyModule(void) {") {
        return Ok(Some((FunctionHead::Module, Variables::new(alloc))));
    }
    function_head(alloc, piece)
}
