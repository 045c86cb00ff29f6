//! Prefixes, and conditions: they nest once a token before anything is finished, and so are collected first.
ghost use Rattle.std.specs.Prelude.{◌≡◌, ◌≤◌, ◌-◌, [], ◌∷◌, length, map, Ok, IfOk, if◌then◌else◌};
ghost use Rattle.py_parser_grammar.specs.declared.terminal.Terminal.TheVariants as terminal;
ghost use Rattle.py_parser_grammar.specs.Reader as reader;
ghost use Rattle.py_parser_cursor.specs.Gives.{Gives};
ghost use Rattle.py_parser_expressions.specs.Heads.{head_of, AreHeads};
ghost use Rattle.py_parser_expressions.specs.Parsed.{seen, IsFinished};
ghost use Rattle.py_parser_expressions.specs.Prefixes as spec;

use crate::join::{conditional, prefixed};
use crate::parsed::Parsed;
use py_parser_cursor::fault::ParseError;
use py_parser_cursor::place::sees_sign;
use py_parser_grammar::Place;
use py_syntax::{Sign, Token};
use std::alloc::Global;

/// The sign that has to come next, of those before an operand.
pub fn sign_at(tokens: &[Token], place: Place) -> Sign
    ensures { result ≡ (if reader.sees tokens.now place (terminal.Sign Sign.Minus ∷ []) then Sign.Minus else Sign.Plus) }
{
    if sees_sign(tokens, place, Sign::Minus) {
        Sign::Minus
    } else {
        Sign::Plus
    }
}

/// An expression that was read, behind the prefixes from one token up to another, from the innermost one.
#[tactic(auto, using(crate::proofs::Prefixes::folding))]
pub fn prefixes(
    alloc: Global,
    tokens: &[Token],
    from: usize,
    to: usize,
    found: Parsed,
) -> Result<Parsed, ParseError>
    requires from { from ≤ to }
    requires to { to ≤ length tokens.now }
    requires found { IsFinished found }
    ensures read { Gives seen result (spec.prefixes tokens.now from (to - from) (Ok (seen found))) }
    ensures finished { IfOk result IsFinished }
    ensures at { IfOk result (λ x. x.place.at ≡ found.place.at) }
{
    let mut found = found;
    let mut at = to;
    'fold: while from < at {
        at -= 1;
        found = prefixed(alloc, &tokens[at], found)?;
    }
    Ok(found)
}

/// The conditions whose last alternative was read, from the innermost one.
#[tactic(auto, using(crate::proofs::Prefixes::folding))]
pub fn conditionals(
    alloc: Global,
    heads: Vec<(Parsed, Parsed)>,
    last: Parsed,
) -> Result<Parsed, ParseError>
    requires heads { AreHeads heads.items }
    requires last { IsFinished last }
    ensures read { Gives seen result (spec.conditionals (map head_of heads.items) (Ok (seen last))) }
    ensures finished { IfOk result IsFinished }
    ensures at { IfOk result (λ x. x.place.at ≡ last.place.at) }
{
    let mut heads = heads;
    let mut last = last;
    'fold: while let Some((value, condition)) = heads.pop() {
        last = conditional(alloc, value, condition, last)?;
    }
    Ok(last)
}
