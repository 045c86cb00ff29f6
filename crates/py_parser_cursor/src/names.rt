//! Names, and rows of them.
ghost use Rattle.std.specs.Prelude.{[], ◌∷◌, IfOk};
ghost use Rattle.py_parser_grammar.specs.Actions.{name_in};
ghost use Rattle.py_parser_grammar.specs.Grammar.{DOTTED, ALIAS};
ghost use Rattle.py_parser_grammar.specs.Readings.{reads_sym};
ghost use Rattle.py_parser_cursor.specs.Gives.{Gives};
ghost use Rattle.py_parser_cursor.specs.Moves.{MovesTo, MovesUpTo};
ghost use Rattle.py_parser_cursor.specs.Names.{reads_names, reads_dots, reads_bare, reads_aliases, reads_imported, reads_as};

use crate::fault::ParseError;
use crate::place::{accept, accept_key, accept_sign, sees, sees_key, sees_sign};
use crate::word::{name_of, name_text};
use py_parser_grammar::{Place, Terminal};
use py_syntax::{Key, Sign, Token};
use std::alloc::Global;
use value_core::{Many, Name};

/// A name, and further ones, each behind a comma.
#[tactic(auto, using(crate::proofs::NameReading::names))]
pub fn names(
    alloc: Global,
    tokens: &[Token],
    first: Name,
    place: Place,
) -> Result<(Many<Name>, Place), ParseError>
    ensures read { Gives (λ x. x) result (reads_names tokens.now (first ∷ []) place) }
    ensures moves { IfOk result (λ x. MovesUpTo tokens.now place x.1) }
{
    let mut place = place;
    let mut found = Many::new(alloc);
    found.push(first)?;
    'names: while sees_sign(tokens, place, Sign::Comma) {
        let (_, next) = accept_sign(tokens, place, Sign::Comma)?;
        let (token, behind) = accept(tokens, next, Terminal::Name)?;
        let name = name_of(alloc, token)?;
        found.push(name)?;
        place = behind;
    }
    Ok((found, place))
}

/// A module's name, with its dots.
#[tactic(auto, using(crate::proofs::NameReading::dotted_names))]
pub fn dotted(alloc: Global, tokens: &[Token], place: Place) -> Result<(Name, Place), ParseError>
    ensures read { Gives (λ x. x) result (reads_sym tokens.now DOTTED place) }
    ensures moves { IfOk result (λ x. MovesTo tokens.now place x.1) }
{
    let (first, place) = accept(tokens, place, Terminal::Name)?;
    dots(alloc, tokens, first, place)
}

// The name in a token, with those behind it, each with a dot before it.
#[tactic(auto, using(crate::proofs::NameReading::dots))]
fn dots(
    alloc: Global,
    tokens: &[Token],
    first: &Token,
    place: Place,
) -> Result<(Name, Place), ParseError>
    ensures read { Gives (λ x. x) result (reads_dots tokens.now (name_in first.now.kind) place) }
    ensures moves { IfOk result (λ x. MovesUpTo tokens.now place x.1) }
{
    let mut place = place;
    let mut text = String::from_str(alloc, name_text(first))?;
    'dots: while sees_sign(tokens, place, Sign::Dot) {
        let (_, next) = accept_sign(tokens, place, Sign::Dot)?;
        let (token, behind) = accept(tokens, next, Terminal::Name)?;
        text.push_str(".")?;
        text.push_str(name_text(token))?;
        place = behind;
    }
    Ok((Name::from_string(text), place))
}

/// The name behind `as`, if `as` comes next.
#[tactic(auto, unfolding(crate::specs::Names::reads_as))]
pub fn maybe_as(
    alloc: Global,
    tokens: &[Token],
    place: Place,
) -> Result<(Option<Name>, Place), ParseError>
    ensures read { Gives (λ x. x) result (reads_as tokens.now place) }
    ensures moves { IfOk result (λ x. MovesUpTo tokens.now place x.1) }
{
    if !sees_key(tokens, place, Key::As) {
        return Ok((None, place));
    }
    let (_, place) = accept_key(tokens, place, Key::As)?;
    let (token, place) = accept(tokens, place, Terminal::Name)?;
    let name = name_of(alloc, token)?;
    Ok((Some(name), place))
}

/// The names that are imported, in brackets or without.
#[tactic(auto, unfolding(crate::specs::Names::reads_imported))]
pub fn imported(
    alloc: Global,
    tokens: &[Token],
    place: Place,
) -> Result<(Many<(Name, Option<Name>)>, Place), ParseError>
    ensures read { Gives (λ x. x) result (reads_imported tokens.now place) }
    ensures moves { IfOk result (λ x. MovesTo tokens.now place x.1) }
{
    if sees(tokens, place, Terminal::Name) {
        let (first, place) = alias(alloc, tokens, place)?;
        return bare(alloc, tokens, first, place);
    }
    let (_, place) = accept_sign(tokens, place, Sign::LeftParen)?;
    let (first, place) = alias(alloc, tokens, place)?;
    let (found, place) = aliases(alloc, tokens, first, place)?;
    let (_, place) = accept_sign(tokens, place, Sign::RightParen)?;
    Ok((found, place))
}

// A name and its new one.
#[tactic(auto, using(crate::proofs::NameReading::aliasing))]
fn alias(
    alloc: Global,
    tokens: &[Token],
    place: Place,
) -> Result<((Name, Option<Name>), Place), ParseError>
    ensures read { Gives (λ x. x) result (reads_sym tokens.now ALIAS place) }
    ensures moves { IfOk result (λ x. MovesTo tokens.now place x.1) }
{
    let (token, place) = accept(tokens, place, Terminal::Name)?;
    let name = name_of(alloc, token)?;
    let (other, place) = maybe_as(alloc, tokens, place)?;
    Ok(((name, other), place))
}

// A name, and further ones, each behind a comma.
#[tactic(auto, using(crate::proofs::NameReading::bares))]
fn bare(
    alloc: Global,
    tokens: &[Token],
    first: (Name, Option<Name>),
    place: Place,
) -> Result<(Many<(Name, Option<Name>)>, Place), ParseError>
    ensures read { Gives (λ x. x) result (reads_bare tokens.now (first ∷ []) place) }
    ensures moves { IfOk result (λ x. MovesUpTo tokens.now place x.1) }
{
    let mut place = place;
    let mut found = Many::new(alloc);
    found.push(first)?;
    'names: while sees_sign(tokens, place, Sign::Comma) {
        let (_, next) = accept_sign(tokens, place, Sign::Comma)?;
        let (name, behind) = alias(alloc, tokens, next)?;
        found.push(name)?;
        place = behind;
    }
    Ok((found, place))
}

// A name in brackets, and further ones, each behind a comma, and a last comma.
#[tactic(auto, using(crate::proofs::NameReading::aliases))]
fn aliases(
    alloc: Global,
    tokens: &[Token],
    first: (Name, Option<Name>),
    place: Place,
) -> Result<(Many<(Name, Option<Name>)>, Place), ParseError>
    ensures read { Gives (λ x. x) result (reads_aliases tokens.now (first ∷ []) place) }
    ensures moves { IfOk result (λ x. MovesUpTo tokens.now place x.1) }
{
    let mut place = place;
    let mut found = Many::new(alloc);
    found.push(first)?;
    'names: while sees_sign(tokens, place, Sign::Comma) {
        let (_, next) = accept_sign(tokens, place, Sign::Comma)?;
        if !sees(tokens, next, Terminal::Name) {
            return Ok((found, next));
        }
        let (name, behind) = alias(alloc, tokens, next)?;
        found.push(name)?;
        place = behind;
    }
    Ok((found, place))
}
