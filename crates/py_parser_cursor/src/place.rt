//! Tokens, one at a time.
ghost use Rattle.std.specs.Prelude.{◌≡◌, ◌≤◌, ◌+◌, [], ◌∷◌, length, slice_get, Some, IfOk, false};
ghost use Rattle.std.specs.List.{list_any};
ghost use Rattle.py_parser_grammar.specs.Terminals.{terminal_of, is_left_out, same as same_terminal};
ghost use Rattle.py_parser_grammar.specs.Reader as reader;
ghost use Rattle.py_parser_cursor.specs.Gives.{Gives, Fails};

use crate::fault::ParseError;
use py_parser_grammar::{Place, Terminal};
use py_syntax::{Key, Sign, Token, TokenKind};

/// Whether a token is of a terminal.
pub fn is_of(token: &Token, terminal: Terminal) -> bool
    ensures { result ≡ same_terminal (terminal_of token.now.kind) terminal }
{
    Terminal::of(&token.kind).is(terminal)
}

/// Whether the next token is of a terminal.
pub fn sees(tokens: &[Token], place: Place, terminal: Terminal) -> bool
    ensures { result ≡ reader.sees tokens.now place (terminal ∷ []) }
{
    match tokens.get(place.at) {
        None => false,
        Some(token) => is_of(token, terminal),
    }
}

/// Whether the next token is of one of some terminals.
#[tactic(auto, using(crate::proofs::Sights::sights))]
pub fn sees_any(tokens: &[Token], place: Place, terminals: &[Terminal]) -> bool
    ensures { result ≡ reader.sees tokens.now place terminals.now }
{
    match tokens.get(place.at) {
        None => false,
        Some(token) => is_any_of(token, terminals),
    }
}

fn is_any_of(token: &Token, terminals: &[Terminal]) -> bool
    ensures { result ≡ list_any (λ c. same_terminal (terminal_of token.now.kind) c) terminals.now }
{
    let terminal = Terminal::of(&token.kind);
    terminals.iter().any(|c| terminal.is(*c))
}

/// Whether the next token is a keyword.
pub fn sees_key(tokens: &[Token], place: Place, key: Key) -> bool
    ensures { result ≡ reader.sees tokens.now place (Terminal.Key key ∷ []) }
{
    sees(tokens, place, Terminal::Key(key))
}

/// Whether the next token is a sign.
pub fn sees_sign(tokens: &[Token], place: Place, sign: Sign) -> bool
    ensures { result ≡ reader.sees tokens.now place (Terminal.Sign sign ∷ []) }
{
    sees(tokens, place, Terminal::Sign(sign))
}

// Whether a token is a keyword that the profile leaves out.
fn is_left_out(token: &Token) -> bool
    ensures { result ≡ is_left_out (terminal_of token.now.kind) }
{
    match &token.kind {
        TokenKind::Key(key) => matches!(
            key,
            Key::Async | Key::Await | Key::Lambda | Key::Nonlocal | Key::With | Key::Yield
        ),
        _ => false,
    }
}

/// The next token, which has to be of a terminal, and the place behind it.
pub fn accept(
    tokens: &[Token],
    place: Place,
    terminal: Terminal,
) -> Result<(&Token, Place), ParseError>
    ensures read { Gives (λ x. (x.0.now, x.1)) result (reader.accept tokens.now terminal place) }
    ensures at { IfOk result (λ x. x.1.at ≡ place.at + 1) }
    ensures open { IfOk result (λ x. x.1.deep ≡ false) }
    ensures within { IfOk result (λ x. x.1.at ≤ length tokens.now) }
    ensures token { IfOk result (λ x. slice_get tokens.now place.at ≡ Some x.0.now) }
{
    let Some(token) = tokens.get(place.at) else {
        return Err(ParseError::Syntax(place.at));
    };
    if !is_of(token, terminal) {
        return Err(refused(token, place));
    }
    if place.deep {
        return Err(ParseError::TooDeep(place.at.saturating_sub(1)));
    }
    let behind = Place {
        at: place.at + 1,
        deep: false,
    };
    Ok((token, behind))
}

// What a token at a place is that may not stand there.
fn refused(token: &Token, place: Place) -> ParseError
    ensures { Fails {A = Token} result (Err (reader.refusal (Some token.now) place.at)) }
{
    if is_left_out(token) {
        ParseError::Profile(place.at)
    } else {
        ParseError::Syntax(place.at)
    }
}

/// The same at a keyword.
pub fn accept_key(tokens: &[Token], place: Place, key: Key) -> Result<(&Token, Place), ParseError>
    ensures read { Gives (λ x. (x.0.now, x.1)) result (reader.accept tokens.now (Terminal.Key key) place) }
    ensures at { IfOk result (λ x. x.1.at ≡ place.at + 1) }
    ensures open { IfOk result (λ x. x.1.deep ≡ false) }
    ensures within { IfOk result (λ x. x.1.at ≤ length tokens.now) }
    ensures token { IfOk result (λ x. slice_get tokens.now place.at ≡ Some x.0.now) }
{
    accept(tokens, place, Terminal::Key(key))
}

/// The same at a sign.
pub fn accept_sign(
    tokens: &[Token],
    place: Place,
    sign: Sign,
) -> Result<(&Token, Place), ParseError>
    ensures read { Gives (λ x. (x.0.now, x.1)) result (reader.accept tokens.now (Terminal.Sign sign) place) }
    ensures at { IfOk result (λ x. x.1.at ≡ place.at + 1) }
    ensures open { IfOk result (λ x. x.1.deep ≡ false) }
    ensures within { IfOk result (λ x. x.1.at ≤ length tokens.now) }
    ensures token { IfOk result (λ x. slice_get tokens.now place.at ≡ Some x.0.now) }
{
    accept(tokens, place, Terminal::Sign(sign))
}
