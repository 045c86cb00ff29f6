//! What may begin with the next token.
ghost use Rattle.std.specs.Prelude.{◌≡◌};
ghost use Rattle.py_parser_grammar.specs.Reader as reader;
ghost use Rattle.py_parser_grammar.specs.Grammar.{TOP, MEMBER};

use crate::place::{sees_any, sees_key};
use py_parser_grammar::{Place, Terminal};
use py_syntax::{Key, Sign, Token};

/// The comparison operators, or the first words of those that have two.
const COMPARISONS: [Terminal; 9] = [
    Terminal::Sign(Sign::Lt),
    Terminal::Sign(Sign::Gt),
    Terminal::Sign(Sign::EqEq),
    Terminal::Sign(Sign::Ge),
    Terminal::Sign(Sign::Le),
    Terminal::Sign(Sign::NotEq),
    Terminal::Key(Key::In),
    Terminal::Key(Key::Not),
    Terminal::Key(Key::Is),
];

/// Names, literals that are no display, and constants.
pub const LITERALS: [Terminal; 6] = [
    Terminal::Name,
    Terminal::Int,
    Terminal::Str,
    Terminal::Key(Key::True),
    Terminal::Key(Key::False),
    Terminal::Key(Key::Nothing),
];

pub const SIGNS: [Terminal; 2] = [Terminal::Sign(Sign::Minus), Terminal::Sign(Sign::Plus)];

const BRACKETS: [Terminal; 3] = [
    Terminal::Sign(Sign::LeftParen),
    Terminal::Sign(Sign::LeftSquare),
    Terminal::Sign(Sign::LeftBrace),
];

/// The words that a statement of one line begins with.
const WORDS: [Terminal; 10] = [
    Terminal::Key(Key::Pass),
    Terminal::Key(Key::Break),
    Terminal::Key(Key::Continue),
    Terminal::Key(Key::Return),
    Terminal::Key(Key::Raise),
    Terminal::Key(Key::Global),
    Terminal::Key(Key::Assert),
    Terminal::Key(Key::Del),
    Terminal::Key(Key::Import),
    Terminal::Key(Key::From),
];

/// The words that a statement with blocks begins with.
pub const COMPOUND: [Terminal; 4] = [
    Terminal::Key(Key::If),
    Terminal::Key(Key::While),
    Terminal::Key(Key::For),
    Terminal::Key(Key::Try),
];

/// What a definition begins with.
const DEFINITIONS: [Terminal; 3] = [
    Terminal::Key(Key::Def),
    Terminal::Key(Key::Class),
    Terminal::Sign(Sign::At),
];

/// Whether a comparison operator comes next.
pub fn begins_comparison(tokens: &[Token], place: Place) -> bool
    ensures { result ≡ reader.sees tokens.now place reader.comparisons }
{
    sees_any(tokens, place, &COMPARISONS)
}

/// Whether a name or a literal that is no display comes next.
pub fn begins_literal(tokens: &[Token], place: Place) -> bool
    ensures { result ≡ reader.sees tokens.now place LITERALS }
{
    sees_any(tokens, place, &LITERALS)
}

/// Whether a minus or a plus sign comes next.
pub fn begins_sign(tokens: &[Token], place: Place) -> bool
    ensures { result ≡ reader.sees tokens.now place SIGNS }
{
    sees_any(tokens, place, &SIGNS)
}

/// Whether an operand of a comparison may begin here.
#[tactic(auto, using(crate::proofs::StartLemmas::starts))]
pub fn begins_operand(tokens: &[Token], place: Place) -> bool
    ensures { result ≡ reader.sees tokens.now place reader.factors }
{
    begins_sign(tokens, place)
        || begins_literal(tokens, place)
        || sees_any(tokens, place, &BRACKETS)
}

/// Whether an expression may begin here.
#[tactic(auto, using(crate::proofs::StartLemmas::starts))]
pub fn begins_test(tokens: &[Token], place: Place) -> bool
    ensures { result ≡ reader.sees tokens.now place reader.tests }
{
    sees_key(tokens, place, Key::Not) || begins_operand(tokens, place)
}

/// Whether a statement of one line may begin here.
#[tactic(auto, using(crate::proofs::StartLemmas::starts))]
pub fn begins_small(tokens: &[Token], place: Place) -> bool
    ensures { result ≡ reader.sees tokens.now place reader.smalls }
{
    sees_any(tokens, place, &WORDS) || begins_test(tokens, place)
}

/// Whether a statement may begin here.
#[tactic(auto, using(crate::proofs::StartLemmas::starts))]
pub fn begins_stmt(tokens: &[Token], place: Place) -> bool
    ensures { result ≡ reader.sees tokens.now place reader.stmts }
{
    sees_any(tokens, place, &COMPOUND) || begins_small(tokens, place)
}

/// Whether what may stand in a class may begin here.
#[tactic(auto, using(crate::proofs::StartLemmas::starts))]
pub fn begins_member(tokens: &[Token], place: Place) -> bool
    ensures { result ≡ reader.sees tokens.now place (reader.starts MEMBER) }
{
    sees_key(tokens, place, Key::Def) || begins_stmt(tokens, place)
}

/// Whether what may stand in a module may begin here.
#[tactic(auto, using(crate::proofs::StartLemmas::starts))]
pub fn begins_top(tokens: &[Token], place: Place) -> bool
    ensures { result ≡ reader.sees tokens.now place (reader.starts TOP) }
{
    sees_any(tokens, place, &DEFINITIONS) || begins_stmt(tokens, place)
}
