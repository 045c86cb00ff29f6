//! What the grammar sees of a token.
ghost use Rattle.std.specs.Prelude.{◌≡◌, ◌≤◌};
ghost use Rattle.std.specs.Bool.{Decides};
ghost use Rattle.py_parser_grammar.specs.Terminals.{terminal_of, same, code, key_code, sign_code};

use py_syntax::{Key, Sign, TokenKind};

/// A terminal of the grammar: what kind a token is, and which keyword or sign, but not which name or literal
/// (Python Language Reference, "Lexical analysis").
#[derive(Clone, Copy)]
pub enum Terminal {
    Name,
    Int,
    Str,
    Key(Key),
    Sign(Sign),
    Newline,
    Indent,
    Dedent,
    End,
}

impl Terminal {
    /// The terminal of a token of this kind.
    pub fn of(kind: &TokenKind) -> Terminal
        ensures { result ≡ terminal_of kind.now }
    {
        match kind {
            TokenKind::Name(_) => Terminal::Name,
            TokenKind::Int(_) => Terminal::Int,
            TokenKind::Str(_) => Terminal::Str,
            TokenKind::Key(key) => Terminal::Key(*key),
            TokenKind::Sign(sign) => Terminal::Sign(*sign),
            TokenKind::Newline => Terminal::Newline,
            TokenKind::Indent => Terminal::Indent,
            TokenKind::Dedent => Terminal::Dedent,
            TokenKind::End => Terminal::End,
        }
    }

    /// Whether it is this terminal.
    #[tactic(auto, using(crate::proofs::Codes::same_exact))]
    pub fn is(self, other: Terminal) -> bool
        ensures exact { Decides result (self ≡ other) }
        ensures told { result ≡ same self other }
    {
        self.code() == other.code()
    }

    /// The number of this terminal, from 0 to 95, which no other terminal has.
    fn code(self) -> usize
        ensures { result ≡ code self }
    {
        match self {
            Terminal::Name => 0,
            Terminal::Int => 1,
            Terminal::Str => 2,
            Terminal::Newline => 3,
            Terminal::Indent => 4,
            Terminal::Dedent => 5,
            Terminal::End => 6,
            Terminal::Key(key) => 10 + key_number(key),
            Terminal::Sign(sign) => 50 + sign_number(sign),
        }
    }
}

fn key_number(key: Key) -> usize
    ensures number { result ≡ key_code key }
    ensures small { result ≤ 34 }
{
    key as usize
}

fn sign_number(sign: Sign) -> usize
    ensures number { result ≡ sign_code sign }
    ensures small { result ≤ 45 }
{
    sign as usize
}
