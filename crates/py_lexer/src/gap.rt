//! What stands between tokens.
ghost use Rattle.std.specs.Prelude.{◌≡◌, ◌<◌, ◌≤◌, length, IfSome, option_map};
ghost use Rattle.py_lexer.specs.Pieces as spec;

use crate::placed::{Placed, character_at, skip};

/// What stands between tokens.
#[derive(Clone, Copy)]
pub(crate) enum Gap {
    Space,
    Tab,
    FormFeed,
    Comment,
    /// A backslash and the end of its line.
    Join,
    LineEnd,
}

fn past_comment(rest: &[Placed]) -> &[Placed]
    ensures value { result.now ≡ spec.past_comment rest.now }
    ensures within { length result.now ≤ length rest.now }
{
    let mut n = 0;
    while n < rest.len() && rest[n].character != '\n' {
        n += 1;
    }
    skip(rest, n)
}

/// The gap at the front of a rest, if there is one, and the rest behind it.
#[tactic(auto, unfolding(crate::specs::Pieces::gap))]
pub(crate) fn gap_at(rest: &[Placed]) -> Option<(Gap, &[Placed])>
    ensures value { option_map (λ p. (p.0, p.1.now)) result ≡ spec.gap rest.now }
    ensures shorter { IfSome result (λ p. length p.1.now < length rest.now) }
{
    match character_at(rest, 0) {
        ' ' => Some((Gap::Space, skip(rest, 1))),
        '\t' => Some((Gap::Tab, skip(rest, 1))),
        '\u{c}' => Some((Gap::FormFeed, skip(rest, 1))),
        '\n' => Some((Gap::LineEnd, skip(rest, 1))),
        '#' => Some((Gap::Comment, past_comment(skip(rest, 1)))),
        '\\' if character_at(rest, 1) == '\n' => Some((Gap::Join, skip(rest, 2))),
        _ => None,
    }
}
