//! Jumps, as they are written.
ghost use Rattle.std.specs.Prelude.{◌≡◌, ◌≢◌, ◌++◌, ℕ, List, Some, codes, IsTrue, IfSome, MatchOption};
ghost use Rattle.c_core.specs.declared.code.Kind.{Kind};
ghost use Rattle.c_core.specs.WellFormed.{Declared, spelled_label};
ghost use Rattle.c_text.specs.Words.{HasNo};
ghost use Rattle.c_text.specs.Statements.{AreNamed, Reads, both_text, error_of, test_text};

use crate::variable::{Variables, variable, variable_of};
use crate::word::{behind, cut, is, label};
use c_core::{Kind, Line};

/// A jump, by the digits of its label.
pub(crate) fn goto(digits: &[u8]) -> Option<Line>
    ensures { (vars : List Declared) → Reads vars (codes "goto CPyL" ++ digits.now) result }
{
    match label(digits) {
        Some(number) => Some(Line::Goto(number)),
        None => None,
    }
}

/// Both labels of a test, from what stands behind its bracket.
fn both_labels(text: &[u8]) -> Option<(usize, usize)>
    ensures finds { (a b : ℕ) → IsTrue (spelled_label a) → IsTrue (spelled_label b) → both_text a b ≡ text.now → result ≡ Some (a, b) }
    ensures fits { IfSome result (λ p. IsTrue (spelled_label p.0) × IsTrue (spelled_label p.1)) }
{
    let Some(rest) = behind(text, b" goto CPyL") else {
        return None;
    };
    let Some((digits, rest)) = cut(rest, b';') else {
        return None;
    };
    let Some(others) = behind(rest, b" else goto CPyL") else {
        return None;
    };
    let Some(first) = label(digits) else {
        return None;
    };
    match label(others) {
        Some(second) => Some((first, second)),
        None => None,
    }
}

/// The kind whose error value a test names, from what stands behind its variable.
fn kind_of_error(text: &[u8]) -> Option<Kind>
    ensures { MatchOption result ((kind : Kind) → codes "== " ++ error_of kind ≢ text.now) (λ kind. codes "== " ++ error_of kind ≡ text.now) }
{
    if is(text, b"== 1") {
        Some(Kind::Tagged)
    } else if is(text, b"== -113") {
        Some(Kind::Int64)
    } else if is(text, b"== 2") {
        Some(Kind::Char)
    } else if is(text, b"== NULL") {
        Some(Kind::Object)
    } else {
        None
    }
}

/// A test, by what stands between its brackets and its labels.
fn tested(vars: &Variables, inside: &[u8], first: usize, second: usize) -> Option<Line>
    requires named { AreNamed vars.now }
    requires plain { HasNo 41 inside.now }
    requires fit { IsTrue (spelled_label first) × IsTrue (spelled_label second) }
    ensures { Reads vars.now (test_text inside.now (both_text first second)) result }
{
    let Some((word, error)) = cut(inside, b' ') else {
        return match variable(vars, inside) {
            Some(place) => Some(Line::If(place, first, second)),
            None => None,
        };
    };
    let Some(kind) = kind_of_error(error) else {
        return None;
    };
    match variable_of(vars, word, kind) {
        Some(place) => Some(Line::IfError(place, first, second)),
        None => None,
    }
}

/// A test, by what stands behind its first bracket.
pub(crate) fn test(vars: &Variables, text: &[u8]) -> Option<Line>
    requires { AreNamed vars.now }
    ensures { Reads vars.now (codes "if (" ++ text.now) result }
{
    let Some((inside, rest)) = cut(text, b')') else {
        return None;
    };
    match both_labels(rest) {
        Some((first, second)) => tested(vars, inside, first, second),
        None => None,
    }
}
