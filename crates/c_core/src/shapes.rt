//! Tests of arguments and targets that many calls share.
ghost use Rattle.std.specs.Prelude.{◌≡◌, ℕ, List, [], ◌∷◌};
ghost use Rattle.c_core.specs.Primitives.{Holding, Owned, Is, Borrows, TakesText, one_row, answering_row, pending_row};
ghost use Rattle.c_core.specs.WellFormed as spec;
ghost use Rattle.c_core.specs.declared.code.CArg.{CArg};
ghost use Rattle.c_core.specs.declared.code.Code as declared;

use crate::code::{CArg, Kind};
use value_core::Name;

pub(crate) fn kind_at(vars: &[(Name, Kind)], x: usize) -> Option<Kind>
    ensures { result ≡ spec.kind_at vars.now x }
{
    vars.get(x).map(|var| var.1)
}

pub(crate) fn same_kinds(kind: Option<Kind>, other: Option<Kind>) -> bool
    ensures { result ≡ spec.same_kinds kind other }
{
    kind.is_some() && kind == other
}

pub(crate) fn is_passed(vars: &[(Name, Kind)], kind: Kind, arg: &CArg) -> bool
    ensures { result ≡ spec.passes vars.now (kind ∷ []) (arg.now ∷ []) }
{
    match arg {
        CArg::Var(x) => kind_at(vars, *x) == Some(kind),
        _ => false,
    }
}

/// A result of a kind may be left without a target.
pub(crate) fn answers(vars: &[(Name, Kind)], kind: Kind, target: Option<usize>) -> bool
    ensures { (code : declared.Code) (args : List CArg) → result ≡ spec.target_fits code vars.now args (Owned (Is kind)) target }
{
    match target {
        Some(x) => kind_at(vars, x) == Some(kind),
        None => true,
    }
}

/// Nothing is passed, and a word of a kind is answered.
pub(crate) fn nothing_fits(
    vars: &[(Name, Kind)],
    args: &[CArg],
    answer: Kind,
    target: Option<usize>,
) -> bool
    ensures { (code : declared.Code) (name : List ℕ) → result ≡ spec.row_fits code vars.now target args.now (pending_row name [] answer) }
{
    match args {
        [] => answers(vars, answer, target),
        _ => false,
    }
}

/// A text is written, and a word of a kind is answered.
pub(crate) fn written_fits(
    vars: &[(Name, Kind)],
    args: &[CArg],
    answer: Kind,
    target: Option<usize>,
) -> bool
    ensures { (code : declared.Code) (name : List ℕ) → result ≡ spec.row_fits code vars.now target args.now (answering_row name (TakesText ∷ []) answer) }
{
    match args {
        [CArg::Text(_)] => answers(vars, answer, target),
        _ => false,
    }
}

/// One variable of a kind is borrowed, and a word of a kind is answered.
pub(crate) fn one_fits(
    vars: &[(Name, Kind)],
    kind: Kind,
    args: &[CArg],
    answer: Kind,
    target: Option<usize>,
) -> bool
    ensures { (code : declared.Code) (name : List ℕ) (h : Holding) → result ≡ spec.row_fits code vars.now target args.now (one_row name kind h answer) }
{
    match args {
        [CArg::Var(x)] => kind_at(vars, *x) == Some(kind) && answers(vars, answer, target),
        _ => false,
    }
}

/// The same of two variables of a kind.
pub(crate) fn two_fit(
    vars: &[(Name, Kind)],
    kind: Kind,
    args: &[CArg],
    answer: Kind,
    target: Option<usize>,
) -> bool
    ensures { (code : declared.Code) (name : List ℕ) (h l : Holding) → result ≡ spec.row_fits code vars.now target args.now (answering_row name (Borrows (Is kind) h ∷ Borrows (Is kind) l ∷ []) answer) }
{
    pair_fits(vars, kind, kind, args, answer, target)
}

/// The same of an object and an index.
pub(crate) fn item_fits(
    vars: &[(Name, Kind)],
    args: &[CArg],
    answer: Kind,
    target: Option<usize>,
) -> bool
    ensures { (code : declared.Code) (name : List ℕ) (h l : Holding) → result ≡ spec.row_fits code vars.now target args.now (answering_row name (Borrows (Is Kind.Object) h ∷ Borrows (Is Kind.Tagged) l ∷ []) answer) }
{
    pair_fits(vars, Kind::Object, Kind::Tagged, args, answer, target)
}

fn pair_fits(
    vars: &[(Name, Kind)],
    kind: Kind,
    other: Kind,
    args: &[CArg],
    answer: Kind,
    target: Option<usize>,
) -> bool
    ensures { (code : declared.Code) (name : List ℕ) (h l : Holding) → result ≡ spec.row_fits code vars.now target args.now (answering_row name (Borrows (Is kind) h ∷ Borrows (Is other) l ∷ []) answer) }
{
    match args {
        [CArg::Var(x), CArg::Var(y)] => {
            kind_at(vars, *x) == Some(kind)
                && kind_at(vars, *y) == Some(other)
                && answers(vars, answer, target)
        }
        _ => false,
    }
}
