//! What a place asks of an expression.
ghost use Rattle.std.specs.Prelude.{◌≡◌};
ghost use Rattle.py_check_context.specs.Context as spec;

use py_typed::Ty;

/// What an expression is there for.
#[derive(Clone, Copy)]
pub enum Want<'a> {
    /// A value of any type.
    Free,
    /// A truth value.
    Test,
    /// A value of this type.
    Wants(&'a Ty),
    /// Nothing: it stands alone.
    Dropped,
}

/// What the expressions of a row are there for.
#[derive(Clone, Copy)]
pub enum Row<'a> {
    /// Each a value of this type.
    Each(&'a Ty),
    /// The first one a value of this type, and the others of any.
    First(&'a Ty),
    /// Values of these types in their order, and those behind them of any.
    Along(&'a [Ty]),
}

/// What the expression at a place of a row is there for.
#[tactic(auto, using(crate::proofs::RowLemmas::sort_found))]
pub fn wanted_at<'a>(row: Row<'a>, place: usize) -> Want<'a>
    ensures { spec.wanted result ≡ spec.wanted_in (spec.row row.entry) place }
{
    match row {
        Row::Each(t) => Want::Wants(t),
        Row::First(t) => {
            if place == 0 {
                Want::Wants(t)
            } else {
                Want::Free
            }
        }
        Row::Along(ts) => match ts.get(place) {
            Some(t) => Want::Wants(t),
            None => Want::Free,
        },
    }
}
