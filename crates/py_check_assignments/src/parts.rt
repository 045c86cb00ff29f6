//! Parts of statements that are refused where all of them are typed.
ghost use Rattle.std.specs.Prelude.{◌≡◌, ◌&&◌, [], ◌∷◌, ◌++◌, if◌then◌else◌, is_some, IfOk};
ghost use Rattle.std.specs.Option.{option_copied, option_map};
ghost use Rattle.py_syntax.specs.Expressions.{expr_tree};
ghost use Rattle.py_typed.specs.Sorts.{sort};
ghost use Rattle.py_typed.specs.Statements.{TypedAct};
ghost use Rattle.py_check_context.specs.Context.{context};
ghost use Rattle.py_check_messages.specs.Seen.{Tells, diag, fails};
ghost use Rattle.py_check_messages.specs.Messages as message;
ghost use Rattle.py_check_targets.specs.Targets as rule_of;
ghost use Rattle.py_check_places.specs.Views.{known_at};
ghost use Rattle.py_check_targets.specs.Views.{boxed_act};
ghost use Rattle.py_check_assignments.specs.Views.{Shows, given_seen};

use crate::assignments::Given;
use py_check_context::Context;
use py_check_messages::no_target;
use py_check_places::Place;
use py_check_targets::{aims_behind, put_behind, target_aims};
use py_syntax::{Expr, Span};
use py_syntax_diagnostics::Diag;
use py_typed::{TStmtKind, Ty};
use std::alloc::Global;
use value_core::{Many, Memory};

/// Whether all single targets of a target are something; what is wrong with them is said.
pub(crate) fn has_aims(
    alloc: Global,
    scope: &Context<'_>,
    place: &Place,
    target: &Expr,
    faults: &mut Many<Diag>,
) -> Result<bool, Memory>
    ensures { IfOk result (λ placed. Shows placed faults.old faults.new (rule_of.target_aims (context scope.now) (known_at place.now) (expr_tree target.now))) }
{
    let aims = target_aims(alloc, scope, place, target, faults)?;
    Ok(aims.is_some())
}

/// The same where a value of this type, if it has one, is bound to them one behind the other.
pub(crate) fn has_aims_behind(
    alloc: Global,
    scope: &Context<'_>,
    place: &Place,
    target: &Expr,
    t: Option<&Ty>,
    faults: &mut Many<Diag>,
) -> Result<bool, Memory>
    ensures { IfOk result (λ placed. Shows placed faults.old faults.new (rule_of.aims_behind (context scope.now) (known_at place.now) (expr_tree target.now) (option_map sort (option_copied t.entry)))) }
{
    let aims = aims_behind(alloc, scope, place, target, t, faults)?;
    Ok(aims.is_some())
}

/// Says that nothing is assigned here, where all parts are typed.
pub(crate) fn refuse(
    alloc: Global,
    span: Span,
    typed: bool,
    faults: &mut Many<Diag>,
) -> Result<(), Memory>
    ensures { IfOk result (λ done. faults.new ≡ faults.old ++ (if typed then diag span message.no_target ∷ [] else [])) }
{
    if typed {
        no_target(alloc, span, faults)?;
    }
    Ok(())
}

/// Says the same of a value that was typed before the parts that stand before it, which are typed or not.
pub(crate) fn refuse_behind(
    alloc: Global,
    span: Span,
    complete: bool,
    given: Given,
    faults: &mut Many<Diag>,
) -> Result<(), Memory>
    ensures { IfOk result (λ done. faults.new ≡ faults.old ++ ((given_seen given).said ++ (if complete && is_some (given_seen given).got then diag span message.no_target ∷ [] else []))) }
{
    let Given { asked, e, said } = given;
    drop(asked);
    let typed = e.is_some();
    drop(e);
    put_behind(faults, said)?;
    let whole = complete && typed;
    refuse(alloc, span, whole, faults)
}

/// No statement, and says why.
pub(crate) fn refused(
    alloc: Global,
    span: Span,
    faults: &mut Many<Diag>,
) -> Result<Option<Box<TStmtKind>>, Memory>
    ensures { IfOk result (λ t. Tells boxed_act t faults.old faults.new (fails {A = TypedAct} span message.no_target)) }
{
    no_target(alloc, span, faults)?;
    Ok(None)
}
