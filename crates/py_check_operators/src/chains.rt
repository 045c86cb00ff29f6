//! Chains of comparisons.
ghost use Rattle.std.specs.Prelude.{◌≡◌, ◌++◌, map, None, IfOk, if◌then◌else◌};
ghost use Rattle.std.specs.Option.{option_map, option_zip};
ghost use Rattle.py_typed.specs.Sorts.{sort};
ghost use Rattle.py_typed.specs.Classes.{class_entry};
ghost use Rattle.py_typed.specs.Expressions.{typed_expr};
ghost use Rattle.py_typed.specs.WellTypedExpr as typing;
ghost use Rattle.py_check_messages.specs.Seen.{Tells};
ghost use Rattle.py_check_coercions.specs.Boxes.{boxed, operand_pair};
ghost use Rattle.py_check_coercions.specs.Several.{Says};
ghost use Rattle.py_check_operators.specs.Chains as rule_of;
ghost use Rattle.py_check_operators.specs.Operands.{maybe_pair};

use crate::operators::{are_numbers, are_texts};
use py_check_coercions::{kept, with_operand};
use py_check_messages::{only_for_none, unsupported_operands};
use py_syntax::{CmpOp, Span};
use py_syntax_diagnostics::Diag;
use py_typed::{Classes, TExpr, TKind, Ty, fits};
use std::alloc::Global;
use value_core::{Many, Memory};

/// A chain of comparisons (Python Language Reference, "Comparisons"), of operands that may have no type, and of what is said of
/// them: what is wrong with the pairs goes in front of that.
pub fn chain(
    alloc: Global,
    classes: &Classes,
    span: Span,
    first: Option<Box<TExpr>>,
    more: Many<(CmpOp, Option<Box<TExpr>>)>,
    said: Many<Diag>,
    faults: &mut Many<Diag>,
) -> Result<Option<Box<TExpr>>, Memory>
    ensures { IfOk result (λ t. Tells boxed t faults.old faults.new (rule_of.chain_of (map class_entry classes.now.list) span (option_map boxed first) (map maybe_pair more) said)) }
{
    let right = pairs_hold(alloc, classes, span, &first, more.as_slice(), faults)?;
    put_behind(faults, said)?;
    let more = all_typed(alloc, more)?;
    chain_typed(alloc, span, right, first, more)
}

// A chain whose pairs hold, where all its operands are typed.
fn chain_typed(
    alloc: Global,
    span: Span,
    right: bool,
    first: Option<Box<TExpr>>,
    more: Option<Many<(CmpOp, TExpr)>>,
) -> Result<Option<Box<TExpr>>, Memory>
    ensures { IfOk result (λ t. option_map boxed t ≡ (if right then option_map (rule_of.chain span) (option_zip (option_map boxed first) (option_map (map operand_pair) more)) else None)) }
{
    let Some(first) = first else {
        return Ok(None);
    };
    let Some(more) = more else {
        return Ok(None);
    };
    if !right {
        return Ok(None);
    }
    let e = kept(alloc, TKind::Compare(first, more), Ty::Bool, span)?;
    Ok(Some(e))
}

// Diagnostics behind others.
fn put_behind(faults: &mut Many<Diag>, more: Many<Diag>) -> Result<(), Memory>
    ensures { IfOk result (λ done. faults.new ≡ faults.old ++ more) }
{
    for fault in more.into_vec() {
        faults.push(fault)?;
    }
    Ok(())
}

// The operands, where each has a type.
#[tactic(auto, using(crate::proofs::ChainLemmas::typed_rows))]
fn all_typed(
    alloc: Global,
    more: Many<(CmpOp, Option<Box<TExpr>>)>,
) -> Result<Option<Many<(CmpOp, TExpr)>>, Memory>
    ensures { IfOk result (λ t. option_map (map operand_pair) t ≡ rule_of.all_typed (map maybe_pair more)) }
{
    let mut found = Some(Many::new(alloc));
    for (op, e) in more.into_vec() {
        found = with_operand(found, op, e)?;
    }
    Ok(found)
}

// Whether all pairs hold whose operands are typed; what is wrong is said.
fn pairs_hold(
    alloc: Global,
    classes: &Classes,
    span: Span,
    first: &Option<Box<TExpr>>,
    more: &[(CmpOp, Option<Box<TExpr>>)],
    faults: &mut Many<Diag>,
) -> Result<bool, Memory>
    ensures { IfOk result (λ right. Says right faults.old faults.new span (rule_of.pairs_faults (map class_entry classes.now.list) (option_map boxed first.now) (map maybe_pair more.now))) }
{
    let mut right = true;
    let mut left = first;
    for (op, e) in more {
        let holds = asked_pair(alloc, classes, span, left, *op, e, faults)?;
        right = right && holds;
        left = e;
    }
    Ok(right)
}

// A pair, where both its operands are typed.
fn asked_pair(
    alloc: Global,
    classes: &Classes,
    span: Span,
    left: &Option<Box<TExpr>>,
    op: CmpOp,
    right: &Option<Box<TExpr>>,
    faults: &mut Many<Diag>,
) -> Result<bool, Memory>
    ensures { IfOk result (λ holds. Says holds faults.old faults.new span (rule_of.asked_pair (map class_entry classes.now.list) (option_map boxed left.now) op (option_map boxed right.now))) }
{
    let Some(left) = left else {
        return Ok(true);
    };
    let Some(right) = right else {
        return Ok(true);
    };
    pair_holds(alloc, classes, span, &left.ty, op, right, faults)
}

// A value of a type with the operand behind it.
fn pair_holds(
    alloc: Global,
    classes: &Classes,
    span: Span,
    left: &Ty,
    op: CmpOp,
    right: &TExpr,
    faults: &mut Many<Diag>,
) -> Result<bool, Memory>
    ensures { IfOk result (λ holds. Says holds faults.old faults.new span (rule_of.pair_faults (map class_entry classes.now.list) (sort left.now) op (typed_expr right.now))) }
{
    if is_identity(op) {
        if is_none_literal(right) {
            return Ok(true);
        }
        only_for_none(alloc, span, faults)?;
        return Ok(false);
    }
    if are_comparable(classes, op, left, &right.ty) {
        return Ok(true);
    }
    unsupported_operands(
        alloc,
        classes,
        span,
        comparison_text(op),
        left,
        &right.ty,
        faults,
    )?;
    Ok(false)
}

fn is_none_literal(e: &TExpr) -> bool
    ensures { result ≡ typing.is_none_literal (typed_expr e.now) }
{
    matches!(e.kind, TKind::Nothing)
}

fn is_identity(op: CmpOp) -> bool
    ensures { result ≡ rule_of.is_identity op }
{
    matches!(op, CmpOp::Is | CmpOp::IsNot)
}

fn is_membership(op: CmpOp) -> bool
    ensures { result ≡ rule_of.is_membership op }
{
    matches!(op, CmpOp::Member | CmpOp::NotMember)
}

fn are_comparable(classes: &Classes, op: CmpOp, s: &Ty, t: &Ty) -> bool
    ensures { result ≡ rule_of.are_comparable (map class_entry classes.now.list) op (sort s.now) (sort t.now) }
{
    if is_membership(op) {
        is_key_for(classes, s, t)
    } else {
        are_numbers(s, t) || are_texts(s, t)
    }
}

fn is_key_for(classes: &Classes, s: &Ty, t: &Ty) -> bool
    ensures { result ≡ rule_of.is_key_for (map class_entry classes.now.list) (sort s.now) (sort t.now) }
{
    match t {
        Ty::Dict(k, _) => fits(s, k, classes),
        _ => false,
    }
}

fn comparison_text(op: CmpOp) -> &'static str
    ensures { result.now ≡ rule_of.comparison_text op }
{
    match op {
        CmpOp::Eq => "==",
        CmpOp::Ne => "!=",
        CmpOp::Lt => "<",
        CmpOp::Le => "<=",
        CmpOp::Gt => ">",
        CmpOp::Ge => ">=",
        CmpOp::Member => "in",
        CmpOp::NotMember => "not in",
        CmpOp::Is => "is",
        CmpOp::IsNot => "is not",
    }
}
