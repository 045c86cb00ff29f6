//! What a test tells of names.
ghost use Rattle.std.specs.Prelude.{◌≡◌, ◌++◌, map, IfOk};
ghost use Rattle.py_syntax.specs.Expressions.{expr_tree, comparison_tree, comparisons_of};
ghost use Rattle.py_typed.specs.Narrowing as narrowing;
ghost use Rattle.py_check_context.specs.Context.{context};
ghost use Rattle.py_check_operators.specs.Facts as rule_of;

use py_check_context::{Context, Meaning, meaning_of};
use py_syntax::{CmpOp, Expr, ExprKind};
use std::alloc::Global;
use value_core::Memory;

/// The locals that are known not to be None where the test has this outcome (mypy's guide, "Union types").
pub fn facts(
    alloc: Global,
    scope: &Context<'_>,
    outcome: bool,
    e: &Expr,
) -> Result<Vec<usize>, Memory>
    ensures { IfOk result (λ v. v.items ≡ rule_of.facts (context scope.now) outcome (expr_tree e.now)) }
{
    match &e.kind {
        ExprKind::Compare(who, cs) => compared(alloc, scope, outcome, who, cs.as_slice()),
        ExprKind::Not(e) => facts(alloc, scope, !outcome, e),
        ExprKind::And(a, b) => {
            let xs = facts(alloc, scope, outcome, a)?;
            let ys = facts(alloc, scope, outcome, b)?;
            joined(alloc, outcome, xs, ys)
        }
        ExprKind::Or(a, b) => {
            let xs = facts(alloc, scope, outcome, a)?;
            let ys = facts(alloc, scope, outcome, b)?;
            joined(alloc, !outcome, xs, ys)
        }
        _ => Ok(Vec::new(alloc)),
    }
}

// Both lists, or what they share.
fn joined(
    alloc: Global,
    together: bool,
    xs: Vec<usize>,
    ys: Vec<usize>,
) -> Result<Vec<usize>, Memory>
    ensures { IfOk result (λ v. v.items ≡ rule_of.joined_facts together xs.items ys.items) }
{
    if together {
        let mut all = xs;
        all.extend_from_slice(ys.as_slice())?;
        return Ok(all);
    }
    shared(alloc, xs.as_slice(), ys.as_slice())
}

/// What both have.
pub fn shared(alloc: Global, names: &[usize], others: &[usize]) -> Result<Vec<usize>, Memory>
    ensures { IfOk result (λ v. v.items ≡ narrowing.shared names.now others.now) }
{
    let found = names
        .iter()
        .copied()
        .filter(|x| others.contains(x))
        .collect(alloc)?;
    Ok(found)
}

// What a comparison tells.
fn compared(
    alloc: Global,
    scope: &Context<'_>,
    outcome: bool,
    who: &Expr,
    cs: &[(CmpOp, Expr)],
) -> Result<Vec<usize>, Memory>
    ensures { IfOk result (λ v. v.items ≡ rule_of.compared outcome (rule_of.subject (context scope.now) (expr_tree who.now)) (comparisons_of (map comparison_tree cs.now))) }
{
    match cs {
        [] => Ok(Vec::new(alloc)),
        [one] => {
            if is_none(&one.1) && tells(one.0, outcome) {
                subject(alloc, scope, who)
            } else {
                Ok(Vec::new(alloc))
            }
        }
        [_, _, ..] => Ok(Vec::new(alloc)),
    }
}

fn is_none(e: &Expr) -> bool
    ensures { result ≡ rule_of.is_none_tree (expr_tree e.now) }
{
    matches!(e.kind, ExprKind::Nothing)
}

fn tells(op: CmpOp, outcome: bool) -> bool
    ensures { result ≡ rule_of.tells op outcome }
{
    match op {
        CmpOp::Is => !outcome,
        CmpOp::IsNot => outcome,
        _ => false,
    }
}

fn subject(alloc: Global, scope: &Context<'_>, e: &Expr) -> Result<Vec<usize>, Memory>
    ensures { IfOk result (λ v. v.items ≡ rule_of.subject (context scope.now) (expr_tree e.now)) }
{
    match &e.kind {
        ExprKind::Name(x) => local(alloc, meaning_of(scope, x)),
        _ => Ok(Vec::new(alloc)),
    }
}

fn local(alloc: Global, meaning: Meaning) -> Result<Vec<usize>, Memory>
    ensures { IfOk result (λ v. v.items ≡ rule_of.local_of meaning) }
{
    let mut found = Vec::new(alloc);
    if let Meaning::Local(i) = meaning {
        found.push(i)?;
    }
    Ok(found)
}

/// What the test tells, before the names that are known.
pub fn with_facts(
    alloc: Global,
    scope: &Context<'_>,
    known: &[usize],
    outcome: bool,
    e: &Expr,
) -> Result<Vec<usize>, Memory>
    ensures { IfOk result (λ v. v.items ≡ rule_of.facts (context scope.now) outcome (expr_tree e.now) ++ known.now) }
{
    let mut all = facts(alloc, scope, outcome, e)?;
    all.extend_from_slice(known)?;
    Ok(all)
}
