//! `and`, `or` and conditional expressions.
ghost use Rattle.std.specs.Prelude.{◌≡◌, map, IfOk};
ghost use Rattle.std.specs.Option.{option_map, option_zip};
ghost use Rattle.py_typed.specs.Sorts.{sort};
ghost use Rattle.py_typed.specs.Classes.{class_entry};
ghost use Rattle.py_typed.specs.Expressions.{typed_node};
ghost use Rattle.py_check_context.specs.Context.{wanted};
ghost use Rattle.py_check_messages.specs.Seen.{Tells, ruled};
ghost use Rattle.py_check_coercions.specs.Boxes.{boxed};
ghost use Rattle.py_check_operators.specs.Choices as rule_of;

use py_check_coercions::{coerced, kept, truth};
use py_check_context::Want;
use py_check_messages::no_common_type;
use py_syntax::Span;
use py_syntax_diagnostics::Diag;
use py_typed::{Classes, TExpr, TKind, Ty, copy_of, fits, join};
use std::alloc::Global;
use value_core::{Many, Memory};

/// `a and b`, or `a or b` (Python Language Reference, "Boolean operations").
pub fn junction(
    alloc: Global,
    classes: &Classes,
    span: Span,
    want: Want<'_>,
    conjoined: bool,
    a: Option<Box<TExpr>>,
    b: Option<Box<TExpr>>,
    faults: &mut Many<Diag>,
) -> Result<Option<Box<TExpr>>, Memory>
    ensures { IfOk result (λ t. Tells boxed t faults.old faults.new (ruled span (rule_of.junction (map class_entry classes.now.list) (wanted want.entry) conjoined span) (option_zip (option_map boxed a) (option_map boxed b)))) }
{
    let Some(a) = a else {
        return Ok(None);
    };
    let Some(b) = b else {
        return Ok(None);
    };
    if is_test(want) {
        let a = truth(alloc, a)?;
        let b = truth(alloc, b)?;
        let e = kept(alloc, word_node(conjoined, a, b), Ty::Bool, span)?;
        return Ok(Some(e));
    }
    let Some(t) = join(alloc, &a.ty, &b.ty, classes)? else {
        no_common_type(
            alloc,
            classes,
            span,
            word_text(conjoined),
            &a.ty,
            &b.ty,
            faults,
        )?;
        return Ok(None);
    };
    let a = coerced(alloc, a, &t)?;
    let b = coerced(alloc, b, &t)?;
    let e = kept(alloc, word_node(conjoined, a, b), t, span)?;
    Ok(Some(e))
}

fn is_test(want: Want<'_>) -> bool
    ensures { result ≡ rule_of.is_test (wanted want.entry) }
{
    matches!(want, Want::Test)
}

fn word_text(conjoined: bool) -> &'static str
    ensures { result.now ≡ rule_of.word_text conjoined }
{
    if conjoined { "and" } else { "or" }
}

fn word_node(conjoined: bool, a: Box<TExpr>, b: Box<TExpr>) -> TKind
    ensures { typed_node result ≡ rule_of.word_node conjoined (boxed a) (boxed b) }
{
    if conjoined {
        TKind::And(a, b)
    } else {
        TKind::Or(a, b)
    }
}

/// What the operands of `and` and `or` are there for.
pub fn operand(want: Want<'_>) -> Want<'_>
    ensures { wanted result ≡ rule_of.operand (wanted want.entry) }
{
    match want {
        Want::Test => Want::Test,
        _ => Want::Free,
    }
}

/// `a if test else b` (Python Language Reference, "Conditional expressions").
pub fn choice(
    alloc: Global,
    classes: &Classes,
    span: Span,
    want: Want<'_>,
    a: Option<Box<TExpr>>,
    test: Option<Box<TExpr>>,
    b: Option<Box<TExpr>>,
    faults: &mut Many<Diag>,
) -> Result<Option<Box<TExpr>>, Memory>
    ensures { IfOk result (λ t. Tells boxed t faults.old faults.new (ruled span (rule_of.choice (map class_entry classes.now.list) (wanted want.entry) span) (option_zip (option_zip (option_map boxed a) (option_map boxed test)) (option_map boxed b)))) }
{
    let Some(a) = a else {
        return Ok(None);
    };
    let Some(test) = test else {
        return Ok(None);
    };
    let Some(b) = b else {
        return Ok(None);
    };
    let Some(t) = choice_type(alloc, classes, want, &a.ty, &b.ty)? else {
        no_common_type(alloc, classes, span, "if", &a.ty, &b.ty, faults)?;
        return Ok(None);
    };
    let a = coerced(alloc, a, &t)?;
    let test = truth(alloc, test)?;
    let b = coerced(alloc, b, &t)?;
    let e = kept(alloc, TKind::Cond(a, test, b), t, span)?;
    Ok(Some(e))
}

// The type of a conditional.
fn choice_type(
    alloc: Global,
    classes: &Classes,
    want: Want<'_>,
    r: &Ty,
    s: &Ty,
) -> Result<Option<Ty>, Memory>
    ensures { IfOk result (λ t. option_map sort t ≡ rule_of.choice_type (map class_entry classes.now.list) (wanted want.entry) (sort r.now) (sort s.now)) }
{
    match want {
        Want::Wants(t) => {
            if fits(r, t, classes) && fits(s, t, classes) {
                let t = copy_of(alloc, t)?;
                return Ok(Some(t));
            }
            join(alloc, r, s, classes)
        }
        _ => join(alloc, r, s, classes),
    }
}
