//! Rows of typed parts, and of values where values of types are asked for.
ghost use Rattle.std.specs.Prelude.{◌≡◌, ◌<◌, length, map, IfOk, IfSome};
ghost use Rattle.std.specs.Option.{option_map};
ghost use Rattle.py_typed.specs.Classes.{class_entry};
ghost use Rattle.py_typed.specs.Expressions.{typed_expr};
ghost use Rattle.py_check_context.specs.Context.{wanted, row};
ghost use Rattle.py_check_messages.specs.Rows as typing;
ghost use Rattle.py_check_coercions.specs.Boxes.{boxed, operand_pair};
ghost use Rattle.py_check_coercions.specs.Misfits.{misfit_seen};
ghost use Rattle.py_check_coercions.specs.Rows as rule_of;

use crate::values::changed;
use py_check_context::{Row, Want, wanted_at};
use py_syntax::CmpOp;
use py_typed::{Classes, TExpr, Ty, fits};
use std::alloc::Global;
use value_core::{Many, Memory};

/// One part more, if all are typed.
#[tactic(auto, using(crate::proofs::PartLemmas::rows))]
pub fn with_item(
    found: Option<Many<TExpr>>,
    e: Option<Box<TExpr>>,
) -> Result<Option<Many<TExpr>>, Memory>
    ensures { IfOk result (λ r. option_map (map typed_expr) r ≡ typing.kept (option_map (map typed_expr) found) (option_map boxed e)) }
{
    let Some(mut found) = found else {
        return Ok(None);
    };
    let Some(e) = e else {
        return Ok(None);
    };
    found.push(Box::into_inner(e))?;
    Ok(Some(found))
}

/// One operand more, behind its operator.
#[tactic(auto, using(crate::proofs::PartLemmas::rows))]
pub fn with_operand(
    found: Option<Many<(CmpOp, TExpr)>>,
    op: CmpOp,
    e: Option<Box<TExpr>>,
) -> Result<Option<Many<(CmpOp, TExpr)>>, Memory>
    ensures { IfOk result (λ r. option_map (map operand_pair) r ≡ typing.kept (option_map (map operand_pair) found) (option_map (λ t. (op, t)) (option_map boxed e))) }
{
    let Some(mut found) = found else {
        return Ok(None);
    };
    let Some(e) = e else {
        return Ok(None);
    };
    found.push((op, Box::into_inner(e)))?;
    Ok(Some(found))
}

/// A value that does not fit what is asked for: its place, its type, and the other one.
#[derive(Clone, Copy)]
pub struct Misfit<'a> {
    pub place: usize,
    pub found: &'a Ty,
    pub asked: &'a Ty,
}

/// The first value of a row that does not fit what is asked for.
pub fn unfit<'a>(classes: &Classes, asked: Row<'a>, es: &'a [TExpr]) -> Option<Misfit<'a>>
    ensures found { option_map misfit_seen result ≡ rule_of.unfit (map class_entry classes.now.list) (row asked.entry) 0 (map typed_expr es.now) }
    ensures within { IfSome result (λ m. m.place < length es.now) }
{
    for (i, e) in es.iter().enumerate() {
        if let Some(misfit) = unfit_at(classes, i, wanted_at(asked, i), e) {
            return Some(misfit);
        }
    }
    None
}

fn unfit_at<'a>(classes: &Classes, place: usize, want: Want<'a>, e: &'a TExpr) -> Option<Misfit<'a>>
    ensures found { option_map misfit_seen result ≡ rule_of.unfit_at (map class_entry classes.now.list) place (wanted want.entry) (typed_expr e.now) }
    ensures place { IfSome result (λ m. m.place ≡ place) }
{
    match want {
        Want::Wants(asked) => {
            if fits(&e.ty, asked, classes) {
                return None;
            }
            let found = &e.ty;
            Some(Misfit {
                place,
                found,
                asked,
            })
        }
        _ => None,
    }
}

/// Each value of a row as what is asked for.
pub fn changed_row(alloc: Global, es: Many<TExpr>, asked: Row<'_>) -> Result<Many<TExpr>, Memory>
    ensures { IfOk result (λ r. map typed_expr r ≡ rule_of.changed_row (row asked.entry) 0 (map typed_expr es)) }
{
    let mut rest = es;
    let mut back = Vec::new(alloc);
    while let Some(e) = rest.pop() {
        let e = Box::new(alloc, e)?;
        let e = changed(alloc, e, wanted_at(asked, rest.len()))?;
        back.push(Box::into_inner(e))?;
    }
    back.reverse();
    Ok(Many::from_vec(back))
}
