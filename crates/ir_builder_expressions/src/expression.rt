//! The code of expressions.
ghost use Rattle.std.specs.Prelude.{◌≡◌, true, [], ◌∷◌, ◌++◌, length, map, IfOk, OnOk, is_some};
ghost use Rattle.py_typed.specs.Sorts.{sort};
ghost use Rattle.py_typed.specs.Expressions.{typed_expr, exprs_of, comparisons_of, typed_comparison, type_of};
ghost use Rattle.ir_builder_frames.specs.Building.{Extends};
ghost use Rattle.ir_builder_frames.specs.Settings.{rtype_of};
ghost use Rattle.ir_builder_frames.specs.Matching.{HasRoom};
ghost use Rattle.ir_builder_frames.specs.Placing.{HasType};
ghost use Rattle.ir_builder_expressions.specs.Site.{setting_of};
ghost use Rattle.ir_builder_expressions.specs.Parts.{is_scalar};
ghost use Rattle.ir_builder_expressions.specs.Applying.{UnarySuits, BinarySuits, applied_in, node_in};
ghost use Rattle.ir_builder_expressions.specs.Comparing.{kind_sort, is_shown_as};
ghost use Rattle.ir_builder_expressions.specs.Suiting.{Suits, SomeSuit, ComparisonsSuit, count_of};
ghost use Rattle.ir_builder_operations.specs.Boxes.{objects};
ghost use Rattle.ir_builder_expressions.specs.Arms.{arm_of, ArmSuits, ChoiceSuits, EmitsArm, EmitsChoice};
ghost use Rattle.ir_builder_expressions.specs.Lined.{listed, operands_in, parts_in_arm, parts_of, Lined, LinedParts};
ghost use Rattle.ir_builder_expressions.specs.Emitting.{Emits, EmitsPart, EmitsOne, EmitsTwo, EmitsObject, EmitsAll, EmitsSide, EmitsChain};

use crate::applying::{
    Applied, Binary, Unary, absence_in, emit_binary, emit_unary, native_literal, operation_in,
    wanted_of_part, wanted_of_parts,
};
use crate::chain::{begin_link, meet_links};
use crate::comparing::{Kind, Side, emit_pair, joined_kind, kind_of, shown_kind, type_of_kind};
use crate::global::emit_global_value;
use crate::local::emit_local_as;
use crate::site::Site;
use crate::truths::emit_truth_of;
use crate::types::{register_type, truth};
use ir_builder_choices::{begin, meet, turn};
use ir_builder_frames::Emitter;
use ir_builder_operations::{emit_boxed, emit_input, emit_int, emit_list, emit_text, emit_tuple};
use ir_core::{Lit, RType, Reg};
use py_syntax::CmpOp;
use py_typed::{TExpr, TKind, Ty};
use value_core::{Many, Memory};

// The type of the operand behind the first one of a chain, or else of that one. By it a literal that is compared with a native
// integer is one at once; the code is right whatever it is.
fn other_kind(e: &TExpr, rest: &[(CmpOp, TExpr)]) -> Kind {
    match rest {
        [] => kind_of(&e.ty),
        [(_, other), ..] => kind_of(&other.ty),
    }
}

/// Emits an expression, and answers the register that has its value (Python Language Reference, "Expressions"). Its own operations
/// have its line, and those of its parts have theirs. It fails for want of memory.
#[cycle(expression)]
pub fn emit_expression(b: &mut Emitter, site: Site, e: &TExpr) -> Result<Reg, Memory>
    requires suits { Suits (setting_of site).source (setting_of site).variables (typed_expr e.now) }
    requires room { HasRoom (setting_of site) b.old }
    ensures kept { Extends b.old b.new }
    ensures emitted { IfOk result (λ r. Emits (setting_of site.entry) (typed_expr e.now) b.old b.new r.0) }
    ensures lined { OnOk result (Lined (setting_of site.entry) (typed_expr e.now) b.old b.new) }
{
    let site = Site {
        line: e.span.line,
        ..site
    };
    match &e.kind {
        TKind::Int(n) => emit_int(b, site.alloc, *n, site.line),
        TKind::Str(text) => emit_text(b, site.alloc, text.as_str(), site.line),
        TKind::Bool(value) => b.literal(RType::Bool, truth(*value), site.line),
        TKind::Nothing => b.literal(RType::Ref, Lit::PyNone, site.line),
        TKind::Local(i) => emit_local_as(b, site, *i, &e.ty),
        TKind::Global(i) => emit_global_value(b, site, *i),
        TKind::Compare(x, rest) => match absence_in(rest.as_slice()) {
            Some(_) => emit_applied(b, site, e),
            None => {
                let other = other_kind(x, rest.as_slice());
                let first = emit_side(b, site, other, x)?;
                emit_chain(b, site, first, rest.as_slice())
            }
        },
        TKind::And(x, y) => {
            let right = Some(&**y);
            emit_choice(b, site, &e.ty, x, right, None)
        }
        TKind::Or(x, y) => {
            let right = Some(&**y);
            emit_choice(b, site, &e.ty, x, None, right)
        }
        TKind::Cond(x, test, y) => {
            let (body, other) = (Some(&**x), Some(&**y));
            emit_choice(b, site, &e.ty, test, body, other)
        }
        TKind::List(items) => {
            let items = emit_objects(b, site, items.as_slice())?;
            emit_list(b, site.alloc, items.as_slice(), site.line)
        }
        TKind::Tuple(parts) => {
            let parts = emit_objects(b, site, parts.as_slice())?;
            emit_tuple(b, site.alloc, parts.as_slice(), site.line)
        }
        TKind::Call(f, args) => {
            let args = emit_arguments(b, site, args.as_slice())?;
            b.call(register_type(&e.ty), *f, args, site.line)
        }
        TKind::Input => emit_input(b, site.alloc, site.line),
        _ => emit_applied(b, site, e),
    }
}

// An operation on parts.
#[cycle(expression)]
fn emit_applied(b: &mut Emitter, site: Site, e: &TExpr) -> Result<Reg, Memory>
    requires applied { is_some (applied_in (node_in (typed_expr e.now))) ≡ true }
    requires suits { Suits (setting_of site).source (setting_of site).variables (typed_expr e.now) }
    requires room { HasRoom (setting_of site) b.old }
    ensures kept { Extends b.old b.new }
    ensures emitted { IfOk result (λ r. Emits (setting_of site.entry) (typed_expr e.now) b.old b.new r.0) }
    ensures lined { OnOk result (LinedParts (setting_of site.entry) site.entry.line (parts_of (node_in (typed_expr e.now))) b.old b.new) }
{
    match operation_in(e) {
        Applied::One(op, x) => emit_one_part(b, site, op, &e.ty, x),
        Applied::Two(op, x, y) => emit_two_parts(b, site, op, &e.ty, x, y),
    }
}

/// Emits a part of an operation whose result is of a type, and answers the register that has its value. An `int` literal that is
/// a native integer is one at once, where the operation is on native integers.
#[cycle(expression)]
fn emit_part(b: &mut Emitter, site: Site, t: &Ty, e: &TExpr) -> Result<Reg, Memory>
    requires suits { Suits (setting_of site).source (setting_of site).variables (typed_expr e.now) }
    requires room { HasRoom (setting_of site) b.old }
    ensures kept { Extends b.old b.new }
    ensures emitted { IfOk result (λ r. EmitsPart (setting_of site.entry) (sort t.now) (typed_expr e.now) b.old b.new r.0) }
    ensures lined { OnOk result (Lined (setting_of site.entry) (typed_expr e.now) b.old b.new) }
{
    match native_literal(e, t) {
        Some(n) => b.literal(RType::I64, Lit::Number(n), e.span.line),
        None => emit_expression(b, site, e),
    }
}

// An operation on one part, with a result of a type.
#[cycle(expression)]
fn emit_one_part(b: &mut Emitter, site: Site, op: Unary, t: &Ty, e: &TExpr) -> Result<Reg, Memory>
    requires fits { UnarySuits op (sort t.now) (sort e.now.ty) }
    requires suits { Suits (setting_of site).source (setting_of site).variables (typed_expr e.now) }
    requires room { HasRoom (setting_of site) b.old }
    ensures kept { Extends b.old b.new }
    ensures emitted { IfOk result (λ r. EmitsOne (setting_of site.entry) op (sort t.now) (typed_expr e.now) b.old b.new r.0) }
    ensures lined { OnOk result (LinedParts (setting_of site.entry) site.entry.line (typed_expr e.now ∷ []) b.old b.new) }
{
    let x = emit_part(b, site, wanted_of_part(op, t, e), e)?;
    emit_unary(b, site.alloc, op, t, e, x, site.line)
}

/// An operation on two parts, with a result of a type. It fails for want of memory.
#[cycle(expression)]
pub fn emit_two_parts(
    b: &mut Emitter,
    site: Site,
    op: Binary,
    t: &Ty,
    left: &TExpr,
    right: &TExpr,
) -> Result<Reg, Memory>
    requires fits { BinarySuits op (sort t.now) (sort left.now.ty) (sort right.now.ty) }
    requires left { Suits (setting_of site).source (setting_of site).variables (typed_expr left.now) }
    requires right { Suits (setting_of site).source (setting_of site).variables (typed_expr right.now) }
    requires room { HasRoom (setting_of site) b.old }
    ensures kept { Extends b.old b.new }
    ensures emitted { IfOk result (λ r. EmitsTwo (setting_of site.entry) op (sort t.now) (typed_expr left.now) (typed_expr right.now) b.old b.new r.0) }
    ensures lined { OnOk result (LinedParts (setting_of site.entry) site.entry.line (typed_expr left.now ∷ typed_expr right.now ∷ []) b.old b.new) }
{
    let wanted = wanted_of_parts(op, t, left);
    let x = emit_part(b, site, wanted, left)?;
    let y = emit_part(b, site, wanted, right)?;
    emit_binary(b, site.alloc, op, t, left, right, x, y, site.line)
}

/// Emits expressions from the left, and answers their registers. It fails for want of memory.
#[cycle(expression)]
pub fn emit_arguments(b: &mut Emitter, site: Site, args: &[TExpr]) -> Result<Many<Reg>, Memory>
    requires suits { SomeSuit (setting_of site).source (setting_of site).variables (map typed_expr args.now) }
    requires room { HasRoom (setting_of site) b.old }
    ensures kept { Extends b.old b.new }
    ensures emitted { IfOk result (λ rs. EmitsAll (setting_of site.entry) (map type_of (map typed_expr args.now)) (exprs_of (map typed_expr args.now)) b.old b.new rs) }
    ensures lined { OnOk result (LinedParts (setting_of site.entry) site.entry.line (listed (exprs_of (map typed_expr args.now))) b.old b.new) }
{
    let mut regs = Many::new(site.alloc);
    for e in args {
        let r = emit_expression(b, site, e)?;
        regs.push(r)?;
    }
    Ok(regs)
}

/// Emits an expression, and answers a register that has its value as an object. It fails for want of memory.
#[cycle(expression)]
pub fn emit_object(b: &mut Emitter, site: Site, e: &TExpr) -> Result<Reg, Memory>
    requires suits { Suits (setting_of site).source (setting_of site).variables (typed_expr e.now) }
    requires room { HasRoom (setting_of site) b.old }
    ensures kept { Extends b.old b.new }
    ensures emitted { IfOk result (λ r. EmitsObject (setting_of site.entry) (typed_expr e.now) b.old b.new r.0) }
    ensures lined { OnOk result (LinedParts (setting_of site.entry) site.entry.line (typed_expr e.now ∷ []) b.old b.new) }
{
    let x = emit_expression(b, site, e)?;
    emit_boxed(b, site.alloc, &e.ty, x, site.line)
}

// Emits expressions from the left, and answers registers that have their values as objects. Each is one before the next is computed.
#[cycle(expression)]
fn emit_objects(b: &mut Emitter, site: Site, items: &[TExpr]) -> Result<Many<Reg>, Memory>
    requires suits { SomeSuit (setting_of site).source (setting_of site).variables (map typed_expr items.now) }
    requires room { HasRoom (setting_of site) b.old }
    ensures kept { Extends b.old b.new }
    ensures emitted { IfOk result (λ rs. EmitsAll (setting_of site.entry) (objects rs) (exprs_of (map typed_expr items.now)) b.old b.new rs) }
    ensures lined { OnOk result (LinedParts (setting_of site.entry) site.entry.line (listed (exprs_of (map typed_expr items.now))) b.old b.new) }
    ensures count { IfOk result (λ rs. length rs ≡ count_of (exprs_of (map typed_expr items.now))) }
{
    let mut regs = Many::new(site.alloc);
    for e in items {
        let r = emit_object(b, site, e)?;
        regs.push(r)?;
    }
    Ok(regs)
}

// A choice of a type by the truth of a part. A missing arm gives the tested value itself.
#[cycle(expression)]
fn emit_choice(
    b: &mut Emitter,
    site: Site,
    t: &Ty,
    test: &TExpr,
    body: Option<&TExpr>,
    other: Option<&TExpr>,
) -> Result<Reg, Memory>
    requires suits { ChoiceSuits (setting_of site).source (setting_of site).variables (sort t.now) (typed_expr test.now) (arm_of body) (arm_of other) }
    requires room { HasRoom (setting_of site) b.old }
    ensures kept { Extends b.old b.new }
    ensures emitted { IfOk result (λ r. EmitsChoice (setting_of site.entry) (sort t.now) (typed_expr test.now) (arm_of body.entry) (arm_of other.entry) b.old b.new r.0) }
    ensures lined { OnOk result (LinedParts (setting_of site.entry) site.entry.line (typed_expr test.now ∷ (parts_in_arm (arm_of body.entry) ++ parts_in_arm (arm_of other.entry))) b.old b.new) }
{
    let tested = emit_expression(b, site, test)?;
    let condition = emit_truth_of(b, site.alloc, &test.ty, tested, site.line)?;
    let choice = begin(b, register_type(t))?;
    let x = emit_arm(b, site, body, tested)?;
    let end = turn(b, choice, x, site.line)?;
    let second = b.here();
    let y = emit_arm(b, site, other, tested)?;
    meet(b, choice, condition, end, second, y, site.line)?;
    Ok(choice.target)
}

// An arm of a choice, behind the tested value.
#[cycle(expression)]
fn emit_arm(b: &mut Emitter, site: Site, arm: Option<&TExpr>, tested: Reg) -> Result<Reg, Memory>
    requires suits { ArmSuits (setting_of site).source (setting_of site).variables (arm_of arm) }
    requires room { HasRoom (setting_of site) b.old }
    ensures kept { Extends b.old b.new }
    ensures emitted { IfOk result (λ r. EmitsArm (setting_of site.entry) tested.0 (arm_of arm.entry) b.old b.new r.0) }
    ensures lined { OnOk result (LinedParts (setting_of site.entry) site.entry.line (parts_in_arm (arm_of arm.entry)) b.old b.new) }
{
    match arm {
        Some(e) => emit_expression(b, site, e),
        None => Ok(tested),
    }
}

// Emits an operand that is compared with one of a type.
#[cycle(expression)]
fn emit_side(b: &mut Emitter, site: Site, other: Kind, e: &TExpr) -> Result<Side, Memory>
    requires simple { is_scalar (sort e.now.ty) ≡ true }
    requires suits { Suits (setting_of site).source (setting_of site).variables (typed_expr e.now) }
    requires room { HasRoom (setting_of site) b.old }
    ensures kept { Extends b.old b.new }
    ensures emitted { IfOk result (λ q. EmitsSide (setting_of site.entry) (typed_expr e.now) q b.old b.new) }
    ensures lined { OnOk result (Lined (setting_of site.entry) (typed_expr e.now) b.old b.new) }
{
    let own = kind_of(&e.ty);
    let to = type_of_kind(joined_kind(other, own));
    let shown = shown_kind(e, &to);
    let reg = emit_part(b, site, &to, e)?;
    Ok(Side { reg, own, shown })
}

// The comparisons of a chain behind an operand, up to the first that does not hold; and the register of the result.
#[cycle(expression)]
fn emit_chain(
    b: &mut Emitter,
    site: Site,
    first: Side,
    rest: &[(CmpOp, TExpr)],
) -> Result<Reg, Memory>
    requires suits { ComparisonsSuit (setting_of site).source (setting_of site).variables (kind_sort first.own) (comparisons_of (map typed_comparison rest.now)) }
    requires shown { is_shown_as (kind_sort first.own) (kind_sort first.shown) ≡ true }
    requires room { HasRoom (setting_of site) b.old }
    requires first { HasType b.old first.reg.0 (rtype_of (kind_sort first.shown)) }
    ensures kept { Extends b.old b.new }
    ensures emitted { IfOk result (λ r. EmitsChain (setting_of site.entry) (kind_sort first.own) (kind_sort first.shown) first.reg.0 (comparisons_of (map typed_comparison rest.now)) b.old b.new r.0) }
    ensures lined { OnOk result (LinedParts (setting_of site.entry) site.entry.line (operands_in (comparisons_of (map typed_comparison rest.now))) b.old b.new) }
{
    match rest {
        [] => b.literal(RType::Bool, truth(true), site.line),
        [(op, e), more @ ..] => {
            let mut left = emit_side(b, site, first.own, e)?;
            let mut holds = emit_pair(b, site.alloc, *op, first, left, site.line)?;
            let mut links = Many::new(site.alloc);
            for (op, e) in more {
                begin_link(b, &mut links, holds)?;
                let right = emit_side(b, site, left.own, e)?;
                holds = emit_pair(b, site.alloc, *op, left, right, site.line)?;
                left = right;
            }
            meet_links(b, links, holds, site.line)
        }
    }
}
