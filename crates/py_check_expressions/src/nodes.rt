//! The typing of expressions: the parts of a node are typed, and then its rule is asked.
ghost use Rattle.std.specs.Prelude.{◌≡◌, ◌++◌, map, true, false, IfOk};
ghost use Rattle.std.specs.Option.{option_map};
ghost use Rattle.py_syntax.specs.Expressions.{expr_tree, expr_node, exprs_of, comparison_tree, comparisons_of, entry_tree, entries_of, arg_tree, arguments_of};
ghost use Rattle.py_typed.specs.Expressions.{TypedExpr, typed_expr, typed_entry};
ghost use Rattle.py_check_context.specs.Context.{wanted, free, test, row};
ghost use Rattle.py_check_messages.specs.Seen.{Tells, both, behind, rule, made};
ghost use Rattle.py_check_coercions.specs.Boxes.{boxed};
ghost use Rattle.py_check_operators.specs.Operators as operators;
ghost use Rattle.py_check_operators.specs.Chains as chains;
ghost use Rattle.py_check_operators.specs.Operands.{maybe_pair};
ghost use Rattle.py_check_operators.specs.Choices as choices;
ghost use Rattle.py_check_displays.specs.Displays as displays;
ghost use Rattle.py_check_displays.specs.Dicts as dicts;
ghost use Rattle.py_check_displays.specs.Entries.{entry_types};
ghost use Rattle.py_check_displays.specs.Indexing as items_of;
ghost use Rattle.py_check_calls.specs.Callees as callees;
ghost use Rattle.py_check_calls.specs.Methods as methods;
ghost use Rattle.py_check_calls.specs.Calls as calls;
ghost use Rattle.py_check_expressions.specs.Typing.{count};
ghost use Rattle.py_check_expressions.specs.TypingSeen.{context_in, typing_in, typing_where, items_in, entries_in, operands_in, each_operand_in, arguments_in, part_in, receiver_in};

use crate::environments::Environment;
use crate::leaves::{flag, nothing, number, text};
use py_check_calls::{
    CallSite, arguments_row, attribute, called, callee_of, has_key, is_named, is_super_init,
};
use py_check_coercions::with_item;
use py_check_context::{Row, Want, wanted_at};
use py_check_displays::{
    EntryTypes, dict_display, expected_entry, indexing, item_type, items_row, key_want,
    list_display, literal_of, parts_row, tuple_display, value_want, with_entry,
};
use py_check_operators::{
    affirmation, arithmetic, chain, choice, inversion, junction, named, negation, operand,
    with_facts,
};
use py_syntax::{Arg, BinOp, CmpOp, Expr, ExprKind, Span};
use py_syntax_diagnostics::Diag;
use py_typed::TExpr;
use std::alloc::Global;
use value_core::{Many, Memory, Name};

/// The typed expression, if it has a type; what is wrong with it and its parts goes behind the diagnostics that there are
/// (Python Language Reference, "Expressions"; PEP 484).
///
/// `environment` is what is known where the expression stands, and `want` what it is there for.
#[cycle(expression)]
pub fn expression(
    alloc: Global,
    environment: Environment<'_>,
    want: Want<'_>,
    e: &Expr,
    faults: &mut Many<Diag>,
) -> Result<Option<Box<TExpr>>, Memory>
    ensures { IfOk result (λ t. Tells boxed t faults.old faults.new (typing_in environment.entry (wanted want.entry) (expr_tree e.now))) }
{
    let span = e.span;
    match &e.kind {
        ExprKind::Int(n) => number(alloc, span, *n),
        ExprKind::Str(s) => text(alloc, span, s),
        ExprKind::True => flag(alloc, span, true),
        ExprKind::False => flag(alloc, span, false),
        ExprKind::Nothing => nothing(alloc, span),
        ExprKind::Name(x) => named(
            alloc,
            environment.scope,
            environment.vars,
            environment.known,
            span,
            x,
            faults,
        ),
        ExprKind::Neg(e) => negated(alloc, environment, span, e, faults),
        ExprKind::Plus(e) => affirmed(alloc, environment, span, e, faults),
        ExprKind::Not(e) => inverted(alloc, environment, span, e, faults),
        ExprKind::Bin(op, a, b) => computed(alloc, environment, span, *op, a, b, faults),
        ExprKind::Compare(e, cs) => compared(alloc, environment, span, e, cs.as_slice(), faults),
        ExprKind::And(a, b) => joined(alloc, environment, want, span, true, a, b, faults),
        ExprKind::Or(a, b) => joined(alloc, environment, want, span, false, a, b, faults),
        ExprKind::Cond(a, t, b) => chosen(alloc, environment, want, span, a, t, b, faults),
        ExprKind::List(es) => list(alloc, environment, want, span, es.as_slice(), faults),
        ExprKind::Tuple(es) => tuple(alloc, environment, want, span, es.as_slice(), faults),
        ExprKind::Dict(es) => dict(alloc, environment, want, span, es.as_slice(), faults),
        ExprKind::Index(e, i) => indexed(alloc, environment, span, e, i, faults),
        ExprKind::Attr(e, a) => member(alloc, environment, span, e, a, faults),
        ExprKind::Call(f, args) => call(alloc, environment, want, span, f, args.as_slice(), faults),
    }
}

// `-e`.
#[cycle(expression)]
fn negated(
    alloc: Global,
    environment: Environment<'_>,
    span: Span,
    e: &Expr,
    faults: &mut Many<Diag>,
) -> Result<Option<Box<TExpr>>, Memory>
    ensures { IfOk result (λ t. Tells boxed t faults.old faults.new (rule span (operators.negation (context_in environment.entry).classes span) (typing_in environment.entry free (expr_tree e.now)))) }
{
    let e = expression(alloc, environment, Want::Free, e, faults)?;
    negation(alloc, environment.scope.classes, span, e, faults)
}

// `+e`.
#[cycle(expression)]
fn affirmed(
    alloc: Global,
    environment: Environment<'_>,
    span: Span,
    e: &Expr,
    faults: &mut Many<Diag>,
) -> Result<Option<Box<TExpr>>, Memory>
    ensures { IfOk result (λ t. Tells boxed t faults.old faults.new (rule span (operators.affirmation (context_in environment.entry).classes) (typing_in environment.entry free (expr_tree e.now)))) }
{
    let e = expression(alloc, environment, Want::Free, e, faults)?;
    affirmation(alloc, environment.scope.classes, span, e, faults)
}

// `not e`.
#[cycle(expression)]
fn inverted(
    alloc: Global,
    environment: Environment<'_>,
    span: Span,
    e: &Expr,
    faults: &mut Many<Diag>,
) -> Result<Option<Box<TExpr>>, Memory>
    ensures { IfOk result (λ t. Tells boxed t faults.old faults.new (made (operators.inversion span) (typing_in environment.entry test (expr_tree e.now)))) }
{
    let e = expression(alloc, environment, Want::Test, e, faults)?;
    inversion(alloc, span, e)
}

// `a op b`.
#[cycle(expression)]
fn computed(
    alloc: Global,
    environment: Environment<'_>,
    span: Span,
    op: BinOp,
    a: &Expr,
    b: &Expr,
    faults: &mut Many<Diag>,
) -> Result<Option<Box<TExpr>>, Memory>
    ensures { IfOk result (λ t. Tells boxed t faults.old faults.new (rule span (operators.arithmetic (context_in environment.entry).classes span op) (both (typing_in environment.entry free (expr_tree a.now)) (typing_in environment.entry free (expr_tree b.now))))) }
{
    let a = expression(alloc, environment, Want::Free, a, faults)?;
    let b = expression(alloc, environment, Want::Free, b, faults)?;
    arithmetic(alloc, environment.scope.classes, span, op, a, b, faults)
}

// A chain of comparisons.
#[cycle(expression)]
fn compared(
    alloc: Global,
    environment: Environment<'_>,
    span: Span,
    e: &Expr,
    cs: &[(CmpOp, Expr)],
    faults: &mut Many<Diag>,
) -> Result<Option<Box<TExpr>>, Memory>
    ensures { IfOk result (λ t. Tells boxed t faults.old faults.new (chains.chain_of (context_in environment.entry).classes span (typing_in environment.entry free (expr_tree e.now)).got (each_operand_in environment.entry (comparisons_of (map comparison_tree cs.now))) ((typing_in environment.entry free (expr_tree e.now)).said ++ (operands_in environment.entry (comparisons_of (map comparison_tree cs.now))).said))) }
{
    let mut said = Many::new(alloc);
    let first = expression(alloc, environment, Want::Free, e, &mut said)?;
    let more = operands(alloc, environment, cs, &mut said)?;
    chain(
        alloc,
        environment.scope.classes,
        span,
        first,
        more,
        said,
        faults,
    )
}

// The further operands of a chain, which may have no type.
#[cycle(expression)]
fn operands(
    alloc: Global,
    environment: Environment<'_>,
    cs: &[(CmpOp, Expr)],
    faults: &mut Many<Diag>,
) -> Result<Many<(CmpOp, Option<Box<TExpr>>)>, Memory>
    ensures each { IfOk result (λ found. map maybe_pair found ≡ each_operand_in environment.entry (comparisons_of (map comparison_tree cs.now))) }
    ensures told { IfOk result (λ found. faults.new ≡ faults.old ++ (operands_in environment.entry (comparisons_of (map comparison_tree cs.now))).said) }
{
    let mut found = Many::new(alloc);
    for (op, e) in cs {
        let e = expression(alloc, environment, Want::Free, e, faults)?;
        found.push((*op, e))?;
    }
    Ok(found)
}

// `a and b`, or `a or b`: b is looked at where a does not decide.
#[cycle(expression)]
fn joined(
    alloc: Global,
    environment: Environment<'_>,
    want: Want<'_>,
    span: Span,
    conjoined: bool,
    a: &Expr,
    b: &Expr,
    faults: &mut Many<Diag>,
) -> Result<Option<Box<TExpr>>, Memory>
    ensures { IfOk result (λ t. Tells boxed t faults.old faults.new (rule span (choices.junction (context_in environment.entry).classes (wanted want.entry) conjoined span) (both (typing_in environment.entry (choices.operand (wanted want.entry)) (expr_tree a.now)) (typing_where environment.entry conjoined (expr_tree a.now) (choices.operand (wanted want.entry)) (expr_tree b.now))))) }
{
    let inner = operand(want);
    let left = expression(alloc, environment, inner, a, faults)?;
    let right = narrowed(alloc, environment, inner, b, conjoined, a, faults)?;
    junction(
        alloc,
        environment.scope.classes,
        span,
        want,
        conjoined,
        left,
        right,
        faults,
    )
}

// `a if t else b`.
#[cycle(expression)]
fn chosen(
    alloc: Global,
    environment: Environment<'_>,
    want: Want<'_>,
    span: Span,
    a: &Expr,
    t: &Expr,
    b: &Expr,
    faults: &mut Many<Diag>,
) -> Result<Option<Box<TExpr>>, Memory>
    ensures { IfOk result (λ r. Tells boxed r faults.old faults.new (rule span (choices.choice (context_in environment.entry).classes (wanted want.entry) span) (both (both (typing_where environment.entry true (expr_tree t.now) free (expr_tree a.now)) (typing_in environment.entry test (expr_tree t.now))) (typing_where environment.entry false (expr_tree t.now) free (expr_tree b.now))))) }
{
    let first = narrowed(alloc, environment, Want::Free, a, true, t, faults)?;
    let decision = expression(alloc, environment, Want::Test, t, faults)?;
    let second = narrowed(alloc, environment, Want::Free, b, false, t, faults)?;
    choice(
        alloc,
        environment.scope.classes,
        span,
        want,
        first,
        decision,
        second,
        faults,
    )
}

// An expression where a test has this outcome.
#[cycle(expression)]
fn narrowed(
    alloc: Global,
    environment: Environment<'_>,
    want: Want<'_>,
    e: &Expr,
    outcome: bool,
    t: &Expr,
    faults: &mut Many<Diag>,
) -> Result<Option<Box<TExpr>>, Memory>
    ensures { IfOk result (λ r. Tells boxed r faults.old faults.new (typing_where environment.entry outcome (expr_tree t.now) (wanted want.entry) (expr_tree e.now))) }
{
    let known = with_facts(alloc, environment.scope, environment.known, outcome, t)?;
    let narrower = Environment {
        known: known.as_slice(),
        ..environment
    };
    expression(alloc, narrower, want, e, faults)
}

// `[a, b]`.
#[cycle(expression)]
fn list(
    alloc: Global,
    environment: Environment<'_>,
    want: Want<'_>,
    span: Span,
    es: &[Expr],
    faults: &mut Many<Diag>,
) -> Result<Option<Box<TExpr>>, Memory>
    ensures { IfOk result (λ t. Tells boxed t faults.old faults.new (rule span (displays.list_display (context_in environment.entry).classes (displays.item_sort (wanted want.entry)) span) (items_in environment.entry (displays.items_row (displays.item_sort (wanted want.entry))) (exprs_of (map expr_tree es.now))))) }
{
    let expected = item_type(want);
    let es = items(alloc, environment, es, items_row(expected), faults)?;
    list_display(alloc, environment.scope.classes, span, expected, es, faults)
}

// `{a: b}`.
#[cycle(expression)]
fn dict(
    alloc: Global,
    environment: Environment<'_>,
    want: Want<'_>,
    span: Span,
    es: &[(Expr, Expr)],
    faults: &mut Many<Diag>,
) -> Result<Option<Box<TExpr>>, Memory>
    ensures { IfOk result (λ t. Tells boxed t faults.old faults.new (rule span (dicts.dict_display (context_in environment.entry).classes (dicts.entry_sorts (wanted want.entry)) span) (entries_in environment.entry (dicts.key_wanted (dicts.entry_sorts (wanted want.entry))) (dicts.value_wanted (dicts.entry_sorts (wanted want.entry))) (entries_of (map entry_tree es.now))))) }
{
    let expected = expected_entry(want);
    let es = entries(alloc, environment, es, expected, faults)?;
    dict_display(alloc, environment.scope.classes, span, expected, es, faults)
}

// Keys with their values in a row, each key before its value.
#[cycle(expression)]
fn entries(
    alloc: Global,
    environment: Environment<'_>,
    es: &[(Expr, Expr)],
    expected: Option<EntryTypes<'_>>,
    faults: &mut Many<Diag>,
) -> Result<Option<Many<(TExpr, TExpr)>>, Memory>
    ensures { IfOk result (λ t. Tells (map typed_entry) t faults.old faults.new (entries_in environment.entry (dicts.key_wanted (option_map entry_types expected.entry)) (dicts.value_wanted (option_map entry_types expected.entry)) (entries_of (map entry_tree es.now)))) }
{
    let mut found = Some(Many::new(alloc));
    for (k, e) in es {
        let key = expression(alloc, environment, key_want(expected), k, faults)?;
        let value = expression(alloc, environment, value_want(expected), e, faults)?;
        found = with_entry(found, key, value)?;
    }
    Ok(found)
}

// `(a, b)`.
#[cycle(expression)]
fn tuple(
    alloc: Global,
    environment: Environment<'_>,
    want: Want<'_>,
    span: Span,
    es: &[Expr],
    faults: &mut Many<Diag>,
) -> Result<Option<Box<TExpr>>, Memory>
    ensures { IfOk result (λ t. Tells boxed t faults.old faults.new (rule span (displays.tuple_display (context_in environment.entry).classes (displays.parts_row (wanted want.entry) (count (exprs_of (map expr_tree es.now)))) span) (items_in environment.entry (displays.parts_row (wanted want.entry) (count (exprs_of (map expr_tree es.now)))) (exprs_of (map expr_tree es.now))))) }
{
    let asked = parts_row(want, es.len());
    let es = items(alloc, environment, es, asked, faults)?;
    tuple_display(alloc, environment.scope.classes, span, asked, es, faults)
}

// Expressions in a row.
#[cycle(expression)]
fn items(
    alloc: Global,
    environment: Environment<'_>,
    es: &[Expr],
    asked: Row<'_>,
    faults: &mut Many<Diag>,
) -> Result<Option<Many<TExpr>>, Memory>
    ensures { IfOk result (λ t. Tells (map typed_expr) t faults.old faults.new (items_in environment.entry (row asked.entry) (exprs_of (map expr_tree es.now)))) }
{
    let mut found = Some(Many::new(alloc));
    for (i, e) in es.iter().enumerate() {
        let e = expression(alloc, environment, wanted_at(asked, i), e, faults)?;
        found = with_item(found, e)?;
    }
    Ok(found)
}

// `e[i]`.
#[cycle(expression)]
fn indexed(
    alloc: Global,
    environment: Environment<'_>,
    span: Span,
    e: &Expr,
    i: &Expr,
    faults: &mut Many<Diag>,
) -> Result<Option<Box<TExpr>>, Memory>
    ensures { IfOk result (λ t. Tells boxed t faults.old faults.new (rule span (items_of.indexing (context_in environment.entry).classes span (items_of.literal (expr_tree i.now))) (both (typing_in environment.entry free (expr_tree e.now)) (typing_in environment.entry free (expr_tree i.now))))) }
{
    let held = expression(alloc, environment, Want::Free, e, faults)?;
    let index = expression(alloc, environment, Want::Free, i, faults)?;
    indexing(
        alloc,
        environment.scope.classes,
        span,
        literal_of(i),
        held,
        index,
        faults,
    )
}

// `e.a` that is not called.
#[cycle(expression)]
fn member(
    alloc: Global,
    environment: Environment<'_>,
    span: Span,
    e: &Expr,
    a: &Name,
    faults: &mut Many<Diag>,
) -> Result<Option<Box<TExpr>>, Memory>
    ensures { IfOk result (λ t. Tells boxed t faults.old faults.new (behind (typing_in environment.entry free (expr_tree e.now)) (methods.attribute (context_in environment.entry) span a.now))) }
{
    let e = expression(alloc, environment, Want::Free, e, faults)?;
    attribute(alloc, environment.scope, span, a, e, faults)
}

// A call.
#[cycle(expression)]
fn call(
    alloc: Global,
    environment: Environment<'_>,
    want: Want<'_>,
    span: Span,
    f: &Expr,
    args: &[Arg],
    faults: &mut Many<Diag>,
) -> Result<Option<Box<TExpr>>, Memory>
    ensures { IfOk result (λ t. Tells boxed t faults.old faults.new (behind (part_in environment.entry (expr_tree f.now)) (λ p. behind (arguments_in environment.entry (calls.arguments_row (context_in environment.entry) (callees.callee (context_in environment.entry) (expr_tree f.now)) p) (arguments_of (map arg_tree args.now))) (calls.called (context_in environment.entry) (wanted want.entry) span (callees.has_key (arguments_of (map arg_tree args.now))) (callees.callee (context_in environment.entry) (expr_tree f.now)) p)))) }
{
    let callee = callee_of(environment.scope, f);
    let part = part(alloc, environment, f, faults)?;
    let asked = arguments_row(environment.scope, callee, &part);
    let es = arguments(alloc, environment, args, asked, faults)?;
    let site = CallSite {
        scope: environment.scope,
        span,
        want,
    };
    called(alloc, site, has_key(args), callee, part, es, faults)
}

// What is typed of a callee: the value of a method, and what is no name; a variable is read. Of `super().__init__` nothing is.
#[cycle(expression)]
fn part(
    alloc: Global,
    environment: Environment<'_>,
    f: &Expr,
    faults: &mut Many<Diag>,
) -> Result<Option<Box<TExpr>>, Memory>
    ensures { IfOk result (λ t. Tells boxed t faults.old faults.new (part_in environment.entry (expr_tree f.now))) }
{
    if is_named(environment.scope, f) {
        receiver(alloc, environment, &f.kind, faults)
    } else {
        expression(alloc, environment, Want::Free, f, faults)
    }
}

// The value of a method that is called.
#[cycle(expression)]
fn receiver(
    alloc: Global,
    environment: Environment<'_>,
    f: &ExprKind,
    faults: &mut Many<Diag>,
) -> Result<Option<Box<TExpr>>, Memory>
    ensures { IfOk result (λ t. Tells boxed t faults.old faults.new (receiver_in environment.entry (expr_node f.now))) }
{
    match f {
        ExprKind::Attr(e, _) => {
            if is_super_init(environment.scope, f) {
                Ok(None)
            } else {
                expression(alloc, environment, Want::Free, e, faults)
            }
        }
        _ => Ok(None),
    }
}

/// The arguments of a call, each typed for what the row asks at its place; their keys are not looked at
/// (Python Language Reference, "Calls").
#[cycle(expression)]
pub fn arguments(
    alloc: Global,
    environment: Environment<'_>,
    args: &[Arg],
    asked: Row<'_>,
    faults: &mut Many<Diag>,
) -> Result<Option<Many<TExpr>>, Memory>
    ensures { IfOk result (λ t. Tells (map typed_expr) t faults.old faults.new (arguments_in environment.entry (row asked.entry) (arguments_of (map arg_tree args.now)))) }
{
    let mut found = Some(Many::new(alloc));
    for (i, arg) in args.iter().enumerate() {
        let e = expression(alloc, environment, wanted_at(asked, i), &arg.value, faults)?;
        found = with_item(found, e)?;
    }
    Ok(found)
}
