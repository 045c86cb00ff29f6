//! What is not compiled, and on which line it stands.
//!
//! Each function takes the first found so far, and gives the first with those of what it goes over.
#![tactic(auto, using(crate::proofs::FormLemmas::rows))]

ghost use Rattle.std.specs.Prelude.{◌≡◌, ◌++◌, map, slice_get, Some, IfOk};
ghost use Rattle.std.specs.List.{flat_map};
ghost use Rattle.ir_builder_forms.specs.Least.{lesser, least};
ghost use Rattle.py_syntax.specs.Statements.{module_tree, stmt_tree, body_tree};
ghost use Rattle.py_check_names.specs.Walked.{trees};
ghost use Rattle.py_typed.specs.Expressions.{typed_expr, exprs_of, comparisons_of, typed_comparison};
ghost use Rattle.py_typed.specs.Statements.{typed_stmt, typed_target, ItemTarget, typed_suite, typed_arm, arms_of, maybe_typed, typed_func, typed_module};
ghost use Rattle.ir_builder_supported.specs.Expressions.{expression_forms, row_forms, chain_forms};
ghost use Rattle.ir_builder_supported.specs.Statements.{alone_forms, maybe_forms, target_forms, targets_forms, statement_forms, suite_forms, arms_forms, function_forms, functions_forms, class_form, uncompiled_form, def_line, def_lines, lines_held, function_lines, line_or_none};

use crate::forms::{is_form, is_function, is_list};
use crate::naming::{expression_at, function_form, kind, unbuilt};
use ir_builder_forms::{Form, Unbuilt, lesser};
use py_check_names::definitions_in;
use py_syntax::{CmpOp, Module, Stmt, StmtKind};
use py_typed::{Checked, TExpr, TFunc, TKind, TStmt, TStmtKind, Target};
use std::alloc::Global;
use value_core::{Many, Memory};

/// The class, statement, expression or function of a module that is not compiled and stands on the first line with any, where there is
/// one.
pub fn uncompiled_form(
    alloc: Global,
    parsed: &Module,
    checked: &Checked,
) -> Result<Option<Unbuilt>, Memory>
    ensures { IfOk result (λ found. found ≡ uncompiled_form (module_tree parsed.now) (typed_module checked.now)) }
{
    let definitions = definitions_in(alloc, parsed.body.as_slice())?;
    let lines = function_lines(alloc, definitions.as_slice())?;
    let found = in_classes(definitions.as_slice(), None);
    let found = in_suite(checked.top.as_slice(), found);
    Ok(in_functions(lines.as_slice(), checked.funcs.as_slice(), found))
}

/// In an expression.
#[cycle(expression)]
fn in_expression(e: &TExpr, found: Option<Unbuilt>) -> Option<Unbuilt>
    ensures { result ≡ least found (expression_forms (typed_expr e.now)) }
{
    if !is_form(e) {
        return Some(lesser(expression_at(e), found));
    }
    match &e.kind {
        TKind::Neg(a)
        | TKind::Not(a)
        | TKind::Truth(a)
        | TKind::TupleAt(a, _)
        | TKind::Len(a)
        | TKind::ToStr(a)
        | TKind::Pop(a)
        | TKind::Coerce(a) => in_expression(a, found),
        TKind::Arith(_, a, b)
        | TKind::Concat(a, b)
        | TKind::And(a, b)
        | TKind::Or(a, b)
        | TKind::At(a, b)
        | TKind::Append(a, b) => in_expression(b, in_expression(a, found)),
        TKind::Compare(a, more) => in_chain(more.as_slice(), in_expression(a, found)),
        TKind::Cond(a, test, b) => {
            let found = in_expression(test, in_expression(a, found));
            in_expression(b, found)
        }
        TKind::List(items) | TKind::Tuple(items) | TKind::Call(_, items) => {
            in_row(items.as_slice(), found)
        }
        TKind::Int(_)
        | TKind::Str(_)
        | TKind::Bool(_)
        | TKind::Nothing
        | TKind::Local(_)
        | TKind::Global(_)
        | TKind::Dict(_)
        | TKind::Attr(_, _)
        | TKind::Make(_, _)
        | TKind::MakeExc(_, _)
        | TKind::Method(_, _, _)
        | TKind::SuperInit(_, _)
        | TKind::Print(_)
        | TKind::Input => found,
    }
}

#[cycle(expression)]
fn in_row(items: &[TExpr], found: Option<Unbuilt>) -> Option<Unbuilt>
    ensures { result ≡ least found (row_forms (exprs_of (map typed_expr items.now))) }
{
    let mut found = found;
    for item in items {
        found = in_expression(item, found);
    }
    found
}

#[cycle(expression)]
fn in_chain(more: &[(CmpOp, TExpr)], found: Option<Unbuilt>) -> Option<Unbuilt>
    ensures { result ≡ least found (chain_forms (comparisons_of (map typed_comparison more.now))) }
{
    let mut found = found;
    for (_, operand) in more {
        found = in_expression(operand, found);
    }
    found
}

/// In an expression that stands alone: `print` writes any number of values.
fn in_alone(e: &TExpr, found: Option<Unbuilt>) -> Option<Unbuilt>
    ensures { result ≡ least found (alone_forms (typed_expr e.now)) }
{
    match &e.kind {
        TKind::Print(values) => in_row(values.as_slice(), found),
        _ => in_expression(e, found),
    }
}

/// In an expression that may be missing.
fn in_maybe(e: &Option<TExpr>, found: Option<Unbuilt>) -> Option<Unbuilt>
    ensures { result ≡ least found (maybe_forms (maybe_typed e.now)) }
{
    match e {
        None => found,
        Some(e) => in_expression(e, found),
    }
}

/// In what is assigned to by a statement on a line: an attribute is not compiled.
fn in_target(target: &Target, line: usize, found: Option<Unbuilt>) -> Option<Unbuilt>
    ensures { result ≡ least found (target_forms line (typed_target target.now)) }
{
    match target {
        Target::Local(_) | Target::Global(_) => found,
        Target::Attr(_, _) => Some(lesser(unbuilt(line, Form::Attribute), found)),
        Target::At(items, index) => in_item(items, index, line, found),
    }
}

/// In an item that is assigned to: in the parts that say which it is, where it is one of a list; else that itself.
fn in_item(items: &TExpr, index: &TExpr, line: usize, found: Option<Unbuilt>) -> Option<Unbuilt>
    ensures { result ≡ least found (target_forms line (ItemTarget (typed_expr items.now) (typed_expr index.now))) }
{
    if is_list(&items.ty) {
        in_expression(index, in_expression(items, found))
    } else {
        Some(lesser(unbuilt(line, Form::Index(kind(&items.ty))), found))
    }
}

fn in_targets(targets: &[Target], line: usize, found: Option<Unbuilt>) -> Option<Unbuilt>
    ensures { result ≡ least found (targets_forms line (map typed_target targets.now)) }
{
    let mut found = found;
    for target in targets {
        found = in_target(target, line, found);
    }
    found
}

#[cycle(statement)]
fn in_suite(body: &[TStmt], found: Option<Unbuilt>) -> Option<Unbuilt>
    ensures { result ≡ least found (suite_forms (typed_suite body.now)) }
{
    let mut found = found;
    for s in body {
        found = in_statement(s, found);
    }
    found
}

#[cycle(statement)]
fn in_statement(s: &TStmt, found: Option<Unbuilt>) -> Option<Unbuilt>
    ensures { result ≡ least found (statement_forms (typed_stmt s.now)) }
{
    match &s.kind {
        TStmtKind::Expr(e) => in_alone(e, found),
        TStmtKind::Assign(targets, e) => {
            in_expression(e, in_targets(targets.as_slice(), s.line, found))
        }
        TStmtKind::Aug(target, _, e, _) => in_expression(e, in_target(target, s.line, found)),
        TStmtKind::If(arms, other) => in_suite(other.as_slice(), in_arms(arms.as_slice(), found)),
        TStmtKind::While(test, body) => in_suite(body.as_slice(), in_expression(test, found)),
        TStmtKind::Return(e) => in_maybe(e, found),
        TStmtKind::Break | TStmtKind::Continue | TStmtKind::Pass => found,
        TStmtKind::Del(_, _) => Some(lesser(unbuilt(s.line, Form::Del), found)),
        TStmtKind::ForRange(targets, start, stop, body) => {
            let found = in_maybe(start, in_targets(targets.as_slice(), s.line, found));
            in_suite(body.as_slice(), in_expression(stop, found))
        }
        TStmtKind::ForList(targets, e, body) => {
            let found = in_targets(targets.as_slice(), s.line, found);
            in_suite(body.as_slice(), in_expression(e, found))
        }
        TStmtKind::ForDict(_, _, _) => Some(lesser(unbuilt(s.line, Form::For), found)),
        TStmtKind::Try(_, _, _) => Some(lesser(unbuilt(s.line, Form::Try), found)),
        TStmtKind::Raise(_) => Some(lesser(unbuilt(s.line, Form::Raise), found)),
        TStmtKind::Assert(_, _) => Some(lesser(unbuilt(s.line, Form::Assert), found)),
    }
}

#[cycle(statement)]
fn in_arms(arms: &[(TExpr, Many<TStmt>)], found: Option<Unbuilt>) -> Option<Unbuilt>
    ensures { result ≡ least found (arms_forms (arms_of (map typed_arm arms.now))) }
{
    let mut found = found;
    for (test, body) in arms {
        found = in_suite(body.as_slice(), in_expression(test, found));
    }
    found
}

/// In the body of a function, where the function is compiled; else the function, on the line of its definition.
fn in_function(f: &TFunc, line: usize, found: Option<Unbuilt>) -> Option<Unbuilt>
    ensures { result ≡ least found (function_forms line (typed_func f.now)) }
{
    if is_function(f) {
        in_suite(f.body.as_slice(), found)
    } else {
        Some(lesser(unbuilt(line, function_form(f)), found))
    }
}

/// In definitions, of which classes are not compiled.
fn in_classes(definitions: &[&Stmt], found: Option<Unbuilt>) -> Option<Unbuilt>
    ensures { result ≡ least found (flat_map class_form (trees definitions.now)) }
{
    let mut found = found;
    for s in definitions {
        found = in_class(*s, found);
    }
    found
}

fn in_class(s: &Stmt, found: Option<Unbuilt>) -> Option<Unbuilt>
    ensures { result ≡ least found (class_form (stmt_tree s.now)) }
{
    match &s.kind {
        StmtKind::Class(_) => Some(lesser(unbuilt(s.span.line, Form::Class), found)),
        _ => found,
    }
}

/// The lines of the functions that these definitions hold, by the functions' numbers.
fn function_lines(alloc: Global, definitions: &[&Stmt]) -> Result<Vec<usize>, Memory>
    ensures { IfOk result (λ lines. lines.items ≡ function_lines (trees definitions.now)) }
{
    let mut lines = Vec::new(alloc);
    for s in definitions {
        add_lines(*s, &mut lines)?;
    }
    Ok(lines)
}

/// Adds the lines of the functions that a definition holds.
fn add_lines(s: &Stmt, lines: &mut Vec<usize>) -> Result<(), Memory>
    ensures { IfOk result (λ done. lines.new.items ≡ lines.old.items ++ lines_held (stmt_tree s.now)) }
{
    match &s.kind {
        StmtKind::Def(_) => {
            lines.push(s.span.line)?;
            Ok(())
        }
        StmtKind::Class(c) => add_methods(c.body.as_slice(), lines),
        _ => Ok(()),
    }
}

fn add_methods(body: &[Stmt], lines: &mut Vec<usize>) -> Result<(), Memory>
    ensures { IfOk result (λ done. lines.new.items ≡ lines.old.items ++ def_lines (body_tree body.now)) }
{
    for s in body {
        add_line(s, lines)?;
    }
    Ok(())
}

/// Adds the line of a statement that defines a function.
fn add_line(s: &Stmt, lines: &mut Vec<usize>) -> Result<(), Memory>
    ensures { IfOk result (λ done. lines.new.items ≡ lines.old.items ++ def_line (stmt_tree s.now)) }
{
    match &s.kind {
        StmtKind::Def(_) => {
            lines.push(s.span.line)?;
            Ok(())
        }
        _ => Ok(()),
    }
}

/// The line of the function of a number, 0 where there is none.
fn line_of(lines: &[usize], n: usize) -> usize
    ensures { result ≡ line_or_none (slice_get lines.now n) }
{
    match lines.get(n) {
        None => 0,
        Some(line) => *line,
    }
}

/// In functions, which stand on these lines by their numbers.
fn in_functions(lines: &[usize], functions: &[TFunc], found: Option<Unbuilt>) -> Option<Unbuilt>
    ensures { result ≡ least found (functions_forms lines.now 0 (map typed_func functions.now)) }
{
    let mut found = found;
    for (n, f) in functions.iter().enumerate() {
        found = in_function(f, line_of(lines, n), found);
    }
    found
}
