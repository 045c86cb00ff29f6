//! Statements made of finished parts. Each stands on the heap.
ghost use Rattle.std.specs.Prelude.{◌≡◌, Some, None, map, IfOk};
ghost use Rattle.std.specs.Option.{option_map};
ghost use Rattle.py_syntax.specs.Expressions.{expr_tree};
ghost use Rattle.py_syntax.specs.Statements as tree;
ghost use Rattle.py_syntax.specs.Statements.{stmt_tree, stmt_node, maybe_expr, arm_tree, body_tree, handler_tree, arms_of, handlers_of, maybe_suite};
ghost use Rattle.py_parser_nodes.specs.Parts.{maybe_boxed, handler_of};

use py_syntax::{BinOp, Expr, Handler, Span, Stmt, StmtKind};
use std::alloc::Global;
use value_core::{Many, Memory, Name};

/// A statement at a place.
pub fn boxed(alloc: Global, kind: StmtKind, span: Span) -> Result<Box<Stmt>, Memory>
    ensures { IfOk result (λ s. stmt_tree s.value ≡ tree.at (stmt_node kind) span) }
{
    Ok(Box::new(alloc, Stmt { kind, span })?)
}

/// `return`.
#[tactic(auto, using(crate::proofs::StatementNodes::nodes))]
pub fn returning(alloc: Global, span: Span) -> Result<Box<Stmt>, Memory>
    ensures { IfOk result (λ s. stmt_tree s.value ≡ tree.at (tree.Return None) span) }
{
    let kind = StmtKind::Return(None);
    boxed(alloc, kind, span)
}

/// `return` with a value.
#[tactic(auto, using(crate::proofs::StatementNodes::nodes))]
pub fn returning_value(alloc: Global, value: Box<Expr>, span: Span) -> Result<Box<Stmt>, Memory>
    ensures { IfOk result (λ s. stmt_tree s.value ≡ tree.at (tree.Return (Some (expr_tree value.value))) span) }
{
    let kind = StmtKind::Return(Some(Box::into_inner(value)));
    boxed(alloc, kind, span)
}

/// `raise`.
#[tactic(auto, using(crate::proofs::StatementNodes::nodes))]
pub fn raising(alloc: Global, span: Span) -> Result<Box<Stmt>, Memory>
    ensures { IfOk result (λ s. stmt_tree s.value ≡ tree.at (tree.Raise None) span) }
{
    let kind = StmtKind::Raise(None);
    boxed(alloc, kind, span)
}

/// `raise` with an exception.
#[tactic(auto, using(crate::proofs::StatementNodes::nodes))]
pub fn raising_value(alloc: Global, value: Box<Expr>, span: Span) -> Result<Box<Stmt>, Memory>
    ensures { IfOk result (λ s. stmt_tree s.value ≡ tree.at (tree.Raise (Some (expr_tree value.value))) span) }
{
    let kind = StmtKind::Raise(Some(Box::into_inner(value)));
    boxed(alloc, kind, span)
}

/// `assert`.
#[tactic(auto, using(crate::proofs::StatementNodes::nodes))]
pub fn asserting(alloc: Global, test: Box<Expr>, span: Span) -> Result<Box<Stmt>, Memory>
    ensures { IfOk result (λ s. stmt_tree s.value ≡ tree.at (tree.Assert (expr_tree test.value) None) span) }
{
    let kind = StmtKind::Assert(Box::into_inner(test), None);
    boxed(alloc, kind, span)
}

/// `assert` with a message.
#[tactic(auto, using(crate::proofs::StatementNodes::nodes))]
pub fn asserting_with(
    alloc: Global,
    test: Box<Expr>,
    message: Box<Expr>,
    span: Span,
) -> Result<Box<Stmt>, Memory>
    ensures { IfOk result (λ s. stmt_tree s.value ≡ tree.at (tree.Assert (expr_tree test.value) (Some (expr_tree message.value))) span) }
{
    let kind = StmtKind::Assert(Box::into_inner(test), Some(Box::into_inner(message)));
    boxed(alloc, kind, span)
}

/// `del`.
#[tactic(auto, using(crate::proofs::StatementNodes::nodes))]
pub fn deleting(alloc: Global, target: Box<Expr>, span: Span) -> Result<Box<Stmt>, Memory>
    ensures { IfOk result (λ s. stmt_tree s.value ≡ tree.at (tree.Del (expr_tree target.value)) span) }
{
    let kind = StmtKind::Del(Box::into_inner(target));
    boxed(alloc, kind, span)
}

/// `global`.
#[tactic(auto, using(crate::proofs::StatementNodes::nodes))]
pub fn globals(alloc: Global, names: Many<Name>, span: Span) -> Result<Box<Stmt>, Memory>
    ensures { IfOk result (λ s. stmt_tree s.value ≡ tree.at (tree.Global names) span) }
{
    let kind = StmtKind::Global(names);
    boxed(alloc, kind, span)
}

/// `import`.
#[tactic(auto, using(crate::proofs::StatementNodes::nodes))]
pub fn importing(
    alloc: Global,
    source: Name,
    other: Option<Name>,
    span: Span,
) -> Result<Box<Stmt>, Memory>
    ensures { IfOk result (λ s. stmt_tree s.value ≡ tree.at (tree.Import source other) span) }
{
    let kind = StmtKind::Import(source, other);
    boxed(alloc, kind, span)
}

/// `from`.
#[tactic(auto, using(crate::proofs::StatementNodes::nodes))]
pub fn from_importing(
    alloc: Global,
    source: Name,
    names: Many<(Name, Option<Name>)>,
    span: Span,
) -> Result<Box<Stmt>, Memory>
    ensures { IfOk result (λ s. stmt_tree s.value ≡ tree.at (tree.From source names) span) }
{
    let kind = StmtKind::From(source, names);
    boxed(alloc, kind, span)
}

/// An expression alone.
#[tactic(auto, using(crate::proofs::StatementNodes::nodes))]
pub fn alone(alloc: Global, value: Box<Expr>, begin: Span) -> Result<Box<Stmt>, Memory>
    ensures { IfOk result (λ s. stmt_tree s.value ≡ tree.at (tree.Do (expr_tree value.value)) begin) }
{
    let kind = StmtKind::Expr(Box::into_inner(value));
    boxed(alloc, kind, begin)
}

/// An assignment.
#[tactic(auto, using(crate::proofs::StatementNodes::nodes))]
pub fn assigning(
    alloc: Global,
    target: Box<Expr>,
    value: Box<Expr>,
    begin: Span,
) -> Result<Box<Stmt>, Memory>
    ensures { IfOk result (λ s. stmt_tree s.value ≡ tree.at (tree.Assign (expr_tree target.value) (expr_tree value.value)) begin) }
{
    let kind = StmtKind::Assign(Box::into_inner(target), Box::into_inner(value));
    boxed(alloc, kind, begin)
}

/// An augmented assignment.
#[tactic(auto, using(crate::proofs::StatementNodes::nodes))]
pub fn augmented(
    alloc: Global,
    target: Box<Expr>,
    op: BinOp,
    value: Box<Expr>,
    begin: Span,
) -> Result<Box<Stmt>, Memory>
    ensures { IfOk result (λ s. stmt_tree s.value ≡ tree.at (tree.Aug (expr_tree target.value) op (expr_tree value.value)) begin) }
{
    let kind = StmtKind::Aug(Box::into_inner(target), op, Box::into_inner(value));
    boxed(alloc, kind, begin)
}

/// An annotation.
#[tactic(auto, using(crate::proofs::StatementNodes::nodes))]
pub fn annotating(
    alloc: Global,
    target: Box<Expr>,
    annotation: Box<Expr>,
    begin: Span,
) -> Result<Box<Stmt>, Memory>
    ensures { IfOk result (λ s. stmt_tree s.value ≡ tree.at (tree.Annot (expr_tree target.value) (expr_tree annotation.value) None) begin) }
{
    let kind = StmtKind::Annot(Box::into_inner(target), Box::into_inner(annotation), None);
    boxed(alloc, kind, begin)
}

/// An annotation with a value.
#[tactic(auto, using(crate::proofs::StatementNodes::nodes))]
pub fn annotating_with(
    alloc: Global,
    target: Box<Expr>,
    annotation: Box<Expr>,
    value: Box<Expr>,
    begin: Span,
) -> Result<Box<Stmt>, Memory>
    ensures { IfOk result (λ s. stmt_tree s.value ≡ tree.at (tree.Annot (expr_tree target.value) (expr_tree annotation.value) (Some (expr_tree value.value))) begin) }
{
    let kind = StmtKind::Annot(
        Box::into_inner(target),
        Box::into_inner(annotation),
        Some(Box::into_inner(value)),
    );
    boxed(alloc, kind, begin)
}

/// `if`.
#[tactic(auto, using(crate::proofs::StatementNodes::nodes))]
pub fn ifs(
    alloc: Global,
    arms: Many<(Expr, Many<Stmt>)>,
    other: Many<Stmt>,
    span: Span,
) -> Result<Box<Stmt>, Memory>
    ensures { IfOk result (λ s. stmt_tree s.value ≡ tree.at (tree.If (arms_of (map arm_tree arms)) (body_tree other)) span) }
{
    let kind = StmtKind::If(arms, other);
    boxed(alloc, kind, span)
}

/// `while`.
#[tactic(auto, using(crate::proofs::StatementNodes::nodes))]
pub fn whiles(
    alloc: Global,
    test: Box<Expr>,
    body: Many<Stmt>,
    span: Span,
) -> Result<Box<Stmt>, Memory>
    ensures { IfOk result (λ s. stmt_tree s.value ≡ tree.at (tree.While (expr_tree test.value) (body_tree body)) span) }
{
    let kind = StmtKind::While(Box::into_inner(test), body);
    boxed(alloc, kind, span)
}

/// `for`.
#[tactic(auto, using(crate::proofs::StatementNodes::nodes))]
pub fn fors(
    alloc: Global,
    target: Box<Expr>,
    all: Box<Expr>,
    body: Many<Stmt>,
    span: Span,
) -> Result<Box<Stmt>, Memory>
    ensures { IfOk result (λ s. stmt_tree s.value ≡ tree.at (tree.For (expr_tree target.value) (expr_tree all.value) (body_tree body)) span) }
{
    let kind = StmtKind::For(Box::into_inner(target), Box::into_inner(all), body);
    boxed(alloc, kind, span)
}

/// `try`.
#[tactic(auto, using(crate::proofs::StatementNodes::nodes))]
pub fn tries(
    alloc: Global,
    body: Many<Stmt>,
    handlers: Many<Handler>,
    last: Option<Many<Stmt>>,
    span: Span,
) -> Result<Box<Stmt>, Memory>
    ensures { IfOk result (λ s. stmt_tree s.value ≡ tree.at (tree.Try (body_tree body) (handlers_of (map handler_tree handlers)) (maybe_suite (option_map body_tree last))) span) }
{
    let kind = StmtKind::Try(body, handlers, last);
    boxed(alloc, kind, span)
}

/// A handler, by what it catches and the name for it.
#[tactic(auto, using(crate::proofs::StatementNodes::parts))]
pub fn handling(
    alloc: Global,
    caught: (Option<Box<Expr>>, Option<Name>),
    body: Many<Stmt>,
    span: Span,
) -> Result<Box<Handler>, Memory>
    ensures { IfOk result (λ h. handler_tree h.value ≡ handler_of (maybe_boxed caught.0) caught.1 (body_tree body) span) }
{
    let (class, name) = caught;
    let made = Handler {
        class: unboxed(class),
        name,
        body,
        span,
    };
    Ok(Box::new(alloc, made)?)
}

/// An expression that may be missing, off the heap.
pub fn unboxed(one: Option<Box<Expr>>) -> Option<Expr>
    ensures { maybe_expr result ≡ maybe_boxed one }
{
    match one {
        None => None,
        Some(expr) => Some(Box::into_inner(expr)),
    }
}
