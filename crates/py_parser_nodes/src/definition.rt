//! Definitions made of finished parts. Each stands on the heap.
ghost use Rattle.std.specs.Prelude.{◌≡◌, [], ◌∷◌, ◌++◌, map, IfOk};
ghost use Rattle.py_syntax.specs.Expressions.{expr_tree};
ghost use Rattle.py_syntax.specs.Statements.{stmt_tree, func_tree, class_tree, param_tree, body_tree};
ghost use Rattle.py_parser_grammar.specs.Actions.{def_at, class_at, name_of};
ghost use Rattle.py_parser_nodes.specs.Parts.{param_boxed, plain_func, plain_class, maybe_boxed};

use crate::statement::{boxed, unboxed};
use py_parser_cursor::word::name_of;
use py_syntax::{Class, Expr, Func, Span, Stmt, StmtKind, Token};
use std::alloc::Global;
use value_core::{Many, Memory, Name};

/// A function without decorators, with the name in a token.
#[tactic(auto, using(crate::proofs::DefinitionNodes::parts))]
pub fn new_func(
    alloc: Global,
    named: &Token,
    params: Many<(Name, Option<Expr>)>,
    ret: Option<Box<Expr>>,
    body: Many<Stmt>,
) -> Result<Box<Func>, Memory>
    ensures { IfOk result (λ f. func_tree f.value ≡ plain_func (name_of named.now) (map param_tree params) (maybe_boxed ret) (body_tree body)) }
{
    let name = name_of(alloc, named)?;
    let made = Func {
        name,
        params,
        ret: unboxed(ret),
        body,
        marks: Many::new(alloc),
    };
    Ok(Box::new(alloc, made)?)
}

/// A class without decorators, with the name in a token.
#[tactic(auto, using(crate::proofs::DefinitionNodes::parts))]
pub fn new_class(
    alloc: Global,
    named: &Token,
    bases: Many<Expr>,
    body: Many<Stmt>,
) -> Result<Box<Class>, Memory>
    ensures { IfOk result (λ c. class_tree c.value ≡ plain_class (name_of named.now) (map expr_tree bases) (body_tree body)) }
{
    let name = name_of(alloc, named)?;
    let made = Class {
        name,
        bases,
        body,
        marks: Many::new(alloc),
    };
    Ok(Box::new(alloc, made)?)
}

/// A function as a statement, with its decorators.
pub fn defined(
    alloc: Global,
    found: Box<Func>,
    marks: Many<Expr>,
    begin: Span,
) -> Result<Box<Stmt>, Memory>
    ensures { IfOk result (λ s. stmt_tree s.value ≡ def_at (func_tree found.value) (map expr_tree marks) begin) }
{
    let found = Box::into_inner(found);
    let marked = Func {
        name: found.name,
        params: found.params,
        ret: found.ret,
        body: found.body,
        marks,
    };
    boxed(alloc, StmtKind::Def(marked), begin)
}

/// A class as a statement, with its decorators.
pub fn class_defined(
    alloc: Global,
    found: Box<Class>,
    marks: Many<Expr>,
    begin: Span,
) -> Result<Box<Stmt>, Memory>
    ensures { IfOk result (λ s. stmt_tree s.value ≡ class_at (class_tree found.value) (map expr_tree marks) begin) }
{
    let found = Box::into_inner(found);
    let marked = Class {
        name: found.name,
        bases: found.bases,
        body: found.body,
        marks,
    };
    boxed(alloc, StmtKind::Class(marked), begin)
}

/// One decorator more.
#[tactic(auto, using(crate::proofs::DefinitionNodes::rows))]
pub fn push_mark(front: Many<Expr>, one: Box<Expr>) -> Result<Many<Expr>, Memory>
    ensures { IfOk result (λ all. map expr_tree all ≡ map expr_tree front ++ expr_tree one.value ∷ []) }
{
    let mut all = front;
    all.push(Box::into_inner(one))?;
    Ok(all)
}

/// One parameter more.
#[tactic(auto, using(crate::proofs::DefinitionNodes::rows))]
pub fn push_param(
    front: Many<(Name, Option<Expr>)>,
    one: (Name, Option<Box<Expr>>),
) -> Result<Many<(Name, Option<Expr>)>, Memory>
    ensures { IfOk result (λ all. map param_tree all ≡ map param_tree front ++ param_boxed one ∷ []) }
{
    let (name, annotation) = one;
    let mut all = front;
    all.push((name, unboxed(annotation)))?;
    Ok(all)
}
