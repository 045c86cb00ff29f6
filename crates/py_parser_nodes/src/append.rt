//! Rows of statements and of their parts, one behind the other.
ghost use Rattle.std.specs.Prelude.{◌≡◌, [], ◌∷◌, ◌++◌, map, IfOk};
ghost use Rattle.py_syntax.specs.Statements.{stmt_tree, arm_tree, handler_tree};
ghost use Rattle.py_parser_nodes.specs.Parts.{arm_boxed};

use py_syntax::{Expr, Handler, Stmt};
use std::alloc::{AllocError, Global};
use value_core::{Many, Memory};

/// The statements of one row, and then those of another.
pub fn append(front: Many<Stmt>, more: Many<Stmt>) -> Result<Many<Stmt>, AllocError>
    ensures { IfOk result (λ all. all ≡ front ++ more) }
{
    let mut all = front.into_vec();
    let mut rest = more.into_vec();
    all.append(&mut rest)?;
    Ok(Many::from_vec(all))
}

/// One statement more.
#[tactic(auto, using(crate::proofs::StatementNodes::rows))]
pub fn push_stmt(front: Many<Stmt>, one: Box<Stmt>) -> Result<Many<Stmt>, Memory>
    ensures { IfOk result (λ all. map stmt_tree all ≡ map stmt_tree front ++ stmt_tree one.value ∷ []) }
{
    let mut all = front;
    all.push(Box::into_inner(one))?;
    Ok(all)
}

/// A row of one statement.
pub fn row_of(alloc: Global, one: Box<Stmt>) -> Result<Many<Stmt>, Memory>
    ensures { IfOk result (λ all. map stmt_tree all ≡ stmt_tree one.value ∷ []) }
{
    push_stmt(Many::new(alloc), one)
}

/// One test with its body more.
#[tactic(auto, using(crate::proofs::StatementNodes::rows))]
pub fn push_arm(
    front: Many<(Expr, Many<Stmt>)>,
    one: (Box<Expr>, Many<Stmt>),
) -> Result<Many<(Expr, Many<Stmt>)>, Memory>
    ensures { IfOk result (λ all. map arm_tree all ≡ map arm_tree front ++ arm_boxed one ∷ []) }
{
    let (condition, body) = one;
    let mut all = front;
    all.push((Box::into_inner(condition), body))?;
    Ok(all)
}

/// One handler more.
#[tactic(auto, using(crate::proofs::StatementNodes::rows))]
pub fn push_handler(front: Many<Handler>, one: Box<Handler>) -> Result<Many<Handler>, Memory>
    ensures { IfOk result (λ all. map handler_tree all ≡ map handler_tree front ++ handler_tree one.value ∷ []) }
{
    let mut all = front;
    all.push(Box::into_inner(one))?;
    Ok(all)
}
