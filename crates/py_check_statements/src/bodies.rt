//! The typing of statements and blocks.
ghost use Rattle.std.specs.Prelude.{◌≡◌, IfOk};
ghost use Rattle.py_syntax.specs.Expressions.{expr_tree};
ghost use Rattle.py_syntax.specs.Statements.{stmt_tree};
ghost use Rattle.py_check_context.specs.Context.{context, wanted};
ghost use Rattle.py_check_messages.specs.Seen.{Tells};
ghost use Rattle.py_check_coercions.specs.Boxes.{boxed};
ghost use Rattle.py_check_values.specs.Returns.{return_sort};
ghost use Rattle.py_check_statements.specs.Bodies as rules_of;
ghost use Rattle.py_check_places.specs.Views.{known_at};

use py_check_coercions::truth;
use py_check_context::{Context, Want};
use py_check_places::Place;
use py_check_targets::typed_at;
use py_check_values::Returns;
use py_syntax::{Expr, Stmt, StmtKind};
use py_syntax_diagnostics::Diag;
use py_typed::TExpr;
use std::alloc::Global;
use value_core::{Many, Memory};

/// What is around a statement within its function: a loop or none, and an except clause or none.
#[derive(Clone, Copy)]
pub struct Around {
    pub looping: bool,
    pub handling: bool,
}

/// Where a statement stands: in a function that returns this, or in none, and with this around it.
#[derive(Clone, Copy)]
pub struct Inside<'a> {
    pub returns: Returns<'a>,
    pub around: Around,
}

/// A test, as a truth value.
pub fn condition(
    alloc: Global,
    scope: &Context<'_>,
    place: &Place,
    e: &Expr,
    faults: &mut Many<Diag>,
) -> Result<Option<Box<TExpr>>, Memory>
    ensures { IfOk result (λ t. Tells boxed t faults.old faults.new (rules_of.condition (context scope.now) (known_at place.now) (expr_tree e.now))) }
{
    let e = typed_at(alloc, scope, place, Want::Test, e, faults)?;
    let Some(e) = e else {
        return Ok(None);
    };
    let e = truth(alloc, e)?;
    Ok(Some(e))
}

/// Whether a statement has no typed form: an import, or the definition of a function or a class.
pub fn is_definition(s: &Stmt) -> bool
    ensures { result ≡ rules_of.is_definition (stmt_tree s.now) }
{
    match s.kind {
        StmtKind::Import(_, _) => true,
        StmtKind::From(_, _) => true,
        StmtKind::Def(_) => true,
        StmtKind::Class(_) => true,
        _ => false,
    }
}

/// What a `return` asks of its value (Python Language Reference, "The return statement").
pub fn return_wanted<'a>(returns: Returns<'a>) -> Want<'a>
    ensures { wanted result ≡ rules_of.return_wanted (return_sort returns.entry) }
{
    match returns {
        Returns::Gives(t) => Want::Wants(t),
        Returns::Outside => Want::Free,
        Returns::Untyped => Want::Free,
    }
}
