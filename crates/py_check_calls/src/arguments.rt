//! Arguments.
ghost use Rattle.std.specs.Prelude.{◌≡◌, map, IfOk};
ghost use Rattle.std.specs.Option.{option_copied, option_map};
ghost use Rattle.py_syntax.specs.Expressions.{arg_tree, arguments_of};
ghost use Rattle.py_typed.specs.Sorts.{sort};
ghost use Rattle.py_typed.specs.Expressions.{typed_expr};
ghost use Rattle.py_check_context.specs.Context.{context, row};
ghost use Rattle.py_check_messages.specs.Seen.{Tells};
ghost use Rattle.py_check_coercions.specs.Boxes.{boxed};
ghost use Rattle.py_check_calls.specs.Callees as callees;
ghost use Rattle.py_check_calls.specs.CalleesSeen.{callee_seen};
ghost use Rattle.py_check_calls.specs.Calls as rule_of;

use crate::callees::Callee;
use crate::methods::method_row;
use py_check_context::{Context, Row};
use py_check_messages::keyword_argument;
use py_syntax::{Arg, Span};
use py_syntax_diagnostics::Diag;
use py_typed::TExpr;
use std::alloc::Global;
use value_core::{Many, Memory};

/// Whether an argument with a key is among these.
pub fn has_key(args: &[Arg]) -> bool
    ensures { result ≡ callees.has_key (arguments_of (map arg_tree args.now)) }
{
    for arg in args {
        if arg.key.is_some() {
            return true;
        }
    }
    false
}

/// What the arguments of a call are there for, by what is called and the typed part of it.
pub fn arguments_row<'a>(
    scope: &'a Context<'_>,
    callee: Callee<'a>,
    part: &'a Option<Box<TExpr>>,
) -> Row<'a>
    ensures { row result ≡ rule_of.arguments_row (context scope.now) (callee_seen callee.entry) (option_map boxed part.now) }
{
    match callee {
        Callee::Function(_, _, sig) => Row::Along(sig.params.as_slice()),
        Callee::Class(_, _, params) => Row::Along(params),
        Callee::Trait(_, params) => Row::Along(params),
        Callee::SuperInit(_, params) => Row::Along(params),
        Callee::Method(m) => match part {
            Some(e) => method_row(scope, m, &e.ty),
            None => Row::Along(&[]),
        },
        Callee::Print
        | Callee::Input
        | Callee::Range
        | Callee::Single(_)
        | Callee::Exception(_)
        | Callee::Voiceless
        | Callee::Uncalled
        | Callee::Value => Row::Along(&[]),
    }
}

/// The arguments, where none has a key.
pub fn positional(
    alloc: Global,
    span: Span,
    keyed: bool,
    es: Option<Many<TExpr>>,
    faults: &mut Many<Diag>,
) -> Result<Option<Many<TExpr>>, Memory>
    ensures { IfOk result (λ r. Tells (map typed_expr) r faults.old faults.new (rule_of.positional span keyed (option_map (map typed_expr) es))) }
{
    let Some(es) = es else {
        return Ok(None);
    };
    if keyed {
        keyword_argument(alloc, span, faults)?;
        return Ok(None);
    }
    Ok(Some(es))
}
