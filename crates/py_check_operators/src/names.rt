//! Names that are read.
ghost use Rattle.std.specs.Prelude.{◌≡◌, IfOk};
ghost use Rattle.std.specs.Option.{option_copied, option_map};
ghost use Rattle.py_typed.specs.Sorts.{sort};
ghost use Rattle.py_typed.specs.Expressions.{typed_node};
ghost use Rattle.py_typed.specs.WellTypedExpr.{reads_as};
ghost use Rattle.py_check_context.specs.Context.{context, var_sort, var_of, var_sorts};
ghost use Rattle.py_check_messages.specs.Seen.{Tells};
ghost use Rattle.py_check_coercions.specs.Boxes.{boxed};
ghost use Rattle.py_check_operators.specs.Names as rule_of;

use py_check_coercions::kept;
use py_check_context::{Context, Meaning, VarType, Variables, meaning_of};
use py_check_messages::{no_type_yet, not_a_value};
use py_syntax::Span;
use py_syntax_diagnostics::Diag;
use py_typed::{TExpr, TKind, Ty, copy_of};
use std::alloc::Global;
use value_core::{Many, Memory, Name, Text};

/// A name that is read (Python Language Reference, "Identifiers (Names)").
#[tactic(auto, using(crate::proofs::NameLemmas::var_found))]
pub fn named(
    alloc: Global,
    scope: &Context<'_>,
    vars: &Variables,
    known: &[usize],
    span: Span,
    x: &Name,
    faults: &mut Many<Diag>,
) -> Result<Option<Box<TExpr>>, Memory>
    ensures { IfOk result (λ t. Tells boxed t faults.old faults.new (rule_of.named (var_sorts vars.now) known.now span x.now ((context scope.now).meaning x.now))) }
{
    match meaning_of(scope, x) {
        Meaning::Local(i) => variable(
            alloc,
            span,
            x,
            TKind::Local(i),
            known.contains(&i),
            vars.locals.get(i),
            faults,
        ),
        Meaning::Global(i) => variable(
            alloc,
            span,
            x,
            TKind::Global(i),
            false,
            vars.globals.get(i),
            faults,
        ),
        Meaning::ModuleName => {
            let name = Text::from_str(alloc, "__main__")?;
            let e = kept(alloc, TKind::Str(name), Ty::Str, span)?;
            Ok(Some(e))
        }
        Meaning::Untyped | Meaning::Unknown => Ok(None),
        Meaning::Function(_)
        | Meaning::Class(_)
        | Meaning::UntypedClass
        | Meaning::Exception(_)
        | Meaning::Import(_)
        | Meaning::Builtin(_) => {
            not_a_value(alloc, span, x.as_str(), faults)?;
            Ok(None)
        }
    }
}

// A variable of this name.
fn variable(
    alloc: Global,
    span: Span,
    x: &Name,
    kind: TKind,
    known: bool,
    ty: Option<&VarType>,
    faults: &mut Many<Diag>,
) -> Result<Option<Box<TExpr>>, Memory>
    ensures { IfOk result (λ t. Tells boxed t faults.old faults.new (rule_of.variable span x.now (typed_node kind) known (var_of (option_map var_sort (option_copied ty.entry))))) }
{
    match ty {
        Some(VarType::Has(t)) => {
            let ty = read_type(alloc, known, t)?;
            let e = kept(alloc, kind, ty, span)?;
            Ok(Some(e))
        }
        Some(VarType::Untyped) => Ok(None),
        Some(VarType::Unset) | None => {
            no_type_yet(alloc, span, x.as_str(), faults)?;
            Ok(None)
        }
    }
}

// The type of a variable that may be known not to be None.
fn read_type(alloc: Global, known: bool, t: &Ty) -> Result<Ty, Memory>
    ensures { IfOk result (λ n. sort n ≡ reads_as known (sort t.now)) }
{
    if !known {
        return copy_of(alloc, t);
    }
    match t {
        Ty::Optional(t) => copy_of(alloc, t),
        _ => copy_of(alloc, t),
    }
}
