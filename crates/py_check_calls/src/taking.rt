//! Arguments that are taken by a name and a signature: of a function, a method, a class, or the next `__init__`.
ghost use Rattle.std.specs.Prelude.{map, IfOk};
ghost use Rattle.std.specs.Option.{option_map};
ghost use Rattle.py_typed.specs.Sorts.{sort};
ghost use Rattle.py_typed.specs.Expressions.{typed_expr};
ghost use Rattle.py_check_context.specs.Context.{context, wanted, along};
ghost use Rattle.py_check_messages.specs.Seen.{Tells, judged, ruled};
ghost use Rattle.py_check_coercions.specs.Rows as rows;
ghost use Rattle.py_check_calls.specs.Calls as rule_of;

use crate::builtins::gives_value;
use crate::sites::CallSite;
use py_check_coercions::{changed_row, unfit};
use py_check_context::Row;
use py_check_messages::{gives_nothing, wrong_argument_type, wrong_number};
use py_syntax_diagnostics::Diag;
use py_typed::{TExpr, Ty};
use std::alloc::Global;
use value_core::{Many, Memory};

/// The arguments, each as its parameter asks, where they are right and a call that gives this may stand there.
pub(crate) fn taken(
    alloc: Global,
    site: CallSite<'_>,
    f: &str,
    params: &[Ty],
    ret: &Ty,
    es: Option<Many<TExpr>>,
    faults: &mut Many<Diag>,
) -> Result<Option<Many<TExpr>>, Memory>
    ensures { IfOk result (λ r. Tells (map typed_expr) r faults.old faults.new (ruled site.entry.span (rule_of.taken (context site.entry.scope.now).classes (wanted site.entry.want) f.now (rule_of.takes (map sort params.now) (sort ret.now))) (option_map (map typed_expr) es))) }
{
    let Some(es) = es else {
        return Ok(None);
    };
    let number = params.len();
    if es.len() != number {
        let number = format!(in alloc; "{number}")?;
        wrong_number(alloc, site.span, f, number.as_str(), faults)?;
        return Ok(None);
    }
    fitting(alloc, site, f, params, ret, es, faults)
}

// The same of as many arguments as there are parameters.
fn fitting(
    alloc: Global,
    site: CallSite<'_>,
    f: &str,
    params: &[Ty],
    ret: &Ty,
    es: Many<TExpr>,
    faults: &mut Many<Diag>,
) -> Result<Option<Many<TExpr>>, Memory>
    ensures { IfOk result (λ r. Tells (map typed_expr) r faults.old faults.new (judged site.entry.span (rule_of.fitting (context site.entry.scope.now).classes (wanted site.entry.want) f.now (rule_of.takes (map sort params.now) (sort ret.now)) (map typed_expr es) (rows.unfit (context site.entry.scope.now).classes (along (map sort params.now)) 0 (map typed_expr es))))) }
{
    let row = Row::Along(params);
    if let Some(m) = unfit(site.scope.classes, row, es.as_slice()) {
        wrong_argument_type(
            alloc,
            site.scope.classes,
            site.span,
            m.place + 1,
            f,
            m.found,
            m.asked,
            faults,
        )?;
        return Ok(None);
    }
    if !gives_value(site.want, ret) {
        gives_nothing(alloc, site.span, f, faults)?;
        return Ok(None);
    }
    let es = changed_row(alloc, es, row)?;
    Ok(Some(es))
}
