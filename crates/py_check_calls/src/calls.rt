//! Calls.
ghost use Rattle.std.specs.Prelude.{map, IfOk};
ghost use Rattle.std.specs.Option.{option_map};
ghost use Rattle.py_typed.specs.Sorts.{sort};
ghost use Rattle.py_typed.specs.Sorts as sorts;
ghost use Rattle.py_typed.specs.Classes.{signature};
ghost use Rattle.py_typed.specs.Expressions as node;
ghost use Rattle.py_typed.specs.Expressions.{typed_expr};
ghost use Rattle.py_check_context.specs.Context.{context, wanted};
ghost use Rattle.py_check_messages.specs.Seen.{Tells, ruled};
ghost use Rattle.py_check_messages.specs.Messages as message;
ghost use Rattle.py_check_coercions.specs.Boxes.{boxed};
ghost use Rattle.py_check_calls.specs.CalleesSeen.{callee_seen};
ghost use Rattle.py_check_calls.specs.Calls as rule_of;

use crate::arguments::positional;
use crate::builtins::{input_call, print_call, single_call};
use crate::callees::Callee;
use crate::exceptions::exception_call;
use crate::methods::{Had, append_call, look_up, pop_call};
use crate::sites::CallSite;
use crate::taking::taken;
use py_check_coercions::kept;
use py_check_context::signature_at;
use py_check_messages::{
    no_attribute, no_instance, none_has_no_attribute, not_callable, range_outside_for,
};
use py_syntax::Span;
use py_syntax_diagnostics::Diag;
use py_typed::{Sig, TExpr, TKind, Ty, copy_of};
use std::alloc::Global;
use value_core::{Many, Memory, Name};

/// A call, by what is called, the typed part of it, and the arguments (Python Language Reference, "Calls").
pub fn called(
    alloc: Global,
    site: CallSite<'_>,
    keyed: bool,
    callee: Callee<'_>,
    part: Option<Box<TExpr>>,
    es: Option<Many<TExpr>>,
    faults: &mut Many<Diag>,
) -> Result<Option<Box<TExpr>>, Memory>
    ensures { IfOk result (λ t. Tells boxed t faults.old faults.new (rule_of.called (context site.entry.scope.now) (wanted site.entry.want) site.entry.span keyed (callee_seen callee.entry) (option_map boxed part) (option_map (map typed_expr) es))) }
{
    match callee {
        Callee::Function(x, i, sig) => {
            let es = positional(alloc, site.span, keyed, es, faults)?;
            function_call(alloc, site, x, i, sig, es, faults)
        }
        Callee::Class(x, n, params) => {
            let es = positional(alloc, site.span, keyed, es, faults)?;
            instance_call(alloc, site, x, n, params, es, faults)
        }
        Callee::Trait(x, _) => {
            let es = positional(alloc, site.span, keyed, es, faults)?;
            trait_call(alloc, site.span, x, es, faults)
        }
        Callee::SuperInit(next, params) => {
            let es = positional(alloc, site.span, keyed, es, faults)?;
            super_call(alloc, site, next, params, es, faults)
        }
        Callee::Print => {
            let es = positional(alloc, site.span, keyed, es, faults)?;
            print_call(alloc, site, es, faults)
        }
        Callee::Input => {
            let es = positional(alloc, site.span, keyed, es, faults)?;
            input_call(alloc, site.span, es, faults)
        }
        Callee::Range => {
            let es = positional(alloc, site.span, keyed, es, faults)?;
            only_for_loops(alloc, site.span, es, faults)
        }
        Callee::Single(f) => {
            let es = positional(alloc, site.span, keyed, es, faults)?;
            single_call(alloc, site, f, es, faults)
        }
        Callee::Exception(class) => {
            let es = positional(alloc, site.span, keyed, es, faults)?;
            exception_call(alloc, site, class, es, faults)
        }
        Callee::Method(m) => match part {
            Some(e) => method_call(alloc, site, keyed, m, e, es, faults),
            None => Ok(None),
        },
        Callee::Voiceless => Ok(None),
        Callee::Uncalled => {
            let es = positional(alloc, site.span, keyed, es, faults)?;
            uncallable(alloc, site.span, es, faults)
        }
        Callee::Value => {
            if part.is_none() {
                return Ok(None);
            }
            let es = positional(alloc, site.span, keyed, es, faults)?;
            uncallable(alloc, site.span, es, faults)
        }
    }
}

fn uncallable(
    alloc: Global,
    span: Span,
    es: Option<Many<TExpr>>,
    faults: &mut Many<Diag>,
) -> Result<Option<Box<TExpr>>, Memory>
    ensures { IfOk result (λ t. Tells boxed t faults.old faults.new (ruled span (rule_of.refused message.not_callable) (option_map (map typed_expr) es))) }
{
    if es.is_some() {
        not_callable(alloc, span, faults)?;
    }
    Ok(None)
}

fn only_for_loops(
    alloc: Global,
    span: Span,
    es: Option<Many<TExpr>>,
    faults: &mut Many<Diag>,
) -> Result<Option<Box<TExpr>>, Memory>
    ensures { IfOk result (λ t. Tells boxed t faults.old faults.new (ruled span (rule_of.refused message.range_outside_for) (option_map (map typed_expr) es))) }
{
    if es.is_some() {
        range_outside_for(alloc, span, faults)?;
    }
    Ok(None)
}

fn trait_call(
    alloc: Global,
    span: Span,
    x: &Name,
    es: Option<Many<TExpr>>,
    faults: &mut Many<Diag>,
) -> Result<Option<Box<TExpr>>, Memory>
    ensures { IfOk result (λ t. Tells boxed t faults.old faults.new (ruled span (rule_of.refused (message.no_instance x.now)) (option_map (map typed_expr) es))) }
{
    if es.is_some() {
        no_instance(alloc, span, x.as_str(), faults)?;
    }
    Ok(None)
}

// ---- what takes arguments by a signature

fn function_call(
    alloc: Global,
    site: CallSite<'_>,
    x: &Name,
    i: usize,
    sig: &Sig,
    es: Option<Many<TExpr>>,
    faults: &mut Many<Diag>,
) -> Result<Option<Box<TExpr>>, Memory>
    ensures { IfOk result (λ t. Tells boxed t faults.old faults.new (rule_of.call_of (context site.entry.scope.now) (wanted site.entry.want) site.entry.span x.now (signature sig.now) (node.Call i) (option_map (map typed_expr) es))) }
{
    let params = sig.params.as_slice();
    let Some(es) = taken(alloc, site, x.as_str(), params, &sig.ret, es, faults)? else {
        return Ok(None);
    };
    let ret = copy_of(alloc, &sig.ret)?;
    let e = kept(alloc, TKind::Call(i, es), ret, site.span)?;
    Ok(Some(e))
}

// A new instance of a class.
fn instance_call(
    alloc: Global,
    site: CallSite<'_>,
    x: &Name,
    n: usize,
    params: &[Ty],
    es: Option<Many<TExpr>>,
    faults: &mut Many<Diag>,
) -> Result<Option<Box<TExpr>>, Memory>
    ensures { IfOk result (λ t. Tells boxed t faults.old faults.new (rule_of.call_of (context site.entry.scope.now) (wanted site.entry.want) site.entry.span x.now (rule_of.takes (map sort params.now) (sorts.Instance n)) (node.Make n) (option_map (map typed_expr) es))) }
{
    let Some(es) = taken(alloc, site, x.as_str(), params, &Ty::Class(n), es, faults)? else {
        return Ok(None);
    };
    let e = kept(alloc, TKind::Make(n, es), Ty::Class(n), site.span)?;
    Ok(Some(e))
}

// `super().__init__(..)`.
fn super_call(
    alloc: Global,
    site: CallSite<'_>,
    next: Option<usize>,
    params: &[Ty],
    es: Option<Many<TExpr>>,
    faults: &mut Many<Diag>,
) -> Result<Option<Box<TExpr>>, Memory>
    ensures { IfOk result (λ t. Tells boxed t faults.old faults.new (rule_of.call_of (context site.entry.scope.now) (wanted site.entry.want) site.entry.span rule_of.init_name (rule_of.takes (map sort params.now) sorts.Nothing) (node.SuperInit next) (option_map (map typed_expr) es))) }
{
    let Some(es) = taken(alloc, site, "__init__", params, &Ty::Nothing, es, faults)? else {
        return Ok(None);
    };
    let e = kept(alloc, TKind::SuperInit(next, es), Ty::Nothing, site.span)?;
    Ok(Some(e))
}

// ---- `e.m(..)`

fn method_call(
    alloc: Global,
    site: CallSite<'_>,
    keyed: bool,
    m: &Name,
    e: Box<TExpr>,
    es: Option<Many<TExpr>>,
    faults: &mut Many<Diag>,
) -> Result<Option<Box<TExpr>>, Memory>
    ensures { IfOk result (λ t. Tells boxed t faults.old faults.new (rule_of.method_call (context site.entry.scope.now) (wanted site.entry.want) site.entry.span keyed m.now (boxed e) (option_map (map typed_expr) es))) }
{
    if m.as_str() == "__init__" {
        let es = positional(alloc, site.span, keyed, es, faults)?;
        return uncallable(alloc, site.span, es, faults);
    }
    match look_up(site.scope.members, &e.ty, m) {
        Had::Method(f) => {
            let Some(sig) = signature_at(site.scope, f) else {
                return Ok(None);
            };
            let es = positional(alloc, site.span, keyed, es, faults)?;
            signed_call(alloc, site, m, e, sig, es, faults)
        }
        Had::Append(t) => {
            let t = copy_of(alloc, t)?;
            let es = positional(alloc, site.span, keyed, es, faults)?;
            append_call(alloc, site, e, t, es, faults)
        }
        Had::Pop(t) => {
            let t = copy_of(alloc, t)?;
            let es = positional(alloc, site.span, keyed, es, faults)?;
            pop_call(alloc, site.span, e, t, es, faults)
        }
        Had::Attribute(_) => {
            let es = positional(alloc, site.span, keyed, es, faults)?;
            uncallable(alloc, site.span, es, faults)
        }
        Had::Untyped => Ok(None),
        Had::NoneHasNot => {
            let es = positional(alloc, site.span, keyed, es, faults)?;
            none_lacks(alloc, site, &e.ty, m, es, faults)
        }
        Had::HasNot => {
            let es = positional(alloc, site.span, keyed, es, faults)?;
            lacks(alloc, site, &e.ty, m, es, faults)
        }
    }
}

// A method of a class that has a signature.
fn signed_call(
    alloc: Global,
    site: CallSite<'_>,
    m: &Name,
    e: Box<TExpr>,
    sig: &Sig,
    es: Option<Many<TExpr>>,
    faults: &mut Many<Diag>,
) -> Result<Option<Box<TExpr>>, Memory>
    ensures { IfOk result (λ t. Tells boxed t faults.old faults.new (rule_of.call_of (context site.entry.scope.now) (wanted site.entry.want) site.entry.span m.now (signature sig.now) (node.Method (boxed e) m.now) (option_map (map typed_expr) es))) }
{
    let params = sig.params.as_slice();
    let Some(es) = taken(alloc, site, m.as_str(), params, &sig.ret, es, faults)? else {
        return Ok(None);
    };
    let ret = copy_of(alloc, &sig.ret)?;
    let name = m.clone()?;
    let e = kept(alloc, TKind::Method(e, name, es), ret, site.span)?;
    Ok(Some(e))
}

// A value that may be None of a class that has the name.
fn none_lacks(
    alloc: Global,
    site: CallSite<'_>,
    t: &Ty,
    m: &Name,
    es: Option<Many<TExpr>>,
    faults: &mut Many<Diag>,
) -> Result<Option<Box<TExpr>>, Memory>
    ensures { IfOk result (λ r. Tells boxed r faults.old faults.new (ruled site.entry.span (rule_of.refused (message.none_has_no_attribute (context site.entry.scope.now).classes (sort t.now) m.now)) (option_map (map typed_expr) es))) }
{
    if es.is_some() {
        none_has_no_attribute(alloc, site.scope.classes, site.span, t, m.as_str(), faults)?;
    }
    Ok(None)
}

// A value that does not have the name.
fn lacks(
    alloc: Global,
    site: CallSite<'_>,
    t: &Ty,
    m: &Name,
    es: Option<Many<TExpr>>,
    faults: &mut Many<Diag>,
) -> Result<Option<Box<TExpr>>, Memory>
    ensures { IfOk result (λ r. Tells boxed r faults.old faults.new (ruled site.entry.span (rule_of.refused (message.no_attribute (context site.entry.scope.now).classes (sort t.now) m.now)) (option_map (map typed_expr) es))) }
{
    if es.is_some() {
        no_attribute(alloc, site.scope.classes, site.span, t, m.as_str(), faults)?;
    }
    Ok(None)
}
