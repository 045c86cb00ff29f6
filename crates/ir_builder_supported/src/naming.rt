//! What the forms are called that are typed and not compiled.
ghost use Rattle.std.specs.Prelude.{◌≡◌, map};
ghost use Rattle.py_typed.specs.Sorts.{sort};
ghost use Rattle.py_typed.specs.Expressions.{typed_expr, typed_node, typed_comparison, comparisons_of};
ghost use Rattle.py_typed.specs.Statements.{typed_func, variable};
ghost use Rattle.ir_builder_supported.specs.Forms as spec;

use crate::forms::is_value;
use ir_builder_forms::{Form, TypeKind, Unbuilt};
use py_syntax::CmpOp;
use py_typed::{TExpr, TFunc, TKind, Ty, Var};

/// A form on a line.
pub(crate) fn unbuilt(line: usize, form: Form) -> Unbuilt
    ensures { result ≡ spec.unbuilt line form }
{
    Unbuilt { line, form }
}

/// The kind of a type, by which a form is named that hangs on it.
pub(crate) fn kind(t: &Ty) -> TypeKind
    ensures { result ≡ spec.kind (sort t.now) }
{
    match t {
        Ty::Int => TypeKind::Int,
        Ty::I64 => TypeKind::I64,
        Ty::Bool => TypeKind::Bool,
        Ty::Str => TypeKind::Str,
        Ty::Nothing => TypeKind::Nothing,
        Ty::List(_) => TypeKind::List,
        Ty::Dict(_, _) => TypeKind::Dict,
        Ty::Tuple(_) => TypeKind::Tuple,
        Ty::Optional(_) => TypeKind::Optional,
        Ty::Class(_) => TypeKind::Class,
        Ty::Exc(_) => TypeKind::Exception,
    }
}

fn operator_form(op: CmpOp) -> Option<Form>
    ensures { result ≡ spec.operator_form op }
{
    match op {
        CmpOp::Member => Some(Form::Member),
        CmpOp::NotMember => Some(Form::NotMember),
        CmpOp::Is => Some(Form::IsNone),
        CmpOp::IsNot => Some(Form::IsNotNone),
        _ => None,
    }
}

/// The first operator of a chain that is no ordering, or else another form.
fn chain_form(other: Form, more: &[(CmpOp, TExpr)]) -> Form
    ensures { result ≡ spec.chain_form other (comparisons_of (map typed_comparison more.now)) }
{
    for (op, _) in more {
        if let Some(form) = operator_form(*op) {
            return form;
        }
    }
    other
}

/// What an expression is called that is not compiled.
fn node_form(e: &TExpr) -> Form
    ensures { result ≡ spec.node_form (typed_node e.now.kind) (sort e.now.ty) }
{
    let value = Form::Value(kind(&e.ty));
    match &e.kind {
        TKind::Local(_) | TKind::Global(_) => Form::Variable(kind(&e.ty)),
        TKind::Truth(a) => Form::Condition(kind(&a.ty)),
        TKind::Compare(first, more) => { chain_form(Form::Value(kind(&first.ty)), more.as_slice()) }
        TKind::List(_) => Form::ListDisplay,
        TKind::Dict(_) => Form::DictDisplay,
        TKind::Tuple(_) => Form::Tuple,
        TKind::Attr(_, _) => Form::Attribute,
        TKind::At(a, _) => Form::Index(kind(&a.ty)),
        TKind::TupleAt(_, _) => Form::Index(TypeKind::Tuple),
        TKind::Call(_, _) => Form::Returned(kind(&e.ty)),
        TKind::Make(_, _) => Form::Class,
        TKind::MakeExc(_, _) => Form::ExceptionClass,
        TKind::Method(_, _, _) => Form::MethodCall,
        TKind::SuperInit(_, _) => Form::NameSuper,
        TKind::Len(a) => Form::Length(kind(&a.ty)),
        TKind::Append(_, _) => Form::Append,
        TKind::Pop(_) => Form::Pop,
        TKind::Int(_)
        | TKind::Str(_)
        | TKind::Bool(_)
        | TKind::Nothing
        | TKind::Neg(_)
        | TKind::Not(_)
        | TKind::Arith(_, _, _)
        | TKind::Concat(_, _)
        | TKind::And(_, _)
        | TKind::Or(_, _)
        | TKind::Cond(_, _, _)
        | TKind::Print(_)
        | TKind::Input
        | TKind::ToStr(_)
        | TKind::Coerce(_) => value,
    }
}

/// An expression that is not compiled, on the line where it begins.
pub(crate) fn expression_at(e: &TExpr) -> Unbuilt
    ensures { result ≡ spec.expression_at (typed_expr e.now) }
{
    unbuilt(e.span.line, node_form(e))
}

fn variable_form(parameters: usize, v: &Var) -> Form
    ensures { result ≡ spec.variable_form parameters (variable v.now) }
{
    if 0 < parameters {
        Form::Parameter(kind(&v.ty))
    } else {
        Form::Variable(kind(&v.ty))
    }
}

/// The first variable, of these, whose values are not compiled; else another form.
fn variables_form(parameters: usize, variables: &[Var], other: Form) -> Form
    ensures { result ≡ spec.variables_form parameters (map variable variables.now) other }
{
    let mut left = parameters;
    for v in variables {
        if !is_value(&v.ty) {
            return variable_form(left, v);
        }
        left = left.saturating_sub(1);
    }
    other
}

/// What a function is called that is not compiled.
pub(crate) fn function_form(f: &TFunc) -> Form
    ensures { result ≡ spec.function_form (typed_func f.now) }
{
    if f.class.is_none() {
        variables_form(f.params, f.locals.as_slice(), Form::Returned(kind(&f.ret)))
    } else {
        Form::Class
    }
}
