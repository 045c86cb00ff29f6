//! What is called.
ghost use Rattle.std.specs.Prelude.{◌≡◌, map, slice_get};
ghost use Rattle.std.specs.Option.{option_copied, option_map};
ghost use Rattle.py_syntax.specs.Expressions.{expr_tree, expr_node, arg_tree, arguments_of};
ghost use Rattle.py_typed.specs.Sorts.{sort};
ghost use Rattle.py_typed.specs.Classes.{class_entry, signature};
ghost use Rattle.py_typed.specs.WellTypedExpr.{is_trait_in};
ghost use Rattle.py_check_context.specs.Context.{context};
ghost use Rattle.py_check_calls.specs.Callees as spec;
ghost use Rattle.py_check_calls.specs.CalleesSeen.{callee_seen};

use py_check_context::{Builtin, Context, Imported, Meaning, init_in, meaning_of, signature_at};
use py_syntax::{Arg, Expr, ExprKind};
use py_typed::{Classes, Sig, Ty};
use value_core::{ExcClass, Name};

/// A builtin that takes one value.
#[derive(Clone, Copy, PartialEq, Eq)]
pub enum Single {
    Len,
    Str,
    Int,
    I64,
}

/// What is called (Python Language Reference, "Calls").
#[derive(Clone, Copy)]
pub enum Callee<'a> {
    /// A function, by its name and its number.
    Function(&'a Name, usize, &'a Sig),
    /// A class, by its name and its number, with what its `__init__` takes.
    Class(&'a Name, usize, &'a [Ty]),
    /// A trait, which has no instances, with what its `__init__` takes.
    Trait(&'a Name, &'a [Ty]),
    /// `super().__init__`: the next `__init__`, by the number of its function, if there is one, with what it takes.
    SuperInit(Option<usize>, &'a [Ty]),
    Print,
    Input,
    Range,
    Single(Single),
    /// An exception class.
    Exception(ExcClass),
    /// The method of a value, by its name.
    Method(&'a Name),
    /// Nothing is said of it.
    Voiceless,
    /// A name of what is not called.
    Uncalled,
    /// An expression, which has a value and is not called.
    Value,
}

/// What is called.
pub fn callee_of<'a>(scope: &Context<'a>, f: &'a Expr) -> Callee<'a>
    ensures { callee_seen result ≡ spec.callee (context scope.now) (expr_tree f.now) }
{
    match &f.kind {
        ExprKind::Name(x) => name_called(scope, x),
        ExprKind::Attr(_, m) => attribute_called(scope, &f.kind, m),
        _ => Callee::Value,
    }
}

fn attribute_called<'a>(scope: &Context<'a>, f: &ExprKind, m: &'a Name) -> Callee<'a>
    ensures { callee_seen result ≡ spec.attribute_called (context scope.now) (expr_node f.now) m.now }
{
    if is_super_init(scope, f) {
        super_called(scope)
    } else {
        Callee::Method(m)
    }
}

fn name_called<'a>(scope: &Context<'a>, x: &'a Name) -> Callee<'a>
    ensures { callee_seen result ≡ spec.name_called (context scope.now) x.now ((context scope.now).meaning x.now) }
{
    match meaning_of(scope, x) {
        Meaning::Function(i) => function_called(x, i, signature_at(scope, i)),
        Meaning::Class(n) => class_called(scope, x, n),
        Meaning::Builtin(b) => builtin_called(b),
        Meaning::Import(i) => import_called(i),
        Meaning::Exception(class) => Callee::Exception(class),
        Meaning::Local(_) | Meaning::Global(_) => Callee::Value,
        Meaning::ModuleName => Callee::Uncalled,
        Meaning::Unknown | Meaning::Untyped | Meaning::UntypedClass => Callee::Voiceless,
    }
}

fn function_called<'a>(x: &'a Name, i: usize, sig: Option<&'a Sig>) -> Callee<'a>
    ensures { callee_seen result ≡ spec.function_called x.now i (option_map signature (option_copied sig.entry)) }
{
    match sig {
        Some(sig) => Callee::Function(x, i, sig),
        None => Callee::Voiceless,
    }
}

fn builtin_called(b: Builtin) -> Callee<'static>
    ensures { callee_seen result ≡ spec.builtin_called b }
{
    match b {
        Builtin::Print => Callee::Print,
        Builtin::Input => Callee::Input,
        Builtin::Len => Callee::Single(Single::Len),
        Builtin::Range => Callee::Range,
        Builtin::Str => Callee::Single(Single::Str),
        Builtin::Int => Callee::Single(Single::Int),
        Builtin::Bool | Builtin::List | Builtin::Dict | Builtin::Tuple | Builtin::Super => {
            Callee::Uncalled
        }
    }
}

fn import_called(i: Imported) -> Callee<'static>
    ensures { callee_seen result ≡ spec.import_called i }
{
    match i {
        Imported::I64 => Callee::Single(Single::I64),
        Imported::Optional
        | Imported::List
        | Imported::Dict
        | Imported::Tuple
        | Imported::Trait
        | Imported::Annotations => Callee::Uncalled,
    }
}

// What an `__init__` takes, by its function: nothing where there is none.
fn init_takes<'a>(scope: &Context<'a>, init: Option<usize>) -> Option<&'a [Ty]>
    ensures { option_map (λ params. map sort params.now) result ≡ spec.init_takes (context scope.now) init }
{
    let Some(f) = init else {
        return Some(&[]);
    };
    let sig = signature_at(scope, f)?;
    Some(sig.params.as_slice())
}

// Whether the class of a number is a trait, or is not there.
fn is_trait(classes: &Classes, n: usize) -> bool
    ensures { result ≡ is_trait_in (slice_get (map class_entry classes.now.list) n) }
{
    match classes.list.as_slice().get(n) {
        Some(class) => class.is_trait,
        None => true,
    }
}

fn class_called<'a>(scope: &Context<'a>, x: &'a Name, n: usize) -> Callee<'a>
    ensures { callee_seen result ≡ spec.class_called (context scope.now) x.now n (is_trait_in (slice_get (context scope.now).classes n)) }
{
    let params = init_takes(scope, init_in(scope.members, n));
    if is_trait(scope.classes, n) {
        trait_called(x, params)
    } else {
        instance_called(x, n, params)
    }
}

fn trait_called<'a>(x: &'a Name, params: Option<&'a [Ty]>) -> Callee<'a>
    ensures { callee_seen result ≡ spec.trait_called x.now (option_map (λ params. map sort params.now) params.entry) }
{
    match params {
        Some(params) => Callee::Trait(x, params),
        None => Callee::Trait(x, &[]),
    }
}

fn instance_called<'a>(x: &'a Name, n: usize, params: Option<&'a [Ty]>) -> Callee<'a>
    ensures { callee_seen result ≡ spec.instance_called x.now n (option_map (λ params. map sort params.now) params.entry) }
{
    match params {
        Some(params) => Callee::Class(x, n, params),
        None => Callee::Voiceless,
    }
}

// `super().__init__` where the place stands.
fn super_called<'a>(scope: &Context<'a>) -> Callee<'a>
    ensures { callee_seen result ≡ spec.super_called (context scope.now) (context scope.now).inside }
{
    let Some(inside) = &scope.inside else {
        return Callee::Uncalled;
    };
    if inside.is_init {
        super_called_in(scope, inside.class, inside.next_init)
    } else {
        Callee::Uncalled
    }
}

// The same in the `__init__` of a class.
fn super_called_in<'a>(scope: &Context<'a>, class: Option<usize>, next: Option<usize>) -> Callee<'a>
    ensures { callee_seen result ≡ spec.super_called_in (context scope.now) class next }
{
    let Some(n) = class else {
        return Callee::Voiceless;
    };
    if is_trait(scope.classes, n) {
        return Callee::Uncalled;
    }
    match init_takes(scope, next) {
        Some(params) => Callee::SuperInit(next, params),
        None => Callee::Voiceless,
    }
}

/// Whether this is `super().__init__`.
pub fn is_super_init(scope: &Context<'_>, f: &ExprKind) -> bool
    ensures { result ≡ spec.is_super_init (context scope.now) (expr_node f.now) }
{
    match f {
        ExprKind::Attr(e, m) => is_super_call(scope, e) && m.as_str() == "__init__",
        _ => false,
    }
}

fn is_super_call(scope: &Context<'_>, e: &Expr) -> bool
    ensures { result ≡ spec.is_super_call (context scope.now) (expr_tree e.now) }
{
    match &e.kind {
        ExprKind::Call(f, args) => names_super(scope, f) && is_none(args.as_slice()),
        _ => false,
    }
}

fn names_super(scope: &Context<'_>, f: &Expr) -> bool
    ensures { result ≡ spec.names_super (context scope.now) (expr_tree f.now) }
{
    match &f.kind {
        ExprKind::Name(x) => is_super(meaning_of(scope, x)),
        _ => false,
    }
}

fn is_super(meaning: Meaning) -> bool
    ensures { result ≡ spec.is_super meaning }
{
    matches!(meaning, Meaning::Builtin(Builtin::Super))
}

fn is_none(args: &[Arg]) -> bool
    ensures { result ≡ spec.is_none (arguments_of (map arg_tree args.now)) }
{
    args.is_empty()
}

/// Whether a callee is not typed itself: a name of no variable, or the method of a value.
pub fn is_named(scope: &Context<'_>, f: &Expr) -> bool
    ensures { result ≡ spec.is_named_tree (context scope.now) (expr_tree f.now) }
{
    match &f.kind {
        ExprKind::Name(x) => !is_variable(meaning_of(scope, x)),
        ExprKind::Attr(_, _) => true,
        _ => false,
    }
}

fn is_variable(meaning: Meaning) -> bool
    ensures { result ≡ spec.is_variable meaning }
{
    match meaning {
        Meaning::Local(_) | Meaning::Global(_) => true,
        _ => false,
    }
}
