//! What the annotations of a function definition give.
ghost use Rattle.std.specs.Prelude.{◌≡◌, ◌++◌, map, drop, IfOk};
ghost use Rattle.std.specs.Option.{option_map};
ghost use Rattle.py_syntax.specs.Statements.{maybe_expr, param_tree, func_tree};
ghost use Rattle.py_typed.specs.Sorts.{sort};
ghost use Rattle.py_typed.specs.Classes.{signature};
ghost use Rattle.py_check_context.specs.Context.{context};
ghost use Rattle.py_check_messages.specs.Seen.{Tells};
ghost use Rattle.py_check_signatures.specs.Views.{header_sorts, parts};
ghost use Rattle.py_check_signatures.specs.Headers as spec;

use py_check_annotations::{annotation, return_annotation};
use py_check_context::Context;
use py_syntax::{Expr, Func};
use py_syntax_diagnostics::Diag;
use py_typed::{Sig, Ty, copy_of};
use std::alloc::Global;
use value_core::{Many, Memory, Name};

/// Where a function is defined.
#[derive(Clone, Copy)]
pub enum Owner {
    /// In the module.
    Module,
    /// In a class, by its number, where that has a type; `None` is a class without a type that is no trait.
    Class(Option<usize>),
    /// In a class that is marked `trait` and has no type.
    UntypedTrait,
}

/// Where a function is defined, and the types of its annotations: of each parameter, by its number, and of what is returned. Where
/// an annotation is missing or has no type, there is none; but the first parameter of a method has its class as its type, and an
/// `__init__` returns `None` also where it does not say so. And whether each annotation that stands there has a type.
#[derive(Drop)]
pub struct Header {
    pub owner: Owner,
    pub params: Many<Option<Ty>>,
    pub ret: Option<Ty>,
    pub typed: bool,
}

/// The types of a definition's annotations, whose names mean what they mean in this scope.
pub fn header_of(
    alloc: Global,
    scope: &Context<'_>,
    owner: Owner,
    f: &Func,
    faults: &mut Many<Diag>,
) -> Result<Header, Memory>
    ensures header { IfOk result (λ h. header_sorts h ≡ spec.header (context scope.now).meaning owner (func_tree f.now)) }
    ensures told { IfOk result (λ h. faults.new ≡ faults.old ++ spec.header_said (context scope.now).meaning (func_tree f.now)) }
{
    read(alloc, scope, owner, f, faults)
}

fn read(
    alloc: Global,
    scope: &Context<'_>,
    owner: Owner,
    f: &Func,
    faults: &mut Many<Diag>,
) -> Result<Header, Memory>
    ensures header { IfOk result (λ h. header_sorts h ≡ spec.header (context scope.now).meaning owner (parts f.now)) }
    ensures told { IfOk result (λ h. faults.new ≡ faults.old ++ spec.header_said (context scope.now).meaning (parts f.now)) }
{
    let mut params = Many::new(alloc);
    let typed = add_params(alloc, scope, f.params.as_slice(), &mut params, faults)?;
    let ret = returned(alloc, scope, &f.ret, faults)?;
    let typed = typed && has_type(&f.ret, &ret);
    put_own(owner, &mut params);
    let ret = return_at(is_init(owner, &f.name), &f.ret, ret);
    Ok(Header {
        owner,
        params,
        ret,
        typed,
    })
}

/// Gives the first parameter of a method its type.
fn put_own(owner: Owner, types: &mut Many<Option<Ty>>)
    ensures { map (option_map sort) types.new ≡ spec.types_at owner (map (option_map sort) types.old) }
{
    match owner {
        Owner::Module => {}
        Owner::Class(class) => put_first(own_type(class), types),
        Owner::UntypedTrait => put_first(None, types),
    }
}

fn put_first(own: Option<Ty>, types: &mut Many<Option<Ty>>)
    ensures { map (option_map sort) types.new ≡ spec.with_own (option_map sort own) (map (option_map sort) types.old) }
{
    if !types.is_empty() {
        types.set(0, own);
    }
}

fn own_type(class: Option<usize>) -> Option<Ty>
    ensures { option_map sort result ≡ spec.own_type class }
{
    match class {
        Some(class) => Some(Ty::Class(class)),
        None => None,
    }
}

/// Whether a function of this owner is an `__init__`.
pub fn is_init(owner: Owner, name: &Name) -> bool
    ensures { result ≡ spec.is_init owner name.now }
{
    match owner {
        Owner::Module => false,
        Owner::Class(_) | Owner::UntypedTrait => name.as_str() == "__init__",
    }
}

/// What is returned by this annotation of that type: by an `__init__` only `None`.
fn return_at(init: bool, mark: &Option<Expr>, ret: Option<Ty>) -> Option<Ty>
    ensures { option_map sort result ≡ spec.return_at init (maybe_expr mark.now) (option_map sort ret) }
{
    if !init {
        return ret;
    }
    if mark.is_none() {
        return Some(Ty::Nothing);
    }
    only_none(&ret)
}

fn only_none(ret: &Option<Ty>) -> Option<Ty>
    ensures { option_map sort result ≡ spec.only_none (option_map sort ret.now) }
{
    match ret {
        Some(Ty::Nothing) => Some(Ty::Nothing),
        _ => None,
    }
}

/// Adds the types of parameters, and answers whether each annotation has one.
fn add_params(
    alloc: Global,
    scope: &Context<'_>,
    params: &[(Name, Option<Expr>)],
    types: &mut Many<Option<Ty>>,
    faults: &mut Many<Diag>,
) -> Result<bool, Memory>
    ensures types { IfOk result (λ typed. map (option_map sort) types.new ≡ map (option_map sort) types.old ++ spec.param_types (context scope.now).meaning (map param_tree params.now)) }
    ensures told { IfOk result (λ typed. faults.new ≡ faults.old ++ spec.params_said (context scope.now).meaning (map param_tree params.now)) }
    ensures typed { IfOk result (λ typed. typed ≡ spec.params_typed (context scope.now).meaning (map param_tree params.now)) }
{
    let mut typed = true;
    for (_, mark) in params {
        let t = marked(alloc, scope, mark, faults)?;
        typed = typed && has_type(mark, &t);
        types.push(t)?;
    }
    Ok(typed)
}

/// The type of a parameter's annotation.
fn marked(
    alloc: Global,
    scope: &Context<'_>,
    mark: &Option<Expr>,
    faults: &mut Many<Diag>,
) -> Result<Option<Ty>, Memory>
    ensures { IfOk result (λ t. Tells sort t faults.old faults.new (spec.marked (context scope.now).meaning (maybe_expr mark.now))) }
{
    match mark {
        Some(mark) => annotation(alloc, scope, mark, faults),
        None => Ok(None),
    }
}

/// The type of the annotation of what is returned.
fn returned(
    alloc: Global,
    scope: &Context<'_>,
    mark: &Option<Expr>,
    faults: &mut Many<Diag>,
) -> Result<Option<Ty>, Memory>
    ensures { IfOk result (λ t. Tells sort t faults.old faults.new (spec.returned (context scope.now).meaning (maybe_expr mark.now))) }
{
    match mark {
        Some(mark) => return_annotation(alloc, scope, mark, faults),
        None => Ok(None),
    }
}

/// Whether an annotation, if it stands there, has a type.
fn has_type(mark: &Option<Expr>, t: &Option<Ty>) -> bool
    ensures { result ≡ spec.has_type (maybe_expr mark.now) (option_map sort t.now) }
{
    match mark {
        Some(_) => t.is_some(),
        None => true,
    }
}

/// The signature of a definition: there is none where an annotation is missing or has no type.
pub fn signature_of(alloc: Global, header: &Header) -> Result<Option<Sig>, Memory>
    ensures { IfOk result (λ s. option_map signature s ≡ spec.signature_of (header_sorts header.now)) }
{
    if header.typed {
        return signature_by(alloc, header);
    }
    Ok(None)
}

fn signature_by(alloc: Global, header: &Header) -> Result<Option<Sig>, Memory>
    ensures { IfOk result (λ s. option_map signature s ≡ spec.signature_by (header_sorts header.now)) }
{
    let Some(params) = all_of(alloc, asked(header.owner, header.params.as_slice()))? else {
        return Ok(None);
    };
    match &header.ret {
        Some(ret) => {
            let ret = copy_of(alloc, ret)?;
            Ok(Some(Sig { params, ret }))
        }
        None => Ok(None),
    }
}

/// Of a row of parameters those that belong to the signature.
pub(crate) fn asked<T>(owner: Owner, params: &[T]) -> &[T]
    ensures { result.now ≡ spec.asked owner params.now }
{
    match owner {
        Owner::Module => params,
        Owner::Class(_) | Owner::UntypedTrait => behind_first(params),
    }
}

fn behind_first<T>(params: &[T]) -> &[T]
    ensures { result.now ≡ drop 1 params.now }
{
    match params {
        [] => params,
        [_, ..] => &params[1..],
    }
}

/// Copies of all, where each is there.
fn all_of(alloc: Global, types: &[Option<Ty>]) -> Result<Option<Many<Ty>>, Memory>
    ensures { IfOk result (λ all. option_map (map sort) all ≡ spec.all_of (map (option_map sort) types.now)) }
{
    let mut all = Many::new(alloc);
    for t in types {
        let Some(t) = t else {
            return Ok(None);
        };
        all.push(copy_of(alloc, t)?)?;
    }
    Ok(Some(all))
}
