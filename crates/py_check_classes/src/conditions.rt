//! What the header of a class is asked for, behind the headers of the classes before.
ghost use Rattle.std.specs.Prelude.{◌≡◌, ◌&&◌, not, slice_get, IfOk};
ghost use Rattle.std.specs.List.{list_any, list_all};
ghost use Rattle.std.specs.Option.{option_copied};
ghost use Rattle.py_syntax.specs.Statements.{body_tree};
ghost use Rattle.py_typed.specs.Classes.{has_class};
ghost use Rattle.py_check_classes.specs.Rows as row;
ghost use Rattle.py_check_classes.specs.Headers as spec;

use crate::bodies::has_state;
use crate::header::{Header, HeaderFault, Shape};
use py_syntax::Stmt;
use std::alloc::Global;
use value_core::{Many, Memory};

/// What is wrong with a header before orders are asked, where its name is new or not, and its decorators are as they may be or not.
pub(crate) fn early_fault(
    alloc: Global,
    headers: &[Header],
    new: bool,
    marked: bool,
    named: &[Option<usize>],
    shape: &Shape,
    body: &[Stmt],
) -> Result<Option<HeaderFault>, Memory>
    ensures { IfOk result (λ fault. fault ≡ spec.early_fault headers.now new marked named.now shape.now (body_tree body.now)) }
{
    if !new {
        return Ok(Some(HeaderFault::AlreadyDefined));
    }
    if !marked {
        return Ok(Some(HeaderFault::OutsideProfile));
    }
    if !are_bases(headers, named, shape.bases.as_slice()) {
        return Ok(Some(HeaderFault::InvalidBase));
    }
    if !(bases_fit(headers, shape) && body_fits(alloc, shape.is_trait, body)?) {
        return Ok(Some(HeaderFault::InvalidBases));
    }
    Ok(None)
}

/// Whether a base is an earlier class without a type.
pub(crate) fn has_untyped(headers: &[Header], named: &[Option<usize>]) -> bool
    ensures { result ≡ list_any (spec.is_untyped headers.now) named.now }
{
    for base in named {
        if is_untyped(headers, *base) {
            return true;
        }
    }
    false
}

fn is_untyped(headers: &[Header], base: Option<usize>) -> bool
    ensures { result ≡ spec.is_untyped headers.now base }
{
    match base {
        Some(class) => lacks_type(headers.get(class)),
        None => false,
    }
}

fn lacks_type(header: Option<&Header>) -> bool
    ensures { result ≡ spec.lacks_type (option_copied header.entry) }
{
    match header {
        None => false,
        Some(Header::Typed(_)) => false,
        Some(Header::Untyped(_)) => true,
    }
}

/// The bases that are classes.
pub(crate) fn those_there(alloc: Global, named: &[Option<usize>]) -> Result<Many<usize>, Memory>
    ensures { IfOk result (λ bases. bases ≡ row.those_there named.now) }
{
    let mut bases = Many::new(alloc);
    for base in named {
        if let Some(class) = base {
            bases.push(*class)?;
        }
    }
    Ok(bases)
}

fn are_bases(headers: &[Header], named: &[Option<usize>], bases: &[usize]) -> bool
    ensures { result ≡ spec.are_bases headers.now named.now bases.now }
{
    are_earlier(headers.len(), named) && differ(bases)
}

fn are_earlier(own: usize, named: &[Option<usize>]) -> bool
    ensures { result ≡ list_all (spec.is_earlier own) named.now }
{
    for base in named {
        if !is_earlier(own, *base) {
            return false;
        }
    }
    true
}

fn is_earlier(own: usize, base: Option<usize>) -> bool
    ensures { result ≡ spec.is_earlier own base }
{
    match base {
        Some(class) => class < own,
        None => false,
    }
}

fn differ(bases: &[usize]) -> bool
    ensures { result ≡ row.differ bases.now }
{
    for i in 0..bases.len() {
        if has_class(bases[i], &bases[i + 1..]) {
            return false;
        }
    }
    true
}

fn has_class(class: usize, row: &[usize]) -> bool
    ensures { result ≡ has_class class row.now }
{
    for other in row {
        if *other == class {
            return true;
        }
    }
    false
}

fn bases_fit(headers: &[Header], shape: &Shape) -> bool
    ensures { result ≡ spec.bases_fit headers.now shape.now }
{
    let bases = shape.bases.as_slice();
    if shape.is_trait {
        return are_traits(headers, bases);
    }
    match bases {
        [] => true,
        [_, others @ ..] => are_traits(headers, others),
    }
}

fn are_traits(headers: &[Header], bases: &[usize]) -> bool
    ensures { result ≡ spec.are_traits headers.now bases.now }
{
    for class in bases {
        if !is_trait_at(headers, *class) {
            return false;
        }
    }
    true
}

fn is_trait_at(headers: &[Header], class: usize) -> bool
    ensures { result ≡ spec.is_a_trait (slice_get headers.now class) }
{
    is_a_trait(headers.get(class))
}

// Whether this is the header of a trait with a type.
fn is_a_trait(header: Option<&Header>) -> bool
    ensures { result ≡ spec.is_a_trait (option_copied header.entry) }
{
    match header {
        None => false,
        Some(Header::Typed(shape)) => shape.is_trait,
        Some(Header::Untyped(_)) => false,
    }
}

fn body_fits(alloc: Global, is_trait: bool, body: &[Stmt]) -> Result<bool, Memory>
    ensures { IfOk result (λ fits. fits ≡ spec.body_fits is_trait (body_tree body.now)) }
{
    if !is_trait {
        return Ok(true);
    }
    let state = has_state(alloc, body)?;
    Ok(!state)
}
