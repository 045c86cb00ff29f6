//! The members of classes, and the method that a place stands in.
ghost use Rattle.std.specs.Prelude.{◌≡◌};
ghost use Rattle.std.specs.Option.{option_copied, option_map};
ghost use Rattle.py_typed.specs.Order.{first_there};
ghost use Rattle.py_check_context.specs.Members as spec;

use indexmap::IndexMap;
use py_syntax::Span;
use py_typed::Ty;
use value_core::{Many, Name};

/// A member of a class.
#[derive(Drop)]
pub enum Member {
    /// An attribute, of this type.
    Attribute(Ty),
    /// An attribute that is declared without a type.
    Untyped,
    /// An attribute that `__init__` sets and nothing declares, with the place of the target that sets it first.
    Unknown(Span),
    /// A method, by the number of its function.
    Method(usize),
}

/// What is asked for a member behind a class itself.
#[derive(Drop)]
pub enum Above {
    Nothing,
    /// The one base, with all that it has.
    Base(usize),
    /// These classes in a row, each with what it has of its own.
    Row(Many<usize>),
}

/// The members that a class has of its own, by their names, with its `__init__`, and what stands above it.
#[derive(Drop)]
pub struct ClassMembers {
    pub own: IndexMap<Name, Member>,
    /// The function of its own `__init__`, if it has one.
    pub init: Option<usize>,
    pub above: Above,
}

/// A method that a place stands in.
#[derive(Clone, Copy)]
pub struct Inside<'a> {
    /// The number of its class, where that has a type.
    pub class: Option<usize>,
    /// The name of its first parameter, where it has one.
    pub first: Option<&'a Name>,
    /// It is the `__init__` of a class that is no trait.
    pub is_init: bool,
    /// Of each attribute that it declares by an annotation the place of that statement.
    pub declaring: &'a IndexMap<Name, Span>,
    /// The function of the next `__init__` behind its class along the order of that, if there is one.
    pub next_init: Option<usize>,
}

/// What of a class's own members is asked for.
#[derive(Clone, Copy)]
pub(crate) enum Asked {
    /// One that is declared.
    Declared,
    /// Any, also an attribute that nothing declares.
    Any,
}

/// What the class of a number has under a name: the first member along its order that is declared, or else the first attribute there
/// that nothing declares.
pub fn member_in<'a>(classes: &'a [ClassMembers], c: usize, name: &Name) -> Option<&'a Member>
    ensures { option_map spec.member (option_copied result) ≡ spec.member_in classes.now c name.now }
{
    match first_in(classes, c, Asked::Declared, name) {
        Some(member) => Some(member),
        None => first_in(classes, c, Asked::Any, name),
    }
}

/// What is asked for in the class of a number, or else in the first above it that has it.
fn first_in<'a>(
    classes: &'a [ClassMembers],
    c: usize,
    asked: Asked,
    name: &Name,
) -> Option<&'a Member>
    ensures { option_map spec.member (option_copied result) ≡ spec.first_in classes.now c asked name.now }
{
    let mut at = c;
    for level in 0..c {
        let class = classes.get(at)?;
        if let Some(member) = own_asked(class, asked, name) {
            return Some(member);
        }
        match &class.above {
            Above::Nothing => return None,
            Above::Base(base) => at = *base,
            Above::Row(row) => return first_in_row(classes, row.as_slice(), asked, name),
        }
    }
    asked_at(classes, at, asked, name)
}

fn first_in_row<'a>(
    classes: &'a [ClassMembers],
    row: &[usize],
    asked: Asked,
    name: &Name,
) -> Option<&'a Member>
    ensures { option_map spec.member (option_copied result) ≡ first_there (spec.own_of (spec.own_asked asked name.now) classes.now) row.now }
{
    for c in row {
        if let Some(member) = asked_at(classes, *c, asked, name) {
            return Some(member);
        }
    }
    None
}

fn asked_at<'a>(
    classes: &'a [ClassMembers],
    c: usize,
    asked: Asked,
    name: &Name,
) -> Option<&'a Member>
    ensures { option_map spec.member (option_copied result) ≡ spec.own_of (spec.own_asked asked name.now) classes.now c }
{
    own_asked(classes.get(c)?, asked, name)
}

fn own_asked<'a>(class: &'a ClassMembers, asked: Asked, name: &Name) -> Option<&'a Member>
    ensures { option_map spec.member (option_copied result) ≡ spec.own_asked asked name.now class.now }
{
    match asked {
        Asked::Declared => declared_of(class.own.get(name)?),
        Asked::Any => class.own.get(name),
    }
}

fn declared_of(member: &Member) -> Option<&Member>
    ensures { option_map spec.member (option_copied result) ≡ spec.declared_of (spec.member member.now) }
{
    match member {
        Member::Unknown(_) => None,
        _ => Some(member),
    }
}

/// The function of the first `__init__` of the class of a number, if it has one.
pub fn init_in(classes: &[ClassMembers], c: usize) -> Option<usize>
    ensures { result ≡ spec.init_in classes.now c }
{
    let mut at = c;
    for level in 0..c {
        let class = classes.get(at)?;
        if let Some(f) = class.init {
            return Some(f);
        }
        match &class.above {
            Above::Nothing => return None,
            Above::Base(base) => at = *base,
            Above::Row(row) => return init_in_row(classes, row.as_slice()),
        }
    }
    own_init(classes, at)
}

fn init_in_row(classes: &[ClassMembers], row: &[usize]) -> Option<usize>
    ensures { result ≡ first_there (spec.own_of spec.own_init classes.now) row.now }
{
    for c in row {
        if let Some(f) = own_init(classes, *c) {
            return Some(f);
        }
    }
    None
}

/// The function of the next `__init__` behind the class of a number along its order, if there is one.
pub fn init_behind(classes: &[ClassMembers], c: usize) -> Option<usize>
    ensures { result ≡ spec.init_behind classes.now c }
{
    match &classes.get(c)?.above {
        Above::Nothing => None,
        Above::Base(base) => init_in(classes, *base),
        Above::Row(row) => init_in_row(classes, row.as_slice()),
    }
}

fn own_init(classes: &[ClassMembers], c: usize) -> Option<usize>
    ensures { result ≡ spec.own_of spec.own_init classes.now c }
{
    classes.get(c)?.init
}
