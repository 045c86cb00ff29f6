//! What names mean to the headers of classes.
ghost use Rattle.std.specs.Prelude.{◌≡◌, ℕ, List, map, IfOk};
ghost use Rattle.std.specs.Map.{lookup};
ghost use Rattle.std.specs.Str.{bytes_eq};
ghost use Rattle.indexmap.specs.IndexMap.{get};
ghost use Rattle.py_syntax.specs.Expressions.{expr_tree};
ghost use Rattle.py_check_classes.specs.Names as spec;

use indexmap::IndexMap;
use py_check_context::{Imported, Meaning};
use py_check_flow::name_in;
use py_check_names::builtin_meaning;
use py_syntax::Expr;
use std::alloc::Global;
use value_core::{Many, Memory, Name};

/// What definitions and imports say first of each name, with a number for each class in the order of the text. The list is used
/// up.
pub(crate) fn numbered_names(
    alloc: Global,
    said: &mut Vec<(Name, Meaning)>,
) -> Result<IndexMap<Name, Meaning>, Memory>
    ensures { IfOk result (λ table. (name : List ℕ) → get bytes_eq table name ≡ lookup (bytes_eq name) (spec.numbered 0 said.old.items)) }
{
    let mut table = IndexMap::new(alloc);
    let mut next = class_counts(said.as_slice());
    while let Some((name, meaning)) = said.pop() {
        next -= class_count(meaning);
        table.insert(name, with_number(next, meaning))?;
    }
    Ok(table)
}

fn class_count(meaning: Meaning) -> usize
    ensures { result ≡ spec.class_count meaning }
{
    if is_class(meaning) { 1 } else { 0 }
}

fn is_class(meaning: Meaning) -> bool
    ensures { result ≡ spec.is_class meaning }
{
    match meaning {
        Meaning::UntypedClass => true,
        _ => false,
    }
}

fn class_counts(said: &[(Name, Meaning)]) -> usize
    ensures { result ≡ spec.class_counts said.now }
{
    let mut count = 0;
    for (_, meaning) in said {
        if is_class(*meaning) {
            count += 1;
        }
    }
    count
}

/// What is said of a name, with this number where it is a class.
pub fn with_number(next: usize, meaning: Meaning) -> Meaning
    ensures { result ≡ spec.with_number next meaning }
{
    match meaning {
        Meaning::UntypedClass => Meaning::Class(next),
        other => other,
    }
}

fn meaning_of(said: &IndexMap<Name, Meaning>, name: &Name) -> Option<Meaning>
    ensures { result ≡ spec.meaning_of (get bytes_eq said.now) name.now }
{
    match builtin_meaning(name) {
        Some(meaning) => Some(meaning),
        None => match said.get(name) {
            Some(meaning) => Some(*meaning),
            None => None,
        },
    }
}

fn named(said: &IndexMap<Name, Meaning>, e: &Expr) -> Option<Meaning>
    ensures { result ≡ spec.named (get bytes_eq said.now) (expr_tree e.now) }
{
    match name_in(e) {
        Some(name) => meaning_of(said, name),
        None => None,
    }
}

fn class_number(meaning: Option<Meaning>) -> Option<usize>
    ensures { result ≡ spec.class_number meaning }
{
    match meaning {
        Some(Meaning::Class(number)) => Some(number),
        _ => None,
    }
}

/// The classes that bases name, by their numbers.
pub(crate) fn classes_named(
    alloc: Global,
    said: &IndexMap<Name, Meaning>,
    bases: &[Expr],
) -> Result<Many<Option<usize>>, Memory>
    ensures { IfOk result (λ named. named ≡ map (spec.class_named (get bytes_eq said.now)) (map expr_tree bases.now)) }
{
    let mut numbers = Many::new(alloc);
    for e in bases {
        numbers.push(class_named(said, e))?;
    }
    Ok(numbers)
}

fn class_named(said: &IndexMap<Name, Meaning>, e: &Expr) -> Option<usize>
    ensures { result ≡ spec.class_named (get bytes_eq said.now) (expr_tree e.now) }
{
    class_number(named(said, e))
}

/// Whether the name of the class of this number is new.
pub(crate) fn is_new(said: &IndexMap<Name, Meaning>, own: usize, name: &Name) -> bool
    ensures { result ≡ spec.is_new (get bytes_eq said.now) own name.now }
{
    match class_number(meaning_of(said, name)) {
        Some(number) => number == own,
        None => false,
    }
}

/// Whether there is one decorator, and it is `trait`.
pub(crate) fn is_trait_mark(said: &IndexMap<Name, Meaning>, marks: &[Expr]) -> bool
    ensures { result ≡ spec.is_trait_mark (get bytes_eq said.now) (map expr_tree marks.now) }
{
    match marks {
        [] => false,
        [e] => is_trait_import(named(said, e)),
        [_, _, ..] => false,
    }
}

fn is_trait_import(meaning: Option<Meaning>) -> bool
    ensures { result ≡ spec.is_trait_import meaning }
{
    match meaning {
        Some(Meaning::Import(Imported::Trait)) => true,
        _ => false,
    }
}

/// Whether there is no decorator but one `trait`.
pub(crate) fn are_decorators(said: &IndexMap<Name, Meaning>, marks: &[Expr]) -> bool
    ensures { result ≡ spec.are_decorators (get bytes_eq said.now) (map expr_tree marks.now) }
{
    match marks {
        [] => true,
        [_, ..] => is_trait_mark(said, marks),
    }
}
