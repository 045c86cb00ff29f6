//! The variables of a function, and their places by their names as they are written.
ghost use Rattle.std.specs.Prelude.{◌≡◌, ◌++◌, ◌∷◌, [], ◌&&◌, ℕ, List, cond, length, Option, Some, None, IfOk, OnOk};
ghost use Rattle.std.specs.List.{position_from};
ghost use Rattle.std.specs.Option.{option_or};
ghost use Rattle.std.specs.Str.{bytes_eq};
ghost use Rattle.c_core.specs.declared.code.Kind.{Kind};
ghost use Rattle.c_core.specs.WellFormed.{same_kind};
ghost use Rattle.c_text.specs.Variables.{FindsVariable, FindsVariableOf, has_name, has_name_and_kind};
ghost use Rattle.c_text.specs.Places.{earlier, place_of, places_by};

use crate::word::behind;
use c_core::Kind;
use std::alloc::Global;
use std::collections::BTreeMap;
use std::marker::Model;
use value_core::{Many, Memory, Name};

/// The places of the first variables of their names and kinds: a map from names for each kind.
#[derive(Drop)]
struct Firsts {
    tagged: BTreeMap<Vec<u8>, usize>,
    int64: BTreeMap<Vec<u8>, usize>,
    char: BTreeMap<Vec<u8>, usize>,
    object: BTreeMap<Vec<u8>, usize>,
}

/// The place of a name.
fn place_in(places: &BTreeMap<Vec<u8>, usize>, name: &[u8]) -> Option<usize>
    ensures { result ≡ place_of places.now name.now }
{
    places.get(name).copied()
}

/// Notes the place of a name that has none.
fn note(
    alloc: Global,
    places: &mut BTreeMap<Vec<u8>, usize>,
    name: &[u8],
    place: usize,
) -> Result<(), Memory>
    ensures { OnOk result ((other : List ℕ) → place_of places.new other ≡ option_or (place_of places.old other) (cond (bytes_eq name.now other) (Some place) None)) }
{
    if places.contains_key(name) {
        return Ok(());
    }
    let key = Vec::from_slice(alloc, name)?;
    places.insert(key, place)?;
    Ok(())
}

/// The lower of two places.
fn lower(a: Option<usize>, b: Option<usize>) -> Option<usize>
    ensures { result ≡ earlier a b }
{
    match (a, b) {
        (Some(x), Some(y)) => Some(x.min(y)),
        (Some(x), None) => Some(x),
        (None, _) => b,
    }
}

impl Firsts {
    fn new(alloc: Global) -> Firsts
        ensures { (kind : Kind) (name : List ℕ) → place_of (places_by result kind) name ≡ None }
    {
        Firsts {
            tagged: BTreeMap::new(alloc),
            int64: BTreeMap::new(alloc),
            char: BTreeMap::new(alloc),
            object: BTreeMap::new(alloc),
        }
    }

    /// Notes the place of a variable whose name has none among those of its kind.
    fn note(&mut self, alloc: Global, name: &[u8], kind: Kind, place: usize) -> Result<(), Memory>
        ensures { OnOk result ((k : Kind) (other : List ℕ) → place_of (places_by self.new k) other ≡ option_or (place_of (places_by self.old k) other) (cond (same_kind kind k && bytes_eq name.now other) (Some place) None)) }
    {
        match kind {
            Kind::Tagged => note(alloc, &mut self.tagged, name, place),
            Kind::Int64 => note(alloc, &mut self.int64, name, place),
            Kind::Char => note(alloc, &mut self.char, name, place),
            Kind::Object => note(alloc, &mut self.object, name, place),
        }
    }

    /// The place of a name among those of a kind.
    fn of_kind(&self, name: &[u8], kind: Kind) -> Option<usize>
        ensures { result ≡ place_of (places_by self.now kind) name.now }
    {
        match kind {
            Kind::Tagged => place_in(&self.tagged, name),
            Kind::Int64 => place_in(&self.int64, name),
            Kind::Char => place_in(&self.char, name),
            Kind::Object => place_in(&self.object, name),
        }
    }
}

/// The variables that were declared so far. Contracts see them as a list; each is found by its name without a walk over
/// the others.
#[derive(Drop)]
pub(crate) struct Variables {
    declared: Many<(Name, Kind)>,
    firsts: Firsts,
}

impl Model for Variables {
    ghost use Rattle.std.specs.Prelude.{ℕ, List};
    ghost use Rattle.c_core.specs.declared.code.Kind.{Kind};

    ghost Value = { List (List ℕ × Kind) };

    ghost use Rattle.c_text.specs.Places.{AreFirsts};

    ghost view = { λ vars. vars.declared };

    ghost invariant = { λ vars. AreFirsts vars.declared vars.firsts };
}

impl Variables {
    pub(crate) fn new(alloc: Global) -> Variables
        ensures { result ≡ [] }
    {
        Variables {
            declared: Many::new(alloc),
            firsts: Firsts::new(alloc),
        }
    }

    /// The variables with one more.
    pub(crate) fn and(self, alloc: Global, var: (Name, Kind)) -> Result<Variables, Memory>
        ensures { IfOk result (λ vars. vars ≡ self ++ var ∷ []) }
    {
        let Variables {
            mut declared,
            mut firsts,
        } = self;
        firsts.note(alloc, var.0.as_str().as_bytes(), var.1, declared.len())?;
        declared.push(var)?;
        Ok(Variables { declared, firsts })
    }

    pub(crate) fn list(&self) -> &Many<(Name, Kind)>
        ensures { result.now ≡ self.now }
    {
        &self.declared
    }

    pub(crate) fn into_list(self) -> Many<(Name, Kind)>
        ensures { result ≡ self }
    {
        let Variables { declared, .. } = self;
        declared
    }

    fn of_name(&self, name: &[u8]) -> Option<usize>
        ensures { result ≡ position_from (has_name name.now) 0 self.now }
    {
        let firsts = &self.firsts;
        let counted = lower(
            firsts.of_kind(name, Kind::Tagged),
            firsts.of_kind(name, Kind::Object),
        );
        let uncounted = lower(
            firsts.of_kind(name, Kind::Int64),
            firsts.of_kind(name, Kind::Char),
        );
        lower(counted, uncounted)
    }

    fn of_name_and_kind(&self, name: &[u8], kind: Kind) -> Option<usize>
        ensures { result ≡ position_from (has_name_and_kind name.now kind) 0 self.now }
    {
        self.firsts.of_kind(name, kind)
    }
}

/// The first variable that is written so.
pub(crate) fn variable(vars: &Variables, word: &[u8]) -> Option<usize>
    ensures { FindsVariable vars.now word.now result }
{
    match behind(word, b"cpy_") {
        Some(name) => vars.of_name(name),
        None => None,
    }
}

/// The first variable of this kind that is written so.
pub(crate) fn variable_of(vars: &Variables, word: &[u8], kind: Kind) -> Option<usize>
    ensures { FindsVariableOf vars.now word.now kind result }
{
    match behind(word, b"cpy_") {
        Some(name) => vars.of_name_and_kind(name, kind),
        None => None,
    }
}
