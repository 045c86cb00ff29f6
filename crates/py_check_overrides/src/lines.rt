//! What is known of the definitions of classes that pass.
ghost use Rattle.std.specs.Prelude.{◌≡◌, ◌<◌, ◌+◌, ◌∷◌, ◌++◌, [], ℕ, true, List, length, map, slice_get, IfOk, IfSome, OnOk};
ghost use Rattle.std.specs.Option.{option_map, option_copied};
ghost use Rattle.std.specs.Map.{lookup};
ghost use Rattle.std.specs.Str.{bytes_eq};
ghost use Rattle.indexmap.specs.IndexMap.{get};
ghost use Rattle.class_layout_members.specs.Views.{definition, member};
ghost use Rattle.py_check_overrides.specs.declared.lines.Line.{Line};
ghost use Rattle.py_check_overrides.specs.Lines as spec;

use class_layout_members::{Definition, Member, add_first, add_missing};
use indexmap::IndexMap;
use std::alloc::Global;
use value_core::{Many, Memory, Name};

/// A definition, and the class that brought it to its line.
#[derive(Clone, Copy)]
pub(crate) struct Said<'a> {
    pub(crate) class: usize,
    pub(crate) definition: Definition<'a>,
}

/// Classes in a line, each below the one before.
#[derive(Drop)]
pub(crate) struct Line<'a> {
    /// The last of them.
    last: usize,
    /// The class that the first of them stands below.
    above: Option<usize>,
    /// Of each name one definition, with which all others on the line and above it agree.
    said: IndexMap<Name, Said<'a>>,
}

/// The lines on which the classes so far stand.
#[derive(Drop)]
pub(crate) struct Lines<'a> {
    lines: Vec<Line<'a>>,
    /// Of each class, by its number, the place of its line.
    line_of: Many<usize>,
}

impl<'a> Lines<'a> {
    pub(crate) fn new(alloc: Global) -> Lines<'a>
        ensures lines { spec.AreLines result }
        ensures empty { result.line_of ≡ [] }
    {
        Lines {
            lines: Vec::new(alloc),
            line_of: Many::new(alloc),
        }
    }

    /// What is known of a name in a class.
    pub(crate) fn known(&self, class: usize, name: &Name) -> Option<Definition<'a>>
        requires { spec.AreLines self.now }
        ensures { option_map definition result ≡ spec.known self.now class name.now }
    {
        let mut at = class;
        while let Some(line) = self.line_at(at) {
            if let Some(found) = up_to(at, line.said.get(name)) {
                return Some(found);
            }
            let Some(above) = line.above else {
                return None;
            };
            at = above;
        }
        None
    }

    fn line_at(&self, class: usize) -> Option<&Line<'a>>
        ensures { option_copied result ≡ spec.line_at self.now class }
    {
        let place = *self.line_of.get(class)?;
        self.lines.get(place)
    }

    /// Puts the next class on a line: below this class, with what is new of it.
    pub(crate) fn add(
        &mut self,
        alloc: Global,
        above: Option<usize>,
        new: &IndexMap<Name, Said<'a>>,
    ) -> Result<(), Memory>
        requires lines { spec.AreLines self.old }
        requires there { (b : ℕ) → above ≡ Some b → b < length self.old.line_of }
        requires said { (name : List ℕ) → spec.is_by (length self.old.line_of) (get bytes_eq new.now name) ≡ true }
        requires fresh { spec.IsNew (spec.said_in new.now) (spec.known_above self.old above) }
        ensures lines { OnOk result (spec.AreLines self.new) }
        ensures length { OnOk result (length self.new.line_of ≡ length self.old.line_of + 1) }
        ensures old { OnOk result ((c : ℕ) (name : List ℕ) → c < length self.old.line_of → spec.known self.new c name ≡ spec.known self.old c name) }
        ensures new { OnOk result ((name : List ℕ) → spec.known self.new (length self.old.line_of) name ≡ spec.known_or_new (spec.known_above self.old above) (spec.said_in new.now) name) }
    {
        let place = self.next_place(alloc, above)?;
        self.go_on(place, new)?;
        Ok(())
    }

    /// The place of the line on which the next class stands, if it stands below this one. If need be a line begins.
    fn next_place(&mut self, alloc: Global, above: Option<usize>) -> Result<usize, Memory>
        requires lines { spec.AreLines self.old }
        requires there { (b : ℕ) → above ≡ Some b → b < length self.old.line_of }
        ensures lines { OnOk result (spec.AreLines self.new) }
        ensures same { OnOk result (self.new.line_of ≡ self.old.line_of) }
        ensures known { OnOk result ((c : ℕ) (name : List ℕ) → spec.known self.new c name ≡ spec.known self.old c name) }
        ensures goes_on { IfOk result (λ place. spec.GoesOn self.new above place) }
    {
        if let Some(place) = self.line_ending(above) {
            return Ok(place);
        }
        self.begin(alloc, above)
    }

    /// The place of the line that ends with this class, if one does.
    fn line_ending(&self, class: Option<usize>) -> Option<usize>
        ensures { IfSome result (λ place. spec.Ends self.now class place) }
    {
        let class = class?;
        let place = *self.line_of.get(class)?;
        let line = self.lines.get(place)?;
        if line.last == class {
            Some(place)
        } else {
            None
        }
    }

    /// Begins a line that hangs on this class, and gives its place.
    fn begin(&mut self, alloc: Global, above: Option<usize>) -> Result<usize, Memory>
        requires lines { spec.AreLines self.old }
        requires there { (b : ℕ) → above ≡ Some b → b < length self.old.line_of }
        ensures lines { OnOk result (spec.AreLines self.new) }
        ensures same { OnOk result (self.new.line_of ≡ self.old.line_of) }
        ensures known { OnOk result ((c : ℕ) (name : List ℕ) → spec.known self.new c name ≡ spec.known self.old c name) }
        ensures goes_on { IfOk result (λ place. spec.GoesOn self.new above place) }
    {
        let place = self.lines.len();
        self.lines.push(Line {
            last: self.line_of.len(),
            above,
            said: IndexMap::new(alloc),
        })?;
        Ok(place)
    }

    /// Puts the next class on the line of a place, with what is new of it.
    fn go_on(&mut self, place: usize, new: &IndexMap<Name, Said<'a>>) -> Result<(), Memory>
        requires { place < length self.old.lines.items }
        ensures long { OnOk result (length self.new.lines.items ≡ length self.old.lines.items) }
        ensures line { OnOk result ((line gone : Line) → slice_get self.old.lines.items place ≡ Some line → slice_get self.new.lines.items place ≡ Some gone → spec.IsGone line (length self.old.line_of) (get bytes_eq new.now) gone) }
        ensures others { OnOk result ((l : ℕ) → ¬ (l ≡ place) → slice_get self.new.lines.items l ≡ slice_get self.old.lines.items l) }
        ensures line_of { OnOk result (self.new.line_of ≡ self.old.line_of ++ place ∷ []) }
    {
        let class = self.line_of.len();
        go_on_line(&mut self.lines[place], class, new)?;
        self.line_of.push(place)
    }
}

/// Goes on with a line: this class is below its last one, and this is new of it.
fn go_on_line<'a>(
    line: &mut Line<'a>,
    class: usize,
    new: &IndexMap<Name, Said<'a>>,
) -> Result<(), Memory>
    ensures { OnOk result (spec.IsGone line.old class (get bytes_eq new.now) line.new) }
{
    add_missing(&mut line.said, new)?;
    line.last = class;
    Ok(())
}

/// What is said by a class up to this one.
fn up_to<'a>(class: usize, said: Option<&Said<'a>>) -> Option<Definition<'a>>
    ensures { option_map definition result ≡ spec.up_to class (option_copied said.entry) }
{
    let said = said?;
    if said.class <= class {
        Some(said.definition)
    } else {
        None
    }
}

/// The first definitions of names in a row, as said by this class.
pub(crate) fn firsts_by<'a>(
    alloc: Global,
    class: usize,
    members: &[Member<'a>],
) -> Result<IndexMap<Name, Said<'a>>, Memory>
    ensures first { IfOk result (λ said. (name : List ℕ) → spec.said_in said name ≡ lookup (bytes_eq name) (map member members.now)) }
    ensures by { IfOk result (λ said. (name : List ℕ) → spec.is_by class (get bytes_eq said name) ≡ true) }
{
    let mut said = IndexMap::new(alloc);
    for member in members {
        let definition = member.definition;
        add_first(&mut said, member.name, Said { class, definition })?;
    }
    Ok(said)
}
