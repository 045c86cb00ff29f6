//! Classes by their numbers, with what stands above each.
ghost use Rattle.std.specs.Prelude.{◌≡◌, ◌&&◌, ◌++◌, ◌∷◌, [], ℕ, nat_lt, map, slice_get, IfOk};
ghost use Rattle.py_typed.specs.Classes as class;
ghost use Rattle.py_typed.specs.Classes.{class_entry};
ghost use Rattle.py_typed.specs.Above as table;

use crate::classes::ClassInfo;
use std::alloc::Global;
use std::marker::Model;
use value_core::{Many, Memory};

/// The classes of a module by their numbers. Contracts see it as the list of them. It keeps beside them what stands above
/// each, so whether one stands under another is told at once, however many ways lead there.
#[derive(Drop)]
pub struct ClassList {
    classes: Many<ClassInfo>,
    above: Many<Many<bool>>,
}

impl Model for ClassList {
    ghost use Rattle.std.specs.Prelude.{List, map};
    ghost use Rattle.py_typed.specs.declared.classes.ClassInfo.{ClassInfo};
    ghost use Rattle.py_typed.specs.Classes.{class_entry};
    ghost use Rattle.py_typed.specs.Above.{IsTable};
    ghost use Rattle.py_typed.specs.contracts.types.Ty as ty;
    ghost use Rattle.std.specs.Coded.{codes};

    ghost Value = { List ClassInfo };

    ghost coded = { Prim.hlevel (codes, ty.the_row.coded) };

    ghost view = { λ list. list.classes };

    ghost invariant = { λ list. IsTable (map class_entry list.classes) list.above };
}

impl ClassList {
    /// No classes. It takes no memory.
    pub fn new(alloc: Global) -> ClassList
        ensures { result ≡ [] }
    {
        ClassList {
            classes: Many::new(alloc),
            above: Many::new(alloc),
        }
    }

    /// The classes with one more. A base whose number is not smaller than that of its class counts as none.
    pub fn and(self, alloc: Global, class: ClassInfo) -> Result<ClassList, Memory>
        ensures { IfOk result (λ list. list ≡ self ++ class ∷ []) }
    {
        let ClassList {
            mut classes,
            mut above,
        } = self;
        let row = row_of(
            alloc,
            class.bases.as_slice(),
            classes.len(),
            above.as_slice(),
        )?;
        above.push(row)?;
        classes.push(class)?;
        Ok(ClassList { classes, above })
    }

    /// The classes as a slice.
    pub fn as_slice(&self) -> &[ClassInfo]
        ensures { result.now ≡ self.now }
    {
        self.classes.as_slice()
    }

    /// Whether the class c stands under the class d: it is d, or a base of it stands under d.
    pub fn is_under(&self, c: usize, d: usize) -> bool
        ensures { result ≡ class.is_class_under (map class_entry self.now) c d }
    {
        c == d || told(self.above.as_slice(), c, d)
    }
}

// What a table of rows tells of two numbers.
fn told(rows: &[Many<bool>], c: usize, d: usize) -> bool
    ensures { result ≡ table.told rows.now c d }
{
    match rows.get(c) {
        Some(row) => flag_at(row.as_slice(), d),
        None => false,
    }
}

fn flag_at(row: &[bool], d: usize) -> bool
    ensures { result ≡ table.flag_in (slice_get row.now d) }
{
    match row.get(d) {
        Some(told) => *told,
        None => false,
    }
}

// Whether one of the bases of a class is d, or d stands above it.
fn told_by_bases(rows: &[Many<bool>], bases: &[usize], c: usize, d: usize) -> bool
    ensures { result ≡ table.told_by_bases rows.now bases.now c d }
{
    for b in bases {
        if *b < c && (*b == d || told(rows, *b, d)) {
            return true;
        }
    }
    false
}

// The row of a class with these bases: one place for each number below its own, and none where it has no bases.
fn row_of(
    alloc: Global,
    bases: &[usize],
    c: usize,
    rows: &[Many<bool>],
) -> Result<Many<bool>, Memory>
    ensures { IfOk result (λ row. (d : ℕ) → table.flag_in (slice_get row d) ≡ (nat_lt d (table.row_length bases.now c) && table.told_by_bases rows.now bases.now c d)) }
{
    let mut row = Many::new(alloc);
    for d in 0..row_length(bases, c) {
        row.push(told_by_bases(rows, bases, c, d))?;
    }
    Ok(row)
}

fn row_length(bases: &[usize], c: usize) -> usize
    ensures { result ≡ table.row_length bases.now c }
{
    if bases.is_empty() { 0 } else { c }
}
