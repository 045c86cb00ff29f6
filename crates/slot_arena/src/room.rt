//! Slots in one block of memory, seen as a list with room for more.
ghost use Rattle.std.specs.Prelude.{◌≡◌, ◌+◌, ◌<◌, ◌≤◌, ◌^◌, List, [], ◌∷◌, ◌++◌, length, slice_get, slice_set, replicate, Some, None, IfOk, IfSome, IfNone, OnOk, OnErr};
ghost use Rattle.std.specs.Borrow.{sem};
ghost use Rattle.slot_arena.specs.Laid.{laid, values_in};

use crate::block::{Block, Deed, allocate, fits_in_memory, free};
use std::alloc::Global;
use std::marker::Model;
use std::mem;
use value_core::Memory;

/// The first `used` slots of a block hold values.
pub(crate) struct Room<S> {
    block: Block<S>,
    deed: Deed<S, Global>,
    alloc: Global,
    used: usize,
    capacity: usize,
}

impl<S> Model for Room<S> {
    ghost use Rattle.std.specs.Prelude.{◌≡◌};
    ghost use Rattle.slot_arena.specs.Places.{Places};

    ghost Value = { Places S };

    ghost use Rattle.slot_arena.specs.Laid.{values_in, IsLaid};

    ghost view = { λ r. record { slots = values_in r.block.places; capacity = r.capacity } };

    ghost invariant = { λ r. IsLaid r.block.places r.used r.capacity × (r.deed.at ≡ r.block.at) × (r.deed.count ≡ r.capacity) × (r.deed.alloc ≡ r.alloc) };
}

impl<S: Drop> Drop for Room<S> {
    fn drop(mut self) {
        while let Some(slot) = self.pop() {
            drop(slot);
        }
        self.free_empty();
    }
}

// Moves the `count` values of one block to another.
fn move_values<S>(from: &mut Block<S>, to: &mut Block<S>, count: usize)
    requires lie { from.old.places ≡ laid (values_in from.old.places) (length from.old.places) }
    requires counted { count ≡ length (values_in from.old.places) }
    requires empty { to.old.places ≡ replicate (length to.old.places) None }
    requires room { count ≤ length to.old.places }
    ensures at { (from.new.at ≡ from.old.at) × (to.new.at ≡ to.old.at) }
    ensures emptied { from.new.places ≡ replicate (length from.old.places) None }
    ensures moved { to.new.places ≡ laid (values_in from.old.places) (length to.old.places) }
{
    for place in 0..count {
        let value = from.replace(place, None);
        match to.replace(place, value) {
            None => {}
            Some(_) => unreachable!(),
        }
    }
}

impl<S> Room<S> {
    ghost use Rattle.slot_arena.specs.RoomLends.{LendsAt};

    /// Takes memory for `capacity` slots, none of which is used.
    pub(crate) fn new(alloc: Global, capacity: usize) -> Result<Room<S>, Memory>
        ensures { IfOk result (λ r. r ≡ record { slots = []; capacity = capacity }) }
    {
        if !fits_in_memory::<S>(capacity) {
            return Err(Memory);
        }
        let (block, deed) = allocate(&alloc, capacity)?;
        Ok(Room {
            block,
            deed,
            alloc,
            used: 0,
            capacity,
        })
    }

    pub(crate) fn len(&self) -> usize
        ensures { result ≡ length self.now.slots }
    {
        self.used
    }

    pub(crate) fn capacity(&self) -> usize
        ensures { result ≡ self.now.capacity }
    {
        self.capacity
    }

    /// Moves the slots to memory for `capacity` slots. Without memory nothing changes.
    pub(crate) fn move_to(&mut self, capacity: usize) -> Result<(), Memory>
        requires { self.old.capacity ≤ capacity }
        ensures slots { self.new.slots ≡ self.old.slots }
        ensures ok { OnOk result (self.new.capacity ≡ capacity) }
        ensures err { OnErr result (self.new ≡ self.old) }
    {
        if !fits_in_memory::<S>(capacity) {
            return Err(Memory);
        }
        let (mut block, deed) = allocate(&self.alloc, capacity)?;
        move_values(&mut self.block, &mut block, self.used);
        let block = mem::replace(&mut self.block, block);
        let deed = mem::replace(&mut self.deed, deed);
        free(&self.alloc, block, deed, self.capacity);
        self.capacity = capacity;
        Ok(())
    }

    /// The slot at a place.
    pub(crate) fn at(&self, place: usize) -> &S
        requires { place < length self.now.slots }
        ensures { slice_get self.now.slots place ≡ Some result.now }
    {
        self.block.get(place)
    }

    /// The slot at a place, for writing.
    pub(crate) fn at_mut(&mut self, place: usize) -> &mut S
        requires { place < length self.old.slots }
        ensures* writes_back { sem 𝓛 (LendsAt S.row self.entry place result) }
        ensures slot { slice_get self.old.slots place ≡ Some result.now }
    {
        self.block.get_mut(place)
    }

    /// Uses one slot more.
    pub(crate) fn push(&mut self, slot: S)
        requires { length self.old.slots < self.old.capacity }
        ensures { self.new ≡ record self.old { slots = self.old.slots ++ slot ∷ [] } }
    {
        match self.block.replace(self.used, Some(slot)) {
            None => {}
            Some(_) => unreachable!(),
        }
        self.used += 1;
    }

    /// Puts a slot at a place, and hands out the one that was there.
    pub(crate) fn replace(&mut self, place: usize, slot: S) -> S
        requires { place < length self.old.slots }
        ensures was { slice_get self.old.slots place ≡ Some result }
        ensures slots { self.new ≡ record self.old { slots = slice_set self.old.slots place slot } }
    {
        mem::replace(self.at_mut(place), slot)
    }

    // Takes out the last slot, if one is used.
    fn pop(&mut self) -> Option<S>
        ensures taken { IfSome result (λ slot. self.old ≡ record self.new { slots = self.new.slots ++ slot ∷ [] }) }
        ensures none { IfNone result ((self.old.slots ≡ []) × (self.new ≡ self.old)) }
    {
        if self.used == 0 {
            return None;
        }
        self.used -= 1;
        self.block.replace(self.used, None)
    }

    // Gives the memory back.
    fn free_empty(self)
        requires { self.slots ≡ [] }
    {
        let Room {
            block,
            deed,
            alloc,
            used: _,
            capacity,
        } = self;
        free(&alloc, block, deed, capacity);
    }
}
