//! The slots of an arena, seen as a list with room for more.
ghost use Rattle.std.specs.Prelude.{◌≡◌, ◌+◌, ◌<◌, ◌≤◌, ◌^◌, [], ◌∷◌, ◌++◌, length, slice_get, slice_set, Some, OnOk, OnErr};
ghost use Rattle.std.specs.Borrow.{sem};

use crate::room::Room;
use crate::slot::Slot;
use std::alloc::Global;
use std::marker::Model;
use std::mem;
use value_core::Memory;

/// The slots that were used so far, and memory for some more.
#[derive(Drop)]
pub(crate) struct Slots<T> {
    alloc: Global,
    memory: SlotMemory<T>,
}

/// Memory for slots, or none.
#[derive(Drop)]
enum SlotMemory<T> {
    Missing,
    Present(Room<Slot<T>>),
}

impl<T> Model for Slots<T> {
    ghost use Rattle.slot_arena.specs.Places.{Places};
    ghost use Rattle.slot_arena.specs.SlotMemory.{places_in};
    ghost use Rattle.slot_arena.specs.declared.slot.Slot.{Slot as Place};

    ghost Value = { Places (Place T) };

    ghost view = { λ s. places_in s.memory };
}

impl<T> SlotMemory<T> {
    ghost use Rattle.slot_arena.specs.Lends.{LendsMemory};
    ghost use Rattle.slot_arena.specs.SlotMemory.{places_in};

    fn at_mut(&mut self, place: usize) -> &mut Slot<T>
        requires { place < length (places_in self.old).slots }
        ensures* writes_back { sem 𝓛 (LendsMemory T.row self.entry place result) }
        ensures slot { slice_get (places_in self.old).slots place ≡ Some result.now }
    {
        match self {
            SlotMemory::Present(room) => room.at_mut(place),
            SlotMemory::Missing => unreachable!(),
        }
    }
}

impl<T> Slots<T> {
    ghost use Rattle.slot_arena.specs.Lends.{LendsSlot};

    /// No slots, and no memory.
    pub(crate) fn new(alloc: Global) -> Slots<T>
        ensures slots { result.slots ≡ [] }
        ensures capacity { result.capacity ≡ 0 }
    {
        Slots {
            alloc,
            memory: SlotMemory::Missing,
        }
    }

    /// How many slots were used so far.
    pub(crate) fn len(&self) -> usize
        ensures { result ≡ length self.now.slots }
    {
        match &self.memory {
            SlotMemory::Present(room) => room.len(),
            SlotMemory::Missing => 0,
        }
    }

    /// For how many slots there is memory.
    pub(crate) fn capacity(&self) -> usize
        ensures { result ≡ self.now.capacity }
    {
        match &self.memory {
            SlotMemory::Present(room) => room.capacity(),
            SlotMemory::Missing => 0,
        }
    }

    /// Takes memory for `more` slots beyond those for which there is memory, or for more. Without memory nothing changes.
    pub(crate) fn grow(&mut self, more: usize) -> Result<(), Memory>
        requires { length self.old.slots ≤ self.old.capacity }
        ensures slots { self.new.slots ≡ self.old.slots }
        ensures ok { OnOk result (self.old.capacity + more ≤ self.new.capacity) }
        ensures err { OnErr result (self.new ≡ self.old) }
        ensures fits { self.new.capacity < 2 ^ 64 }
    {
        let capacity = self.capacity();
        // At least twice as many, so that slots are seldom moved.
        let capacity = capacity.checked_add(more.max(capacity)).ok_or(Memory)?;
        match &mut self.memory {
            SlotMemory::Present(room) => room.move_to(capacity),
            SlotMemory::Missing => {
                let room = Room::new(self.alloc, capacity)?;
                match mem::replace(&mut self.memory, SlotMemory::Present(room)) {
                    SlotMemory::Missing => Ok(()),
                    SlotMemory::Present(_) => unreachable!(),
                }
            }
        }
    }

    /// The slot at a place.
    pub(crate) fn at(&self, place: usize) -> &Slot<T>
        requires { place < length self.now.slots }
        ensures { slice_get self.now.slots place ≡ Some result.now }
    {
        match &self.memory {
            SlotMemory::Present(room) => room.at(place),
            SlotMemory::Missing => unreachable!(),
        }
    }

    /// The slot at a place, for writing.
    pub(crate) fn at_mut(&mut self, place: usize) -> &mut Slot<T>
        requires { place < length self.old.slots }
        ensures* writes_back { sem 𝓛 (LendsSlot T.row self.entry place result) }
        ensures slot { slice_get self.old.slots place ≡ Some result.now }
    {
        self.memory.at_mut(place)
    }

    /// Uses one slot more.
    pub(crate) fn push(&mut self, slot: Slot<T>)
        requires { length self.old.slots < self.old.capacity }
        ensures slots { self.new.slots ≡ self.old.slots ++ slot ∷ [] }
        ensures capacity { self.new.capacity ≡ self.old.capacity }
    {
        match &mut self.memory {
            SlotMemory::Present(room) => room.push(slot),
            SlotMemory::Missing => unreachable!(),
        }
    }

    /// Puts a slot at a place, and hands out the one that was there.
    pub(crate) fn replace(&mut self, place: usize, slot: Slot<T>) -> Slot<T>
        requires { place < length self.old.slots }
        ensures was { slice_get self.old.slots place ≡ Some result }
        ensures slots { self.new ≡ record self.old { slots = slice_set self.old.slots place slot } }
    {
        match &mut self.memory {
            SlotMemory::Present(room) => room.replace(place, slot),
            SlotMemory::Missing => unreachable!(),
        }
    }
}
