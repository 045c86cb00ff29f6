//! The arena: its map, its condemned pairs and its room.
ghost use Rattle.std.specs.Prelude.{◌≡◌, ◌+◌, ◌-◌, ◌^◌, ◌<◌, ◌≤◌, ◌↔◌, ◌∷◌, [], IsTrue, IsNone, IsOk, IsSome, Some, IfNone, IfOk, IfSome, OnOk, OnErr, OnSome, MatchOption, option_copied};
ghost use Rattle.std.specs.Option.{option_copied_mut};
ghost use Rattle.std.specs.Borrow.{sem};
ghost use Rattle.slot_arena.specs.Serials.{serial_of};
ghost use Rattle.slot_arena.specs.Contents.{inserts, value_at, ContainsKey, KeepsEarlier, empty, inserted, removed, condemned_with, taken_off, keys_of};

use crate::key::Key;
use crate::slot::{Slot, Standing};
use crate::slots::Slots;
use std::alloc::Global;
use std::marker::Model;
use value_core::{Many, Memory};

/// Values under keys that are never used again. Contracts see it as the map from keys to values, the list of
/// condemned pairs, and how many inserts need no memory.
#[derive(Drop)]
pub struct Arena<T> {
    slots: Slots<T>,
    // The first free slot, of as many as `freed` says.
    free: Option<usize>,
    freed: usize,
    // The slot that was condemned last.
    condemned: Option<usize>,
    inserts: u128,
}

impl<T> Model for Arena<T> {
    ghost use Rattle.slot_arena.specs.Contents.{Contents};

    ghost Value = { Contents T };

    ghost use Rattle.slot_arena.specs.Layout.{contents_of, IsSound};

    ghost view = { λ a. contents_of a.slots.slots a.slots.capacity a.freed a.condemned a.inserts };

    ghost invariant = { λ a. IsSound a.slots.slots a.slots.capacity a.free a.freed a.condemned a.inserts };
}

impl<T> Arena<T> {
    ghost use Rattle.slot_arena.specs.Lends.{LendsValue, LendsPresent};

    /// An empty arena, which takes no memory.
    pub fn new(alloc: Global) -> Arena<T>
        ensures { result ≡ empty }
    {
        Arena {
            slots: Slots::new(alloc),
            free: None,
            freed: 0,
            condemned: None,
            inserts: 0,
        }
    }

    /// Makes room for `more` inserts. Without memory for them nothing changes.
    pub fn reserve(&mut self, more: usize) -> Result<(), Memory>
        // The map and the condemned pairs stay, and no room is lost.
        ensures kept { self.new ≡ record self.old { spare = self.new.spare } }
        ensures rises { self.old.spare ≤ self.new.spare }

        ensures ok { OnOk result (more ≤ self.new.spare) }
        ensures err { OnErr result (self.new ≡ self.old) }
        ensures had_room { more ≤ self.old.spare → IsOk result }
    {
        let spare = self.spare();
        if more > spare {
            self.slots.grow(more - spare)?;
        }
        Ok(())
    }

    /// Stores a value under a new key. It takes no memory.
    pub fn insert(&mut self, value: T) -> Key
        requires room { 0 < self.old.spare }
        requires serials { inserts self.old < 2 ^ 128 - 1 }
        ensures serial { serial_of result ≡ inserts self.old }
        ensures stored { self.new ≡ inserted self.old result value }
        ensures earlier { KeepsEarlier self.old self.new }
    {
        let serial = self.inserts;
        let full = Slot::Full {
            standing: Standing::Live,
            serial,
            value,
        };
        self.inserts = serial + 1;
        let Some(slot) = self.free else {
            let slot = self.slots.len();
            self.slots.push(full);
            return Key::new(slot, serial);
        };
        match self.slots.replace(slot, full) {
            Slot::Free(next) => self.free = next,
            Slot::Full {
                standing: _,
                serial: _,
                value: _,
            } => unreachable!(),
        }
        self.freed -= 1;
        Key::new(slot, serial)
    }

    /// The value of a key, if the key is in the map. It takes no memory.
    pub fn get(&self, key: Key) -> Option<&T>
        ensures { option_copied result ≡ value_at self.now key }
    {
        if key.slot < self.slots.len() {
            self.slots.at(key.slot).value(key.serial())
        } else {
            None
        }
    }

    /// The value of a key for writing, if the key is in the map. It takes no memory.
    pub fn get_mut(&mut self, key: Key) -> Option<&mut T>
        ensures* writes_back { sem 𝓛 (LendsValue T.row self.entry key result) }
        ensures value { option_copied_mut result ≡ value_at self.old key }
    {
        if self.contains(key) {
            Some(self.value_mut(key))
        } else {
            None
        }
    }

    /// Takes a key out of the map and hands its value out, if the key is in the map. It takes no memory.
    pub fn remove(&mut self, key: Key) -> Option<T>
        ensures value { result ≡ value_at self.old key }
        ensures taken { OnSome result (self.new ≡ removed self.old key) }
        ensures absent { IfNone result (self.new ≡ self.old) }
    {
        if !self.contains(key) {
            return None;
        }
        let free = Slot::Free(self.free);
        match self.slots.replace(key.slot, free) {
            Slot::Full {
                standing: _,
                serial: _,
                value,
            } => {
                self.free = Some(key.slot);
                self.freed += 1;
                Some(value)
            }
            Slot::Free(_) => unreachable!(),
        }
    }

    /// Moves a key and its value from the map to the condemned pairs, and answers whether the key was in the map.
    /// It takes no memory.
    pub fn condemn(&mut self, key: Key) -> bool
        ensures found { IsTrue result ↔ ContainsKey self.old key }
        ensures moved { MatchOption (value_at self.old key) (self.new ≡ self.old) (λ value. self.new ≡ condemned_with self.old key value) }
    {
        if !self.contains(key) {
            return false;
        }
        let next = self.condemned;
        self.slots.at_mut(key.slot).condemn(next);
        self.condemned = Some(key.slot);
        true
    }

    /// Takes the pair that was condemned last off the list, if there is one. It takes no memory.
    pub fn next_condemned(&mut self) -> Option<(Key, T)>
        ensures empty { IsNone result ↔ (self.old.condemned ≡ []) }
        ensures first { IfSome result (λ pair. self.old.condemned ≡ pair ∷ self.new.condemned) }
        ensures taken { OnSome result (self.new ≡ taken_off self.old self.new.condemned) }
        ensures stays { IfNone result (self.new ≡ self.old) }
    {
        let slot = self.condemned?;
        let free = Slot::Free(self.free);
        match self.slots.replace(slot, free) {
            Slot::Full {
                standing: Standing::Condemned(next),
                serial,
                value,
            } => {
                self.condemned = next;
                self.free = Some(slot);
                self.freed += 1;
                Some((Key::new(slot, serial), value))
            }
            _ => unreachable!(),
        }
    }

    /// The map's keys, by ascending serials.
    pub fn keys(&self, alloc: Global) -> Result<Many<Key>, Memory>
        ensures { IfOk result (λ keys. keys ≡ keys_of self.now) }
    {
        let mut keys = Vec::new(alloc);
        for slot in 0..self.slots.len() {
            if let Some(serial) = self.slots.at(slot).live_serial() {
                keys.push(Key::new(slot, serial))?;
            }
        }
        keys.as_mut_slice().sort_unstable_by_key(|key| key.serial());
        Ok(Many::from_vec(keys))
    }

    fn spare(&self) -> usize
        ensures { result ≡ self.now.spare }
    {
        self.freed + (self.slots.capacity() - self.slots.len())
    }

    fn contains(&self, key: Key) -> bool
        ensures { IsTrue result ↔ ContainsKey self.now key }
    {
        self.get(key).is_some()
    }

    fn value_mut(&mut self, key: Key) -> &mut T
        requires { ContainsKey self.old key }
        ensures* writes_back { sem 𝓛 (LendsPresent T.row self.entry key result) }
        ensures value { value_at self.old key ≡ Some result.now }
    {
        self.slots.at_mut(key.slot).value_mut()
    }
}
