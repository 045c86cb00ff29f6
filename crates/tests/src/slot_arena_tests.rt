//! Values that are dropped once.
ghost use Rattle.std.specs.Prelude.{◌+◌, ◌<◌, ◌≤◌};
ghost use Rattle.slot_arena.specs.Contents.{inserts};

use crate::case::check;
use slot_arena::{Arena, Key};
use std::cell::Cell;
use std::rc::Rc;
use std::test::Fail;
use value_core::Memory;

// Makes room for one value and stores it.
fn store<T: Drop>(arena: &mut Arena<T>, value: T) -> Result<Key, Memory>
    requires { inserts arena.old < 4000000000 }
    ensures { inserts arena.new ≤ inserts arena.old + 1 }
{
    arena.reserve(1)?;
    Ok(arena.insert(value))
}

// Counts how often a value of it is dropped.
struct Counted(Rc<Cell<usize>>, u32);

impl Drop for Counted {
    fn drop(self) {
        self.0.set(self.0.get().wrapping_add(1));
        let Counted(_, _) = self;
    }
}

#[test]
fn each_value_is_dropped_once(rt: HostRuntime) -> Result<(), Fail> {
    let drops = Rc::new(rt.alloc(), Cell::new(0))?;
    let mut arena = Arena::new(rt.alloc());
    let mut keys = Vec::new(rt.alloc());
    for value in 0..10u32 {
        keys.push(store(&mut arena, Counted(drops.clone()?, value))?)?;
    }
    for (place, key) in keys.iter().enumerate() {
        if place < 3 {
            drop(arena.remove(*key));
        } else if place < 6 {
            arena.condemn(*key);
        }
    }
    let removed = drops.get();
    drop(arena.next_condemned());
    let taken_off = drops.get();
    let left = arena.keys(rt.alloc())?.len();
    drop(arena);
    check(
        &rt,
        &"dropped",
        [removed, taken_off, left, drops.get()] == [3, 4, 4, 10],
    );
    Ok(())
}
