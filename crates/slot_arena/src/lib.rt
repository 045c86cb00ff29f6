//! A store of values under keys that are never used again.
//!
//! What comes in are values; what goes out are keys, and under each key its value until it is taken out. A
//! removed key stays dead, also after its slot holds another value. Values can be condemned: they leave the map at
//! once and are taken off one by one later, without memory and without recursion. `specs/Contents.antt` says what
//! an arena holds and what each call makes of it.
//!
//! `arena` has the calls, over the slots of `slots`, each of which is a `Slot`. Each free slot holds the
//! number of the next one, and so does each condemned slot. The slots lie in a `Room`, which is one `Block` of memory: raw pointers stand
//! only in `block`, in the five functions that take memory, give it back, lend a slot for reading or for writing, and
//! fill or empty one.
#![tactic(auto)]

mod arena;
mod block;
mod key;
mod room;
mod slot;
mod slots;
mod wide;

pub use arena::Arena;
pub use key::Key;
