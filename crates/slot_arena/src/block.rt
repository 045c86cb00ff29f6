//! Memory for slots: the one place where raw pointers stand.
ghost use Rattle.std.specs.Prelude.{◌≡◌, ◌↔◌, ◌<◌, ℕ, List, Option, Some, None, IsSome, IsNone, IsTrue, length, replicate, slice_get, slice_set, IfOk};
ghost use Rattle.std.specs.Borrow.{sem};
ghost use Rattle.std.specs.Vec.Ownership.{FitsInBlock};
ghost use base.Fml.{ftrue};
ghost use denote.RawPtr.{Ptr};
ghost use Rattle.slot_arena.specs.Memory.{block_owns, block_lends, deed_owns};

use std::alloc::{AllocError, Allocator};
use std::marker::{Model, PhantomData};
use std::mem::{align_of, size_of};

/// Memory for some slots, each of which is empty or holds a value.
pub(crate) struct Block<S> {
    at: *mut S,
    ghost places: { List (Option S) },
}

impl<S> Model for Block<S> {
    ghost also_owns = { λ b. block_owns S.row b.at b.places };

    ghost also_shares = { λ b _ κ. block_lends S.row b.at b.places κ };
}

/// The right to give the memory of `count` slots at `at` back to `alloc`.
pub(crate) struct Deed<S, A: Allocator> {
    mark: PhantomData<*const (S, A)>,
    ghost at: { Ptr },
    ghost count: { ℕ },
    ghost alloc: { A },
}

impl<S, A: Allocator> Model for Deed<S, A> {
    ghost also_owns = { λ d. deed_owns S.row (A.dealloc_token d.alloc) d.at d.count };

    ghost also_shares = { λ _ _ _. ftrue };
}

/// Whether `count` slots take fewer than 2^63 bytes, beyond which no memory can be asked for.
pub(crate) fn fits_in_memory<S>(count: usize) -> bool
    ensures { IsTrue result → FitsInBlock S.row count }
{
    let bytes = count as u128 * size_of::<S>() as u128;
    if bytes < 0x8000_0000_0000_0000 {
        count < 0x8000_0000_0000_0000
    } else {
        false
    }
}

/// Takes memory for `count` empty slots.
pub(crate) fn allocate<S, A: Allocator>(
    alloc: &A,
    count: usize,
) -> Result<(Block<S>, Deed<S, A>), AllocError>
    requires { FitsInBlock S.row count }
    ensures { IfOk result (λ r. (r.0.places ≡ replicate count None) × (r.1.at ≡ r.0.at) × (r.1.count ≡ count) × (r.1.alloc ≡ alloc.now)) }
{
    match alloc.allocate(count * size_of::<S>(), align_of::<S>()) {
        Ok(bytes) => Ok((
            Block {
                at: bytes as *mut S,
            },
            Deed { mark: PhantomData },
        )),
        Err(refused) => Err(refused),
    }
}

/// Gives the memory of `count` slots back, all of which are empty.
pub(crate) fn free<S, A: Allocator>(alloc: &A, block: Block<S>, deed: Deed<S, A>, count: usize)
    requires { (block.places ≡ replicate count None) × (deed.at ≡ block.at) × (deed.count ≡ count) × (deed.alloc ≡ alloc.now) }
{
    let Block { at } = block;
    let Deed { mark: _ } = deed;
    unsafe {
        alloc.deallocate(at as *mut u8, count * size_of::<S>(), align_of::<S>());
    }
}

impl<S> Block<S> {
    ghost use Rattle.slot_arena.specs.BlockLends.{LendsPlace};

    /// Lends the value at a place for reading.
    pub(crate) fn get(&self, place: usize) -> &S
        requires { (x : S) × (slice_get self.now.places place ≡ Some (Some x)) }
        ensures { slice_get self.now.places place ≡ Some (Some result.now) }
    {
        unsafe { &*self.at.add(place) }
    }

    /// Lends the value at a place for writing.
    pub(crate) fn get_mut(&mut self, place: usize) -> &mut S
        requires { (x : S) × (slice_get self.old.places place ≡ Some (Some x)) }
        ensures* writes_back { sem 𝓛 (LendsPlace S.row self.entry place result) }
        ensures value { slice_get self.old.places place ≡ Some (Some result.now) }
    {
        unsafe { &mut *self.at.add(place) }
    }

    /// Fills an empty place, or empties one that holds a value: puts `slot` there and hands out what was there, one
    /// of which is nothing.
    pub(crate) fn replace(&mut self, place: usize, slot: Option<S>) -> Option<S>
        requires { (old : Option S) × (slice_get self.old.places place ≡ Some old) × (IsSome slot ↔ IsNone old) }
        ensures was { slice_get self.old.places place ≡ Some result }
        ensures at { self.new.at ≡ self.old.at }
        ensures places { self.new.places ≡ slice_set self.old.places place slot }
    {
        match slot {
            Some(slot) => {
                unsafe { self.at.add(place).write(slot) };
                None
            }
            None => Some(unsafe { self.at.add(place).read() }),
        }
    }
}
