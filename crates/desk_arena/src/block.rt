//! A block of raw memory of a fixed size, seen as the list of its bytes.
ghost use Rattle.std.specs.Prelude.{◌≡◌, ◌+◌, ◌≤◌, ◌<◌, ◌^◌, ◌++◌, length, take, drop, IfOk};
ghost use Rattle.core.specs.Mem.Slots.{SamePlaces, IsFull};

use crate::places::{Lease, released, reserved, seen};
use core::slots::Slots;
use std::alloc::{AllocError, Allocator};
use std::marker::Model;

/// One allocation, made full of zeros and freed at the end.
pub(crate) struct Block<A: Allocator> {
    at: *mut u8,
    size: usize,
    places: Slots<u8>,
    lease: Lease<u8, A>,
    alloc: A,
}

impl<A: Allocator> Model for Block<A> {
    ghost use Rattle.std.specs.Prelude.{◌≡◌, List, ℕ};
    ghost use Rattle.core.specs.Mem.Slots.{slots_items, slots_len, slots_ptr, IsFull};

    ghost Value = { List ℕ };

    ghost view = { λ b. slots_items b.places };

    ghost invariant = { λ b. (b.at ≡ slots_ptr b.places) × (b.size ≡ slots_len b.places) × IsFull b.places
        × (b.lease.at ≡ b.at) × (b.lease.len ≡ b.size) × (b.lease.alloc ≡ b.alloc) };
}

// So that each place may be read.
fn fill_with_zeros(places: &mut Slots<u8>)
    ensures places { SamePlaces places.old places.new }
    ensures full { IsFull places.new }
{
    for i in 0..places.len() {
        places.put(i, 0);
    }
}

impl<A: Allocator> Block<A> {
    /// A block of that many bytes.
    pub(crate) fn new(alloc: A, size: usize) -> Result<Block<A>, AllocError>
        requires { size < 2 ^ 63 }
        ensures { IfOk result (λ b. length b ≡ size) }
    {
        let (at, mut places, lease) = reserved(&alloc, size)?;
        fill_with_zeros(&mut places);
        Ok(Block {
            at,
            size,
            places,
            lease,
            alloc,
        })
    }

    pub(crate) fn len(&self) -> usize
        ensures { result ≡ length self.now }
    {
        self.size
    }

    /// The bytes, without a copy.
    pub(crate) fn as_slice(&self) -> &[u8]
        ensures { result.now ≡ self.now }
    {
        if self.size == 0 {
            return &[];
        }
        seen(&self.places, self.at, self.size)
    }

    /// Copies the bytes to the places from `at` on.
    pub(crate) fn write(&mut self, at: usize, bytes: &[u8])
        requires { at + length bytes.now ≤ length self.old }
        ensures bytes { self.new ≡ take at self.old ++ bytes.now ++ drop (at + length bytes.now) self.old }
        ensures len { length self.new ≡ length self.old }
    {
        self.places.copy_in(at, bytes);
    }
}

// Its memory goes back to the allocator.
impl<A: Allocator> Drop for Block<A> {
    fn drop(self) {
        let Block {
            at: _,
            size: _,
            places,
            lease,
            alloc,
        } = self;
        released(&alloc, places, lease);
    }
}

#[cfg(test)]
mod tests;
