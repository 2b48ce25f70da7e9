//! Places in a block of raw memory: the three steps that follow a raw pointer.
ghost use Rattle.std.specs.Prelude.{◌≡◌, ℕ, ◌<◌, IfOk};
ghost use denote.RawPtr.{Ptr};
ghost use Rattle.core.specs.Allocator.{FitsBlock};
ghost use Rattle.core.specs.Mem.Slots.{slots_items, slots_len, slots_ptr, IsFull};
ghost use Rattle.core.specs.Mem.Slots.Ownership.{leased};

use core::slots::Slots;
use std::alloc::{AllocError, Allocator};
use std::marker::{Model, PhantomData};
use std::mem::{align_of, size_of};
use std::slice;

/// The right to give the block of `len` places at `at` back to `alloc`. It takes no space.
pub(crate) struct Lease<T, A: Allocator> {
    by: PhantomData<(T, A)>,
    ghost at: { Ptr },
    ghost len: { ℕ },
    ghost alloc: { A },
}

impl<T, A: Allocator> Model for Lease<T, A> {
    ghost also_owns = { λ l. leased (A.dealloc_token l.alloc) T.row l.at l.len };
}

/// A new block of empty places: where it begins, the places, and the right to give it back.
// An empty place still counts as the value that it held last, so there has to be one.
pub(crate) fn reserved<T, A: Allocator>(
    alloc: &A,
    len: usize,
) -> Result<(*mut T, Slots<T>, Lease<T, A>), AllocError>
    requires { FitsBlock T.row len × T }
    ensures { IfOk result (λ r. (slots_ptr r.1 ≡ r.0) × (slots_len r.1 ≡ len)
        × (r.2.at ≡ r.0) × (r.2.len ≡ len) × (r.2.alloc ≡ alloc.now)) }
{
    match alloc.allocate(len * size_of::<T>(), align_of::<T>()) {
        Ok(block) => {
            let at = block as *mut T;
            let places = unsafe { Slots::from_raw_parts(at, len) };
            Ok((at, places, Lease { by: PhantomData }))
        }
        Err(refused) => Err(refused),
    }
}

/// Gives the block back.
pub(crate) fn released<T, A: Allocator>(alloc: &A, places: Slots<T>, lease: Lease<T, A>)
    requires { (lease.at ≡ slots_ptr places) × (lease.len ≡ slots_len places) × (lease.alloc ≡ alloc.now) }
{
    let Lease { by: _ } = lease;
    let (at, len) = unsafe { places.into_raw_parts() };
    unsafe { alloc.deallocate(at as *mut u8, len * size_of::<T>(), align_of::<T>()) }
}

/// The places as a slice.
pub(crate) fn seen<T>(places: &Slots<T>, at: *mut T, len: usize) -> &[T]
    requires { (at ≡ slots_ptr places.now) × (len ≡ slots_len places.now) × (0 < len) × IsFull places.now }
    ensures { result.now ≡ slots_items places.now }
{
    unsafe { slice::from_raw_parts(at, len) }
}
