//! Raw memory for the values of a block, of a row or of a node.
ghost use Rattle.std.specs.Prelude.{◌≡◌, ℕ, ◌<◌, ◌≤◌, [], ◌∷◌, true, List, Option, Some, None, IfOk, get_or, length, slice_set};
ghost use Rattle.raw_lists.specs.Places.{laid, values, IsFilled, IsRun};
ghost use Rattle.raw_lists.specs.Region.{Fits, region_owns, region_lent};

use std::alloc::{AllocError, Allocator};
use std::marker::{Model, PhantomData, Send};
use std::mem::{align_of, size_of};
use std::slice::from_raw_parts;

/// The number of places of a block's region.
pub(crate) const PLACES: usize = 32;

/// The most places that a region may be made with.
const MOST_PLACES: usize = 0x1_0000_0000;

/// Memory for 32 values, or for another number that it is made for. Each place is empty or holds a value.
///
/// Its memory is released by [`Region::release`] alone, once no place holds a value.
pub(crate) struct Region<T, A: Allocator> {
    pub(crate) first: *mut T,
    pub(crate) by: PhantomData<A>,
    ghost heap: { A },
    ghost places: { List (Option T) },
}

impl<T, A: Allocator> Model for Region<T, A> {
    ghost also_owns = { λ r. region_owns T.row (A.dealloc_token r.heap) r.first r.places };

    ghost also_shares = { λ r _ κ. region_lent T.row r.first r.places κ };
}

unsafe impl<T: Send, A: Allocator + Send> Send for Region<T, A> {}

fn has_layout<T>() -> bool
    ensures { result ≡ true → Fits T.row 32 }
{
    size_of::<T>() < 0x0400_0000_0000_0000
}

/// Returns whether the most values that a region may have places for have a layout.
fn is_small<T>() -> bool
    ensures { result ≡ true → Fits T.row 0x1_0000_0000 }
{
    size_of::<T>() < 0x8000_0000
}

impl<T, A: Allocator> Region<T, A> {
    /// Makes a region of 32 empty places. An error means that memory was refused, or that 32 values have no layout.
    pub(crate) fn new(alloc: &A) -> Result<Region<T, A>, AllocError>
        ensures { IfOk result (λ r. (r.places ≡ laid 0 [] 32) × (r.heap ≡ alloc.now)) }
    {
        if !has_layout::<T>() {
            return Err(AllocError);
        }
        Region::allocate(alloc, PLACES)
    }

    /// Makes a region of one empty place. An error means that memory was refused, or that 32 values have no layout.
    pub(crate) fn single(alloc: &A) -> Result<Region<T, A>, AllocError>
        ensures { IfOk result (λ r. (r.places ≡ None ∷ []) × (r.heap ≡ alloc.now)) }
    {
        if !has_layout::<T>() {
            return Err(AllocError);
        }
        Region::allocate(alloc, 1)
    }

    /// Makes a region of `count` empty places. An error means that memory was refused, or that there are too many
    /// places or too large values for a layout.
    pub(crate) fn with_places(alloc: &A, count: usize) -> Result<Region<T, A>, AllocError>
        ensures { IfOk result (λ r. (r.places ≡ laid 0 [] count) × (r.heap ≡ alloc.now)) }
    {
        if count > MOST_PLACES || !is_small::<T>() {
            return Err(AllocError);
        }
        Region::allocate(alloc, count)
    }

    fn allocate(alloc: &A, count: usize) -> Result<Region<T, A>, AllocError>
        requires { Fits T.row count }
        ensures { IfOk result (λ r. (r.places ≡ laid 0 [] count) × (r.heap ≡ alloc.now)) }
    {
        match alloc.allocate(count * size_of::<T>(), align_of::<T>()) {
            Ok(room) => Ok(Region {
                first: room as *mut T,
                by: PhantomData,
            }),
            Err(refused) => Err(refused),
        }
    }

    /// Releases the memory of a region of 32 places.
    pub(crate) fn free(self, alloc: &A)
        requires empty { self.places ≡ laid 0 [] 32 }
        requires heap { self.heap ≡ alloc.now }
    {
        self.release(alloc, PLACES);
    }

    /// Releases the memory of a region of one place.
    pub(crate) fn free_single(self, alloc: &A)
        requires empty { self.places ≡ None ∷ [] }
        requires heap { self.heap ≡ alloc.now }
    {
        self.release(alloc, 1);
    }

    /// Releases the memory of a region of `count` places.
    pub(crate) fn release(self, alloc: &A, count: usize)
        requires { (self.places ≡ laid 0 [] count) × (self.heap ≡ alloc.now) }
    {
        let Region { first, by: _ } = self;
        unsafe {
            alloc.deallocate(first as *mut u8, count * size_of::<T>(), align_of::<T>());
        }
    }

    /// Moves a value into an empty place.
    #[inline]
    pub(crate) fn write(&mut self, index: usize, item: T)
        requires { (index < length self.old.places) × (get_or self.old.places index None ≡ None) }
        ensures { (self.new.places ≡ slice_set self.old.places index (Some item)) × (self.new.heap ≡ self.old.heap) × (self.new.first ≡ self.old.first) }
    {
        unsafe { self.first.add(index).write(item) }
    }

    /// Moves the value out of a place, which is empty then.
    #[inline]
    pub(crate) fn read(&mut self, index: usize) -> T
        requires { IsFilled self.old.places index }
        ensures value { get_or self.old.places index None ≡ Some result }
        ensures places { (self.new.places ≡ slice_set self.old.places index None) × (self.new.heap ≡ self.old.heap) × (self.new.first ≡ self.old.first) }
    {
        unsafe { self.first.add(index).read() }
    }

    /// Returns the value of a place.
    #[inline]
    pub(crate) fn get(&self, index: usize) -> &T
        requires { IsFilled self.now.places index }
        ensures { get_or self.now.places index None ≡ Some result.now }
    {
        unsafe { &*self.first.add(index) }
    }

    /// Returns all values of the region, which are in `count` consecutive places from place `start` on.
    #[inline]
    pub(crate) fn values(&self, start: usize, count: usize) -> &[T]
        requires { IsRun start count self.now.places }
        ensures { result.now ≡ values self.now.places }
    {
        unsafe { from_raw_parts(self.first.add(start), count) }
    }
}
