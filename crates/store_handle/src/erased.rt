//! A box as a pointer to bytes, so that a caller in C can hold it.
ghost use Rattle.std.specs.Prelude.{◌≡◌};
ghost use Rattle.std.specs.Box.Ownership.{box_owns};

use std::alloc::Allocator;
use std::marker::{Model, PhantomData};

/// What a caller sees of the value.
#[repr(C)]
pub struct Opaque<T> {
    of: PhantomData<T>,
}

/// A box whose value's type a caller need not know.
#[repr(C)]
pub struct Erased<T, A: Allocator> {
    pub ptr: *mut Opaque<T>,
    pub alloc: A,
    pub ghost value: { T },
}

impl<T, A: Allocator> Model for Erased<T, A> {
    ghost also_owns = { λ e. box_owns (A.dealloc_token e.alloc) T.row e.ptr e.value };
}

impl<T, A: Allocator> Erased<T, A> {
    /// Takes the box apart.
    pub fn of(b: Box<T, A>) -> Erased<T, A>
    where
        T: Drop,
        ensures { result.value ≡ b.value }
    {
        let (ptr, alloc) = Box::into_raw_with_allocator(b);
        Erased {
            ptr: ptr as *mut Opaque<T>,
            alloc,
        }
    }

    /// Makes the box again.
    pub fn into_box(self) -> Box<T, A>
        ensures { result.value ≡ self.value }
    {
        let Erased { ptr, alloc } = self;
        unsafe { Box::from_raw(alloc, ptr as *mut T) }
    }
}
