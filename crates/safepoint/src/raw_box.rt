// A box as its pointer, or no box.
ghost use Rattle.std.specs.Prelude.{◌≡◌, Option, Some, None, is_some, true};
ghost use Rattle.safepoint.specs.Boxed.{maybe_owns};

use std::alloc::Allocator;
use std::marker::Model;
use std::ptr::null_mut;

pub(crate) struct RawBox<T, A: Allocator> {
    pub(crate) at: *mut T,
    pub(crate) alloc: A,
    pub(crate) ghost value: { Option T },
}

impl<T, A: Allocator> Model for RawBox<T, A> {
    ghost also_owns = { λ l. maybe_owns (A.dealloc_token l.alloc) T.row l.at l.value };
}

impl<T: Drop, A: Allocator> RawBox<T, A> {
    pub(crate) fn none(alloc: A) -> RawBox<T, A>
        ensures { result.value ≡ None }
    {
        RawBox {
            at: null_mut(),
            alloc,
        }
    }

    pub(crate) fn of(value: Box<T, A>) -> RawBox<T, A>
        ensures { result.value ≡ Some value.value }
    {
        let (at, alloc) = Box::into_raw_with_allocator(value);
        RawBox { at, alloc }
    }

    pub(crate) fn into_box(self) -> Box<T, A>
        requires { is_some self.value ≡ true }
        ensures { Some result.value ≡ self.value }
    {
        let RawBox { at, alloc } = self;
        unsafe { Box::from_raw(alloc, at) }
    }
}
