// What C holds of a model.
ghost use Rattle.std.specs.Prelude.{◌≡◌, Option, Some, None, is_some, true, false};
ghost use Rattle.model.specs.Stepped.{Stepped};
ghost use Rattle.model.specs.Held.{held_owns, held_coded};

use crate::line_model::LineModel;
use crate::raw_box::RawBox;
use std::alloc::Global;
use std::marker::Model;
use std::mem::replace;
use std::ptr::null_mut;

/// A boxed model as its pointer; the pointer is null if there is no model.
#[repr(C)]
#[derive(Drop)]
pub struct Handle {
    at: *mut u8,
    alloc: Global,
    pub ghost value: { Option Stepped } by { held_coded },
}

impl Model for Handle {
    ghost also_owns = { λ h. held_owns h.alloc h.at h.value };
}

impl Handle {
    fn none(alloc: Global) -> Handle
        ensures { result.value ≡ None }
    {
        Handle {
            at: null_mut(),
            alloc,
        }
    }

    fn of_parts(parts: RawBox<LineModel, Global>) -> Handle
        ensures { result.value ≡ Some parts.value }
    {
        let RawBox { at, alloc } = parts;
        Handle {
            at: at as *mut u8,
            alloc,
        }
    }

    fn into_parts(self) -> RawBox<LineModel, Global>
        requires { is_some self.value ≡ true }
        ensures { Some result.value ≡ self.value }
    {
        let Handle { at, alloc } = self;
        RawBox {
            at: at as *mut LineModel,
            alloc,
        }
    }
}

/// The place of a model in C's memory: `struct model` of the header. A place of all zeros has no model.
#[repr(C)]
#[derive(Drop)]
pub struct CHandle {
    made: bool,
    pub handle: Handle,
    pub ghost tied: { made ≡ is_some handle.value },
}

impl CHandle {
    /// A place without a model.
    pub(crate) fn none(alloc: Global) -> CHandle
        ensures { result.handle.value ≡ None }
    {
        CHandle {
            made: false,
            handle: Handle::none(alloc),
        }
    }

    pub(crate) fn is_made(&self) -> bool
        ensures { result ≡ is_some self.now.handle.value }
    {
        self.made
    }

    /// Takes the model out of its place.
    pub(crate) fn take(&mut self, alloc: Global) -> Box<LineModel>
        requires { is_some self.old.handle.value ≡ true }
        ensures model { Some result.value ≡ self.old.handle.value }
        ensures none { self.new.handle.value ≡ None }
    {
        replace(self, CHandle::none(alloc))
            .handle
            .into_parts()
            .into_box()
    }

    /// Puts a model there.
    pub(crate) fn put(&mut self, model: Box<LineModel>)
        ensures { self.new.handle.value ≡ Some model.value }
    {
        *self = CHandle {
            made: true,
            handle: Handle::of_parts(RawBox::of(model)),
        };
    }
}
