// SPDX-License-Identifier: MIT
// What this crate sees of the handles of C: a box that may be there. The fields lie as those of a
// handle do, so that a handle can be seen as one.
ghost use Rattle.std.specs.Prelude.{◌≡◌, Option, None, Some, IsSome, is_some};
ghost use Rattle.std.specs.Borrow.{sem};
ghost use Rattle.std.specs.Option.{option_map};
ghost use Rattle.std_heap.specs.contracts.GlobalAllocator.TheImpl.{ghosts};
ghost use Rattle.rrc_c.specs.Handles.{sealed_owns};

use std::alloc::Global;
use std::marker::Model;
use std::{mem, ptr};

/// A box with a value in it, or none.
#[repr(C)]
#[derive(Drop)]
pub(crate) struct Content<T> {
    at: *mut T,
    alloc: Global,
    pub ghost held: { Option T },
}

impl<T> Model for Content<T> {
    ghost also_owns = { λ c. sealed_owns (ghosts.dealloc_token c.alloc) T.row c.at c.held };
}

impl<T> Content<T> {
    ghost use Rattle.rrc_c.specs.Boxed.{LendsContent};

    /// No box.
    fn empty(alloc: Global) -> Content<T>
        ensures { result.held ≡ None }
    {
        Content {
            at: ptr::null_mut(),
            alloc,
        }
    }

    /// A box.
    fn of(b: Box<T>) -> Content<T>
    where
        T: Drop,
        ensures { result.held ≡ Some b.value }
    {
        let (at, alloc) = Box::into_raw_with_allocator(b);
        Content { at, alloc }
    }

    /// The box.
    fn into_box(self) -> Box<T>
        requires { IsSome self.held }
        ensures { self.held ≡ Some result.value }
    {
        let Content { at, alloc } = self;
        unsafe { Box::from_raw(alloc, at) }
    }

    /// What is in the box, to be changed where it lies.
    fn get_mut(&mut self) -> &mut T
        requires { IsSome self.old.held }
        ensures* writes_back { sem 𝓛 (LendsContent T.row self.entry result) }
        ensures value { self.old.held ≡ Some result.now }
    {
        unsafe { &mut *self.at }
    }
}

/// A box with a value in it, or none, and which of the two it is.
#[repr(C)]
#[derive(Drop)]
pub(crate) struct Boxed<T> {
    content: Content<T>,
    is_live: bool,
    ghost live: { is_live ≡ is_some content.held },
}

impl<T> Boxed<T> {
    ghost use Rattle.rrc_c.specs.Boxed.{LendsBoxed};

    /// What is in the box, if there is one, to be changed where it lies.
    pub(crate) fn get_mut(&mut self) -> Option<&mut T>
        ensures* writes_back { sem 𝓛 (LendsBoxed T.row self.entry result) }
        ensures value { option_map (λ it. it.now) result ≡ self.old.content.held }
    {
        if !self.is_live {
            return None;
        }
        Some(self.content.get_mut())
    }

    /// Takes the box out, if there is one.
    pub(crate) fn take(&mut self, alloc: Global) -> Option<Box<T>>
        ensures taken { option_map (λ it. it.value) result ≡ self.old.content.held }
        ensures left { self.new.content.held ≡ None }
    {
        if !self.is_live {
            return None;
        }
        let content = mem::replace(&mut self.content, Content::empty(alloc));
        self.is_live = false;
        Some(content.into_box())
    }

    /// Puts a box in, in the place of none.
    pub(crate) fn put(&mut self, b: Box<T>)
    where
        T: Drop,
        ensures { self.new.content.held ≡ Some b.value }
    {
        self.content = Content::of(b);
        self.is_live = true;
    }
}
