//! What C keeps between calls.
ghost use Rattle.std.specs.Prelude.{◌≡◌, Option, Some};
ghost use Rattle.c_calls.specs.Kept.{kept_at, owned_at};

use std::alloc::Global;
use std::marker::Model;

/// The status of a call, and a pointer. If `value` is a value, C owns it from then on, and the pointer is its
/// address.
pub struct Kept<T> {
    pub status: i32,
    pub at: *mut T,
    pub ghost value: { Option T },
}

impl<T> Model for Kept<T> {
    ghost also_owns = { λ k. kept_at T.row k.at k.value };
}

impl<T: Drop> Kept<T> {
    /// C owns the value of this box.
    pub fn boxed(status: i32, value: Box<T>) -> Kept<T>
        ensures status { result.status ≡ status }
        ensures value { result.value ≡ Some value.value }
    {
        let at = Box::into_raw(value);
        Kept { status, at }
    }
}

impl<T> Kept<T> {
    /// C gets nothing to own, and the pointer is one that it passed.
    pub fn nothing(status: i32, at: *mut T) -> Kept<T>
        ensures status { result.status ≡ status }
        ensures at { result.at ≡ at }
    {
        Kept { status, at }
    }
}

/// A value that C returns: the handle owns the block at `at`.
pub struct Handle<T> {
    pub at: *mut T,
    pub alloc: Global,
    pub ghost value: { T },
}

impl<T> Model for Handle<T> {
    ghost also_owns = { λ h. owned_at T.row h.at h.value };
}

impl<T: Drop> Handle<T> {
    pub fn into_box(self) -> Box<T>
        ensures { result.value ≡ self.value }
    {
        let Handle { at, alloc } = self;
        unsafe { Box::from_raw(alloc, at) }
    }
}
