//! Values on the heap.

ghost use Rattle.std.specs.Prelude.{◌≡◌, [], IfOk};

use crate::record::Record;
use std::alloc::{AllocError, Global};
use std::marker::Model;

/// A value on the heap, so that what has it is small to move. Contracts see the value.
#[derive(Drop)]
pub struct OnHeap<T> {
    pub value: Box<T>,
}

impl<T> Model for OnHeap<T> {
    ghost Value = { T };

    ghost view = { λ h. h.value.value };
}

impl<T: Drop> OnHeap<T> {
    /// Moves the value to the heap.
    ///
    /// # Errors
    ///
    /// `AllocError` where there is no memory for it.
    pub fn new(alloc: Global, value: T) -> Result<OnHeap<T>, AllocError>
        ensures { IfOk result (λ there. there ≡ value) }
    {
        let value = Box::new(alloc, value)?;
        Ok(OnHeap { value })
    }

    /// Returns the value.
    pub fn get(&self) -> &T
        ensures { result.now ≡ self.now }
    {
        &self.value
    }

    /// Puts another value in its place. Takes no memory.
    pub fn set(&mut self, value: T)
        ensures { self.new ≡ value }
    {
        *self.value = value;
    }

    /// Moves the value out of the heap.
    pub fn into_inner(self) -> T
        ensures { result ≡ self }
    {
        let OnHeap { value } = self;
        Box::into_inner(value)
    }
}

/// Makes a record without values, on the heap.
///
/// # Errors
///
/// `AllocError` where there is no memory for it.
// On its way to the heap a record stands on the stack. Inlined, it would take that room for as long as its caller runs.
#[inline(never)]
pub fn empty_record(alloc: Global) -> Result<OnHeap<Record>, AllocError>
    ensures { IfOk result (λ values. values ≡ []) }
{
    OnHeap::new(alloc, Record::new())
}
