//! Values on the heap.

ghost use Rattle.std.specs.Box.{box_value};
ghost use Rattle.std.specs.Prelude.{[], IfOk, List, option_copied, option_map, ◌≡◌};
ghost use Rattle.tl_memory.specs.code.Boxed.{listed};

use std::alloc::{AllocError, Global};
use std::marker::Model;

/// The value on the heap, if there is one. The error means that there is no memory left.
#[inline(always)]
pub fn boxed<T: Drop>(alloc: Global, value: Option<T>) -> Result<Option<Box<T>>, AllocError>
    ensures { IfOk result (λ kept. option_map box_value kept ≡ value) }
{
    match value {
        None => Ok(None),
        Some(value) => Ok(Some(Box::new(alloc, value)?)),
    }
}

/// The value on the heap, if there is one.
#[inline(always)]
pub fn value_of<T>(kept: &Option<Box<T>>) -> Option<&T>
    ensures { option_copied result ≡ option_map box_value kept.now }
{
    match kept {
        None => None,
        Some(kept) => Some(kept),
    }
}

/// A list on the heap. It takes eight bytes where it is empty.
#[derive(Drop)]
pub struct BoxedList<T> {
    items: Option<Box<Vec<T>>>,
}

impl<T> Model for BoxedList<T> {
    ghost Value = { List T };

    ghost view = { λ list. listed list.items };
}

impl<T: Drop> BoxedList<T> {
    /// The empty list.
    pub fn new() -> Self
        ensures { result ≡ [] }
    {
        BoxedList { items: None }
    }

    /// The list of these items. The error means that there is no memory left.
    pub fn of(alloc: Global, items: Vec<T>) -> Result<Self, AllocError>
        ensures { IfOk result (λ list. list ≡ items.items) }
    {
        if items.is_empty() {
            return Ok(BoxedList::new());
        }
        let items = boxed(alloc, Some(items))?;
        Ok(BoxedList { items })
    }

    /// The items.
    pub fn as_slice(&self) -> &[T]
        ensures value { result.now ≡ self.now }
    {
        match &self.items {
            None => &[],
            Some(items) => items.as_slice(),
        }
    }
}
