//! The lists that are built while statements and ranks are searched for.

use std::alloc::{AllocError, Global};
use std::cell::Cell;

/// Makes lists. If an allocation is refused, a list is shorter and the result is useless; this is
/// reported once, at the end.
#[derive(Drop)]
pub struct Memory {
    pub alloc: Global,
    /// Whether an allocation was refused.
    pub is_refused: Cell<bool>,
}

impl Memory {
    pub fn new(alloc: Global) -> Memory {
        Memory {
            alloc,
            is_refused: Cell::new(false),
        }
    }

    /// Records whether an allocation was refused.
    pub fn note(&self, is_refused: bool) {
        self.is_refused.set(is_refused | self.is_refused.get())
    }

    /// The list; an empty one if its allocation was refused.
    pub fn list<T: Drop>(&self, made: Result<Vec<T>, AllocError>) -> Vec<T> {
        match made {
            Ok(list) => list,
            Err(_) => {
                self.note(true);
                Vec::new(self.alloc)
            }
        }
    }

    /// A list of `size` copies of the element.
    pub fn filled<T: Copy>(&self, element: T, size: usize) -> Vec<T> {
        self.list(vec![in self.alloc; element; size])
    }

    /// A copy of the list.
    pub fn copied<T: Copy>(&self, elements: &[T]) -> Vec<T> {
        self.list(Vec::from_slice(self.alloc, elements))
    }

    /// Adds an element.
    pub fn push<T: Drop>(&self, list: &mut Vec<T>, element: T) {
        self.note(list.push(element).is_err())
    }

    /// Adds these elements.
    pub fn add<T: Copy>(&self, list: &mut Vec<T>, elements: &[T]) {
        self.note(list.extend_from_slice(elements).is_err())
    }

    /// What was made, if no allocation was refused for it or before it.
    ///
    /// # Errors
    /// `AllocError` if one was refused.
    pub fn enough<T: Drop>(&self, made: T) -> Result<T, AllocError> {
        if self.is_refused.get() {
            Err(AllocError)
        } else {
            Ok(made)
        }
    }
}

/// The element at this place of the list; `other` past its end.
pub fn element_or<T: Copy>(list: &[T], place: usize, other: T) -> T {
    list.get(place).copied().unwrap_or(other)
}
