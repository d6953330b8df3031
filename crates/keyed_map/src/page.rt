//! One page of a list.
ghost use Rattle.std.specs.Prelude.{◌≡◌, IfOk};

use std::alloc::{AllocError, Global};
use std::marker::Model;
use std::sync::Arc;

/// Some items of a list, which copies of the page share. They are never changed.
#[derive(Drop)]
pub struct SharedPage<T> {
    items: Arc<Vec<T>, Global>,
}

impl<T> Model for SharedPage<T> {
    ghost use Rattle.std.specs.Prelude.{List};
    ghost use Rattle.std.specs.Arc.{arc_value};

    ghost Value = { List T };

    ghost view = { λ a. (arc_value a.items).items };
}

impl<T: Drop> SharedPage<T> {
    pub fn new(alloc: Global, items: Vec<T>) -> Result<Self, AllocError>
        ensures { IfOk result (λ page. page ≡ items.items) }
    {
        match Arc::new(alloc, items) {
            Ok(items) => Ok(SharedPage { items }),
            Err(_) => Err(AllocError),
        }
    }

    pub fn as_slice(&self) -> &[T]
        ensures { result.now ≡ self.now }
    {
        let items: &Vec<T> = &self.items;
        items.as_slice()
    }

    /// The same page, which shares its items.
    ///
    /// # Errors
    /// `AllocError` if the page has as many owners as can be counted.
    pub fn share(&self) -> Result<Self, AllocError>
        ensures { IfOk result (λ page. page ≡ self.now) }
    {
        let items = Arc::try_clone(&self.items)?;
        Ok(SharedPage { items })
    }
}
