ghost use Rattle.std.specs.Prelude.{◌≡◌, IfOk};

use crate::text::Text;
use std::alloc::{AllocError, Global};
use std::collections::VecDeque;

/// What a second value can be made of, equal to the first, where there is memory.
pub trait CopyIn: Drop {
    fn copy_in(&self, alloc: Global) -> Result<Self, AllocError>
        ensures { IfOk result (λ copy. copy ≡ self.now) };
}

impl CopyIn for Text {
    fn copy_in(&self, alloc: Global) -> Result<Self, AllocError> {
        Ok(Text::from_vec(Vec::from_slice(alloc, self.as_slice())?))
    }
}

impl<T: CopyIn> CopyIn for Option<T> {
    fn copy_in(&self, alloc: Global) -> Result<Self, AllocError> {
        match self {
            Some(value) => Ok(Some(value.copy_in(alloc)?)),
            None => Ok(None),
        }
    }
}

/// Copies of all items, in order.
pub fn copy_items<T: CopyIn>(alloc: Global, items: &[T]) -> Result<Vec<T>, AllocError>
    ensures { IfOk result (λ copies. copies.items ≡ items.now) }
{
    let mut copies = Vec::with_capacity(alloc, items.len())?;
    for item in items {
        copies.push(item.copy_in(alloc)?)?;
    }
    Ok(copies)
}

/// Copies of all items of a queue, in order.
pub fn copy_queue<T: CopyIn>(alloc: Global, items: &VecDeque<T>) -> Result<VecDeque<T>, AllocError>
    ensures { IfOk result (λ copies. copies.items ≡ items.now.items) }
{
    let mut copies = VecDeque::with_capacity(alloc, items.len())?;
    for index in 0..items.len() {
        copies.push_back(items[index].copy_in(alloc)?)?;
    }
    Ok(copies)
}
