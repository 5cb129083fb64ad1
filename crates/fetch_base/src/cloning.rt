//! Copies of values.

ghost use Rattle.std.specs.Prelude.{◌≡◌, IfOk};

use crate::error::NoMemory;
use crate::id::{Kind, ObjectId};
use crate::list::List;
use crate::text::Text;
use std::alloc::Global;

/// What can be copied where there is memory for it.
pub trait TryClone: Sized + Drop {
    /// An equal value, or `NoMemory` where memory runs out.
    fn try_clone(&self) -> Result<Self, NoMemory>
        ensures { IfOk result (λ copy. copy ≡ self.now) };
}

impl TryClone for bool {
    fn try_clone(&self) -> Result<bool, NoMemory> {
        Ok(*self)
    }
}

impl TryClone for u8 {
    fn try_clone(&self) -> Result<u8, NoMemory> {
        Ok(*self)
    }
}

impl TryClone for u64 {
    fn try_clone(&self) -> Result<u64, NoMemory> {
        Ok(*self)
    }
}

impl TryClone for usize {
    fn try_clone(&self) -> Result<usize, NoMemory> {
        Ok(*self)
    }
}

impl TryClone for Kind {
    fn try_clone(&self) -> Result<Kind, NoMemory> {
        Ok(*self)
    }
}

impl TryClone for ObjectId {
    fn try_clone(&self) -> Result<ObjectId, NoMemory> {
        Ok(*self)
    }
}

impl TryClone for Text {
    fn try_clone(&self) -> Result<Text, NoMemory> {
        self.try_clone()
    }
}

impl<T: TryClone> TryClone for Option<T> {
    fn try_clone(&self) -> Result<Option<T>, NoMemory> {
        match self {
            Some(value) => Ok(Some(value.try_clone()?)),
            None => Ok(None),
        }
    }
}

impl<A: TryClone, B: TryClone> TryClone for (A, B) {
    fn try_clone(&self) -> Result<(A, B), NoMemory> {
        Ok((self.0.try_clone()?, self.1.try_clone()?))
    }
}

/// The values are copied one by one, and the copy has the list's allocator.
impl<T: TryClone> TryClone for List<T> {
    fn try_clone(&self) -> Result<List<T>, NoMemory> {
        copy_slice(self.allocator(), self.as_slice())
    }
}

/// A list of copies of these items, made one by one.
pub fn copy_slice<T: TryClone>(alloc: Global, items: &[T]) -> Result<List<T>, NoMemory>
    ensures { IfOk result (λ copy. copy ≡ items.now) }
{
    let mut copies = Vec::with_capacity(alloc, items.len())?;
    for item in items {
        copies.push(item.try_clone()?)?;
    }
    Ok(List::from(copies))
}
