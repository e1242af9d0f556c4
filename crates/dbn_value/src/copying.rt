ghost use Rattle.std.specs.Prelude.{◌≡◌, ◌++◌, IfOk, OnOk};

use sqlite_items::Items;
use std::alloc::{AllocError, Global};

/// What can be copied, with memory of its own.
pub trait CopyIn: Sized + Drop {
    /// The same value again; an error is want of memory.
    fn copy_in(&self, alloc: Global) -> Result<Self, AllocError>
        ensures { IfOk result (λ copy. copy ≡ self.now) };
}

/// A list of copies, in the same order; an error is want of memory.
pub fn copy_items<T: CopyIn>(alloc: Global, items: &[T]) -> Result<Items<T>, AllocError>
    ensures { IfOk result (λ copies. copies ≡ items.now) }
{
    let copies = copy_all(alloc, items)?;
    Ok(Items::from_vec(copies))
}

/// The copies, in the same order.
pub(crate) fn copy_all<T: CopyIn>(alloc: Global, items: &[T]) -> Result<Vec<T>, AllocError>
    ensures { IfOk result (λ copies. copies.items ≡ items.now) }
{
    let mut copies = Vec::with_capacity(alloc, items.len())?;
    push_copies(alloc, &mut copies, items)?;
    Ok(copies)
}

/// Appends copies, in the same order; an error is want of memory.
pub(crate) fn push_copies<T: CopyIn>(
    alloc: Global,
    out: &mut Vec<T>,
    items: &[T],
) -> Result<(), AllocError>
    ensures { OnOk result (out.new.items ≡ out.old.items ++ items.now) }
{
    for item in items {
        out.push(item.copy_in(alloc)?)?;
    }
    Ok(())
}

impl<T: CopyIn> CopyIn for Items<T> {
    fn copy_in(&self, alloc: Global) -> Result<Items<T>, AllocError> {
        copy_items(alloc, self.as_slice())
    }
}
