//! Lists in which no name stands twice.

ghost use Rattle.std.specs.Prelude.{◌≡◌, ◌++◌, ℕ, List, map, IfOk, OnOk};
ghost use Rattle.dbn_net.specs.Judging.{once};

use dbn_value::{ColType, CopyIn, Name, Var};
use sqlite_items::Items;
use std::alloc::{AllocError, Global};
use std::collections::BTreeSet;

/// What has a name.
pub(crate) trait Named {
    ghost name_of: { Self → List ℕ };

    /// The name.
    fn name(&self) -> &Name
        ensures { result.now ≡ name_of self.now };
}

impl Named for Name {
    ghost name_of = { λ n. n };

    fn name(&self) -> &Name {
        self
    }
}

impl Named for Var {
    ghost name_of = { λ x. x.name };

    fn name(&self) -> &Name {
        &self.name
    }
}

impl Named for (Name, ColType) {
    ghost name_of = { λ f. f.0 };

    fn name(&self) -> &Name {
        &self.0
    }
}

impl Named for (Var, ColType) {
    ghost name_of = { λ x. x.0.name };

    fn name(&self) -> &Name {
        &self.0.name
    }
}

/// Whether no name stands twice. An error is want of memory.
pub(crate) fn once<T: Named>(alloc: Global, items: &[T]) -> Result<bool, AllocError>
    ensures { IfOk result (λ ok. ok ≡ once (map T.name_of items.now)) }
{
    let mut seen = BTreeSet::new(alloc);
    for item in items {
        if !seen.insert(item.name())? {
            return Ok(false);
        }
    }
    Ok(true)
}

/// Appends the names. An error is want of memory.
pub(crate) fn add_names<T: Named>(
    alloc: Global,
    out: &mut Items<Name>,
    items: &[T],
) -> Result<(), AllocError>
    ensures { OnOk result (out.new ≡ out.old ++ map T.name_of items.now) }
{
    for item in items {
        out.push(item.name().copy_in(alloc)?)?;
    }
    Ok(())
}
