ghost use Rattle.std.specs.Prelude.{◌≡◌, IfOk};

use dbn_value::{CopyIn, Terms};
use std::alloc::{AllocError, Global};

/// A node whose rows are environments: what the terms are worth that stand at its columns.
#[derive(Drop)]
pub(crate) struct Context {
    /// The number of the node.
    pub(crate) node: usize,
    /// A term for each column.
    pub(crate) labels: Terms,
}

pub(crate) fn copy_context(alloc: Global, at: &Context) -> Result<Context, AllocError>
    ensures { IfOk result (λ copy. copy ≡ at.now) }
{
    Ok(Context {
        node: at.node,
        labels: at.labels.copy_in(alloc)?,
    })
}
