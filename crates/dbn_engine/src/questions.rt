//! Questions about the state of a run.

ghost use Rattle.std.specs.Prelude.{◌≡◌, ◌<◌, length, IfOk, IsTrue};
ghost use Rattle.dbn_command.specs.declared.reply.Reply.TheVariants as reply;
ghost use Rattle.dbn_instance.specs.Facts.{rows_of};
ghost use Rattle.dbn_net.specs.Tables.{relations, places, transitions};
ghost use Rattle.dbn_net.specs.Enabled.{shown, bindings_at};

use dbn_command::Reply;
use dbn_core::Core;
use std::alloc::{AllocError, Global};

/// The rows that enable the transition.
pub(crate) fn bindings<C: Core>(alloc: Global, core: &C, t: usize) -> Result<Reply, AllocError>
    requires live { IsTrue (C.live core.now) }
    requires within { t < length (transitions (C.rules core.now)) }
    ensures { IfOk result (λ said. said ≡ reply.Bindings t (bindings_at (C.rules core.now) (C.state core.now).instance (C.state core.now).marking t)) }
{
    let rows = core.bindings(alloc, t)?;
    Ok(Reply::Bindings { t, rows })
}

/// What the place shows.
pub(crate) fn marking<C: Core>(alloc: Global, core: &C, place: usize) -> Result<Reply, AllocError>
    requires live { IsTrue (C.live core.now) }
    requires within { place < length (places (C.rules core.now)) }
    ensures { IfOk result (λ said. said ≡ reply.Marking (shown (C.rules core.now) (C.state core.now).instance (C.state core.now).marking place)) }
{
    let rows = core.tokens(alloc, place)?;
    Ok(Reply::Marking(rows))
}

/// The rows of the relation.
pub(crate) fn facts<C: Core>(alloc: Global, core: &C, rel: usize) -> Result<Reply, AllocError>
    requires live { IsTrue (C.live core.now) }
    requires within { rel < length (relations (C.rules core.now)) }
    ensures { IfOk result (λ said. said ≡ reply.Facts (rows_of (C.state core.now).instance rel)) }
{
    let rows = core.facts(alloc, rel)?;
    Ok(Reply::Facts(rows))
}
