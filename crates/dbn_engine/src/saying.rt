//! A reply as text, written as one piece.

ghost use Rattle.std.specs.Prelude.{◌≡◌, IfOk, OnOk, IfErr, IsErrOf};
ghost use Rattle.std.specs.Io.KnownBytes.{Appends};
ghost use Rattle.dbn_model.specs.Content.{SameTold};
ghost use Rattle.dbn_engine.specs.Steps.{said};
ghost use Rattle.dbn_engine.specs.Serving.{HasWriteCause};
ghost use Rattle.dbn_engine.specs.Saying.{HasText, Misses};

use crate::fault::ServeFault;
use dbn_command::{Reply, reply_text};
use dbn_io::{Sink, Trouble, write_whole};
use dbn_net::Net;
use dbn_value::Bytes;
use std::alloc::{AllocError, Global};

/// The text of the reply, if there is one. An error is want of memory.
fn text_of(alloc: Global, net: &Net, reply: &Option<Reply>) -> Result<Bytes, AllocError>
    requires { HasText net.now reply.now }
    ensures { IfOk result (λ text. text ≡ said net.now reply.now) }
{
    match reply {
        Some(reply) => reply_text(alloc, reply, net),
        None => Ok(Bytes::from_vec(Vec::new(alloc))),
    }
}

/// Writes the reply, if there is one.
pub(crate) fn say<S: Sink>(
    alloc: Global,
    net: &Net,
    reply: Option<Reply>,
    out: &mut S,
) -> Result<(), ServeFault>
    requires { HasText net.now reply }
    ensures text { OnOk result (Appends (S.taken out.old) (S.taken out.new) (said net.now reply)) }
    ensures part { IfErr result (λ why. Misses why (S.taken out.old) (S.taken out.new) (said net.now reply)) }
    ensures told { SameTold (S.taken out.old) (S.taken out.new) }
    ensures cause { HasWriteCause (S.faults out.old) (S.faults out.new) result }
    ensures disk { IsErrOf result ServeFault.Disk → ⊥ }
{
    let text = text_of(alloc, net, &reply)?;
    match write_whole(out, text.as_slice()) {
        Ok(()) => Ok(()),
        Err(Trouble::Failed) => Err(ServeFault::Write),
        Err(Trouble::Memory) => Err(ServeFault::Memory),
    }
}
