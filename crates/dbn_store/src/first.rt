//! The base of a new store.

ghost use Rattle.std.specs.Prelude.{◌≡◌, ℕ, IfOk};
ghost use Rattle.dbn_net.specs.Good.{Good};
ghost use Rattle.dbn_net.specs.Texts.{canonical};
ghost use Rattle.dbn_keeper.specs.Files.{new_store};
ghost use Rattle.dbn_keeper.specs.Files.Folder.{Holds};
ghost use Rattle.dbn_store.specs.States.{situation};
ghost use Rattle.dbn_store.specs.Folders.{opened};
ghost use Rattle.dbn_store.specs.Folders.Opened.{Stands};

use dbn_io::Bytes;
use dbn_keeper::Base;
use dbn_net::{Net, Snapshot};
use dbn_writer::{good_states_can_be_written, net_text};
use std::alloc::{AllocError, Global};

/// The base of a new store for a net and a good snapshot of it: the canonical text, with the two numbers of the snapshot. An
/// error is want of memory.
pub fn first_base(alloc: Global, net: &Net, at: &Snapshot) -> Result<Base, AllocError>
    requires { Good net.now at.now }
    ensures base { IfOk result (λ base. base ≡ record { fired = at.now.fired; next = at.now.next; text = canonical net.now at.now.instance at.now.marking }) }
    ensures stands { IfOk result (λ base. (generation : ℕ) → opened (Holds (new_store generation base)) ≡ Stands (situation net.now at.now)) }
{
    good_states_can_be_written();
    let text = net_text(alloc, net, at)?;
    Ok(Base {
        fired: at.fired,
        next: at.next,
        text: Bytes::from_vec(text.into_vec()),
    })
}
