//! Opening a store, its text first.

ghost use Rattle.std.specs.Prelude.{◌≡◌, Some, true, IfOk, OnOk, IsErrOf, IsTrue};
ghost use Rattle.dbn_keeper.specs.Files.{Store};
ghost use Rattle.dbn_keeper.specs.Files.Folder.{Holds};
ghost use Rattle.dbn_keeper.specs.Keeping.{Keeps, SameHeader, SameFiles};
ghost use Rattle.dbn_store.specs.States.{situation};
ghost use Rattle.dbn_store.specs.Folders.{opened};
ghost use Rattle.dbn_store.specs.Opening.{Says, HasCauseOfStore};

use crate::fault::StoreFault;
use crate::open::open_read;
use dbn_core::Core;
use dbn_keeper::Keeper;
use dbn_reader::{NetFault, read_net};
use std::alloc::Global;

/// A core that stands for the store of a keeper of which no body was handed out or appended.
///
/// At `Ok` the core stands for what the folder stands for, and the keeper is at its end. `NotAStore` comes exactly where the text
/// of the base is no accepted net, or the next id of the base is below that of the text; `Damaged` exactly where one of the
/// bodies is damaged, with the place of its gate. `Failed` comes only where a count of faults rose. What is held and all images
/// stay, with every answer.
pub fn open_store<C: Core + Drop, K: Keeper>(alloc: Global, keeper: &mut K) -> Result<C, StoreFault>
    requires live { IsTrue (K.state keeper.old).live }
    requires none { (K.state keeper.old).records ≡ 0 }
    ensures says { (store : Store) → (K.state keeper.old).held ≡ Some (Holds store) → Says (λ core. situation (C.rules core) (C.state core)) result (opened (Holds store)) }
    ensures core { IfOk result (λ core. C.live core ≡ true) }
    ensures end { OnOk result (((K.state keeper.new).at_end ≡ true) × ((K.state keeper.new).live ≡ true)) }
    ensures files { SameFiles (K.state keeper.old) (K.state keeper.new) }
    ensures header { SameHeader (K.state keeper.old) (K.state keeper.new) }
    ensures keeps { Keeps (K.state keeper.old) (K.state keeper.new) }
    ensures cause { HasCauseOfStore (K.state keeper.old).faults (K.state keeper.new).faults result }
{
    match read_net(alloc, keeper.base().text.as_slice()) {
        Ok((net, at)) => open_read(alloc, keeper, net, at),
        Err(NetFault::Bad { .. }) => Err(StoreFault::NotAStore),
        Err(NetFault::Memory) => Err(StoreFault::Memory),
    }
}
