//! Opening a store.

ghost use Rattle.std.specs.Prelude.{◌≡◌, Some, None, Ok, true, IfOk, OnOk, IsErrOf, IsTrue};
ghost use Rattle.dbn_net.specs.Good.{Good};
ghost use Rattle.dbn_net.specs.Texts.{reads};
ghost use Rattle.dbn_keeper.specs.Files.{Store};
ghost use Rattle.dbn_keeper.specs.Files.Folder.{Holds};
ghost use Rattle.dbn_keeper.specs.Keeping.{Keeps, SameHeader, SameFiles};
ghost use Rattle.dbn_store.specs.States.{situation};
ghost use Rattle.dbn_store.specs.Folders.{start_of, opened};
ghost use Rattle.dbn_store.specs.Opening.{Says, HasCauseOfStore};
ghost use Rattle.dbn_store.specs.declared.fault.StoreFault.{StoreFault};

use crate::fault::StoreFault;
use crate::replay::replay_all;
use dbn_core::Core;
use dbn_keeper::Keeper;
use dbn_net::{Net, Snapshot};
use std::alloc::Global;

/// A core that stands for the store of a keeper, whose text was read as this net and start snapshot, and of which no body was
/// handed out or appended.
///
/// At `Ok` the core stands for what the folder stands for, and the keeper is at its end. `NotAStore` comes exactly where the next
/// id of the base is below that of the text; `Damaged` exactly where one of the bodies is damaged, with the place of its gate,
/// and the keeper stays live then. `Failed` comes only where a count of faults rose. What is held and all images stay, with
/// every answer.
pub fn open_read<C: Core + Drop, K: Keeper>(
    alloc: Global,
    keeper: &mut K,
    net: Net,
    at: Snapshot,
) -> Result<C, StoreFault>
    requires live { IsTrue (K.state keeper.old).live }
    requires none { (K.state keeper.old).records ≡ 0 }
    requires text { reads (K.state keeper.old).base.text ≡ Ok (record { decls = net; facts = at.instance; tokens = at.marking; next = at.next }) }
    requires good { Good net at }
    ensures says { (store : Store) → (K.state keeper.old).held ≡ Some (Holds store) → Says (λ core. situation (C.rules core) (C.state core)) result (opened (Holds store)) }
    ensures core { IfOk result (λ core. (C.live core ≡ true) × (C.rules core ≡ net)) }
    ensures end { OnOk result (((K.state keeper.new).at_end ≡ true) × ((K.state keeper.new).live ≡ true)) }
    ensures store { IsErrOf result StoreFault.NotAStore → start_of (K.state keeper.old).base ≡ None }
    ensures files { SameFiles (K.state keeper.old) (K.state keeper.new) }
    ensures header { SameHeader (K.state keeper.old) (K.state keeper.new) }
    ensures keeps { Keeps (K.state keeper.old) (K.state keeper.new) }
    ensures cause { HasCauseOfStore (K.state keeper.old).faults (K.state keeper.new).faults result }
{
    let base = keeper.base();
    let (next, fired) = (base.next, base.fired);
    if next < at.next {
        return Err(StoreFault::NotAStore);
    }
    let start = Snapshot {
        instance: at.instance,
        marking: at.marking,
        next,
        fired,
    };
    let mut core = C::start(alloc, net, start)?;
    match replay_all(alloc, &mut core, keeper) {
        Ok(()) => Ok(core),
        Err(why) => Err(why),
    }
}
