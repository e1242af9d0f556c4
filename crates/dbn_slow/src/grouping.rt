//! Groups of firings.

ghost use Rattle.std.specs.Prelude.{◌≡◌, IfOk};
ghost use Rattle.dbn_net.specs.Good.{Good};
ghost use Rattle.dbn_core.specs.Group.{AreMembers, group};
ghost use Rattle.dbn_slow.specs.Makes.{MakesAll};

use super::firing::fire;
use dbn_core::{FireFault, FiredList, GroupFault};
use dbn_net::{Net, Snapshot};
use dbn_value::{CopyIn, Member};
use sqlite_items::Items;
use std::alloc::{AllocError, Global};

/// Firings of a group, with the snapshot after them.
#[derive(Drop)]
pub(crate) struct MadeAll {
    pub fired: FiredList,
    pub at: Snapshot,
}

/// Fires the members one after the other: what is told of each, with the snapshot after the last one.
pub(crate) fn fire_all(
    alloc: Global,
    net: &Net,
    at: &Snapshot,
    members: &[Member],
) -> Result<MadeAll, GroupFault>
    requires good { Good net.now at.now }
    requires members { AreMembers net.now members.now }
    ensures { MakesAll (group net.now at.now members.now) result }
{
    let _net = net.decls();
    let mut all = Items::new(alloc);
    let mut now = copied(alloc, at)?;
    for (number, member) in members.iter().enumerate() {
        match fire(alloc, net, &now, member.t, &member.row) {
            Ok(made) => {
                all.push(made.fired)?;
                now = made.at;
            }
            Err(FireFault::Refused(why)) => {
                return Err(GroupFault::Refused {
                    member: number,
                    why,
                });
            }
            Err(FireFault::Memory) => return Err(GroupFault::Memory),
        }
    }
    Ok(MadeAll {
        fired: all,
        at: now,
    })
}

/// A copy of the snapshot. An error is want of memory.
pub(crate) fn copied(alloc: Global, at: &Snapshot) -> Result<Snapshot, AllocError>
    ensures { IfOk result (λ copy. copy ≡ at.now) }
{
    Ok(Snapshot {
        instance: at.instance.copy_in(alloc)?,
        marking: at.marking.copy_in(alloc)?,
        next: at.next,
        fired: at.fired,
    })
}
