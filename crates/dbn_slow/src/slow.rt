ghost use Rattle.std.specs.Prelude.{◌≡◌, true};
ghost use Rattle.dbn_net.specs.declared.decl.Decl.{Decl};
ghost use Rattle.dbn_net.specs.declared.snapshot.Snapshot.{Snapshot as State};

use super::enabling::is_enabled;
use super::firing::{fire, test};
use super::grouping::{copied, fire_all};
use super::listing::bindings;
use super::views::shown;
use dbn_core::{Core, FireFault, Fired, FiredList, GroupFault};
use dbn_marking::CountedRows;
use dbn_net::{Net, Snapshot};
use dbn_value::{Members, Row, Rows, Value};
use std::alloc::{AllocError, Global};
use std::marker::Model;

/// A core that keeps nothing but the net and the snapshot. Each question is answered from scratch, and a firing or a group
/// makes the next snapshot from copies, which is then put in the place of the old one. So each costs the size of the state.
#[derive(Drop)]
pub struct SlowCore {
    net: Net,
    at: Snapshot,
    live: bool,
}

impl Model for SlowCore {
    ghost use Rattle.std.specs.Prelude.{◌≡◌, List, Bool, true};
    ghost use Rattle.std.specs.Coded.{codes};
    ghost use Rattle.dbn_formula.specs.contracts.formula.Formula as formula;
    ghost use Rattle.dbn_net.specs.declared.decl.Decl.{Decl};
    ghost use Rattle.dbn_net.specs.declared.snapshot.Snapshot.{Snapshot};
    ghost use Rattle.dbn_net.specs.Good.{Good};

    ghost Value = { List Decl × Snapshot × Bool };

    ghost coded = { Prim.hlevel (codes, formula.the_row.coded) };

    ghost view = { λ c. (c.net, c.at, c.live) };

    ghost invariant = { λ c. c.live ≡ true → Good c.net c.at };
}

impl Core for SlowCore {
    ghost rules = { λ c. c.0 };

    ghost state = { λ c. c.1 };

    ghost live = { λ c. c.2 };

    fn start(_alloc: Global, net: Net, at: Snapshot) -> Result<SlowCore, AllocError> {
        Ok(SlowCore {
            net,
            at,
            live: true,
        })
    }

    fn is_live(&self) -> bool {
        let _net = self.net.decls();
        self.live
    }

    fn net(&self) -> &Net {
        &self.net
    }

    fn bindings(&self, alloc: Global, t: usize) -> Result<Rows, AllocError> {
        let _net = self.net.decls();
        bindings(alloc, &self.net, &self.at, self.net.transition_at(t))
    }

    fn ready(&self, alloc: Global, t: usize, row: &Row<Value>) -> Result<(), FireFault> {
        let _net = self.net.decls();
        test(alloc, &self.net, &self.at, self.net.transition_at(t), row)
    }

    fn fire(&mut self, alloc: Global, t: usize, row: &Row<Value>) -> Result<Fired, FireFault> {
        let _net = self.net.decls();
        match fire(alloc, &self.net, &self.at, t, row) {
            Ok(made) => {
                self.at = made.at;
                Ok(made.fired)
            }
            Err(FireFault::Refused(why)) => Err(FireFault::Refused(why)),
            Err(FireFault::Memory) => {
                self.live = false;
                Err(FireFault::Memory)
            }
        }
    }

    fn fire_group(&mut self, alloc: Global, members: &Members) -> Result<FiredList, GroupFault> {
        let _net = self.net.decls();
        match fire_all(alloc, &self.net, &self.at, members.as_slice()) {
            Ok(made) => {
                self.at = made.at;
                Ok(made.fired)
            }
            Err(GroupFault::Refused { member, why }) => Err(GroupFault::Refused { member, why }),
            Err(GroupFault::Memory) => {
                self.live = false;
                Err(GroupFault::Memory)
            }
        }
    }

    fn facts(&self, alloc: Global, rel: usize) -> Result<Rows, AllocError> {
        self.at.instance.rows(alloc, rel)
    }

    fn tokens(&self, alloc: Global, place: usize) -> Result<CountedRows<Value>, AllocError> {
        shown(alloc, &self.net, &self.at, place)
    }

    fn snapshot(&self, alloc: Global) -> Result<Snapshot, AllocError> {
        copied(alloc, &self.at)
    }

    fn fired(&self) -> u64 {
        self.at.fired
    }

    fn next(&self) -> u64 {
        self.at.next
    }
}
