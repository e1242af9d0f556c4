//! What answers questions about a net at a snapshot, and fires its transitions.

ghost use Rattle.std.specs.Prelude.{◌≡◌, ◌<◌, List, Bool, true, length, IfOk, IsTrue};
ghost use Rattle.dbn_formula.specs.Solutions.{HasShape};
ghost use Rattle.dbn_instance.specs.Facts.{rows_of};
ghost use Rattle.dbn_net.specs.declared.decl.Decl.{Decl};
ghost use Rattle.dbn_net.specs.declared.snapshot.Snapshot.{Snapshot as State};
ghost use Rattle.dbn_net.specs.Tables.{relations, places, transitions};
ghost use Rattle.dbn_net.specs.WellFormed.{WellFormed};
ghost use Rattle.dbn_net.specs.Enabled.{shown, bindings_at, shape_at};
ghost use Rattle.dbn_net.specs.Good.{Good};
ghost use Rattle.dbn_core.specs.Fire.{fire_at, refusal_at};
ghost use Rattle.dbn_core.specs.Group.{AreMembers, group};
ghost use Rattle.dbn_core.specs.Answers.{Tells, Leaves, LeavesGroup};

use super::outcome::{FireFault, Fired, FiredList, GroupFault};
use dbn_marking::CountedRows;
use dbn_net::{Net, Snapshot};
use dbn_value::{Members, Row, Rows, Value};
use std::alloc::{AllocError, Global};

/// A net with a snapshot of it. It answers questions and fires transitions.
///
/// After want of memory in a firing or in a group it isn't live, and no call but `is_live` may be made. A refusal leaves
/// everything as it was. No call changes the net.
pub trait Core: Sized {
    /// The net.
    ghost rules: { Self → List Decl };

    /// The snapshot.
    ghost state: { Self → State };

    /// Whether no firing and no group ended with want of memory.
    ghost live: { Self → Bool };

    /// A live core of the net at a good snapshot of it. An error is want of memory.
    fn start(alloc: Global, net: Net, at: Snapshot) -> Result<Self, AllocError>
        requires { Good net at }
        ensures net { IfOk result (λ core. rules core ≡ net) }
        ensures at { IfOk result (λ core. state core ≡ at) }
        ensures live { IfOk result (λ core. live core ≡ true) };

    /// Whether no firing and no group ended with want of memory. The snapshot of a live core is good.
    fn is_live(&self) -> bool
        ensures value { result ≡ live self.now }
        ensures net { WellFormed (rules self.now) }
        ensures good { IsTrue (live self.now) → Good (rules self.now) (state self.now) };

    /// The net.
    fn net(&self) -> &Net
        requires { IsTrue (live self.now) }
        ensures { result.now ≡ rules self.now };

    /// The rows of the bound variables that enable the transition, ascending. An error is want of memory.
    fn bindings(&self, alloc: Global, t: usize) -> Result<Rows, AllocError>
        requires live { IsTrue (live self.now) }
        requires within { t < length (transitions (rules self.now)) }
        ensures { IfOk result (λ rows. rows ≡ bindings_at (rules self.now) (state self.now).instance (state self.now).marking t) };

    /// Whether a firing of the transition with the row would be refused, but for the limit of counts. `Memory` is want of
    /// memory, and nothing changes.
    fn ready(&self, alloc: Global, t: usize, row: &Row<Value>) -> Result<(), FireFault>
        requires live { IsTrue (live self.now) }
        requires within { t < length (transitions (rules self.now)) }
        requires shape { HasShape row.now (shape_at (rules self.now) t) }
        ensures { Tells (refusal_at (rules self.now) (state self.now) t row.now) result };

    /// Fires the transition with the row. A refusal leaves everything as it was; after `Memory`, want of memory, the core
    /// isn't live.
    fn fire(&mut self, alloc: Global, t: usize, row: &Row<Value>) -> Result<Fired, FireFault>
        requires live { IsTrue (live self.old) }
        requires within { t < length (transitions (rules self.old)) }
        requires shape { HasShape row.now (shape_at (rules self.old) t) }
        ensures net { rules self.new ≡ rules self.old }
        ensures leaves { Leaves (fire_at (rules self.old) (state self.old) t row.now) (state self.old) (state self.new) (live self.new) result };

    /// Fires the members one after the other, all of them or none. A refusal of a member leaves everything as it was; after
    /// `Memory`, want of memory, the core isn't live.
    fn fire_group(&mut self, alloc: Global, members: &Members) -> Result<FiredList, GroupFault>
        requires live { IsTrue (live self.old) }
        requires some { 0 < length members.now }
        requires members { AreMembers (rules self.old) members.now }
        ensures net { rules self.new ≡ rules self.old }
        ensures leaves { LeavesGroup (group (rules self.old) (state self.old) members.now) (state self.old) (state self.new) (live self.new) result };

    /// The rows of the relation, ascending. An error is want of memory.
    fn facts(&self, alloc: Global, rel: usize) -> Result<Rows, AllocError>
        requires live { IsTrue (live self.now) }
        requires within { rel < length (relations (rules self.now)) }
        ensures { IfOk result (λ rows. rows ≡ rows_of (state self.now).instance rel) };

    /// The counted rows that the place shows, ascending: its tokens, or each answer of its query once. An error is want of
    /// memory.
    fn tokens(&self, alloc: Global, place: usize) -> Result<CountedRows<Value>, AllocError>
        requires live { IsTrue (live self.now) }
        requires within { place < length (places (rules self.now)) }
        ensures { IfOk result (λ rows. rows ≡ shown (rules self.now) (state self.now).instance (state self.now).marking place) };

    /// A copy of the snapshot. An error is want of memory.
    fn snapshot(&self, alloc: Global) -> Result<Snapshot, AllocError>
        requires { IsTrue (live self.now) }
        ensures { IfOk result (λ at. at ≡ state self.now) };

    /// How many firings there were: at most 2^62.
    fn fired(&self) -> u64
        requires { IsTrue (live self.now) }
        ensures { result ≡ (state self.now).fired };

    /// The number of the next fresh id: at most 2^62.
    fn next(&self) -> u64
        requires { IsTrue (live self.now) }
        ensures { result ≡ (state self.now).next };
}
