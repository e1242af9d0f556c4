//! Going through the bodies of a store.

ghost use Rattle.std.specs.Prelude.{◌≡◌, ◌^◌, ◌<◌, ℕ, List, Some, None, Ok, true, false, length, IfOk, OnOk, IfSome, IsErrOf, IsTrue};
ghost use Rattle.dbn_net.specs.Tables.{shapes};
ghost use Rattle.dbn_keeper.specs.Files.{Store};
ghost use Rattle.dbn_keeper.specs.Files.Folder.{Holds};
ghost use Rattle.dbn_keeper.specs.Keeping.{Keeps, SameHeader, SameFiles, NoneFalls, RoseIn};
ghost use Rattle.dbn_core.specs.Group.{AreMembers};
ghost use Rattle.dbn_store.specs.States.{situation};
ghost use Rattle.dbn_store.specs.Folders.{members_in, after_body};
ghost use Rattle.dbn_store.specs.Folders.Opened.{IsDamaged, Stands};
ghost use Rattle.dbn_store.specs.Opening.{rest_of, HasCauseOfStore};
ghost use Rattle.dbn_store.specs.declared.fault.StoreFault.{StoreFault};

use crate::fault::StoreFault;
use dbn_codec::{decode, decode_group};
use dbn_core::{Core, GroupFault, members_have_the_shapes_of_the_net};
use dbn_io::Trouble;
use dbn_keeper::{Form, Keeper, Step};
use dbn_net::Net;
use dbn_value::{Member, Members};
use sqlite_items::Items;
use std::alloc::{AllocError, Global};

/// The one member whose body of form one the bytes are, if they are one.
fn one_member(alloc: Global, body: &[u8], net: &Net) -> Result<Option<Members>, AllocError>
    ensures exact { IfOk result (λ found. found ≡ members_in Form.One (shapes net.now) body.now) }
    ensures members { IfOk result (λ found. IfSome found (λ members. (0 < length members) × AreMembers net.now members)) }
{
    members_have_the_shapes_of_the_net();
    match decode(alloc, body, net.shapes())? {
        None => Ok(None),
        Some((t, row)) => {
            let mut members = Items::new(alloc);
            members.push(Member { t, row })?;
            Ok(Some(members))
        }
    }
}

/// The members whose body of form two the bytes are, if they are one.
fn all_members(alloc: Global, body: &[u8], net: &Net) -> Result<Option<Members>, AllocError>
    ensures exact { IfOk result (λ found. found ≡ members_in Form.Two (shapes net.now) body.now) }
    ensures members { IfOk result (λ found. IfSome found (λ members. (0 < length members) × AreMembers net.now members)) }
{
    members_have_the_shapes_of_the_net();
    let found = decode_group(alloc, body, net.shapes())?;
    Ok(found)
}

/// The members whose body of this form the bytes are, if they are one. They are members of the net.
fn members_of(
    alloc: Global,
    form: Form,
    body: &[u8],
    net: &Net,
) -> Result<Option<Members>, AllocError>
    ensures exact { IfOk result (λ found. found ≡ members_in form (shapes net.now) body.now) }
    ensures members { IfOk result (λ found. IfSome found (λ members. (0 < length members) × AreMembers net.now members)) }
{
    match form {
        Form::One => one_member(alloc, body, net),
        Form::Two => all_members(alloc, body, net),
    }
}

/// Fires the group of a record at this place. It is damaged exactly where the bytes are no body of the net, or the group is
/// refused.
fn fire_body<C: Core>(
    alloc: Global,
    core: &mut C,
    form: Form,
    body: &[u8],
    place: u64,
) -> Result<(), StoreFault>
    requires { IsTrue (C.live core.old) }
    ensures fired { OnOk result (after_body form (C.rules core.old) (C.state core.old) body.now ≡ Some (C.state core.new)) }
    ensures live { OnOk result (C.live core.new ≡ true) }
    ensures net { C.rules core.new ≡ C.rules core.old }
    ensures damaged { (p : ℕ) → IsErrOf result (StoreFault.Damaged p) → (p ≡ place) × (after_body form (C.rules core.old) (C.state core.old) body.now ≡ None) }
    ensures store { IsErrOf result StoreFault.NotAStore → ⊥ }
    ensures failed { IsErrOf result StoreFault.Failed → ⊥ }
{
    match members_of(alloc, form, body, core.net())? {
        None => Err(StoreFault::Damaged(place)),
        Some(members) => match core.fire_group(alloc, &members) {
            Ok(_) => Ok(()),
            Err(GroupFault::Refused { .. }) => Err(StoreFault::Damaged(place)),
            Err(GroupFault::Memory) => Err(StoreFault::Memory),
        },
    }
}

/// Goes one body on, where there is one, and says whether there was.
fn advance<C: Core, K: Keeper>(
    alloc: Global,
    core: &mut C,
    keeper: &mut K,
) -> Result<bool, StoreFault>
    requires core_live { IsTrue (C.live core.old) }
    requires keeper_live { IsTrue (K.state keeper.old).live }
    ensures more { result ≡ Ok true → (store : Store) → (K.state keeper.old).held ≡ Some (Holds store) → rest_of (K.state keeper.old) store (situation (C.rules core.old) (C.state core.old)) ≡ rest_of (K.state keeper.new) store (situation (C.rules core.new) (C.state core.new)) }
    ensures on { result ≡ Ok true → ((K.state keeper.old).place < (K.state keeper.new).place) × ((K.state keeper.new).at_end ≡ false) }
    ensures done { result ≡ Ok false → (store : Store) → (K.state keeper.old).held ≡ Some (Holds store) → rest_of (K.state keeper.old) store (situation (C.rules core.old) (C.state core.old)) ≡ Stands (situation (C.rules core.new) (C.state core.new)) }
    ensures end { result ≡ Ok false → (K.state keeper.new).at_end ≡ true }
    ensures damaged { (p : ℕ) → IsErrOf result (StoreFault.Damaged p) → (store : Store) → (K.state keeper.old).held ≡ Some (Holds store) → rest_of (K.state keeper.old) store (situation (C.rules core.old) (C.state core.old)) ≡ IsDamaged p }
    ensures store { IsErrOf result StoreFault.NotAStore → ⊥ }
    ensures net { C.rules core.new ≡ C.rules core.old }
    ensures core_live { OnOk result (C.live core.new ≡ true) }
    ensures keeper_live { OnOk result ((K.state keeper.new).live ≡ true) }
    ensures files { SameFiles (K.state keeper.old) (K.state keeper.new) }
    ensures header { SameHeader (K.state keeper.old) (K.state keeper.new) }
    ensures keeps { Keeps (K.state keeper.old) (K.state keeper.new) }
    ensures cause { HasCauseOfStore (K.state keeper.old).faults (K.state keeper.new).faults result }
{
    let form = keeper.form();
    match keeper.next_body(alloc) {
        Ok(Step::End) => Ok(false),
        Ok(Step::Damaged(place)) => Err(StoreFault::Damaged(place)),
        Ok(Step::Body { body, place }) => {
            fire_body(alloc, core, form, body.as_slice(), place)?;
            Ok(true)
        }
        Err(Trouble::Failed) => Err(StoreFault::Failed),
        Err(Trouble::Memory) => Err(StoreFault::Memory),
    }
}

/// Fires the bodies that the keeper has still to hand out, one group after the other.
///
/// At `Ok` the core stands for what the folder stands for, and the keeper is at its end. `Damaged` comes exactly where one of
/// the bodies is damaged, with the place of its gate. `NotAStore` never comes. `Failed` comes only
/// where a count of faults rose. What is held and all images stay, with every answer.
#[tactic(auto, using(crate::proofs::Members::same_files_on, crate::proofs::Members::keeps_on, crate::proofs::Replays::same_header_on))]
pub fn replay_all<C: Core, K: Keeper>(
    alloc: Global,
    core: &mut C,
    keeper: &mut K,
) -> Result<(), StoreFault>
    requires core_live { IsTrue (C.live core.old) }
    requires keeper_live { IsTrue (K.state keeper.old).live }
    ensures stands { OnOk result ((store : Store) → (K.state keeper.old).held ≡ Some (Holds store) → rest_of (K.state keeper.old) store (situation (C.rules core.old) (C.state core.old)) ≡ Stands (situation (C.rules core.new) (C.state core.new))) }
    ensures end { OnOk result (((K.state keeper.new).at_end ≡ true) × ((K.state keeper.new).live ≡ true) × (C.live core.new ≡ true)) }
    ensures damaged { (p : ℕ) → IsErrOf result (StoreFault.Damaged p) → (store : Store) → (K.state keeper.old).held ≡ Some (Holds store) → rest_of (K.state keeper.old) store (situation (C.rules core.old) (C.state core.old)) ≡ IsDamaged p }
    ensures store { IsErrOf result StoreFault.NotAStore → ⊥ }
    ensures net { C.rules core.new ≡ C.rules core.old }
    ensures files { SameFiles (K.state keeper.old) (K.state keeper.new) }
    ensures header { SameHeader (K.state keeper.old) (K.state keeper.new) }
    ensures keeps { Keeps (K.state keeper.old) (K.state keeper.new) }
    ensures cause { HasCauseOfStore (K.state keeper.old).faults (K.state keeper.new).faults result }
{
    'bodies: while advance(alloc, core, keeper)? {}
    Ok(())
}
