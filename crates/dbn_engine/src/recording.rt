//! Firings and groups, which are recorded.

ghost use Rattle.std.specs.Prelude.{◌≡◌, None, true, false, IfOk, IsErrOf};
ghost use Rattle.dbn_command.specs.declared.command.Command.TheVariants as command;
ghost use Rattle.dbn_core.specs.Fire.{refusal_at};
ghost use Rattle.dbn_keeper.specs.Keeping.{Keeps};
ghost use Rattle.dbn_store.specs.States.{situation, run_state};
ghost use Rattle.dbn_engine.specs.Asked.{IsOf};
ghost use Rattle.dbn_engine.specs.Steps.{fire_answer, group_answer, is_too_old};
ghost use Rattle.dbn_engine.specs.Serving.{Joined, StaysSteady, HasDiskCause};
ghost use Rattle.dbn_engine.specs.Obeying.{IsSound, IsBody, Obeyed, Changes};

use crate::answered::Answered;
use crate::bodies::{body_of_group, body_of_one};
use crate::fault::ServeFault;
use crate::replying::{fired_reply, group_lines, member_why, refused};
use dbn_command::Reply;
use dbn_core::{Core, FireFault, GroupFault};
use dbn_keeper::Keeper;
use dbn_value::{Members, Row, Value};
use std::alloc::Global;

/// Fires the transition with the row, and records it.
pub(crate) fn fire<C: Core, K: Keeper>(
    alloc: Global,
    core: &mut C,
    keeper: &mut K,
    t: usize,
    row: &Row<Value>,
) -> Result<Answered, ServeFault>
    requires joined { Joined (C.live core.old) (situation (C.rules core.old) (C.state core.old)) (K.state keeper.old) }
    requires sound { IsSound (situation (C.rules core.old) (C.state core.old)) }
    requires of_net { IsOf (C.rules core.old) (command.Fire t row.now) }
    ensures done { IfOk result (λ made. Obeyed (fire_answer (run_state (situation (C.rules core.old) (C.state core.old)) (K.state keeper.old)) t row.now) (C.live core.new) (situation (C.rules core.new) (C.state core.new)) (K.state keeper.new) made) }
    ensures changes { Changes (fire_answer (run_state (situation (C.rules core.old) (C.state core.old)) (K.state keeper.old)) t row.now) (situation (C.rules core.old) (C.state core.old)) (K.state keeper.old) (K.state keeper.new) }
    ensures net { C.rules core.new ≡ C.rules core.old }
    ensures steady { IfOk result (λ made. made.recorded ≡ true → StaysSteady (K.state keeper.old) (K.state keeper.new)) }
    ensures keeps { Keeps (K.state keeper.old) (K.state keeper.new) }
    ensures cause { HasDiskCause (K.state keeper.old).faults (K.state keeper.new).faults result }
    ensures write { IsErrOf result ServeFault.Write → ⊥ }
{
    match core.ready(alloc, t, row) {
        Ok(()) => fire_ready(alloc, core, keeper, t, row),
        Err(FireFault::Refused(why)) => Ok(Answered::said(refused(why))),
        Err(FireFault::Memory) => Err(ServeFault::Memory),
    }
}

/// The same, where nothing is refused before the room is looked at.
fn fire_ready<C: Core, K: Keeper>(
    alloc: Global,
    core: &mut C,
    keeper: &mut K,
    t: usize,
    row: &Row<Value>,
) -> Result<Answered, ServeFault>
    requires joined { Joined (C.live core.old) (situation (C.rules core.old) (C.state core.old)) (K.state keeper.old) }
    requires sound { IsSound (situation (C.rules core.old) (C.state core.old)) }
    requires of_net { IsOf (C.rules core.old) (command.Fire t row.now) }
    requires ready { refusal_at (C.rules core.old) (C.state core.old) t row.now ≡ None }
    ensures done { IfOk result (λ made. Obeyed (fire_answer (run_state (situation (C.rules core.old) (C.state core.old)) (K.state keeper.old)) t row.now) (C.live core.new) (situation (C.rules core.new) (C.state core.new)) (K.state keeper.new) made) }
    ensures changes { Changes (fire_answer (run_state (situation (C.rules core.old) (C.state core.old)) (K.state keeper.old)) t row.now) (situation (C.rules core.old) (C.state core.old)) (K.state keeper.old) (K.state keeper.new) }
    ensures net { C.rules core.new ≡ C.rules core.old }
    ensures steady { IfOk result (λ made. made.recorded ≡ true → StaysSteady (K.state keeper.old) (K.state keeper.new)) }
    ensures keeps { Keeps (K.state keeper.old) (K.state keeper.new) }
    ensures cause { HasDiskCause (K.state keeper.old).faults (K.state keeper.new).faults result }
    ensures write { IsErrOf result ServeFault.Write → ⊥ }
{
    let body = body_of_one(alloc, core.net(), keeper.form(), t, row)?;
    let bytes = body.as_slice();
    if !keeper.room(bytes.len()) {
        return Ok(Answered::said(Reply::StoreFull));
    }
    match core.fire(alloc, t, row) {
        Ok(fired) => {
            keeper.append(alloc, bytes)?;
            Ok(Answered::after_record(fired_reply(t, core.fired(), fired)))
        }
        Err(FireFault::Refused(why)) => Ok(Answered::said(refused(why))),
        Err(FireFault::Memory) => Err(ServeFault::Memory),
    }
}

/// Fires all members, or none, and records them.
pub(crate) fn group<C: Core, K: Keeper>(
    alloc: Global,
    core: &mut C,
    keeper: &mut K,
    members: &Members,
) -> Result<Answered, ServeFault>
    requires joined { Joined (C.live core.old) (situation (C.rules core.old) (C.state core.old)) (K.state keeper.old) }
    requires sound { IsSound (situation (C.rules core.old) (C.state core.old)) }
    requires of_net { IsOf (C.rules core.old) (command.Group members.now) }
    ensures done { IfOk result (λ made. Obeyed (group_answer (run_state (situation (C.rules core.old) (C.state core.old)) (K.state keeper.old)) members.now) (C.live core.new) (situation (C.rules core.new) (C.state core.new)) (K.state keeper.new) made) }
    ensures changes { Changes (group_answer (run_state (situation (C.rules core.old) (C.state core.old)) (K.state keeper.old)) members.now) (situation (C.rules core.old) (C.state core.old)) (K.state keeper.old) (K.state keeper.new) }
    ensures net { C.rules core.new ≡ C.rules core.old }
    ensures steady { IfOk result (λ made. made.recorded ≡ true → StaysSteady (K.state keeper.old) (K.state keeper.new)) }
    ensures keeps { Keeps (K.state keeper.old) (K.state keeper.new) }
    ensures cause { HasDiskCause (K.state keeper.old).faults (K.state keeper.new).faults result }
    ensures write { IsErrOf result ServeFault.Write → ⊥ }
{
    match body_of_group(alloc, core.net(), keeper.form(), members)? {
        Some(body) => group_with(alloc, core, keeper, members, body.as_slice()),
        None => Ok(Answered::said(Reply::OldStore)),
    }
}

/// The same, where this is the body of the record.
fn group_with<C: Core, K: Keeper>(
    alloc: Global,
    core: &mut C,
    keeper: &mut K,
    members: &Members,
    body: &[u8],
) -> Result<Answered, ServeFault>
    requires joined { Joined (C.live core.old) (situation (C.rules core.old) (C.state core.old)) (K.state keeper.old) }
    requires sound { IsSound (situation (C.rules core.old) (C.state core.old)) }
    requires of_net { IsOf (C.rules core.old) (command.Group members.now) }
    requires form { is_too_old (K.state keeper.old).form members.now ≡ false }
    requires body { IsBody (C.rules core.old) (K.state keeper.old).form members.now body.now }
    ensures done { IfOk result (λ made. Obeyed (group_answer (run_state (situation (C.rules core.old) (C.state core.old)) (K.state keeper.old)) members.now) (C.live core.new) (situation (C.rules core.new) (C.state core.new)) (K.state keeper.new) made) }
    ensures changes { Changes (group_answer (run_state (situation (C.rules core.old) (C.state core.old)) (K.state keeper.old)) members.now) (situation (C.rules core.old) (C.state core.old)) (K.state keeper.old) (K.state keeper.new) }
    ensures net { C.rules core.new ≡ C.rules core.old }
    ensures steady { IfOk result (λ made. made.recorded ≡ true → StaysSteady (K.state keeper.old) (K.state keeper.new)) }
    ensures keeps { Keeps (K.state keeper.old) (K.state keeper.new) }
    ensures cause { HasDiskCause (K.state keeper.old).faults (K.state keeper.new).faults result }
    ensures write { IsErrOf result ServeFault.Write → ⊥ }
{
    if !keeper.room(body.len()) {
        return Ok(Answered::said(Reply::StoreFull));
    }
    let before = core.fired();
    match core.fire_group(alloc, members) {
        Ok(all) => {
            keeper.append(alloc, body)?;
            let lines = group_lines(alloc, before, members.as_slice(), all.as_slice())?;
            Ok(Answered::after_record(Reply::Group(lines)))
        }
        Err(GroupFault::Refused { member, why }) => {
            let number = member as u64 + 1;
            let why = member_why(why);
            Ok(Answered::said(Reply::Member { number, why }))
        }
        Err(GroupFault::Memory) => Err(ServeFault::Memory),
    }
}
