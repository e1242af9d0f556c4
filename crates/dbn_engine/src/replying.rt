//! Replies of firings and groups.

ghost use Rattle.std.specs.Prelude.{◌≡◌, ◌+◌, ◌^◌, ◌≤◌, length, IfOk};
ghost use Rattle.dbn_engine.specs.Steps.{refused, why_of, is_committed, fired, group_lines};

use dbn_command::{GroupLine, GroupLines, MemberWhy, Reply};
use dbn_core::{Fired, Outcome, Refusal};
use dbn_value::Member;
use sqlite_items::Items;
use std::alloc::{AllocError, Global};

/// The reply to a firing that is refused.
pub(crate) fn refused(why: Refusal) -> Reply
    ensures { result ≡ refused why }
{
    match why {
        Refusal::Disabled => Reply::Disabled,
        Refusal::UnknownId => Reply::UnknownId,
        Refusal::FreshEnd => Reply::FreshEnd,
        Refusal::FiringEnd => Reply::FiringEnd,
        Refusal::CountLimit(place) => Reply::Count(place),
    }
}

/// Why a member of a group is refused.
pub(crate) fn member_why(why: Refusal) -> MemberWhy
    ensures { result ≡ why_of why }
{
    match why {
        Refusal::Disabled => MemberWhy::Disabled,
        Refusal::UnknownId => MemberWhy::UnknownId,
        Refusal::FreshEnd => MemberWhy::FreshEnd,
        Refusal::FiringEnd => MemberWhy::FiringEnd,
        Refusal::CountLimit(place) => MemberWhy::Count(place),
    }
}

/// Whether it committed.
fn is_committed(outcome: Outcome) -> bool
    ensures { result ≡ is_committed outcome }
{
    match outcome {
        Outcome::Committed => true,
        Outcome::RolledBack => false,
    }
}

/// The reply to a firing of the transition, behind which there are `count` firings.
pub(crate) fn fired_reply(t: usize, count: u64, made: Fired) -> Reply
    ensures { result ≡ fired t count made }
{
    let first = made.first;
    match made.outcome {
        Outcome::Committed => Reply::Committed {
            t,
            fired: count,
            first,
        },
        Outcome::RolledBack => Reply::RolledBack {
            t,
            fired: count,
            first,
        },
    }
}

/// A line for each member of a group, before which there were `before` firings.
pub(crate) fn group_lines(
    alloc: Global,
    before: u64,
    members: &[Member],
    all: &[Fired],
) -> Result<GroupLines, AllocError>
    requires { before + length members.now ≤ 2 ^ 63 }
    ensures { IfOk result (λ lines. lines ≡ group_lines before members.now all.now) }
{
    let mut lines = Items::new(alloc);
    let mut count = before;
    for (member, fired) in members.iter().zip(all) {
        count += 1;
        lines.push(GroupLine {
            committed: is_committed(fired.outcome),
            t: member.t,
            fired: count,
            first: fired.first,
        })?;
    }
    Ok(lines)
}
