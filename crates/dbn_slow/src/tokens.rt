//! The tokens that a firing takes and gives.

ghost use Rattle.std.specs.Prelude.{◌≡◌, ◌+◌, ◌<◌, ◌^◌, length, OnOk};
ghost use Rattle.dbn_value.specs.Order.{value_cmp, row_cmp};
ghost use Rattle.dbn_marking.specs.Counts.{count_at, with_tokens};
ghost use Rattle.dbn_core.specs.Moves.{AreGifts, CanTake, CanGive, taken_all, given_all, first_full};
ghost use Rattle.dbn_slow.specs.Makes.{Moves};

use dbn_core::{FireFault, Refusal};
use dbn_marking::{AddFault, MAX_COUNT, Marking};
use dbn_net::{Want, Wants};
use dbn_value::{CopyIn, Value};
use std::alloc::{AllocError, Global};

/// The marking without what is taken and with what is given. It is refused with the first place in which a count would pass
/// its limit.
pub(crate) fn moved(
    alloc: Global,
    marking: &Marking<Value>,
    takes: &Wants<Value>,
    gives: &Wants<Value>,
) -> Result<Marking<Value>, FireFault>
    requires takes { CanTake value_cmp takes.now marking.now }
    requires gives { AreGifts (length marking.now) gives.now }
    ensures { Moves (given_all value_cmp gives.now (taken_all value_cmp takes.now marking.now)) result }
{
    let mut left = marking.copy_in(alloc)?;
    take_all(&mut left, takes.as_slice());
    let _places = left.places();
    if let Some(place) = full_place(&left, gives.as_slice()) {
        return Err(FireFault::Refused(Refusal::CountLimit(place)));
    }
    give_all(alloc, &mut left, gives.as_slice())?;
    Ok(left)
}

/// Takes all of the tokens.
fn take_all(marking: &mut Marking<Value>, wants: &[Want<Value>])
    requires { CanTake value_cmp wants.now marking.old }
    ensures { marking.new ≡ taken_all value_cmp wants.now marking.old }
{
    for want in wants {
        let _there = marking.count(want.place, &want.row);
        marking.take(want.place, &want.row, want.many as u64);
    }
}

/// The place of the first tokens that would bring a count above its limit.
fn full_place(marking: &Marking<Value>, gives: &[Want<Value>]) -> Option<usize>
    requires { AreGifts (length marking.now) gives.now }
    ensures { result ≡ first_full value_cmp gives.now marking.now }
{
    for give in gives {
        let room = MAX_COUNT - marking.count(give.place, &give.row);
        if give.many > u128::from(room) {
            return Some(give.place);
        }
    }
    None
}

/// Gives all of the tokens. An error is want of memory.
fn give_all(
    alloc: Global,
    marking: &mut Marking<Value>,
    gives: &[Want<Value>],
) -> Result<(), AllocError>
    requires { CanGive value_cmp gives.now marking.old }
    ensures { OnOk result (marking.new ≡ given_all value_cmp gives.now marking.old) }
{
    for give in gives {
        give_one(alloc, marking, give)?;
    }
    Ok(())
}

/// Gives tokens of one row. An error is want of memory.
fn give_one(
    alloc: Global,
    marking: &mut Marking<Value>,
    give: &Want<Value>,
) -> Result<(), AllocError>
    requires place { give.now.place < length marking.old }
    requires some { 0 < give.now.many }
    requires room { count_at row_cmp marking.old give.now.place give.now.row + give.now.many < 2 ^ 32 }
    ensures { OnOk result (marking.new ≡ with_tokens row_cmp marking.old give.now.place give.now.row give.now.many) }
{
    let row = give.row.copy_in(alloc)?;
    match marking.add(alloc, give.place, row, give.many as u64) {
        Ok(_) => Ok(()),
        Err(AddFault::CountLimit) => unreachable!(),
        Err(AddFault::Memory) => Err(AllocError),
    }
}
