//! Bodies of records.

ghost use Rattle.std.specs.Prelude.{◌≡◌, ◌<◌, ◌≤◌, ◌∷◌, [], true, false, length, IfOk, MatchOption};
ghost use Rattle.dbn_formula.specs.Solutions.{HasShape};
ghost use Rattle.dbn_net.specs.Tables.{transitions};
ghost use Rattle.dbn_net.specs.Enabled.{shape_at};
ghost use Rattle.dbn_net.specs.WellFormed.{WellFormed};
ghost use Rattle.dbn_codec.specs.Bodies.{member_of, most_members};
ghost use Rattle.dbn_core.specs.Group.{AreMembers};
ghost use Rattle.dbn_engine.specs.Steps.{is_too_old};
ghost use Rattle.dbn_engine.specs.Obeying.{IsBody};

use dbn_codec::{encode, encode_group};
use dbn_keeper::Form;
use dbn_net::Net;
use dbn_value::{Bytes, CopyIn, Member, Members, Row, Value};
use sqlite_items::Items;
use std::alloc::{AllocError, Global};

/// The group of one member.
fn group_of_one(alloc: Global, t: usize, row: &Row<Value>) -> Result<Members, AllocError>
    ensures { IfOk result (λ members. members ≡ member_of t row.now ∷ []) }
{
    let mut members = Items::new(alloc);
    let row = row.copy_in(alloc)?;
    members.push(Member { t, row })?;
    Ok(members)
}

/// The body of a firing of this transition with this row. An error is want of memory.
pub(crate) fn body_of_one(
    alloc: Global,
    net: &Net,
    form: Form,
    t: usize,
    row: &Row<Value>,
) -> Result<Bytes, AllocError>
    requires net { WellFormed net.now }
    requires within { t < length (transitions net.now) }
    requires shape { HasShape row.now (shape_at net.now t) }
    ensures { IfOk result (λ bytes. IsBody net.now form (member_of t row.now ∷ []) bytes) }
{
    match form {
        Form::One => encode(alloc, t, row),
        Form::Two => {
            let members = group_of_one(alloc, t, row)?;
            encode_group(alloc, &members)
        }
    }
}

/// The body of a group, where the form has groups of so many. An error is want of memory.
pub(crate) fn body_of_group(
    alloc: Global,
    net: &Net,
    form: Form,
    members: &Members,
) -> Result<Option<Bytes>, AllocError>
    requires net { WellFormed net.now }
    requires some { 1 ≤ length members.now }
    requires few { length members.now ≤ most_members }
    requires members { AreMembers net.now members.now }
    ensures { IfOk result (λ found. MatchOption found (is_too_old form members.now ≡ true) (λ bytes. (is_too_old form members.now ≡ false) × IsBody net.now form members.now bytes)) }
{
    match form {
        Form::One => match members.as_slice() {
            [member] => {
                let body = encode(alloc, member.t, &member.row)?;
                Ok(Some(body))
            }
            _ => Ok(None),
        },
        Form::Two => {
            let body = encode_group(alloc, members)?;
            Ok(Some(body))
        }
    }
}
