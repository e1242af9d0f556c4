//! Reading a source whole.

ghost use Rattle.std.specs.Prelude.{◌≡◌, ℕ, ◌+◌, ◌^◌, ◌<◌, ◌≤◌, length, IfOk, IfErr, OnOk, IsErrOf};
ghost use Rattle.std.specs.Io.KnownBytes.{Consumes, IsAtEnd};
ghost use Rattle.dbn_io.specs.Stops.{Stopped};
ghost use Rattle.dbn_model.specs.Causes.{Rose};
ghost use Rattle.dbn_model.specs.Content.{SameTold};

use crate::lists::Bytes;
use crate::pieces::{PIECE, read_piece, room_for};
use crate::source::Source;
use crate::trouble::Trouble;
use std::alloc::Global;

/// Why a source wasn't read on.
#[derive(Clone, Copy, Debug, PartialEq, Eq)]
pub enum ReadStop {
    /// The source failed: its count of faults rose in this call.
    Failed,
    /// The source held more bytes than were to be taken.
    Over,
    /// Memory was wanting.
    Memory,
}

/// All bytes that are left in `source`, where there are at most `most`; none is left then. `Over` comes exactly where
/// there are more, and took `most + 1` of them. `Failed` comes only where the count of faults rose; after it, and after
/// `Memory`, some first bytes were taken.
pub fn take_all<S: Source>(alloc: Global, source: &mut S, most: u64) -> Result<Bytes, ReadStop>
    ensures all { IfOk result (Consumes (S.left source.old) (S.left source.new)) }
    ensures end { OnOk result (IsAtEnd (S.left source.new)) }
    ensures most { IfOk result (λ bytes. length bytes ≤ most) }
    ensures stopped { IfErr result (λ why. Stopped why most (S.left source.old) (S.left source.new)) }
    ensures told { SameTold (S.left source.old) (S.left source.new) }
    ensures later { S.faults source.old ≤ S.faults source.new }
    ensures failed { IsErrOf result ReadStop.Failed → Rose (S.faults source.old) (S.faults source.new) }
    ensures kept { ¬ IsErrOf result ReadStop.Failed → S.faults source.new ≡ S.faults source.old }
{
    let mut bytes = Vec::new(alloc);
    let Ok(mut piece) = room_for(alloc, PIECE) else {
        return Err(ReadStop::Memory);
    };
    let most_len = most as usize;
    'pieces: loop {
        let room = PIECE.min((most_len - bytes.len()).saturating_add(1));
        let count = match read_piece(source, &mut piece, room) {
            Ok(count) => count,
            Err(Trouble::Failed) => return Err(ReadStop::Failed),
            Err(Trouble::Memory) => return Err(ReadStop::Memory),
        };
        if count == 0 {
            return Ok(Bytes::from_vec(bytes));
        }
        if count > most_len - bytes.len() {
            return Err(ReadStop::Over);
        }
        let (given, _) = piece.as_slice().split_at(count);
        if bytes.extend_from_slice(given).is_err() {
            return Err(ReadStop::Memory);
        }
    }
}
