//! Pieces of a source, read into room that is made once.

ghost use Rattle.std.specs.Prelude.{◌≡◌, ◌<◌, ◌≤◌, take, vec_len, IfOk, MatchResult};
ghost use Rattle.std.specs.Io.KnownBytes.{Consumes, IsAtEnd, Keeps};
ghost use Rattle.dbn_io.specs.Causes.{HasCause};
ghost use Rattle.dbn_model.specs.Content.{SameTold};

use crate::source::Source;
use crate::trouble::Trouble;
use std::alloc::{AllocError, Global};

// How many bytes are read at a time.
pub(crate) const PIECE: usize = 65536;

// Room for `len` bytes.
pub(crate) fn room_for(alloc: Global, len: usize) -> Result<Vec<u8>, AllocError>
    ensures { IfOk result (λ bytes. vec_len bytes ≡ len) }
{
    vec![in alloc; 0; len]
}

// Shortens `piece` to `room` bytes and reads into its front; answers how many bytes that were.
pub(crate) fn read_piece<S: Source>(
    source: &mut S,
    piece: &mut Vec<u8>,
    room: usize,
) -> Result<usize, Trouble>
    requires { room ≤ vec_len piece.old }
    ensures bound { IfOk result (λ count. count ≤ room) }
    ensures bytes { MatchResult result
        (λ count. Consumes (S.left source.old) (S.left source.new) (take count piece.new.items))
        (λ _. Keeps (S.left source.old) (S.left source.new)) }
    ensures end { IfOk result (λ count. count ≡ 0 → 0 < room → IsAtEnd (S.left source.new)) }
    ensures told { SameTold (S.left source.old) (S.left source.new) }
    ensures cause { HasCause (S.faults source.old) (S.faults source.new) result }
    ensures len { vec_len piece.new ≡ room }
{
    piece.truncate(room);
    match source.read(piece.as_mut_slice()) {
        Ok(count) => Ok(count),
        Err(why) => Err(why),
    }
}
