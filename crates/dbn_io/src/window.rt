//! The bytes of a source that were read in a piece and not yet used.

ghost use Rattle.std.specs.Prelude.{◌≡◌, ◌<◌, ◌≤◌, [], min, max, drop, take, length, vec_len, IfOk, IsErrOf, IsFalse};
ghost use Rattle.dbn_io.specs.Reading.{Fills};
ghost use Rattle.dbn_io.specs.Window.{Window};
ghost use Rattle.dbn_model.specs.Causes.{Rose};
ghost use Rattle.dbn_model.specs.Content.{SameTold};

use crate::pieces::{PIECE, read_piece, room_for};
use crate::source::Source;
use crate::take::ReadStop;
use crate::trouble::Trouble;
use std::alloc::{AllocError, Global};
use std::marker::Model;

// A piece of a source, of which the bytes from `start` to `end` weren't used yet; `unread` more bytes may be read, and
// `at_end` tells that a read gave none.
#[derive(Debug, Drop)]
pub(crate) struct Pieces {
    piece: Vec<u8>,
    start: usize,
    end: usize,
    unread: u64,
    at_end: bool,
}

impl Model for Pieces {
    ghost Value = { Window };

    ghost view = { λ p. record { held = drop p.start (take p.end p.piece.items); unread = p.unread; at_end = p.at_end } };

    ghost invariant = { λ p. (p.start ≤ p.end) × (p.end ≤ vec_len p.piece) × (vec_len p.piece ≤ 65536)
        × (max 1 (min 65536 p.unread) ≤ vec_len p.piece) };
}

impl Pieces {
    // Nothing read yet.
    pub(crate) fn new(alloc: Global, most: u64) -> Result<Pieces, AllocError>
        ensures held { IfOk result (λ pieces. pieces.held ≡ []) }
        ensures unread { IfOk result (λ pieces. pieces.unread ≡ most) }
        ensures at_end { IfOk result (λ pieces. IsFalse pieces.at_end) }
    {
        let piece = room_for(alloc, PIECE)?;
        Ok(Pieces {
            piece,
            start: 0,
            end: 0,
            unread: most,
            at_end: false,
        })
    }

    // The bytes that weren't used yet.
    pub(crate) fn held(&self) -> &[u8]
        ensures held { result.now ≡ self.now.held }
        ensures bound { length self.now.held ≤ 65536 }
    {
        let (read, _) = self.piece.as_slice().split_at(self.end);
        let (_, held) = read.split_at(self.start);
        held
    }

    // Whether a read gave no byte.
    pub(crate) fn is_at_end(&self) -> bool
        ensures at_end { result ≡ self.now.at_end }
        ensures bound { length self.now.held ≤ 65536 }
    {
        self.at_end
    }

    // Uses the first `count` bytes.
    pub(crate) fn skip(&mut self, count: usize)
        requires { count ≤ length self.old.held }
        ensures held { self.new.held ≡ drop count self.old.held }
        ensures unread { self.new.unread ≡ self.old.unread }
        ensures at_end { self.new.at_end ≡ self.old.at_end }
    {
        self.start += count;
    }

    // Reads the next piece, where all bytes were used: true where there was one, false at the end. `Over` comes where a
    // byte is there and none more may be read.
    pub(crate) fn fill<S: Source>(&mut self, source: &mut S) -> Result<bool, ReadStop>
        requires { self.old.held ≡ [] }
        ensures filled { Fills result self.old.unread self.new (S.left source.old) (S.left source.new) }
        ensures bound { length self.new.held ≤ 65536 }
        ensures told { SameTold (S.left source.old) (S.left source.new) }
        ensures later { S.faults source.old ≤ S.faults source.new }
        ensures failed { IsErrOf result ReadStop.Failed → Rose (S.faults source.old) (S.faults source.new) }
        ensures kept { ¬ IsErrOf result ReadStop.Failed → S.faults source.new ≡ S.faults source.old }
    {
        let room = self.unread.min(PIECE as u64).max(1) as usize;
        self.start = 0;
        self.end = 0;
        let count = match read_piece(source, &mut self.piece, room) {
            Ok(count) => count,
            Err(Trouble::Failed) => return Err(ReadStop::Failed),
            Err(Trouble::Memory) => return Err(ReadStop::Memory),
        };
        self.at_end = count == 0;
        if count == 0 {
            return Ok(false);
        }
        if self.unread == 0 {
            return Err(ReadStop::Over);
        }
        self.end = count;
        self.unread -= count as u64;
        Ok(true)
    }
}
