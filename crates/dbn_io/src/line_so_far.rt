//! A line whose end isn't known yet.

ghost use Rattle.std.specs.Prelude.{◌≡◌, ◌<◌, ℕ, List, [], ◌∷◌, ◌++◌, length, take, false, OnOk, IsTrue, IsFalse};
ghost use Rattle.dbn_io.specs.LineSoFar.{Holds};
ghost use Rattle.dbn_io.specs.Reading.{given, is_end};
ghost use Rattle.dbn_io.specs.Window.{Unbroken};
ghost use Rattle.dbn_model.specs.Lines.{line_of, lines, without_return};

use crate::lines::Line;
use crate::lists::Bytes;
use std::alloc::{AllocError, Global};

// The most bytes of a line, a carriage return at its end counted.
const LINE_LIMIT: usize = 65536;

const CARRIAGE_RETURN: u8 = 13;

// The bytes of the line, or no more than that there are too many.
#[derive(Debug, Drop)]
pub(crate) struct LineSoFar {
    bytes: Vec<u8>,
    is_long: bool,
}

impl LineSoFar {
    // No byte yet.
    pub(crate) fn new(alloc: Global) -> LineSoFar
        ensures { Holds result.bytes.items result.is_long [] }
    {
        LineSoFar {
            bytes: Vec::new(alloc),
            is_long: false,
        }
    }

    // The line goes on with `part`.
    pub(crate) fn add(&mut self, part: &[u8]) -> Result<(), AllocError>
        ensures { OnOk result ((bytes : List ℕ) → Holds self.old.bytes.items self.old.is_long bytes
            → Holds self.new.bytes.items self.new.is_long (bytes ++ part.now)) }
    {
        if self.is_long {
            return Ok(());
        }
        if part.len() <= LINE_LIMIT && self.bytes.len() <= LINE_LIMIT - part.len() {
            return self.bytes.extend_from_slice(part);
        }
        self.is_long = true;
        self.bytes.clear();
        Ok(())
    }

    // Whether no byte came.
    pub(crate) fn is_empty(&self) -> bool
        ensures none { (bytes : List ℕ) → Holds self.now.bytes.items self.now.is_long bytes → IsTrue result → bytes ≡ [] }
        ensures some { (bytes : List ℕ) → Holds self.now.bytes.items self.now.is_long bytes → IsFalse result → 0 < length bytes }
    {
        !self.is_long && self.bytes.is_empty()
    }

    // The line, whose line feed has come.
    pub(crate) fn finish(self) -> Line
        ensures line { (bytes : List ℕ) → Holds self.bytes.items self.is_long bytes → given result ≡ line_of bytes ∷ [] }
        ensures some { is_end result ≡ false }
    {
        if self.is_long {
            return Line::Long;
        }
        let mut bytes = self.bytes;
        let len = kept_len(bytes.as_slice());
        bytes.truncate(len);
        Line::Bytes(Bytes::from_vec(bytes))
    }

    // The line, or the end where no byte came, as the end of the source has come.
    pub(crate) fn finish_last(self) -> Line
        ensures { (bytes : List ℕ) → Unbroken bytes → Holds self.bytes.items self.is_long bytes
            → (given result ≡ lines bytes) × (is_end result ≡ false → 0 < length bytes) }
    {
        if self.is_empty() {
            return Line::End;
        }
        self.finish()
    }
}

// How many bytes are before one carriage return at the end, or all.
fn kept_len(bytes: &[u8]) -> usize
    ensures { take result bytes.now ≡ without_return bytes.now }
{
    let len = bytes.len();
    if len == 0 {
        return len;
    }
    if bytes[len - 1] == CARRIAGE_RETURN {
        return len - 1;
    }
    len
}
