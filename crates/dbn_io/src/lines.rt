//! Reading a source line by line.

ghost use Rattle.std.specs.Prelude.{◌≡◌, ◌≢◌, ℕ, ◌<◌, ◌≤◌, List, [], Contains, length, slice_index, Ok, IfOk, IfErr, OnErr, IsErrOf, IsTrue, IsFalse};
ghost use Rattle.dbn_model.specs.Causes.{Rose};
ghost use Rattle.dbn_model.specs.Content.{SameTold};

use crate::line_so_far::LineSoFar;
use crate::lists::Bytes;
use crate::source::Source;
use crate::take::ReadStop;
use crate::window::Pieces;
use std::alloc::{AllocError, Global};
use std::marker::Model;

/// What a reader of lines gives.
#[derive(Debug, Drop)]
pub enum Line {
    /// A line without its line feed, and without one carriage return at its end.
    Bytes(Bytes),
    /// A line with more than 65,536 bytes before its line feed or the end, a carriage return counted.
    Long,
    /// No line is left, and no byte in the source.
    End,
}

const LINE_FEED: u8 = 10;

/// Reads a source line by line, in pieces of 64 KiB; a line that is too long is never held. A line ends with a line
/// feed or at the end of the source.
#[derive(Debug, Drop)]
pub struct Lines {
    pieces: Pieces,
    ended: bool,
}

impl Model for Lines {
    ghost use Rattle.dbn_io.specs.Reading.{Reading};

    ghost Value = { Reading };

    ghost view = { λ l. record { window = l.pieces; ended = l.ended } };
}

impl Lines {
    ghost use Rattle.std.specs.Prelude.{Option, false};
    ghost use Rattle.dbn_io.specs.Reading.{GivesNext, HasRead, HasStopped, is_end, is_last};
    ghost use Rattle.dbn_io.specs.Window.{allowed};
    ghost use Rattle.dbn_model.specs.Lines as text;

    /// A reader of lines that takes at most `most` bytes of its source, and one more where there are more.
    pub fn new(alloc: Global, most: u64) -> Result<Lines, AllocError>
        ensures read { IfOk result (λ lines. (initial : Option (List ℕ)) → HasRead most initial initial lines []) }
        ensures most { IfOk result (λ lines. allowed lines.window ≡ most) }
        ensures ended { IfOk result (λ lines. IsFalse lines.ended) }
    {
        Ok(Lines {
            pieces: Pieces::new(alloc, most)?,
            ended: false,
        })
    }

    /// Whether the end was given, or an error came.
    pub fn ended(&self) -> bool
        ensures { result ≡ self.now.ended }
    {
        self.ended
    }

    /// The next line of the source, or its end. A line that is held whole is given before the source is read again, and
    /// once a read gave no byte the source is left alone.
    ///
    /// `Over` comes exactly where the source had more bytes than were to be taken, after all lines that end within
    /// those; `Failed` only where the count of faults rose, after the lines that end within the bytes taken. After an
    /// error nothing more is given, and what was taken of the next line is lost.
    pub fn next<S: Source>(&mut self, alloc: Global, source: &mut S) -> Result<Line, ReadStop>
        requires { IsFalse self.old.ended }
        ensures line { (most : ℕ) (initial : Option (List ℕ)) (lines : List text.Line) → HasRead most initial (S.left source.old) self.old lines
            → IfOk result (λ line. GivesNext line most initial (S.left source.new) self.new lines) }
        ensures stopped { (most : ℕ) (initial : Option (List ℕ)) (lines : List text.Line) → HasRead most initial (S.left source.old) self.old lines
            → IfErr result (λ why. HasStopped why most initial (S.left source.new) lines) }
        ensures held_first { Contains self.old.window.held 10 → source.new ≡ source.old }
        ensures at_end { IsTrue self.old.window.at_end → (result ≡ Ok Line.End) × (source.new ≡ source.old) }
        ensures fewer { IfOk result (λ line. is_end line ≡ false → allowed self.new.window < allowed self.old.window) }
        ensures bound { length self.new.window.held ≤ 65536 }
        ensures ended { self.new.ended ≡ is_last result }
        ensures told { SameTold (S.left source.old) (S.left source.new) }
        ensures later { S.faults source.old ≤ S.faults source.new }
        ensures failed { IsErrOf result ReadStop.Failed → Rose (S.faults source.old) (S.faults source.new) }
        ensures kept { ¬ IsErrOf result ReadStop.Failed → S.faults source.new ≡ S.faults source.old }
    {
        if self.pieces.is_at_end() {
            self.ended = true;
            return Ok(Line::End);
        }
        let line = next_line(alloc, &mut self.pieces, source);
        self.ended = !matches!(&line, Ok(Line::Bytes(_) | Line::Long));
        line
    }
}

ghost use Rattle.dbn_io.specs.LineSoFar.{Moved};
ghost use Rattle.dbn_io.specs.Reading.{Gives, Loses};
ghost use Rattle.dbn_io.specs.Window.{Moves};

// The index of the first line feed, or the length where there is none.
fn feed_at(bytes: &[u8]) -> usize
    ensures within { result ≤ length bytes.now }
    ensures before { (k : ℕ) → k < result → slice_index bytes.now k ≢ 10 }
    ensures found { result < length bytes.now → slice_index bytes.now result ≡ 10 }
{
    for (i, byte) in bytes.iter().enumerate() {
        if *byte == LINE_FEED {
            return i;
        }
    }
    bytes.len()
}

// Moves bytes that are held into the line: as far as the first line feed, which is used too, or all of them. Whether
// the line ended.
fn take_part(pieces: &mut Pieces, line: &mut LineSoFar) -> Result<bool, AllocError>
    ensures moved { IfOk result (λ ended. (part : List ℕ) × Moves ended pieces.old pieces.new part
        × Moved line.old.bytes.items line.old.is_long line.new.bytes.items line.new.is_long part) }
    ensures unread { pieces.new.unread ≡ pieces.old.unread }
    ensures at_end { pieces.new.at_end ≡ pieces.old.at_end }
    ensures bound { length pieces.new.held ≤ 65536 }
    ensures err { OnErr result (pieces.new ≡ pieces.old) }
{
    let held = pieces.held();
    let at = feed_at(held);
    if at == held.len() {
        line.add(held)?;
        pieces.skip(at);
        return Ok(false);
    }
    let (part, _) = held.split_at(at);
    line.add(part)?;
    pieces.skip(at + 1);
    Ok(true)
}

// The next line of the source, or its end.
fn next_line<S: Source>(
    alloc: Global,
    pieces: &mut Pieces,
    source: &mut S,
) -> Result<Line, ReadStop>
    requires { IsFalse pieces.old.at_end }
    ensures line { IfOk result (λ line. Gives line pieces.old pieces.new (S.left source.old) (S.left source.new)) }
    ensures lost { IfErr result (λ why. Loses why pieces.old (S.left source.old) (S.left source.new)) }
    ensures held_first { Contains pieces.old.held 10 → source.new ≡ source.old }
    ensures bound { length pieces.new.held ≤ 65536 }
    ensures told { SameTold (S.left source.old) (S.left source.new) }
    ensures later { S.faults source.old ≤ S.faults source.new }
    ensures failed { IsErrOf result ReadStop.Failed → Rose (S.faults source.old) (S.faults source.new) }
    ensures kept { ¬ IsErrOf result ReadStop.Failed → S.faults source.new ≡ S.faults source.old }
{
    let mut line = LineSoFar::new(alloc);
    'pieces: loop {
        let is_whole = match take_part(pieces, &mut line) {
            Ok(is_whole) => is_whole,
            Err(_) => return Err(ReadStop::Memory),
        };
        if is_whole {
            return Ok(line.finish());
        }
        let is_more = match pieces.fill(source) {
            Ok(is_more) => is_more,
            Err(why) => return Err(why),
        };
        if !is_more {
            return Ok(line.finish_last());
        }
    }
}
