//! Standard input and standard output.

ghost use Rattle.std.specs.Prelude.{◌≡◌, None};

use crate::faults::Faults;
use crate::retry::{retried_read, retried_write};
use crate::sink::Sink;
use crate::source::Source;
use crate::trouble::Trouble;
use std::io::{self, Print, Read, Write};

/// A source over a reader of the runtime, such as standard input. It tells no bytes, and counts each error as a fault;
/// a call that a signal interrupts is tried again, 1,000 times at most in all.
#[derive(Drop)]
pub struct StdSource<R: Read + Drop> {
    reader: R,
    faults: Faults,
}

impl<R: Read + Drop> StdSource<R> {
    /// A source that reads from `reader`, as `rt.reader()` gives it; nothing is read yet, and there was no fault.
    pub fn new(reader: R) -> StdSource<R>
        ensures { result.faults ≡ 0 }
    {
        StdSource {
            reader,
            faults: Faults::new(),
        }
    }
}

impl<R: Read + Drop> Source for StdSource<R> {
    ghost left = { λ _. None };

    ghost faults = { λ s. s.faults };

    fn read(&mut self, into: &mut [u8]) -> Result<usize, Trouble> {
        match retried_read(&mut self.reader, into) {
            Ok(count) => Ok(count),
            Err(_) => Err(self.faults.fail()),
        }
    }
}

/// The standard output of a runtime as a sink: each piece is written and flushed. It tells no bytes, and counts each
/// error as a fault, and also where nothing of a piece was taken; a write that a signal interrupts is tried again, 1,000
/// times at most in all.
#[derive(Drop)]
pub struct StdSink<'a, R: Print> {
    rt: &'a R,
    faults: Faults,
}

impl<'a, R: Print> StdSink<'a, R> {
    /// A sink that writes to the standard output of `rt`; nothing is written yet, and there was no fault.
    pub fn new(rt: &'a R) -> StdSink<'a, R>
        ensures { result.faults ≡ 0 }
    {
        StdSink {
            rt,
            faults: Faults::new(),
        }
    }
}

impl<R: Print> Sink for StdSink<'_, R> {
    ghost taken = { λ _. None };

    ghost faults = { λ s. s.faults };

    fn write(&mut self, bytes: &[u8]) -> Result<usize, Trouble> {
        let mut out = io::writer(self.rt);
        let written = retried_write(&mut out, bytes);
        let flushed = out.flush();
        if let Ok(count) = written
            && flushed.is_ok()
            && (count > 0 || bytes.is_empty())
        {
            return Ok(count);
        }
        Err(self.faults.fail())
    }
}
