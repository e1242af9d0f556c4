//! A file as a source.

ghost use Rattle.std.specs.Prelude.{◌≡◌, None};
ghost use Rattle.std.specs.Io.{ReadsAtMost};

use crate::faults::Faults;
use crate::retry::retried_read;
use crate::source::Source;
use crate::trouble::Trouble;
use std::rt::Files;
use std::{fs, io};

/// A named file as a source, opened at the first read. It tells no bytes, and counts each error as a fault; a read that
/// a signal interrupts is tried again, 1,000 times at most in all. Where the file can't be opened, the next read tries
/// again.
#[derive(Drop)]
pub struct LazyFileSource<'a, R: Files> {
    rt: &'a R,
    name: &'a str,
    file: Option<R::File>,
    faults: Faults,
}

impl<'a, R: Files> LazyFileSource<'a, R> {
    /// A source of the bytes of the file `name`, which isn't opened yet; there was no fault.
    pub fn new(rt: &'a R, name: &'a str) -> LazyFileSource<'a, R>
        ensures { result.faults ≡ 0 }
    {
        LazyFileSource {
            rt,
            name,
            file: None,
            faults: Faults::new(),
        }
    }

    // Reads on in the file, which is opened where it isn't yet.
    fn read_on(&mut self, into: &mut [u8]) -> io::Result<usize>
        ensures bound { ReadsAtMost result into.new }
        ensures faults { self.new.faults ≡ self.old.faults }
    {
        if let Some(file) = &mut self.file {
            return retried_read(file, into);
        }
        let mut file = fs::open(self.rt, self.name)?;
        let given = retried_read(&mut file, into);
        self.file = Some(file);
        given
    }
}

impl<R: Files> Source for LazyFileSource<'_, R> {
    ghost left = { λ _. None };

    ghost faults = { λ s. s.faults };

    fn read(&mut self, into: &mut [u8]) -> Result<usize, Trouble> {
        match self.read_on(into) {
            Ok(count) => Ok(count),
            Err(_) => Err(self.faults.fail()),
        }
    }
}
