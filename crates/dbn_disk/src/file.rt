//! A file as a disk.

ghost use Rattle.std.specs.Prelude.{◌≡◌, ℕ};
ghost use Rattle.std.specs.Io.{ReadsAtMost};

use crate::device::Disk;
use crate::opened::{self, Opened};
use dbn_io::{Faults, Trouble};
use std::fs::{self, File};
use std::io::{self, ErrorKind};
use std::marker::Model;
use std::rt::Files;

/// A named file as a disk. It is looked for at the first use; a missing one has length 0, and is made at the first write.
/// While it is open this disk has an exclusive lock on it, so a second disk over the same file, here or in another
/// process, has only faults; so has a write where the file came into being after this disk had found none. A file that
/// may only be read is opened for reading, with a lock that readers share.
///
/// It tells no bytes, isn't said to be honest, and counts each error as a fault: all that it means is that count. No
/// contract can say what a file holds, so any answer meets these, and what the calls do is tested.
#[derive(Drop)]
pub struct FileDisk<'a, R: Files<File = File>> {
    rt: &'a R,
    name: &'a str,
    opened: Opened,
    folder_is_synced: bool,
    faults: Faults,
}

impl<'a, R: Files<File = File>> Model for FileDisk<'a, R> {
    ghost Value = { ℕ };

    ghost view = { λ disk. disk.faults };
}

impl<'a, R: Files<File = File>> FileDisk<'a, R> {
    /// A disk over the file `name`, which isn't opened yet, with no fault so far.
    pub fn new(rt: &'a R, name: &'a str) -> FileDisk<'a, R>
        ensures { result ≡ 0 }
    {
        FileDisk {
            rt,
            name,
            opened: Opened::NotYet,
            folder_is_synced: false,
            faults: Faults::new(),
        }
    }

    // Looks for the file, where nobody has looked yet.
    fn look(&mut self) -> io::Result<()>
        ensures { self.new ≡ self.old }
    {
        if let Opened::NotYet = self.opened {
            self.opened = opened::find(self.rt, self.name)?;
        }
        Ok(())
    }

    // Makes the file, where there was none.
    fn make(&mut self) -> io::Result<()>
        ensures { self.new ≡ self.old }
    {
        if let Opened::Missing = self.opened {
            self.opened = opened::make(self.rt, self.name)?;
        }
        Ok(())
    }

    fn file_len(&mut self) -> io::Result<u64>
        ensures { self.new ≡ self.old }
    {
        self.look()?;
        match self.opened.file() {
            Some(file) => Ok(file.metadata()?.len()),
            None => Ok(0),
        }
    }

    fn read_bytes(&mut self, at: u64, into: &mut [u8]) -> io::Result<usize>
        ensures bound { ReadsAtMost result into.new }
        ensures faults { self.new ≡ self.old }
    {
        self.look()?;
        match self.opened.file() {
            Some(file) => opened::read_up_to_end(file, at, into),
            None => Ok(0),
        }
    }

    fn write_bytes(&mut self, at: u64, bytes: &[u8]) -> io::Result<()>
        ensures { self.new ≡ self.old }
    {
        self.look()?;
        self.make()?;
        match self.opened.file() {
            Some(file) => opened::write(file, at, bytes),
            None => Err(io::Error::from(ErrorKind::NotFound)),
        }
    }

    fn cut_bytes(&mut self, to: u64) -> io::Result<()>
        ensures { self.new ≡ self.old }
    {
        self.look()?;
        match self.opened.file() {
            Some(file) => opened::cut(file, to),
            None => Ok(()),
        }
    }

    // The file, and at the first time its folder too: this disk may have made the file, or a run before that ended early.
    fn sync_all(&mut self) -> io::Result<()>
        ensures { self.new ≡ self.old }
    {
        self.look()?;
        match &self.opened {
            Opened::NotYet | Opened::Missing => return Ok(()),
            Opened::ReadOnly(file) => return opened::sync_read_only(file),
            Opened::Writable(file) => file.sync_data()?,
        }
        if !self.folder_is_synced {
            fs::open(self.rt, folder_of(self.name))?.sync_all()?;
            self.folder_is_synced = true;
        }
        Ok(())
    }
}

// The folder that a file of this name is in.
fn folder_of(name: &str) -> &str {
    match name.rsplit_once('/') {
        Some(("", _)) => "/",
        Some((folder, _)) => folder,
        None => ".",
    }
}

impl<R: Files<File = File>> Disk for FileDisk<'_, R> {
    ghost use Rattle.dbn_disk.specs.Untold.{untold_state};

    ghost state = { λ faults. untold_state faults };

    ghost sound = { λ faults honest. cc };

    fn len(&mut self) -> Result<u64, Trouble> {
        match self.file_len() {
            Ok(len) => Ok(len),
            Err(_) => Err(self.faults.fail()),
        }
    }

    fn read(&mut self, at: u64, into: &mut [u8]) -> Result<usize, Trouble> {
        match self.read_bytes(at, into) {
            Ok(count) => Ok(count),
            Err(_) => Err(self.faults.fail()),
        }
    }

    fn write_at(&mut self, at: u64, bytes: &[u8]) -> Result<(), Trouble> {
        match self.write_bytes(at, bytes) {
            Ok(()) => Ok(()),
            Err(_) => Err(self.faults.fail()),
        }
    }

    fn cut(&mut self, to: u64) -> Result<(), Trouble> {
        match self.cut_bytes(to) {
            Ok(()) => Ok(()),
            Err(_) => Err(self.faults.fail()),
        }
    }

    fn sync(&mut self) -> Result<(), Trouble> {
        match self.sync_all() {
            Ok(()) => Ok(()),
            Err(_) => Err(self.faults.fail()),
        }
    }
}
