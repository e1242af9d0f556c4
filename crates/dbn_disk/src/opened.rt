//! A file that is opened under its lock.

ghost use Rattle.std.specs.Io.{ReadsAtMost};

use std::fs::{self, File, OpenOptions};
use std::io::{self, ErrorKind};
use std::os::unix::fs::FileExt;
use std::rt::Files;

/// How often a read that a signal interrupts is tried again.
const TRIES: u32 = 1000;

/// What is known of a file so far. Where it is open, its lock is held until it is closed.
#[derive(Drop)]
pub enum Opened {
    /// Nobody has looked.
    NotYet,
    /// There was none when it was looked for.
    Missing,
    /// It may be read and written, and the lock keeps all others out.
    Writable(File),
    /// It may only be read, and the lock keeps those out that may write it.
    ReadOnly(File),
}

impl Opened {
    /// The file, where it is open.
    pub fn file(&self) -> Option<&File> {
        match self {
            Opened::NotYet | Opened::Missing => None,
            Opened::Writable(file) | Opened::ReadOnly(file) => Some(file),
        }
    }
}

/// Opens the file `name` where there is one, and takes its lock. A lock that another one holds is an error.
pub fn find<R: Files<File = File>>(rt: &R, name: &str) -> io::Result<Opened> {
    let mut how = OpenOptions::new();
    how.read(true).write(true);
    match how.open(rt, name) {
        Ok(file) => {
            file.try_lock()?;
            Ok(Opened::Writable(file))
        }
        Err(error) => match error.kind() {
            ErrorKind::NotFound => Ok(Opened::Missing),
            ErrorKind::PermissionDenied | ErrorKind::ReadOnlyFilesystem => {
                let file = fs::open(rt, name)?;
                file.try_lock_shared()?;
                Ok(Opened::ReadOnly(file))
            }
            _ => Err(error),
        },
    }
}

/// Makes the file `name`, and takes its lock. A file that is there by now is an error: another one made it.
pub fn make<R: Files<File = File>>(rt: &R, name: &str) -> io::Result<Opened> {
    let file = File::create_new(rt, name)?;
    file.try_lock()?;
    Ok(Opened::Writable(file))
}

/// Reads from `at` on until the buffer is full or the file ends.
pub fn read_up_to_end(file: &File, at: u64, into: &mut [u8]) -> io::Result<usize>
    ensures bound { ReadsAtMost result into.new }
{
    let mut count = 0;
    while count < into.len() {
        match read_once(file, at.saturating_add(count as u64), &mut into[count..])? {
            0 => break,
            more => count += more,
        }
    }
    Ok(count)
}

// Some bytes from `at` on, none only where the file ends. No file has a byte past the last value of an i64.
fn read_once(file: &File, at: u64, into: &mut [u8]) -> io::Result<usize>
    ensures bound { ReadsAtMost result into.new }
{
    if at > i64::MAX as u64 {
        return Ok(0);
    }
    for _ in 0..TRIES {
        match file.read_at(into, at) {
            Err(error) if error.kind() == ErrorKind::Interrupted => {}
            answer => return answer,
        }
    }
    Err(io::Error::from(ErrorKind::Interrupted))
}

/// Writes over what is there from `at` on. A write of no bytes lengthens the file too, where it ends before `at`.
pub fn write(file: &File, at: u64, bytes: &[u8]) -> io::Result<()> {
    if bytes.is_empty() && file.metadata()?.len() < at {
        return file.set_len(at);
    }
    file.write_all_at(bytes, at)
}

/// Drops what is there from `to` on.
pub fn cut(file: &File, to: u64) -> io::Result<()> {
    if to < file.metadata()?.len() {
        file.set_len(to)?;
    }
    Ok(())
}

/// Syncs a file that may only be read. A medium that is never written knows no sync, and all of it is stable.
pub fn sync_read_only(file: &File) -> io::Result<()> {
    match file.sync_data() {
        Err(error) if error.kind() == ErrorKind::InvalidInput => Ok(()),
        answer => answer,
    }
}
