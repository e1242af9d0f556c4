//! Calls that are tried again where a signal interrupted them.

ghost use Rattle.std.specs.Io.{ReadsAtMost, WritesAtMost};

use std::io::{self, ErrorKind, Read, Write};

// How often a call is tried.
const TRIES: u32 = 1000;

// One read, which is tried again while a signal interrupts it.
pub(crate) fn retried_read<R: Read>(reader: &mut R, into: &mut [u8]) -> io::Result<usize>
    ensures { ReadsAtMost result into.new }
{
    for _ in 1..TRIES {
        match reader.read(into) {
            Err(error) if error.kind() == ErrorKind::Interrupted => {}
            given => return given,
        }
    }
    reader.read(into)
}

// One write, which is tried again while a signal interrupts it.
pub(crate) fn retried_write<W: Write>(writer: &mut W, bytes: &[u8]) -> io::Result<usize>
    ensures { WritesAtMost result bytes.now }
{
    for _ in 1..TRIES {
        match writer.write(bytes) {
            Err(error) if error.kind() == ErrorKind::Interrupted => {}
            taken => return taken,
        }
    }
    writer.write(bytes)
}
