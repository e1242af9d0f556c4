//! What no clause says: that calls succeed, and the images of a crash byte by byte.

ghost use Rattle.std.specs.Prelude.{◌≡◌, ◌+◌, ◌≤◌, [], ◌∷◌, ◌++◌, length, IfOk};
ghost use Rattle.dbn_disk.specs.MemState.{fresh};

use crate::{Gate, append, close_first, fill, gate_at, open_first, read_some, write_through};
use dbn_disk::{Disk, ImagePick, MemDisk};
use dbn_io::{Bytes, Calls, Trouble};
use std::alloc::{AllocError, Global};
use std::mem;
use std::test::Fail;

// A store of a net with one token, up to the gate at place 82: an open first byte, the mark, the generation and two more
// numbers, the length of the net, and the net.
const FRONT: &[u8; 82] =
    b"\xdbDBN1\0\0\0\0\0\0\0\x01\0\0\0\0\0\0\0\0\0\0\0\0\0\0\0\0\0\0\0\x31(place P)\n(transition go (in P (1)))\n(token P 1)\n";

// The record with a body of two zeros, and the gate behind it.
const RECORD: &[u8; 8] = b"\xdb\0\0\0\x02\0\0\0";

// The front of the store, and these bytes behind it.
fn file(alloc: Global, behind: &[u8]) -> Result<Vec<u8>, AllocError>
    ensures bytes { IfOk result (λ bytes. bytes.items ≡ FRONT.now ++ behind.now) }
    ensures len { IfOk result (λ bytes. length bytes.items ≡ 82 + length behind.now) }
{
    let mut bytes = FRONT.as_slice().to_vec(alloc)?;
    bytes.extend_from_slice(behind)?;
    Ok(bytes)
}

fn memory(alloc: Global, bytes: &[u8]) -> Result<MemDisk, AllocError>
    ensures { IfOk result (λ disk. disk ≡ fresh bytes.now []) }
{
    let bytes = Bytes::from_vec(bytes.to_vec(alloc)?);
    let disk = MemDisk::new(alloc, bytes, Calls::from_vec(Vec::new(alloc)))?;
    Ok(disk)
}

// The image of this moment whose length is nearest to `len`, with this byte at each free place.
fn image(
    alloc: Global,
    disk: &MemDisk,
    moment: u64,
    loose: u8,
    len: u64,
) -> Result<MemDisk, AllocError> {
    let loose = Bytes::from_vec([loose; 99].to_vec(alloc)?);
    disk.image(alloc, &ImagePick { moment, len, loose })
}

// What is found at the gate behind the front of the store.
#[derive(Clone, Copy, Debug, PartialEq)]
enum AtGate {
    Shut,
    Record,
    Torn,
    Other,
}

fn at_gate(alloc: Global, disk: &mut MemDisk) -> AtGate {
    let mut front = [0; 82];
    if disk.read(0, &mut front) != Ok(82) || front.as_slice() != FRONT.as_slice() {
        return AtGate::Other;
    }
    match gate_at(alloc, disk, 82) {
        Ok(Gate::Shut) => AtGate::Shut,
        Ok(Gate::Held { body, after }) => match gate_at(alloc, disk, after) {
            Ok(Gate::Shut) if after == 89 && body.as_slice() == [0, 0].as_slice() => AtGate::Record,
            _ => AtGate::Other,
        },
        Ok(Gate::Torn) => AtGate::Torn,
        Err(_) => AtGate::Other,
    }
}

#[test]
fn gates_are_told_apart(rt: HostRuntime) -> Result<(), Fail> {
    let alloc = rt.alloc();
    let rows: [(&[u8], AtGate); 4] = [
        (b"\xdb\0\0\0\x02\0\0\0", AtGate::Record),
        (b"\xdb\0\0\0\x02\0\0", AtGate::Torn),
        (b"", AtGate::Torn),
        (b"\x17\0\0\0\x02\0\0\0", AtGate::Shut),
    ];
    for (behind, wanted) in rows {
        let mut disk = memory(alloc, file(alloc, behind)?.as_slice())?;
        assert_eq!(rt; at_gate(alloc, &mut disk), wanted);
    }
    Ok(())
}

// The store with a shut gate, to which the record was appended.
fn with_record(alloc: Global) -> Result<(MemDisk, Result<u64, Trouble>), AllocError> {
    let bytes = file(alloc, &[0])?;
    let mut disk = memory(alloc, bytes.as_slice())?;
    let end = append(alloc, &mut disk, 82, &[0, 0]);
    Ok((disk, end))
}

// Whether the shortest and the longest image of this moment, with this byte at each free place, have these lengths, and
// this is found at the gate of both.
fn both_find(
    alloc: Global,
    disk: &MemDisk,
    moment: u64,
    loose: u8,
    lens: (u64, u64),
    wanted: AtGate,
) -> Result<bool, AllocError> {
    let mut short = image(alloc, disk, moment, loose, 0)?;
    let mut long = image(alloc, disk, moment, loose, 99)?;
    Ok(
        short.len() == Ok(lens.0)
            && long.len() == Ok(lens.1)
            && at_gate(alloc, &mut short) == wanted
            && at_gate(alloc, &mut long) == wanted,
    )
}

// A crash at each moment: the least and the greatest length that it may leave, and what is found at the gate with loose
// bytes 00, db and 17.
#[test]
fn each_image_of_an_append_is_without_the_record_or_with_it(rt: HostRuntime) -> Result<(), Fail> {
    let alloc = rt.alloc();
    let (disk, end) = with_record(alloc)?;
    assert_eq!(rt; end, Ok(89));
    let rows: [(u64, (u64, u64), AtGate, AtGate, AtGate); 5] = [
        (0, (83, 83), AtGate::Shut, AtGate::Shut, AtGate::Shut),
        (1, (83, 90), AtGate::Shut, AtGate::Shut, AtGate::Shut),
        (2, (90, 90), AtGate::Shut, AtGate::Shut, AtGate::Shut),
        (3, (90, 90), AtGate::Shut, AtGate::Record, AtGate::Shut),
        (4, (90, 90), AtGate::Record, AtGate::Record, AtGate::Record),
    ];
    for (moment, lens, zero, open, other) in rows {
        assert!(rt; both_find(alloc, &disk, moment, 0x00, lens, zero)?);
        assert!(rt; both_find(alloc, &disk, moment, 0xDB, lens, open)?);
        assert!(rt; both_find(alloc, &disk, moment, 0x17, lens, other)?);
    }
    Ok(())
}

// The store with a shut gate, made over a file with these bytes.
fn made(alloc: Global, old: &[u8]) -> Result<(MemDisk, Result<(), Trouble>), AllocError> {
    let mut disk = memory(alloc, old)?;
    let bytes = file(alloc, &[0])?;
    let answer = make(alloc, &mut disk, &bytes.as_slice()[1..]);
    Ok((disk, answer))
}

fn make(alloc: Global, disk: &mut MemDisk, rest: &[u8]) -> Result<(), Trouble>
    requires unused { disk.old ≡ fresh disk.old.first [] }
    requires room { length rest.now ≤ 99 }
{
    close_first(alloc, disk)?;
    fill(alloc, disk, rest)?;
    open_first(alloc, disk)?;
    Ok(())
}

// What a file stands for; one whose first byte is shut, or has nothing behind it, is no store.
#[derive(Clone, Copy, Debug, PartialEq)]
enum Left {
    NoStore,
    Old,
    New,
    Other,
}

fn stands_for(alloc: Global, disk: &mut MemDisk, old: &[u8]) -> Result<Left, AllocError> {
    let mut buffer = [0; 99];
    let count = disk.read(0, &mut buffer).unwrap_or(0);
    let bytes = &buffer[..count];
    let new = file(alloc, &[0])?;
    if count < 2 || bytes[0] != 0xDB {
        Ok(Left::NoStore)
    } else if bytes == old {
        Ok(Left::Old)
    } else if bytes == new.as_slice() {
        Ok(Left::New)
    } else {
        Ok(Left::Other)
    }
}

// Whether the shortest and the longest image of this moment, with this byte at each free place, both stand for this.
fn both_leave(
    alloc: Global,
    disk: &MemDisk,
    moment: u64,
    loose: u8,
    old: &[u8],
    wanted: Left,
) -> Result<bool, AllocError> {
    let mut short = image(alloc, disk, moment, loose, 0)?;
    let mut long = image(alloc, disk, moment, loose, 99)?;
    Ok(
        stands_for(alloc, &mut short, old)? == wanted
            && stands_for(alloc, &mut long, old)? == wanted,
    )
}

// A crash at each moment while a store is made over an open one, with loose bytes 00, db and 17.
#[test]
fn no_old_content_comes_back_while_a_file_is_made(rt: HostRuntime) -> Result<(), Fail> {
    let alloc = rt.alloc();
    let old = file(alloc, RECORD.as_slice())?;
    let (disk, answer) = made(alloc, old.as_slice())?;
    assert_eq!(rt; answer, Ok(()));
    let rows: [(u64, Left, Left, Left); 8] = [
        (0, Left::Old, Left::Old, Left::Old),
        (1, Left::NoStore, Left::Old, Left::NoStore),
        (2, Left::NoStore, Left::NoStore, Left::NoStore),
        (3, Left::NoStore, Left::NoStore, Left::NoStore),
        (4, Left::NoStore, Left::NoStore, Left::NoStore),
        (5, Left::NoStore, Left::NoStore, Left::NoStore),
        (6, Left::NoStore, Left::New, Left::NoStore),
        (7, Left::New, Left::New, Left::New),
    ];
    for (moment, zero, open, other) in rows {
        assert!(rt; both_leave(alloc, &disk, moment, 0x00, old.as_slice(), zero)?);
        assert!(rt; both_leave(alloc, &disk, moment, 0xDB, old.as_slice(), open)?);
        assert!(rt; both_leave(alloc, &disk, moment, 0x17, old.as_slice(), other)?);
    }
    Ok(())
}

// A disk that tells nothing and counts the calls on it. What is read is always the front of a record with a body of one
// byte.
#[derive(Drop)]
struct CountingDisk {
    calls: u64,
}

impl CountingDisk {
    fn count(&mut self) {
        self.calls = self.calls.saturating_add(1);
    }

    // How many calls there were since this was asked last.
    fn take_calls(&mut self) -> u64 {
        mem::take(&mut self.calls)
    }
}

impl Disk for CountingDisk {
    ghost use Rattle.dbn_disk.specs.Untold.{untold_state};

    ghost state = { λ disk. untold_state 0 };

    ghost sound = { λ disk honest. cc };

    fn len(&mut self) -> Result<u64, Trouble> {
        self.count();
        Ok(99)
    }

    fn read(&mut self, at: u64, into: &mut [u8]) -> Result<usize, Trouble> {
        self.count();
        let count = into.len().min(5);
        into[..count].copy_from_slice(&RECORD_OF_ONE[..count]);
        Ok(count)
    }

    fn write_at(&mut self, at: u64, bytes: &[u8]) -> Result<(), Trouble> {
        self.count();
        Ok(())
    }

    fn cut(&mut self, to: u64) -> Result<(), Trouble> {
        self.count();
        Ok(())
    }

    fn sync(&mut self) -> Result<(), Trouble> {
        self.count();
        Ok(())
    }
}

const RECORD_OF_ONE: &[u8; 5] = b"\xdb\0\0\0\x01";

#[test]
fn each_call_makes_four_device_calls_at_most(rt: HostRuntime) -> Result<(), Fail> {
    let alloc = rt.alloc();
    let mut disk = CountingDisk { calls: 0 };
    assert!(rt; matches!(gate_at(alloc, &mut disk, 0), Ok(Gate::Held { .. })));
    assert_eq!(rt; disk.take_calls(), 3);
    assert!(rt; read_some(alloc, &mut disk, 0, 5).is_ok());
    assert_eq!(rt; disk.take_calls(), 1);
    assert_eq!(rt; write_through(&mut disk, 0, &[1]), Ok(()));
    assert_eq!(rt; disk.take_calls(), 2);
    assert_eq!(rt; append(alloc, &mut disk, 7, &[1]), Ok(13));
    assert_eq!(rt; disk.take_calls(), 4);
    assert_eq!(rt; close_first(alloc, &mut disk), Ok(()));
    assert_eq!(rt; disk.take_calls(), 3);
    assert_eq!(rt; fill(alloc, &mut disk, &[1]), Ok(()));
    assert_eq!(rt; disk.take_calls(), 3);
    assert_eq!(rt; open_first(alloc, &mut disk), Ok(()));
    assert_eq!(rt; disk.take_calls(), 2);
    Ok(())
}
