//! A call of the program over objects in memory.

use dbn_disk::{Disk, ImagePick, MemDisk};
use dbn_io::{Bytes, Calls, Limits, MemSink, MemSource};
use dbn_top::{Ended, dbnet};
use std::alloc::{AllocError, Global};
use std::test::Fail;

/// The most bytes of the commands, of the net and of a file.
#[derive(Clone, Copy)]
pub(crate) struct Sizes {
    pub(crate) input: u64,
    pub(crate) net: u64,
    pub(crate) file: u64,
}

/// The sizes of the program.
pub(crate) const WIDE: Sizes = Sizes {
    input: 1 << 40,
    net: 1 << 25,
    file: 1 << 40,
};

/// The objects that a call is handed.
#[derive(Clone, Copy, PartialEq, Eq)]
pub(crate) enum Object {
    Net,
    Commands,
    Out,
    A,
    B,
}

/// The calls of which objects are to fail: `many` from the number `first` on.
#[derive(Clone, Copy)]
pub(crate) struct Failing<'f> {
    pub(crate) objects: &'f [Object],
    pub(crate) first: u64,
    pub(crate) many: u64,
}

/// No call fails.
pub(crate) const SOUND: Failing<'static> = Failing {
    objects: &[],
    first: 0,
    many: 0,
};

/// What a call is given.
#[derive(Clone, Copy)]
pub(crate) struct Given<'g> {
    pub(crate) words: &'g str,
    pub(crate) sizes: Sizes,
    pub(crate) net: &'g [u8],
    pub(crate) commands: &'g [u8],
    pub(crate) a: &'g [u8],
    pub(crate) b: &'g [u8],
}

/// What a call leaves.
#[derive(Drop)]
pub(crate) struct Left {
    pub(crate) written: String,
    pub(crate) status: u8,
    pub(crate) a: MemDisk,
    pub(crate) b: MemDisk,
}

/// What a crash may leave: the moment of the clock, the length that is asked for, and the byte at each free place.
#[derive(Clone, Copy)]
pub(crate) struct Crash {
    pub(crate) moment: u64,
    pub(crate) len: u64,
    pub(crate) loose: u8,
}

// The words of a line.
fn words_of(alloc: Global, line: &str) -> Result<Vec<String>, AllocError> {
    let mut words = Vec::new(alloc);
    for word in line.split_whitespace() {
        words.push(String::from_str(alloc, word)?)?;
    }
    Ok(words)
}

fn limits_of(sizes: Sizes) -> Result<Limits, Fail> {
    match Limits::new(sizes.input, sizes.net, sizes.file) {
        Some(limits) => Ok(limits),
        None => Err(Fail::new("no limits")),
    }
}

// The numbers of the calls of this object that are to fail.
fn fails_of(alloc: Global, failing: &Failing, object: Object) -> Result<Calls, AllocError> {
    let mut calls = Vec::new(alloc);
    if failing.objects.contains(&object) {
        for call in failing.first..failing.first.saturating_add(failing.many) {
            calls.push(call)?;
        }
    }
    Ok(Calls::from_vec(calls))
}

fn source(
    alloc: Global,
    bytes: &[u8],
    failing: &Failing,
    object: Object,
) -> Result<MemSource, AllocError> {
    let bytes = Bytes::from_vec(bytes.to_vec(alloc)?);
    Ok(MemSource::new(bytes, fails_of(alloc, failing, object)?))
}

fn disk(
    alloc: Global,
    bytes: &[u8],
    failing: &Failing,
    object: Object,
) -> Result<MemDisk, AllocError> {
    let bytes = Bytes::from_vec(bytes.to_vec(alloc)?);
    let fails = fails_of(alloc, failing, object)?;
    MemDisk::new(alloc, bytes, fails)
}

/// Makes a call.
pub(crate) fn run(alloc: Global, given: &Given, failing: &Failing) -> Result<Left, Fail> {
    let words = words_of(alloc, given.words)?;
    let limits = limits_of(given.sizes)?;
    let mut net = source(alloc, given.net, failing, Object::Net)?;
    let mut commands = source(alloc, given.commands, failing, Object::Commands)?;
    let mut out = MemSink::new(alloc, fails_of(alloc, failing, Object::Out)?);
    let a = disk(alloc, given.a, failing, Object::A)?;
    let b = disk(alloc, given.b, failing, Object::B)?;
    let ended = dbnet(
        alloc,
        words.as_slice(),
        &mut net,
        &mut commands,
        &mut out,
        a,
        b,
        &limits,
    );
    ending(alloc, ended, out.taken())
}

// What is left where this was written.
fn ending(alloc: Global, ended: Ended<MemDisk>, taken: &[u8]) -> Result<Left, Fail> {
    let written = String::from_utf8(taken.to_vec(alloc)?)?;
    let Ended { status, a, b } = ended;
    Ok(Left {
        written,
        status: status.code(),
        a,
        b,
    })
}

/// The bytes that a crash leaves on the disk.
pub(crate) fn image(alloc: Global, disk: &MemDisk, crash: Crash) -> Result<Vec<u8>, Fail> {
    let loose = Bytes::from_vec(vec![in alloc; crash.loose; 2048]?);
    let pick = ImagePick {
        moment: crash.moment,
        len: crash.len,
        loose,
    };
    let mut image = disk.image(alloc, &pick)?;
    let mut bytes = vec![in alloc; 0; 4096]?;
    match image.read(0, bytes.as_mut_slice()) {
        Ok(count) => {
            bytes.truncate(count);
            Ok(bytes)
        }
        Err(_) => Err(Fail::new("not read")),
    }
}
