//! The program `dbnet`: it works in the current folder on the files `net.dbn`, `a.dbn` and `b.dbn`, takes commands from
//! standard input and writes to standard output. It ends with the number of the status of its run.
#![tactic(auto)]

use dbn_disk::FileDisk;
use dbn_io::{LazyFileSource, Limits, StdSink, StdSource};
use dbn_top::{Status, dbnet};
use std::alloc::AllocError;
use std::env;
use std::io::ErrorKind;
use std::process::ExitCode;

// The file with the text of the net.
const NET_FILE: &str = "net.dbn";

// The two files of the store.
const FIRST_FILE: &str = "a.dbn";

const SECOND_FILE: &str = "b.dbn";

// The limits of the program, in bytes.
const LIMITS: Limits = Limits {
    input_bytes: 1 << 40,
    net_bytes: 1 << 25,
    file_bytes: 1 << 40,
};

fn main(rt: HostRuntime) -> ExitCode {
    ExitCode::from(run(&rt).code())
}

// Runs the verb that the arguments name.
fn run(rt: &HostRuntime) -> Status {
    let Ok(words) = words(rt) else {
        return Status::Memory;
    };
    let mut net = LazyFileSource::new(rt, NET_FILE);
    let mut commands = StdSource::new(rt.reader());
    let mut out = StdSink::new(rt);
    let ended = dbnet(
        rt.alloc(),
        words.as_slice(),
        &mut net,
        &mut commands,
        &mut out,
        FileDisk::new(rt, FIRST_FILE),
        FileDisk::new(rt, SECOND_FILE),
        &LIMITS,
    );
    ended.status
}

// The arguments after the program's name. Arguments that are no text are as good as none: they name no verb.
fn words(rt: &HostRuntime) -> Result<Vec<String>, AllocError> {
    let mut words = Vec::new(rt.alloc());
    let args = match env::args(rt) {
        Ok(args) => args,
        Err(error) if error.kind() == ErrorKind::OutOfMemory => return Err(AllocError),
        Err(_) => return Ok(words),
    };
    for word in args.skip(1) {
        words.push(word)?;
    }
    Ok(words)
}
