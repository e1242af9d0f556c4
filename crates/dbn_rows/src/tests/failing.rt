//! Calls whose objects fail: where they stop, and what a crash leaves then.

use crate::tests::crashes::{Ask, all_slip, always_stops};
use crate::tests::pieces::{add_piece, named};
use crate::tests::runs::{Given, Object, WIDE};
use std::alloc::Global;
use std::process::Abort;
use std::test::Fail;

// A run stops behind the replies of some first lines; the next line may have been recorded.
const RUN_STOPS: &str = "
7 nothing before opened
7 reply-1 opened assigned
7 replies-2 assigned taken
7 replies-6 taken
0 replies taken
";

// The making of a store stops with a store or without.
const MAKING_STOPS: &str = "
7 nothing not-made before
0 made before
";

// What only reads changes nothing.
const DUMP_STOPS: &str = "
7 nothing before
0 start before
";

// A firing with a checkpoint behind it, and a checkpoint; each image answers whether the firing is there.
const CHECKPOINT_STOPS: &str = "
7 nothing committed disabled
7 committed disabled
0 checkpoint disabled
";

// One failing call over the store.
const SLIPS: &str = "
run net 0 0 replies taken
run commands 0 5 nothing before
run commands 1 5 replies taken
run out 0 6 nothing opened
run out 1 6 reply-1 assigned
run out 2 6 replies-2 taken
run out 3 6 replies-3 taken
run out 4 6 replies-4 taken
run out 5 6 replies-5 taken
run out 6 6 replies-6 taken
run out 7 0 replies taken
run a 0 7 nothing before
run b 0 7 nothing before
check net 0 5 nothing before
check net 1 5 nothing before
check out 0 6 nothing before
check commands 0 0 accepted before
check a 0 0 accepted before
check b 0 0 accepted before
try net 0 5 nothing before
try net 1 5 nothing before
try commands 0 5 nothing before
try commands 1 5 tried before
try out 0 6 nothing before
try out 1 6 reply-1 before
try out 2 6 replies-2 before
try out 3 6 replies-3 before
try out 4 6 replies-4 before
try out 5 6 replies-5 before
try out 6 6 replies-6 before
try a 0 0 tried before
try b 0 0 tried before
new net 0 5 nothing before
new net 1 5 nothing before
new out 0 6 nothing before
new commands 0 4 exists before
new a 0 7 nothing before
new b 0 7 nothing before
dump out 0 6 nothing before
dump net 0 0 start before
dump commands 0 0 start before
dump a 0 7 nothing before
dump b 0 7 nothing before
help out 0 6 nothing before
help net 0 2 usage before
help a 0 2 usage before
";

// One failing call over two empty files.
const EARLY_SLIPS: &str = "
new net 0 5 nothing not-made
new net 1 5 nothing not-made
new out 0 6 nothing before
new commands 0 0 made before
new a 0 7 nothing not-made
new b 0 7 nothing not-made
run net 0 4 not-made not-made
run commands 0 4 not-made not-made
run out 0 6 nothing not-made
run a 0 7 nothing not-made
run b 0 7 nothing not-made
dump out 0 6 nothing not-made
dump a 0 7 nothing not-made
";

// The store of the start.
fn store(alloc: Global) -> Result<Vec<u8>, Fail> {
    let mut file = Vec::new(alloc);
    let header = "db 44424e32 0000000000000001 0000000000000000 0000000000000000 00000405";
    add_piece(alloc, &mut file, b"x", header)?;
    add_piece(alloc, &mut file, b"$", "start")?;
    add_piece(alloc, &mut file, b"x", "00")?;
    Ok(file)
}

// Any calls of both disks fail from some number on, and any one call of one disk.
fn stops(
    rt: &impl Abort,
    alloc: Global,
    given: &Given,
    ask: &Ask,
    table: &str,
) -> Result<(), Fail> {
    always_stops(rt, alloc, given, &[Object::A, Object::B], 64, ask, table)?;
    always_stops(rt, alloc, given, &[Object::A], 1, ask, table)?;
    always_stops(rt, alloc, given, &[Object::B], 1, ask, table)
}

// A call of this word, with this first file, stops so.
fn stops_at(
    rt: &impl Abort,
    alloc: Global,
    words: &str,
    a: &[u8],
    table: &str,
) -> Result<(), Fail> {
    let given = Given {
        words,
        sizes: WIDE,
        net: named("start")?.as_bytes(),
        commands: named("all")?.as_bytes(),
        a,
        b: b"",
    };
    let ask = Ask {
        words: "run",
        net: b"",
        commands: named("question")?.as_bytes(),
    };
    stops(rt, alloc, &given, &ask, table)
}

// A run over the store where so many calls of these disks fail from any number on.
fn run_stops(rt: &impl Abort, alloc: Global, objects: &[Object], many: u64) -> Result<(), Fail> {
    let a = store(alloc)?;
    let given = Given {
        words: "run",
        sizes: WIDE,
        net: b"",
        commands: named("all")?.as_bytes(),
        a: a.as_slice(),
        b: b"",
    };
    let ask = Ask {
        words: "run",
        net: b"",
        commands: named("question")?.as_bytes(),
    };
    always_stops(rt, alloc, &given, objects, many, &ask, RUN_STOPS)
}

#[test]
fn failing_disks_stop_a_run(rt: HostRuntime) -> Result<(), Fail> {
    run_stops(&rt, rt.alloc(), &[Object::A, Object::B], 64)
}

#[test]
fn one_failing_call_of_the_first_disk_stops_a_run(rt: HostRuntime) -> Result<(), Fail> {
    run_stops(&rt, rt.alloc(), &[Object::A], 1)
}

#[test]
fn one_failing_call_of_the_second_disk_stops_a_run(rt: HostRuntime) -> Result<(), Fail> {
    run_stops(&rt, rt.alloc(), &[Object::B], 1)
}

#[test]
fn a_failing_disk_stops_the_making_of_a_store(rt: HostRuntime) -> Result<(), Fail> {
    stops_at(&rt, rt.alloc(), "new", b"", MAKING_STOPS)
}

#[test]
fn a_failing_disk_stops_a_dump(rt: HostRuntime) -> Result<(), Fail> {
    let a = store(rt.alloc())?;
    stops_at(&rt, rt.alloc(), "dump", a.as_slice(), DUMP_STOPS)
}

#[test]
fn a_failing_disk_stops_a_checkpoint_behind_a_firing(rt: HostRuntime) -> Result<(), Fail> {
    let alloc = rt.alloc();
    let mut a = Vec::new(alloc);
    let header = "db 44424e32 0000000000000001 0000000000000000 0000000000000000 00000031";
    add_piece(alloc, &mut a, b"x", header)?;
    add_piece(alloc, &mut a, b"$", "one-token")?;
    add_piece(alloc, &mut a, b"x", "00")?;
    let given = Given {
        words: "run --every 1",
        sizes: WIDE,
        net: b"",
        commands: b"fire go\ncheckpoint\n",
        a: a.as_slice(),
        b: b"",
    };
    let ask = Ask {
        words: "run",
        net: b"",
        commands: b"fire go\n",
    };
    stops(&rt, alloc, &given, &ask, CHECKPOINT_STOPS)
}

// One failing call, with this first file, has these effects.
fn slips(rt: &impl Abort, alloc: Global, a: &[u8], table: &str) -> Result<(), Fail> {
    let given = Given {
        words: "",
        sizes: WIDE,
        net: named("start")?.as_bytes(),
        commands: named("all")?.as_bytes(),
        a,
        b: b"",
    };
    let ask = Ask {
        words: "run",
        net: b"",
        commands: named("question")?.as_bytes(),
    };
    all_slip(rt, alloc, &given, &ask, table)
}

#[test]
fn one_failing_call_is_told(rt: HostRuntime) -> Result<(), Fail> {
    let a = store(rt.alloc())?;
    slips(&rt, rt.alloc(), a.as_slice(), SLIPS)?;
    slips(&rt, rt.alloc(), b"", EARLY_SLIPS)
}
