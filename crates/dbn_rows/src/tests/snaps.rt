//! What a crash leaves at each moment of a call.

use crate::tests::crashes::{Ask, all_snapped, always_answers};
use crate::tests::pieces::{add_piece, named};
use crate::tests::runs::{Given, WIDE};
use std::alloc::Global;
use std::process::Abort;
use std::test::Fail;

// A firing is written behind the gate, synced, the gate is opened, and synced.
const FIRING: &str = "
0 00 committed
0 db committed
0 17 committed
1 00 committed
1 db committed
1 17 committed
2 00 committed
2 db committed
2 17 committed
3 00 committed
3 db disabled
3 17 committed
4 00 disabled
4 db disabled
4 17 disabled
";

// A new file is shut, synced, cut, filled, synced, opened, and synced.
const MADE: &str = "
0 db not-made
1 00 not-made
1 db not-made
1 17 not-made
2 db not-made
3 db not-made
4 00 not-made
4 db not-made
4 17 not-made
5 db not-made
6 00 not-made
6 db committed
6 17 not-made
7 00 committed
7 db committed
7 17 committed
";

// Where no store was made, one is made.
const MADE_AGAIN: &str = "
0 db made
1 00 made
1 db made
1 17 made
2 db made
3 db made
4 00 made
4 db made
4 17 made
5 db made
6 00 made
6 db exists
6 17 made
7 00 exists
7 db exists
7 17 exists
";

// The first file of the net with one token, and this behind its text.
fn first_file(alloc: Global, behind: &str) -> Result<Vec<u8>, Fail> {
    let mut file = Vec::new(alloc);
    let header = "db 44424e32 0000000000000001 0000000000000000 0000000000000000 00000031";
    add_piece(alloc, &mut file, b"x", header)?;
    add_piece(alloc, &mut file, b"$", "one-token")?;
    add_piece(alloc, &mut file, b"x", behind)?;
    Ok(file)
}

// The second file of a checkpoint behind its firing.
fn second_file(alloc: Global) -> Result<Vec<u8>, Fail> {
    let mut file = Vec::new(alloc);
    let header = "db 44424e32 0000000000000002 0000000000000001 0000000000000000 00000025";
    add_piece(alloc, &mut file, b"x", header)?;
    add_piece(alloc, &mut file, b"$", "no-token")?;
    add_piece(alloc, &mut file, b"x", "00")?;
    Ok(file)
}

#[test]
fn a_crash_leaves_a_firing_or_none(rt: HostRuntime) -> Result<(), Fail> {
    let alloc = rt.alloc();
    let a = first_file(alloc, "00")?;
    let given = Given {
        words: "run",
        sizes: WIDE,
        net: b"",
        commands: b"fire go\n",
        a: a.as_slice(),
        b: b"",
    };
    let ask = Ask {
        words: "run",
        net: b"",
        commands: b"fire go\n",
    };
    all_snapped(&rt, alloc, &given, &ask, FIRING)
}

// A store is made, and a call of this word is made on what a crash leaves.
fn made(rt: &impl Abort, alloc: Global, words: &str, table: &str) -> Result<(), Fail> {
    let net = named("one-token")?.as_bytes();
    let given = Given {
        words: "new",
        sizes: WIDE,
        net,
        commands: b"",
        a: b"",
        b: b"",
    };
    let ask = Ask {
        words,
        net,
        commands: b"fire go\n",
    };
    all_snapped(rt, alloc, &given, &ask, table)
}

#[test]
fn a_crash_leaves_a_store_or_none(rt: HostRuntime) -> Result<(), Fail> {
    made(&rt, rt.alloc(), "run", MADE)?;
    made(&rt, rt.alloc(), "new", MADE_AGAIN)
}

// A checkpoint is made over these files, and every image has no token and one firing.
fn kept(rt: &impl Abort, alloc: Global, a: &[u8], b: &[u8]) -> Result<(), Fail> {
    let given = Given {
        words: "run",
        sizes: WIDE,
        net: b"",
        commands: b"checkpoint\n",
        a,
        b,
    };
    let ask = Ask {
        words: "run",
        net: b"",
        commands: b"marking P\nfire go\n",
    };
    always_answers(rt, alloc, &given, &ask, "fired")
}

#[test]
fn a_crash_in_a_checkpoint_changes_nothing(rt: HostRuntime) -> Result<(), Fail> {
    let alloc = rt.alloc();
    let a = first_file(alloc, "db 00000004 0001 0000 00")?;
    let b = second_file(alloc)?;
    kept(&rt, alloc, a.as_slice(), b"")?;
    kept(&rt, alloc, a.as_slice(), b.as_slice())?;
    kept(&rt, alloc, b"", b.as_slice())
}
