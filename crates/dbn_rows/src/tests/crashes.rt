//! Tables of crashes: what a crash leaves at each moment of a call, and behind a call whose objects fail.

use crate::tests::pieces::named;
use crate::tests::runs::{Crash, Failing, Given, Left, Object, SOUND, WIDE, image, run};
use std::alloc::Global;
use std::process::Abort;
use std::test::Fail;

/// What is asked of an image: the words of the call, its net and its commands.
#[derive(Clone, Copy)]
pub(crate) struct Ask<'a> {
    pub(crate) words: &'a str,
    pub(crate) net: &'a [u8],
    pub(crate) commands: &'a [u8],
}

// The byte at free places, and the lengths of the two images.
const PICKS: [(u8, u64, u64); 6] = [
    (0x00, 0, 0),
    (0x00, 9999, 9999),
    (0xDB, 0, 9999),
    (0xDB, 9999, 9999),
    (0x17, 9999, 0),
    (0x17, 9999, 9999),
];

// What the call writes on this pair of images.
fn asked(
    alloc: Global,
    left: &Left,
    ask: &Ask,
    moment: u64,
    pick: (u8, u64, u64),
) -> Result<String, Fail> {
    let (loose, a_len, b_len) = pick;
    let at_a = Crash {
        moment,
        len: a_len,
        loose,
    };
    let at_b = Crash {
        moment,
        len: b_len,
        loose,
    };
    let a = image(alloc, &left.a, at_a)?;
    let b = image(alloc, &left.b, at_b)?;
    let given = Given {
        words: ask.words,
        sizes: WIDE,
        net: ask.net,
        commands: ask.commands,
        a: a.as_slice(),
        b: b.as_slice(),
    };
    let left = run(alloc, &given, &SOUND)?;
    Ok(left.written)
}

// Whether this is the text of one of the names, which blanks part.
fn is_among(written: &str, names: &str) -> Result<bool, Fail> {
    for name in names.split_whitespace() {
        if named(name)? == written {
            return Ok(true);
        }
    }
    Ok(false)
}

// On each pair of images of this moment, the call writes the text of one of these names.
fn images_answer(
    rt: &impl Abort,
    alloc: Global,
    left: &Left,
    ask: &Ask,
    moment: u64,
    names: &str,
) -> Result<(), Fail> {
    for pick in PICKS {
        let written = asked(alloc, left, ask, moment, pick)?;
        assert!(rt;
            is_among(written.as_str(), names)?,
            "{written} is none of {names}"
        );
    }
    Ok(())
}

/// At each of the first moments, and at the end, the call writes this text on all images.
pub(crate) fn always_answers(
    rt: &impl Abort,
    alloc: Global,
    given: &Given,
    ask: &Ask,
    name: &str,
) -> Result<(), Fail> {
    let left = run(alloc, given, &SOUND)?;
    for moment in 0..9 {
        images_answer(rt, alloc, &left, ask, moment, name)?;
    }
    images_answer(rt, alloc, &left, ask, u64::MAX, name)
}

// The loose byte of this name.
fn loose_of(name: &str) -> u8 {
    match name {
        "db" => 0xDB,
        "17" => 0x17,
        _ => 0x00,
    }
}

/// Each line has a moment, the byte at each free place, and the name of what the call writes on the shortest and on the
/// longest of these images.
pub(crate) fn all_snapped(
    rt: &impl Abort,
    alloc: Global,
    given: &Given,
    ask: &Ask,
    table: &str,
) -> Result<(), Fail> {
    let left = run(alloc, given, &SOUND)?;
    for line in table.split('\n') {
        let Some((moment, rest)) = line.split_once(' ') else {
            continue;
        };
        let (loose, name) = rest.split_once(' ').ok_or("no loose byte")?;
        let moment = moment.parse::<u64>()?;
        let loose = loose_of(loose);
        let short = asked(alloc, &left, ask, moment, (loose, 0, 0))?;
        let long = asked(alloc, &left, ask, moment, (loose, 9999, 9999))?;
        assert_eq!(rt; short.as_str(), named(name)?, "{line}");
        assert_eq!(rt; long.as_str(), named(name)?, "{line}");
    }
    Ok(())
}

// What a run has written where it stops, its status, and the names of what the next call may write.
#[derive(Clone, Copy)]
struct Stop<'t> {
    written: &'t str,
    status: u8,
    then: &'t str,
}

// The stop of a line: the status, the name of what is written, and the names of what the next call may write.
fn stop_in(line: &str) -> Result<Stop<'_>, Fail> {
    let (status, rest) = line.split_once(' ').ok_or("no status")?;
    let (name, then) = rest.split_once(' ').ok_or("no text")?;
    let written = named(name)?;
    let status = status.parse::<u8>()?;
    Ok(Stop {
        written,
        status,
        then,
    })
}

// The stop at which this was written.
fn stop_of<'t>(table: &'t str, written: &str) -> Result<Stop<'t>, Fail> {
    for line in table.split('\n') {
        if !line.is_empty() {
            let stop = stop_in(line)?;
            if stop.written == written {
                return Ok(stop);
            }
        }
    }
    Err(Fail::new("another text"))
}

/// Where so many calls of these objects fail from a number on, the run stops as one of the lines says: for each number
/// up to the first one that no call has.
pub(crate) fn always_stops(
    rt: &impl Abort,
    alloc: Global,
    given: &Given,
    objects: &[Object],
    many: u64,
    ask: &Ask,
    table: &str,
) -> Result<(), Fail> {
    for first in 0..48 {
        let failing = Failing {
            objects,
            first,
            many,
        };
        let left = run(alloc, given, &failing)?;
        let stop = stop_of(table, left.written.as_str())?;
        assert_eq!(rt; left.status, stop.status, "from call {first}");
        images_answer(rt, alloc, &left, ask, u64::MAX, stop.then)?;
        if left.status == 0 {
            return Ok(());
        }
    }
    Err(Fail::new("a call fails at every number"))
}

fn object_of(name: &str) -> Object {
    match name {
        "net" => Object::Net,
        "commands" => Object::Commands,
        "out" => Object::Out,
        "a" => Object::A,
        _ => Object::B,
    }
}

// The call of this object with this number fails, and the run stops there; nothing is pending then.
fn slips(
    rt: &impl Abort,
    alloc: Global,
    given: &Given,
    failing: &Failing,
    ask: &Ask,
    line: &str,
) -> Result<(), Fail> {
    let stop = stop_in(line)?;
    let left = run(alloc, given, failing)?;
    assert_eq!(rt;
        left.written.as_str(),
        stop.written,
        "{} {line}",
        given.words
    );
    assert_eq!(rt; left.status, stop.status, "{} {line}", given.words);
    let then = asked(alloc, &left, ask, u64::MAX, (0xDB, 9999, 9999))?;
    assert!(rt; is_among(then.as_str(), stop.then)?, "{then} behind {line}");
    Ok(())
}

/// Each line has the word of a call, the object and the number of its one call that fails, and where the run stops.
pub(crate) fn all_slip(
    rt: &impl Abort,
    alloc: Global,
    given: &Given,
    ask: &Ask,
    table: &str,
) -> Result<(), Fail> {
    for line in table.split('\n') {
        let Some((words, rest)) = line.split_once(' ') else {
            continue;
        };
        let (object, rest) = rest.split_once(' ').ok_or("no object")?;
        let (call, stop) = rest.split_once(' ').ok_or("no call")?;
        let given = Given {
            words,
            sizes: given.sizes,
            net: given.net,
            commands: given.commands,
            a: given.a,
            b: given.b,
        };
        let failing = Failing {
            objects: &[object_of(object)],
            first: call.parse::<u64>()?,
            many: 1,
        };
        slips(rt, alloc, &given, &failing, ask, stop)?;
    }
    Ok(())
}
