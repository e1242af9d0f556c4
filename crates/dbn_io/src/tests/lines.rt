//! Lines of sources.

use super::source;
use crate::{Line, Lines, ReadStop, Source};
use std::alloc::Global;
use std::test::Fail;

// The next answer, where the lines haven't ended.
fn answer<S: Source>(
    alloc: Global,
    lines: &mut Lines,
    source: &mut S,
) -> Result<Result<Line, ReadStop>, Fail> {
    if lines.ended() {
        return Err(Fail::from("ended"));
    }
    Ok(lines.next(alloc, source))
}

fn shown(answer: &Result<Line, ReadStop>) -> &[u8] {
    match answer {
        Ok(Line::Bytes(bytes)) => bytes.as_slice(),
        Ok(Line::Long) => b"<long>",
        Ok(Line::End) => b"<end>",
        Err(ReadStop::Failed) => b"<failed>",
        Err(ReadStop::Over) => b"<over>",
        Err(ReadStop::Memory) => b"<memory>",
    }
}

#[test]
fn lines_come_whatever_their_ends(rt: HostRuntime) -> Result<(), Fail> {
    let alloc = rt.alloc();
    let mut from = source(alloc, b"a\nb\r\n\nc", [].as_slice())?;
    let mut lines = Lines::new(alloc, 9)?;
    for expected in [b"a".as_slice(), b"b", b"", b"c", b"<end>"] {
        let given = answer(alloc, &mut lines, &mut from)?;
        assert_eq!(rt; shown(&given), expected);
    }
    assert!(rt; lines.ended());
    Ok(())
}
