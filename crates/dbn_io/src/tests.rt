//! What no clause says: that calls succeed, and what the real objects do.

mod lines;

use crate::{
    Bytes, Calls, LazyFileSource, Limits, MemSink, MemSource, Sink, Source, StdSink, StdSource,
    Trouble, take_all, write_whole,
};
use std::alloc::Global;
use std::fs;
use std::io::Cursor;
use std::test::Fail;

fn source(alloc: Global, bytes: &[u8], fails: &[u64]) -> Result<MemSource, Fail> {
    let bytes = Bytes::from_vec(bytes.to_vec(alloc)?);
    Ok(MemSource::new(bytes, Calls::from_vec(fails.to_vec(alloc)?)))
}

#[test]
fn lists_keep_what_they_are_made_of(rt: HostRuntime) -> Result<(), Fail> {
    let bytes = Bytes::from_vec([1, 2].to_vec(rt.alloc())?);
    assert_eq!(rt; bytes.as_slice(), [1, 2].as_slice());
    assert_eq!(rt; bytes.into_vec().as_slice(), [1, 2].as_slice());
    let calls = Calls::from_vec([7].to_vec(rt.alloc())?);
    assert_eq!(rt; calls.as_slice(), [7].as_slice());
    assert_eq!(rt; calls.into_vec().as_slice(), [7].as_slice());
    Ok(())
}

#[test]
fn limits_have_bounds(rt: HostRuntime) {
    assert!(rt; Limits::new(1 << 61, 1 << 31, 1 << 61).is_some());
}

#[test]
fn a_source_in_memory_fails_at_its_calls(rt: HostRuntime) -> Result<(), Fail> {
    let mut source = source(rt.alloc(), b"abc", [1].as_slice())?;
    let mut into = [0u8; 2];
    assert_eq!(rt; source.read(&mut into), Ok(2));
    assert_eq!(rt; into, *b"ab");
    assert_eq!(rt; source.read(&mut into), Err(Trouble::Failed));
    Ok(())
}

#[test]
fn a_text_is_written_whole(rt: HostRuntime) -> Result<(), Fail> {
    let fails = Calls::from_vec([1].to_vec(rt.alloc())?);
    let mut sink = MemSink::new(rt.alloc(), fails);
    assert_eq!(rt; write_whole(&mut sink, b"ab"), Ok(()));
    assert_eq!(rt; write_whole(&mut sink, b"c"), Err(Trouble::Failed));
    assert_eq!(rt; sink.taken(), b"ab".as_slice());
    Ok(())
}

#[test]
fn a_source_is_taken_whole(rt: HostRuntime) -> Result<(), Fail> {
    let alloc = rt.alloc();
    let taken = take_all(alloc, &mut source(alloc, b"abc", [].as_slice())?, 3);
    let bytes = taken.ok().ok_or("not taken")?;
    assert_eq!(rt; bytes.as_slice(), b"abc".as_slice());
    Ok(())
}

#[test]
fn a_reader_is_a_source(rt: HostRuntime) -> Result<(), Fail> {
    let mut source = StdSource::new(Cursor::new(b"abc".as_slice()));
    let taken = take_all(rt.alloc(), &mut source, 3);
    assert_eq!(rt;
        taken.ok().ok_or("not taken")?.as_slice(),
        b"abc".as_slice()
    );
    Ok(())
}

#[test]
fn standard_output_is_a_sink(rt: HostRuntime) {
    let mut sink = StdSink::new(&rt);
    assert_eq!(rt; sink.write(b"written\n"), Ok(8));
    assert_eq!(rt; sink.write(b""), Ok(0));
}

#[test]
fn a_file_is_a_source(rt: HostRuntime) -> Result<(), Fail> {
    let mut missing = LazyFileSource::new(&rt, "missing");
    let mut into = [0u8; 2];
    assert_eq!(rt; missing.read(&mut into), Err(Trouble::Failed));
    fs::write(&rt, "abc.txt", "abc")?;
    let mut file = LazyFileSource::new(&rt, "abc.txt");
    let taken = take_all(rt.alloc(), &mut file, 3);
    assert_eq!(rt;
        taken.ok().ok_or("not taken")?.as_slice(),
        b"abc".as_slice()
    );
    Ok(())
}
