//! What no clause says: that calls succeed, and what a real file does.

use crate::{ClosedDisk, Disk, FileDisk, ImagePick, MemDisk};
use dbn_io::{Bytes, Calls, Trouble};
use std::alloc::Global;
use std::fs::{self, Permissions};
use std::os::unix::fs::PermissionsExt;
use std::test::Fail;

fn memory(alloc: Global, bytes: &[u8], fails: &[u64]) -> Result<MemDisk, Fail> {
    let bytes = Bytes::from_vec(bytes.to_vec(alloc)?);
    Ok(MemDisk::new(alloc, bytes, Calls::from_vec(fails.to_vec(alloc)?))?)
}

// Whether a disk holds these bytes, at most 16.
fn holds<D: Disk>(disk: &mut D, bytes: &[u8]) -> bool {
    let mut buffer = [0; 16];
    let count = disk.read(0, &mut buffer).unwrap_or(16);
    disk.len() == Ok(bytes.len() as u64) && &buffer[..count] == bytes
}

// Every call on any disk, at a closed one.
fn fails_in_each<D: Disk>(disk: &mut D) -> bool {
    let mut buffer = [0; 4];
    disk.len() == Err(Trouble::Failed)
        && disk.read(0, &mut buffer) == Err(Trouble::Failed)
        && disk.write_at(0, &[1]) == Err(Trouble::Failed)
        && disk.cut(0) == Err(Trouble::Failed)
        && disk.sync() == Err(Trouble::Failed)
}

#[test]
fn a_closed_disk_fails(rt: HostRuntime) -> Result<(), Fail> {
    assert!(rt; fails_in_each(&mut ClosedDisk::new()));
    Ok(())
}

#[test]
fn a_disk_in_memory_holds_what_is_written(rt: HostRuntime) -> Result<(), Fail> {
    let mut disk = memory(rt.alloc(), b"abc", [].as_slice())?;
    assert_eq!(rt; disk.write_at(5, b"xy"), Ok(()));
    assert!(rt; holds(&mut disk, b"abc\0\0xy"));
    assert_eq!(rt; disk.cut(6), Ok(()));
    assert_eq!(rt; disk.sync(), Ok(()));
    assert!(rt; holds(&mut disk, b"abc\0\0x"));
    Ok(())
}

// What stands after a write of two bytes at place 1 of three and a cut to 2, at each moment, with loose bytes.
#[test]
fn images_have_the_bytes_that_are_picked(rt: HostRuntime) -> Result<(), Fail> {
    let alloc = rt.alloc();
    let mut disk = memory(alloc, b"abc", [].as_slice())?;
    assert_eq!(rt; disk.write_at(1, b"xyz"), Ok(()));
    assert_eq!(rt; disk.cut(2), Ok(()));
    assert_eq!(rt; disk.sync(), Ok(()));
    let rows: [(u64, u64, &[u8]); 7] = [
        (0, 9, b"abc"),
        (1, 0, b"a12"),
        (1, 9, b"a123"),
        (2, 0, b"a1"),
        (2, 3, b"a12"),
        (3, 9, b"ax"),
        (9, 0, b"ax"),
    ];
    for (moment, len, bytes) in rows {
        let loose = Bytes::from_vec(b"123".to_vec(alloc)?);
        let pick = ImagePick { moment, len, loose };
        assert!(rt; holds(&mut disk.image(alloc, &pick)?, bytes));
    }
    Ok(())
}

#[test]
fn a_file_is_a_disk(rt: HostRuntime) -> Result<(), Fail> {
    let mut disk = FileDisk::new(&rt, "disk.bin");
    assert!(rt; holds(&mut disk, b""));
    assert_eq!(rt; disk.write_at(2, b"abc"), Ok(()));
    assert_eq!(rt; disk.sync(), Ok(()));
    assert!(rt; holds(&mut disk, b"\0\0abc"));
    assert_eq!(rt; disk.cut(3), Ok(()));
    assert_eq!(rt; disk.write_at(5, b""), Ok(()));
    assert_eq!(rt; disk.write_at(1, b""), Ok(()));
    assert_eq!(rt; disk.sync(), Ok(()));
    drop(disk);
    assert!(rt; holds(&mut FileDisk::new(&rt, "disk.bin"), b"\0\0a\0\0"));
    assert_eq!(rt;
        FileDisk::new(&rt, "no_folder/disk.bin").write_at(0, b"a"),
        Err(Trouble::Failed)
    );
    Ok(())
}

// Three disks over one file: the first makes it, the second comes later, the third had found none.
#[test]
fn one_disk_at_a_time_has_a_file(rt: HostRuntime) -> Result<(), Fail> {
    let mut first = FileDisk::new(&rt, "shared.bin");
    let mut second = FileDisk::new(&rt, "shared.bin");
    let mut third = FileDisk::new(&rt, "shared.bin");
    assert!(rt; holds(&mut third, b""));
    assert_eq!(rt; first.write_at(0, b"abc"), Ok(()));
    assert!(rt; fails_in_each(&mut second));
    assert_eq!(rt; third.write_at(0, b"x"), Err(Trouble::Failed));
    drop(first);
    assert_eq!(rt; third.write_at(0, b"x"), Err(Trouble::Failed));
    assert!(rt; holds(&mut second, b"abc"));
    Ok(())
}

// Root may write it all the same.
#[test]
fn a_file_that_may_only_be_read_is_read(rt: HostRuntime) -> Result<(), Fail> {
    let mut disk = FileDisk::new(&rt, "kept.bin");
    assert_eq!(rt; disk.write_at(0, b"abc"), Ok(()));
    drop(disk);
    fs::set_permissions(&rt, "kept.bin", Permissions::from_mode(0o444))?;
    let mut kept = FileDisk::new(&rt, "kept.bin");
    assert!(rt; holds(&mut kept, b"abc"));
    assert_eq!(rt; kept.sync(), Ok(()));
    Ok(())
}
