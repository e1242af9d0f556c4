//! What no clause says: that calls succeed.

ghost use Rattle.std.specs.Prelude.{◌≡◌, IfOk, true};

use crate::{Base, CreateFault, Form, Keeper, MemKeeper, PlainKeeper, Step};
use dbn_disk::MemDisk;
use dbn_io::{Bytes, Calls, Limits};
use std::alloc::{AllocError, Global};
use std::test::Fail;

// A base of these two numbers and this text.
fn base(alloc: Global, fired: u64, next: u64, text: &[u8]) -> Result<Base, AllocError>
    ensures { IfOk result (λ base. (base.fired ≡ fired) × (base.next ≡ next) × (base.text ≡ text.now)) }
{
    let text = text.to_vec(alloc)?;
    Ok(Base {
        fired,
        next,
        text: Bytes::from_vec(text),
    })
}

// A keeper in memory with two bodies.
fn with_bodies(alloc: Global) -> Result<MemKeeper, AllocError>
    ensures { IfOk result (λ keeper. (keeper.live ≡ true) × (keeper.generation ≡ 1)) }
{
    let first = base(alloc, 0, 0, b"net")?;
    let mut keeper = MemKeeper::new(alloc, first);
    if keeper.append(alloc, b"body").is_err() {
        return Err(AllocError);
    }
    if keeper.append(alloc, b"").is_err() {
        return Err(AllocError);
    }
    Ok(keeper)
}

#[test]
fn bodies_are_kept_in_memory(rt: HostRuntime) -> Result<(), Fail> {
    let alloc = rt.alloc();
    let mut keeper = with_bodies(alloc)?;
    assert_eq!(rt; keeper.records(), 2);
    assert_eq!(rt; keeper.form(), Form::Two);
    assert_eq!(rt; keeper.generation(), 1);
    assert!(rt; keeper.room(5) && keeper.fits(4));
    let second = base(alloc, 2, 1, b"net2")?;
    assert_eq!(rt; keeper.checkpoint(alloc, second), Ok(2));
    assert!(rt; keeper.is_live());
    Ok(())
}

#[test]
fn no_body_is_handed_out_of_memory(rt: HostRuntime) -> Result<(), Fail> {
    let alloc = rt.alloc();
    let mut keeper = with_bodies(alloc)?;
    assert!(rt; matches!(keeper.next_body(alloc), Ok(Step::End)));
    Ok(())
}

fn limits() -> Result<Limits, AllocError> {
    match Limits::new(99, 99, 99) {
        Some(limits) => Ok(limits),
        None => Err(AllocError),
    }
}

// A disk on which a store was made.
fn made(alloc: Global) -> Result<MemDisk, AllocError> {
    let nothing = Bytes::from_vec(Vec::new(alloc));
    let mut disk = MemDisk::new(alloc, nothing, Calls::from_vec(Vec::new(alloc)))?;
    let first = base(alloc, 0, 0, b"net")?;
    match PlainKeeper::create(alloc, &mut disk, &first, &limits()?) {
        Ok(()) => Ok(disk),
        Err(_) => Err(AllocError),
    }
}

fn found(alloc: Global, disk: MemDisk) -> Result<PlainKeeper<MemDisk>, AllocError> {
    match PlainKeeper::find(alloc, disk, &limits()?) {
        Ok(keeper) => Ok(keeper),
        Err(_) => Err(AllocError),
    }
}

#[test]
fn a_store_in_one_file_is_made_and_found(rt: HostRuntime) -> Result<(), Fail> {
    let alloc = rt.alloc();
    let mut keeper = found(alloc, made(alloc)?)?;
    assert!(rt; keeper.is_live());
    assert!(rt; matches!(keeper.next_body(alloc), Ok(Step::End)));
    assert!(rt; keeper.is_live() && keeper.at_end() && keeper.room(4));
    assert_eq!(rt; keeper.append(alloc, b"body"), Ok(()));
    assert!(rt; keeper.is_live());
    assert!(rt; !keeper.fits(3) && keeper.records() == 1);
    assert!(rt; found(alloc, keeper.into_disk()).is_ok());
    Ok(())
}

#[test]
fn no_store_is_made_over_another_one(rt: HostRuntime) -> Result<(), Fail> {
    let alloc = rt.alloc();
    let mut disk = made(alloc)?;
    let second = base(alloc, 0, 0, b"other")?;
    assert_eq!(rt;
        PlainKeeper::create(alloc, &mut disk, &second, &limits()?),
        Err(CreateFault::Exists)
    );
    Ok(())
}
