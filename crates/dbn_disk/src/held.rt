//! The bytes that a disk in memory holds.

ghost use Rattle.std.specs.Prelude.{◌≡◌, ◌+◌, ◌<◌, ◌≤◌, ◌^◌, cond, [], ◌∷◌, ◌++◌, length, take, Ok, Err, IfOk, OnOk, vec_len, vec_capacity};
ghost use Rattle.dbn_io.specs.declared.trouble.Trouble.{Trouble};
ghost use Rattle.dbn_disk.specs.Disk.{padded, written};
ghost use Rattle.dbn_disk.specs.declared.log.Call.{Call};

use crate::log::Call;
use dbn_io::{Bytes, Trouble};
use std::alloc::{AllocError, Global};

/// Room for `end` bytes in all.
pub fn room_for(held: &mut Vec<u8>, end: usize) -> Result<(), AllocError>
    ensures items { held.new.items ≡ held.old.items }
    ensures len { vec_len held.new ≡ vec_len held.old }
    ensures room { OnOk result (end ≤ vec_capacity held.new) }
{
    held.reserve(end.saturating_sub(held.len()))?;
    Ok(())
}

// Zeros behind, up to `end` bytes in all.
fn widen(held: &mut Vec<u8>, end: usize)
    requires { end ≤ vec_capacity held.old }
    ensures { held.new.items ≡ padded end held.old.items }
{
    let wide = end.max(held.len());
    match held.resize(wide, 0) {
        Ok(()) => {}
        Err(_) => unreachable!(),
    }
}

/// Puts `bytes` in from `at` on.
pub fn put(held: &mut Vec<u8>, at: usize, bytes: &[u8])
    requires end { at + length bytes.now < 2 ^ 64 }
    requires room { at + length bytes.now ≤ vec_capacity held.old }
    ensures { held.new.items ≡ written at bytes.now held.old.items }
{
    let end = at + bytes.len();
    widen(held, end);
    held[at..end].copy_from_slice(bytes);
}

/// Puts `bytes` in from `at` on, where that is to be done.
pub fn put_if(held: &mut Vec<u8>, at: usize, bytes: &[u8], done: bool)
    requires end { at + length bytes.now < 2 ^ 64 }
    requires room { at + length bytes.now ≤ vec_capacity held.old }
    ensures { held.new.items ≡ cond done (written at bytes.now held.old.items) held.old.items }
{
    if done {
        put(held, at, bytes);
    }
}

/// Drops what is held from `to` on, where that is to be done.
pub fn cut_if(held: &mut Vec<u8>, to: u64, done: bool)
    ensures { held.new.items ≡ cond done (take to held.old.items) held.old.items }
{
    if done {
        held.truncate(to as usize);
    }
}

/// A copy of `bytes`, with room for it in `held`, from `at` on, and for two more calls.
pub fn prepare(
    alloc: Global,
    held: &mut Vec<u8>,
    calls: &mut Vec<Call>,
    at: usize,
    bytes: &[u8],
) -> Result<Bytes, AllocError>
    requires { at + length bytes.now < 2 ^ 64 }
    ensures copy { IfOk result (λ copy. copy ≡ bytes.now) }
    ensures held { held.new.items ≡ held.old.items }
    ensures room { OnOk result (at + length bytes.now ≤ vec_capacity held.new) }
    ensures calls { calls.new.items ≡ calls.old.items }
    ensures count { vec_len calls.new ≡ vec_len calls.old }
    ensures more { OnOk result (vec_len calls.new + 2 ≤ vec_capacity calls.new) }
    ensures capacity { vec_capacity calls.old ≤ vec_capacity calls.new }
{
    let copy = bytes.to_vec(alloc)?;
    room_for(held, at + bytes.len())?;
    calls.reserve(2)?;
    Ok(Bytes::from_vec(copy))
}

/// Notes a call, for which there is room.
pub fn note(calls: &mut Vec<Call>, call: Call)
    requires { vec_len calls.old < vec_capacity calls.old }
    ensures items { calls.new.items ≡ calls.old.items ++ call ∷ [] }
    ensures count { vec_len calls.new ≡ vec_len calls.old + 1 }
    ensures capacity { vec_capacity calls.old ≤ vec_capacity calls.new }
{
    match calls.push(call) {
        Ok(()) => {}
        Err(_) => unreachable!(),
    }
}

/// The answer of a call that was done, or wasn't.
pub fn outcome(done: bool) -> Result<(), Trouble>
    ensures { result ≡ cond done (Ok tt) (Err Trouble.Failed) }
{
    if done { Ok(()) } else { Err(Trouble::Failed) }
}
