//! What a crash may have left of a disk in memory: its calls are done again, up to the moment of the crash.

ghost use Rattle.std.specs.Prelude.{◌≡◌, ℕ, ◌+◌, ◌<◌, ◌≤◌, ◌^◌, Bool, cond, List, map, max, min, length, slice_index, IfOk, OnOk};
ghost use Rattle.std.specs.List.{All, range_with_len};
ghost use Rattle.dbn_disk.specs.Images.{is_covered, settled, then_call, after_calls};
ghost use Rattle.dbn_disk.specs.MemState.{IsSized};
ghost use Rattle.dbn_disk.specs.Picked.{is_fixed, image_byte, image_of};
ghost use Rattle.dbn_disk.specs.Replays.{moment_of};

use crate::held::{cut_if, put_if, room_for};
use crate::log::Call;
use dbn_io::Bytes;
use std::alloc::{AllocError, Global};

/// Which image of a disk in memory is to be made.
#[derive(Drop)]
pub struct ImagePick {
    /// The value of the clock at which the crash comes; a value past the clock is the present one.
    pub moment: u64,
    /// The length that is asked for; the nearest permitted one is taken.
    pub len: u64,
    /// The bytes at the free places, in order; zeros stand behind them.
    pub loose: Bytes,
}

/// A moment between two calls: the bytes held, those of the last sync, the least and the greatest length since then,
/// and the ranges written since then.
#[derive(Drop)]
pub struct Replay {
    held: Vec<u8>,
    stable: Vec<u8>,
    least: usize,
    most: usize,
    covered: Vec<(u64, u64)>,
}

/// The moment after `calls` on a disk that began with `first`.
pub fn rebuild(alloc: Global, first: &[u8], calls: &[Call]) -> Result<Replay, AllocError>
    requires { All IsSized calls.now }
    ensures { IfOk result (λ replay. moment_of replay ≡ after_calls (settled first.now) calls.now) }
{
    let mut replay = Replay {
        held: first.to_vec(alloc)?,
        stable: first.to_vec(alloc)?,
        least: first.len(),
        most: first.len(),
        covered: Vec::new(alloc),
    };
    for call in calls {
        replay.step(alloc, call)?;
    }
    Ok(replay)
}

impl Replay {
    // Does one call again.
    fn step(&mut self, alloc: Global, call: &Call) -> Result<(), AllocError>
        requires { IsSized call.now }
        ensures { OnOk result (moment_of self.new ≡ then_call (moment_of self.old) call.now) }
    {
        match call {
            Call::Write { at, bytes, done } => {
                let end = *at as usize + bytes.as_slice().len();
                room_for(&mut self.held, end)?;
                put_if(&mut self.held, *at as usize, bytes.as_slice(), *done);
                self.most = self.most.max(end);
                self.covered.push((*at, end as u64))?;
            }
            Call::Cut { to, done } => {
                cut_if(&mut self.held, *to, *done);
                self.least = self.least.min(*to as usize);
            }
            Call::Sync => {
                self.stable = self.held.as_slice().to_vec(alloc)?;
                self.least = self.held.len();
                self.most = self.held.len();
                self.covered.clear();
            }
        }
        Ok(())
    }

    // Whether the byte at this place is the stable one.
    fn is_fixed(&self, place: usize) -> bool
        ensures { result ≡ is_fixed (moment_of self.now) place }
    {
        place < self.least && !is_covered(self.covered.as_slice(), place as u64)
    }

    /// The image of the permitted length that is nearest to `len`, whose free bytes are `loose` in order, then zeros.
    pub fn image(&self, alloc: Global, len: u64, loose: &[u8]) -> Result<Vec<u8>, AllocError>
        ensures { IfOk result (λ bytes. bytes.items ≡ image_of (moment_of self.now) len loose.now) }
    {
        let size = self.least.max(self.most.min(len as usize));
        let mut bytes = Vec::new(alloc);
        let mut free = 0;
        for place in 0..size {
            let fixed = self.is_fixed(place);
            bytes.push(pick_byte(fixed, self.stable.as_slice(), place, loose, free))?;
            free = next_free(fixed, free);
        }
        Ok(bytes)
    }
}

// Whether one of the ranges covers this place.
fn is_covered(covered: &[(u64, u64)], place: u64) -> bool
    ensures { result ≡ is_covered covered.now place }
{
    covered
        .iter()
        .any(|range| range.0 <= place && place < range.1)
}

// The byte at this index, or 0 past the end.
fn byte_or_zero(bytes: &[u8], index: usize) -> u8
    ensures { result ≡ slice_index bytes.now index }
{
    if index < bytes.len() { bytes[index] } else { 0 }
}

// A fixed byte is the stable one, another the next loose one.
fn pick_byte(fixed: bool, stable: &[u8], place: usize, loose: &[u8], free: usize) -> u8
    ensures { result ≡ cond fixed (slice_index stable.now place) (slice_index loose.now free) }
{
    if fixed {
        byte_or_zero(stable, place)
    } else {
        byte_or_zero(loose, free)
    }
}

// How many places were free, with this one.
fn next_free(fixed: bool, free: usize) -> usize
    requires { free + 1 < 2 ^ 64 }
    ensures { result ≡ free + cond fixed 0 1 }
{
    if fixed { free } else { free + 1 }
}
