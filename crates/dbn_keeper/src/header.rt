//! Reading the header of a file.

ghost use Rattle.std.specs.Prelude.{◌≡◌, ◌+◌, ◌≤◌, ◌^◌, length};
ghost use Rattle.dbn_keeper.specs.Files.{opening_in, header_of, marked, number64, number32};
ghost use Rattle.dbn_keeper.specs.Reading.{IsRanged, AreRanged, numbers_in};

use crate::opening::{Form, Opening};

// What a file says by its first thirteen bytes.
pub(crate) fn opening(front: &[u8]) -> Opening
    ensures opening { result ≡ opening_in front.now }
    ensures range { IsRanged result }
{
    if front.len() >= 2 && front[0] == 0xDB {
        header_of(front)
    } else {
        Opening::NotOpen
    }
}

// What an open file says by its first bytes.
fn header_of(front: &[u8]) -> Opening
    ensures opening { result ≡ header_of front.now }
    ensures range { IsRanged result }
{
    if front.len() < 13 || front[1] != b'D' || front[2] != b'B' || front[3] != b'N' {
        return Opening::Foreign;
    }
    let generation = number64(front, 5);
    if generation < 1 || generation > 1 << 62 {
        return Opening::Foreign;
    }
    marked(front[4], generation)
}

// The form that this digit stands for, with the generation.
fn marked(digit: u8, generation: u64) -> Opening
    requires { (1 ≤ generation) × (generation ≤ 2 ^ 62) }
    ensures opening { result ≡ marked digit generation }
    ensures range { IsRanged result }
{
    if digit == b'1' {
        Opening::Marked(Form::One, generation)
    } else if digit == b'2' {
        Opening::Marked(Form::Two, generation)
    } else {
        Opening::Foreign
    }
}

// The number in the eight bytes from `at` on.
fn number64(front: &[u8], at: usize) -> u64
    requires { at + 8 ≤ length front.now }
    ensures { result ≡ number64 at front.now }
{
    let bytes = &front[at..at + 8];
    match bytes {
        [a, b, c, d, e, f, g, h] => u64::from_be_bytes([*a, *b, *c, *d, *e, *f, *g, *h]),
        _ => 0,
    }
}

// The number in the four bytes from `at` on.
fn number32(front: &[u8], at: usize) -> u32
    requires { at + 4 ≤ length front.now }
    ensures { result ≡ number32 at front.now }
{
    let bytes = &front[at..at + 4];
    match bytes {
        [a, b, c, d] => u32::from_be_bytes([*a, *b, *c, *d]),
        _ => 0,
    }
}

// The numbers of a base: two of the state, and how many bytes the text has.
#[derive(Drop)]
pub(crate) struct Numbers {
    pub fired: u64,
    pub next: u64,
    pub size: u32,
}

// The numbers in the first bytes of a file of this length, where its first gate stands in it and they are in range.
pub(crate) fn numbers_of(front: &[u8], len: u64) -> Option<Numbers>
    ensures numbers { result ≡ numbers_in front.now len }
    ensures range { AreRanged result }
{
    if front.len() < 33 {
        return None;
    }
    let fired = number64(front, 13);
    let next = number64(front, 21);
    let size = number32(front, 29);
    if 33 + size as u64 >= len || fired > 1 << 62 || next > 1 << 62 {
        return None;
    }
    Some(Numbers { fired, next, size })
}
