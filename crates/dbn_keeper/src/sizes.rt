//! Whether bytes end within a cap.

ghost use Rattle.std.specs.Prelude.{◌≡◌, ◌+◌, ◌^◌, ◌≤◌, length, nat_le};
ghost use Rattle.dbn_keeper.specs.Creating.{is_allowed};

use crate::base::Base;
use dbn_io::Limits;

/// Whether a body of `len` bytes behind the gate at `place`, with a gate behind it, ends within the cap.
pub fn is_within(place: u64, len: usize, cap: u64) -> bool
    requires { cap ≤ 2 ^ 61 }
    ensures { result ≡ nat_le (place + 6 + len) cap }
{
    let len = len as u64;
    len <= cap && place <= cap && place + 6 + len <= cap
}

/// Whether a new file with a text of `len` bytes ends within the cap.
pub fn text_fits(len: usize, cap: u64) -> bool
    requires { cap ≤ 2 ^ 61 }
    ensures { result ≡ nat_le (34 + len) cap }
{
    let len = len as u64;
    len <= cap && 34 + len <= cap
}

/// Whether the text of the base and a new file with it end within the limits.
pub fn is_allowed(base: &Base, limits: &Limits) -> bool
    ensures { result ≡ is_allowed limits.now.net_bytes limits.now.file_bytes (length base.now.text) }
{
    let len = base.text.as_slice().len();
    len as u64 <= limits.net_bytes && text_fits(len, limits.file_bytes)
}
