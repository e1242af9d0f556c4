//! How much a program takes.

ghost use Rattle.std.specs.Prelude.{◌≡◌, ◌^◌, ◌<◌, ◌≤◌, ◌⊎◌, MatchOption};

/// The limits of a program, in bytes.
#[derive(Clone, Copy, Debug, PartialEq, Eq)]
pub struct Limits {
    /// The most bytes of the input that are taken, at most 2^61.
    pub input_bytes: u64,
    /// The most bytes of the text of a net, at most 2^31.
    pub net_bytes: u64,
    /// The most bytes of a file, at most 2^61.
    pub file_bytes: u64,
    pub ghost input_bound: { input_bytes ≤ 2 ^ 61 },
    pub ghost net_bound: { net_bytes ≤ 2 ^ 31 },
    pub ghost file_bound: { file_bytes ≤ 2 ^ 61 },
}

impl Limits {
    /// These limits, or `None` exactly where `net_bytes` is above 2^31, or `input_bytes` or `file_bytes` above 2^61.
    pub fn new(input_bytes: u64, net_bytes: u64, file_bytes: u64) -> Option<Limits>
        ensures { MatchOption result
            ((2 ^ 61 < input_bytes) ⊎ (2 ^ 31 < net_bytes) ⊎ (2 ^ 61 < file_bytes))
            (λ limits. (limits.input_bytes ≡ input_bytes) × (limits.net_bytes ≡ net_bytes) × (limits.file_bytes ≡ file_bytes)) }
    {
        if input_bytes > 1 << 61 || net_bytes > 1 << 31 || file_bytes > 1 << 61 {
            return None;
        }
        Some(Limits {
            input_bytes,
            net_bytes,
            file_bytes,
        })
    }
}
