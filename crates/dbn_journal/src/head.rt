//! The first bytes of a record.

ghost use Rattle.std.specs.Prelude.{◌≡◌, ◌≤◌, length};
ghost use Rattle.dbn_journal.specs.Heads.{head_in};

/// What the gate and the length behind it say.
#[derive(Drop)]
pub enum Head {
    Shut,
    Held(u32),
    Torn,
}

/// What the first bytes from a gate on say, of which five are looked at.
pub fn head_of(bytes: &[u8]) -> Head
    ensures { result ≡ head_in bytes.now }
{
    match bytes {
        [] => Head::Torn,
        [0xDB, a, b, c, d, ..] => Head::Held(u32::from_be_bytes([*a, *b, *c, *d])),
        [0xDB, ..] => Head::Torn,
        _ => Head::Shut,
    }
}
