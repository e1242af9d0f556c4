//! The tokens of a line.

ghost use Rattle.std.specs.Prelude.{◌≡◌, ◌++◌, ◌∷◌, [], map, IfOk, OnOk};
ghost use Rattle.std.specs.List.{filter};
ghost use Rattle.dbn_command.specs.Tokens.{is_blank, after, separates, has_bytes, tokens};

use sqlite_items::Items;
use std::alloc::{AllocError, Global};

/// Where a byte of a line stands.
#[derive(Clone, Copy, Debug, Drop)]
pub(crate) enum Place {
    /// At the start of the line, or behind a blank that parts tokens.
    Between,
    /// In a token, outside a text.
    Inside,
    /// In a text.
    Quoted,
    /// In a text, behind a backslash that isn't escaped.
    Escaped,
}

/// Whether the byte is a space or a tab.
fn is_blank(byte: u8) -> bool
    ensures { result ≡ is_blank byte }
{
    byte == b' ' || byte == b'\t'
}

impl Place {
    /// Where the bytes behind this byte stand.
    fn after(self, byte: u8) -> Place
        ensures { result ≡ after self byte }
    {
        match self {
            Place::Between => {
                if is_blank(byte) {
                    Place::Between
                } else if byte == b'"' {
                    Place::Quoted
                } else {
                    Place::Inside
                }
            }
            Place::Inside => {
                if is_blank(byte) {
                    Place::Between
                } else {
                    Place::Inside
                }
            }
            Place::Quoted => {
                if byte == b'"' {
                    Place::Inside
                } else if byte == b'\\' {
                    Place::Escaped
                } else {
                    Place::Quoted
                }
            }
            Place::Escaped => Place::Quoted,
        }
    }

    /// Whether the byte parts tokens.
    fn separates(self, byte: u8) -> bool
        ensures { result ≡ separates self byte }
    {
        match self {
            Place::Between => is_blank(byte),
            Place::Inside => is_blank(byte),
            Place::Quoted => false,
            Place::Escaped => false,
        }
    }
}

/// Appends the part, unless it is empty.
fn add_part<'a>(found: &mut Items<&'a [u8]>, part: &'a [u8]) -> Result<(), AllocError>
    ensures { OnOk result (map (λ token. token.now) found.new ≡ map (λ token. token.now) found.old ++ filter has_bytes (part.now ∷ [])) }
{
    if !part.is_empty() {
        found.push(part)?;
    }
    Ok(())
}

/// The tokens of the line, as parts of it.
pub(crate) fn tokens<'a>(alloc: Global, line: &'a [u8]) -> Result<Items<&'a [u8]>, AllocError>
    ensures { IfOk result (λ found. map (λ token. token.now) found ≡ tokens line.now) }
{
    let mut found = Items::new(alloc);
    let mut place = Place::Between;
    let mut start = 0;
    for (i, byte) in line.iter().enumerate() {
        if place.separates(*byte) {
            add_part(&mut found, &line[start..i])?;
            start = i + 1;
        }
        place = place.after(*byte);
    }
    add_part(&mut found, &line[start..])?;
    Ok(found)
}
