//! Texts and bytes that are put together.

use crate::tests::texts::TEXTS;
use std::alloc::{AllocError, Global};
use std::test::Fail;

/// The text of this name.
pub(crate) fn named(name: &str) -> Result<&'static str, Fail> {
    Ok(text_in(TEXTS, name).ok_or("no text of this name")?)
}

fn text_in<'t>(texts: &'t str, name: &str) -> Option<&'t str> {
    for part in texts.split('@') {
        if let Some((head, text)) = part.split_once('\n') {
            if head == name {
                return Some(text);
            }
        }
    }
    None
}

// Adds the bytes that the digits are, two by two. What is no digit is passed over.
fn add_hex(bytes: &mut Vec<u8>, digits: &[u8]) -> Result<(), AllocError> {
    let mut high = None;
    for byte in digits {
        let digit = match *byte {
            b'0'..=b'9' => byte.wrapping_sub(b'0'),
            b'a'..=b'f' => byte.wrapping_sub(b'a' - 10),
            _ => continue,
        };
        high = match high {
            None => Some(digit),
            Some(high) => {
                bytes.push(high << 4 | digit)?;
                None
            }
        };
    }
    Ok(())
}

// Adds the text, with the digits in place of each `%`.
fn add_numbered(bytes: &mut Vec<u8>, digits: &[u8], text: &[u8]) -> Result<(), AllocError> {
    for byte in text {
        match *byte {
            b'%' => bytes.extend_from_slice(digits)?,
            other => bytes.push(other)?,
        }
    }
    Ok(())
}

// Adds the text for each number below this one.
fn add_each(
    alloc: Global,
    bytes: &mut Vec<u8>,
    many: u64,
    text: &[u8],
    end: &[u8],
) -> Result<(), AllocError> {
    for number in 0..many {
        let digits = format!(in alloc; "{number}")?;
        add_numbered(bytes, digits.as_str().as_bytes(), text)?;
        bytes.extend_from_slice(end)?;
    }
    Ok(())
}

// Adds the text for each number below the first word, with its line feed where there is one.
fn add_all(alloc: Global, bytes: &mut Vec<u8>, rest: &str, end: &[u8]) -> Result<(), Fail> {
    let (many, text) = rest.split_once(' ').ok_or("no number")?;
    add_each(alloc, bytes, many.parse::<u64>()?, text.as_bytes(), end)?;
    Ok(())
}

/// Adds a piece: a line, a text `-` without a line feed, the text `$` of a name, bytes `x` in hexadecimal digits, so
/// many blanks `_`, or a text `*` or a line `/` for each number below the first word; the number stands in place of
/// each `%`.
pub(crate) fn add_piece(
    alloc: Global,
    bytes: &mut Vec<u8>,
    kind: &[u8],
    rest: &str,
) -> Result<(), Fail> {
    match kind {
        b"" => {
            bytes.extend_from_slice(rest.as_bytes())?;
            bytes.push(b'\n')?;
        }
        b"-" => bytes.extend_from_slice(rest.as_bytes())?,
        b"$" => bytes.extend_from_slice(named(rest)?.as_bytes())?,
        b"x" => add_hex(bytes, rest.as_bytes())?,
        b"_" => add_each(alloc, bytes, rest.parse::<u64>()?, b" ", b"")?,
        b"*" => add_all(alloc, bytes, rest, b"")?,
        b"/" => add_all(alloc, bytes, rest, b"\n")?,
        _ => return Err(Fail::new("no such piece")),
    }
    Ok(())
}
