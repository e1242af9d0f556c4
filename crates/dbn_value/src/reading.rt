ghost use Rattle.std.specs.Prelude.{◌≡◌, ◌++◌, ◌<◌, ◌^◌, false, Option, Some, None, IfOk, IfErr, IsErr, IfSome, ◌+◌};
ghost use Rattle.std.specs.List.{list_all};
ghost use Rattle.std.specs.Char.{is_ascii_digit};
ghost use Rattle.std.specs.Option.{option_map, option_and_then};
ghost use Rattle.dbn_value.specs.Spelling.{is_number, number_below, unescaped, text_value, id_value, negative_value, natural_value, value_of_bytes, spelling};

use super::spelling::is_special;
use super::value::{ID_END, IdNo, Txt, Value, ValueFault};
use std::alloc::{AllocError, Global};
use std::str::from_utf8;

/// Whether each byte is a decimal digit.
fn are_digits(bytes: &[u8]) -> bool
    ensures { result ≡ list_all is_ascii_digit bytes.now }
{
    bytes.iter().all(|digit| digit.is_ascii_digit())
}

/// Whether the bytes are `0` alone, or decimal digits of which the first isn't 0.
#[tactic(auto, using(crate::proofs::Numbers::no_zero_first))]
fn is_number(bytes: &[u8]) -> bool
    ensures { result ≡ is_number bytes.now }
{
    match bytes {
        [] => false,
        [first, rest @ ..] => {
            if *first == b'0' {
                rest.is_empty()
            } else {
                are_digits(bytes)
            }
        }
    }
}

/// The number that the bytes write, where it is below the limit.
#[tactic(auto, using(crate::proofs::Numbers::past_limit, crate::proofs::Numbers::number_utf8))]
fn number_below(limit: u64, bytes: &[u8]) -> Option<u64>
    ensures value { result ≡ number_below limit bytes.now }
    ensures below { IfSome result (λ number. number < limit) }
{
    if !is_number(bytes) {
        return None;
    }
    match from_utf8(bytes) {
        Ok(text) => match text.parse::<u64>() {
            Ok(number) => { if number < limit { Some(number) } else { None } }
            Err(_) => None,
        },
        Err(_) => None,
    }
}

/// The text that stands escaped before a closing quote at the end of the bytes.
fn unescape(alloc: Global, bytes: &[u8]) -> Result<Option<Vec<u8>>, AllocError>
    ensures { IfOk result (λ text. option_map (λ v. v.items) text ≡ unescaped false bytes.now) }
{
    let mut text = Vec::new(alloc);
    let mut behind = false;
    for (i, byte) in bytes.iter().enumerate() {
        if behind {
            if !is_special(*byte) {
                return Ok(None);
            }
            text.push(*byte)?;
            behind = false;
        } else if *byte == b'"' {
            return Ok(if i + 1 == bytes.len() {
                Some(text)
            } else {
                None
            });
        } else if *byte == b'\\' {
            behind = true;
        } else {
            text.push(*byte)?;
        }
    }
    Ok(None)
}

/// The text that the bytes behind a quote spell.
fn read_text(alloc: Global, bytes: &[u8]) -> Result<Option<Value>, AllocError>
    ensures { IfOk result (λ value. value ≡ option_and_then text_value (unescaped false bytes.now)) }
{
    let text = match unescape(alloc, bytes)? {
        Some(text) => Txt::from_vec(text),
        None => None,
    };
    Ok(text.map(Value::Text))
}

/// The id that the bytes behind a `#` spell.
fn read_id(bytes: &[u8]) -> Option<Value>
    ensures { result ≡ option_map id_value (number_below (2 ^ 62) bytes.now) }
{
    let id = IdNo::new(number_below(ID_END, bytes)?)?;
    Some(Value::Id(id))
}

/// The int that the bytes behind a minus spell.
fn read_negative(bytes: &[u8]) -> Option<Value>
    ensures { result ≡ option_and_then negative_value (number_below (2 ^ 63 + 1) bytes.now) }
{
    let number = number_below((1 << 63) + 1, bytes)?;
    if number == 0 {
        None
    } else {
        Some(Value::Int(-(number as i128) as i64))
    }
}

/// The int from 0 on that the bytes spell.
fn read_natural(bytes: &[u8]) -> Option<Value>
    ensures { result ≡ option_map natural_value (number_below (2 ^ 63) bytes.now) }
{
    let number = number_below(1 << 63, bytes)?;
    Some(Value::Int(number as i64))
}

/// The value that the bytes spell, where they spell one.
fn spelled(alloc: Global, bytes: &[u8]) -> Result<Option<Value>, AllocError>
    ensures { IfOk result (λ value. value ≡ value_of_bytes bytes.now) }
{
    match bytes {
        [] => Ok(None),
        [first, rest @ ..] => match *first {
            b'"' => read_text(alloc, rest),
            b'#' => Ok(read_id(rest)),
            b'-' => Ok(read_negative(rest)),
            _ => Ok(read_natural(bytes)),
        },
    }
}

/// The value that the bytes spell; `Spelling` comes exactly where they spell none.
#[tactic(auto, using(crate::proofs::Spellings::spells_bytes))]
pub fn read_value(alloc: Global, bytes: &[u8]) -> Result<Value, ValueFault>
    ensures ok { IfOk result (λ value. value_of_bytes bytes.now ≡ Some value) }
    ensures written { IfOk result (λ value. spelling value ≡ bytes.now) }
    ensures none { value_of_bytes bytes.now ≡ None → IsErr result }
    ensures spelling { IfErr result (λ fault. fault ≡ ValueFault.Spelling → value_of_bytes bytes.now ≡ None) }
{
    spelled(alloc, bytes)?.ok_or(ValueFault::Spelling)
}
