ghost use Rattle.std.specs.Prelude.{◌≡◌, ◌++◌, Some, OnOk, IfOk};
ghost use Rattle.dbn_value.specs.Spelling.{escaped, is_special, spelling, quoted, value_of_bytes, IsValue};

use super::lists::Bytes;
use super::value::Value;
use std::alloc::{AllocError, Global};

/// Whether a backslash stands before the byte in the spelling of a text.
pub(crate) fn is_special(byte: u8) -> bool
    ensures { result ≡ is_special byte }
{
    byte == b'"' || byte == b'\\'
}

/// Appends the bytes with a backslash before each quote and backslash.
fn escape_into(out: &mut Vec<u8>, bytes: &[u8]) -> Result<(), AllocError>
    ensures { OnOk result (out.new.items ≡ out.old.items ++ escaped bytes.now) }
{
    for byte in bytes {
        if is_special(*byte) {
            out.push(b'\\')?;
        }
        out.push(*byte)?;
    }
    Ok(())
}

/// The bytes of a text between quotes.
fn quote(alloc: Global, text: &[u8]) -> Result<Vec<u8>, AllocError>
    ensures { IfOk result (λ bytes. bytes.items ≡ quoted text.now) }
{
    let mut bytes = Vec::new(alloc);
    bytes.push(b'"')?;
    escape_into(&mut bytes, text)?;
    bytes.push(b'"')?;
    Ok(bytes)
}

/// The bytes of the value's spelling.
fn spelling_of(alloc: Global, value: &Value) -> Result<Vec<u8>, AllocError>
    ensures { IfOk result (λ bytes. bytes.items ≡ spelling value.now) }
{
    match value {
        Value::Int(n) => Ok(n.to_string(alloc)?.into_bytes()),
        Value::Text(text) => quote(alloc, text.as_bytes()),
        Value::Id(id) => Ok(format!(in alloc; "#{}", id.number())?.into_bytes()),
    }
}

/// Each value that exists is in the range of its type.
#[tactic(auto, using(crate::proofs::Spellings::int_value))]
pub fn in_range(value: &Value)
    ensures { IsValue value.now }
{
    match value {
        Value::Int(n) => {
            let _n = *n;
        }
        Value::Text(text) => {
            let _bytes = text.as_bytes();
        }
        Value::Id(id) => {
            let _number = id.number();
        }
    }
}

/// The one spelling of the value, which `read_value` reads as the value again. An error is want of memory.
pub fn spell(alloc: Global, value: &Value) -> Result<Bytes, AllocError>
    ensures ok { IfOk result (λ bytes. bytes ≡ spelling value.now) }
    ensures read_again { IfOk result (λ bytes. value_of_bytes bytes ≡ Some value.now) }
{
    in_range(value);
    let bytes = spelling_of(alloc, value)?;
    Ok(Bytes::from_vec(bytes))
}
