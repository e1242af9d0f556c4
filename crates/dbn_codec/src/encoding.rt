//! Members as bytes.

ghost use Rattle.std.specs.Prelude.{◌≡◌, ◌++◌, ◌<◌, ◌≤◌, ◌^◌, Some, length, All, IfOk, OnOk};
ghost use Rattle.std.specs.List.{flat_map, AllByRecursion};
ghost use Rattle.dbn_value.specs.Spelling.{IsValue};
ghost use Rattle.dbn_codec.specs.Bodies.{Shapes, value_bytes, member_bytes, member_of, body, group_body, most_members, Fits};
ghost use Rattle.dbn_codec.specs.Reading.{read_body, read_group};

use dbn_value::{Bytes, Member, Members, Row, Value, in_range};
use std::alloc::{AllocError, Global};

/// The tag of an int.
pub const INT_TAG: u8 = 1;

/// The tag of a text.
pub const TEXT_TAG: u8 = 2;

/// The tag of an id.
pub const ID_TAG: u8 = 3;

/// The greatest number of members of a group.
pub const MAX_MEMBERS: usize = 4096;

/// Appends the bytes of the value.
#[tactic(auto, using(crate::proofs::Texts::text_is_short), unfolding(crate::specs::Bodies::value_bytes))]
fn put_value(out: &mut Vec<u8>, value: &Value) -> Result<(), AllocError>
    ensures bytes { OnOk result (out.new.items ≡ out.old.items ++ value_bytes value.now) }
    ensures value { OnOk result (IsValue value.now) }
{
    in_range(value);
    match value {
        Value::Int(n) => {
            out.push(INT_TAG)?;
            out.extend_from_slice(&n.to_be_bytes())?;
        }
        Value::Text(text) => {
            let bytes = text.as_bytes();
            out.push(TEXT_TAG)?;
            out.extend_from_slice(&(bytes.len() as u16).to_be_bytes())?;
            out.extend_from_slice(bytes)?;
        }
        Value::Id(id) => {
            out.push(ID_TAG)?;
            out.extend_from_slice(&id.number().to_be_bytes())?;
        }
    }
    Ok(())
}

/// Appends the bytes of the values, one after the other.
fn put_row(out: &mut Vec<u8>, row: &[Value]) -> Result<(), AllocError>
    ensures bytes { OnOk result (out.new.items ≡ out.old.items ++ flat_map value_bytes row.now) }
    ensures values { OnOk result (AllByRecursion IsValue row.now) }
{
    for value in row {
        put_value(out, value)?;
    }
    Ok(())
}

/// Appends the bytes of the member of this transition and row.
#[tactic(auto, unfolding(crate::specs::Bodies::member_bytes))]
fn put_member(out: &mut Vec<u8>, t: usize, row: &Row<Value>) -> Result<(), AllocError>
    requires { t < 2 ^ 16 }
    ensures bytes { OnOk result (out.new.items ≡ out.old.items ++ member_bytes (member_of t row.now)) }
    ensures values { OnOk result (AllByRecursion IsValue row.now) }
{
    out.extend_from_slice(&(t as u16).to_be_bytes())?;
    put_row(out, row.as_slice())
}

/// Appends the bytes of the members, one after the other.
fn put_members(out: &mut Vec<u8>, members: &[Member]) -> Result<(), AllocError>
    requires { All (λ member. member.t < 2 ^ 16) members.now }
    ensures bytes { OnOk result (out.new.items ≡ out.old.items ++ flat_map member_bytes members.now) }
    ensures values { OnOk result (AllByRecursion (λ member. AllByRecursion IsValue member.row) members.now) }
{
    for member in members {
        put_member(out, member.t, &member.row)?;
    }
    Ok(())
}

/// The body of form one of this transition and row. An error is want of memory.
#[tactic(auto, using(crate::proofs::Members::member_is, crate::proofs::Members::body_again, crate::proofs::Sizes::body_size))]
pub fn encode(alloc: Global, t: usize, row: &Row<Value>) -> Result<Bytes, AllocError>
    requires { t < 2 ^ 16 }
    ensures ok { IfOk result (λ bytes. bytes ≡ body (member_of t row.now)) }
    // What is encoded is decoded as the same.
    ensures read_again { (shapes : Shapes) → Fits shapes (member_of t row.now) → IfOk result (λ bytes. read_body shapes bytes ≡ Some (member_of t row.now)) }
    ensures short { length row.now ≤ 80 → IfOk result (λ bytes. length bytes < 2 ^ 32) }
{
    let mut out = Vec::new(alloc);
    put_member(&mut out, t, row)?;
    Ok(Bytes::from_vec(out))
}

/// The body of form two of these members. An error is want of memory.
#[tactic(auto, using(crate::proofs::Members::group_is, crate::proofs::Members::group_again, crate::proofs::Sizes::group_size), unfolding(crate::specs::Bodies::group_body))]
pub fn encode_group(alloc: Global, members: &Members) -> Result<Bytes, AllocError>
    requires some { 1 ≤ length members.now }
    requires few { length members.now ≤ most_members }
    requires numbers { All (λ member. member.t < 2 ^ 16) members.now }
    ensures ok { IfOk result (λ bytes. bytes ≡ group_body members.now) }
    // What is encoded is decoded as the same.
    ensures read_again { (shapes : Shapes) → AllByRecursion (Fits shapes) members.now → IfOk result (λ bytes. read_group shapes bytes ≡ Some members.now) }
    ensures short { All (λ member. length member.row ≤ 80) members.now → IfOk result (λ bytes. length bytes < 2 ^ 32) }
{
    let mut out = Vec::new(alloc);
    out.extend_from_slice(&(members.len() as u16).to_be_bytes())?;
    put_members(&mut out, members.as_slice())?;
    Ok(Bytes::from_vec(out))
}
