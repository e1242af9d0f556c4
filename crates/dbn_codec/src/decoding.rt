//! Bytes as members.

ghost use Rattle.std.specs.Prelude.{◌≡◌, ◌≢◌, List, IfOk, IfSome, IfNone};
ghost use Rattle.std.specs.Option.{option_map};
ghost use Rattle.std.specs.Int.{w16, w64};
ghost use Rattle.dbn_value.specs.declared.member.Member.{Member as OneMember};
ghost use Rattle.dbn_codec.specs.Bodies.{body, group_body, as_member, IsMember, IsGroup};
ghost use Rattle.dbn_codec.specs.Reading.{Gives, behind, number_at, text_of, int_at, text_at, id_at, value_at, row_at, member_at, members_at, whole, read_body, read_group};

use crate::encoding::{ID_TAG, INT_TAG, MAX_MEMBERS, TEXT_TAG};
use crate::unread::Unread;
use dbn_value::{ColType, IdNo, Member, Members, Row, Shapes, Txt, Value, ValueFault};
use sqlite_items::Items;
use std::alloc::{AllocError, Global};

/// The bytes behind the tag, where it stands first.
fn behind(tag: u8, bytes: &[u8]) -> Result<&[u8], Unread>
    ensures { Gives (λ rest. rest.now) result (behind tag bytes.now) }
{
    match bytes {
        [first, rest @ ..] if *first == tag => Ok(rest),
        _ => Err(Unread::NoBody),
    }
}

/// The number in the first two bytes, and the bytes behind it.
fn u16_at(bytes: &[u8]) -> Result<(u16, &[u8]), Unread>
    ensures { Gives (λ read. (read.0, read.1.now)) result (number_at w16 bytes.now) }
{
    if bytes.len() < 2 {
        return Err(Unread::NoBody);
    }
    let (front, rest) = bytes.split_at(2);
    let number = u16::from_be_bytes([front[0], front[1]]);
    Ok((number, rest))
}

/// The number in the first eight bytes, and the bytes behind it.
fn u64_at(bytes: &[u8]) -> Result<(u64, &[u8]), Unread>
    ensures { Gives (λ read. (read.0, read.1.now)) result (number_at w64 bytes.now) }
{
    if bytes.len() < 8 {
        return Err(Unread::NoBody);
    }
    let (front, rest) = bytes.split_at(8);
    let number = u64::from_be_bytes([
        front[0], front[1], front[2], front[3], front[4], front[5], front[6], front[7],
    ]);
    Ok((number, rest))
}

/// The int at the front.
#[tactic(auto, unfolding(crate::specs::Reading::int_at))]
fn int_at(bytes: &[u8]) -> Result<(Value, &[u8]), Unread>
    ensures { Gives (λ read. (read.0, read.1.now)) result (int_at bytes.now) }
{
    let (number, rest) = u64_at(bytes)?;
    Ok((Value::Int(number.cast_signed()), rest))
}

/// The text of all the bytes.
fn text_of(alloc: Global, bytes: &[u8]) -> Result<Txt, Unread>
    ensures { Gives (λ text. text) result (text_of bytes.now) }
{
    match Txt::from_bytes(alloc, bytes) {
        Ok(text) => Ok(text),
        Err(ValueFault::Spelling) => Err(Unread::NoBody),
        Err(ValueFault::Memory) => Err(Unread::Memory),
    }
}

/// The text at the front.
#[tactic(auto, unfolding(crate::specs::Reading::text_at))]
fn text_at(alloc: Global, bytes: &[u8]) -> Result<(Value, &[u8]), Unread>
    ensures { Gives (λ read. (read.0, read.1.now)) result (text_at bytes.now) }
{
    let (size, rest) = u16_at(bytes)?;
    let size = size as usize;
    if rest.len() < size {
        return Err(Unread::NoBody);
    }
    let (text, rest) = rest.split_at(size);
    let text = text_of(alloc, text)?;
    Ok((Value::Text(text), rest))
}

/// The id at the front.
#[tactic(auto, unfolding(crate::specs::Reading::id_at))]
fn id_at(bytes: &[u8]) -> Result<(Value, &[u8]), Unread>
    ensures { Gives (λ read. (read.0, read.1.now)) result (id_at bytes.now) }
{
    let (number, rest) = u64_at(bytes)?;
    match IdNo::new(number) {
        Some(id) => Ok((Value::Id(id), rest)),
        None => Err(Unread::NoBody),
    }
}

/// The value of this type at the front.
#[tactic(auto, unfolding(crate::specs::Reading::value_at))]
fn value_at(alloc: Global, column: ColType, bytes: &[u8]) -> Result<(Value, &[u8]), Unread>
    ensures { Gives (λ read. (read.0, read.1.now)) result (value_at column bytes.now) }
{
    match column {
        ColType::Int => int_at(behind(INT_TAG, bytes)?),
        ColType::Text => text_at(alloc, behind(TEXT_TAG, bytes)?),
        ColType::Id => id_at(behind(ID_TAG, bytes)?),
    }
}

/// The row of these types at the front.
fn row_at<'a>(
    alloc: Global,
    shape: &[ColType],
    bytes: &'a [u8],
) -> Result<(Row<Value>, &'a [u8]), Unread>
    ensures { Gives (λ read. (read.0, read.1.now)) result (row_at shape.now bytes.now) }
{
    let mut cells = Vec::with_capacity(alloc, shape.len())?;
    let mut rest = bytes;
    for column in shape {
        let (value, after) = value_at(alloc, *column, rest)?;
        cells.push(value)?;
        rest = after;
    }
    Ok((Row::from_vec(cells), rest))
}

/// The member at the front.
#[tactic(auto, unfolding(crate::specs::Reading::member_at))]
fn member_at<'a>(
    alloc: Global,
    shapes: &Shapes,
    bytes: &'a [u8],
) -> Result<(Member, &'a [u8]), Unread>
    ensures { Gives (λ read. (read.0, read.1.now)) result (member_at shapes.now bytes.now) }
{
    let (t, rest) = u16_at(bytes)?;
    let t = t as usize;
    let shape = shapes.get(t).ok_or(Unread::NoBody)?;
    let (row, rest) = row_at(alloc, shape.as_slice(), rest)?;
    Ok((Member { t, row }, rest))
}

/// So many members at the front.
fn members_at<'a>(
    alloc: Global,
    count: usize,
    shapes: &Shapes,
    bytes: &'a [u8],
) -> Result<(Members, &'a [u8]), Unread>
    ensures { Gives (λ read. (read.0, read.1.now)) result (members_at count shapes.now bytes.now) }
{
    let mut members = Items::new(alloc);
    let mut rest = bytes;
    for _ in 0..count {
        let (member, after) = member_at(alloc, shapes, rest)?;
        members.push(member)?;
        rest = after;
    }
    Ok((members, rest))
}

/// What was read, where nothing stands behind it.
fn whole<T: Drop>(part: T, rest: &[u8]) -> Result<T, Unread>
    ensures { Gives (λ part. part) result (whole (part, rest.now)) }
{
    if rest.is_empty() {
        Ok(part)
    } else {
        Err(Unread::NoBody)
    }
}

/// The member whose body of form one the bytes are.
#[tactic(auto, unfolding(crate::specs::Reading::read_body))]
fn body_of(alloc: Global, shapes: &Shapes, bytes: &[u8]) -> Result<Member, Unread>
    ensures { Gives (λ member. member) result (read_body shapes.now bytes.now) }
{
    let (member, rest) = member_at(alloc, shapes, bytes)?;
    whole(member, rest)
}

/// The members whose body of form two the bytes are.
#[tactic(auto, unfolding(crate::specs::Reading::read_group))]
fn group_of(alloc: Global, shapes: &Shapes, bytes: &[u8]) -> Result<Members, Unread>
    ensures { Gives (λ members. members) result (read_group shapes.now bytes.now) }
{
    let (count, rest) = u16_at(bytes)?;
    let count = count as usize;
    if count < 1 || count > MAX_MEMBERS {
        return Err(Unread::NoBody);
    }
    let (members, rest) = members_at(alloc, count, shapes, rest)?;
    whole(members, rest)
}

/// The member, a transition and its row, whose body of form one the bytes are for these shapes, and `None` exactly where
/// they are no such body. An error is want of memory.
pub fn decode(
    alloc: Global,
    bytes: &[u8],
    shapes: &Shapes,
) -> Result<Option<(usize, Row<Value>)>, AllocError>
    ensures exact { IfOk result (λ found. option_map as_member found ≡ read_body shapes.now bytes.now) }
    ensures found { IfOk result (λ found. IfSome found (λ m. IsMember shapes.now (as_member m) × (bytes.now ≡ body (as_member m)))) }
    ensures none { IfOk result (λ found. IfNone found ((m : OneMember) → IsMember shapes.now m → bytes.now ≢ body m)) }
{
    match body_of(alloc, shapes, bytes) {
        Ok(Member { t, row }) => Ok(Some((t, row))),
        Err(Unread::NoBody) => Ok(None),
        Err(Unread::Memory) => Err(AllocError),
    }
}

/// The members whose body of form two the bytes are for these shapes, and `None` exactly where they are no such body. An
/// error is want of memory.
pub fn decode_group(
    alloc: Global,
    bytes: &[u8],
    shapes: &Shapes,
) -> Result<Option<Members>, AllocError>
    ensures exact { IfOk result (λ found. found ≡ read_group shapes.now bytes.now) }
    ensures found { IfOk result (λ found. IfSome found (λ members. IsGroup shapes.now members × (bytes.now ≡ group_body members))) }
    ensures none { IfOk result (λ found. IfNone found ((members : List OneMember) → IsGroup shapes.now members → bytes.now ≢ group_body members)) }
{
    match group_of(alloc, shapes, bytes) {
        Ok(members) => Ok(Some(members)),
        Err(Unread::NoBody) => Ok(None),
        Err(Unread::Memory) => Err(AllocError),
    }
}
