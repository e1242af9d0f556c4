//! Bodies byte by byte, as they stand in stores, and bytes that are no body.

ghost use Rattle.std.specs.Prelude.{◌≡◌, ◌<◌, ◌≤◌, ◌^◌, length, All, IfOk};

use super::{MAX_MEMBERS, decode, decode_group, encode, encode_group};
use dbn_value::{ColType, Member, Members, Row, Shapes, Value, read_value};
use sqlite_items::Items;
use std::alloc::Global;
use std::test::Fail;

/// The shapes of these transitions, each with at most two variables.
fn shapes(alloc: Global, columns: &[[Option<ColType>; 2]]) -> Result<Shapes, Fail> {
    let mut shapes = Items::new(alloc);
    for [first, second] in columns {
        let mut shape = Items::new(alloc);
        if let Some(column) = first {
            shape.push(*column)?;
        }
        if let Some(column) = second {
            shape.push(*column)?;
        }
        shapes.push(shape)?;
    }
    Ok(shapes)
}

/// A net of tickets: `open` with a text, `assign`, `take` and `close` with an id and a text.
fn tickets(alloc: Global) -> Result<Shapes, Fail> {
    let pair = [Some(ColType::Id), Some(ColType::Text)];
    shapes(alloc, &[[Some(ColType::Text), None], pair, pair, pair])
}

/// A net that asks: `note` with an int and a text, `refer` with an int and an id.
fn asking(alloc: Global) -> Result<Shapes, Fail> {
    shapes(
        alloc,
        &[
            [Some(ColType::Int), Some(ColType::Text)],
            [Some(ColType::Int), Some(ColType::Id)],
        ],
    )
}

/// A net without data: `go` has no variable.
fn plain(alloc: Global) -> Result<Shapes, Fail> {
    shapes(alloc, &[[None, None]])
}

/// The row of the values with these spellings.
fn row(alloc: Global, spellings: &[&[u8]]) -> Result<Row<Value>, Fail> {
    let mut cells = Vec::new(alloc);
    for spelling in spellings {
        cells.push(read_value(alloc, spelling)?)?;
    }
    Ok(Row::from_vec(cells))
}

/// The member of this transition with the values of these spellings.
fn member(alloc: Global, t: u16, spellings: &[&[u8]]) -> Result<Member, Fail>
    ensures { IfOk result (λ m. m.t ≡ t) }
{
    let row = row(alloc, spellings)?;
    Ok(Member { t: t as usize, row })
}

/// Whether the member has this body in form one, and the group of it alone in form two, and both are read as the member.
fn has_bodies(alloc: Global, shapes: &Shapes, one: Member, body: &[u8]) -> Result<bool, Fail>
    requires { one.t < 2 ^ 16 }
{
    let mut members = Items::new(alloc);
    let bytes = encode(alloc, one.t, &one.row)?;
    let (t, row) = decode(alloc, body, shapes)?.ok_or("the bytes are a body")?;
    let same = bytes.as_slice() == body && t == one.t && row == one.row;
    members.push(one)?;
    Ok(same && has_group(alloc, shapes, &members, &[0, 1], body)?)
}

/// Whether the group has this body in form two, a number and what stands behind it, and is read as the members.
fn has_group(
    alloc: Global,
    shapes: &Shapes,
    members: &Members,
    number: &[u8],
    behind: &[u8],
) -> Result<bool, Fail>
    requires some { 1 ≤ length members.now }
    requires few { length members.now ≤ 4096 }
    requires numbers { All (λ member. member.t < 2 ^ 16) members.now }
{
    let mut body = Vec::from_slice(alloc, number)?;
    body.extend_from_slice(behind)?;
    let bytes = encode_group(alloc, members)?;
    let found = decode_group(alloc, body.as_slice(), shapes)?.ok_or("the bytes are a body")?;
    let all_same = found
        .as_slice()
        .iter()
        .zip(members.as_slice())
        .all(|(a, b)| a.t == b.t && a.row == b.row);
    Ok(bytes.as_slice() == body.as_slice() && found.len() == members.len() && all_same)
}

#[test]
fn a_member_has_one_body_in_each_form(rt: HostRuntime) -> Result<(), Fail> {
    let alloc = rt.alloc();
    let take = member(alloc, 2, &[b"#1", b"\"Ann\""])?;
    let body = b"\x00\x02\x03\x00\x00\x00\x00\x00\x00\x00\x01\x02\x00\x03Ann";
    assert!(rt; has_bodies(alloc, &tickets(alloc)?, take, body)?);
    let note = member(alloc, 0, &[b"1", b"\"yes\""])?;
    let body = b"\x00\x00\x01\x00\x00\x00\x00\x00\x00\x00\x01\x02\x00\x03yes";
    assert!(rt; has_bodies(alloc, &asking(alloc)?, note, body)?);
    let refer = member(alloc, 1, &[b"-2", b"#4611686018427387903"])?;
    let body = b"\x00\x01\x01\xff\xff\xff\xff\xff\xff\xff\xfe\x03\x3f\xff\xff\xff\xff\xff\xff\xff";
    assert!(rt; has_bodies(alloc, &asking(alloc)?, refer, body)?);
    let go = member(alloc, 0, &[])?;
    assert!(rt; has_bodies(alloc, &plain(alloc)?, go, b"\x00\x00")?);
    Ok(())
}

#[test]
fn a_group_has_its_members_in_order(rt: HostRuntime) -> Result<(), Fail> {
    let alloc = rt.alloc();
    let mut members = Items::new(alloc);
    members.push(member(alloc, 0, &[b"\"a\""])?)?;
    members.push(member(alloc, 1, &[b"#0", b"\"Ann\""])?)?;
    let behind =
        b"\x00\x00\x02\x00\x01a\x00\x01\x03\x00\x00\x00\x00\x00\x00\x00\x00\x02\x00\x03Ann";
    assert!(rt; has_group(alloc, &tickets(alloc)?, &members, &[0, 2], behind)?);
    Ok(())
}

#[test]
fn other_bytes_are_no_body(rt: HostRuntime) -> Result<(), Fail> {
    let alloc = rt.alloc();
    let shapes = tickets(alloc)?;
    let rows: [&[u8]; 14] = [
        b"",
        b"\x00",
        b"\x00\x00",
        // no such transition
        b"\x00\x04\x02\x00\x01a",
        // a wrong tag
        b"\x00\x00\x01\x00\x01a",
        b"\x00\x00\x00\x00\x01a",
        b"\x00\x00\x03\x00\x00\x00\x00\x00\x00\x00\x01",
        // a text that is shorter than its length, that is longer, and that is no text
        b"\x00\x00\x02\x00\x02a",
        b"\x00\x00\x02\x00\x00a",
        b"\x00\x00\x02\x00\x01\n",
        b"\x00\x00\x02\x00\x01\xff",
        // an id of 2^62, one that is cut, and more behind the last value
        b"\x00\x01\x03\x40\x00\x00\x00\x00\x00\x00\x00\x02\x00\x01a",
        b"\x00\x01\x03\x00\x00\x00\x00\x00\x00\x00",
        b"\x00\x01\x03\x00\x00\x00\x00\x00\x00\x00\x01\x02\x00\x01a\x00",
    ];
    for bytes in rows {
        assert!(rt; decode(alloc, bytes, &shapes)?.is_none(), "at {bytes:?}");
        let mut group = Vec::from_slice(alloc, &[0, 1])?;
        group.extend_from_slice(bytes)?;
        assert!(rt;
            decode_group(alloc, group.as_slice(), &shapes)?.is_none(),
            "at {bytes:?}"
        );
    }
    Ok(())
}

#[test]
fn a_group_has_1_to_4096_members(rt: HostRuntime) -> Result<(), Fail> {
    let alloc = rt.alloc();
    let shapes = plain(alloc)?;
    let rows = [
        (0u16, false),
        (1, true),
        (4096, true),
        (4097, false),
        (u16::MAX, false),
    ];
    for (count, is_body) in rows {
        let mut bytes = Vec::from_slice(alloc, &count.to_be_bytes())?;
        for _ in 0..count {
            bytes.extend_from_slice(b"\x00\x00")?;
        }
        let found = decode_group(alloc, bytes.as_slice(), &shapes)?;
        assert_eq!(rt; found.is_some(), is_body, "at {count}");
        if let Some(members) = found {
            assert!(rt; members.len() == count as usize && members.len() <= MAX_MEMBERS);
        }
    }
    Ok(())
}
