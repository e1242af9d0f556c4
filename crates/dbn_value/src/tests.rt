//! What no clause says: that calls succeed, and what bytes and orders from outside are.

use super::{
    Bytes, Cell, Cmp, Coder, ColType, CopyIn, IdNo, Member, Members, Name, Nums, PlainCoder, Row,
    Shape, Shapes, Term, Txt, Value, Var, coding, compare, copy_items, find_row, get_row,
    has_shape, in_range, join_rows, pick, put_row, read_value, row_of, same_type, spell, value_of,
};
use sqlite_items::Items;
use std::alloc::{AllocError, Global};
use std::cmp::Ordering;
use std::collections::BTreeSet;
use std::test::Fail;

#[test]
fn values_are_read_and_spelled(rt: HostRuntime) -> Result<(), Fail> {
    let alloc = rt.alloc();
    let rows: [(&[u8], ColType); 10] = [
        (b"\"\xc3\x89va\"", ColType::Text),
        (b"\"\"", ColType::Text),
        (b"\"a\\\"\\\\b\"", ColType::Text),
        (b"#0", ColType::Id),
        (b"#7", ColType::Id),
        (b"#4611686018427387903", ColType::Id),
        (b"0", ColType::Int),
        (b"-5", ColType::Int),
        (b"-9223372036854775808", ColType::Int),
        (b"9223372036854775807", ColType::Int),
    ];
    for (bytes, column) in rows {
        let value = read_value(alloc, bytes)?;
        in_range(&value);
        assert_eq!(rt; value.col_type(), column, "at {bytes:?}");
        assert_eq!(rt; spell(alloc, &value)?.as_slice(), bytes);
    }
    Ok(())
}

#[test]
fn texts_are_utf8_without_control_characters(rt: HostRuntime) -> Result<(), Fail> {
    let texts: [&[u8]; 6] = [
        b"",
        b" ~",
        b"\xc3\x89va",
        b"\xc2\xa0",
        b"\xe2\x80\xa8",
        b"\xf4\x8f\xbf\xbf",
    ];
    for bytes in texts {
        let text = Txt::from_bytes(rt.alloc(), bytes)?;
        assert_eq!(rt; text.as_bytes(), bytes);
        assert_eq!(rt; text.copy_in(rt.alloc())?.as_bytes(), bytes);
    }
    Ok(())
}

#[test]
fn ints_come_before_texts_and_texts_before_ids(rt: HostRuntime) -> Result<(), Fail> {
    let alloc = rt.alloc();
    let rows: [(&[u8], &[u8]); 4] = [
        (b"-10", b"-9"),
        (b"10", b"\"\""),
        (b"\"10\"", b"\"9\""),
        (b"\"z\"", b"#0"),
    ];
    for (low, high) in rows {
        let (a, b) = (read_value(alloc, low)?, read_value(alloc, high)?);
        assert_eq!(rt; compare(&a, &b), Ordering::Less, "at {low:?}");
        assert!(rt; a < b && Cmp::Lt.meets(compare(&a, &b)));
    }
    Ok(())
}

/// The type of a cell, its order towards another one, and whether these two and the cell and its copy are the same.
fn look<C: Cell>(
    alloc: Global,
    a: &C,
    b: &C,
) -> Result<(ColType, Ordering, bool, bool), AllocError> {
    let copy = a.copy_in(alloc)?;
    Ok((a.col_type(), a.order(b), a.same(b), a.same(&copy)))
}

/// The value of the cell that a value gets, where it is found again.
fn code<P: Coder>(alloc: Global, value: &Value) -> Result<Option<Value>, AllocError> {
    let mut coder = P::empty(alloc)?;
    let cell = coder.put(alloc, value)?;
    let again = coder.get(alloc, &cell)?;
    Ok(match coder.find(alloc, value)? {
        Some(found) => if found.same(&cell) { Some(again) } else { None },
        None => None,
    })
}

#[test]
fn cells_and_coders_are_used_through_their_traits(rt: HostRuntime) -> Result<(), Fail> {
    let alloc = rt.alloc();
    let (int, id) = (read_value(alloc, b"-5")?, read_value(alloc, b"#7")?);
    assert_eq!(rt;
        look(alloc, &int, &id)?,
        (ColType::Int, Ordering::Less, false, true)
    );
    assert_eq!(rt;
        look(alloc, &id, &id)?,
        (ColType::Id, Ordering::Equal, true, true)
    );
    assert_eq!(rt; code::<PlainCoder>(alloc, &id)?, Some(id));
    let never_put = PlainCoder::empty(alloc)?.find(alloc, &int)?;
    assert_eq!(rt; never_put, Some(int));
    Ok(())
}

/// A row of an int, a text and an id.
fn row(alloc: Global) -> Result<Row<Value>, Fail> {
    let mut cells = Vec::new(alloc);
    cells.push(read_value(alloc, b"-5")?)?;
    cells.push(read_value(alloc, b"\"\xc3\x89va\"")?)?;
    cells.push(read_value(alloc, b"#7")?)?;
    Ok(Row::from_vec(cells))
}

#[test]
fn columns_of_rows_are_picked(rt: HostRuntime) -> Result<(), Fail> {
    let alloc = rt.alloc();
    let row = row(alloc)?;
    assert_eq!(rt; row.len(), 3);
    let columns = Nums::from_slice(alloc, &[2, 0, 2])?;
    let picked = pick(alloc, &row, columns.as_slice())?;
    assert_eq!(rt; picked.len(), 3);
    let (cells, chosen) = (row.as_slice(), picked.as_slice());
    assert!(rt; chosen[0] == cells[2] && chosen[1] == cells[0] && chosen[2] == cells[2]);
    let front = pick(alloc, &row, &[0, 1])?;
    assert!(rt; front < row && row < picked && row.copy_in(alloc)? == row);
    Ok(())
}

#[test]
fn rows_are_joined_and_taken_apart(rt: HostRuntime) -> Result<(), Fail> {
    let alloc = rt.alloc();
    let (left, other) = (row(alloc)?, row(alloc)?);
    assert_eq!(rt; left.len(), 3);
    assert_eq!(rt; other.len(), 3);
    let right = pick(alloc, &other, &[2])?;
    let both = join_rows(alloc, &left, &right)?;
    assert_eq!(rt; both, pick(alloc, &left, &[0, 1, 2, 2])?);
    assert_eq!(rt; both.get(3), right.get(0));
    assert!(rt; both.get(4).is_none() && !both.is_empty());
    assert_eq!(rt; right.into_vec().len(), 1);
    assert!(rt; Row::<Value>::from_vec(Vec::new(alloc)).is_empty());
    let mut members: Members = Items::new(alloc);
    members.push(Member { t: 2, row: both })?;
    assert_eq!(rt; members.copy_in(alloc)?.as_slice(), members.as_slice());
    Ok(())
}

#[test]
fn rows_have_shapes(rt: HostRuntime) -> Result<(), Fail> {
    let alloc = rt.alloc();
    let row = row(alloc)?;
    let shape: Shape = Items::from_vec([ColType::Int, ColType::Text, ColType::Id].to_vec(alloc)?);
    assert!(rt; has_shape(&row, &shape));
    assert!(rt; same_type(ColType::Id, ColType::Id) && !same_type(ColType::Id, ColType::Text));
    Ok(())
}

/// The row as it comes back from the coder, where its cells are found again.
fn code_row<P: Coder>(alloc: Global, row: &Row<Value>) -> Result<Option<Row<Value>>, AllocError> {
    let mut coder = P::empty(alloc)?;
    let cells = put_row(alloc, &mut coder, row)?;
    coding(&coder);
    let again = get_row(alloc, &coder, &cells)?;
    Ok(match find_row(alloc, &coder, row)? {
        Some(found) => if found == cells { Some(again) } else { None },
        None => None,
    })
}

#[test]
fn rows_go_through_coders(rt: HostRuntime) -> Result<(), Fail> {
    let row = row(rt.alloc())?;
    assert_eq!(rt; code_row::<PlainCoder>(rt.alloc(), &row)?, Some(row));
    Ok(())
}

/// The variable with this name and the mark 0.
fn var(alloc: Global, name: &[u8]) -> Result<Var, Fail> {
    let name = Name::from_bytes(alloc, name)?;
    Ok(Var { name, mark: 0 })
}

#[test]
fn terms_stand_for_the_last_value(rt: HostRuntime) -> Result<(), Fail> {
    let alloc = rt.alloc();
    let row = row(alloc)?;
    let scope = [
        (var(alloc, b"x")?, ColType::Int),
        (var(alloc, b"y")?, ColType::Text),
        (var(alloc, b"x")?, ColType::Id),
        (var(alloc, b"z")?, ColType::Id),
    ];
    let terms = [
        Term::Var(var(alloc, b"x")?),
        Term::Var(var(alloc, b"y")?),
        Term::Var(var(alloc, b"z")?),
        Term::Const(Value::Int(4)),
    ];
    assert_eq!(rt; value_of(&terms[0], &scope, &row), row.get(2));
    assert_eq!(rt; value_of(&terms[1], &scope, &row), row.get(1));
    assert!(rt; value_of(&terms[2], &scope, &row).is_none());
    let made = row_of(alloc, &terms, &scope, &row)?;
    assert_eq!(rt; made.len(), 4);
    assert!(rt; made.get(2) == Some(&Value::Int(0)) && made.get(3) == Some(&Value::Int(4)));
    Ok(())
}

#[test]
fn lists_keep_what_they_are_made_of(rt: HostRuntime) -> Result<(), Fail> {
    let alloc = rt.alloc();
    assert!(rt; IdNo::new(7).is_some());
    let bytes = Bytes::from_vec([1, 2].to_vec(alloc)?);
    assert_eq!(rt; bytes.as_slice(), [1, 2].as_slice());
    assert_eq!(rt; bytes.into_vec().as_slice(), [1, 2].as_slice());
    let long = [1, 2, 3, 4, 5, 6, 7, 8, 9];
    assert_eq!(rt; Nums::from_slice(alloc, &long)?.as_slice(), long.as_slice());
    assert_eq!(rt;
        Nums::from_vec(long.to_vec(alloc)?).as_slice(),
        long.as_slice()
    );
    let shape: Shape = Items::from_vec([ColType::Id, ColType::Int].to_vec(alloc)?);
    let mut shapes: Shapes = Items::new(alloc);
    shapes.push(shape)?;
    let again = shapes.copy_in(alloc)?;
    assert_eq!(rt; again.len(), 1);
    assert_eq!(rt;
        again.as_slice()[0].as_slice(),
        [ColType::Id, ColType::Int].as_slice()
    );
    Ok(())
}

#[test]
fn names_are_identifiers_and_operators(rt: HostRuntime) -> Result<(), Fail> {
    let names: [(&[u8], bool); 9] = [
        (b"a", true),
        (b"Z9", true),
        (b"a-b_1", true),
        (b"=", false),
        (b"!=", false),
        (b"<", false),
        (b"<=", false),
        (b">", false),
        (b">=", false),
    ];
    for (bytes, plain) in names {
        let name = Name::from_bytes(rt.alloc(), bytes)?;
        assert_eq!(rt; name.as_bytes(), bytes);
        assert!(rt; name == name.copy_in(rt.alloc())?);
        assert_eq!(rt; name.is_plain(), plain);
    }
    Ok(())
}

#[test]
#[tactic(auto, unfolding(crate::specs::Text::is_name))]
fn a_name_is_made_of_a_vector(rt: HostRuntime) -> Result<(), Fail> {
    let name = Name::from_vec(b"Ticket".to_vec(rt.alloc())?);
    assert_eq!(rt; name.as_bytes(), b"Ticket".as_slice());
    Ok(())
}

#[test]
fn variables_are_keys(rt: HostRuntime) -> Result<(), Fail> {
    let alloc = rt.alloc();
    let (x, y) = (var(alloc, b"x")?, var(alloc, b"y")?);
    let mut vars = BTreeSet::new(alloc);
    assert!(rt; vars.insert(&y)? && vars.insert(&x)? && !vars.insert(&y)?);
    assert_eq!(rt; vars.len(), 2);
    assert!(rt; vars.contains(&&x));
    Ok(())
}

#[test]
fn variables_and_terms_are_copied(rt: HostRuntime) -> Result<(), Fail> {
    let alloc = rt.alloc();
    let first = Var {
        name: Name::from_bytes(alloc, b"x")?,
        mark: 0,
    };
    let second = Var {
        name: first.name.copy_in(alloc)?,
        mark: 1,
    };
    assert!(rt;
        first < second && second < var(alloc, b"x1")? && first.same(&first.copy_in(alloc)?)
    );
    let typed = [(first, ColType::Id)];
    let vars = copy_items(alloc, &typed)?;
    assert_eq!(rt; vars.len(), 1);
    let (var, column) = &vars.as_slice()[0];
    assert!(rt; var.same(&typed[0].0) && *column == ColType::Id);
    let fields = [(Name::from_bytes(alloc, b"f")?, ColType::Text)];
    assert_eq!(rt; copy_items(alloc, &fields)?.len(), 1);
    let terms = [Term::Var(second), Term::Const(Value::Int(4))];
    assert_eq!(rt; copy_items(alloc, &terms)?.len(), 2);
    Ok(())
}
