//! What no clause says: that calls succeed, through the traits, at the types of this crate.

use super::{Pool, SymCell};
use dbn_value::{Cell, Coder, ColType, CopyIn, IdNo, Txt, Value};
use std::alloc::{AllocError, Global};
use std::cmp::Ordering;
use std::mem::size_of;
use std::test::Fail;

/// The text of these bytes as a value.
fn text(alloc: Global, bytes: &[u8]) -> Result<Value, Fail> {
    Ok(Value::Text(Txt::from_bytes(alloc, bytes)?))
}

/// The id with this number.
fn id(number: u64) -> Result<IdNo, Fail> {
    let id = IdNo::new(number).ok_or("an id ends below 2^62")?;
    Ok(id)
}

/// The type of a cell, its order towards another one, and whether these two and the cell and its copy are the same.
fn look<C: Cell>(
    alloc: Global,
    a: &C,
    b: &C,
) -> Result<(ColType, Ordering, bool, bool), AllocError> {
    let copy = a.copy_in(alloc)?;
    Ok((a.col_type(), a.order(b), a.same(b), a.same(&copy)))
}

/// The cell of the value in the coder: it is put twice, found, and its value is the one that was put.
fn put_and_get<P: Coder>(
    alloc: Global,
    coder: &mut P,
    value: &Value,
) -> Result<Option<P::Cell>, AllocError> {
    let cell = coder.put(alloc, value)?;
    let again = coder.put(alloc, value)?;
    let back = coder.get(alloc, &cell)?;
    Ok(match coder.find(alloc, value)? {
        Some(found) if found.same(&cell) && again.same(&cell) && back == *value => Some(found),
        _ => None,
    })
}

/// Whether the value has a cell in the coder.
fn is_put<P: Coder>(alloc: Global, coder: &P, value: &Value) -> Result<bool, AllocError> {
    Ok(coder.find(alloc, value)?.is_some())
}

#[test]
fn a_cell_has_16_bytes() {
    const _: () = prove!(size_of::<SymCell>() == 16);
}

#[test]
fn texts_are_numbered_as_they_are_put(rt: HostRuntime) -> Result<(), Fail> {
    let alloc = rt.alloc();
    let mut pool = Pool::empty(alloc)?;
    let values = [
        text(alloc, b"printer")?,
        text(alloc, b"")?,
        text(alloc, b"\xc3\x89va")?,
    ];
    for (number, value) in values.iter().enumerate() {
        assert!(rt; !is_put(alloc, &pool, value)?);
        let cell = put_and_get(alloc, &mut pool, value)?;
        assert_eq!(rt; cell, Some(SymCell::Sym(number as u64)));
    }
    let first = put_and_get(alloc, &mut pool, &values[0])?;
    assert_eq!(rt; first, Some(SymCell::Sym(0)));
    assert!(rt; !is_put(alloc, &pool, &text(alloc, b"print")?)?);
    Ok(())
}

#[test]
fn ints_and_ids_stand_for_themselves(rt: HostRuntime) -> Result<(), Fail> {
    let alloc = rt.alloc();
    let mut pool = Pool::empty(alloc)?;
    let seven = id(7)?;
    assert!(rt; is_put(alloc, &pool, &Value::Int(-5))? && is_put(alloc, &pool, &Value::Id(seven))?);
    let int = put_and_get(alloc, &mut pool, &Value::Int(-5))?;
    assert_eq!(rt; int, Some(SymCell::Int(-5)));
    let number = put_and_get(alloc, &mut pool, &Value::Id(seven))?;
    assert_eq!(rt; number, Some(SymCell::Id(seven)));
    Ok(())
}

#[test]
fn ints_come_before_ids_and_ids_before_symbols(rt: HostRuntime) -> Result<(), Fail> {
    let alloc = rt.alloc();
    let cells = [
        SymCell::Int(i64::MIN),
        SymCell::Int(-1),
        SymCell::Int(0),
        SymCell::Id(id(0)?),
        SymCell::Id(id(9)?),
        SymCell::Sym(0),
        SymCell::Sym(10),
    ];
    let types = [
        ColType::Int,
        ColType::Int,
        ColType::Int,
        ColType::Id,
        ColType::Id,
        ColType::Text,
        ColType::Text,
    ];
    for (low, column) in cells.iter().zip(&types) {
        assert_eq!(rt;
            look(alloc, low, low)?,
            (*column, Ordering::Equal, true, true)
        );
    }
    for pair in cells.windows(2) {
        if let [low, high] = pair {
            assert!(rt; low < high && low != high);
            let (_, order, same, _) = look(alloc, high, low)?;
            assert!(rt; order == Ordering::Greater && !same);
        }
    }
    Ok(())
}
