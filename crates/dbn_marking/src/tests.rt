//! What no clause says: that calls succeed, at the cells of the plain coder and through the bound.

use super::{AddFault, CountedRows, MAX_COUNT, Marking};
use dbn_value::{Cell, Coder, CopyIn, PlainCoder, Row, Value};
use std::alloc::{AllocError, Global};
use std::test::Fail;

/// What stands in the rows of the plain core.
type Plain = <PlainCoder as Coder>::Cell;

/// The row of these ints.
fn ints(alloc: Global, numbers: &[i64]) -> Result<Row<Plain>, AllocError> {
    let mut cells = Vec::new(alloc);
    for number in numbers {
        cells.push(Value::Int(*number))?;
    }
    Ok(Row::from_vec(cells))
}

/// Adds tokens where the conditions of the call hold, else `None`.
fn add<C: Cell>(
    alloc: Global,
    marking: &mut Marking<C>,
    place: usize,
    row: Row<C>,
    many: u64,
) -> Option<Result<bool, AddFault>> {
    if place < marking.places() && 0 < many && many < 1 << 32 {
        Some(marking.add(alloc, place, row, many))
    } else {
        None
    }
}

/// Takes tokens where the conditions of the call hold, else `None`.
fn take<C: Cell>(marking: &mut Marking<C>, place: usize, row: &Row<C>, many: u64) -> Option<bool> {
    if place < marking.places() && 0 < many && many <= marking.count(place, row) {
        Some(marking.take(place, row, many))
    } else {
        None
    }
}

/// Whether these are the counted rows, each of one int.
fn is_list(rows: &CountedRows<Plain>, want: &[(i64, u64)]) -> bool {
    if rows.len() != want.len() {
        return false;
    }
    for (i, (number, count)) in want.iter().enumerate() {
        match rows.get(i) {
            Some((row, held)) => match row.as_slice() {
                [Value::Int(n)] if *n == *number && *held == *count => {}
                _ => return false,
            },
            None => return false,
        }
    }
    true
}

/// A marking of two places, with tokens of rows of one int in the second.
fn with_tokens(alloc: Global, tokens: &[(i64, u64)]) -> Result<Marking<Plain>, Fail> {
    let mut marking = Marking::new(alloc, 2)?;
    for (number, many) in tokens {
        let row = ints(alloc, &[*number])?;
        if !matches!(add(alloc, &mut marking, 1, row, *many), Some(Ok(_))) {
            return Err(Fail::new("no tokens"));
        }
    }
    Ok(marking)
}

#[test]
fn tokens_of_a_row_are_counted_together(rt: HostRuntime) -> Result<(), Fail> {
    let alloc = rt.alloc();
    let cases: [(&[(i64, u64)], &[(i64, u64)]); 4] = [
        (&[(5, 1)], &[(5, 1)]),
        (&[(5, 2)], &[(5, 2)]),
        (&[(6, 1), (5, 1)], &[(5, 1), (6, 1)]),
        (&[(5, 1), (5, 2), (5, 1), (6, 1)], &[(5, 4), (6, 1)]),
    ];
    for (tokens, want) in cases {
        let marking = with_tokens(alloc, tokens)?;
        assert!(rt; marking.places() == 2);
        assert!(rt; is_list(&marking.rows(alloc, 1)?, want));
        assert!(rt; is_list(&marking.rows(alloc, 0)?, &[]));
        assert_eq!(rt; marking.count(0, &ints(alloc, &[5])?), 0);
    }
    Ok(())
}

#[test]
fn a_copy_is_a_marking_of_its_own(rt: HostRuntime) -> Result<(), Fail> {
    let alloc = rt.alloc();
    let mut marking = with_tokens(alloc, &[(5, 3)])?;
    let copy = marking.copy_in(alloc)?;
    marking.add_place(alloc)?;
    assert!(rt; copy.places() == 2 && marking.places() == 3);
    assert_eq!(rt; take(&mut marking, 1, &ints(alloc, &[5])?, 1), Some(false));
    assert!(rt; marking.places() == 3);
    assert_eq!(rt;
        add(alloc, &mut marking, 2, ints(alloc, &[6])?, 1),
        Some(Ok(true))
    );
    assert!(rt; marking.places() == 3);
    assert_eq!(rt; marking.counts(2).len(), 1);
    assert_eq!(rt; copy.count(1, &ints(alloc, &[5])?), 3);
    assert_eq!(rt; marking.count(1, &ints(alloc, &[5])?), 2);
    Ok(())
}

#[test]
fn the_last_token_takes_the_row(rt: HostRuntime) -> Result<(), Fail> {
    let alloc = rt.alloc();
    let mut marking = with_tokens(alloc, &[(5, 3), (-5, 1)])?;
    let five = ints(alloc, &[5])?;
    assert_eq!(rt; take(&mut marking, 1, &five, 2), Some(false));
    assert!(rt; marking.places() == 2);
    assert!(rt; is_list(&marking.rows(alloc, 1)?, &[(-5, 1), (5, 1)]));
    assert_eq!(rt; take(&mut marking, 1, &five, 1), Some(true));
    assert_eq!(rt; take(&mut marking, 1, &five, 1), None);
    assert!(rt; marking.places() == 2);
    assert!(rt; is_list(&marking.rows(alloc, 1)?, &[(-5, 1)]));
    Ok(())
}

#[test]
fn the_greatest_count(rt: HostRuntime) -> Result<(), Fail> {
    let alloc = rt.alloc();
    let mut marking = with_tokens(alloc, &[(1, MAX_COUNT)])?;
    let again = add(alloc, &mut marking, 1, ints(alloc, &[1])?, 1);
    assert_eq!(rt; again, Some(Err(AddFault::CountLimit)));
    assert!(rt; marking.places() == 2);
    assert!(rt; is_list(&marking.rows(alloc, 1)?, &[(1, 4_294_967_295)]));
    assert_eq!(rt;
        add(alloc, &mut marking, 1, ints(alloc, &[2])?, 1),
        Some(Ok(true))
    );
    assert_eq!(rt;
        add(alloc, &mut marking, 1, ints(alloc, &[2])?, 1),
        Some(Ok(false))
    );
    Ok(())
}
