//! What patterns of x and y want of one place, and a guard over them.

use super::{guard_holds, included, instantiate};
use dbn_formula::{Formula, Formulas};
use dbn_marking::Marking;
use dbn_net::{Arc, Arcs, Pattern, Patterns};
use dbn_value::{Cmp, ColType, Name, Row, Term, Terms, TypedVars, Value, ValueFault, Var};
use sqlite_items::{Boxed, Items};
use std::alloc::{AllocError, Global};
use std::test::Fail;

fn variable(alloc: Global, letter: u8) -> Result<Var, ValueFault> {
    let name = Name::from_bytes(alloc, [letter].as_slice())?;
    Ok(Var { name, mark: 0 })
}

/// x and y, both ints.
fn scope(alloc: Global) -> Result<TypedVars, ValueFault> {
    let mut vars: TypedVars = Items::new(alloc);
    vars.push((variable(alloc, b'x')?, ColType::Int))?;
    vars.push((variable(alloc, b'y')?, ColType::Int))?;
    Ok(vars)
}

fn ints(alloc: Global, numbers: &[i64]) -> Result<Row<Value>, AllocError> {
    let mut cells = Vec::with_capacity(alloc, numbers.len())?;
    for number in numbers {
        cells.push(Value::Int(*number))?;
    }
    Ok(Row::from_vec(cells))
}

// ---- patterns

/// (many x), or y
fn pattern(alloc: Global, letter: u8, many: u64) -> Result<Pattern, ValueFault> {
    let mut terms: Terms = Items::new(alloc);
    terms.push(Term::Var(variable(alloc, letter)?))?;
    Ok(Pattern { many, terms })
}

/// (in P (many x) (many y))
fn arc(alloc: Global, many: (u64, u64)) -> Result<Arc, ValueFault> {
    let mut patterns: Patterns = Items::new(alloc);
    patterns.push(pattern(alloc, b'x', many.0)?)?;
    patterns.push(pattern(alloc, b'y', many.1)?)?;
    Ok(Arc { place: 0, patterns })
}

/// A place with so many tokens of these ints.
fn place(alloc: Global, tokens: &[(i64, u64)]) -> Result<Marking<Value>, Fail> {
    let mut marking = Marking::new(alloc, 1)?;
    for (int, many) in tokens {
        let row = ints(alloc, [*int].as_slice())?;
        if marking.places() == 1 && *many > 0 && *many < 1 << 32 {
            let _added = marking.add(alloc, 0, row, *many);
        }
    }
    Ok(marking)
}

/// How often the patterns of two arcs want x and y.
type Wanted = [(u64, u64); 2];

// What is wanted, the values of x and y, the tokens of the place, and whether it has what is wanted.
const CASES: [(Wanted, [i64; 2], [(i64, u64); 2], bool); 9] = [
    ([(1, 1), (0, 0)], [5, 5], [(5, 1), (6, 0)], false),
    ([(1, 1), (0, 0)], [5, 5], [(5, 2), (6, 0)], true),
    ([(1, 1), (0, 0)], [5, 6], [(5, 1), (6, 1)], true),
    ([(1, 1), (0, 0)], [6, 5], [(5, 1), (6, 1)], true),
    ([(1, 1), (0, 0)], [6, 6], [(5, 1), (6, 1)], false),
    ([(2, 1), (3, 1)], [7, 7], [(7, 7), (8, 0)], true),
    ([(2, 1), (3, 1)], [7, 7], [(7, 6), (8, 9)], false),
    (
        [(4294967295, 0), (0, 1)],
        [7, 7],
        [(7, 4294967295), (8, 1)],
        false,
    ),
    (
        [(4294967295, 0), (0, 1)],
        [7, 8],
        [(7, 4294967295), (8, 1)],
        true,
    ),
];

#[test]
fn patterns_of_one_row_are_summed(rt: HostRuntime) -> Result<(), Fail> {
    let alloc = rt.alloc();
    for (many, values, tokens, has_it) in CASES {
        let mut arcs: Arcs = Items::new(alloc);
        for both in many {
            arcs.push(arc(alloc, both)?)?;
        }
        let row = ints(alloc, values.as_slice())?;
        let wanted = instantiate(alloc, &arcs, &scope(alloc)?, &row)?;
        let marking = place(alloc, tokens.as_slice())?;
        assert_eq!(rt; included(&wanted, &marking), has_it);
    }
    Ok(())
}

// ---- guards

fn compared(alloc: Global, letter: u8, cmp: Cmp, right: Term) -> Result<Formula, ValueFault> {
    let left = Term::Var(variable(alloc, letter)?);
    Ok(Formula::Test { cmp, left, right })
}

/// (and (< x y) (or (= x -2) (not (= y 3))))
fn guard(alloc: Global) -> Result<Formula, ValueFault> {
    let mut either: Formulas = Items::new(alloc);
    let three = compared(alloc, b'y', Cmp::Eq, Term::Const(Value::Int(3)))?;
    either.push(compared(alloc, b'x', Cmp::Eq, Term::Const(Value::Int(-2)))?)?;
    either.push(Formula::Not(Boxed::new(alloc, three)?))?;
    let mut both: Formulas = Items::new(alloc);
    both.push(compared(alloc, b'x', Cmp::Lt, Term::Var(variable(alloc, b'y')?))?)?;
    both.push(Formula::Or(either))?;
    Ok(Formula::And(both))
}

#[test]
fn a_guard_is_judged(rt: HostRuntime) -> Result<(), Fail> {
    let alloc = rt.alloc();
    let scope = scope(alloc)?;
    let guard = guard(alloc)?;
    for (values, holds) in [
        ([3, -2], false),
        ([-2, 3], true),
        ([1, 3], false),
        ([1, 4], true),
    ] {
        let row = ints(alloc, values.as_slice())?;
        assert_eq!(rt; guard_holds(&guard, &scope, &row), holds);
    }
    Ok(())
}
