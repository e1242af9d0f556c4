use super::{
    Formula, Formulas, accepts_query, accepts_sentence, all_bound, arity_fits, arrange, binds,
    constants, distinct, distinct_vars, free, is_unmarked, nests_within, normal, normal_denied,
    relations_below, rename_apart, safe, solvable, terms_fit, type_check, types_fit,
};
use dbn_value::{
    Cmp, ColType, CopyIn, Name, Shape, Shapes, Term, Terms, TypedVars, Value, ValueFault, Var,
};
use sqlite_items::{Boxed, Items};
use std::alloc::{AllocError, Global};

fn term(alloc: Global, letter: u8) -> Result<Term, ValueFault> {
    let name = Name::from_bytes(alloc, [letter].as_slice())?;
    Ok(Term::Var(Var { name, mark: 0 }))
}

/// These letters as variables of type int.
fn int_vars(alloc: Global, letters: &[u8]) -> Result<TypedVars, ValueFault> {
    let mut vars: TypedVars = Items::new(alloc);
    for letter in letters {
        let name = Name::from_bytes(alloc, [*letter].as_slice())?;
        vars.push((Var { name, mark: 0 }, ColType::Int))?;
    }
    Ok(vars)
}

/// These letters as terms.
fn terms(alloc: Global, letters: &[u8]) -> Result<Terms, ValueFault> {
    let mut terms: Terms = Items::new(alloc);
    for letter in letters {
        terms.push(term(alloc, *letter)?)?;
    }
    Ok(terms)
}

/// As many columns of integers.
fn ints(alloc: Global, count: usize) -> Result<Shape, AllocError> {
    let mut shape: Shape = Items::new(alloc);
    for _ in 0..count {
        shape.push(ColType::Int)?;
    }
    Ok(shape)
}

fn one_part(alloc: Global, part: Formula) -> Result<Formulas, AllocError> {
    let mut parts: Formulas = Items::new(alloc);
    parts.push(part)?;
    Ok(parts)
}

/// (Q x)
fn q(alloc: Global) -> Result<Formula, ValueFault> {
    let terms = terms(alloc, b"x")?;
    Ok(Formula::Atom { rel: 1, terms })
}

/// (R x y a b c d e f g h)
fn r(alloc: Global) -> Result<Formula, ValueFault> {
    let terms = terms(alloc, b"xyabcdefgh")?;
    Ok(Formula::Atom { rel: 0, terms })
}

/// (exists ((y int) (a int) .. (h int)) (R x y a .. h))
fn some(alloc: Global) -> Result<Formula, ValueFault> {
    let vars = int_vars(alloc, b"yabcdefgh")?;
    let body = Boxed::new(alloc, r(alloc)?)?;
    Ok(Formula::Exists { vars, body })
}

/// (implies (R x y a .. h) (or (= y 7)))
fn seven(alloc: Global) -> Result<Formula, ValueFault> {
    let left = term(alloc, b'y')?;
    let test = Formula::Test {
        cmp: Cmp::Eq,
        left,
        right: Term::Const(Value::Int(7)),
    };
    let right = Boxed::new(alloc, Formula::Or(one_part(alloc, test)?))?;
    Ok(Formula::Implies(Boxed::new(alloc, r(alloc)?)?, right))
}

/// (forall ((y int) (a int) .. (h int)) (implies (R x y a .. h) (or (= y 7))))
fn each(alloc: Global) -> Result<Formula, ValueFault> {
    let vars = int_vars(alloc, b"yabcdefgh")?;
    let body = Boxed::new(alloc, seven(alloc)?)?;
    Ok(Formula::Forall { vars, body })
}

/// (and (not (exists (..) (R x y ..))) (forall (..) (implies (R x y ..) (or (= y 7)))) (Q x)): every kind of formula, ten
/// variables, a constant, and only the last part gives the free variable a value.
fn every_kind(alloc: Global) -> Result<Formula, ValueFault> {
    let mut parts = one_part(alloc, Formula::Not(Boxed::new(alloc, some(alloc)?)?))?;
    parts.push(each(alloc)?)?;
    parts.push(q(alloc)?)?;
    Ok(Formula::And(parts))
}

/// R has ten columns of integers, Q has one.
fn shapes(alloc: Global) -> Result<Shapes, AllocError> {
    let mut rels: Shapes = Items::new(alloc);
    rels.push(ints(alloc, 10)?)?;
    rels.push(ints(alloc, 1)?)?;
    Ok(rels)
}

fn begins_with_atom(f: &Formula) -> bool {
    match f {
        Formula::And(parts) => match parts.as_slice() {
            [Formula::Atom { .. }, ..] => true,
            _ => false,
        },
        _ => false,
    }
}

#[test]
fn a_copy_is_renamed_apart(rt: HostRuntime) -> Result<(), ValueFault> {
    let f = every_kind(rt.alloc())?.copy_in(rt.alloc())?;
    let apart = rename_apart(rt.alloc(), &f)?;
    assert!(rt; is_unmarked(&f) && !is_unmarked(&apart));
    Ok(())
}

#[test]
fn every_kind_has_a_normal_form(rt: HostRuntime) -> Result<(), ValueFault> {
    let f = every_kind(rt.alloc())?;
    assert!(rt; matches!(normal(rt.alloc(), &f)?, Formula::And(_)));
    assert!(rt; matches!(normal_denied(rt.alloc(), &f)?, Formula::Or(_)));
    Ok(())
}

#[test]
fn parts_that_wait_are_taken_later(rt: HostRuntime) -> Result<(), ValueFault> {
    let f = solvable(rt.alloc(), &every_kind(rt.alloc())?)?;
    let ordered = arrange(rt.alloc(), &f, &Items::new(rt.alloc()))?;
    assert!(rt; !begins_with_atom(&every_kind(rt.alloc())?) && begins_with_atom(&ordered));
    Ok(())
}

#[test]
fn every_kind_can_be_solved(rt: HostRuntime) -> Result<(), ValueFault> {
    let solved = solvable(rt.alloc(), &every_kind(rt.alloc())?)?;
    assert!(rt; safe(rt.alloc(), &solved, &Items::new(rt.alloc())) == Ok(true));
    Ok(())
}

#[test]
fn every_kind_is_a_query(rt: HostRuntime) -> Result<(), ValueFault> {
    let f = every_kind(rt.alloc())?;
    assert!(rt; accepts_query(rt.alloc(), &f) == Ok(true));
    assert!(rt; accepts_sentence(rt.alloc(), &f) == Ok(false));
    Ok(())
}

#[test]
fn every_kind_is_well_typed(rt: HostRuntime) -> Result<(), ValueFault> {
    let f = every_kind(rt.alloc())?;
    let scope = int_vars(rt.alloc(), b"x")?;
    let rels = shapes(rt.alloc())?;
    assert!(rt; type_check(rt.alloc(), &f, &scope, &rels) == Ok(()));
    assert!(rt; arity_fits(&f, &rels) && types_fit(&f, scope.as_slice(), &rels));
    Ok(())
}

#[test]
fn a_term_has_the_type_of_its_column(rt: HostRuntime) -> Result<(), ValueFault> {
    let terms = [Term::Const(Value::Int(7))];
    let scope = int_vars(rt.alloc(), b"x")?;
    assert!(rt;
        terms_fit(
            terms.as_slice(),
            [ColType::Int].as_slice(),
            scope.as_slice()
        )
    );
    assert!(rt;
        !terms_fit(
            terms.as_slice(),
            [ColType::Text].as_slice(),
            scope.as_slice()
        )
    );
    Ok(())
}

#[test]
fn the_free_variable_is_found(rt: HostRuntime) -> Result<(), ValueFault> {
    let f = every_kind(rt.alloc())?;
    let scope = int_vars(rt.alloc(), b"x")?;
    assert!(rt; all_bound(rt.alloc(), &f, scope.as_slice()) == Ok(true));
    let found = free(rt.alloc(), &f)?;
    assert!(rt;
        found
            .as_slice()
            .iter()
            .all(|var| binds(scope.as_slice(), var))
    );
    Ok(())
}

#[test]
fn what_every_kind_writes(rt: HostRuntime) -> Result<(), ValueFault> {
    let f = every_kind(rt.alloc())?;
    let values = constants(rt.alloc(), &f)?;
    assert!(rt; values.as_slice() == [Value::Int(7)].as_slice());
    assert!(rt; nests_within(&f, 5) && relations_below(&f, 2));
    Ok(())
}

#[test]
fn each_variable_stands_once(rt: HostRuntime) -> Result<(), ValueFault> {
    let f = every_kind(rt.alloc())?;
    assert!(rt; distinct(rt.alloc(), &f) == Ok(true));
    let scope = int_vars(rt.alloc(), b"x")?;
    assert!(rt; distinct_vars(rt.alloc(), scope.as_slice()) == Ok(true));
    Ok(())
}
