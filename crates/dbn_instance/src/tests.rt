//! What no clause says: that calls succeed.

ghost use Rattle.std.specs.Prelude.{◌<◌, IsTrue};
ghost use Rattle.std.specs.List.{All};
ghost use Rattle.dbn_instance.specs.Facts.{fact_of};

use super::{
    Action, Change, Changes, Fact, FactPattern, FactPatterns, Facts, Instance,
    facts_after_an_action, ground, net_changes,
};
use dbn_value::{
    Cell, Coder, ColType, CopyIn, Name, PlainCoder, Row, Term, TypedVars, Value, ValueFault, Var,
};
use sqlite_items::Items;
use std::alloc::{AllocError, Global};
use std::test::Fail;

/// What stands in the rows of the plain core.
type Plain = <PlainCoder as Coder>::Cell;

/// The fact of the relation R with this int.
fn fact(alloc: Global, number: i64) -> Result<Fact<Plain>, AllocError> {
    let mut cells = Vec::new(alloc);
    cells.push(Value::Int(number))?;
    let row = Row::from_vec(cells);
    Ok(Fact { rel: 0, row })
}

fn one_fact(alloc: Global, number: i64) -> Result<Facts<Plain>, AllocError> {
    let mut facts = Items::new(alloc);
    facts.push(fact(alloc, number)?)?;
    Ok(facts)
}

/// Makes a change of a relation that there is.
fn make<C: Cell>(
    alloc: Global,
    instance: &mut Instance<C>,
    change: &Change<C>,
) -> Result<(), Fail> {
    if change.fact().rel >= instance.relations() {
        return Err(Fail::new("no such relation"));
    }
    instance.apply(alloc, change)?;
    Ok(())
}

/// An instance of R with one fact.
fn with_five(alloc: Global) -> Result<Instance<Plain>, Fail> {
    let mut instance = Instance::<Plain>::new(alloc, 1)?;
    make(alloc, &mut instance, &Change::Plus(fact(alloc, 5)?))?;
    Ok(instance)
}

#[test]
fn facts_come_and_go(rt: HostRuntime) -> Result<(), Fail> {
    let alloc = rt.alloc();
    let mut instance = with_five(alloc)?;
    let five = fact(alloc, 5)?;
    assert!(rt; instance.relations() == 1 && instance.has_row(0, &five.row));
    let change = Change::Minus(five);
    assert!(rt; !change.comes());
    make(alloc, &mut instance, &change)?;
    assert!(rt; instance.relations() == 1 && instance.row_set(0).len() == 0);
    Ok(())
}

fn are_changes_of<C: Cell>(changes: &[Change<C>], relations: usize) -> bool
    ensures { IsTrue result → All (λ c. (fact_of c).rel < relations) changes.now }
{
    changes.iter().all(|change| change.fact().rel < relations)
}

/// Takes the changes back, each of a relation that there is.
fn take_back<C: Cell>(
    alloc: Global,
    instance: &mut Instance<C>,
    changes: &Changes<C>,
) -> Result<(), Fail> {
    if !are_changes_of(changes.as_slice(), instance.relations()) {
        return Err(Fail::new("no such relation"));
    }
    instance.revert(alloc, changes)?;
    Ok(())
}

#[test]
fn a_change_is_taken_back(rt: HostRuntime) -> Result<(), Fail> {
    let alloc = rt.alloc();
    let mut instance = with_five(alloc)?;
    let mut changes: Changes<Plain> = Items::new(alloc);
    changes.push(Change::Plus(fact(alloc, 5)?))?;
    take_back(alloc, &mut instance, &changes)?;
    assert!(rt; instance.relations() == 1 && instance.rows(alloc, 0)?.is_empty());
    Ok(())
}

/// Adds the fact, where there is its relation, and tells whether it is new.
fn insert<C: Cell>(alloc: Global, instance: &mut Instance<C>, fact: Fact<C>) -> Result<bool, Fail> {
    if fact.rel >= instance.relations() {
        return Err(Fail::new("no such relation"));
    }
    Ok(instance.insert(alloc, fact)?)
}

#[test]
fn a_copy_is_an_instance_of_its_own(rt: HostRuntime) -> Result<(), Fail> {
    let alloc = rt.alloc();
    let mut instance = with_five(alloc)?;
    let copy = instance.copy_in(alloc)?;
    instance.add_relation(alloc)?;
    assert!(rt; copy.relations() == 1 && instance.relations() == 2);
    let six = fact(alloc, 6)?.copy_in(alloc)?;
    assert!(rt; insert(alloc, &mut instance, six)?);
    facts_after_an_action::<Plain>();
    Ok(())
}

fn are_facts_of<C: Cell>(facts: &[Fact<C>], relations: usize) -> bool
    ensures { IsTrue result → All (λ f. f.rel < relations) facts.now }
{
    facts.iter().all(|fact| fact.rel < relations)
}

/// The shortest changes for facts of relations that there are.
fn shortest<C: Cell>(
    alloc: Global,
    deletes: &Facts<C>,
    adds: &Facts<C>,
    instance: &Instance<C>,
) -> Result<Changes<C>, Fail> {
    let relations = instance.relations();
    if !are_facts_of(deletes.as_slice(), relations) || !are_facts_of(adds.as_slice(), relations) {
        return Err(Fail::new("no such relation"));
    }
    Ok(net_changes(alloc, deletes, adds, instance)?)
}

#[test]
fn the_shortest_changes(rt: HostRuntime) -> Result<(), Fail> {
    let alloc = rt.alloc();
    let instance = with_five(alloc)?;
    let (five, six) = (one_fact(alloc, 5)?, one_fact(alloc, 6)?);
    assert_eq!(rt; shortest(alloc, &five, &five, &instance)?.len(), 0);
    assert_eq!(rt; shortest(alloc, &five, &six, &instance)?.len(), 2);
    Ok(())
}

fn var(alloc: Global, name: &str) -> Result<Var, ValueFault> {
    let name = Name::from_bytes(alloc, name.as_bytes())?;
    Ok(Var { name, mark: 0 })
}

/// The action that adds a fact of its parameter and deletes nothing.
fn keep(alloc: Global) -> Result<Action, ValueFault> {
    let mut params: TypedVars = Items::new(alloc);
    params.push((var(alloc, "n")?, ColType::Int))?;
    let mut terms = Items::new(alloc);
    terms.push(Term::Var(var(alloc, "n")?))?;
    let mut adds: FactPatterns = Items::new(alloc);
    adds.push(FactPattern { rel: 0, terms })?;
    Ok(Action {
        name: Name::from_bytes(alloc, b"keep")?,
        params,
        deletes: Items::new(alloc),
        adds,
    })
}

#[test]
fn arguments_in_the_place_of_parameters(rt: HostRuntime) -> Result<(), Fail> {
    let alloc = rt.alloc();
    let action = keep(alloc)?.copy_in(alloc)?;
    let row = fact(alloc, 7)?.row;
    let facts = ground(alloc, &action.adds, &action.params, &row)?;
    assert!(rt; facts.as_slice() == one_fact(alloc, 7)?.as_slice());
    Ok(())
}
