ghost use Rattle.std.specs.Prelude.{◌≡◌, ◌<◌, ◌++◌, map, if◌then◌else◌, length, IfOk, OnOk};
ghost use Rattle.std.specs.List.{All};
ghost use Rattle.std.specs.BTreeSet.{insert_key};
ghost use Rattle.dbn_value.specs.Ascending.{ascending};
ghost use Rattle.dbn_instance.specs.FactOrder.{fact_cmp};
ghost use Rattle.dbn_instance.specs.Facts.{fact_of, AreInRange, lost_facts, missing_facts, net_changes, after_action, after_changes, AllFit};
ghost use Rattle.dbn_instance.specs.Shortest.{IsShortest};
ghost use Rattle.dbn_instance.specs.declared.fact.Change.TheVariants.{Plus, Minus};

use super::fact::{Change, Changes, Fact, Facts};
use super::instance::Instance;
use dbn_value::{Cell, CopyIn};
use sqlite_items::Items;
use std::alloc::{AllocError, Global};
use std::collections::BTreeSet;

/// The shortest list of changes that leads from the instance to what an action with these deleted and added facts makes of it:
/// first a Minus for each deleted fact that is there and not added, and then a Plus for each added fact that is not there,
/// each once, each part by relation and row. An error is want of memory.
pub fn net_changes<C: Cell>(
    alloc: Global,
    deletes: &Facts<C>,
    adds: &Facts<C>,
    instance: &Instance<C>,
) -> Result<Changes<C>, AllocError>
    requires deletes { AreInRange instance.now deletes.now }
    requires adds { AreInRange instance.now adds.now }
    ensures exact { IfOk result (λ changes. changes ≡ net_changes C.cmp deletes.now adds.now instance.now) }
    ensures leads { IfOk result (λ changes. after_changes C.cmp changes instance.now ≡ after_action C.cmp deletes.now adds.now instance.now) }
    ensures shortest { IfOk result (λ changes. IsShortest C.cmp changes instance.now) }
    ensures in_range { IfOk result (λ changes. All (λ c. (fact_of c).rel < length instance.now) changes) }
    ensures fits { IfOk result (λ changes. AllFit C.cmp changes instance.now) }
{
    let added = fact_set(alloc, adds.as_slice())?;
    let lost = lost(alloc, deletes.as_slice(), &added, instance)?;
    let mut changes = Items::new(alloc);
    push_minuses(&mut changes, lost)?;
    push_pluses(&mut changes, added, instance)?;
    // The call tells the proof that the rows of each relation ascend.
    let _count = instance.relations();
    Ok(changes)
}

/// The facts, each once.
fn fact_set<C: Cell>(alloc: Global, facts: &[Fact<C>]) -> Result<BTreeSet<Fact<C>>, AllocError>
    ensures { IfOk result (λ set. set.keys ≡ ascending (fact_cmp C.cmp) facts.now) }
{
    let mut set = BTreeSet::new(alloc);
    for fact in facts {
        set.insert(fact.copy_in(alloc)?)?;
    }
    Ok(set)
}

/// The deleted facts that are there and not added.
fn lost<C: Cell>(
    alloc: Global,
    deletes: &[Fact<C>],
    added: &BTreeSet<Fact<C>>,
    instance: &Instance<C>,
) -> Result<BTreeSet<Fact<C>>, AllocError>
    requires { AreInRange instance.now deletes.now }
    ensures { IfOk result (λ lost. lost.keys ≡ lost_facts C.cmp deletes.now added.now.keys instance.now) }
{
    let mut lost = BTreeSet::new(alloc);
    for fact in deletes {
        let wanted = instance.has(fact) && !added.contains(fact);
        keep(alloc, &mut lost, fact, wanted)?;
    }
    Ok(lost)
}

/// Adds a copy of the fact to the set, where it is wanted.
fn keep<C: Cell>(
    alloc: Global,
    set: &mut BTreeSet<Fact<C>>,
    fact: &Fact<C>,
    wanted: bool,
) -> Result<(), AllocError>
    ensures { OnOk result (set.new.keys ≡ (if wanted then insert_key (fact_cmp C.cmp) set.old.keys fact.now else set.old.keys)) }
{
    if wanted {
        set.insert(fact.copy_in(alloc)?)?;
    }
    Ok(())
}

/// Appends a Minus for each of the facts.
fn push_minuses<C: Cell>(
    changes: &mut Changes<C>,
    facts: BTreeSet<Fact<C>>,
) -> Result<(), AllocError>
    ensures { OnOk result (changes.new ≡ changes.old ++ map (λ f. Minus f) facts.keys) }
{
    for fact in facts {
        changes.push(Change::Minus(fact))?;
    }
    Ok(())
}

/// Appends a Plus for each of the added facts that is not there.
fn push_pluses<C: Cell>(
    changes: &mut Changes<C>,
    added: BTreeSet<Fact<C>>,
    instance: &Instance<C>,
) -> Result<(), AllocError>
    requires { AreInRange instance.now added.keys }
    ensures { OnOk result (changes.new ≡ changes.old ++ map (λ f. Plus f) (missing_facts C.cmp added.keys instance.now)) }
{
    for fact in added {
        if !instance.has(&fact) {
            changes.push(Change::Plus(fact))?;
        }
    }
    Ok(())
}
