//! The rows that enable a transition: the answers of one query, whose atoms are the patterns and reads of the transition over
//! the rows that their places show, as far as the numbers of tokens and the guard let them pass.

ghost use Rattle.std.specs.Prelude.{◌≡◌, ◌++◌, ◌∷◌, ◌<◌, List, [], map, length, if◌then◌else◌, IfOk, OnOk};
ghost use Rattle.std.specs.List.{flat_map, AllByRecursion};
ghost use Rattle.std.specs.List.Sorted.{IsStrictlySortedBy};
ghost use Rattle.std.specs.Map.{keys_of};
ghost use Rattle.dbn_value.specs.declared.value.ColType.{ColType as Column};
ghost use Rattle.dbn_value.specs.Order.{row_cmp};
ghost use Rattle.dbn_formula.specs.Solutions.{HasShape, HasShapes};
ghost use Rattle.dbn_marking.specs.Counts.{place_of};
ghost use Rattle.dbn_net.specs.Tables.{places, relation_shapes, types_of};
ghost use Rattle.dbn_net.specs.Enabled.{bindings};
ghost use Rattle.dbn_net.specs.Good.{Good};
ghost use Rattle.dbn_core.specs.Standing.{Stands};
ghost use Rattle.dbn_slow.specs.Clauses.{Clause, arc_clauses, read_clause, candidates, passes, IsJoined};

use super::enabling::{has_tokens, is_guarded};
use super::views::view_rows;
use dbn_formula::{Formula, Formulas};
use dbn_instance::{Fact, Instance};
use dbn_marking::Marking;
use dbn_net::{Arc, Net, Pattern, Read, Snapshot, Transition};
use dbn_scratch::answers;
use dbn_value::{CopyIn, Row, Rows, Terms, Value};
use sqlite_items::Items;
use std::alloc::{AllocError, Global};

/// The rows of the bound variables that enable the transition, ascending. An error is want of memory.
pub(crate) fn bindings(
    alloc: Global,
    net: &Net,
    at: &Snapshot,
    transition: &Transition,
) -> Result<Rows, AllocError>
    requires stands { Stands net.now transition.now }
    requires good { Good net.now at.now }
    ensures { IfOk result (λ rows. rows ≡ bindings net.now transition.now at.now.instance at.now.marking) }
{
    let found = candidates(alloc, net, at, transition)?;
    let mut rows = Items::new(alloc);
    for row in found.as_slice() {
        let passed = passes(alloc, at, transition, row)?;
        keep(alloc, &mut rows, row, passed)?;
    }
    Ok(rows)
}

/// Whether the numbers of tokens and the guard let the row pass. An error is want of memory.
fn passes(
    alloc: Global,
    at: &Snapshot,
    transition: &Transition,
    row: &Row<Value>,
) -> Result<bool, AllocError>
    requires { HasShape row.now (types_of transition.now.bound) }
    ensures { IfOk result (λ b. b ≡ passes transition.now at.now.marking row.now) }
{
    Ok(has_tokens(alloc, at, transition, row)? && is_guarded(transition, row))
}

/// Appends a copy of the row, where it passed. An error is want of memory.
fn keep(alloc: Global, rows: &mut Rows, row: &Row<Value>, passed: bool) -> Result<(), AllocError>
    ensures { OnOk result (rows.new ≡ (if passed then rows.old ++ row.now ∷ [] else rows.old)) }
{
    if passed {
        rows.push(row.copy_in(alloc)?)?;
    }
    Ok(())
}

/// The rows that meet each pattern and each read, whatever the numbers of tokens. An error is want of memory.
fn candidates(
    alloc: Global,
    net: &Net,
    at: &Snapshot,
    transition: &Transition,
) -> Result<Rows, AllocError>
    requires stands { Stands net.now transition.now }
    requires good { Good net.now at.now }
    ensures { IfOk result (λ rows. rows ≡ candidates net.now transition.now at.now.instance at.now.marking) }
{
    let mut atoms = Items::new(alloc);
    let mut shown = Instance::new(alloc, 0)?;
    add_arcs(
        alloc,
        net,
        &at.marking,
        transition.ins.as_slice(),
        &mut atoms,
        &mut shown,
    )?;
    add_reads(
        alloc,
        net,
        &at.instance,
        transition.reads.as_slice(),
        &mut atoms,
        &mut shown,
    )?;
    answers(alloc, &Formula::And(atoms), &transition.bound, &shown)
}

/// Adds the patterns of the arcs to the query. An error is want of memory.
fn add_arcs(
    alloc: Global,
    net: &Net,
    marking: &Marking<Value>,
    arcs: &[Arc],
    atoms: &mut Formulas,
    shown: &mut Instance<Value>,
) -> Result<(), AllocError>
    requires { AllByRecursion (λ arc. arc.place < length marking.now) arcs.now }
    ensures { (cs : List Clause) → IsJoined cs atoms.old shown.old → OnOk result (IsJoined (cs ++ flat_map (arc_clauses net.now marking.now) arcs.now) atoms.new shown.new) }
{
    for arc in arcs {
        add_arc(alloc, net, marking, arc, atoms, shown)?;
    }
    Ok(())
}

/// Adds the patterns of the arc to the query. An error is want of memory.
#[tactic(auto, using(crate::proofs::JoinLaws::keys_sorted))]
fn add_arc(
    alloc: Global,
    net: &Net,
    marking: &Marking<Value>,
    arc: &Arc,
    atoms: &mut Formulas,
    shown: &mut Instance<Value>,
) -> Result<(), AllocError>
    requires { arc.now.place < length marking.now }
    ensures { (cs : List Clause) → IsJoined cs atoms.old shown.old → OnOk result (IsJoined (cs ++ arc_clauses net.now marking.now arc.now) atoms.new shown.new) }
{
    let _places = marking.places();
    let rows = held(alloc, marking, arc.place)?;
    for pattern in arc.patterns.as_slice() {
        add_clause(alloc, &pattern.terms, rows.as_slice(), atoms, shown)?;
    }
    Ok(())
}

/// The rows that have tokens in the place, ascending. An error is want of memory.
fn held(alloc: Global, marking: &Marking<Value>, place: usize) -> Result<Rows, AllocError>
    requires { place < length marking.now }
    ensures { IfOk result (λ rows. rows ≡ keys_of (place_of marking.now place)) }
{
    let mut rows = Items::new(alloc);
    for (row, _) in marking.counts(place) {
        rows.push(row.copy_in(alloc)?)?;
    }
    Ok(rows)
}

/// Adds the reads to the query. An error is want of memory.
fn add_reads(
    alloc: Global,
    net: &Net,
    instance: &Instance<Value>,
    reads: &[Read],
    atoms: &mut Formulas,
    shown: &mut Instance<Value>,
) -> Result<(), AllocError>
    requires views { AllByRecursion (λ r. r.view < length (places net.now)) reads.now }
    requires fits { HasShapes (relation_shapes net.now) instance.now }
    ensures { (cs : List Clause) → IsJoined cs atoms.old shown.old → OnOk result (IsJoined (cs ++ map (read_clause net.now instance.now) reads.now) atoms.new shown.new) }
{
    for read in reads {
        let rows = view_rows(alloc, net, instance, read.view)?;
        add_clause(alloc, &read.terms, rows.as_slice(), atoms, shown)?;
    }
    Ok(())
}

/// Adds an atom over a new relation with the rows. An error is want of memory.
fn add_clause(
    alloc: Global,
    terms: &Terms,
    rows: &[Row<Value>],
    atoms: &mut Formulas,
    shown: &mut Instance<Value>,
) -> Result<(), AllocError>
    requires { IsStrictlySortedBy row_cmp rows.now }
    ensures { (cs : List Clause) (shape : List Column) → IsJoined cs atoms.old shown.old → OnOk result (IsJoined (cs ++ record { terms = terms.now; shape = shape; rows = rows.now } ∷ []) atoms.new shown.new) }
{
    let rel = shown.relations();
    shown.add_relation(alloc)?;
    for row in rows {
        let row = row.copy_in(alloc)?;
        shown.insert(alloc, Fact { rel, row })?;
    }
    let terms = terms.copy_in(alloc)?;
    atoms.push(Formula::Atom { rel, terms })
}
