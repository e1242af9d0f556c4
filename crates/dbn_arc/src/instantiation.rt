ghost use Rattle.std.specs.Prelude.{◌≡◌, [], map, IfOk, OnOk};
ghost use Rattle.std.specs.List.Sorted.{IsStrictlySortedBy};
ghost use Rattle.std.specs.Map.{keys_of};
ghost use Rattle.dbn_value.specs.Scope.{bind};
ghost use Rattle.dbn_marking.specs.Counts.{added};
ghost use Rattle.dbn_net.specs.Wants.{spot_cmp, bound_token, wants};
ghost use Rattle.dbn_arc.specs.Sums.{with_all, want_of};

use dbn_net::{Arcs, Pattern, Want, Wants};
use dbn_value::{ColType, Row, TypedVars, Value, Var, row_of};
use std::alloc::{AllocError, Global};
use std::collections::BTreeMap;

/// How many tokens there are by place and row.
type Sums = BTreeMap<(usize, Row<Value>), u128>;

/// The tokens that the patterns of the arcs stand for under the variables of the scope with the values of the row, one after
/// the other: each place and row once, ascending, with the sum of its numbers. A variable without a value stands for the int 0.
/// An error is want of memory; it also comes where a sum would reach 2^128.
#[tactic(auto, using(crate::proofs::SumLaws::arc_more, crate::proofs::SumLaws::wants_made, crate::proofs::SumLaws::sums_sorted))]
pub fn instantiate(
    alloc: Global,
    arcs: &Arcs,
    scope: &TypedVars,
    row: &Row<Value>,
) -> Result<Wants<Value>, AllocError>
    ensures { IfOk result (λ wanted. wanted ≡ wants (bind scope.now row.now []) arcs.now) }
{
    let mut sums = BTreeMap::new(alloc);
    for arc in arcs.as_slice() {
        add_patterns(
            alloc,
            &mut sums,
            arc.place,
            arc.patterns.as_slice(),
            scope.as_slice(),
            row,
        )?;
    }
    into_wants(alloc, sums)
}

/// Adds what the patterns stand for to the place.
fn add_patterns(
    alloc: Global,
    sums: &mut Sums,
    place: usize,
    patterns: &[Pattern],
    scope: &[(Var, ColType)],
    row: &Row<Value>,
) -> Result<(), AllocError>
    ensures { OnOk result (sums.new.entries ≡ with_all sums.old.entries (map (bound_token (bind scope.now row.now []) place) patterns.now)) }
{
    for pattern in patterns {
        let made = row_of(alloc, pattern.terms.as_slice(), scope, row)?;
        add_tokens(sums, place, made, pattern.many)?;
    }
    Ok(())
}

fn add_tokens(sums: &mut Sums, place: usize, row: Row<Value>, many: u64) -> Result<(), AllocError>
    ensures { OnOk result (sums.new.entries ≡ added spot_cmp sums.old.entries (place, row) many) }
{
    let spot = (place, row);
    let so_far = sums.get(&spot).copied().unwrap_or(0);
    match so_far.checked_add(u128::from(many)) {
        Some(sum) => {
            sums.insert(spot, sum)?;
            Ok(())
        }
        None => Err(AllocError),
    }
}

/// The sums as wants.
#[tactic(auto, using(crate::proofs::SumLaws::wants_sorted))]
fn into_wants(alloc: Global, sums: Sums) -> Result<Wants<Value>, AllocError>
    requires { IsStrictlySortedBy spot_cmp (keys_of sums.entries) }
    ensures { IfOk result (λ wanted. wanted ≡ map want_of sums.entries) }
{
    let mut wants = Vec::new(alloc);
    for ((place, row), many) in sums {
        wants.push(Want { place, row, many })?;
    }
    Ok(Wants::from_vec(wants))
}
