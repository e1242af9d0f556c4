//! Nets as values.

ghost use Rattle.std.specs.Prelude.{◌≡◌, ◌<◌, ◌≤◌, ◌^◌, ◌++◌, ◌∷◌, [], ℕ, List, OnOk, OnErr, not, length, Some, true, slice_get};
ghost use Rattle.dbn_formula.specs.Solutions.{AcceptsQuery};
ghost use Rattle.dbn_net.specs.declared.decl.Decl.{Decl};
ghost use Rattle.dbn_net.specs.Tables.{Question, Table, relation_in, query_in, relations, queries, actions, places, transitions, relation_names, always_names, query_names, action_names, place_names, transition_names, relation_shapes, place_shapes, shapes};
ghost use Rattle.dbn_net.specs.Naming.{number_of};
ghost use Rattle.dbn_net.specs.Judging.{is_new};
ghost use Rattle.dbn_net.specs.Sentences.{labelled_sentences, violations as net_violations};
ghost use Rattle.dbn_net.specs.WellFormed.{Passes, WellFormed, Fits, action_fits};
ghost use Rattle.dbn_net.specs.Values.{past_ids, rule_values, next_after};

use super::decl::{Decl, Decls, Place};
use super::first_ids::{greater, noted, past_instance, past_marking};
use super::rules::Transition;
use super::snapshot::Snapshot;
use super::tables::Tables;
use super::violation::Violations;
use dbn_instance::Action;
use dbn_value::Shapes;
use sqlite_items::Items;
use std::alloc::{AllocError, Global};
use std::marker::Model;

/// A net: its declarations, each of which may follow those before it, with tables of what they declare.
#[derive(Drop)]
pub struct Net {
    decls: Decls,
    tables: Tables,
}

impl Model for Net {
    ghost use Rattle.std.specs.Prelude.{List};
    ghost use Rattle.std.specs.Coded.{codes};
    ghost use Rattle.dbn_net.specs.declared.decl.Decl.{Decl};
    ghost use Rattle.dbn_formula.specs.contracts.formula.Formula as formula;
    ghost use Rattle.dbn_net.specs.Kept.{Kept};

    ghost Value = { List Decl };

    ghost coded = { Prim.hlevel (codes, formula.the_row.coded) };

    ghost view = { λ n. n.decls };

    ghost invariant = { λ n. Kept n.decls n.tables };
}

impl Net {
    /// The net without declarations. This takes no memory.
    pub fn empty(alloc: Global) -> Net
        ensures { result ≡ [] }
    {
        Net {
            decls: Items::new(alloc),
            tables: Tables::empty(alloc),
        }
    }

    /// Adds a declaration that may follow those of the net. After want of memory nothing changed.
    #[tactic(auto, using(crate::proofs::AddLaws::new_entered))]
    pub fn add(&mut self, alloc: Global, decl: Decl) -> Result<(), AllocError>
        requires { Passes self.old decl }
        ensures ok { OnOk result (self.new ≡ self.old ++ decl ∷ []) }
        ensures err { OnErr result (self.new ≡ self.old) }
    {
        let tables = &self.tables;
        let noted = noted(alloc, &tables.relations.types, &tables.queries.types, &decl)?;
        let place = self.decls.len();
        self.decls.push(decl)?;
        match self.tables.enter(place, noted) {
            Ok(()) => Ok(()),
            Err(_) => {
                drop_last(&mut self.decls);
                Err(AllocError)
            }
        }
    }

    /// How many relations there are.
    pub fn relations(&self) -> usize
        ensures { result ≡ length (relations self.now) }
    {
        self.tables.relations.types.len()
    }

    /// How many queries there are.
    pub fn queries(&self) -> usize
        ensures { result ≡ length (queries self.now) }
    {
        self.tables.queries.types.len()
    }

    /// How many actions there are.
    pub fn actions(&self) -> usize
        ensures { result ≡ length (actions self.now) }
    {
        self.tables.actions.types.len()
    }

    /// How many places there are, control and view places together.
    pub fn places(&self) -> usize
        ensures { result ≡ length (places self.now) }
    {
        self.tables.places.types.len()
    }

    /// How many transitions there are.
    pub fn transitions(&self) -> usize
        ensures { result ≡ length (transitions self.now) }
    {
        self.tables.transitions.types.len()
    }

    /// How many sentences there are: keys, foreign keys and `always`.
    pub fn sentences(&self) -> usize
        ensures { result ≡ length (labelled_sentences self.now) }
    {
        self.tables.denials.len()
    }

    /// The declarations in order. Each may follow those before it.
    pub fn decls(&self) -> &Decls
        ensures value { result.now ≡ self.now }
        ensures net { WellFormed self.now }
    {
        &self.decls
    }

    /// The types of the columns of each relation.
    pub fn rel_shapes(&self) -> &Shapes
        ensures { result.now ≡ relation_shapes self.now }
    {
        &self.tables.relations.types
    }

    /// The types of the columns of each place.
    pub fn place_shapes(&self) -> &Shapes
        ensures { result.now ≡ place_shapes self.now }
    {
        &self.tables.places.types
    }

    /// The types of the row of a firing of each transition: those of its bound variables and then of its asked ones.
    pub fn shapes(&self) -> &Shapes
        ensures { result.now ≡ shapes self.now }
    {
        &self.tables.transitions.types
    }

    /// One more than the greatest id that is written in the net, or 0 where there is none.
    fn past(&self) -> u64
        ensures value { result ≡ past_ids (rule_values self.now) }
        ensures small { result ≤ 2 ^ 62 }
    {
        self.tables.past
    }

    /// The n-th relation.
    pub fn relation_at(&self, n: usize) -> &Decl
        requires { n < length (relations self.now) }
        ensures { relation_in result.now ≡ slice_get (relations self.now) n }
    {
        nth(&self.decls, &self.tables.relations.at, n)
    }

    /// The n-th query, which is accepted over the relations of the net.
    pub fn query_at(&self, n: usize) -> &Decl
        requires { n < length (queries self.now) }
        ensures value { query_in result.now ≡ slice_get (queries self.now) n }
        ensures accepted { (q : Question) → query_in result.now ≡ Some q → AcceptsQuery (relation_shapes self.now) q.vars q.body }
    {
        nth(&self.decls, &self.tables.queries.at, n)
    }

    /// The n-th action. The facts that it adds are of relations of the net, and typed.
    pub fn action_at(&self, n: usize) -> &Action
        requires { n < length (actions self.now) }
        ensures value { slice_get (actions self.now) n ≡ Some result.now }
        ensures fits { action_fits self.now result.now ≡ true }
    {
        match nth(&self.decls, &self.tables.actions.at, n) {
            Decl::Act(action) => action,
            _ => unreachable!(),
        }
    }

    /// The n-th place, control and view places together.
    pub fn place_at(&self, n: usize) -> &Place
        requires { n < length (places self.now) }
        ensures { slice_get (places self.now) n ≡ Some result.now }
    {
        match nth(&self.decls, &self.tables.places.at, n) {
            Decl::Site(place) => place,
            _ => unreachable!(),
        }
    }

    /// The n-th transition. Its numbers are in range, its terms are typed, and its numbers of tokens are counts.
    pub fn transition_at(&self, n: usize) -> &Transition
        requires { n < length (transitions self.now) }
        ensures value { slice_get (transitions self.now) n ≡ Some result.now }
        ensures fits { Fits self.now result.now }
    {
        match nth(&self.decls, &self.tables.transitions.at, n) {
            Decl::Trans(transition) => transition,
            _ => unreachable!(),
        }
    }

    /// The number of the relation with this name, if there is one.
    pub fn relation(&self, name: &[u8]) -> Option<usize>
        ensures { result ≡ number_of (relation_names self.now) name.now }
    {
        self.tables.relations.names.number(name)
    }

    /// Whether an `always` sentence has this name.
    pub fn has_always(&self, name: &[u8]) -> bool
        ensures { result ≡ not (is_new (always_names self.now) name.now) }
    {
        !self.tables.always.is_new(name)
    }

    /// The number of the query with this name, if there is one.
    pub fn query(&self, name: &[u8]) -> Option<usize>
        ensures { result ≡ number_of (query_names self.now) name.now }
    {
        self.tables.queries.names.number(name)
    }

    /// The number of the action with this name, if there is one.
    pub fn action(&self, name: &[u8]) -> Option<usize>
        ensures { result ≡ number_of (action_names self.now) name.now }
    {
        self.tables.actions.names.number(name)
    }

    /// The number of the place with this name, if there is one.
    pub fn place(&self, name: &[u8]) -> Option<usize>
        ensures { result ≡ number_of (place_names self.now) name.now }
    {
        self.tables.places.names.number(name)
    }

    /// The number of the transition with this name, if there is one.
    pub fn transition(&self, name: &[u8]) -> Option<usize>
        ensures { result ≡ number_of (transition_names self.now) name.now }
    {
        self.tables.transitions.names.number(name)
    }
}

/// Takes the last declaration away.
fn drop_last(decls: &mut Decls)
    ensures { (before : List Decl) (last : Decl) → decls.old ≡ before ++ last ∷ [] → decls.new ≡ before }
{
    let _last = decls.pop();
}

/// The declaration at the n-th of these places.
#[tactic(auto, using(crate::proofs::Listed::get_within))]
fn nth<'net>(decls: &'net Decls, at: &Items<usize>, n: usize) -> &'net Decl
    requires { (i : ℕ) × (slice_get at.now n ≡ Some i) × (d : Decl) × (slice_get decls.now i ≡ Some d) }
    ensures { (i : ℕ) → slice_get at.now n ≡ Some i → slice_get decls.now i ≡ Some result.now }
{
    &decls.as_slice()[at.as_slice()[n]]
}

/// One more than the greatest id of the facts, the tokens and the declarations, or 0 where there is none: the first id that a
/// fresh variable may get. The numbers of the snapshot are not looked at. This takes no memory.
#[tactic(auto, using(crate::proofs::NextLaws::next_made))]
pub fn start_next(net: &Net, at: &Snapshot) -> u64
    ensures value { result ≡ next_after net.now at.now.instance at.now.marking }
    ensures small { result ≤ 2 ^ 62 }
{
    let facts = past_instance(&at.instance);
    let tokens = past_marking(&at.marking);
    greater(greater(facts, tokens), net.past())
}

/// The violations of the sentences, in order of declaration.
pub fn violations(net: &Net) -> &Violations
    ensures { result.now ≡ net_violations net.now }
{
    &net.tables.denials
}
