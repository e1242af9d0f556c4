//! Names of what was declared before, resolved into numbers. Each part is taken out of the declaration as it is written.

ghost use Rattle.std.specs.Prelude.{◌≡◌, ◌++◌, ◌∷◌, ◌<◌, [], List, map, length, IfOk, OnOk};
ghost use Rattle.std.specs.List.{position};
ghost use Rattle.dbn_value.specs.Names.{name_eq};
ghost use Rattle.dbn_net.specs.Maybe.{each, if_given};
ghost use Rattle.dbn_net.specs.Tables.{relations, relation_names};
ghost use Rattle.dbn_net.specs.Naming.{number_of, resolved_formula, count, pattern, arc, read, call, ins_of, reads_of, is_in_clause, transition, fields_of, resolved_key, resolved_foreign, fact_pattern, resolved_action, resolved};
ghost use Rattle.dbn_net.specs.declared.written.WrittenInput.{WrittenInput as Clause};
ghost use Rattle.dbn_reader.specs.Parses.{Parses};
ghost use Rattle.dbn_reader.specs.Resolving.{moved, called};

use super::bound::bound_of;
use super::misfit::Misfit;
use super::numbers::{control_number, view_number};
use super::queue::Queue;
use dbn_formula::{Formula, Formulas};
use dbn_instance::{Action, FactPattern, FactPatterns};
use dbn_net::{
    Arc, Arcs, Call, Decl, Entry, Flags, Names, Net, Pattern, Patterns, Place, Read, Reads,
    Transition, Written, WrittenArc, WrittenArcs, WrittenAtom, WrittenAtoms, WrittenFormula,
    WrittenFormulas, WrittenInput, WrittenInputs, WrittenPattern, WrittenPatterns,
    WrittenTransition,
};
use dbn_value::{ColType, Name, Nums, Row, TypedVars, Value};
use sqlite_items::{Boxed, Items};
use std::alloc::{AllocError, Global};

/// What was found; `Shape` comes exactly where nothing was.
fn known<T: Drop>(found: Option<T>) -> Result<T, Misfit>
    ensures { Parses result found }
{
    match found {
        Some(found) => Ok(found),
        None => Err(Misfit::Shape),
    }
}

/// The number of the relation with this name.
#[tactic(auto, using(crate::proofs::NumberLaws::number_laws))]
fn relation_number(net: &Net, name: &Name) -> Result<usize, Misfit>
    ensures value { Parses result (number_of (relation_names net.now) name.now) }
    ensures within { IfOk result (λ n. n < length (relations net.now)) }
{
    match net.relation(name.as_bytes()) {
        Some(n) => Ok(n),
        None => Err(Misfit::Shape),
    }
}

/// The formula with the numbers of its relations.
#[cycle(resolved)]
#[tactic(auto, using(crate::proofs::ResolvedLaws::resolved_laws, crate::proofs::WrittenWeights::weight_laws))]
fn resolved_formula(alloc: Global, net: &Net, written: WrittenFormula) -> Result<Formula, Misfit>
    ensures { Parses result (resolved_formula (relation_names net.now) written) }
{
    match written {
        WrittenFormula::Atom { rel, terms } => {
            let rel = known(net.relation(rel.as_bytes()))?;
            Ok(Formula::Atom { rel, terms })
        }
        WrittenFormula::Test { cmp, left, right } => Ok(Formula::Test { cmp, left, right }),
        WrittenFormula::And(parts) => Ok(Formula::And(each_formula(alloc, net, parts)?)),
        WrittenFormula::Or(parts) => Ok(Formula::Or(each_formula(alloc, net, parts)?)),
        WrittenFormula::Not(part) => {
            let part = resolved_formula(alloc, net, part.into_inner())?;
            Ok(Formula::Not(Boxed::new(alloc, part)?))
        }
        WrittenFormula::Implies(left, right) => {
            let left = resolved_formula(alloc, net, left.into_inner())?;
            let right = resolved_formula(alloc, net, right.into_inner())?;
            let left = Boxed::new(alloc, left)?;
            let right = Boxed::new(alloc, right)?;
            Ok(Formula::Implies(left, right))
        }
        WrittenFormula::Exists { vars, body } => {
            let body = resolved_formula(alloc, net, body.into_inner())?;
            let body = Boxed::new(alloc, body)?;
            Ok(Formula::Exists { vars, body })
        }
        WrittenFormula::Forall { vars, body } => {
            let body = resolved_formula(alloc, net, body.into_inner())?;
            let body = Boxed::new(alloc, body)?;
            Ok(Formula::Forall { vars, body })
        }
    }
}

#[cycle(resolved)]
fn each_formula(alloc: Global, net: &Net, written: WrittenFormulas) -> Result<Formulas, Misfit>
    ensures { Parses result (each (resolved_formula (relation_names net.now)) written) }
{
    let mut left = Queue::new(alloc, written)?;
    let mut made = Items::new(alloc);
    while let Some(part) = left.pop() {
        made.push(resolved_formula(alloc, net, part)?)?;
    }
    Ok(made)
}

/// A guard names no relation: it is resolved in the net without declarations.
fn guard_formula(alloc: Global, written: WrittenFormula) -> Result<Formula, Misfit>
    ensures { Parses result (resolved_formula [] written) }
{
    let nothing = Net::empty(alloc);
    resolved_formula(alloc, &nothing, written)
}

fn resolved_guard(alloc: Global, written: Option<WrittenFormula>) -> Result<Option<Formula>, Misfit>
    ensures { Parses result (if_given (resolved_formula []) written) }
{
    match written {
        None => Ok(None),
        Some(body) => Ok(Some(guard_formula(alloc, body)?)),
    }
}

/// A number below 0 becomes 0, which the test of counts refuses.
fn count(many: i64) -> u64
    ensures { result ≡ count many }
{
    if many < 0 { 0 } else { many as u64 }
}

fn each_pattern(alloc: Global, written: WrittenPatterns) -> Result<Patterns, AllocError>
    ensures { IfOk result (λ made. made ≡ map pattern written) }
{
    let mut left = Queue::new(alloc, written)?;
    let mut made = Items::new(alloc);
    while let Some(WrittenPattern { many, terms }) = left.pop() {
        made.push(Pattern {
            many: count(many),
            terms,
        })?;
    }
    Ok(made)
}

/// The place of an arc is a control place.
fn arc_of(alloc: Global, net: &Net, written: WrittenArc) -> Result<Arc, Misfit>
    ensures { Parses result (arc net.now written) }
{
    let place = known(control_number(net, written.place.as_bytes()))?;
    let patterns = each_pattern(alloc, written.patterns)?;
    Ok(Arc { place, patterns })
}

fn each_arc(alloc: Global, net: &Net, written: WrittenArcs) -> Result<Arcs, Misfit>
    ensures { Parses result (each (arc net.now) written) }
{
    let mut left = Queue::new(alloc, written)?;
    let mut made = Items::new(alloc);
    while let Some(arc) = left.pop() {
        made.push(arc_of(alloc, net, arc)?)?;
    }
    Ok(made)
}

/// What is read is a view.
fn read_of(net: &Net, written: WrittenAtom) -> Result<Read, Misfit>
    ensures { Parses result (read net.now written) }
{
    let view = known(view_number(net, written.name.as_bytes()))?;
    Ok(Read {
        view,
        terms: written.terms,
    })
}

fn each_read(alloc: Global, net: &Net, written: WrittenAtoms) -> Result<Reads, Misfit>
    ensures { Parses result (each (read net.now) written) }
{
    let mut left = Queue::new(alloc, written)?;
    let mut made = Items::new(alloc);
    while let Some(atom) = left.pop() {
        made.push(read_of(net, atom)?)?;
    }
    Ok(made)
}

fn resolved_call(net: &Net, written: Option<WrittenAtom>) -> Result<Option<Call>, Misfit>
    ensures { Parses result (if_given (call net.now) written) }
{
    match written {
        None => Ok(None),
        Some(WrittenAtom { name, terms }) => {
            let action = known(net.action(name.as_bytes()))?;
            Ok(Some(Call {
                action,
                args: terms,
            }))
        }
    }
}

/// The `in` and the `read` clauses of a transition, with a flag for each in their order, true for an `in` clause.
#[derive(Drop)]
pub(crate) struct Inputs {
    pub(crate) ins: WrittenArcs,
    pub(crate) reads: WrittenAtoms,
    pub(crate) mixture: Flags,
}

impl Inputs {
    /// Takes up one more clause. An error is want of memory.
    #[tactic(auto, using(crate::proofs::InputLaws::input_laws))]
    fn take(&mut self, input: WrittenInput) -> Result<(), AllocError>
        ensures ins { OnOk result (self.new.ins ≡ self.old.ins ++ ins_of (input ∷ [])) }
        ensures reads { OnOk result (self.new.reads ≡ self.old.reads ++ reads_of (input ∷ [])) }
        ensures mixture { OnOk result (self.new.mixture ≡ self.old.mixture ++ is_in_clause input ∷ []) }
    {
        match input {
            WrittenInput::In(arc) => {
                self.mixture.push(true)?;
                self.ins.push(arc)
            }
            WrittenInput::Read(atom) => {
                self.mixture.push(false)?;
                self.reads.push(atom)
            }
        }
    }
}

/// An error is want of memory.
fn inputs_of(alloc: Global, written: WrittenInputs) -> Result<Inputs, AllocError>
    ensures ins { IfOk result (λ made. made.ins ≡ ins_of written) }
    ensures reads { IfOk result (λ made. made.reads ≡ reads_of written) }
    ensures mixture { IfOk result (λ made. made.mixture ≡ map is_in_clause written) }
{
    let mut made = Inputs {
        ins: Items::new(alloc),
        reads: Items::new(alloc),
        mixture: Items::new(alloc),
    };
    let mut left = Queue::new(alloc, written)?;
    while let Some(input) = left.pop() {
        made.take(input)?;
    }
    Ok(made)
}

/// What the `in` and `read` clauses take and look at, and what the `out` and `back` clauses produce.
fn moved(
    alloc: Global,
    net: &Net,
    ins: WrittenArcs,
    reads: WrittenAtoms,
    outs: WrittenArcs,
    backs: WrittenArcs,
) -> Result<(Arcs, Reads, Arcs, Arcs), Misfit>
    ensures { (written : List Clause) → ins ≡ ins_of written → reads ≡ reads_of written → Parses result (moved net.now written outs backs) }
{
    let ins = each_arc(alloc, net, ins)?;
    let reads = each_read(alloc, net, reads)?;
    let outs = each_arc(alloc, net, outs)?;
    let backs = each_arc(alloc, net, backs)?;
    Ok((ins, reads, outs, backs))
}

/// The guard and the call.
fn called(
    alloc: Global,
    net: &Net,
    guard: Option<WrittenFormula>,
    call: Option<WrittenAtom>,
) -> Result<(Option<Formula>, Option<Call>), Misfit>
    ensures { Parses result (called net.now guard call) }
{
    let guard = resolved_guard(alloc, guard)?;
    let call = resolved_call(net, call)?;
    Ok((guard, call))
}

#[tactic(auto, using(crate::proofs::TransitionLaws::transition_laws))]
fn transition_of(alloc: Global, net: &Net, written: WrittenTransition) -> Result<Transition, Misfit>
    ensures { Parses result (transition net.now written) }
{
    let WrittenTransition {
        name,
        inputs,
        guard,
        asked,
        fresh,
        call,
        outs,
        backs,
    } = written;
    let bound = bound_of(alloc, net, inputs.as_slice())?;
    let Inputs {
        ins,
        reads,
        mixture,
    } = inputs_of(alloc, inputs)?;
    let (ins, reads, outs, backs) = moved(alloc, net, ins, reads, outs, backs)?;
    let (guard, call) = called(alloc, net, guard, call)?;
    Ok(Transition {
        name,
        ins,
        reads,
        mixture,
        guard,
        asked,
        fresh,
        call,
        outs,
        backs,
        bound,
    })
}

/// The number of the column with this name. A relation has at most 16 columns.
fn column(fields: &[(Name, ColType)], name: &Name) -> Option<usize>
    ensures { result ≡ position (λ f. name_eq name.now f.0) fields.now }
{
    fields.iter().position(|field| name.same(&field.0))
}

fn column_number(fields: &[(Name, ColType)], name: &Name) -> Result<usize, Misfit>
    ensures { Parses result (number_of (map (λ f. f.0) fields.now) name.now) }
{
    known(column(fields, name))
}

/// The numbers of the columns with these names.
fn columns_of(alloc: Global, fields: &[(Name, ColType)], names: &[Name]) -> Result<Nums, Misfit>
    ensures { Parses result (each (number_of (map (λ f. f.0) fields.now)) names.now) }
{
    let mut numbers = Vec::new(alloc);
    for name in names {
        numbers.push(column_number(fields, name)?)?;
    }
    Ok(Nums::from_vec(numbers))
}

/// The numbers of the columns of the relation with these names.
fn fields_of(alloc: Global, net: &Net, rel: usize, names: &[Name]) -> Result<Nums, Misfit>
    requires { rel < length (relations net.now) }
    ensures { Parses result (fields_of net.now rel names.now) }
{
    match net.relation_at(rel) {
        Decl::Relation { name: _, fields } => columns_of(alloc, fields.as_slice(), names),
        _ => unreachable!(),
    }
}

fn resolved_key(alloc: Global, net: &Net, rel: Name, fields: Names) -> Result<Decl, Misfit>
    ensures { Parses result (resolved_key net.now rel fields) }
{
    let rel = relation_number(net, &rel)?;
    let fields = fields_of(alloc, net, rel, fields.as_slice())?;
    Ok(Decl::Key { rel, fields })
}

fn resolved_foreign(
    alloc: Global,
    net: &Net,
    rel: Name,
    fields: Names,
    to: Name,
    to_fields: Names,
) -> Result<Decl, Misfit>
    ensures { Parses result (resolved_foreign net.now rel fields to to_fields) }
{
    let rel = relation_number(net, &rel)?;
    let fields = fields_of(alloc, net, rel, fields.as_slice())?;
    let to = relation_number(net, &to)?;
    let to_fields = fields_of(alloc, net, to, to_fields.as_slice())?;
    Ok(Decl::Foreign {
        rel,
        fields,
        to,
        to_fields,
    })
}

fn fact_of(net: &Net, written: WrittenAtom) -> Result<FactPattern, Misfit>
    ensures { Parses result (fact_pattern (relation_names net.now) written) }
{
    let rel = known(net.relation(written.name.as_bytes()))?;
    Ok(FactPattern {
        rel,
        terms: written.terms,
    })
}

fn each_fact(alloc: Global, net: &Net, written: WrittenAtoms) -> Result<FactPatterns, Misfit>
    ensures { Parses result (each (fact_pattern (relation_names net.now)) written) }
{
    let mut left = Queue::new(alloc, written)?;
    let mut made = Items::new(alloc);
    while let Some(atom) = left.pop() {
        made.push(fact_of(net, atom)?)?;
    }
    Ok(made)
}

fn resolved_action(
    alloc: Global,
    net: &Net,
    name: Name,
    params: TypedVars,
    deletes: WrittenAtoms,
    adds: WrittenAtoms,
) -> Result<Decl, Misfit>
    ensures { Parses result (resolved_action net.now name params deletes adds) }
{
    let deletes = each_fact(alloc, net, deletes)?;
    let adds = each_fact(alloc, net, adds)?;
    Ok(Decl::Act(Action {
        name,
        params,
        deletes,
        adds,
    }))
}

fn key_entry(alloc: Global, net: &Net, rel: Name, fields: Names) -> Result<Entry, Misfit>
    ensures { Parses result (resolved net.now (Written.Key rel fields)) }
{
    let decl = resolved_key(alloc, net, rel, fields)?;
    Ok(Entry::Part(decl))
}

fn foreign_entry(
    alloc: Global,
    net: &Net,
    rel: Name,
    fields: Names,
    to: Name,
    to_fields: Names,
) -> Result<Entry, Misfit>
    ensures { Parses result (resolved net.now (Written.Foreign rel fields to to_fields)) }
{
    let decl = resolved_foreign(alloc, net, rel, fields, to, to_fields)?;
    Ok(Entry::Part(decl))
}

fn always_entry(alloc: Global, net: &Net, name: Name, body: WrittenFormula) -> Result<Entry, Misfit>
    ensures { Parses result (resolved net.now (Written.Always name body)) }
{
    let body = resolved_formula(alloc, net, body)?;
    Ok(Entry::Part(Decl::Always { name, body }))
}

fn query_entry(
    alloc: Global,
    net: &Net,
    name: Name,
    vars: TypedVars,
    body: WrittenFormula,
) -> Result<Entry, Misfit>
    ensures { Parses result (resolved net.now (Written.Query name vars body)) }
{
    let body = resolved_formula(alloc, net, body)?;
    Ok(Entry::Part(Decl::Query { name, vars, body }))
}

fn action_entry(
    alloc: Global,
    net: &Net,
    name: Name,
    params: TypedVars,
    deletes: WrittenAtoms,
    adds: WrittenAtoms,
) -> Result<Entry, Misfit>
    ensures { Parses result (resolved net.now (Written.Action name params deletes adds)) }
{
    let decl = resolved_action(alloc, net, name, params, deletes, adds)?;
    Ok(Entry::Part(decl))
}

fn view_entry(net: &Net, name: Name, query: Name) -> Result<Entry, Misfit>
    ensures { Parses result (resolved net.now (Written.View name query)) }
{
    let query = known(net.query(query.as_bytes()))?;
    Ok(Entry::Part(Decl::Site(Place::View { name, query })))
}

fn transition_entry(
    alloc: Global,
    net: &Net,
    transition: WrittenTransition,
) -> Result<Entry, Misfit>
    ensures { Parses result (resolved net.now (Written.Transition transition)) }
{
    let transition = transition_of(alloc, net, transition)?;
    Ok(Entry::Part(Decl::Trans(transition)))
}

fn fact_entry(net: &Net, rel: Name, row: Row<Value>) -> Result<Entry, Misfit>
    ensures { Parses result (resolved net.now (Written.Fact rel row)) }
{
    let rel = known(net.relation(rel.as_bytes()))?;
    Ok(Entry::Fact { rel, row })
}

fn token_entry(net: &Net, place: Name, many: i64, row: Row<Value>) -> Result<Entry, Misfit>
    ensures { Parses result (resolved net.now (Written.Token place many row)) }
{
    let place = known(control_number(net, place.as_bytes()))?;
    let many = count(many);
    Ok(Entry::Tokens { place, many, row })
}

/// What the declaration means.
fn entry_of(alloc: Global, net: &Net, written: Written) -> Result<Entry, Misfit>
    ensures { Parses result (resolved net.now written) }
{
    match written {
        Written::Relation { name, fields } => Ok(Entry::Part(Decl::Relation { name, fields })),
        Written::Key { rel, fields } => key_entry(alloc, net, rel, fields),
        Written::Foreign {
            rel,
            fields,
            to,
            to_fields,
        } => foreign_entry(alloc, net, rel, fields, to, to_fields),
        Written::Always { name, body } => always_entry(alloc, net, name, body),
        Written::Query { name, vars, body } => query_entry(alloc, net, name, vars, body),
        Written::Action {
            name,
            params,
            deletes,
            adds,
        } => action_entry(alloc, net, name, params, deletes, adds),
        Written::Control { name, shape } => {
            Ok(Entry::Part(Decl::Site(Place::Control { name, shape })))
        }
        Written::View { name, query } => view_entry(net, name, query),
        Written::Transition(transition) => transition_entry(alloc, net, transition),
        Written::Fact { rel, row } => fact_entry(net, rel, row),
        Written::Token { place, many, row } => token_entry(net, place, many, row),
    }
}

/// What the declaration means, with numbers in the place of names; nothing exactly where a name was not declared before, or a
/// place is of the other kind. An error is want of memory.
pub(crate) fn resolved(
    alloc: Global,
    net: &Net,
    written: Written,
) -> Result<Option<Entry>, AllocError>
    ensures { IfOk result (λ found. found ≡ resolved net.now written) }
{
    match entry_of(alloc, net, written) {
        Ok(entry) => Ok(Some(entry)),
        Err(Misfit::Shape) => Ok(None),
        Err(Misfit::Memory) => Err(AllocError),
    }
}
