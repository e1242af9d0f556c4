//! The bound variables of transitions.

ghost use Rattle.std.specs.Prelude.{◌≡◌, ◌++◌, ◌∷◌, [], slice_index_or, IfOk, OnOk};
ghost use Rattle.std.specs.List.{flat_map};
ghost use Rattle.dbn_formula.specs.Variables.{binds};
ghost use Rattle.dbn_net.specs.Naming.{typed_variable, typed_occurrences, input_occurrences, bound_of};
ghost use Rattle.dbn_reader.specs.Bound.{with_typed, with_all};

use super::numbers::{columns_at, control_number, view_number};
use dbn_net::{Net, WrittenInput, WrittenPattern};
use dbn_value::{ColType, CopyIn, Term, TypedVars, Var};
use sqlite_items::Items;
use std::alloc::{AllocError, Global};
use std::collections::BTreeSet;
use std::marker::Model;

/// Variables with types, each once, and a set of them to look them up in.
#[derive(Drop)]
struct Firsts {
    vars: TypedVars,
    known: BTreeSet<Var>,
}

impl Model for Firsts {
    ghost use Rattle.std.specs.Prelude.{map};
    ghost use Rattle.dbn_formula.specs.Variables.{TypedVars};
    ghost use Rattle.dbn_formula.specs.Known.{Knows};

    ghost Value = { TypedVars };

    ghost view = { λ f. f.vars };

    ghost invariant = { λ f. Knows f.known.keys (map (λ x. x.0) f.vars) };
}

impl Firsts {
    /// No variables. This takes no memory.
    fn new(alloc: Global) -> Firsts
        ensures { result ≡ [] }
    {
        Firsts {
            vars: Items::new(alloc),
            known: BTreeSet::new(alloc),
        }
    }

    /// Appends a copy of the variable.
    fn push(&mut self, alloc: Global, var: &Var, kind: ColType) -> Result<(), AllocError>
        ensures { OnOk result (self.new ≡ self.old ++ (var.now, kind) ∷ []) }
    {
        let known = var.copy_in(alloc)?;
        let listed = var.copy_in(alloc)?;
        self.vars.push((listed, kind))?;
        if self.known.insert(known).is_err() {
            self.vars.pop();
            return Err(AllocError);
        }
        Ok(())
    }

    /// Whether the variable is in the list.
    #[tactic(auto, using(crate::proofs::BoundLaws::known_laws))]
    fn has(&self, var: &Var) -> bool
        ensures { result ≡ binds self.now var.now }
    {
        self.known.contains(var)
    }

    fn into_vars(self) -> TypedVars
        ensures { result ≡ self }
    {
        let Firsts { vars, known: _ } = self;
        vars
    }
}

/// Appends the variable, unless it is there already.
#[tactic(auto, unfolding(crate::specs::Bound::with_typed))]
fn add_first(alloc: Global, firsts: &mut Firsts, var: &Var, kind: ColType) -> Result<(), AllocError>
    ensures { OnOk result (firsts.new ≡ with_typed firsts.old (var.now, kind)) }
{
    if firsts.has(var) {
        return Ok(());
    }
    firsts.push(alloc, var, kind)
}

/// Appends the variable, if the term is one that isn't there already.
fn add_term(
    alloc: Global,
    firsts: &mut Firsts,
    term: &Term,
    kind: ColType,
) -> Result<(), AllocError>
    ensures { OnOk result (firsts.new ≡ with_all firsts.old (typed_variable term.now kind)) }
{
    match term {
        Term::Var(var) => add_first(alloc, firsts, var, kind),
        Term::Const(_) => Ok(()),
    }
}

/// The type of the column; behind the last one, some type.
fn type_at(shape: &[ColType], at: usize) -> ColType
    ensures { result ≡ slice_index_or shape.now at ColType.Int }
{
    match shape.get(at) {
        Some(kind) => *kind,
        None => ColType::Int,
    }
}

/// Appends the variables among the terms, with the types of their columns.
fn add_terms(
    alloc: Global,
    firsts: &mut Firsts,
    terms: &[Term],
    shape: &[ColType],
) -> Result<(), AllocError>
    ensures { OnOk result (firsts.new ≡ with_all firsts.old (typed_occurrences terms.now shape.now)) }
{
    for (at, term) in terms.iter().enumerate() {
        let kind = type_at(shape, at);
        add_term(alloc, firsts, term, kind)?;
    }
    Ok(())
}

fn add_patterns(
    alloc: Global,
    firsts: &mut Firsts,
    patterns: &[WrittenPattern],
    shape: &[ColType],
) -> Result<(), AllocError>
    ensures { OnOk result (firsts.new ≡ with_all firsts.old (flat_map (λ h. typed_occurrences h.terms shape.now) patterns.now)) }
{
    for pattern in patterns {
        add_terms(alloc, firsts, pattern.terms.as_slice(), shape)?;
    }
    Ok(())
}

fn add_input(
    alloc: Global,
    net: &Net,
    firsts: &mut Firsts,
    input: &WrittenInput,
) -> Result<(), AllocError>
    ensures { OnOk result (firsts.new ≡ with_all firsts.old (input_occurrences net.now input.now)) }
{
    let sites = net.place_shapes();
    match input {
        WrittenInput::In(arc) => {
            let shape = columns_at(sites, control_number(net, arc.place.as_bytes()));
            add_patterns(alloc, firsts, arc.patterns.as_slice(), shape)
        }
        WrittenInput::Read(atom) => {
            let shape = columns_at(sites, view_number(net, atom.name.as_bytes()));
            add_terms(alloc, firsts, atom.terms.as_slice(), shape)
        }
    }
}

/// The variables of the `in` and `read` clauses, each once, with the type of its first occurrence. An error is want of memory.
pub(crate) fn bound_of(
    alloc: Global,
    net: &Net,
    inputs: &[WrittenInput],
) -> Result<TypedVars, AllocError>
    ensures { IfOk result (λ vars. vars ≡ bound_of net.now inputs.now) }
{
    let mut firsts = Firsts::new(alloc);
    for input in inputs {
        add_input(alloc, net, &mut firsts, input)?;
    }
    Ok(firsts.into_vars())
}
