//! The tables that are kept of a net. Each grows by what one more declaration adds, or stays as it was.

ghost use Rattle.std.specs.Prelude.{◌≡◌, ◌++◌, ◌∷◌, [], ℕ, List, true, OnOk, OnErr};
ghost use Rattle.dbn_value.specs.declared.value.ColType.{ColType};
ghost use Rattle.dbn_net.specs.declared.violation.Named.{Named};
ghost use Rattle.dbn_net.specs.Judging.{is_new};
ghost use Rattle.dbn_net.specs.Kept.{Kept, with_head, with_line, with_past, with_noted, is_new_line};

use super::first_ids::greater;
use super::names::NameTable;
use super::violation::{Named, Violations};
use dbn_value::{Bytes, Shape, Shapes};
use sqlite_items::Items;
use std::alloc::{AllocError, Global};

/// The name of a declaration, and the types of its columns, parameters or variables.
#[derive(Drop)]
pub(crate) struct Head {
    pub(crate) name: Bytes,
    pub(crate) types: Shape,
}

/// What a declaration adds to the tables.
#[derive(Drop)]
pub(crate) enum Line {
    Relation(Head),
    Query(Head),
    Action(Head),
    Place(Head),
    Transition(Head),
    Sentence(Named),
    Always(Bytes, Named),
}

/// What a declaration adds to the tables, and one more than the greatest id that is written in it, or 0 where there is none.
#[derive(Drop)]
pub(crate) struct Noted {
    pub(crate) line: Line,
    pub(crate) past: u64,
}

/// The declarations of one kind: the places at which they stand in the net, their names and their types.
#[derive(Drop)]
pub(crate) struct Kind {
    pub(crate) at: Items<usize>,
    pub(crate) names: NameTable,
    pub(crate) types: Shapes,
}

/// The tables of a net.
#[derive(Drop)]
pub(crate) struct Tables {
    pub(crate) relations: Kind,
    pub(crate) queries: Kind,
    pub(crate) actions: Kind,
    pub(crate) places: Kind,
    pub(crate) transitions: Kind,
    pub(crate) always: NameTable,
    pub(crate) denials: Violations,
    /// One more than the greatest id that is written in the net, or 0 where there is none.
    pub(crate) past: u64,
}

impl Kind {
    /// The tables of no declaration. This takes no memory.
    pub(crate) fn empty(alloc: Global) -> Kind
        ensures at { result.at ≡ [] }
        ensures names { result.names ≡ [] }
        ensures types { result.types ≡ [] }
    {
        Kind {
            at: Items::new(alloc),
            names: NameTable::new(alloc),
            types: Items::new(alloc),
        }
    }

    /// Enters a declaration of the kind, which stands at this place. After want of memory nothing changed.
    fn enter(&mut self, place: usize, head: Head) -> Result<(), AllocError>
        requires { is_new self.old.names head.name ≡ true }
        ensures ok { OnOk result (self.new ≡ with_head self.old place head) }
        ensures err { OnErr result (self.new ≡ self.old) }
    {
        enter_all(
            &mut self.at,
            &mut self.names,
            &mut self.types,
            place,
            head.name,
            head.types,
        )
    }
}

/// Pushes to each of the tables, or to none.
fn enter_all(
    at: &mut Items<usize>,
    names: &mut NameTable,
    types: &mut Shapes,
    place: usize,
    name: Bytes,
    columns: Shape,
) -> Result<(), AllocError>
    requires { is_new names.old name ≡ true }
    ensures at { OnOk result (at.new ≡ at.old ++ place ∷ []) }
    ensures names { OnOk result (names.new ≡ names.old ++ name ∷ []) }
    ensures types { OnOk result (types.new ≡ types.old ++ columns ∷ []) }
    ensures at_err { OnErr result (at.new ≡ at.old) }
    ensures names_err { OnErr result (names.new ≡ names.old) }
    ensures types_err { OnErr result (types.new ≡ types.old) }
{
    types.push(columns)?;
    match names.enter(name.into_vec()) {
        Ok(()) => {}
        Err(_) => {
            drop_types(types);
            return Err(AllocError);
        }
    }
    match at.push(place) {
        Ok(()) => Ok(()),
        Err(_) => {
            names.pop();
            drop_types(types);
            Err(AllocError)
        }
    }
}

/// Takes the last types away.
fn drop_types(types: &mut Shapes)
    ensures { (before : List (List ColType)) (last : List ColType) → types.old ≡ before ++ last ∷ [] → types.new ≡ before }
{
    let _last = types.pop();
}

/// Takes the last denial away.
fn drop_denial(denials: &mut Violations)
    ensures { (before : List Named) (last : Named) → denials.old ≡ before ++ last ∷ [] → denials.new ≡ before }
{
    let _last = denials.pop();
}

/// Enters a sentence with a name, or neither.
fn enter_always(
    always: &mut NameTable,
    denials: &mut Violations,
    name: Bytes,
    denial: Named,
) -> Result<(), AllocError>
    requires { is_new always.old name ≡ true }
    ensures always { OnOk result (always.new ≡ always.old ++ name ∷ []) }
    ensures denials { OnOk result (denials.new ≡ denials.old ++ denial ∷ []) }
    ensures always_err { OnErr result (always.new ≡ always.old) }
    ensures denials_err { OnErr result (denials.new ≡ denials.old) }
{
    denials.push(denial)?;
    match always.enter(name.into_vec()) {
        Ok(()) => Ok(()),
        Err(_) => {
            drop_denial(denials);
            Err(AllocError)
        }
    }
}

impl Tables {
    /// The tables of the net without declarations. This takes no memory.
    pub(crate) fn empty(alloc: Global) -> Tables
        ensures { Kept [] result }
    {
        Tables {
            relations: Kind::empty(alloc),
            queries: Kind::empty(alloc),
            actions: Kind::empty(alloc),
            places: Kind::empty(alloc),
            transitions: Kind::empty(alloc),
            always: NameTable::new(alloc),
            denials: Items::new(alloc),
            past: 0,
        }
    }

    /// Enters what a declaration adds, which stands at this place. After want of memory nothing changed.
    fn enter_line(&mut self, place: usize, line: Line) -> Result<(), AllocError>
        requires { is_new_line self.old line ≡ true }
        ensures ok { OnOk result (self.new ≡ with_line self.old place line) }
        ensures err { OnErr result (self.new ≡ self.old) }
    {
        match line {
            Line::Relation(head) => self.relations.enter(place, head),
            Line::Query(head) => self.queries.enter(place, head),
            Line::Action(head) => self.actions.enter(place, head),
            Line::Place(head) => self.places.enter(place, head),
            Line::Transition(head) => self.transitions.enter(place, head),
            Line::Sentence(denial) => self.denials.push(denial),
            Line::Always(name, denial) => {
                enter_always(&mut self.always, &mut self.denials, name, denial)
            }
        }
    }

    /// Enters a declaration, which stands at this place. After want of memory nothing changed.
    #[tactic(auto, unfolding(crate::specs::Kept::with_noted))]
    pub(crate) fn enter(&mut self, place: usize, noted: Noted) -> Result<(), AllocError>
        requires { is_new_line self.old noted.line ≡ true }
        ensures ok { OnOk result (self.new ≡ with_noted self.old place noted) }
        ensures err { OnErr result (self.new ≡ self.old) }
    {
        let past = noted.past;
        match self.enter_line(place, noted.line) {
            Ok(()) => {
                self.raise(past);
                Ok(())
            }
            Err(_) => Err(AllocError),
        }
    }

    /// Takes note of values, of which one more than the greatest id is this.
    fn raise(&mut self, past: u64)
        ensures { self.new ≡ with_past self.old past }
    {
        self.past = greater(self.past, past);
    }
}
