//! The clauses of a transition.

ghost use Rattle.std.specs.Prelude.{◌≡◌, [], Option, Some, OnOk};
ghost use Rattle.std.specs.List.{list_all};
ghost use Rattle.dbn_net.specs.Maybe.{each, some};
ghost use Rattle.dbn_net.specs.Forms.{with_word, written_atom_of, written_atom_in, written_pattern_of, written_pattern_in, written_arc_of, is_guard, guard_of, clause_of, clause_in, rank, repeats, follows, with_clause, bare_transition, clause_step, clauses_from};
ghost use Rattle.dbn_reader.specs.Parses.{Parses, ParsesOn};

use super::formulas::body_in;
use super::misfit::Misfit;
use super::words::{FromSexp, each, int_in, is_word, some};
use dbn_net::{
    WrittenArc, WrittenAtom, WrittenClause, WrittenFormula, WrittenInput, WrittenPattern,
    WrittenTransition,
};
use dbn_sexp::{Sexp, list_in, word_in};
use dbn_value::{ColType, Name, Term, Var};
use sqlite_items::Items;
use std::alloc::{AllocError, Global};

/// `R t..`
fn written_atom_of(alloc: Global, parts: &[Sexp]) -> Result<WrittenAtom, Misfit>
    ensures { Parses result (written_atom_of parts.now) }
{
    match parts {
        [] => Err(Misfit::Shape),
        [name, parts @ ..] => {
            let name = Name::from_sexp(alloc, name)?;
            let terms = each::<Term>(alloc, parts)?;
            Ok(WrittenAtom { name, terms })
        }
    }
}

impl FromSexp for WrittenAtom {
    ghost read = { written_atom_in };

    fn from_sexp(alloc: Global, one: &Sexp) -> Result<WrittenAtom, Misfit> {
        match list_in(one) {
            None => Err(Misfit::Shape),
            Some(parts) => written_atom_of(alloc, parts),
        }
    }
}

/// `n t..`
fn written_pattern_of(alloc: Global, parts: &[Sexp]) -> Result<WrittenPattern, Misfit>
    ensures { Parses result (written_pattern_of parts.now) }
{
    match parts {
        [] => Err(Misfit::Shape),
        [many, parts @ ..] => {
            let many = int_in(many)?;
            let terms = each::<Term>(alloc, parts)?;
            Ok(WrittenPattern { many, terms })
        }
    }
}

impl FromSexp for WrittenPattern {
    ghost read = { written_pattern_in };

    fn from_sexp(alloc: Global, one: &Sexp) -> Result<WrittenPattern, Misfit> {
        match list_in(one) {
            None => Err(Misfit::Shape),
            Some(parts) => written_pattern_of(alloc, parts),
        }
    }
}

/// `P (n t..)..+`
fn written_arc_of(alloc: Global, parts: &[Sexp]) -> Result<WrittenArc, Misfit>
    ensures { Parses result (written_arc_of parts.now) }
{
    match parts {
        [] => Err(Misfit::Shape),
        [place, parts @ ..] => {
            let place = Name::from_sexp(alloc, place)?;
            let patterns = some(each::<WrittenPattern>(alloc, parts)?)?;
            Ok(WrittenArc { place, patterns })
        }
    }
}

/// Whether the formula is built of comparisons, `and`, `or`, `not` and `implies` alone. This takes no memory.
#[cycle(guard)]
#[tactic(auto, using(crate::proofs::GuardLaws::guard_laws))]
fn is_guard(formula: &WrittenFormula) -> bool
    ensures { result ≡ is_guard formula.now }
{
    match formula {
        WrittenFormula::Atom { .. } => false,
        WrittenFormula::Test { .. } => true,
        WrittenFormula::And(parts) => are_guards(parts.as_slice()),
        WrittenFormula::Or(parts) => are_guards(parts.as_slice()),
        WrittenFormula::Not(part) => is_guard(part.get()),
        WrittenFormula::Implies(left, right) => is_guard(left.get()) && is_guard(right.get()),
        WrittenFormula::Exists { .. } => false,
        WrittenFormula::Forall { .. } => false,
    }
}

#[cycle(guard)]
fn are_guards(parts: &[WrittenFormula]) -> bool
    ensures { result ≡ list_all is_guard parts.now }
{
    for part in parts {
        if !is_guard(part) {
            return false;
        }
    }
    true
}

fn guard_of(alloc: Global, parts: &[Sexp]) -> Result<WrittenClause, Misfit>
    ensures { Parses result (guard_of parts.now) }
{
    match parts {
        [body] => {
            let body = body_in(alloc, body)?;
            if is_guard(&body) {
                Ok(WrittenClause::Guards(body))
            } else {
                Err(Misfit::Shape)
            }
        }
        _ => Err(Misfit::Shape),
    }
}

fn clause_of(alloc: Global, word: &[u8], parts: &[Sexp]) -> Result<WrittenClause, Misfit>
    ensures { Parses result (clause_of word.now parts.now) }
{
    if is_word(word, b"in".as_slice()) {
        let arc = written_arc_of(alloc, parts)?;
        Ok(WrittenClause::Inputs(WrittenInput::In(arc)))
    } else if is_word(word, b"read".as_slice()) {
        let atom = written_atom_of(alloc, parts)?;
        Ok(WrittenClause::Inputs(WrittenInput::Read(atom)))
    } else if is_word(word, b"guard".as_slice()) {
        guard_of(alloc, parts)
    } else if is_word(word, b"ask".as_slice()) {
        Ok(WrittenClause::Asks(some(each::<(Var, ColType)>(alloc, parts)?)?))
    } else if is_word(word, b"fresh".as_slice()) {
        Ok(WrittenClause::Draws(some(each::<Var>(alloc, parts)?)?))
    } else if is_word(word, b"do".as_slice()) {
        Ok(WrittenClause::Calls(written_atom_of(alloc, parts)?))
    } else if is_word(word, b"out".as_slice()) {
        Ok(WrittenClause::Puts(written_arc_of(alloc, parts)?))
    } else if is_word(word, b"back".as_slice()) {
        Ok(WrittenClause::Returns(written_arc_of(alloc, parts)?))
    } else {
        Err(Misfit::Shape)
    }
}

/// A list with a first word.
fn headed(alloc: Global, parts: &[Sexp]) -> Result<WrittenClause, Misfit>
    ensures { Parses result (with_word clause_of parts.now) }
{
    match parts {
        [] => Err(Misfit::Shape),
        [head, parts @ ..] => match word_in(head) {
            None => Err(Misfit::Shape),
            Some(word) => clause_of(alloc, word.as_bytes(), parts),
        },
    }
}

fn clause_in(alloc: Global, one: &Sexp) -> Result<WrittenClause, Misfit>
    ensures { Parses result (clause_in one.now) }
{
    match list_in(one) {
        None => Err(Misfit::Shape),
        Some(parts) => headed(alloc, parts),
    }
}

/// The place of the clause in the order of clauses.
fn rank(clause: &WrittenClause) -> u64
    ensures { result ≡ rank clause.now }
{
    match clause {
        WrittenClause::Inputs(_) => 0,
        WrittenClause::Guards(_) => 1,
        WrittenClause::Asks(_) => 2,
        WrittenClause::Draws(_) => 3,
        WrittenClause::Calls(_) => 4,
        WrittenClause::Puts(_) => 5,
        WrittenClause::Returns(_) => 6,
    }
}

/// Whether a clause of the rank `next` may stand behind one of the rank `last`.
fn follows(last: u64, next: u64) -> bool
    ensures { result ≡ follows last next }
{
    last < next || (last == next && (next == 0 || 4 < next))
}

/// Adds a clause to the transition. An error is want of memory.
fn with_clause(transition: &mut WrittenTransition, clause: WrittenClause) -> Result<(), AllocError>
    ensures { OnOk result (transition.new ≡ with_clause transition.old clause) }
{
    match clause {
        WrittenClause::Inputs(input) => transition.inputs.push(input),
        WrittenClause::Guards(body) => {
            transition.guard = Some(body);
            Ok(())
        }
        WrittenClause::Asks(vars) => {
            transition.asked = vars;
            Ok(())
        }
        WrittenClause::Draws(vars) => {
            transition.fresh = vars;
            Ok(())
        }
        WrittenClause::Calls(atom) => {
            transition.call = Some(atom);
            Ok(())
        }
        WrittenClause::Puts(arc) => transition.outs.push(arc),
        WrittenClause::Returns(arc) => transition.backs.push(arc),
    }
}

/// A transition of which some clauses were read, and the rank of the last one, at first 0.
#[derive(Drop)]
pub(crate) struct Draft {
    pub(crate) last: u64,
    pub(crate) transition: WrittenTransition,
}

impl Draft {
    /// A transition without clauses. This takes no memory.
    fn new(alloc: Global, name: Name) -> Draft
        ensures last { result.last ≡ 0 }
        ensures bare { result.transition ≡ bare_transition name }
    {
        let transition = WrittenTransition {
            name,
            inputs: Items::new(alloc),
            guard: None,
            asked: Items::new(alloc),
            fresh: Items::new(alloc),
            call: None,
            outs: Items::new(alloc),
            backs: Items::new(alloc),
        };
        Draft {
            last: 0,
            transition,
        }
    }

    /// Takes up one more clause; `Shape` comes exactly where it is none, or may not stand there.
    fn take(&mut self, alloc: Global, part: &Sexp) -> Result<(), Misfit>
        ensures { ParsesOn result (self.new.last, self.new.transition) (clause_step (self.old.last, self.old.transition) part.now) }
    {
        let clause = clause_in(alloc, part)?;
        let next = rank(&clause);
        if !follows(self.last, next) {
            return Err(Misfit::Shape);
        }
        with_clause(&mut self.transition, clause)?;
        self.last = next;
        Ok(())
    }
}

/// The transition with this name and these clauses.
pub(crate) fn clauses(
    alloc: Global,
    name: Name,
    parts: &[Sexp],
) -> Result<WrittenTransition, Misfit>
    ensures { Parses result (clauses_from (0, bare_transition name) parts.now) }
{
    let mut draft = Draft::new(alloc, name);
    for part in parts {
        draft.take(alloc, part)?;
    }
    Ok(draft.transition)
}
