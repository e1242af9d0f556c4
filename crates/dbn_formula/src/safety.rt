ghost use Rattle.std.specs.Prelude.{◌≡◌, ◌<◌, ◌+◌, [], ◌∷◌, ◌++◌, ◌&&◌, List, None, true, false, drop, get_or, map, length, IfOk, OnOk};
ghost use Rattle.std.specs.List.{flat_map, list_all, list_any};
ghost use Rattle.dbn_formula.specs.Free.{occurrences, unhidden};
ghost use Rattle.dbn_formula.specs.Safe.{all_in, known, test_safe, outside, safe};
ghost use Rattle.dbn_formula.specs.Waiting.{WereUnsafe, StaysUnsafe, is_among};
ghost use Rattle.dbn_value.specs.declared.term.Term.{Term};
ghost use Rattle.dbn_formula.specs.Rest.{Rest, Rests, stand_in, conjunction_left};
ghost use Rattle.dbn_formula.specs.Known.{hides_bound};
ghost use Rattle.dbn_formula.specs.Variables.{is_in};
ghost use Rattle.dbn_formula.specs.Conjuncts.{first_safe, taken, turns, turns_after, safe_position};
ghost use Rattle.dbn_formula.specs.declared.formula.Formula.{Formula};
ghost use Rattle.dbn_formula.specs.declared.formula.Formula.TheVariants.{And, Not};

use super::formula::{Formula, Formulas};
use super::normal_form::{choice, denial};
use super::var_list::{VarList, list_of};
use super::variables::{add_each, add_occurrences, bind, binds};
use dbn_value::{Cmp, ColType, CopyIn, Term, Terms, TypedVars, Var, Vars};
use sqlite_items::Items;
use std::alloc::{AllocError, Global};

/// A formula whose safety was tried.
#[derive(Drop)]
struct Tried {
    is_safe: bool,
    /// What is left to be tried where more is bound: there it is as safe as the formula. It has the same free variables.
    left: Formula,
}

/// The parts of an `And`, as the safety test takes them.
#[derive(Drop)]
pub(crate) struct Turns<'a> {
    /// Those that were taken, one after the other.
    pub(crate) taken: Items<&'a Formula>,
    /// Those that were not safe when they were looked at, in the order of the formula.
    pub(crate) waiting: Items<&'a Formula>,
    /// What is left to be tried of each that waits.
    lefts: Formulas,
    /// What was given, and the free variables of those that were taken.
    bound: VarList,
}

impl<'a> Turns<'a> {
    /// Takes the part, which binds its variables.
    fn take(&mut self, alloc: Global, part: &'a Formula) -> Result<(), AllocError>
        ensures taken { OnOk result (map (λ f. f.now) self.new.taken ≡ map (λ f. f.now) self.old.taken ++ part.now ∷ []) }
        ensures waiting { OnOk result (self.new.waiting ≡ self.old.waiting) }
        ensures lefts { OnOk result (self.new.lefts ≡ self.old.lefts) }
        ensures bound { OnOk result (self.new.bound ≡ self.old.bound ++ occurrences part.now) }
    {
        self.taken.push(part)?;
        bind(alloc, &mut self.bound, part)
    }
}

/// Whether the formula is safe where these variables are bound: each of its free variables gets its values from an atom,
/// or from an equation with what is bound.
///
/// The test is meant for a normal form that is renamed apart; `Implies` and `Forall` are never safe. An error is want of memory.
pub fn safe(alloc: Global, f: &Formula, bound: &Vars) -> Result<bool, AllocError>
    ensures { IfOk result (λ ok. ok ≡ safe f.now bound.now) }
{
    let bound = list_of(alloc, bound.as_slice())?;
    let tried = trial(alloc, f, &bound)?;
    Ok(tried.is_safe)
}

/// Tries whether the formula is safe, and says what is left to be tried once more is bound.
#[cycle(safe)]
#[tactic(auto, using(crate::proofs::SafeLaws::safe_laws, crate::proofs::OrderOfParts::taken_is, crate::proofs::Weights::weight_laws))]
fn trial(alloc: Global, f: &Formula, bound: &VarList) -> Result<Tried, AllocError>
    ensures is_safe { IfOk result (λ tried. tried.is_safe ≡ safe f.now bound.now) }
    ensures left { IfOk result (λ tried. Rest bound.now f.now tried.left) }
{
    match f {
        Formula::Atom { .. } => whole(alloc, f, true),
        Formula::Test { cmp, left, right } => whole(alloc, f, test_safe(*cmp, left, right, bound)),
        Formula::And(parts) => all_tried(alloc, parts.as_slice(), bound),
        Formula::Or(parts) => any_tried(alloc, parts.as_slice(), bound),
        Formula::Not(part) => {
            let binds_all = binds_all_of(alloc, part.get(), bound)?;
            tried_denial(alloc, trial(alloc, part.get(), bound)?, binds_all)
        }
        Formula::Implies(_, _) => whole(alloc, f, false),
        Formula::Exists { vars, body } => {
            tried_choice(
                alloc,
                vars,
                trial_inside(alloc, vars.as_slice(), body.get(), bound)?,
            )
        }
        Formula::Forall { .. } => whole(alloc, f, false),
    }
}

/// Tries a formula inside a quantifier. What is bound is copied only where the quantifier hides some of it.
#[cycle(safe)]
fn trial_inside(
    alloc: Global,
    vars: &[(Var, ColType)],
    body: &Formula,
    bound: &VarList,
) -> Result<Tried, AllocError>
    ensures is_safe { IfOk result (λ tried. tried.is_safe ≡ safe body.now (outside vars.now bound.now)) }
    ensures left { IfOk result (λ tried. Rest (outside vars.now bound.now) body.now tried.left) }
{
    if hides_bound(vars, bound) {
        let outside = outside(alloc, vars, bound)?;
        return trial(alloc, body, &outside);
    }
    trial(alloc, body, bound)
}

/// All of the formula is left.
fn whole(alloc: Global, f: &Formula, is_safe: bool) -> Result<Tried, AllocError>
    ensures is_safe { IfOk result (λ tried. tried.is_safe ≡ is_safe) }
    ensures left { IfOk result (λ tried. tried.left ≡ f.now) }
{
    let left = f.copy_in(alloc)?;
    Ok(Tried { is_safe, left })
}

/// A denial is safe if its part is, and binds no more than is bound.
fn tried_denial(alloc: Global, part: Tried, binds_all: bool) -> Result<Tried, AllocError>
    ensures is_safe { IfOk result (λ tried. tried.is_safe ≡ (binds_all && part.is_safe)) }
    ensures left { IfOk result (λ tried. tried.left ≡ Formula.Not part.left) }
{
    let Tried { is_safe, left } = part;
    let left = denial(alloc, left)?;
    Ok(Tried {
        is_safe: binds_all && is_safe,
        left,
    })
}

fn tried_choice(alloc: Global, vars: &TypedVars, body: Tried) -> Result<Tried, AllocError>
    ensures is_safe { IfOk result (λ tried. tried.is_safe ≡ body.is_safe) }
    ensures left { IfOk result (λ tried. tried.left ≡ Formula.Exists vars.now body.left) }
{
    let Tried { is_safe, left } = body;
    let left = choice(alloc, vars, left)?;
    Ok(Tried { is_safe, left })
}

/// Whether each part is safe, and binds what all of them need.
#[cycle(safe)]
fn any_tried(alloc: Global, parts: &[Formula], bound: &VarList) -> Result<Tried, AllocError>
    ensures is_safe { IfOk result (λ tried. tried.is_safe ≡ list_all (λ f. safe f bound.now && all_in (flat_map occurrences parts.now) (bound.now ++ occurrences f)) parts.now) }
    ensures left { IfOk result (λ tried. Rest bound.now (Formula.Or parts.now) tried.left) }
{
    let needed = needed_by(alloc, parts, bound)?;
    each_tried(alloc, parts, needed.as_slice(), bound)
}

/// Whether each part is safe, and binds what it needs together with what is bound.
#[cycle(safe)]
fn each_tried(
    alloc: Global,
    parts: &[Formula],
    needed: &[Var],
    bound: &VarList,
) -> Result<Tried, AllocError>
    ensures is_safe { IfOk result (λ tried. tried.is_safe ≡ list_all (λ f. safe f bound.now && all_in needed.now (bound.now ++ occurrences f)) parts.now) }
    ensures left { IfOk result (λ tried. Rest bound.now (Formula.Or parts.now) tried.left) }
{
    let mut is_safe = true;
    let mut lefts = Items::new(alloc);
    for part in parts {
        let tried = part_tried(alloc, part, needed, bound, is_safe)?;
        is_safe = tried.is_safe;
        lefts.push(tried.left)?;
    }
    let left = Formula::Or(lefts);
    Ok(Tried { is_safe, left })
}

/// Whether those before it are safe, and the part is and binds what it needs. Behind one that isn't it is not tried.
#[cycle(safe)]
fn part_tried(
    alloc: Global,
    part: &Formula,
    needed: &[Var],
    bound: &VarList,
    so_far: bool,
) -> Result<Tried, AllocError>
    ensures is_safe { IfOk result (λ tried. tried.is_safe ≡ (so_far && (safe part.now bound.now && all_in needed.now (bound.now ++ occurrences part.now)))) }
    ensures left { IfOk result (λ tried. Rest bound.now part.now tried.left) }
{
    if !so_far {
        return whole(alloc, part, false);
    }
    let enough = binds_needed(alloc, part, needed, bound)?;
    let Tried { is_safe, left } = trial(alloc, part, bound)?;
    Ok(Tried {
        is_safe: is_safe && enough,
        left,
    })
}

/// Whether all parts get taken.
#[cycle(safe)]
fn all_tried(alloc: Global, parts: &[Formula], bound: &VarList) -> Result<Tried, AllocError>
    ensures is_safe { IfOk result (λ tried. tried.is_safe ≡ taken (length parts.now) parts.now bound.now) }
    ensures left { IfOk result (λ tried. Rest bound.now (Formula.And parts.now) tried.left) }
{
    let turns = in_turns(alloc, parts, bound)?;
    let is_safe = turns.waiting.is_empty();
    let left = conjunction_left(alloc, turns)?;
    Ok(Tried { is_safe, left })
}

/// What is left of a conjunction: those that wait, and an atom that binds what the taken ones bind.
fn conjunction_left(alloc: Global, turns: Turns) -> Result<Formula, AllocError>
    ensures { IfOk result (λ left. left ≡ conjunction_left (map (λ f. f.now) turns.entry.taken) turns.entry.lefts) }
{
    let Turns {
        taken,
        waiting: _,
        lefts,
        bound: _,
    } = turns;
    if taken.is_empty() {
        return Ok(Formula::And(lefts));
    }
    let mut parts = Items::new(alloc);
    parts.push(stand_in(alloc, taken.as_slice())?)?;
    parts.append(lefts)?;
    Ok(Formula::And(parts))
}

/// An atom with the free variables of the parts.
fn stand_in(alloc: Global, parts: &[&Formula]) -> Result<Formula, AllocError>
    ensures { IfOk result (λ atom. atom ≡ stand_in (flat_map (λ f. occurrences f.now) parts.now)) }
{
    let vars = occurrences_of(alloc, parts)?;
    let terms = as_terms(alloc, vars.as_slice())?;
    Ok(Formula::Atom { rel: 0, terms })
}

/// The free variables of all parts, as often as they occur.
#[tactic(auto, using(crate::proofs::FreeLaws::joining))]
fn occurrences_of(alloc: Global, parts: &[&Formula]) -> Result<Vars, AllocError>
    ensures { IfOk result (λ vars. vars ≡ flat_map (λ f. occurrences f.now) parts.now) }
{
    let mut vars = Items::new(alloc);
    for part in parts {
        add_occurrences(alloc, &mut vars, *part)?;
    }
    Ok(vars)
}

fn as_terms(alloc: Global, vars: &[Var]) -> Result<Terms, AllocError>
    ensures { IfOk result (λ terms. terms ≡ map Term.Var vars.now) }
{
    let mut terms = Items::new(alloc);
    for var in vars {
        terms.push(Term::Var(var.copy_in(alloc)?))?;
    }
    Ok(terms)
}

/// Takes the parts, each time the first that is safe for what is bound so far: they are walked from left to right, and those
/// that had to wait are tried again whenever one was taken, each from where its last trial ended.
#[cycle(safe)]
pub(crate) fn in_turns<'x>(
    alloc: Global,
    parts: &'x [Formula],
    bound: &VarList,
) -> Result<Turns<'x>, AllocError>
    ensures taken { IfOk result (λ made. map (λ f. f.now) made.taken ≡ (turns (length parts.now) parts.now bound.now).0) }
    ensures waiting { IfOk result (λ made. map (λ f. f.now) made.waiting ≡ (turns (length parts.now) parts.now bound.now).1) }
    ensures lefts { IfOk result (λ made. Rests (bound.now ++ flat_map occurrences (map (λ f. f.now) made.taken)) (map (λ f. f.now) made.waiting) made.lefts) }
{
    let mut turns = Turns {
        taken: Items::new(alloc),
        waiting: Items::new(alloc),
        lefts: Items::new(alloc),
        bound: bound.copy_in(alloc)?,
    };
    for part in parts {
        look_at(alloc, &mut turns, part)?;
    }
    Ok(turns)
}

/// Takes the next part, and then those that wait and are safe now; or lets it wait.
#[cycle(safe)]
fn look_at<'x>(alloc: Global, turns: &mut Turns<'x>, part: &'x Formula) -> Result<(), AllocError>
    requires lefts { Rests turns.old.bound (map (λ f. f.now) turns.old.waiting) turns.old.lefts }
    requires none_safe { first_safe (map (λ f. f.now) turns.old.waiting) turns.old.bound ≡ None }
    ensures same_turns { OnOk result ((rest : List Formula)
        → turns_after (map (λ f. f.now) turns.new.taken) (map (λ f. f.now) turns.new.waiting ++ rest) turns.new.bound
        ≡ turns_after (map (λ f. f.now) turns.old.taken) (map (λ f. f.now) turns.old.waiting ++ part.now ∷ rest) turns.old.bound) }
    ensures none_safe { OnOk result (first_safe (map (λ f. f.now) turns.new.waiting) turns.new.bound ≡ None) }
    ensures lefts { OnOk result (Rests turns.new.bound (map (λ f. f.now) turns.new.waiting) turns.new.lefts) }
    ensures bound { OnOk result ((given : List Var) → turns.old.bound ≡ given ++ flat_map occurrences (map (λ f. f.now) turns.old.taken)
        → turns.new.bound ≡ given ++ flat_map occurrences (map (λ f. f.now) turns.new.taken)) }
{
    let tried = trial(alloc, part, &turns.bound)?;
    if tried.is_safe {
        turns.take(alloc, part)?;
        return take_waiting(alloc, turns, part);
    }
    turns.waiting.push(part)?;
    turns.lefts.push(tried.left)
}

/// Takes those that wait, each time the first that is safe, until none is. The part was taken last, and none was safe before.
#[cycle(safe)]
fn take_waiting<'x>(
    alloc: Global,
    turns: &mut Turns<'x>,
    part: &'x Formula,
) -> Result<(), AllocError>
    requires lefts { Rests turns.old.bound (map (λ f. f.now) turns.old.waiting) turns.old.lefts }
    requires were_unsafe { WereUnsafe (length turns.old.lefts) turns.old.lefts (occurrences part.now) turns.old.bound }
    ensures same_turns { OnOk result ((rest : List Formula)
        → turns_after (map (λ f. f.now) turns.new.taken) (map (λ f. f.now) turns.new.waiting ++ rest) turns.new.bound
        ≡ turns_after (map (λ f. f.now) turns.old.taken) (map (λ f. f.now) turns.old.waiting ++ rest) turns.old.bound) }
    ensures none_safe { OnOk result (first_safe (map (λ f. f.now) turns.new.waiting) turns.new.bound ≡ None) }
    ensures lefts { OnOk result (Rests turns.new.bound (map (λ f. f.now) turns.new.waiting) turns.new.lefts) }
    ensures bound { OnOk result ((given : List Var) → turns.old.bound ≡ given ++ flat_map occurrences (map (λ f. f.now) turns.old.taken)
        → turns.new.bound ≡ given ++ flat_map occurrences (map (λ f. f.now) turns.new.taken)) }
{
    let mut last = part;
    let mut known = turns.lefts.len();
    loop {
        let at = first_safe_left(alloc, &mut turns.lefts, known, last, &turns.bound)?;
        if turns.waiting.len() <= at {
            return Ok(());
        }
        let part = turns.waiting.remove(at);
        turns.lefts.remove(at);
        turns.take(alloc, part)?;
        last = part;
        known = at;
    }
}

/// The position of the first of these that is safe, or their number where there is none. Each that was tried and isn't safe
/// gives way to what is left of it. The first `known` were not safe before the last part was taken.
#[cycle(safe)]
fn first_safe_left(
    alloc: Global,
    lefts: &mut Formulas,
    known: usize,
    last: &Formula,
    bound: &VarList,
) -> Result<usize, AllocError>
    requires { WereUnsafe known lefts.old (occurrences last.now) bound.now }
    ensures position { IfOk result (λ at. at ≡ safe_position lefts.old bound.now) }
    ensures lefts { OnOk result (Rests bound.now lefts.old lefts.new) }
{
    let mut fresh = VarList::new(alloc);
    bind(alloc, &mut fresh, last)?;
    for at in 0..lefts.len() {
        if is_safe_now(alloc, lefts, at, at < known, &fresh, bound)? {
            return Ok(at);
        }
    }
    Ok(lefts.len())
}

/// Whether the one at this position is safe. If it was not before the fresh variables were bound, it is tried only where these
/// may help it. One that was tried gives way to what is left of it.
#[cycle(safe)]
fn is_safe_now(
    alloc: Global,
    lefts: &mut Formulas,
    at: usize,
    was_unsafe: bool,
    fresh: &VarList,
    bound: &VarList,
) -> Result<bool, AllocError>
    requires in_range { at < length lefts.old }
    requires before { was_unsafe ≡ true → (before : List Var) × (bound.now ≡ before ++ fresh.now) × (safe (get_or lefts.old at (And [])) before ≡ false) }
    ensures is_safe { IfOk result (λ ok. ok ≡ safe (get_or lefts.old at (And [])) bound.now) }
    ensures lefts { OnOk result (Rests bound.now lefts.old lefts.new) }
    ensures others { OnOk result (drop (at + 1) lefts.new ≡ drop (at + 1) lefts.old) }
{
    if stays_unsafe(&lefts.as_slice()[at], was_unsafe, fresh) {
        return Ok(false);
    }
    let tried = trial(alloc, &lefts.as_slice()[at], bound)?;
    lefts.set(at, tried.left);
    Ok(tried.is_safe)
}

fn stays_unsafe(f: &Formula, was_unsafe: bool, fresh: &VarList) -> bool
    ensures { result ≡ true → (was_unsafe ≡ true) × StaysUnsafe f.now fresh.now }
{
    was_unsafe && !may_become_safe(f, fresh)
}

/// Whether the formula may be safe once the fresh variables are bound. Only comparisons and denials of one part are looked at.
fn may_become_safe(f: &Formula, fresh: &VarList) -> bool
    ensures { result ≡ false → StaysUnsafe f.now fresh.now }
{
    match f {
        Formula::Test {
            cmp: _,
            left,
            right,
        } => is_among(left, fresh) || is_among(right, fresh),
        Formula::Not(part) => denial_may_become_safe(part.get(), fresh),
        Formula::Atom { .. }
        | Formula::And(_)
        | Formula::Or(_)
        | Formula::Implies(_, _)
        | Formula::Exists { .. }
        | Formula::Forall { .. } => true,
    }
}

fn denial_may_become_safe(part: &Formula, fresh: &VarList) -> bool
    ensures { result ≡ false → StaysUnsafe (Not part.now) fresh.now }
{
    match part {
        Formula::Atom { rel: _, terms } => some_among(terms.as_slice(), fresh),
        Formula::Test {
            cmp: _,
            left,
            right,
        } => is_among(left, fresh) || is_among(right, fresh),
        Formula::And(_)
        | Formula::Or(_)
        | Formula::Not(_)
        | Formula::Implies(_, _)
        | Formula::Exists { .. }
        | Formula::Forall { .. } => true,
    }
}

/// Whether one of the terms is a fresh variable.
fn some_among(terms: &[Term], fresh: &VarList) -> bool
    ensures { result ≡ list_any (is_among fresh.now) terms.now }
{
    terms.iter().any(|term| is_among(term, fresh))
}

/// Whether the term is a fresh variable.
fn is_among(term: &Term, fresh: &VarList) -> bool
    ensures { result ≡ is_among fresh.now term.now }
{
    match term {
        Term::Var(var) => fresh.has(var),
        Term::Const(_) => false,
    }
}

/// Whether a comparison is safe: an equation needs one side, another comparison both.
fn test_safe(cmp: Cmp, left: &Term, right: &Term, bound: &VarList) -> bool
    ensures { result ≡ test_safe cmp left.now right.now bound.now }
{
    match cmp {
        Cmp::Eq => known(left, bound) || known(right, bound),
        Cmp::Ne | Cmp::Lt | Cmp::Le | Cmp::Gt | Cmp::Ge => known(left, bound)
            && known(right, bound),
    }
}

/// Whether the term is a constant, or a variable that is bound.
fn known(term: &Term, bound: &VarList) -> bool
    ensures { result ≡ known bound.now term.now }
{
    match term {
        Term::Var(var) => bound.has(var),
        Term::Const(_) => true,
    }
}

/// Whether all of the variables are bound.
fn all_in(vars: &[Var], bound: &VarList) -> bool
    ensures { result ≡ all_in vars.now bound.now }
{
    vars.iter().all(|var| bound.has(var))
}

/// Whether all free variables of the formula are bound.
fn binds_all_of(alloc: Global, f: &Formula, bound: &VarList) -> Result<bool, AllocError>
    ensures { IfOk result (λ ok. ok ≡ all_in (occurrences f.now) bound.now) }
{
    let mut vars = Items::new(alloc);
    add_occurrences(alloc, &mut vars, f)?;
    Ok(all_in(vars.as_slice(), bound))
}

/// Whether the part binds the variables that are needed and not bound.
fn binds_needed(
    alloc: Global,
    part: &Formula,
    needed: &[Var],
    bound: &VarList,
) -> Result<bool, AllocError>
    ensures { IfOk result (λ ok. ok ≡ all_in needed.now (bound.now ++ occurrences part.now)) }
{
    if needed.is_empty() {
        return Ok(true);
    }
    let mut inside = VarList::new(alloc);
    bind(alloc, &mut inside, part)?;
    Ok(all_in_either(needed, bound, &inside))
}

/// Whether each of the variables is in one of the lists.
fn all_in_either(vars: &[Var], bound: &VarList, inside: &VarList) -> bool
    ensures { result ≡ all_in vars.now (bound.now ++ inside.now) }
{
    vars.iter().all(|var| in_either(var, bound, inside))
}

/// Whether the variable is in one of the lists.
#[tactic(auto, using(crate::proofs::KnownLaws::is_in_append))]
fn in_either(var: &Var, bound: &VarList, inside: &VarList) -> bool
    ensures { result ≡ is_in var.now (bound.now ++ inside.now) }
{
    bound.has(var) || inside.has(var)
}

/// The free variables of the parts that are not bound, each once.
fn needed_by(alloc: Global, parts: &[Formula], bound: &VarList) -> Result<VarList, AllocError>
    ensures { IfOk result (λ needed. (more : List Var) → all_in needed (bound.now ++ more) ≡ all_in (flat_map occurrences parts.now) (bound.now ++ more)) }
{
    let mut found = Items::new(alloc);
    add_each(alloc, &mut found, parts)?;
    unbound_of(alloc, found.as_slice(), bound)
}

/// Those of the variables that are not bound, each once.
fn unbound_of(alloc: Global, vars: &[&Var], bound: &VarList) -> Result<VarList, AllocError>
    ensures { IfOk result (λ needed. (more : List Var) → all_in needed (bound.now ++ more) ≡ all_in (map (λ x. x.now) vars.now) (bound.now ++ more)) }
{
    let mut needed = VarList::new(alloc);
    for var in vars {
        add_unbound(alloc, &mut needed, *var, bound)?;
    }
    Ok(needed)
}

/// Appends the variable, unless it is bound or there already.
fn add_unbound(
    alloc: Global,
    needed: &mut VarList,
    var: &Var,
    bound: &VarList,
) -> Result<(), AllocError>
    ensures { OnOk result ((more : List Var) → all_in needed.new (bound.now ++ more) ≡ (all_in needed.old (bound.now ++ more) && is_in var.now (bound.now ++ more))) }
{
    if in_either(var, bound, needed) {
        return Ok(());
    }
    needed.push(alloc, var)
}

/// The bound variables that a quantifier doesn't hide.
pub(crate) fn outside(
    alloc: Global,
    vars: &[(Var, ColType)],
    bound: &VarList,
) -> Result<VarList, AllocError>
    ensures { IfOk result (λ kept. kept ≡ unhidden vars.now bound.now) }
{
    let mut kept = VarList::new(alloc);
    for var in bound.as_slice() {
        if !binds(vars, var) {
            kept.push(alloc, var)?;
        }
    }
    Ok(kept)
}

/// Whether one of the quantifier's variables is bound.
pub(crate) fn hides_bound(vars: &[(Var, ColType)], bound: &VarList) -> bool
    ensures { result ≡ hides_bound vars.now bound.now }
{
    vars.iter().any(|var| bound.has(&var.0))
}
