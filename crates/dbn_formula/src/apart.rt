ghost use Rattle.std.specs.Prelude.{◌≡◌, ◌++◌, ◌+◌, [], map, IfOk, OnOk};
ghost use Rattle.std.specs.List.{flat_map};
ghost use Rattle.std.specs.Ordering.{nat_cmp};
ghost use Rattle.dbn_value.specs.Ascending.{ascending};
ghost use Rattle.dbn_formula.specs.Apart.{term_marks, quantified_marks, marks, unused_from, renamed_var, renamed_term, fresh, last_mark, opened, renamed_at, last_at, renamed_all, last_all, renamed};
ghost use Rattle.dbn_formula.specs.Naming.{named};

use super::formula::{Formula, Formulas};
use super::renewed::Renewed;
use dbn_value::{Cell, ColType, CopyIn, Term, Terms, TypedVars, Var};
use smallvec::SmallVec;
use sqlite_items::{Boxed, Items};
use std::alloc::{AllocError, Global};

/// Marks of variables.
type Marks = SmallVec<u64, 8>;

/// The new marks at a place of a formula: none, or for each quantifier around the place its variables with their new marks, the innermost first.
#[derive(Drop)]
enum Names<'a> {
    Own,
    Under(&'a Renewed, &'a Names<'a>),
}

/// The formula with its quantified variables renamed apart: each gets a mark that no other variable of the formula has.
///
/// In reading order they get the first numbers from 1 on that are no marks of the formula; the free variables stay as they are.
/// An error is want of memory, or that no mark below 2^64 is left.
pub fn rename_apart(alloc: Global, f: &Formula) -> Result<Formula, AllocError>
    ensures { IfOk result (λ g. g ≡ renamed f.now) }
{
    let used = ascending_marks(alloc, f)?;
    let mut last = 0;
    renamed_at(alloc, used.as_slice(), f, &Names::Own, &mut last)
}

/// The marks of all variables of the formula, each once and ascending.
fn ascending_marks(alloc: Global, f: &Formula) -> Result<Marks, AllocError>
    ensures { IfOk result (λ used. used.items ≡ ascending nat_cmp (marks f.now)) }
{
    let mut used = SmallVec::new(alloc);
    add_marks(&mut used, f)?;
    used.as_mut_slice().sort_unstable();
    used.dedup();
    Ok(used)
}

/// Appends the marks of all variables, those of quantifiers too.
#[cycle(marks)]
#[tactic(auto, using(crate::proofs::ApartLaws::apart_laws, crate::proofs::FreeLaws::joining))]
fn add_marks(out: &mut Marks, f: &Formula) -> Result<(), AllocError>
    ensures { OnOk result (out.new.items ≡ out.old.items ++ marks f.now) }
{
    match f {
        Formula::Atom { rel: _, terms } => add_marks_of_terms(out, terms.as_slice()),
        Formula::Test {
            cmp: _,
            left,
            right,
        } => {
            add_mark_of_term(out, left)?;
            add_mark_of_term(out, right)
        }
        Formula::And(parts) => add_each(out, parts.as_slice()),
        Formula::Or(parts) => add_each(out, parts.as_slice()),
        Formula::Not(part) => add_marks(out, part.get()),
        Formula::Implies(left, right) => {
            add_marks(out, left.get())?;
            add_marks(out, right.get())
        }
        Formula::Exists { vars, body } => {
            add_quantified(out, vars.as_slice())?;
            add_marks(out, body.get())
        }
        Formula::Forall { vars, body } => {
            add_quantified(out, vars.as_slice())?;
            add_marks(out, body.get())
        }
    }
}

#[cycle(marks)]
fn add_each(out: &mut Marks, parts: &[Formula]) -> Result<(), AllocError>
    ensures { OnOk result (out.new.items ≡ out.old.items ++ flat_map marks parts.now) }
{
    for part in parts {
        add_marks(out, part)?;
    }
    Ok(())
}

/// Appends the variable's mark, if the term is one.
fn add_mark_of_term(out: &mut Marks, term: &Term) -> Result<(), AllocError>
    ensures { OnOk result (out.new.items ≡ out.old.items ++ term_marks term.now) }
{
    match term {
        Term::Var(var) => {
            out.push(var.mark)?;
            Ok(())
        }
        Term::Const(_) => Ok(()),
    }
}

fn add_marks_of_terms(out: &mut Marks, terms: &[Term]) -> Result<(), AllocError>
    ensures { OnOk result (out.new.items ≡ out.old.items ++ flat_map term_marks terms.now) }
{
    for term in terms {
        add_mark_of_term(out, term)?;
    }
    Ok(())
}

fn add_quantified(out: &mut Marks, vars: &[(Var, ColType)]) -> Result<(), AllocError>
    ensures { OnOk result (out.new.items ≡ out.old.items ++ quantified_marks vars.now) }
{
    for var in vars {
        out.push(var.0.mark)?;
    }
    Ok(())
}

/// The first number from `first` on that is none of the ascending numbers.
fn unused_from(used: &[u64], first: u64) -> Result<u64, AllocError>
    ensures { IfOk result (λ mark. mark ≡ unused_from used.now first) }
{
    let mut mark = first;
    for other in used {
        if *other == mark {
            mark = above(mark)?;
        } else if mark < *other {
            return Ok(mark);
        }
    }
    Ok(mark)
}

/// The next number.
fn above(mark: u64) -> Result<u64, AllocError>
    ensures { IfOk result (λ next. next ≡ mark + 1) }
{
    match mark.checked_add(1) {
        Some(next) => Ok(next),
        None => Err(AllocError),
    }
}

/// The formula with other marks at the variables that are named here or quantified in it; `last` is the last mark that was given.
#[cycle(renamed)]
#[tactic(auto, using(crate::proofs::ApartLaws::apart_laws, crate::proofs::Weights::weight_laws))]
fn renamed_at<'x>(
    alloc: Global,
    used: &'x [u64],
    f: &'x Formula,
    names: &'x Names<'x>,
    last: &mut u64,
) -> Result<Formula, AllocError>
    requires { ascending nat_cmp used.now ≡ used.now }
    ensures formula { IfOk result (λ g. g ≡ renamed_at used.now f.now (named names.now) last.old) }
    ensures last { OnOk result (last.new ≡ last_at used.now f.now (named names.now) last.old) }
{
    match f {
        Formula::Atom { rel, terms } => {
            let terms = renamed_terms(alloc, terms.as_slice(), names)?;
            Ok(Formula::Atom { rel: *rel, terms })
        }
        Formula::Test { cmp, left, right } => {
            let cmp = *cmp;
            let left = renamed_term(alloc, left, names)?;
            let right = renamed_term(alloc, right, names)?;
            Ok(Formula::Test { cmp, left, right })
        }
        Formula::And(parts) => {
            let parts = each_renamed(alloc, &*used, parts.as_slice(), &*names, last)?;
            Ok(Formula::And(parts))
        }
        Formula::Or(parts) => {
            let parts = each_renamed(alloc, &*used, parts.as_slice(), &*names, last)?;
            Ok(Formula::Or(parts))
        }
        Formula::Not(part) => {
            let part = renamed_at(alloc, &*used, part.get(), &*names, last)?;
            Ok(Formula::Not(Boxed::new(alloc, part)?))
        }
        Formula::Implies(left, right) => {
            let left = renamed_at(alloc, &*used, left.get(), &*names, last)?;
            let right = renamed_at(alloc, &*used, right.get(), &*names, last)?;
            Ok(Formula::Implies(Boxed::new(alloc, left)?, Boxed::new(alloc, right)?))
        }
        Formula::Exists { vars, body } => {
            let (vars, body) = requantified(alloc, &*used, vars, body.get(), &*names, last)?;
            Ok(Formula::Exists { vars, body })
        }
        Formula::Forall { vars, body } => {
            let (vars, body) = requantified(alloc, &*used, vars, body.get(), &*names, last)?;
            Ok(Formula::Forall { vars, body })
        }
    }
}

/// The variables of a quantifier with their new marks, and the renamed formula under it.
#[cycle(renamed)]
#[tactic(auto, using(crate::proofs::NamingLaws::paired_fresh))]
fn requantified<'x>(
    alloc: Global,
    used: &'x [u64],
    vars: &'x TypedVars,
    body: &'x Formula,
    names: &'x Names<'x>,
    last: &mut u64,
) -> Result<(TypedVars, Boxed<Formula>), AllocError>
    requires { ascending nat_cmp used.now ≡ used.now }
    ensures vars { IfOk result (λ made. made.0 ≡ fresh used.now vars.now last.old) }
    ensures body { IfOk result (λ made. made.1 ≡ renamed_at used.now body.now (opened used.now vars.now last.old (named names.now)) (last_mark used.now vars.now last.old)) }
    ensures last { OnOk result (last.new ≡ last_at used.now body.now (opened used.now vars.now last.old (named names.now)) (last_mark used.now vars.now last.old)) }
{
    let made = fresh_vars(alloc, &*used, vars.as_slice(), last)?;
    let renewed = Renewed::new(alloc, vars.as_slice(), made)?;
    let inner = Names::Under(&renewed, &*names);
    let body = renamed_at(alloc, &*used, &*body, &inner, last)?;
    Ok((renewed.into_new(), Boxed::new(alloc, body)?))
}

#[cycle(renamed)]
fn each_renamed<'x>(
    alloc: Global,
    used: &'x [u64],
    parts: &'x [Formula],
    names: &'x Names<'x>,
    last: &mut u64,
) -> Result<Formulas, AllocError>
    requires { ascending nat_cmp used.now ≡ used.now }
    ensures formulas { IfOk result (λ made. made ≡ renamed_all used.now parts.now (named names.now) last.old) }
    ensures last { OnOk result (last.new ≡ last_all used.now parts.now (named names.now) last.old) }
{
    let mut made = Items::new(alloc);
    for part in parts {
        made.push(renamed_at(alloc, &*used, part, &*names, last)?)?;
    }
    Ok(made)
}

/// The variables with the next marks, one after the other; `last` is the last mark that was given.
fn fresh_vars(
    alloc: Global,
    used: &[u64],
    vars: &[(Var, ColType)],
    last: &mut u64,
) -> Result<TypedVars, AllocError>
    requires { ascending nat_cmp used.now ≡ used.now }
    ensures vars { IfOk result (λ made. made ≡ fresh used.now vars.now last.old) }
    ensures last { OnOk result (last.new ≡ last_mark used.now vars.now last.old) }
{
    let mut made = Items::new(alloc);
    for var in vars {
        let mark = unused_from(used, above(*last)?)?;
        let name = var.0.name.copy_in(alloc)?;
        made.push((Var { name, mark }, var.1))?;
        *last = mark;
    }
    Ok(made)
}

fn renamed_terms(alloc: Global, terms: &[Term], names: &Names) -> Result<Terms, AllocError>
    ensures { IfOk result (λ made. made ≡ map (renamed_term (named names.now)) terms.now) }
{
    let mut made = Items::new(alloc);
    for term in terms {
        made.push(renamed_term(alloc, term, names)?)?;
    }
    Ok(made)
}

fn renamed_term(alloc: Global, term: &Term, names: &Names) -> Result<Term, AllocError>
    ensures { IfOk result (λ made. made ≡ renamed_term (named names.now) term.now) }
{
    match term {
        Term::Var(var) => Ok(Term::Var(renamed_var(var, names).copy_in(alloc)?)),
        Term::Const(value) => Ok(Term::Const(value.copy_in(alloc)?)),
    }
}

/// The variable with its new mark, or as it is where it has none.
#[tactic(auto, using(crate::proofs::NamingLaws::renamed_entered))]
fn renamed_var<'x>(var: &'x Var, names: &'x Names<'x>) -> &'x Var
    ensures { result.now ≡ renamed_var (named names.now) var.now }
{
    match names {
        Names::Own => var,
        Names::Under(renewed, outer) => match renewed.find(var) {
            Some(new) => new,
            None => renamed_var(&*var, &**outer),
        },
    }
}
