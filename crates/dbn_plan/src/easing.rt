ghost use Rattle.std.specs.Prelude.{◌≡◌, ◌∷◌, ◌++◌, [], map, IfOk, OnOk};
ghost use Rattle.std.specs.List.{flat_map, list_any};
ghost use Rattle.dbn_plan.specs.Easing.{same_pair, Adds, equated_sides, equated, is_strict, sides_ruled_out, ruled_out, left_over, eased_part, eased_body, eased};

use dbn_formula::{Formula, Formulas};
use dbn_value::{Cmp, CopyIn, Term, Var};
use sqlite_items::{Boxed, Items};
use std::alloc::{AllocError, Global};
use std::collections::BTreeSet;

/// Pairs of variables that are equal, in both orders.
type Equations = BTreeSet<(Var, Var)>;

/// The formula without the alternatives that its equations rule out: an `or` in a conjunction, at the head or behind a quantifier
/// there, loses its comparisons of two variables that fail where these are equal, as an equation of the conjunction says. An error
/// is want of memory.
pub(crate) fn eased(alloc: Global, form: &Formula) -> Result<Formula, AllocError>
    ensures { IfOk result (λ g. g ≡ eased form.now) }
{
    match form {
        Formula::Exists { vars, body } => {
            let vars = vars.copy_in(alloc)?;
            let body = eased_body(alloc, body.get())?;
            let body = Boxed::new(alloc, body)?;
            Ok(Formula::Exists { vars, body })
        }
        _ => eased_body(alloc, form),
    }
}

/// The same of a conjunction.
fn eased_body(alloc: Global, body: &Formula) -> Result<Formula, AllocError>
    ensures { IfOk result (λ g. g ≡ eased_body body.now) }
{
    match body {
        Formula::And(parts) => {
            let mut equations = BTreeSet::new(alloc);
            add_each(alloc, &mut equations, parts.as_slice())?;
            let made = eased_parts(alloc, parts.as_slice(), &equations)?;
            Ok(Formula::And(made))
        }
        _ => body.copy_in(alloc),
    }
}

/// The parts of a conjunction.
fn eased_parts(
    alloc: Global,
    parts: &[Formula],
    equations: &Equations,
) -> Result<Formulas, AllocError>
    ensures { IfOk result (λ made. made ≡ map (eased_part equations.now.keys) parts.now) }
{
    let mut made = Items::new(alloc);
    for part in parts {
        let more = eased_part(alloc, part, equations)?;
        made.push(more)?;
    }
    Ok(made)
}

/// A part of a conjunction.
fn eased_part(alloc: Global, part: &Formula, equations: &Equations) -> Result<Formula, AllocError>
    ensures { IfOk result (λ g. g ≡ eased_part equations.now.keys part.now) }
{
    match part {
        Formula::Or(parts) => {
            let left = left_over(alloc, parts.as_slice(), equations)?;
            Ok(Formula::Or(left))
        }
        _ => part.copy_in(alloc),
    }
}

/// The alternatives that aren't ruled out.
fn left_over(
    alloc: Global,
    parts: &[Formula],
    equations: &Equations,
) -> Result<Formulas, AllocError>
    ensures { IfOk result (λ left. left ≡ left_over equations.now.keys parts.now) }
{
    let mut left = Items::new(alloc);
    for part in parts {
        add_left_over(alloc, &mut left, part, equations)?;
    }
    Ok(left)
}

/// Appends the alternative, unless it is ruled out.
fn add_left_over(
    alloc: Global,
    left: &mut Formulas,
    part: &Formula,
    equations: &Equations,
) -> Result<(), AllocError>
    ensures { OnOk result (left.new ≡ left.old ++ left_over equations.now.keys (part.now ∷ [])) }
{
    let out = is_ruled_out(alloc, part, equations)?;
    if out {
        return Ok(());
    }
    let more = part.copy_in(alloc)?;
    left.push(more)
}

/// Whether the alternative fails where the equations hold.
fn is_ruled_out(alloc: Global, part: &Formula, equations: &Equations) -> Result<bool, AllocError>
    ensures { IfOk result (λ out. out ≡ ruled_out equations.now.keys part.now) }
{
    match part {
        Formula::Test { cmp, left, right } => {
            sides_ruled_out(alloc, *cmp, left, right, equations)
        }
        _ => Ok(false),
    }
}

/// The same of a comparison.
fn sides_ruled_out(
    alloc: Global,
    cmp: Cmp,
    left: &Term,
    right: &Term,
    equations: &Equations,
) -> Result<bool, AllocError>
    ensures { IfOk result (λ out. out ≡ sides_ruled_out equations.now.keys cmp left.now right.now) }
{
    match (left, right) {
        (Term::Var(x), Term::Var(y)) => {
            if !is_strict(cmp) {
                return Ok(false);
            }
            are_equated(alloc, x, y, equations)
        }
        (Term::Var(_), Term::Const(_)) => Ok(false),
        (Term::Const(_), _) => Ok(false),
    }
}

/// Whether the comparison fails where both sides are equal.
fn is_strict(cmp: Cmp) -> bool
    ensures { result ≡ is_strict cmp }
{
    match cmp {
        Cmp::Ne | Cmp::Lt | Cmp::Gt => true,
        Cmp::Eq | Cmp::Le | Cmp::Ge => false,
    }
}

/// Whether an equation says that the two are equal.
fn are_equated(alloc: Global, x: &Var, y: &Var, equations: &Equations) -> Result<bool, AllocError>
    ensures { IfOk result (λ found. found ≡ list_any (same_pair (x.now, y.now)) equations.now.keys) }
{
    let left = x.copy_in(alloc)?;
    let right = y.copy_in(alloc)?;
    let pair = (left, right);
    Ok(equations.contains(&pair))
}

/// Adds the equations that stand in the formula under `and` alone.
#[cycle(equated)]
fn add_equated(alloc: Global, equations: &mut Equations, f: &Formula) -> Result<(), AllocError>
    ensures { OnOk result (Adds equations.old.keys equations.new.keys (equated f.now)) }
{
    match f {
        Formula::Test { cmp, left, right } => add_sides(alloc, equations, *cmp, left, right),
        Formula::And(parts) => add_each(alloc, equations, parts.as_slice()),
        _ => Ok(()),
    }
}

/// Adds the equations of all parts.
#[cycle(equated)]
fn add_each(alloc: Global, equations: &mut Equations, parts: &[Formula]) -> Result<(), AllocError>
    ensures { OnOk result (Adds equations.old.keys equations.new.keys (flat_map equated parts.now)) }
{
    for part in parts {
        add_equated(alloc, equations, part)?;
    }
    Ok(())
}

/// Adds the comparison, if it is an equation of two variables.
fn add_sides(
    alloc: Global,
    equations: &mut Equations,
    cmp: Cmp,
    left: &Term,
    right: &Term,
) -> Result<(), AllocError>
    ensures { OnOk result (Adds equations.old.keys equations.new.keys (equated_sides cmp left.now right.now)) }
{
    match (cmp, left, right) {
        (Cmp::Eq, Term::Var(x), Term::Var(y)) => {
            add_pair(alloc, equations, x, y)?;
            add_pair(alloc, equations, y, x)
        }
        _ => Ok(()),
    }
}

/// Adds the two variables in this order.
fn add_pair(alloc: Global, equations: &mut Equations, x: &Var, y: &Var) -> Result<(), AllocError>
    ensures { OnOk result (Adds equations.old.keys equations.new.keys ((x.now, y.now) ∷ [])) }
{
    let left = x.copy_in(alloc)?;
    let right = y.copy_in(alloc)?;
    equations.insert((left, right))?;
    Ok(())
}
