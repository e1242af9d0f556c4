ghost use Rattle.std.specs.Prelude.{◌≡◌, [], IfOk};
ghost use Rattle.dbn_formula.specs.Apart.{renamed};
ghost use Rattle.dbn_formula.specs.Safe.{safe, query_safe, sentence_safe};
ghost use Rattle.dbn_formula.specs.Solutions.{solvable};

use super::apart::rename_apart;
use super::arranging::arrange;
use super::formula::Formula;
use super::normal_form::{normal, normal_denied};
use super::safety::safe;
use dbn_value::Vars;
use sqlite_items::Items;
use std::alloc::{AllocError, Global};

/// Whether the formula is safe as the formula of a query: its normal form, renamed apart, is safe with nothing bound.
/// An error is want of memory.
pub fn accepts_query(alloc: Global, f: &Formula) -> Result<bool, AllocError>
    ensures { IfOk result (λ ok. ok ≡ query_safe f.now) }
{
    let form = normal(alloc, f)?;
    safe_apart(alloc, &form)
}

/// Whether the formula is safe as a sentence: the normal form of its negation, renamed apart, is safe with nothing bound.
/// An error is want of memory.
pub fn accepts_sentence(alloc: Global, f: &Formula) -> Result<bool, AllocError>
    ensures { IfOk result (λ ok. ok ≡ sentence_safe f.now) }
{
    let form = normal_denied(alloc, f)?;
    safe_apart(alloc, &form)
}

/// The formula as it is solved: in normal form, renamed apart, with the parts of each `And` in the order of the safety test.
/// It means the same and has the same free variables. An error is want of memory.
pub fn solvable(alloc: Global, f: &Formula) -> Result<Formula, AllocError>
    ensures { IfOk result (λ g. g ≡ solvable f.now) }
{
    let form = normal(alloc, f)?;
    let apart = rename_apart(alloc, &form)?;
    let nothing: Vars = Items::new(alloc);
    arrange(alloc, &apart, &nothing)
}

/// Whether the formula, renamed apart, is safe with nothing bound.
fn safe_apart(alloc: Global, form: &Formula) -> Result<bool, AllocError>
    ensures { IfOk result (λ ok. ok ≡ safe (renamed form.now) []) }
{
    let apart = rename_apart(alloc, form)?;
    let nothing: Vars = Items::new(alloc);
    safe(alloc, &apart, &nothing)
}
