//! Formulas with names.

ghost use Rattle.std.specs.Prelude.{◌≡◌, Option};
ghost use Rattle.dbn_net.specs.Maybe.{each};
ghost use Rattle.dbn_net.specs.Forms.{with_word, is_connective, comparison_of, test_of, atom_of, compared_or_atom, one_of, two_of, quantified_of, connected, formula_of, formula_in, body_in};
ghost use Rattle.dbn_reader.specs.Parses.{Parses};

use super::misfit::Misfit;
use super::words::{FromSexp, each, is_word, some_scope_in};
use dbn_net::{WrittenFormula, WrittenFormulas};
use dbn_sexp::{Sexp, list_in, word_in};
use dbn_value::{Cmp, CopyIn, Name, Term, TypedVars};
use sqlite_items::{Boxed, Items};
use std::alloc::Global;

/// How deep a formula may nest. A text nests no deeper.
const MOST_LEVELS: usize = 64;

/// The formula that the S-expression is; `Shape` comes exactly where it is none.
pub(crate) fn body_in(alloc: Global, one: &Sexp) -> Result<WrittenFormula, Misfit>
    ensures { Parses result (body_in one.now) }
{
    formula_in(alloc, MOST_LEVELS, one)
}

/// The same of a formula that nests no deeper than so many levels.
#[cycle(formulas)]
#[tactic(auto, using(crate::proofs::DepthLaws::depth_laws))]
fn formula_in(alloc: Global, depth: usize, one: &Sexp) -> Result<WrittenFormula, Misfit>
    ensures { Parses result (formula_in depth one.now) }
{
    if depth == 0 {
        return Err(Misfit::Shape);
    }
    match list_in(one) {
        None => Err(Misfit::Shape),
        Some(parts) => headed(alloc, depth - 1, parts),
    }
}

/// A list with a first word.
#[cycle(formulas)]
fn headed(alloc: Global, depth: usize, parts: &[Sexp]) -> Result<WrittenFormula, Misfit>
    ensures { Parses result (with_word (formula_of (formula_in depth)) parts.now) }
{
    match parts {
        [] => Err(Misfit::Shape),
        [head, parts @ ..] => match word_in(head) {
            None => Err(Misfit::Shape),
            Some(word) => formula_of(alloc, depth, word, parts),
        },
    }
}

#[cycle(formulas)]
fn formula_of(
    alloc: Global,
    depth: usize,
    word: &Name,
    parts: &[Sexp],
) -> Result<WrittenFormula, Misfit>
    ensures { Parses result (formula_of (formula_in depth) word.now parts.now) }
{
    if is_connective(word.as_bytes()) {
        connected(alloc, depth, word.as_bytes(), parts)
    } else {
        compared_or_atom(alloc, comparison_of(word.as_bytes()), word, parts)
    }
}

#[cycle(formulas)]
fn connected(
    alloc: Global,
    depth: usize,
    word: &[u8],
    parts: &[Sexp],
) -> Result<WrittenFormula, Misfit>
    ensures { Parses result (connected (formula_in depth) word.now parts.now) }
{
    if is_word(word, b"and".as_slice()) {
        Ok(WrittenFormula::And(each_formula(alloc, depth, parts)?))
    } else if is_word(word, b"or".as_slice()) {
        Ok(WrittenFormula::Or(each_formula(alloc, depth, parts)?))
    } else if is_word(word, b"not".as_slice()) {
        let part = one_of(alloc, depth, parts)?;
        Ok(WrittenFormula::Not(Boxed::new(alloc, part)?))
    } else if is_word(word, b"implies".as_slice()) {
        let (left, right) = two_of(alloc, depth, parts)?;
        let left = Boxed::new(alloc, left)?;
        let right = Boxed::new(alloc, right)?;
        Ok(WrittenFormula::Implies(left, right))
    } else if is_word(word, b"exists".as_slice()) {
        let (vars, body) = quantified_of(alloc, depth, parts)?;
        let body = Boxed::new(alloc, body)?;
        Ok(WrittenFormula::Exists { vars, body })
    } else {
        let (vars, body) = quantified_of(alloc, depth, parts)?;
        let body = Boxed::new(alloc, body)?;
        Ok(WrittenFormula::Forall { vars, body })
    }
}

#[cycle(formulas)]
fn each_formula(alloc: Global, depth: usize, parts: &[Sexp]) -> Result<WrittenFormulas, Misfit>
    ensures { Parses result (each (formula_in depth) parts.now) }
{
    let mut made = Items::new(alloc);
    for one in parts {
        made.push(formula_in(alloc, depth, one)?)?;
    }
    Ok(made)
}

#[cycle(formulas)]
fn one_of(alloc: Global, depth: usize, parts: &[Sexp]) -> Result<WrittenFormula, Misfit>
    ensures { Parses result (one_of (formula_in depth) parts.now) }
{
    match parts {
        [one] => formula_in(alloc, depth, one),
        _ => Err(Misfit::Shape),
    }
}

#[cycle(formulas)]
fn two_of(
    alloc: Global,
    depth: usize,
    parts: &[Sexp],
) -> Result<(WrittenFormula, WrittenFormula), Misfit>
    ensures { Parses result (two_of (formula_in depth) parts.now) }
{
    match parts {
        [left, right] => {
            let left = formula_in(alloc, depth, left)?;
            let right = formula_in(alloc, depth, right)?;
            Ok((left, right))
        }
        _ => Err(Misfit::Shape),
    }
}

#[cycle(formulas)]
fn quantified_of(
    alloc: Global,
    depth: usize,
    parts: &[Sexp],
) -> Result<(TypedVars, WrittenFormula), Misfit>
    ensures { Parses result (quantified_of (formula_in depth) parts.now) }
{
    match parts {
        [vars, body] => {
            let vars = some_scope_in(alloc, vars)?;
            let body = formula_in(alloc, depth, body)?;
            Ok((vars, body))
        }
        _ => Err(Misfit::Shape),
    }
}

/// Whether the word is that of a connective or a quantifier.
pub(crate) fn is_connective(word: &[u8]) -> bool
    ensures { result ≡ is_connective word.now }
{
    is_word(word, b"and".as_slice())
        || is_word(word, b"or".as_slice())
        || is_word(word, b"not".as_slice())
        || is_word(word, b"implies".as_slice())
        || is_word(word, b"exists".as_slice())
        || is_word(word, b"forall".as_slice())
}

/// The comparison that the word stands for.
fn comparison_of(word: &[u8]) -> Option<Cmp>
    ensures { result ≡ comparison_of word.now }
{
    if is_word(word, b"=".as_slice()) {
        Some(Cmp::Eq)
    } else if is_word(word, b"!=".as_slice()) {
        Some(Cmp::Ne)
    } else if is_word(word, b"<".as_slice()) {
        Some(Cmp::Lt)
    } else if is_word(word, b"<=".as_slice()) {
        Some(Cmp::Le)
    } else if is_word(word, b">".as_slice()) {
        Some(Cmp::Gt)
    } else if is_word(word, b">=".as_slice()) {
        Some(Cmp::Ge)
    } else {
        None
    }
}

fn compared_or_atom(
    alloc: Global,
    comparison: Option<Cmp>,
    word: &Name,
    parts: &[Sexp],
) -> Result<WrittenFormula, Misfit>
    ensures { Parses result (compared_or_atom comparison word.now parts.now) }
{
    match comparison {
        None => atom_of(alloc, word, parts),
        Some(cmp) => test_of(alloc, cmp, parts),
    }
}

fn atom_of(alloc: Global, word: &Name, parts: &[Sexp]) -> Result<WrittenFormula, Misfit>
    ensures { Parses result (atom_of word.now parts.now) }
{
    if !word.is_plain() {
        return Err(Misfit::Shape);
    }
    let terms = each::<Term>(alloc, parts)?;
    let rel = word.copy_in(alloc)?;
    Ok(WrittenFormula::Atom { rel, terms })
}

fn test_of(alloc: Global, cmp: Cmp, parts: &[Sexp]) -> Result<WrittenFormula, Misfit>
    ensures { Parses result (test_of cmp parts.now) }
{
    match parts {
        [left, right] => {
            let left = Term::from_sexp(alloc, left)?;
            let right = Term::from_sexp(alloc, right)?;
            Ok(WrittenFormula::Test { cmp, left, right })
        }
        _ => Err(Misfit::Shape),
    }
}
