//! What formulas say of facts. A formula is a text of words, each behind its parts: `xyR` is an atom, `x?` quantifies what
//! stands before it, and of an implication the right side stands first.

ghost use Rattle.std.specs.Prelude.{◌≡◌, ◌<◌, None, [], List, true, length, slice_index_or};
ghost use Rattle.dbn_value.specs.Members.{In};
ghost use Rattle.dbn_value.specs.declared.value.Value.{Value as OneValue};
ghost use Rattle.dbn_formula.specs.Typing.{type_fault};
ghost use Rattle.dbn_formula.specs.Solutions.{HasShape, HasShapes};

use super::{answers, holds};
use dbn_formula::{Formula, Formulas, type_check};
use dbn_instance::{Fact, Instance};
use dbn_value::{
    Cmp, ColType, Name, Row, Rows, Shape, Shapes, Term, Terms, Txt, TypedVars, Value, ValueFault,
    Var, has_shape, row_of, spell,
};
use sqlite_items::{Boxed, Items};
use std::alloc::{AllocError, Global};
use std::collections::BTreeSet;
use std::test::Fail;

// The columns of each relation, by letters of their types.
const RELATIONS: [&str; 5] = ["xy", "x", "e", "e", "ef"];

// ---- letters

fn relation(letter: u8) -> usize {
    match letter {
        b'R' => 0,
        b'N' => 1,
        b'E' => 2,
        b'K' => 3,
        _ => 4,
    }
}

/// Letters from n on are variables of ints.
fn type_of(letter: u8) -> ColType {
    if letter < b'n' {
        ColType::Text
    } else {
        ColType::Int
    }
}

fn var(alloc: Global, letter: u8) -> Result<Var, ValueFault> {
    let name = Name::from_bytes(alloc, [letter].as_slice())?;
    Ok(Var { name, mark: 0 })
}

/// A digit is an int, a capital a text.
fn term(alloc: Global, letter: u8) -> Result<Term, ValueFault> {
    match letter {
        b'0'..=b'9' => Ok(Term::Const(Value::Int(i64::from(letter) - 48))),
        b'A'..=b'Z' => {
            let text = Txt::from_bytes(alloc, [letter].as_slice())?;
            Ok(Term::Const(Value::Text(text)))
        }
        _ => Ok(Term::Var(var(alloc, letter)?)),
    }
}

fn terms(alloc: Global, letters: &[u8]) -> Result<Terms, ValueFault> {
    let mut terms = Items::new(alloc);
    for letter in letters {
        terms.push(term(alloc, *letter)?)?;
    }
    Ok(terms)
}

fn variables(alloc: Global, letters: &[u8]) -> Result<TypedVars, ValueFault> {
    let mut vars = Items::new(alloc);
    for letter in letters {
        vars.push((var(alloc, *letter)?, type_of(*letter)))?;
    }
    Ok(vars)
}

// ---- formulas

fn boxed(alloc: Global, made: &mut Formulas) -> Result<Boxed<Formula>, Fail> {
    Ok(Boxed::new(alloc, made.pop().ok_or("no part")?)?)
}

fn pair(alloc: Global, made: &mut Formulas) -> Result<Formulas, Fail> {
    let last = made.pop().ok_or("no part")?;
    let mut parts = Items::new(alloc);
    parts.push(made.pop().ok_or("no part")?)?;
    parts.push(last)?;
    Ok(parts)
}

fn compared(alloc: Global, cmp: Cmp, letters: &[u8]) -> Result<Formula, Fail> {
    match letters {
        [a, b] => Ok(Formula::Test {
            cmp,
            left: term(alloc, *a)?,
            right: term(alloc, *b)?,
        }),
        _ => Err(Fail::new("not two sides")),
    }
}

fn part(alloc: Global, made: &mut Formulas, letters: &[u8], last: u8) -> Result<Formula, Fail> {
    match last {
        b'=' => compared(alloc, Cmp::Eq, letters),
        b'<' => compared(alloc, Cmp::Lt, letters),
        b'~' => Ok(Formula::Not(boxed(alloc, made)?)),
        b'&' => Ok(Formula::And(pair(alloc, made)?)),
        b'|' => Ok(Formula::Or(pair(alloc, made)?)),
        b'$' => Ok(Formula::And(Items::new(alloc))),
        b'>' => Ok(Formula::Implies(boxed(alloc, made)?, boxed(alloc, made)?)),
        b'?' => Ok(Formula::Exists {
            vars: variables(alloc, letters)?,
            body: boxed(alloc, made)?,
        }),
        b'!' => Ok(Formula::Forall {
            vars: variables(alloc, letters)?,
            body: boxed(alloc, made)?,
        }),
        _ => Ok(Formula::Atom {
            rel: relation(last),
            terms: terms(alloc, letters)?,
        }),
    }
}

/// The formula of the words, which blanks part.
fn formula(alloc: Global, words: &str) -> Result<Formula, Fail> {
    let mut made = Items::new(alloc);
    for word in words.split(' ') {
        if let Some((last, letters)) = word.as_bytes().split_last() {
            let next = part(alloc, &mut made, letters, *last)?;
            made.push(next)?;
        }
    }
    Ok(made.pop().ok_or("no formula")?)
}

// ---- facts

/// The facts of the words, which blanks part.
fn facts(alloc: Global, words: &str) -> Result<Instance<Value>, Fail> {
    let mut facts = Instance::new(alloc, RELATIONS.len())?;
    let none = Row::from_vec(Vec::new(alloc));
    for word in words.split(' ') {
        if let Some((last, letters)) = word.as_bytes().split_last() {
            let rel = relation(*last);
            let row = row_of(alloc, terms(alloc, letters)?.as_slice(), &[], &none)?;
            if rel < facts.relations() {
                facts.insert(alloc, Fact { rel, row })?;
            }
        }
    }
    Ok(facts)
}

fn shapes(alloc: Global) -> Result<Shapes, AllocError> {
    let mut shapes = Items::new(alloc);
    for letters in RELATIONS {
        let mut shape = Items::new(alloc);
        for letter in letters.as_bytes() {
            shape.push(type_of(*letter))?;
        }
        shapes.push(shape)?;
    }
    Ok(shapes)
}

fn rows_fit(rows: &BTreeSet<Row<Value>>, shape: &Shape) -> bool
    ensures { result ≡ true → (row : List OneValue) → In row rows.now.keys → HasShape row shape.now }
{
    for row in rows {
        if !has_shape(row, shape) {
            return false;
        }
    }
    true
}

fn relation_fits(rels: &Shapes, instance: &Instance<Value>, rel: usize) -> bool
    requires { rel < length instance.now }
    ensures { result ≡ true → (row : List OneValue) → In row (slice_index_or instance.now rel []) → HasShape row (slice_index_or rels.now rel []) }
{
    match rels.get(rel) {
        Some(shape) => rows_fit(instance.row_set(rel), shape),
        None => false,
    }
}

fn fits(rels: &Shapes, instance: &Instance<Value>) -> bool
    ensures { result ≡ true → HasShapes rels.now instance.now }
{
    for rel in 0..instance.relations() {
        if !relation_fits(rels, instance, rel) {
            return false;
        }
    }
    true
}

// ---- asking

fn told(
    alloc: Global,
    f: &Formula,
    vars: &TypedVars,
    rels: &Shapes,
    instance: &Instance<Value>,
) -> Result<bool, AllocError>
    requires typed { type_fault rels.now f.now vars.now ≡ None }
    requires none { vars.now ≡ [] }
    requires shapes { HasShapes rels.now instance.now }
{
    let _shapes = rels.len();
    holds(alloc, f, instance)
}

/// The rows, each behind a blank, with the spelling of each cell before a comma.
fn written(alloc: Global, rows: &Rows) -> Result<Vec<u8>, AllocError> {
    let mut text = Vec::new(alloc);
    for row in rows.as_slice() {
        text.push(b' ')?;
        for cell in row.as_slice() {
            text.extend_from_slice(spell(alloc, cell)?.as_slice())?;
            text.push(b',')?;
        }
    }
    Ok(text)
}

/// The answers for these variables, as they are written; without variables, whether the sentence holds.
fn answered(
    alloc: Global,
    f: &Formula,
    vars: &TypedVars,
    rels: &Shapes,
    instance: &Instance<Value>,
) -> Result<Vec<u8>, AllocError>
    requires typed { type_fault rels.now f.now vars.now ≡ None }
    requires shapes { HasShapes rels.now instance.now }
{
    let _shapes = rels.len();
    if vars.is_empty() {
        let holds = told(alloc, f, vars, rels, instance)?;
        let word = if holds { "yes" } else { "no" };
        return Ok(Vec::from_slice(alloc, word.as_bytes())?);
    }
    let rows = answers(alloc, f, vars, instance)?;
    written(alloc, &rows)
}

fn said(alloc: Global, given: &str, f: &str, letters: &str) -> Result<Vec<u8>, Fail> {
    let rels = shapes(alloc)?;
    let instance = facts(alloc, given)?;
    let f = formula(alloc, f)?;
    let vars = variables(alloc, letters.as_bytes())?;
    if !fits(&rels, &instance) {
        return Err(Fail::new("a row of another shape"));
    }
    match type_check(alloc, &f, &vars, &rels) {
        Ok(()) => Ok(answered(alloc, &f, &vars, &rels, &instance)?),
        Err(_) => Err(Fail::new("another type")),
    }
}

// Facts, a formula, its variables and what is said. First queries: a look-up by texts, no answer, each, one that several rows
// give, none where there is no text to take, an order, constants that are in no fact, a query that isn't safe, variables that
// stand nowhere, a join, and a disjunction. Then sentences: one that isn't safe, a key, a row for each row, quantifiers of what
// stands nowhere, and some row at all.
const SAID: &str = "\
ZE AE;gE hgH h? ~ &;g; \"A\", \"Z\",
ZE AE SZH;gE hgH h? ~ &;g; \"A\",
;xN xN ~ &;x;
5N;xN xN ~ &;x;
AE SK ASH;gE hK ghH ~ & h? ~ &;g; \"A\",
AE SK ASH GK;gE hK ghH ~ & h? ~ &;g;
12R 13R;xyR y?;x; 1,
13R;xyR y?;x; 1,
5N;xN xN g? &;x;
5N AE;xN xN g? &;x; 5,
3N 2N;xN yN & xy< &;xy; 2,3,
;x7=;x; 7,
;x7<;x;
5N;x7<;x; 5,
12R;xyR ~;xy; 1,1, 2,1, 2,2,
12R 25R;$;x; 1, 2, 5,
12R AE;xyR;xgy; 1,\"A\",2,
12R 23R 31R 21R 34R;xyR yzR & y?;xz; 1,1, 1,3, 2,1, 2,2, 2,4, 3,2,
1N 2N 12R;xN xyR y? |;x; 1, 2,
5N;xN ~ x?;;no
5N 16R;xN ~ x?;;yes
12R 13R;yz= xyR xzR & > xyz!;;no
12R 23R;yz= xyR xzR & > xyz!;;yes
12R 21R;yvR v? xyR > xy!;;yes
12R 21R 23R;yvR v? xyR > xy!;;no
;$ x?;;no
12R;$ x?;;yes
;$ ~ x!;;yes
12R;$ ~ x!;;no
12R;ghH gh? xyR > xy!;;no
12R 23R ASH;ghH gh? xyR > xy!;;yes";

#[test]
fn formulas_say_what_they_mean(rt: HostRuntime) -> Result<(), Fail> {
    for line in SAID.split('\n') {
        let (given, rest) = line.split_once(';').ok_or("no formula")?;
        let (f, rest) = rest.split_once(';').ok_or("no variables")?;
        let (letters, answer) = rest.split_once(';').ok_or("no answer")?;
        let found = said(rt.alloc(), given, f, letters)?;
        assert!(rt; found.as_slice() == answer.as_bytes(), "{line}");
    }
    Ok(())
}
