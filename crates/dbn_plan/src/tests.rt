//! What no clause says: that calls succeed, how many nodes a formula takes, and which rows its node has while facts come and go.

ghost use Rattle.std.specs.Prelude.{◌≡◌, ◌<◌, ◌≤◌, [], length, IfOk, OnOk, IsTrue, slice_index_or};
ghost use Rattle.dbn_value.specs.Shape.{HasShape};
ghost use Rattle.dbn_formula.specs.Solutions.{AcceptsQuery};
ghost use Rattle.dbn_instance.specs.Facts.{Fits as FitsNow, changed};
ghost use Rattle.dbn_nodes.specs.Changes.{row_in};
ghost use Rattle.dbn_network.specs.States.{with_feeds, change_at};
ghost use Rattle.dbn_plan.specs.Tested.{IsTested, Passes};

use super::compile;
use super::referring::are_among;
use dbn_formula::{Formula, Formulas, accepts_query, distinct_vars, free, type_check};
use dbn_network::Network;
use dbn_nodes::{Event, Node, Steps};
use dbn_value::{
    Cell, Cmp, Coder, ColType, IdNo, Name, PlainCoder, Row, Shape, Shapes, Term, Terms, Txt,
    TypedVars, Value, ValueFault, Var, has_shape,
};
use sqlite_items::{Boxed, Items};
use std::alloc::{AllocError, Global};
use std::marker::Brand;
use std::sync::ledger::{Blank, Ledger};
use std::test::Fail;

/// What stands in the rows of the plain coder.
type Plain = <PlainCoder as Coder>::Cell;

// ---- formulas, variables and rows as letters

/// Variables and columns are ids, texts or ints by their letter.
fn type_of(letter: u8) -> ColType {
    match letter {
        b't' | b'u' => ColType::Id,
        b'd' | b'e' | b's' => ColType::Text,
        _ => ColType::Int,
    }
}

fn var(alloc: Global, letter: u8) -> Result<Var, ValueFault> {
    let name = Name::from_bytes(alloc, [letter].as_slice())?;
    Ok(Var { name, mark: 0 })
}

fn typed(alloc: Global, letters: &[u8]) -> Result<TypedVars, ValueFault> {
    let mut vars = Items::new(alloc);
    for letter in letters {
        vars.push((var(alloc, *letter)?, type_of(*letter)))?;
    }
    Ok(vars)
}

/// A digit is an int, an upper letter an id, and any other letter a text.
fn value_of(alloc: Global, letter: u8) -> Result<Value, ValueFault> {
    match letter {
        b'0'..=b'9' => Ok(Value::Int(i64::from(letter))),
        b'A'..=b'Z' => match IdNo::new(u64::from(letter)) {
            Some(id) => Ok(Value::Id(id)),
            None => Err(ValueFault::Spelling),
        },
        _ => Ok(Value::Text(Txt::from_bytes(alloc, [letter].as_slice())?)),
    }
}

/// A digit is a constant, and a letter a variable.
fn term(alloc: Global, letter: u8) -> Result<Term, ValueFault> {
    match letter {
        b'0'..=b'9' => Ok(Term::Const(value_of(alloc, letter)?)),
        _ => Ok(Term::Var(var(alloc, letter)?)),
    }
}

fn row(alloc: Global, letters: &[u8]) -> Result<Row<Plain>, ValueFault> {
    let mut cells = Vec::new(alloc);
    for letter in letters {
        if *letter != b'.' {
            cells.push(value_of(alloc, *letter)?)?;
        }
    }
    Ok(Row::from_vec(cells))
}

fn atom(alloc: Global, rel: u8, letters: &[u8]) -> Result<Formula, ValueFault> {
    let mut terms: Terms = Items::new(alloc);
    for letter in letters {
        terms.push(term(alloc, *letter)?)?;
    }
    Ok(Formula::Atom {
        rel: usize::from(rel),
        terms,
    })
}

fn test(alloc: Global, cmp: Cmp, letters: &[u8]) -> Result<Formula, Fail> {
    match letters {
        [left, right] => {
            let left = term(alloc, *left)?;
            let right = term(alloc, *right)?;
            Ok(Formula::Test { cmp, left, right })
        }
        _ => Err(Fail::new("a comparison has two sides")),
    }
}

fn shape(alloc: Global, letters: &[u8]) -> Result<Shape, AllocError> {
    let mut shape: Shape = Items::new(alloc);
    for letter in letters {
        shape.push(type_of(*letter))?;
    }
    Ok(shape)
}

fn shapes(alloc: Global, columns: &[u8]) -> Result<Shapes, AllocError> {
    let mut shapes: Shapes = Items::new(alloc);
    for letters in columns.split(|b| *b == b' ') {
        shapes.push(shape(alloc, letters)?)?;
    }
    Ok(shapes)
}

/// The formula that was read last.
fn last(formulas: &mut Vec<Formula>) -> Result<Formula, Fail> {
    match formulas.pop() {
        Some(f) => Ok(f),
        None => Err(Fail::new("no such part")),
    }
}

/// So many that were read last.
fn parts(formulas: &mut Vec<Formula>, many: usize) -> Result<Formulas, Fail> {
    if many > formulas.len() {
        return Err(Fail::new("no such parts"));
    }
    let parts = formulas.split_off(formulas.len() - many)?;
    Ok(Items::from_vec(parts))
}

/// The formula of a word: `0xy` is an atom, `=xy` and `#xy` compare, `&`, `^` (of three), `|` and `!` join or deny what was read
/// last, and `Exy` is an `exists` over it.
fn made(alloc: Global, word: &[u8], formulas: &mut Vec<Formula>) -> Result<Formula, Fail> {
    match word {
        [b'&'] => Ok(Formula::And(parts(formulas, 2)?)),
        [b'^'] => Ok(Formula::And(parts(formulas, 3)?)),
        [b'|'] => Ok(Formula::Or(parts(formulas, 2)?)),
        [b'!'] => Ok(Formula::Not(Boxed::new(alloc, last(formulas)?)?)),
        [b'E', letters @ ..] => {
            let vars = typed(alloc, letters)?;
            let body = Boxed::new(alloc, last(formulas)?)?;
            Ok(Formula::Exists { vars, body })
        }
        [b'=', letters @ ..] => test(alloc, Cmp::Eq, letters),
        [b'#', letters @ ..] => test(alloc, Cmp::Ne, letters),
        [b'<', letters @ ..] => test(alloc, Cmp::Lt, letters),
        [digit, letters @ ..] => Ok(atom(alloc, digit.saturating_sub(b'0'), letters)?),
        [] => Err(Fail::new("no word")),
    }
}

/// The formula of words, each of which stands behind its parts.
fn formula(alloc: Global, words: &[u8]) -> Result<Formula, Fail> {
    let mut formulas = Vec::new(alloc);
    for word in words.split(|b| *b == b' ') {
        let f = made(alloc, word, &mut formulas)?;
        formulas.push(f)?;
    }
    last(&mut formulas)
}

// ---- queries that are accepted

/// Whether the query is accepted, where its types fit.
fn passes(alloc: Global, f: &Formula, vars: &TypedVars) -> Result<bool, AllocError>
    ensures { IfOk result (λ ok. IsTrue ok → Passes f.now vars.now) }
{
    if !distinct_vars(alloc, vars.as_slice())? {
        return Ok(false);
    }
    if !accepts_query(alloc, f)? {
        return Ok(false);
    }
    let names = free(alloc, f)?;
    Ok(are_among(names.as_slice(), vars.as_slice()))
}

/// Whether the query is accepted.
fn is_accepted(
    alloc: Global,
    rels: &Shapes,
    f: &Formula,
    vars: &TypedVars,
) -> Result<bool, AllocError>
    ensures { IfOk result (λ ok. IsTrue ok → AcceptsQuery rels.now vars.now f.now) }
{
    match type_check(alloc, f, vars, rels) {
        Ok(()) => passes(alloc, f, vars),
        Err(_) => Ok(false),
    }
}

// ---- networks

/// The event of a relation, with a counter of its own.
fn apply_one<C: Cell, L: Ledger>(
    alloc: Global,
    network: &mut Network<C>,
    relation: usize,
    event: &Event<C>,
    blank: Blank,
) -> Result<(), AllocError>
    requires name { blank.name ≡ L.name }
    requires parts { blank.parts ≡ L.parts }
    requires some { 0 < blank.parts }
    requires live { IsTrue network.old.live }
    requires range { relation < length network.old.feeds }
    requires shape { HasShape C.type_of (row_in event.now) (slice_index_or network.old.shapes relation []) }
    requires fits { FitsNow C.cmp network.old.feeds (change_at relation event.now) }
    ensures { OnOk result (network.new ≡ with_feeds network.old (changed C.cmp network.old.feeds (change_at relation event.now))) }
{
    let mut steps: Steps<L> = Steps::new(blank);
    network.apply(alloc, relation, event, &mut steps)?;
    Ok(())
}

/// The row comes to the relation where it is not there, and goes where it is. A scan more tells which.
fn turn<C: Cell>(
    alloc: Global,
    network: &mut Network<C>,
    relation: usize,
    row: Row<C>,
) -> Result<(), Fail>
    requires ready { IsTested network.old }
    ensures ready { OnOk result (IsTested network.new) }
    ensures more { OnOk result (length network.old.nodes ≤ length network.new.nodes) }
{
    if relation >= network.rels().len() {
        return Err(Fail::new("no such relation"));
    }
    if !has_shape(&row, &network.rels().as_slice()[relation]) {
        return Err(Fail::new("a row of another shape"));
    }
    let scan = network.add(alloc, Node::Scan { feed: relation })?;
    let there = network.has(alloc, scan, &row)?;
    let event = Event::new(row, !there);
    apply_one::<C, Brand>(alloc, network, relation, &event, Blank::new(1))?;
    Ok(())
}

/// Whether the node has these rows, each once, and no others. A dot is the row without cells.
fn has_rows(alloc: Global, network: &Network<Plain>, node: usize, rows: &str) -> Result<bool, Fail>
    requires live { IsTrue network.now.live }
    requires range { node < length network.now.nodes }
{
    for word in rows.split_whitespace() {
        let cells = row(alloc, word.as_bytes())?;
        if !network.has(alloc, node, &cells)? {
            return Ok(false);
        }
    }
    Ok(network.table(alloc, node)?.len() == rows.split_whitespace().count())
}

/// A network over the relations with these columns, without a node.
fn network_over(alloc: Global, columns: &[u8]) -> Result<Network<Plain>, Fail>
    ensures { IfOk result IsTested }
{
    let rels = shapes(alloc, columns)?;
    let places: Shapes = Items::new(alloc);
    let network = Network::new(alloc, rels, places)?;
    Ok(network)
}

/// The node of the query in the network.
fn compiled(
    alloc: Global,
    f: &Formula,
    vars: &TypedVars,
    network: &mut Network<Plain>,
) -> Result<usize, Fail>
    requires ready { IsTested network.old }
    ensures ready { OnOk result (IsTested network.new) }
    ensures range { IfOk result (λ node. node < length network.new.nodes) }
{
    if !is_accepted(alloc, network.rels(), f, vars)? {
        return Err(Fail::new("not an accepted query"));
    }
    let mut coder = PlainCoder::empty(alloc)?;
    let node = compile(alloc, f, vars, &mut coder, network)?;
    Ok(node)
}

/// The node of the query of these words and letters.
fn compiled_from(
    alloc: Global,
    words: &str,
    letters: &str,
    network: &mut Network<Plain>,
) -> Result<usize, Fail>
    requires ready { IsTested network.old }
    ensures ready { OnOk result (IsTested network.new) }
    ensures range { IfOk result (λ node. node < length network.new.nodes) }
{
    let f = formula(alloc, words.as_bytes())?;
    let vars = typed(alloc, letters.as_bytes())?;
    compiled(alloc, &f, &vars, network)
}

/// A row comes to a relation or goes from it, and then these are the rows of the node.
fn turned_once(
    alloc: Global,
    network: &mut Network<Plain>,
    node: usize,
    text: &str,
) -> Result<(), Fail>
    requires ready { IsTested network.old }
    requires range { node < length network.old.nodes }
    ensures ready { OnOk result (IsTested network.new) }
    ensures range { OnOk result (node < length network.new.nodes) }
{
    let (fact, rows) = text.split_once('=').ok_or("no rows")?;
    turned_by(alloc, network, fact.as_bytes())?;
    if !has_rows(alloc, network, node, rows)? {
        return Err(Fail::new("other rows"));
    }
    Ok(())
}

/// A row comes to a relation or goes from it.
fn turned_by(alloc: Global, network: &mut Network<Plain>, fact: &[u8]) -> Result<(), Fail>
    requires ready { IsTested network.old }
    ensures ready { OnOk result (IsTested network.new) }
    ensures more { OnOk result (length network.old.nodes ≤ length network.new.nodes) }
{
    match fact {
        [digit, letters @ ..] => {
            let relation = usize::from(digit.saturating_sub(b'0'));
            let cells = row(alloc, letters)?;
            turn(alloc, network, relation, cells)
        }
        [] => Err(Fail::new("no fact")),
    }
}

/// The node has the rows that each turn tells.
fn turned(alloc: Global, network: &mut Network<Plain>, node: usize, turns: &str) -> Result<(), Fail>
    requires ready { IsTested network.old }
    requires range { node < length network.old.nodes }
{
    for text in turns.split(',') {
        turned_once(alloc, network, node, text)?;
    }
    Ok(())
}

/// The nodes, a line each.
fn lines(alloc: Global, network: &Network<Plain>) -> Result<String, Fail> {
    let mut text = String::new(alloc);
    for number in 0..99 {
        if let Some(node) = network.node_at(number) {
            writeln!(text, "{node:?}")?;
        }
    }
    Ok(text)
}

/// The nodes, of which this one has the rows that its turns tell.
fn told(
    alloc: Global,
    network: &mut Network<Plain>,
    node: usize,
    turns: &str,
) -> Result<String, Fail>
    requires ready { IsTested network.old }
    requires range { node < length network.old.nodes }
{
    let nodes = lines(alloc, &*network)?;
    turned(alloc, network, node, turns)?;
    Ok(nodes)
}

/// The nodes of a query over relations with these columns.
fn planned(
    alloc: Global,
    columns: &str,
    words: &str,
    letters: &str,
    turns: &str,
) -> Result<String, Fail> {
    let mut network = network_over(alloc, columns.as_bytes())?;
    let node = compiled_from(alloc, words, letters, &mut network)?;
    told(alloc, &mut network, node, turns)
}

/// The nodes of a query.
fn nodes_of(alloc: Global, text: &str) -> Result<String, Fail> {
    let (columns, text) = text.split_once(';').ok_or("no formula")?;
    let (words, text) = text.split_once(';').ok_or("no variables")?;
    let (letters, turns) = text.split_once(';').ok_or("no turns")?;
    planned(alloc, columns, words, letters, turns)
}

/// The columns of relations, a formula, the variables of a query, and facts that come or go, each with the rows of the query then;
/// below them the nodes of the query, the last of which tells its rows.
const QUERIES: &str = "\
e td te;1td =tu 1ue & & #tu #de | & Etdue;;1Aa=,1Bb=,1Ab=.,1Aa=
Unit
Scan { feed: 1 }
Join { left: 1, right: 1, on: Items { items: [(0, 0)] } }
Select { from: 2, tests: Items { items: [Columns { cmp: Ne, left: 1, right: 3 }] } }
Project { from: 3, cols: Nums { nums: [] } }

e td te;2te =tu 2ud & & #tu #ed | & Eteud;;2Aa=,2Ab=.,2Aa=
Unit
Scan { feed: 2 }
Join { left: 1, right: 1, on: Items { items: [(0, 0)] } }
Select { from: 2, tests: Items { items: [Columns { cmp: Ne, left: 1, right: 3 }] } }
Project { from: 3, cols: Nums { nums: [] } }

e td te;2te 1td Ed ! & Ete;;2Aa=.,1Aj=,2Ba=.,2Ba=,1Aj=.
Unit
Scan { feed: 2 }
Scan { feed: 1 }
Project { from: 2, cols: Nums { nums: [0] } }
Project { from: 1, cols: Nums { nums: [0] } }
Diff { left: 4, right: 3 }
Project { from: 5, cols: Nums { nums: [] } }

e td te;2te 0e ! & Ete;;2Aa=.,0a=,0a=.
Unit
Scan { feed: 2 }
Scan { feed: 0 }
Project { from: 1, cols: Nums { nums: [1] } }
Diff { left: 3, right: 2 }
Project { from: 4, cols: Nums { nums: [] } }

e td te;2te 2ue & #tu & Eteu;;2Aa=,2Bb=,2Ba=.
Unit
Scan { feed: 2 }
Join { left: 1, right: 1, on: Items { items: [(1, 1)] } }
Select { from: 2, tests: Items { items: [Columns { cmp: Ne, left: 0, right: 2 }] } }
Project { from: 3, cols: Nums { nums: [] } }

e td te;0e 2te Et ! &;e;0a=a,2Aa=,0b=b,2Aa=a b
Unit
Scan { feed: 0 }
Scan { feed: 2 }
Project { from: 2, cols: Nums { nums: [1] } }
Diff { left: 1, right: 3 }

x;0x 0x ! &;x;05=,05=
Unit
Scan { feed: 0 }
Diff { left: 1, right: 1 }

e s es;0e 1s 2es ! & Es ! &;e;0a=a,1w=,2aw=a,1g=,2ag=a
Unit
Scan { feed: 0 }
Scan { feed: 1 }
Scan { feed: 2 }
Join { left: 1, right: 2, on: Items { items: [] } }
Join { left: 4, right: 3, on: Items { items: [(0, 0), (1, 1)] } }
Project { from: 5, cols: Nums { nums: [0, 1] } }
Diff { left: 4, right: 6 }
Project { from: 7, cols: Nums { nums: [0] } }
Diff { left: 1, right: 8 }

e s es;0e 1s 2es ! ^;es;0a=,1w=aw,2aw=,1g=ag
Unit
Scan { feed: 0 }
Scan { feed: 1 }
Scan { feed: 2 }
Join { left: 1, right: 2, on: Items { items: [] } }
Diff { left: 4, right: 3 }

xy;0xy Ey;x;012=1,013=1,012=1,013=
Unit
Scan { feed: 0 }
Project { from: 1, cols: Nums { nums: [0] } }

x s;0x 0x Es &;x;05=,1a=5,1a=
Unit
Scan { feed: 0 }
Join { left: 1, right: 1, on: Items { items: [(0, 0)] } }
Diff { left: 0, right: 0 }
Scan { feed: 1 }
Project { from: 4, cols: Nums { nums: [] } }
Union { left: 3, right: 5 }
Join { left: 2, right: 6, on: Items { items: [] } }
Project { from: 7, cols: Nums { nums: [0] } }
Project { from: 8, cols: Nums { nums: [0] } }

xy;0xy;xy;012=12,034=12 34
Unit
Scan { feed: 0 }

xy;0xy;yx;012=21
Unit
Scan { feed: 0 }
Project { from: 1, cols: Nums { nums: [1, 0] } }

xy;0x3 0xx |;x;012=,033=3,043=3 4
Unit
Scan { feed: 0 }
Select { from: 1, tests: Items { items: [Constant { cmp: Eq, col: 1, cell: Int(51) }] } }
Project { from: 2, cols: Nums { nums: [0] } }
Select { from: 1, tests: Items { items: [Columns { cmp: Eq, left: 0, right: 1 }] } }
Project { from: 4, cols: Nums { nums: [0] } }
Union { left: 3, right: 5 }

xy;0xy 0yx |;yx;012=12 21
Unit
Scan { feed: 0 }
Project { from: 1, cols: Nums { nums: [1, 0] } }
Union { left: 2, right: 1 }

xy;0xy <xy & <y7 &;xy;021=,012=12,017=12
Unit
Scan { feed: 0 }
Select { from: 1, tests: Items { items: [Columns { cmp: Lt, left: 0, right: 1 }] } }
Select { from: 2, tests: Items { items: [Constant { cmp: Lt, col: 1, cell: Int(55) }] } }
Project { from: 3, cols: Nums { nums: [0, 1] } }

x y;0x 1y & =xy &;xy;01=,12=,11=11
Unit
Scan { feed: 0 }
Scan { feed: 1 }
Join { left: 1, right: 2, on: Items { items: [] } }
Select { from: 3, tests: Items { items: [Columns { cmp: Eq, left: 0, right: 1 }] } }
Project { from: 4, cols: Nums { nums: [0, 1] } }

x;0x =y5 &;xy;01=15
Unit
Scan { feed: 0 }
Extend { from: 1, with: Constant(Int(53)) }
Project { from: 2, cols: Nums { nums: [0, 1] } }";

#[test]
fn each_query_has_its_nodes_and_rows(rt: HostRuntime) -> Result<(), Fail> {
    for case in QUERIES.split("\n\n") {
        let (query, nodes) = case.split_once('\n').ok_or("no nodes")?;
        let found = nodes_of(rt.alloc(), query)?;
        assert!(rt; found.trim_end() == nodes, "{query}\n{found}");
    }
    Ok(())
}
