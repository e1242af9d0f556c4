//! The canonical text, one line at a time.

ghost use Rattle.std.specs.Prelude.{◌≡◌, ◌<◌, ◌≤◌, ◌^◌, ◌++◌, ◌∷◌, [], pos, length, map, IfOk, OnOk};
ghost use Rattle.std.specs.List.{All};
ghost use Rattle.dbn_net.specs.declared.written.Written.TheVariants.{Fact, Token};
ghost use Rattle.dbn_net.specs.Tables.{relations, places};
ghost use Rattle.dbn_net.specs.Naming.{named};
ghost use Rattle.dbn_net.specs.Printing.{constant, sexp_of};
ghost use Rattle.dbn_net.specs.Good.{Good};
ghost use Rattle.dbn_net.specs.Texts.{facts_from, tokens_from, printed, canonical_list, canonical, ReadsAgain};
ghost use Rattle.dbn_sexp.specs.Printing.{HasAtoms};
ghost use Rattle.dbn_writer.specs.Known.{Known};
ghost use Rattle.dbn_writer.specs.Writing.{Adds};

use super::declarations::declaration;
use super::naming::{place_name, relation_name};
use super::words::{begun, constant, list, name, number};
use dbn_instance::Instance;
use dbn_marking::Marking;
use dbn_net::{Decl, Net, Snapshot};
use dbn_sexp::{Sexp, SexpList, print_line};
use dbn_value::{Bytes, Name, Row, Value};
use std::alloc::{AllocError, Global};
use std::collections::{BTreeMap, BTreeSet};

/// Adds one line.
#[tactic(auto, using(crate::proofs::WritingLaws::adds_one))]
fn add_line(alloc: Global, out: &mut Vec<u8>, one: &Sexp) -> Result<(), AllocError>
    ensures { OnOk result (Adds out.old.items out.new.items (one.now ∷ [])) }
{
    print_line(alloc, out, one)?;
    Ok(())
}

/// Adds a line for each declaration.
fn add_declarations(
    alloc: Global,
    out: &mut Vec<u8>,
    net: &Net,
    decls: &[Decl],
) -> Result<(), AllocError>
    requires { All (Known net.now) decls.now }
    ensures { OnOk result (Adds out.old.items out.new.items (map (λ d. sexp_of (named net.now d)) decls.now)) }
{
    for decl in decls {
        let one = declaration(alloc, net, decl)?;
        add_line(alloc, out, &one)?;
    }
    Ok(())
}

/// Adds the values of a row.
fn add_constants(alloc: Global, out: &mut SexpList, row: &[Value]) -> Result<(), AllocError>
    ensures { OnOk result (out.new ≡ out.old ++ map constant row.now) }
{
    for value in row {
        out.push(constant(alloc, value)?)?;
    }
    Ok(())
}

/// A fact of a relation.
#[tactic(auto, unfolding(dbn_value::specs::Text::is_name))]
fn fact(alloc: Global, rel: &Name, row: &Row<Value>) -> Result<Sexp, AllocError>
    ensures { IfOk result (λ one. one ≡ sexp_of (Fact rel.now row.now)) }
{
    let mut parts = begun(alloc, b"fact".as_slice())?;
    parts.push(name(alloc, rel)?)?;
    add_constants(alloc, &mut parts, row.as_slice())?;
    Ok(list(parts))
}

/// Tokens of a place.
#[tactic(auto, unfolding(dbn_value::specs::Text::is_name))]
fn tokens(alloc: Global, place: &Name, row: &Row<Value>, many: u64) -> Result<Sexp, AllocError>
    requires { many < 2 ^ 32 }
    ensures { IfOk result (λ one. one ≡ sexp_of (Token place.now (pos many) row.now)) }
{
    let mut parts = begun(alloc, b"token".as_slice())?;
    parts.push(name(alloc, place)?)?;
    parts.push(number(many))?;
    add_constants(alloc, &mut parts, row.as_slice())?;
    Ok(list(parts))
}

/// Adds a line for each row of a relation.
fn add_rows(
    alloc: Global,
    out: &mut Vec<u8>,
    rel: &Name,
    rows: &BTreeSet<Row<Value>>,
) -> Result<(), AllocError>
    ensures { OnOk result (Adds out.old.items out.new.items (map (λ row. sexp_of (Fact rel.now row)) rows.now.keys)) }
{
    for row in rows {
        let one = fact(alloc, rel, row)?;
        add_line(alloc, out, &one)?;
    }
    Ok(())
}

/// Adds a line for each counted row of a place.
fn add_counts(
    alloc: Global,
    out: &mut Vec<u8>,
    place: &Name,
    counts: &BTreeMap<Row<Value>, u64>,
) -> Result<(), AllocError>
    requires { All (λ c. c.1 < 2 ^ 32) counts.now.entries }
    ensures { OnOk result (Adds out.old.items out.new.items (map (λ c. sexp_of (Token place.now (pos c.1) c.0)) counts.now.entries)) }
{
    for (row, many) in counts {
        let one = tokens(alloc, place, row, *many)?;
        add_line(alloc, out, &one)?;
    }
    Ok(())
}

/// Adds a line for each fact, by relation and row.
fn add_facts(
    alloc: Global,
    out: &mut Vec<u8>,
    net: &Net,
    instance: &Instance<Value>,
) -> Result<(), AllocError>
    requires { length instance.now ≤ length (relations net.now) }
    ensures { OnOk result (Adds out.old.items out.new.items (printed net.now (facts_from 0 instance.now))) }
{
    for rel in 0..instance.relations() {
        add_rows(alloc, out, relation_name(net, rel), instance.row_set(rel))?;
    }
    Ok(())
}

/// Adds a line for each counted row, by place and row.
fn add_tokens(
    alloc: Global,
    out: &mut Vec<u8>,
    net: &Net,
    marking: &Marking<Value>,
) -> Result<(), AllocError>
    requires { length marking.now ≤ length (places net.now) }
    ensures { OnOk result (Adds out.old.items out.new.items (printed net.now (tokens_from 0 marking.now))) }
{
    for place in 0..marking.places() {
        add_counts(alloc, out, place_name(net, place), marking.counts(place))?;
    }
    Ok(())
}

/// The canonical text of a net and a state: the declarations in their order, then the facts by relation and row, then the
/// tokens by place and row with their counts, each on a line of its own. What is read of it is the same net with the same
/// facts and tokens, and a first id that isn't above that of the state, if the state is good. The numbers of ids and firings
/// of the state are not written. An error is want of memory.
pub fn net_text(alloc: Global, net: &Net, at: &Snapshot) -> Result<Bytes, AllocError>
    requires relations { length at.now.instance ≤ length (relations net.now) }
    requires places { length at.now.marking ≤ length (places net.now) }
    ensures text { IfOk result (λ bytes. bytes ≡ canonical net.now at.now.instance at.now.marking) }
    ensures atoms { IfOk result (λ _. HasAtoms (canonical_list net.now at.now.instance at.now.marking)) }
    ensures read_again { Good net.now at.now → IfOk result (λ bytes. ReadsAgain bytes net.now at.now.instance at.now.marking at.now.next) }
{
    let decls = net.decls();
    let mut out = Vec::new(alloc);
    add_declarations(alloc, &mut out, net, decls.as_slice())?;
    add_facts(alloc, &mut out, net, &at.instance)?;
    add_tokens(alloc, &mut out, net, &at.marking)?;
    Ok(Bytes::from_vec(out))
}
