//! Reading a net text: one declaration after the other, and then the test of the initial facts.

ghost use Rattle.std.specs.Prelude.{◌≡◌, ◌<◌, ◌≤◌, ◌^◌, ◌++◌, length, Ok, IfOk, IfErr, OnOk};
ghost use Rattle.std.specs.List.{zip};
ghost use Rattle.dbn_sexp.specs.Printing.{nesting, IsWithinDepth};
ghost use Rattle.dbn_sexp.specs.Reading.{reads as list_reads};
ghost use Rattle.dbn_net.specs.Sentences.{sentences};
ghost use Rattle.dbn_net.specs.Judging.{judged};
ghost use Rattle.dbn_net.specs.WellFormed.{Passes};
ghost use Rattle.dbn_net.specs.Good.{Good};
ghost use Rattle.dbn_net.specs.Texts.{nothing, more_facts, more_tokens, sentence_lines, with_entry, read_one, read_each, first_broken, finished, reads};
ghost use Rattle.dbn_reader.specs.Light.{IsLight};
ghost use Rattle.dbn_reader.specs.Reading.{Fails, Gives, Leads, Reaches, Starts, listed, on_line, read_entry, start_of, state_of, IsReached, AreNewTokens, MayStand};

use super::broken::first_broken;
use super::declarations::declaration_in;
use super::fault::NetFault;
use super::ids::next_of;
use super::judging::{Refused, judged};
use super::misfit::Misfit;
use dbn_instance::{Fact, Instance};
use dbn_marking::{AddFault, Marking};
use dbn_net::{Decl, Entry, Net, NetKind, Snapshot, Written};
use dbn_sexp::{Sexp, SexpFault, SexpList, read_all};
use dbn_value::{Row, Value};
use sqlite_items::Items;
use std::alloc::{AllocError, Global};

/// What was read of a net text so far: the net, its initial facts and tokens, and the lines on which its sentences stand.
#[derive(Drop)]
pub(crate) struct Reading {
    pub(crate) net: Net,
    pub(crate) facts: Instance<Value>,
    pub(crate) tokens: Marking<Value>,
    pub(crate) lines: Items<u64>,
}

/// A relation begins without rows.
fn add_relation(alloc: Global, facts: &mut Instance<Value>, decl: &Decl) -> Result<(), AllocError>
    ensures { OnOk result (facts.new ≡ more_facts decl.now facts.old) }
{
    match decl {
        Decl::Relation { .. } => facts.add_relation(alloc),
        _ => Ok(()),
    }
}

/// A place begins without tokens.
fn add_place(alloc: Global, tokens: &mut Marking<Value>, decl: &Decl) -> Result<(), AllocError>
    ensures { OnOk result (tokens.new ≡ more_tokens decl.now tokens.old) }
{
    match decl {
        Decl::Site(_) => tokens.add_place(alloc),
        _ => Ok(()),
    }
}

/// The line of a sentence is kept, since a fault may be told of it at the end.
fn add_line(lines: &mut Items<u64>, line: u64, decl: &Decl) -> Result<(), AllocError>
    ensures { OnOk result (lines.new ≡ lines.old ++ sentence_lines line decl.now) }
{
    match decl {
        Decl::Key { .. } => lines.push(line),
        Decl::Foreign { .. } => lines.push(line),
        Decl::Always { .. } => lines.push(line),
        _ => Ok(()),
    }
}

impl Reading {
    /// Nothing was read. An error is want of memory.
    fn new(alloc: Global) -> Result<Reading, AllocError>
        ensures { IfOk result (λ r. state_of r ≡ nothing) }
    {
        let facts = Instance::new(alloc, 0)?;
        let tokens = Marking::new(alloc, 0)?;
        Ok(Reading {
            net: Net::empty(alloc),
            facts,
            tokens,
            lines: Items::new(alloc),
        })
    }

    /// What the written declaration, which stands on a line, means behind those that were read.
    fn judge(&self, alloc: Global, line: u64, written: Written) -> Result<Entry, NetFault>
        requires { IsReached (state_of self.now) }
        ensures { let s = state_of self.now in Gives result (on_line line (judged s.decls s.begun written)) }
    {
        match judged(alloc, &self.net, &self.facts, &self.tokens, written) {
            Ok(entry) => Ok(entry),
            Err(Refused::Kind(kind)) => Err(NetFault::Bad { line, kind }),
            Err(Refused::Memory) => Err(NetFault::Memory),
        }
    }

    /// What the S-expression declares behind what was read.
    fn entry(&self, alloc: Global, one: &Sexp) -> Result<Entry, NetFault>
        requires { IsReached (state_of self.now) }
        ensures { Gives result (read_entry (state_of self.now) one.now) }
    {
        match declaration_in(alloc, one) {
            Ok(written) => self.judge(alloc, one.line, written),
            Err(Misfit::Shape) => Err(NetFault::Bad {
                line: one.line,
                kind: NetKind::Declaration,
            }),
            Err(Misfit::Memory) => Err(NetFault::Memory),
        }
    }

    /// What the declaration begins beside itself: the rows of a relation, the tokens of a place, the line of a sentence.
    /// After want of memory the reading is of no use.
    fn begin(&mut self, alloc: Global, line: u64, decl: &Decl) -> Result<(), AllocError>
        ensures net { OnOk result (self.new.net ≡ self.old.net) }
        ensures facts { OnOk result (self.new.facts ≡ more_facts decl.now self.old.facts) }
        ensures tokens { OnOk result (self.new.tokens ≡ more_tokens decl.now self.old.tokens) }
        ensures lines { OnOk result (self.new.lines ≡ self.old.lines ++ sentence_lines line decl.now) }
    {
        add_relation(alloc, &mut self.facts, decl)?;
        add_place(alloc, &mut self.tokens, decl)?;
        add_line(&mut self.lines, line, decl)
    }

    /// One more declaration of the net. After want of memory the reading is of no use.
    fn declare(&mut self, alloc: Global, line: u64, decl: Decl) -> Result<(), AllocError>
        requires { Passes self.old.net decl }
        ensures { OnOk result (state_of self.new ≡ with_entry line (state_of self.old) (Entry.Part decl)) }
    {
        self.begin(alloc, line, &decl)?;
        self.net.add(alloc, decl)
    }

    /// One more initial fact. After want of memory nothing changed.
    fn add_fact(&mut self, alloc: Global, rel: usize, row: Row<Value>) -> Result<(), AllocError>
        requires { rel < length self.old.facts }
        ensures { OnOk result (state_of self.new ≡ with_entry 0 (state_of self.old) (Entry.Fact rel row)) }
    {
        self.facts.insert(alloc, Fact { rel, row })?;
        Ok(())
    }

    /// More initial tokens, of a row that the place doesn't have yet. After want of memory nothing changed.
    fn add_tokens(
        &mut self,
        alloc: Global,
        place: usize,
        many: u64,
        row: Row<Value>,
    ) -> Result<(), AllocError>
        requires { AreNewTokens (state_of self.old) place many row }
        ensures { OnOk result (state_of self.new ≡ with_entry 0 (state_of self.old) (Entry.Tokens place many row)) }
    {
        match self.tokens.add(alloc, place, row, many) {
            Ok(_) => Ok(()),
            Err(AddFault::Memory) => Err(AllocError),
            Err(AddFault::CountLimit) => unreachable!(),
        }
    }

    /// Takes up a declaration that stands on a line. After want of memory the reading is of no use.
    fn enter(&mut self, alloc: Global, line: u64, entry: Entry) -> Result<(), AllocError>
        requires { MayStand (state_of self.old) entry }
        ensures { OnOk result (state_of self.new ≡ with_entry line (state_of self.old) entry) }
    {
        match entry {
            Entry::Part(decl) => self.declare(alloc, line, decl),
            Entry::Fact { rel, row } => self.add_fact(alloc, rel, row),
            Entry::Tokens { place, many, row } => self.add_tokens(alloc, place, many, row),
        }
    }

    /// Reads one more declaration. After a fault the reading is of no use.
    fn take(&mut self, alloc: Global, one: &Sexp) -> Result<(), NetFault>
        requires reached { IsReached (state_of self.old) }
        requires depth { nesting one.now.item ≤ 64 }
        ensures read { Leads result (state_of self.new) (read_one (state_of self.old) one.now) }
        ensures reached { OnOk result (IsReached (state_of self.new)) }
    {
        let entry = self.entry(alloc, one)?;
        self.enter(alloc, one.line, entry)?;
        Ok(())
    }

    /// The line of the first sentence that doesn't hold, if there is one. An error is want of memory.
    fn broken(&self, alloc: Global) -> Result<Option<u64>, AllocError>
        requires { IsReached (state_of self.now) }
        ensures { IfOk result (λ found. found ≡ first_broken self.now.facts (zip self.now.lines (sentences self.now.net))) }
    {
        first_broken(alloc, &self.net, self.lines.as_slice(), &self.facts)
    }

    /// The net and the snapshot before the first firing, of which this is the next id.
    fn start(self, next: u64) -> (Net, Snapshot)
        ensures start { start_of result.0 result.1 ≡ record { decls = self.net; facts = self.facts; tokens = self.tokens; next = next } }
        ensures fired { result.1.fired ≡ 0 }
    {
        let at = Snapshot {
            instance: self.facts,
            marking: self.tokens,
            next,
            fired: 0,
        };
        (self.net, at)
    }

    /// The net and the start snapshot, if all sentences hold; `list` is all that was read.
    fn finish(self, alloc: Global, list: &[Sexp]) -> Result<(Net, Snapshot), NetFault>
        requires { IsReached (state_of self) }
        ensures exact { Starts result (finished list.now (state_of self)) }
        ensures fired { IfOk result (λ r. r.1.fired ≡ 0) }
    {
        match self.broken(alloc)? {
            Some(line) => Err(NetFault::Bad {
                line,
                kind: NetKind::Inconsistent,
            }),
            None => Ok(self.start(next_of(list))),
        }
    }
}

/// The S-expressions of the text.
fn listed(alloc: Global, bytes: &[u8]) -> Result<SexpList, NetFault>
    ensures exact { Gives result (listed (list_reads 64 bytes.now)) }
    ensures within { IfOk result (λ list. IsWithinDepth 64 list) }
{
    match read_all(alloc, bytes, 64) {
        Ok(list) => Ok(list),
        Err(SexpFault::Bad { line, .. }) => Err(NetFault::Bad {
            line,
            kind: NetKind::Syntax,
        }),
        Err(SexpFault::Memory) => Err(NetFault::Memory),
    }
}

/// All declarations of the list, one after the other.
fn read_each(alloc: Global, list: &[Sexp]) -> Result<Reading, NetFault>
    requires { IsWithinDepth 64 list.now }
    ensures read { Reaches result (read_each nothing list.now) }
    ensures reached { IfOk result (λ r. IsReached (state_of r)) }
{
    let mut reading = Reading::new(alloc)?;
    for one in list {
        reading.take(alloc, one)?;
    }
    Ok(reading)
}

/// The net and the start snapshot of a text. `Bad` comes exactly where the text has a fault, and tells the first one and its
/// line; a sentence that the initial facts don't meet is looked for last. No firing has happened, and the next id is one more
/// than the greatest id that is a word of the text, or 0 where there is none.
///
/// What is read of at most 2^31 bytes is light: no transition names more than 2^62 tokens, and no more lie in all places.
pub fn read_net(alloc: Global, bytes: &[u8]) -> Result<(Net, Snapshot), NetFault>
    ensures read { IfOk result (λ r. reads bytes.now ≡ Ok (start_of r.0 r.1)) }
    ensures fault { IfErr result (λ why. Fails why (reads bytes.now)) }
    ensures fired { IfOk result (λ r. r.1.fired ≡ 0) }
    ensures good { IfOk result (λ r. Good r.0 r.1) }
    ensures light { length bytes.now ≤ 2 ^ 31 → IfOk result (λ r. IsLight r.0 r.1.marking) }
{
    read_text(alloc, bytes)
}

/// The same, by what reading gives alone.
fn read_text(alloc: Global, bytes: &[u8]) -> Result<(Net, Snapshot), NetFault>
    ensures exact { Starts result (reads bytes.now) }
    ensures fired { IfOk result (λ r. r.1.fired ≡ 0) }
{
    let list = listed(alloc, bytes)?;
    let reading = read_each(alloc, list.as_slice())?;
    reading.finish(alloc, list.as_slice())
}
