//! The tests of safety, and of numbers of tokens.

ghost use Rattle.std.specs.Prelude.{◌≡◌, IfOk};
ghost use Rattle.std.specs.List.{list_all};
ghost use Rattle.dbn_net.specs.Judging.{is_safe, is_count, arcs_counted, is_counted};

use dbn_formula::{accepts_query, accepts_sentence};
use dbn_net::{Arc, Decl, Entry, Pattern};
use std::alloc::{AllocError, Global};

/// The most tokens that one pattern, or one declaration of tokens, may name.
const MOST_TOKENS: u64 = 4_294_967_295;

/// Whether the test of safety accepts the query or the sentence. An error is want of memory.
pub(crate) fn is_safe(alloc: Global, entry: &Entry) -> Result<bool, AllocError>
    ensures { IfOk result (λ ok. ok ≡ is_safe entry.now) }
{
    match entry {
        Entry::Part(decl) => part_is_safe(alloc, decl),
        Entry::Fact { .. } | Entry::Tokens { .. } => Ok(true),
    }
}

/// The same of a declaration of the net.
fn part_is_safe(alloc: Global, decl: &Decl) -> Result<bool, AllocError>
    ensures { IfOk result (λ ok. ok ≡ is_safe (Entry.Part decl.now)) }
{
    match decl {
        Decl::Always { name: _, body } => accepts_sentence(alloc, body),
        Decl::Query {
            name: _,
            vars: _,
            body,
        } => accepts_query(alloc, body),
        Decl::Relation { .. }
        | Decl::Key { .. }
        | Decl::Foreign { .. }
        | Decl::Act(_)
        | Decl::Site(_)
        | Decl::Trans(_) => Ok(true),
    }
}

/// Whether each number of tokens is from 1 to 4,294,967,295. This takes no memory.
pub(crate) fn is_counted(entry: &Entry) -> bool
    ensures { result ≡ is_counted entry.now }
{
    match entry {
        Entry::Part(decl) => part_is_counted(decl),
        Entry::Fact { .. } => true,
        Entry::Tokens { many, .. } => is_count(*many),
    }
}

/// The same of a declaration of the net.
fn part_is_counted(decl: &Decl) -> bool
    ensures { result ≡ is_counted (Entry.Part decl.now) }
{
    match decl {
        Decl::Trans(transition) => arcs_counted(transition.ins.as_slice())
            && arcs_counted(transition.outs.as_slice())
            && arcs_counted(transition.backs.as_slice()),
        Decl::Relation { .. }
        | Decl::Key { .. }
        | Decl::Foreign { .. }
        | Decl::Always { .. }
        | Decl::Query { .. }
        | Decl::Act(_)
        | Decl::Site(_) => true,
    }
}

fn arcs_counted(arcs: &[Arc]) -> bool
    ensures { result ≡ arcs_counted arcs.now }
{
    arcs.iter()
        .all(|arc| patterns_counted(arc.patterns.as_slice()))
}

fn patterns_counted(patterns: &[Pattern]) -> bool
    ensures { result ≡ list_all (λ p. is_count p.many) patterns.now }
{
    patterns.iter().all(|pattern| is_count(pattern.many))
}

fn is_count(n: u64) -> bool
    ensures { result ≡ is_count n }
{
    1 <= n && n <= MOST_TOKENS
}
