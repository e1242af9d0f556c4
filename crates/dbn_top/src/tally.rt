//! Counting the replies and the facts of a demo.

ghost use Rattle.std.specs.Prelude.{◌≡◌, ◌++◌, IfOk, IfSome, OnOk, codes, decimal, string_bytes};
ghost use Rattle.dbn_top.specs.Demos.{many, counted, counts_line, facts_in};

use dbn_instance::Instance;
use dbn_value::Value;
use std::alloc::{AllocError, Global};
use std::fmt::Write;

/// How many lines of the text begin with this front.
fn many(front: &[u8], text: &[u8]) -> usize
    ensures { result ≡ many front.now text.now }
{
    text.split(|byte| *byte == b'\n')
        .filter(|line| line.starts_with(front))
        .count()
}

/// How many facts there are, of all relations, or nothing where there are too many to count.
#[tactic(auto, using(crate::proofs::Tallies::facts_more))]
pub(crate) fn count_facts(instance: &Instance<Value>) -> Option<usize>
    ensures { IfSome result (λ count. count ≡ facts_in instance.now) }
{
    let mut count: usize = 0;
    for rel in 0..instance.relations() {
        count = count.checked_add(instance.row_set(rel).len())?;
    }
    Some(count)
}

fn begin_line(alloc: Global, size: u64) -> Result<String, AllocError>
    ensures { IfOk result (λ line. string_bytes line ≡ codes "demo " ++ decimal size) }
{
    let line = format!(in alloc; "demo {size}")?;
    Ok(line)
}

fn add_count(line: &mut String, word: &str, count: usize) -> Result<(), AllocError>
    ensures { OnOk result (string_bytes line.new ≡ string_bytes line.old ++ counted word.now count) }
{
    write!(line, " {word} {count}")?;
    Ok(())
}

/// The line for these replies and so many facts. An error is want of memory.
pub(crate) fn counts_line(
    alloc: Global,
    size: u64,
    replies: &[u8],
    facts: usize,
) -> Result<String, AllocError>
    ensures { IfOk result (λ line. string_bytes line ≡ counts_line size replies.now facts) }
{
    let committed = many(b"committed ".as_slice(), replies);
    let rolled_back = many(b"rolled-back ".as_slice(), replies);
    let disabled = many(b"refused disabled".as_slice(), replies);
    let mut line = begin_line(alloc, size)?;
    add_count(&mut line, "committed", committed)?;
    add_count(&mut line, "rolled-back", rolled_back)?;
    add_count(&mut line, "disabled", disabled)?;
    add_count(&mut line, "facts", facts)?;
    line.push_str("\n")?;
    Ok(line)
}
