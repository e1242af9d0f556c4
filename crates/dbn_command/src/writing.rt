//! Replies as text.

ghost use Rattle.std.specs.Prelude.{◌≡◌, ◌++◌, ◌∷◌, ◌+◌, ◌≤◌, ◌<◌, ◌^◌, length, codes, decimal, IfOk, OnOk};
ghost use Rattle.std.specs.List.{flat_map, AllByRecursion};
ghost use Rattle.dbn_value.specs.Spelling.{spelling};
ghost use Rattle.dbn_net.specs.Tables.{places};
ghost use Rattle.dbn_command.specs.Replies.{values_text, bound_text, fresh_text, fired_text, row_line, rows_text, counted_text, place_at, why_text, group_line_text, reply_text, HasIds, IsWhy, IsReply};

use super::reply::{GroupLine, MemberWhy, Reply};
use dbn_net::{Net, Place};
use dbn_value::{Bytes, ColType, Name, Row, Value, Var, spell};
use std::alloc::{AllocError, Global};

/// Appends the bytes.
fn add(out: &mut Vec<u8>, bytes: &[u8]) -> Result<(), AllocError>
    ensures { OnOk result (out.new.items ≡ out.old.items ++ bytes.now) }
{
    out.extend_from_slice(bytes)
}

/// Appends the number's digits.
fn add_number(alloc: Global, out: &mut Vec<u8>, number: u64) -> Result<(), AllocError>
    ensures { OnOk result (out.new.items ≡ out.old.items ++ decimal number) }
{
    let digits = number.to_string(alloc)?;
    add(out, digits.as_bytes())
}

/// Appends the value's spelling.
fn add_value(alloc: Global, out: &mut Vec<u8>, value: &Value) -> Result<(), AllocError>
    ensures { OnOk result (out.new.items ≡ out.old.items ++ spelling value.now) }
{
    let spelled = spell(alloc, value)?;
    add(out, spelled.as_slice())
}

/// Appends a space and each value.
fn add_values(alloc: Global, out: &mut Vec<u8>, row: &[Value]) -> Result<(), AllocError>
    ensures { OnOk result (out.new.items ≡ out.old.items ++ values_text row.now) }
{
    for value in row {
        out.push(b' ')?;
        add_value(alloc, out, value)?;
    }
    Ok(())
}

/// Appends ` x=v`.
fn add_bound(alloc: Global, out: &mut Vec<u8>, name: &Name, value: &Value) -> Result<(), AllocError>
    ensures { OnOk result (out.new.items ≡ out.old.items ++ 32 ∷ name.now ++ codes "=" ++ spelling value.now) }
{
    out.push(b' ')?;
    add(out, name.as_bytes())?;
    out.push(b'=')?;
    add_value(alloc, out, value)
}

/// Appends each variable with its value.
fn add_all_bound(
    alloc: Global,
    out: &mut Vec<u8>,
    vars: &[(Var, ColType)],
    row: &[Value],
) -> Result<(), AllocError>
    ensures { OnOk result (out.new.items ≡ out.old.items ++ bound_text vars.now row.now) }
{
    for (var, value) in vars.iter().zip(row) {
        add_bound(alloc, out, &var.0.name, value)?;
    }
    Ok(())
}

/// Appends ` x=#n`.
fn add_id(alloc: Global, out: &mut Vec<u8>, name: &Name, number: u64) -> Result<(), AllocError>
    ensures { OnOk result (out.new.items ≡ out.old.items ++ 32 ∷ name.now ++ codes "=#" ++ decimal number) }
{
    out.push(b' ')?;
    add(out, name.as_bytes())?;
    add(out, b"=#".as_slice())?;
    add_number(alloc, out, number)
}

/// Appends each variable with its id, from the first one on.
fn add_ids(alloc: Global, out: &mut Vec<u8>, vars: &[Var], first: u64) -> Result<(), AllocError>
    requires { first + length vars.now ≤ 2 ^ 62 }
    ensures { OnOk result (out.new.items ≡ out.old.items ++ fresh_text vars.now first) }
{
    for (i, var) in vars.iter().enumerate() {
        add_id(alloc, out, &var.name, first + i as u64)?;
    }
    Ok(())
}

/// Appends how a firing ended, the number of firings and the new ids.
#[tactic(auto, unfolding(crate::specs::Replies::fired_text, crate::specs::Replies::group_line_text))]
fn add_fired(alloc: Global, out: &mut Vec<u8>, net: &Net, line: GroupLine) -> Result<(), AllocError>
    requires { HasIds net.now line.t line.first }
    ensures { OnOk result (out.new.items ≡ out.old.items ++ group_line_text net.now line) }
{
    if line.committed {
        add(out, b"committed ".as_slice())?;
    } else {
        add(out, b"rolled-back ".as_slice())?;
    }
    add_number(alloc, out, line.fired)?;
    add_ids(
        alloc,
        out,
        net.transition_at(line.t).fresh.as_slice(),
        line.first,
    )?;
    out.push(b'\n')?;
    Ok(())
}

/// Appends a line for each member, and how many there are.
fn add_group(
    alloc: Global,
    out: &mut Vec<u8>,
    net: &Net,
    lines: &[GroupLine],
) -> Result<(), AllocError>
    requires { AllByRecursion (λ l. HasIds net.now l.t l.first) lines.now }
    ensures { OnOk result (out.new.items ≡ out.old.items ++ flat_map (group_line_text net.now) lines.now ++ codes "group " ++ decimal (length lines.now) ++ codes "\n") }
{
    for line in lines {
        add_fired(alloc, out, net, *line)?;
    }
    add_count(alloc, out, b"group ".as_slice(), lines.len())
}

/// Appends the last line: a word and a count.
fn add_count(alloc: Global, out: &mut Vec<u8>, word: &[u8], count: usize) -> Result<(), AllocError>
    ensures { OnOk result (out.new.items ≡ out.old.items ++ word.now ++ decimal count ++ codes "\n") }
{
    add(out, word)?;
    add_number(alloc, out, count as u64)?;
    out.push(b'\n')?;
    Ok(())
}

/// Appends the line of a row of bound variables.
#[tactic(auto, unfolding(crate::specs::Replies::row_line))]
fn add_binding(
    alloc: Global,
    out: &mut Vec<u8>,
    vars: &[(Var, ColType)],
    row: &[Value],
) -> Result<(), AllocError>
    ensures { OnOk result (out.new.items ≡ out.old.items ++ row_line (bound_text vars.now) row.now) }
{
    add(out, b"row".as_slice())?;
    add_all_bound(alloc, out, vars, row)?;
    out.push(b'\n')?;
    Ok(())
}

/// Appends the lines of rows of bound variables.
#[tactic(auto, unfolding(crate::specs::Replies::rows_text))]
fn add_bindings(
    alloc: Global,
    out: &mut Vec<u8>,
    vars: &[(Var, ColType)],
    rows: &[Row<Value>],
) -> Result<(), AllocError>
    ensures { OnOk result (out.new.items ≡ out.old.items ++ rows_text (bound_text vars.now) (codes "bindings ") rows.now) }
{
    for row in rows {
        add_binding(alloc, out, vars, row.as_slice())?;
    }
    add_count(alloc, out, b"bindings ".as_slice(), rows.len())
}

/// Appends the line of a row and its count.
#[tactic(auto, unfolding(crate::specs::Replies::row_line))]
fn add_tokens(alloc: Global, out: &mut Vec<u8>, row: &[Value], count: u64) -> Result<(), AllocError>
    ensures { OnOk result (out.new.items ≡ out.old.items ++ row_line counted_text (row.now, count)) }
{
    add(out, b"row ".as_slice())?;
    add_number(alloc, out, count)?;
    add_values(alloc, out, row)?;
    out.push(b'\n')?;
    Ok(())
}

/// Appends the lines of counted rows.
#[tactic(auto, unfolding(crate::specs::Replies::rows_text))]
fn add_marking(
    alloc: Global,
    out: &mut Vec<u8>,
    rows: &[(Row<Value>, u64)],
) -> Result<(), AllocError>
    ensures { OnOk result (out.new.items ≡ out.old.items ++ rows_text counted_text (codes "marking ") rows.now) }
{
    for counted in rows {
        add_tokens(alloc, out, counted.0.as_slice(), counted.1)?;
    }
    add_count(alloc, out, b"marking ".as_slice(), rows.len())
}

/// Appends the line of a row.
#[tactic(auto, unfolding(crate::specs::Replies::row_line))]
fn add_fact(alloc: Global, out: &mut Vec<u8>, row: &[Value]) -> Result<(), AllocError>
    ensures { OnOk result (out.new.items ≡ out.old.items ++ row_line values_text row.now) }
{
    add(out, b"row".as_slice())?;
    add_values(alloc, out, row)?;
    out.push(b'\n')?;
    Ok(())
}

/// Appends the lines of rows.
#[tactic(auto, unfolding(crate::specs::Replies::rows_text))]
fn add_facts(alloc: Global, out: &mut Vec<u8>, rows: &[Row<Value>]) -> Result<(), AllocError>
    ensures { OnOk result (out.new.items ≡ out.old.items ++ rows_text values_text (codes "facts ") rows.now) }
{
    for row in rows {
        add_fact(alloc, out, row.as_slice())?;
    }
    add_count(alloc, out, b"facts ".as_slice(), rows.len())
}

/// The name of the place.
fn name_of(net: &Net, place: usize) -> &Name
    requires { place < length (places net.now) }
    ensures { result.now ≡ place_at net.now place }
{
    match net.place_at(place) {
        Place::Control { name, .. } => name,
        Place::View { name, .. } => name,
    }
}

/// Appends the reason.
#[tactic(auto, unfolding(crate::specs::Replies::why_text))]
fn add_why(out: &mut Vec<u8>, net: &Net, why: MemberWhy) -> Result<(), AllocError>
    requires { IsWhy net.now why }
    ensures { OnOk result (out.new.items ≡ out.old.items ++ why_text net.now why) }
{
    match why {
        MemberWhy::Disabled => add(out, b"disabled".as_slice()),
        MemberWhy::UnknownId => add(out, b"id".as_slice()),
        MemberWhy::FreshEnd => add(out, b"fresh-end".as_slice()),
        MemberWhy::FiringEnd => add(out, b"firing-end".as_slice()),
        MemberWhy::Count(place) => {
            add(out, b"count ".as_slice())?;
            add(out, name_of(net, place).as_bytes())
        }
    }
}

/// Appends the refusal of a member.
fn add_member(
    alloc: Global,
    out: &mut Vec<u8>,
    net: &Net,
    number: u64,
    why: MemberWhy,
) -> Result<(), AllocError>
    requires { IsWhy net.now why }
    ensures { OnOk result (out.new.items ≡ out.old.items ++ codes "member " ++ decimal number ++ codes " refused " ++ why_text net.now why ++ codes "\n") }
{
    add(out, b"member ".as_slice())?;
    add_number(alloc, out, number)?;
    add(out, b" refused ".as_slice())?;
    add_why(out, net, why)?;
    out.push(b'\n')?;
    Ok(())
}

/// How a firing ended.
fn group_line(committed: bool, t: usize, fired: u64, first: u64) -> GroupLine
    ensures { result ≡ record { committed = committed; t = t; fired = fired; first = first } }
{
    GroupLine {
        committed,
        t,
        fired,
        first,
    }
}

/// Appends the line of a checkpoint.
fn add_generation(alloc: Global, out: &mut Vec<u8>, generation: u64) -> Result<(), AllocError>
    ensures { OnOk result (out.new.items ≡ out.old.items ++ codes "checkpoint " ++ decimal generation ++ codes "\n") }
{
    add(out, b"checkpoint ".as_slice())?;
    add_number(alloc, out, generation)?;
    out.push(b'\n')?;
    Ok(())
}

/// Appends a line of a word and a name.
fn add_named(out: &mut Vec<u8>, word: &[u8], name: &Name) -> Result<(), AllocError>
    ensures { OnOk result (out.new.items ≡ out.old.items ++ word.now ++ name.now ++ codes "\n") }
{
    add(out, word)?;
    add(out, name.as_bytes())?;
    out.push(b'\n')?;
    Ok(())
}

/// Appends the text of the reply.
#[tactic(auto, unfolding(crate::specs::Replies::reply_text, crate::specs::Replies::group_line_text))]
fn add_reply(alloc: Global, out: &mut Vec<u8>, net: &Net, reply: &Reply) -> Result<(), AllocError>
    requires { IsReply net.now reply.now }
    ensures { OnOk result (out.new.items ≡ out.old.items ++ reply_text net.now reply.now) }
{
    match reply {
        Reply::Long => add(out, b"error long\n".as_slice()),
        Reply::Line => add(out, b"error line\n".as_slice()),
        Reply::Unknown(name) => add_named(out, b"error unknown ".as_slice(), name),
        Reply::Shape => add(out, b"error shape\n".as_slice()),
        Reply::Disabled => add(out, b"refused disabled\n".as_slice()),
        Reply::UnknownId => add(out, b"refused id\n".as_slice()),
        Reply::FreshEnd => add(out, b"refused fresh-end\n".as_slice()),
        Reply::FiringEnd => add(out, b"refused firing-end\n".as_slice()),
        Reply::OldStore => add(out, b"refused old-store\n".as_slice()),
        Reply::StoreFull => add(out, b"refused store-full\n".as_slice()),
        Reply::Count(place) => add_named(out, b"refused count ".as_slice(), name_of(net, *place)),
        Reply::Member { number, why } => add_member(alloc, out, net, *number, *why),
        Reply::Committed { t, fired, first } => {
            add_fired(alloc, out, net, group_line(true, *t, *fired, *first))
        }
        Reply::RolledBack { t, fired, first } => {
            add_fired(alloc, out, net, group_line(false, *t, *fired, *first))
        }
        Reply::Group(lines) => add_group(alloc, out, net, lines.as_slice()),
        Reply::Bindings { t, rows } => {
            add_bindings(
                alloc,
                out,
                net.transition_at(*t).bound.as_slice(),
                rows.as_slice(),
            )
        }
        Reply::Marking(rows) => add_marking(alloc, out, rows.as_slice()),
        Reply::Facts(rows) => add_facts(alloc, out, rows.as_slice()),
        Reply::Checkpoint(generation) => add_generation(alloc, out, *generation),
    }
}

/// The text of the reply, each of its lines with a line feed. An error is want of memory.
pub fn reply_text(alloc: Global, reply: &Reply, net: &Net) -> Result<Bytes, AllocError>
    requires { IsReply net.now reply.now }
    ensures { IfOk result (λ text. text ≡ reply_text net.now reply.now) }
{
    let mut out = Vec::new(alloc);
    add_reply(alloc, &mut out, net, reply)?;
    Ok(Bytes::from_vec(out))
}
