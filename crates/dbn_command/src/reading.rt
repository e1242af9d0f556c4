//! Lines as commands.

ghost use Rattle.std.specs.Prelude.{◌≡◌, ◌<◌, map, length, Some, IfOk};
ghost use Rattle.std.specs.List.{list_all, slice_split};
ghost use Rattle.dbn_net.specs.Tables.{transition_names, shapes};
ghost use Rattle.dbn_command.specs.Gives.{Gives, GivesAs, each, found_or};
ghost use Rattle.dbn_command.specs.declared.fault.LineFault.TheVariants.{Unknown};
ghost use Rattle.dbn_command.specs.Lines.{name_in, value_in, call_in, is_semicolon, group_in, member_in, fits, one_name, bindings_in, marking_in, facts_in, fire_in, members_of_group_in, checkpoint_in, verb_in, is_comment, command_in, asked};

use super::call::Call;
use super::command::{Command, MAX_MEMBERS};
use super::fault::LineFault;
use super::tokens::tokens;
use dbn_net::Net;
use dbn_value::{Member, Members, Name, Row, Shapes, Value, ValueFault, has_shape, read_value};
use sqlite_items::Items;
use std::alloc::{AllocError, Global};

/// The greatest number of bytes of a name.
const MAX_NAME_BYTES: usize = 64;

/// The name that the token is, of at most 64 bytes.
#[tactic(auto, unfolding(crate::specs::Lines::name_in))]
fn name_in(alloc: Global, token: &[u8]) -> Result<Name, LineFault>
    ensures { Gives result (name_in token.now) }
{
    if token.len() > MAX_NAME_BYTES {
        return Err(LineFault::Line);
    }
    match Name::from_bytes(alloc, token) {
        Ok(name) => {
            if name.is_plain() {
                Ok(name)
            } else {
                Err(LineFault::Line)
            }
        }
        Err(ValueFault::Spelling) => Err(LineFault::Line),
        Err(ValueFault::Memory) => Err(LineFault::Memory),
    }
}

/// The value that the token spells.
#[tactic(auto, unfolding(crate::specs::Lines::value_in))]
fn value_in(alloc: Global, token: &[u8]) -> Result<Value, LineFault>
    ensures { Gives result (value_in token.now) }
{
    match read_value(alloc, token) {
        Ok(value) => Ok(value),
        Err(ValueFault::Spelling) => Err(LineFault::Line),
        Err(ValueFault::Memory) => Err(LineFault::Memory),
    }
}

/// The values that the tokens spell.
fn row_in(alloc: Global, tokens: &[&[u8]]) -> Result<Row<Value>, LineFault>
    ensures { Gives result (each value_in (map (λ token. token.now) tokens.now)) }
{
    let mut row = Vec::with_capacity(alloc, tokens.len())?;
    for token in tokens {
        row.push(value_in(alloc, token)?)?;
    }
    Ok(Row::from_vec(row))
}

/// A transition's name and values.
#[tactic(auto, unfolding(crate::specs::Lines::call_in))]
fn call_in(alloc: Global, tokens: &[&[u8]]) -> Result<Call, LineFault>
    ensures { Gives result (call_in (map (λ token. token.now) tokens.now)) }
{
    match tokens {
        [] => Err(LineFault::Line),
        [first, rest @ ..] => {
            let name = name_in(alloc, first)?;
            let row = row_in(alloc, rest)?;
            Ok(Call { name, row })
        }
    }
}

/// A call for each of the parts.
fn calls_in(alloc: Global, parts: &[&[&[u8]]]) -> Result<Vec<Call>, LineFault>
    ensures { GivesAs (λ calls. calls.items) result (each call_in (map (λ part. map (λ token. token.now) part.now) parts.now)) }
{
    let mut calls = Vec::with_capacity(alloc, parts.len())?;
    for part in parts {
        calls.push(call_in(alloc, part)?)?;
    }
    Ok(calls)
}

/// Whether the token is a semicolon.
fn is_semicolon(token: &[u8]) -> bool
    ensures { result ≡ is_semicolon token.now }
{
    token == b";".as_slice()
}

/// What stands between semicolons.
fn between_semicolons<'a, 'b>(
    alloc: Global,
    tokens: &'b [&'a [u8]],
) -> Result<Vec<&'b [&'a [u8]]>, AllocError>
    ensures { IfOk result (λ parts. map (λ part. map (λ token. token.now) part.now) parts.items ≡ slice_split is_semicolon (map (λ token. token.now) tokens.now)) }
{
    tokens.split(|token| is_semicolon(token)).collect(alloc)
}

/// The calls between semicolons.
#[tactic(auto, unfolding(crate::specs::Lines::group_in))]
fn group_in(alloc: Global, tokens: &[&[u8]]) -> Result<Vec<Call>, LineFault>
    ensures { GivesAs (λ calls. calls.items) result (group_in (map (λ token. token.now) tokens.now)) }
{
    let parts = between_semicolons(alloc, tokens)?;
    if parts.len() > MAX_MEMBERS {
        return Err(LineFault::Line);
    }
    calls_in(alloc, parts.as_slice())
}

/// The member that is called.
#[tactic(auto, unfolding(crate::specs::Lines::member_in, crate::specs::Lines::number_in))]
fn member_in(net: &Net, call: Call) -> Result<Member, LineFault>
    ensures { Gives result (member_in (transition_names net.now) call) }
{
    match net.transition(call.name.as_bytes()) {
        Some(t) => Ok(Member { t, row: call.row }),
        None => Err(LineFault::Unknown(call.name)),
    }
}

/// The members that are called.
fn members_in(alloc: Global, net: &Net, calls: Vec<Call>) -> Result<Members, LineFault>
    ensures { Gives result (each (member_in (transition_names net.now)) calls.items) }
{
    let mut members = Items::new(alloc);
    for call in calls {
        members.push(member_in(net, call)?)?;
    }
    Ok(members)
}

/// Whether the row has the types of its transition.
#[tactic(auto, using(crate::proofs::ReadLaws::shape_test, crate::proofs::ReadLaws::no_columns, crate::proofs::ReadLaws::columns_at, crate::proofs::ReadLaws::no_columns_at))]
fn fits(shapes: &Shapes, member: &Member) -> bool
    ensures { result ≡ fits shapes.now member.now }
{
    match shapes.get(member.t) {
        Some(shape) => has_shape(&member.row, shape),
        None => member.row.is_empty(),
    }
}

/// The one name that the tokens are.
#[tactic(auto, unfolding(crate::specs::Lines::one_name))]
fn one_name(alloc: Global, tokens: &[&[u8]]) -> Result<Name, LineFault>
    ensures { Gives result (one_name (map (λ token. token.now) tokens.now)) }
{
    match tokens {
        [token] => name_in(alloc, token),
        _ => Err(LineFault::Line),
    }
}

/// The number that was found for the name.
fn found_or_unknown(found: Option<usize>, name: Name) -> Result<usize, LineFault>
    ensures { Gives result (found_or (Unknown name) found) }
{
    match found {
        Some(number) => Ok(number),
        None => Err(LineFault::Unknown(name)),
    }
}

/// `bindings T`.
#[tactic(auto, unfolding(crate::specs::Lines::bindings_in, crate::specs::Lines::number_in))]
fn bindings_in(alloc: Global, tokens: &[&[u8]], net: &Net) -> Result<Command, LineFault>
    ensures { Gives result (bindings_in net.now (map (λ token. token.now) tokens.now)) }
{
    let name = one_name(alloc, tokens)?;
    let t = found_or_unknown(net.transition(name.as_bytes()), name)?;
    Ok(Command::Bindings(t))
}

/// `marking P`.
#[tactic(auto, unfolding(crate::specs::Lines::marking_in, crate::specs::Lines::number_in))]
fn marking_in(alloc: Global, tokens: &[&[u8]], net: &Net) -> Result<Command, LineFault>
    ensures { Gives result (marking_in net.now (map (λ token. token.now) tokens.now)) }
{
    let name = one_name(alloc, tokens)?;
    let place = found_or_unknown(net.place(name.as_bytes()), name)?;
    Ok(Command::Marking(place))
}

/// `facts R`.
#[tactic(auto, unfolding(crate::specs::Lines::facts_in, crate::specs::Lines::number_in))]
fn facts_in(alloc: Global, tokens: &[&[u8]], net: &Net) -> Result<Command, LineFault>
    ensures { Gives result (facts_in net.now (map (λ token. token.now) tokens.now)) }
{
    let name = one_name(alloc, tokens)?;
    let rel = found_or_unknown(net.relation(name.as_bytes()), name)?;
    Ok(Command::Facts(rel))
}

/// `fire T v..`.
#[tactic(auto, unfolding(crate::specs::Lines::fire_in))]
fn fire_in(alloc: Global, tokens: &[&[u8]], net: &Net) -> Result<Command, LineFault>
    ensures { Gives result (fire_in net.now (map (λ token. token.now) tokens.now)) }
{
    let call = call_in(alloc, tokens)?;
    let member = member_in(net, call)?;
    if fits(net.shapes(), &member) {
        Ok(Command::Fire(member.t, member.row))
    } else {
        Err(LineFault::Shape)
    }
}

/// Whether each of the members fits.
fn all_fit(shapes: &Shapes, members: &[Member]) -> bool
    ensures { result ≡ list_all (fits shapes.now) members.now }
{
    members.iter().all(|member| fits(shapes, member))
}

/// `group T v.. ; T v..`.
#[tactic(auto, unfolding(crate::specs::Lines::members_of_group_in))]
fn members_of_group_in(alloc: Global, tokens: &[&[u8]], net: &Net) -> Result<Command, LineFault>
    ensures { Gives result (members_of_group_in net.now (map (λ token. token.now) tokens.now)) }
{
    let calls = group_in(alloc, tokens)?;
    let members = members_in(alloc, net, calls)?;
    if all_fit(net.shapes(), members.as_slice()) {
        Ok(Command::Group(members))
    } else {
        Err(LineFault::Shape)
    }
}

/// `checkpoint`, where there is a folder.
#[tactic(auto, unfolding(crate::specs::Lines::checkpoint_in))]
fn checkpoint_in(tokens: &[&[u8]], folder: bool) -> Result<Command, LineFault>
    ensures { Gives result (checkpoint_in folder (map (λ token. token.now) tokens.now)) }
{
    if folder && tokens.is_empty() {
        Ok(Command::Checkpoint)
    } else {
        Err(LineFault::Line)
    }
}

/// The command of this first token.
#[tactic(auto, unfolding(crate::specs::Lines::verb_in))]
fn verb_in(
    alloc: Global,
    verb: &[u8],
    tokens: &[&[u8]],
    net: &Net,
    folder: bool,
) -> Result<Command, LineFault>
    ensures { Gives result (verb_in net.now folder verb.now (map (λ token. token.now) tokens.now)) }
{
    if verb == b"bindings".as_slice() {
        bindings_in(alloc, tokens, net)
    } else if verb == b"fire".as_slice() {
        fire_in(alloc, tokens, net)
    } else if verb == b"group".as_slice() {
        members_of_group_in(alloc, tokens, net)
    } else if verb == b"marking".as_slice() {
        marking_in(alloc, tokens, net)
    } else if verb == b"facts".as_slice() {
        facts_in(alloc, tokens, net)
    } else if verb == b"checkpoint".as_slice() {
        checkpoint_in(tokens, folder)
    } else {
        Err(LineFault::Line)
    }
}

/// Whether the token begins a comment.
fn is_comment(token: &[u8]) -> bool
    ensures { result ≡ is_comment token.now }
{
    token.first() == Some(&b';')
}

/// The command of the tokens.
#[tactic(auto, unfolding(crate::specs::Lines::command_in))]
fn command_in(
    alloc: Global,
    tokens: &[&[u8]],
    net: &Net,
    folder: bool,
) -> Result<Command, LineFault>
    ensures { Gives result (command_in net.now folder (map (λ token. token.now) tokens.now)) }
{
    match tokens {
        [] => Ok(Command::Blank),
        [verb, rest @ ..] => {
            if is_comment(verb) {
                Ok(Command::Blank)
            } else {
                verb_in(alloc, verb, rest, net, folder)
            }
        }
    }
}

/// What the line asks for, or the first of its faults. `folder` says whether `checkpoint` is a command. Tokens stand between
/// spaces and tabs; a text runs from its quote to its closing quote. The line has no line feed and any length.
#[tactic(auto, unfolding(crate::specs::Lines::asked))]
pub fn read_line(alloc: Global, line: &[u8], net: &Net, folder: bool) -> Result<Command, LineFault>
    ensures { Gives result (asked net.now folder line.now) }
{
    let tokens = tokens(alloc, line)?;
    command_in(alloc, tokens.as_slice(), net, folder)
}
