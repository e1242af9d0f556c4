ghost use Rattle.std.specs.Prelude.{[]};
ghost use Rattle.dbn_command.specs.Replies.{IsReply};

use super::{Command, LineFault, MemberWhy, Reply, read_line, reply_text};
use dbn_net::Net;
use dbn_value::{Row, Rows, Value};
use sqlite_items::Items;
use std::alloc::{AllocError, Global};

/// What the line asks of the net without declarations, in a folder.
fn asked(alloc: Global, line: &[u8]) -> Result<Command, LineFault> {
    read_line(alloc, line, &Net::empty(alloc), true)
}

#[test]
fn a_blank_line_asks_for_nothing(rt: HostRuntime) {
    assert!(rt; matches!(asked(rt.alloc(), b" \t".as_slice()), Ok(Command::Blank)));
}

#[test]
fn a_folder_has_checkpoints(rt: HostRuntime) {
    assert!(rt;
        matches!(
            asked(rt.alloc(), b"checkpoint ".as_slice()),
            Ok(Command::Checkpoint)
        )
    );
}

/// Whether the fault is that this name is unknown.
fn is_unknown(read: &Result<Command, LineFault>, name: &[u8]) -> bool {
    match read {
        Err(LineFault::Unknown(unknown)) => unknown.as_bytes() == name,
        _ => false,
    }
}

#[test]
fn an_unknown_transition_is_told(rt: HostRuntime) {
    let read = asked(rt.alloc(), b"fire open \"a b\" -7 #0".as_slice());
    assert!(rt; is_unknown(&read, b"open".as_slice()));
}

#[test]
fn the_first_unknown_member_is_told(rt: HostRuntime) {
    let read = asked(rt.alloc(), b"group open \"a ; b\" ; assign #0".as_slice());
    assert!(rt; is_unknown(&read, b"open".as_slice()));
}

/// Whether the text of the reply under the net without declarations is this one.
fn is_told(alloc: Global, reply: &Reply, text: &[u8]) -> Result<bool, AllocError>
    requires { IsReply [] reply.now }
{
    let told = reply_text(alloc, reply, &Net::empty(alloc))?;
    Ok(told.as_slice() == text)
}

#[test]
fn a_refused_member_is_told(rt: HostRuntime) {
    let reply = Reply::Member {
        number: 4,
        why: MemberWhy::Disabled,
    };
    assert!(rt;
        is_told(
            rt.alloc(),
            &reply,
            b"member 4 refused disabled\n".as_slice()
        ) == Ok(true)
    );
}

#[test]
fn the_rows_of_a_relation_are_told(rt: HostRuntime) -> Result<(), AllocError> {
    let mut rows: Rows = Items::new(rt.alloc());
    rows.push(Row::from_vec(vec![in rt.alloc(); Value::Int(-7)]?))?;
    let text = b"row -7\nfacts 1\n".as_slice();
    assert!(rt; is_told(rt.alloc(), &Reply::Facts(rows), text) == Ok(true));
    Ok(())
}

#[test]
fn a_group_without_members_is_told(rt: HostRuntime) {
    let reply = Reply::Group(Items::new(rt.alloc()));
    assert!(rt; is_told(rt.alloc(), &reply, b"group 0\n".as_slice()) == Ok(true));
}
