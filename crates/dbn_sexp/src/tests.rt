//! What no clause says: that calls succeed, and what texts from outside are.

use crate::{
    Item, SexpFault, SexpKind, constant_in, list_in, print, print_line, read_all,
    text_is_read_again, word_in,
};
use dbn_value::Value;
use std::alloc::Global;
use std::test::Fail;

// Whether the text is read, and printed as the other text.
fn prints_as(alloc: Global, text: &[u8], printed: &[u8]) -> Result<bool, Fail> {
    match read_all(alloc, text, 64) {
        Ok(list) => Ok(print(alloc, &list)?.as_slice() == printed),
        Err(_) => Ok(false),
    }
}

// The fault of a text.
fn fault_of(alloc: Global, text: &[u8]) -> Option<SexpFault> {
    read_all(alloc, text, 64).err()
}

fn bad(line: u64, kind: SexpKind) -> Option<SexpFault> {
    Some(SexpFault::Bad { line, kind })
}

// So many lists, each inside the one before.
fn nest(alloc: Global, count: usize) -> Result<Vec<u8>, Fail> {
    let mut text = vec![in alloc; b'('; count]?;
    text.extend_from_slice(vec![in alloc; b')'; count]?.as_slice())?;
    Ok(text)
}

#[test]
fn texts_are_read_and_printed(rt: HostRuntime) -> Result<(), Fail> {
    let rows: [(&[u8], &[u8]); 8] = [
        (b"", b""),
        (b" \t\r\n;", b""),
        (b"; \xff\xfe\x00 (\"\n(a\t7\r\n#5);)\n-9", b"(a 7 #5)\n-9\n"),
        (b"a\"x\"b", b"a\n\"x\"\nb\n"),
        (b"(x;c\ny)", b"(x y)\n"),
        (b"(\"a\\\"b\\\\\")", b"(\"a\\\"b\\\\\")\n"),
        (b"((  )(= <= != x-1_y)) 0", b"(() (= <= != x-1_y))\n0\n"),
        (b"\"\xc3\x89va (\"", b"\"\xc3\x89va (\"\n"),
    ];
    for (text, printed) in rows {
        assert!(rt; prints_as(rt.alloc(), text, printed)?, "at {text:?}");
    }
    text_is_read_again();
    Ok(())
}

#[test]
fn the_first_fault_is_told(rt: HostRuntime) {
    let rows: [(&[u8], u64, SexpKind); 12] = [
        (b"(place P", 1, SexpKind::Unclosed),
        (b"a\n(\n((b) c", 2, SexpKind::Unclosed),
        (b"()\n()\n)\n07", 3, SexpKind::Unopened),
        (b"(\n07 ))", 2, SexpKind::BadToken),
        (b"( 07", 1, SexpKind::BadToken),
        (b"a\n\"b\nc (", 2, SexpKind::BadToken),
        (b"\n\n\"\xff\"", 3, SexpKind::BadToken),
        (b"\"a\\nb\"", 1, SexpKind::BadToken),
        (b"\"a\tb\"", 1, SexpKind::BadToken),
        (b"+1", 1, SexpKind::BadToken),
        (b"a\xff", 1, SexpKind::BadToken),
        (b"#4611686018427387904", 1, SexpKind::BadToken),
    ];
    for (text, line, kind) in rows {
        assert_eq!(rt; fault_of(rt.alloc(), text), bad(line, kind), "at {text:?}");
    }
}

#[test]
fn nesting_ends_at_the_depth(rt: HostRuntime) -> Result<(), Fail> {
    let alloc = rt.alloc();
    let mut deepest = nest(alloc, 64)?;
    assert_eq!(rt;
        fault_of(alloc, nest(alloc, 65)?.as_slice()),
        bad(1, SexpKind::Deep)
    );
    assert_eq!(rt; fault_of(alloc, deepest.as_slice()), None);
    let text = nest(alloc, 64)?;
    deepest.push(b'\n')?;
    assert!(rt; prints_as(alloc, text.as_slice(), deepest.as_slice())?);
    Ok(())
}

#[test]
fn an_item_is_taken_apart_and_printed_by_itself(rt: HostRuntime) -> Result<(), Fail> {
    let alloc = rt.alloc();
    let list = read_all(alloc, b"(place 7 ())", 64)?;
    let mut out = Vec::from_slice(alloc, b"; ")?;
    for one in list.as_slice() {
        assert!(rt; word_in(one).is_none() && constant_in(one).is_none());
        match list_in(one) {
            Some([name, seven, none]) => {
                assert!(rt;
                    word_in(name).is_some_and(|name| name.as_bytes() == b"place".as_slice())
                );
                assert!(rt; matches!(constant_in(seven), Some(Value::Int(7))));
                assert!(rt; matches!(list_in(none), Some([])));
            }
            _ => assert!(rt; false),
        }
        print_line(alloc, &mut out, one)?;
    }
    assert!(rt; out.as_slice() == b"; (place 7 ())\n".as_slice());
    Ok(())
}

#[test]
fn items_have_the_line_of_their_first_byte(rt: HostRuntime) -> Result<(), Fail> {
    let list = read_all(rt.alloc(), b"a ;\n\n(b\n c)", 64)?;
    match list.as_slice() {
        [name, parts] => {
            assert_eq!(rt; (name.line, parts.line), (1, 3));
            match &parts.item {
                Item::List(inner) => match inner.as_slice() {
                    [first, second] => assert_eq!(rt; (first.line, second.line), (3, 4)),
                    _ => assert!(rt; false),
                },
                _ => assert!(rt; false),
            }
        }
        _ => assert!(rt; false),
    }
    Ok(())
}
