//! Reading a text.

ghost use Rattle.std.specs.Prelude.{◌≡◌, [], IfOk};
ghost use Rattle.dbn_sexp.specs.Tokens.{token_of};
ghost use Rattle.dbn_sexp.specs.Reading.{constant_of, item_of, added, after, opened, closed, ended, reads};
ghost use Rattle.dbn_sexp.specs.Printing.{IsWithinDepth};
ghost use Rattle.dbn_sexp.specs.Gives.{Gives, Leads, GivesItem, state_of};

use crate::fault::{SexpFault, SexpKind};
use crate::scanning::{is_blank, line_feeds, piece_len};
use crate::sexp::{Item, Sexp, SexpList};
use dbn_value::{Name, ValueFault, read_value};
use sqlite_items::Items;
use std::alloc::Global;
use std::mem;

/// A list that isn't closed yet: the line of its parenthesis, and the items before it in the list around it.
#[derive(Debug, Drop)]
pub struct Frame {
    pub line: u64,
    pub before: SexpList,
}

/// The lists that are open, the outermost first, and the items so far of the innermost one.
#[derive(Debug, Drop)]
pub struct Reader {
    open_lists: Items<Frame>,
    items: SexpList,
}

/// The name or the constant that the bytes are; `BadToken` comes exactly where they are none.
#[tactic(auto, unfolding(crate::specs::Reading::item_of))]
fn item_of(alloc: Global, line: u64, bytes: &[u8]) -> Result<Item, SexpFault>
    ensures { GivesItem line result (item_of bytes.now) }
{
    match Name::from_bytes(alloc, bytes) {
        Ok(name) => Ok(Item::Name(name)),
        Err(ValueFault::Memory) => Err(SexpFault::Memory),
        Err(ValueFault::Spelling) => constant_of(alloc, line, bytes),
    }
}

/// The constant that the bytes spell; `BadToken` comes exactly where they spell none.
fn constant_of(alloc: Global, line: u64, bytes: &[u8]) -> Result<Item, SexpFault>
    ensures { GivesItem line result (constant_of bytes.now) }
{
    match read_value(alloc, bytes) {
        Ok(value) => Ok(Item::Const(value)),
        Err(ValueFault::Memory) => Err(SexpFault::Memory),
        Err(ValueFault::Spelling) => Err(SexpFault::Bad {
            line,
            kind: SexpKind::BadToken,
        }),
    }
}

impl Reader {
    /// A reader before the first token.
    fn new(alloc: Global) -> Reader
        ensures open_lists { result.open_lists ≡ [] }
        ensures items { result.items ≡ [] }
    {
        Reader {
            open_lists: Items::new(alloc),
            items: Items::new(alloc),
        }
    }

    /// Opens a list; `Deep` comes exactly where it would be inside `depth` others.
    fn open(&mut self, alloc: Global, depth: usize, line: u64) -> Result<(), SexpFault>
        ensures { Leads result (state_of self.new) (opened depth line (state_of self.old)) }
    {
        if self.open_lists.len() >= depth {
            return Err(SexpFault::Bad {
                line,
                kind: SexpKind::Deep,
            });
        }
        let before = mem::replace(&mut self.items, Items::new(alloc));
        self.open_lists.push(Frame { line, before })?;
        Ok(())
    }

    /// Closes the innermost list; `Unopened` comes exactly where none is open.
    fn close(&mut self, line: u64) -> Result<(), SexpFault>
        ensures { let state = state_of self.old in Leads result (state_of self.new) (closed line state.open_lists state.items) }
    {
        match self.open_lists.pop() {
            None => Err(SexpFault::Bad {
                line,
                kind: SexpKind::Unopened,
            }),
            Some(Frame { line, before }) => {
                let inner = mem::replace(&mut self.items, before);
                self.items.push(Sexp {
                    line,
                    item: Item::List(inner),
                })?;
                Ok(())
            }
        }
    }

    /// Adds a name or a constant; `BadToken` comes exactly where the bytes are none.
    fn add(&mut self, alloc: Global, line: u64, bytes: &[u8]) -> Result<(), SexpFault>
        ensures { Leads result (state_of self.new) (added line bytes.now (state_of self.old)) }
    {
        let item = item_of(alloc, line, bytes)?;
        self.items.push(Sexp { line, item })?;
        Ok(())
    }

    /// Takes one piece of the text with its first byte: a token, a comment or a blank.
    #[tactic(auto, using(crate::proofs::ReadLaws::after_laws), unfolding(crate::specs::Tokens::token_of))]
    fn take(
        &mut self,
        alloc: Global,
        depth: usize,
        line: u64,
        first: u8,
        piece: &[u8],
    ) -> Result<(), SexpFault>
        ensures { Leads result (state_of self.new) (after depth (token_of line first piece.now) (state_of self.old)) }
    {
        if is_blank(first) || first == b';' {
            Ok(())
        } else if first == b'(' {
            self.open(alloc, depth, line)
        } else if first == b')' {
            self.close(line)
        } else {
            self.add(alloc, line, piece)
        }
    }

    /// The items, once the text has ended; `Unclosed` comes exactly where a list is open.
    fn end(self) -> Result<SexpList, SexpFault>
        ensures { let state = state_of self in Gives result (ended state.open_lists state.items) }
    {
        let Reader { open_lists, items } = self;
        match open_lists.as_slice() {
            [] => Ok(items),
            [outermost, ..] => Err(SexpFault::Bad {
                line: outermost.line,
                kind: SexpKind::Unclosed,
            }),
        }
    }
}

/// The S-expressions of a text, each with the line of its first byte. `Bad` comes exactly where the text has a fault, and
/// tells the first one in reading order; no parenthesis may open inside `depth` open lists.
pub fn read_all(alloc: Global, bytes: &[u8], depth: usize) -> Result<SexpList, SexpFault>
    ensures exact { Gives result (reads depth bytes.now) }
    ensures within { IfOk result (λ list. IsWithinDepth depth list) }
{
    read_text(alloc, bytes, depth)
}

/// The same, by what reading gives alone.
fn read_text(alloc: Global, bytes: &[u8], depth: usize) -> Result<SexpList, SexpFault>
    ensures { Gives result (reads depth bytes.now) }
{
    let mut reader = Reader::new(alloc);
    let mut lines: u64 = 0;
    let mut rest = bytes;
    while let [first, ..] = rest {
        let (piece, behind) = rest.split_at(piece_len(rest));
        reader.take(alloc, depth, lines + 1, *first, piece)?;
        lines += line_feeds(piece) as u64;
        rest = behind;
    }
    reader.end()
}
