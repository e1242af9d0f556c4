//! Printing a list.

ghost use Rattle.std.specs.Prelude.{◌≡◌, ◌++◌, ◌∷◌, [], ◌≤◌, ℕ, List, Ok, map, IfOk, OnOk};
ghost use Rattle.std.specs.List.{flat_map, AllByRecursion};
ghost use Rattle.dbn_sexp.specs.Reading.{reads};
ghost use Rattle.dbn_sexp.specs.Printing.{item_text, spaced, text, atoms, IsAtom, HasAtoms, IsWithinDepth, on_lines};

use crate::sexp::{Item, Sexp, SexpList};
use dbn_value::{Bytes, in_range, spell};
use std::alloc::{AllocError, Global};

/// Adds the text of an item at the end. An error is want of memory.
#[cycle(printing)]
#[tactic(auto, using(crate::proofs::TreeLaws::text_laws, crate::proofs::TreeLaws::atoms_laws))]
fn print_item(alloc: Global, out: &mut Vec<u8>, item: &Item) -> Result<(), AllocError>
    ensures text { OnOk result (out.new.items ≡ out.old.items ++ item_text item.now) }
    ensures atoms { OnOk result (AllByRecursion IsAtom (atoms item.now)) }
{
    match item {
        Item::Name(name) => {
            out.extend_from_slice(name.as_bytes())?;
        }
        Item::Const(value) => {
            in_range(value);
            out.extend_from_slice(spell(alloc, value)?.as_slice())?;
        }
        Item::List(list) => {
            out.push(b'(')?;
            print_spaced(alloc, out, list.as_slice())?;
            out.push(b')')?;
        }
    }
    Ok(())
}

/// Adds the texts of the items with one space between them. An error is want of memory.
#[cycle(printing)]
fn print_spaced(alloc: Global, out: &mut Vec<u8>, list: &[Sexp]) -> Result<(), AllocError>
    ensures text { OnOk result (out.new.items ≡ out.old.items ++ spaced (map (λ one. item_text one.item) list.now)) }
    ensures atoms { OnOk result (HasAtoms list.now) }
{
    for (i, one) in list.iter().enumerate() {
        if i > 0 {
            out.push(b' ')?;
        }
        print_item(alloc, out, &one.item)?;
    }
    Ok(())
}

/// Adds the text of one item and a line feed at the end. An error is want of memory.
pub fn print_line(alloc: Global, out: &mut Vec<u8>, one: &Sexp) -> Result<(), AllocError>
    ensures text { OnOk result (out.new.items ≡ out.old.items ++ item_text one.now.item ++ 10 ∷ []) }
    ensures atoms { OnOk result (AllByRecursion IsAtom (atoms one.now.item)) }
{
    print_item(alloc, out, &one.item)?;
    out.push(b'\n')?;
    Ok(())
}

/// Adds the text of each item on a line of its own. An error is want of memory.
fn print_lines(alloc: Global, out: &mut Vec<u8>, list: &[Sexp]) -> Result<(), AllocError>
    ensures text { OnOk result (out.new.items ≡ out.old.items ++ text list.now) }
    ensures atoms { OnOk result (HasAtoms list.now) }
{
    for one in list {
        print_line(alloc, out, one)?;
    }
    Ok(())
}

/// The one text of a list: each item on one line. Reading it gives the same items, the lines counted anew, wherever the
/// depth allows its nesting. An error is want of memory.
#[tactic(auto, using(crate::proofs::PrintLaws::reads_bytes))]
pub fn print(alloc: Global, list: &SexpList) -> Result<Bytes, AllocError>
    ensures text { IfOk result (λ bytes. bytes ≡ text list.now) }
    ensures atoms { IfOk result (λ _. HasAtoms list.now) }
    ensures read_again { IfOk result (λ bytes. (depth : ℕ) → IsWithinDepth depth list.now → reads depth bytes ≡ Ok (on_lines 1 list.now)) }
{
    let mut out = Vec::new(alloc);
    print_lines(alloc, &mut out, list.as_slice())?;
    Ok(Bytes::from_vec(out))
}

/// What is printed is read again: the text of a list of names and values is read as the same items, the lines counted
/// anew, wherever the depth allows its nesting.
#[tactic(auto, using(crate::proofs::PrintLaws::reads_text))]
pub fn text_is_read_again()
    ensures { (depth : ℕ) (list : List Sexp) → HasAtoms list → IsWithinDepth depth list → reads depth (text list) ≡ Ok (on_lines 1 list) }
{}
