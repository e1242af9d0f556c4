ghost use Rattle.std.specs.Prelude.{◌≡◌, ◌<◌, ◌++◌, ◌==◌, ℕ, [], map, length, slice_set, slice_index_or, OnOk};
ghost use Rattle.std.specs.List.{list_any};
ghost use Rattle.dbn_network.specs.Walks.{reads, longer};

use super::input::Input;
use dbn_value::Shape;
use sqlite_items::Items;
use std::alloc::{AllocError, Global};

/// The numbers of the nodes that a feed reaches, ascending.
pub(crate) type Walk = Items<usize>;

/// Whether the number is one of these.
fn is_one_of(numbers: &[usize], number: usize) -> bool
    ensures { result ≡ list_any (λ other. other == number) numbers.now }
{
    numbers.iter().any(|other| *other == number)
}

/// Whether the input is the feed, or a node that it reaches.
fn reads(feed: usize, walk: &[usize], from: &Input) -> bool
    ensures { result ≡ reads feed walk.now from.now }
{
    match from {
        Input::Nothing => false,
        Input::Feed(own) => *own == feed,
        Input::Earlier(i) => is_one_of(walk, *i),
    }
}

/// The walk of a feed with a new node behind the others, if the feed reaches an input of it. An error is want of memory.
fn lengthen(
    feed: usize,
    walk: &mut Walk,
    left: &Input,
    right: &Input,
    number: usize,
) -> Result<(), AllocError>
    ensures { OnOk result (walk.new ≡ longer feed walk.old left.now right.now number) }
{
    if reads(feed, walk.as_slice(), left) || reads(feed, walk.as_slice(), right) {
        walk.push(number)?;
    }
    Ok(())
}

/// The walk of this feed with a new node.
fn lengthen_at(
    walks: &mut Vec<Walk>,
    feed: usize,
    left: &Input,
    right: &Input,
    number: usize,
) -> Result<(), AllocError>
    requires { feed < length walks.old.items }
    ensures { OnOk result (walks.new.items ≡ slice_set walks.old.items feed (longer feed (slice_index_or walks.old.items feed []) left.now right.now number)) }
{
    lengthen(feed, &mut walks[feed], left, right, number)?;
    Ok(())
}

/// The walks of all feeds with a new node.
pub(crate) fn lengthen_all(
    walks: &mut Vec<Walk>,
    left: &Input,
    right: &Input,
    number: usize,
) -> Result<(), AllocError>
    ensures size { OnOk result (length walks.new.items ≡ length walks.old.items) }
    ensures each { OnOk result ((k : ℕ) → k < length walks.old.items → slice_index_or walks.new.items k [] ≡ longer k (slice_index_or walks.old.items k []) left.now right.now number) }
{
    for feed in 0..walks.len() {
        lengthen_at(walks, feed, left, right, number)?;
    }
    Ok(())
}

/// A walk over no nodes, for a feed of this shape.
fn walk_of(alloc: Global, _shape: &Shape) -> Walk
    ensures { result ≡ [] }
{
    Items::new(alloc)
}

/// A walk over no nodes for each of the shapes.
pub(crate) fn push_walks(
    alloc: Global,
    walks: &mut Vec<Walk>,
    shapes: &[Shape],
) -> Result<(), AllocError>
    ensures { OnOk result (walks.new.items ≡ walks.old.items ++ map (λ shape. []) shapes.now) }
{
    for shape in shapes {
        walks.push(walk_of(alloc, shape))?;
    }
    Ok(())
}
