ghost use Rattle.std.specs.Prelude.{◌≡◌, ◌+◌, ◌<◌, ◌++◌, ◌∷◌, List, [], map, length, OnOk};
ghost use Rattle.std.specs.Cmp.Lexicographic.{slice_cmp};
ghost use Rattle.std.specs.List.Sorted.{IsStrictlySortedBy};
ghost use Rattle.dbn_nodes.specs.Changes.{Leads};
ghost use Rattle.dbn_nodes.specs.Stands.{IsPlain};
ghost use Rattle.dbn_network.specs.Holding.{NotedAt};

use dbn_nodes::{Event, Keyed, Steps, mark};
use dbn_value::{Cell, Row, Shape};
use std::alloc::{AllocError, Global};
use std::sync::ledger::Ledger;

/// The event of a feed in its table, in one step.
fn note<C: Cell, L: Ledger>(
    alloc: Global,
    table: &mut Keyed<C>,
    event: &Event<C>,
    steps: &mut Steps<L>,
) -> Result<(), AllocError>
    ensures plain { OnOk result ((s z : List (List C)) → IsStrictlySortedBy (slice_cmp C.cmp) s → IsPlain C.cmp table.old s → Leads C.cmp s (event.now ∷ []) z → IsPlain C.cmp table.new z) }
    ensures cost { OnOk result (steps.new ≡ steps.old + 1) }
{
    let key = Row::from_vec(Vec::new(alloc));
    mark(alloc, table, key, event, steps)?;
    Ok(())
}

/// The event of a feed in the table of the feed.
pub(crate) fn note_at<C: Cell, L: Ledger>(
    alloc: Global,
    tables: &mut Vec<Keyed<C>>,
    feed: usize,
    event: &Event<C>,
    steps: &mut Steps<L>,
) -> Result<(), AllocError>
    requires { feed < length tables.old.items }
    ensures ok { OnOk result (NotedAt C.cmp tables.old.items tables.new.items feed event.now) }
    ensures cost { OnOk result (steps.new ≡ steps.old + 1) }
{
    note(alloc, &mut tables[feed], event, steps)?;
    Ok(())
}

/// A table without rows, for a feed of this shape.
fn table_of<C: Cell>(alloc: Global, _shape: &Shape) -> Keyed<C>
    ensures { result ≡ [] }
{
    Keyed::new(alloc)
}

/// A table without rows for each of the shapes.
pub(crate) fn push_tables<C: Cell>(
    alloc: Global,
    tables: &mut Vec<Keyed<C>>,
    shapes: &[Shape],
) -> Result<(), AllocError>
    ensures { OnOk result (tables.new.items ≡ tables.old.items ++ map (λ shape. []) shapes.now) }
{
    for shape in shapes {
        tables.push(table_of(alloc, shape))?;
    }
    Ok(())
}
