ghost use Rattle.std.specs.Prelude.{◌≡◌};
ghost use Rattle.dbn_nodes.specs.Changes.{row_in, comes, signed};

use dbn_value::Row;
use sqlite_items::Items;

/// A row that comes to a set of rows or goes from it.
#[derive(Debug, Drop)]
pub enum Event<C> {
    /// The row comes; it was not there.
    Plus(Row<C>),
    /// The row goes; it was there.
    Minus(Row<C>),
}

/// Events, of which the first happens first.
pub type Events<C> = Items<Event<C>>;

impl<C> Event<C> {
    /// The event that the row comes, or that it goes.
    pub fn new(row: Row<C>, comes: bool) -> Event<C>
        ensures { result ≡ signed comes row }
    {
        if comes {
            return Event::Plus(row);
        }
        Event::Minus(row)
    }

    /// The row.
    pub fn row(&self) -> &Row<C>
        ensures { result.now ≡ row_in self.now }
    {
        match self {
            Event::Plus(row) => row,
            Event::Minus(row) => row,
        }
    }

    /// Whether the row comes; else it goes.
    pub fn comes(&self) -> bool
        ensures { result ≡ comes self.now }
    {
        match self {
            Event::Plus(_) => true,
            Event::Minus(_) => false,
        }
    }
}
