use dbn_value::{Cmp, Nums};
use sqlite_items::Items;

/// A test of a row. Columns are counted from 0; a test of a column that the row does not have is false.
#[derive(Debug, Drop)]
pub enum ColTest<C> {
    /// The comparison holds between the cells of two columns.
    Columns {
        /// The comparison.
        cmp: Cmp,
        /// The column at its left side.
        left: usize,
        /// The column at its right side.
        right: usize,
    },
    /// The comparison holds between the cell of a column and a cell.
    Constant {
        /// The comparison.
        cmp: Cmp,
        /// The column at its left side.
        col: usize,
        /// The cell at its right side.
        cell: C,
    },
}

/// Tests that a row has to meet, all of them.
pub type ColTests<C> = Items<ColTest<C>>;

/// Pairs of a column of the left input and a column of the right input.
pub type Pairs = Items<(usize, usize)>;

/// What the last column of an extended row holds.
#[derive(Debug, Drop)]
pub enum Added<C> {
    /// A copy of the column with this number; a row without this column gets none.
    Copied(usize),
    /// This cell.
    Constant(C),
}

/// A node of a network: how its rows follow from a feed or from the rows of earlier nodes, which go by their numbers.
#[derive(Debug, Drop)]
pub enum Node<C> {
    /// The one row without cells.
    Unit,
    /// The rows of a feed.
    Scan {
        /// The number of the feed.
        feed: usize,
    },
    /// The rows of a node that meet all tests.
    Select {
        /// The node.
        from: usize,
        /// The tests.
        tests: ColTests<C>,
    },
    /// Each row of the left node followed by each row of the right one, where the cells of all pairs of columns are the same.
    Join {
        /// The left node.
        left: usize,
        /// The right node.
        right: usize,
        /// The pairs of columns.
        on: Pairs,
    },
    /// The rows of the left node that are not in the right one, both of one width.
    Diff {
        /// The left node.
        left: usize,
        /// The right node.
        right: usize,
    },
    /// The cells at these columns of the rows of a node, each row once.
    Project {
        /// The node.
        from: usize,
        /// The columns, in the order in which they come.
        cols: Nums,
    },
    /// The rows of either node, each once, both of one width.
    Union {
        /// The left node.
        left: usize,
        /// The right node.
        right: usize,
    },
    /// The rows of a node with a last column.
    Extend {
        /// The node.
        from: usize,
        /// What the last column holds.
        with: Added<C>,
    },
}
