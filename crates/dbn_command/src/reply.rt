use dbn_marking::CountedRows;
use dbn_value::{Name, Rows, Value};
use sqlite_items::Items;

/// Why a member of a group is refused.
#[derive(Clone, Copy, Debug, PartialEq, Eq, Drop)]
pub enum MemberWhy {
    /// The bound part of its row doesn't enable its transition.
    Disabled,
    /// An asked value is an id that isn't below the next one.
    UnknownId,
    /// There are too few ids left for its fresh variables.
    FreshEnd,
    /// There were 2^62 firings.
    FiringEnd,
    /// The count of a row of the place with this number would be too great.
    Count(usize),
}

/// How a member of a group fired.
#[derive(Clone, Copy, Debug, PartialEq, Eq, Drop)]
pub struct GroupLine {
    /// Whether it committed; else it rolled back.
    pub committed: bool,
    /// The number of its transition.
    pub t: usize,
    /// How many firings there are afterwards.
    pub fired: u64,
    /// The next id before it, which is that of its first fresh variable.
    pub first: u64,
}

/// How the members of a group fired, in their order.
pub type GroupLines = Items<GroupLine>;

/// What is answered to a line. Transitions, places and relations go by their numbers.
#[derive(Debug, Drop)]
pub enum Reply {
    /// The line has too many bytes.
    Long,
    /// The line is in no command's form.
    Line,
    /// The net has no transition, place or relation of this name.
    Unknown(Name),
    /// The values differ in number or types from the transition's bound and asked variables.
    Shape,
    /// The row doesn't enable the transition.
    Disabled,
    /// An asked value is an id that isn't below the next one.
    UnknownId,
    /// There are too few ids left for the fresh variables.
    FreshEnd,
    /// There were 2^62 firings.
    FiringEnd,
    /// The store has no form for groups.
    OldStore,
    /// The store has no room.
    StoreFull,
    /// The count of a row of this place would be too great.
    Count(usize),
    /// This member of the group, counted from 1, is refused.
    Member { number: u64, why: MemberWhy },
    /// The transition fired and committed; `fired` firings there are afterwards, and `first` was the next id before.
    Committed { t: usize, fired: u64, first: u64 },
    /// The same of a firing that rolled back.
    RolledBack { t: usize, fired: u64, first: u64 },
    /// All members of the group fired.
    Group(GroupLines),
    /// The rows that enable the transition.
    Bindings { t: usize, rows: Rows },
    /// What a place shows.
    Marking(CountedRows<Value>),
    /// The rows of a relation.
    Facts(Rows),
    /// The new generation of the folder.
    Checkpoint(u64),
}
