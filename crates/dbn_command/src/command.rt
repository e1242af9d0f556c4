use dbn_value::{Members, Row, Value};

/// The greatest number of members of a group.
pub const MAX_MEMBERS: usize = 4096;

/// What a line asks for. Transitions, places and relations are numbered from 0 in order of declaration.
#[derive(Debug, Drop)]
pub enum Command {
    /// Nothing: the line is blank or a comment, and has no reply.
    Blank,
    /// The rows that enable the transition.
    Bindings(usize),
    /// A firing of the transition, with the values of its bound and then of its asked variables.
    Fire(usize, Row<Value>),
    /// Firings one after the other, all or none: 1 to 4,096 of them.
    Group(Members),
    /// What the place shows.
    Marking(usize),
    /// The rows of the relation.
    Facts(usize),
    /// A checkpoint of the folder.
    Checkpoint,
}
