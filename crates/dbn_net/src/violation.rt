use dbn_formula::Formula;
use dbn_value::Name;
use sqlite_items::Items;

/// Which sentence of a net.
#[derive(Debug, Drop)]
pub enum Label {
    /// A key of the relation with this number.
    Key(usize),
    /// A foreign key from the first relation to the second one.
    Foreign(usize, usize),
    /// The sentence with this name.
    Always(Name),
}

/// A formula that holds exactly where a sentence doesn't, in normal form.
#[derive(Debug, Drop)]
pub struct Named {
    pub label: Label,
    pub item: Formula,
}

/// The violations of the sentences of a net, in order of declaration.
pub type Violations = Items<Named>;
