use dbn_instance::Instance;
use dbn_marking::Marking;
use dbn_value::Value;

/// A state of a net: facts, tokens, the number of the next id and the number of firings.
#[derive(Drop)]
pub struct Snapshot {
    pub instance: Instance<Value>,
    /// One entry for each place, control or view; a view holds no tokens.
    pub marking: Marking<Value>,
    /// The id that the next fresh variable gets; all ids of the state are below. At most 2^62.
    pub next: u64,
    /// How many firings there were since the start. At most 2^62.
    pub fired: u64,
}
