/// What a run is told at its start.
#[derive(Clone, Copy, Debug, PartialEq, Eq)]
pub struct RunTerms {
    /// Whether there is a folder; without one `checkpoint` is no command.
    pub folder: bool,
    /// The most bytes of the text of a checkpoint, at most 2^31.
    pub net_bytes: u64,
    /// With so many records the run makes a checkpoint by itself.
    pub every: Option<u64>,
}
