/// How a run over all lines of a source ended.
#[derive(Clone, Copy, Debug, PartialEq, Eq)]
pub enum RunEnd {
    /// All lines were answered, and the source was read to its end.
    Done,
    /// The source failed: its count of faults rose in this run. Each line that ended within the bytes taken was
    /// answered.
    ReadFault,
    /// The sink failed: its count of faults rose in this run. Something of a reply is missing.
    WriteFault,
    /// A disk failed: a count of faults of the keeper rose in this run.
    DiskFault,
    /// The source had more bytes than were to be taken, after all lines that end within those were answered.
    InputLimit,
    /// Memory was wanting.
    Memory,
}
