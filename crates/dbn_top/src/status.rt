//! How a run of the top call ended.

ghost use Rattle.std.specs.Prelude.{◌≡◌};
ghost use Rattle.dbn_top.specs.Statuses.{code_of};

/// How a run of the top call ended.
#[derive(Clone, Copy, Debug, PartialEq, Eq)]
pub enum Status {
    /// All input of the verb was read to its end, and all of it was answered.
    Done,
    /// The words name no verb.
    Usage,
    /// The text of the net isn't that of an accepted net.
    Net,
    /// The files hold no state of the engine.
    Store,
    /// The source of the net or the source of the commands failed.
    ReadFault,
    /// The sink of the replies failed.
    WriteFault,
    /// One of the disks failed.
    DiskFault,
    /// The net or the commands have more bytes than the limits allow.
    InputLimit,
    /// Memory was wanting.
    Memory,
}

impl Status {
    /// The number with which the program ends: 0 for `Done`, and from 2 to 9 for the others, in their order.
    pub fn code(&self) -> u8
        ensures { result ≡ code_of self.now }
    {
        match self {
            Status::Done => 0,
            Status::Usage => 2,
            Status::Net => 3,
            Status::Store => 4,
            Status::ReadFault => 5,
            Status::WriteFault => 6,
            Status::DiskFault => 7,
            Status::InputLimit => 8,
            Status::Memory => 9,
        }
    }
}
