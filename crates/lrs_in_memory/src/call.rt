/// What a crash leaves of what wasn't synced.
#[derive(Clone, Copy, Debug, PartialEq, Eq)]
pub enum Pending {
    /// The old bytes.
    Lost,
    /// The new bytes.
    Landed,
    /// This byte throughout each written range.
    Torn(u8),
}

// What a call of a disk asks for.
#[derive(Clone, Copy)]
pub(crate) enum Act {
    Look,
    Write { offset: u64 },
    Cut { to: u64 },
    Sync,
}

// A call that was kept, with the number of its bytes in the log.
#[derive(Clone, Copy)]
pub(crate) struct Call {
    pub(crate) act: Act,
    pub(crate) size: usize,
    pub(crate) failed: bool,
}
