ghost use Rattle.std.specs.Prelude.{◌≡◌};
ghost use Rattle.lrs_machine.specs.Acts.{changed, plain_receipt};

use std::marker::Model;

/// What is kept of a response. For an act on the desk: the indices and counts that allow comparing it with the
/// history. Only the desk makes the receipt of an act, and no receipt is copied.
#[derive(Debug, Drop)]
pub struct Receipt {
    pub(crate) acted: bool,
    pub(crate) status: u16,
    pub(crate) point: u64,
    pub(crate) entry: Option<u64>,
    pub(crate) landed: Option<u64>,
    pub(crate) clock: u64,
    pub(crate) disk: u64,
    pub(crate) was: u64,
    pub(crate) is: u64,
}

impl Model for Receipt {
    ghost use Rattle.lrs_machine.specs.Acts.{Receipt as SpecReceipt};

    ghost Value = { SpecReceipt };

    ghost view = { λ r. record {
      acted = r.acted;
      status = r.status;
      point = r.point;
      entry = r.entry;
      landed = r.landed;
      clock = r.clock;
      disk = r.disk;
      was = r.was;
      is = r.is;
    } };
}

impl Receipt {
    /// The receipt of a response without an act.
    pub fn plain(status: u16) -> Receipt
        ensures { result ≡ plain_receipt status }
    {
        Receipt {
            acted: false,
            status,
            point: 0,
            entry: None,
            landed: None,
            clock: 0,
            disk: 0,
            was: 0,
            is: 0,
        }
    }

    /// Whether an act made it.
    pub fn acted(&self) -> bool
        ensures { result ≡ self.now.acted }
    {
        self.acted
    }

    /// The reply's status.
    pub fn status(&self) -> u16
        ensures { result ≡ self.now.status }
    {
        self.status
    }

    /// How many entries the history had when it answered.
    pub fn point(&self) -> u64
        ensures { result ≡ self.now.point }
    {
        self.point
    }

    /// The index of the act's own entry in the history, also if it is in doubt.
    pub fn entry(&self) -> Option<u64>
        ensures { result ≡ self.now.entry }
    {
        self.entry
    }

    /// The index of an earlier doubtful entry whose doubt the act ended.
    pub fn landed(&self) -> Option<u64>
        ensures { result ≡ self.now.landed }
    {
        self.landed
    }

    /// Whether the act changed the journal: the desk's line then has one record more.
    pub fn changed(&self) -> bool
        ensures { result ≡ changed self.now }
    {
        self.entry.is_some() || self.landed.is_some()
    }

    /// The reading of the clock that the act was given, in milliseconds since 1970.
    pub fn clock(&self) -> u64
        ensures { result ≡ self.now.clock }
    {
        self.clock
    }

    /// The disk's moment at the act's end.
    pub fn disk(&self) -> u64
        ensures { result ≡ self.now.disk }
    {
        self.disk
    }

    /// The disk's count of faults before the act.
    pub fn was(&self) -> u64
        ensures { result ≡ self.now.was }
    {
        self.was
    }

    /// The disk's count of faults after the act.
    pub fn is(&self) -> u64
        ensures { result ≡ self.now.is }
    {
        self.is
    }
}
