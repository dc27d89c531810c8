//! Gates, by which links in different threads wait for one another.
ghost use Rattle.std.specs.Prelude.{◌<◌, IfSome};

use lrs_in_memory::Memory;
use std::alloc::Global;
use std::hint;
use std::sync::Arc;
use std::sync::atomic::{AtomicU64, Ordering};

/// How often a link at a shut gate looks whether it opens, before it fails.
const MOST_LOOKS: u64 = 200_000_000;

// What a sign shows, one bit for each.
const ANSWERED: u64 = 1;

const WAITING: u64 = 2;

/// What a link shows to others: whether it was answered, and whether it waits at its gate. What was shown once stays.
#[derive(Drop)]
pub struct Sign {
    shown: Arc<AtomicU64>,
}

impl Sign {
    /// A sign that shows nothing so far.
    pub fn new(alloc: Global) -> Result<Self, Memory> {
        Ok(Sign {
            shown: Arc::new(alloc, AtomicU64::new(0))?,
        })
    }

    /// The same sign, for another link to look at.
    pub fn again(&self) -> Result<Self, Memory> {
        Ok(Sign {
            shown: Arc::try_clone(&self.shown)?,
        })
    }

    fn show(&self, mark: u64) {
        self.shown.fetch_or(mark, Ordering::SeqCst);
    }

    fn shows(&self, mark: u64) -> bool {
        self.shown.load(Ordering::SeqCst) & mark != 0
    }
}

/// What opens a gate.
#[derive(Drop)]
pub enum Until {
    /// The link of this sign took a byte.
    Answered(Sign),
    /// The link of this sign waits at its own gate.
    Waits(Sign),
}

impl Until {
    fn has_come(&self) -> bool {
        match self {
            Until::Answered(sign) => sign.shows(ANSWERED),
            Until::Waits(sign) => sign.shows(WAITING),
        }
    }
}

// What a gate holds back while it is shut.
#[derive(Drop)]
enum Held {
    Nothing,
    // What comes from this offset on.
    Input { offset: usize, until: Until },
    // All that goes out.
    Output { until: Until },
}

/// What a link shows, and what it holds back until another link in another thread has shown something.
#[derive(Drop)]
pub struct Gate {
    own: Sign,
    held: Held,
}

impl Gate {
    /// A gate that stands open. Its link shows this sign.
    pub fn open(own: Sign) -> Self {
        Gate {
            own,
            held: Held::Nothing,
        }
    }

    /// A gate past which no byte from this offset of the stream on is given until then.
    pub fn input(own: Sign, offset: usize, until: Until) -> Self {
        Gate {
            own,
            held: Held::Input { offset, until },
        }
    }

    /// A gate at which no byte is taken until then.
    pub fn output(own: Sign, until: Until) -> Self {
        Gate {
            own,
            held: Held::Output { until },
        }
    }

    // Shows that its link waits, and looks until the gate opens, at most `MOST_LOOKS` times.
    fn opens(&self, until: &Until) -> bool {
        self.own.show(WAITING);
        for _ in 0..MOST_LOOKS {
            if until.has_come() {
                return true;
            }
            hint::spin_loop();
        }
        false
    }

    // How many bytes may be given from an offset on, if none past another one may until then.
    fn most_until(&self, offset: usize, shut: usize, until: &Until) -> Option<usize>
        ensures { IfSome result (λ most. 0 < most) }
    {
        if offset < shut {
            return Some(shut - offset);
        }
        if self.opens(until) {
            return Some(usize::MAX);
        }
        None
    }

    // How many bytes may be given from an offset on. None may if the gate stays shut.
    fn most_given(&self, offset: usize) -> Option<usize>
        ensures { IfSome result (λ most. 0 < most) }
    {
        match &self.held {
            Held::Input {
                offset: shut,
                until,
            } => self.most_until(offset, *shut, until),
            Held::Nothing | Held::Output { .. } => Some(usize::MAX),
        }
    }

    // Whether bytes may be taken.
    fn may_take(&self) -> bool {
        match &self.held {
            Held::Output { until } => self.opens(until),
            Held::Nothing | Held::Input { .. } => true,
        }
    }
}

// How many bytes a link with this gate may give from an offset on. None may if the gate stays shut.
pub(crate) fn most_given(gate: &Option<Gate>, offset: usize) -> Option<usize>
    ensures { IfSome result (λ most. 0 < most) }
{
    match gate {
        Some(gate) => gate.most_given(offset),
        None => Some(usize::MAX),
    }
}

// Whether a link with this gate may take bytes.
pub(crate) fn may_take(gate: &Option<Gate>) -> bool {
    match gate {
        Some(gate) => gate.may_take(),
        None => true,
    }
}

// Shows that the link with this gate was answered.
pub(crate) fn show_answered(gate: &Option<Gate>) {
    if let Some(gate) = gate {
        gate.own.show(ANSWERED);
    }
}
