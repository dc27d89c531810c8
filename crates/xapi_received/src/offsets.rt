// An ending as it is kept.
ghost use Rattle.std.specs.Prelude.{◌≡◌, Some, None};
ghost use Rattle.xapi_received.specs.Offsets.{ending_at, span_if};

use crate::marks::{ByteSpan, Ending};

/// An ending or none, as plain numbers, which take less room than options within an option.
#[derive(Clone, Copy)]
pub struct Offsets {
    /// Whether there is an ending.
    pub stands: bool,
    pub later: bool,
    pub has_timestamp: bool,
    pub has_version: bool,
    /// Of no meaning where none was given.
    pub timestamp: ByteSpan,
    pub version: ByteSpan,
}

impl Offsets {
    pub fn of(ending: Option<Ending>) -> Offsets
        ensures { ending_at result ≡ ending }
    {
        match ending {
            Some(ending) => Offsets::of_ending(&ending),
            None => Offsets::nothing(),
        }
    }

    fn of_ending(ending: &Ending) -> Offsets
        ensures { ending_at result ≡ Some ending.now }
    {
        let timestamp = flattened(ending.timestamp);
        let version = flattened(ending.version);
        Offsets {
            stands: true,
            later: ending.later,
            has_timestamp: timestamp.stands,
            has_version: version.stands,
            timestamp: timestamp.span,
            version: version.span,
        }
    }

    fn nothing() -> Offsets
        ensures { ending_at result ≡ None }
    {
        let nowhere = ByteSpan { start: 0, end: 0 };
        Offsets {
            stands: false,
            later: false,
            has_timestamp: false,
            has_version: false,
            timestamp: nowhere,
            version: nowhere,
        }
    }

    /// The ending that it was made of.
    pub fn ending(&self) -> Option<Ending>
        ensures { result ≡ ending_at self.now }
    {
        let stands = self.stands;
        let later = self.later;
        let timestamp = span_if(self.has_timestamp, self.timestamp);
        let version = span_if(self.has_version, self.version);
        if stands {
            Some(Ending {
                later,
                timestamp,
                version,
            })
        } else {
            None
        }
    }
}

// Whether there is a span, and which.
#[derive(Clone, Copy)]
struct Flat {
    stands: bool,
    span: ByteSpan,
}

fn flattened(span: Option<ByteSpan>) -> Flat
    ensures { span_if result.stands result.span ≡ span }
{
    match span {
        Some(span) => Flat { stands: true, span },
        None => Flat {
            stands: false,
            span: ByteSpan { start: 0, end: 0 },
        },
    }
}

fn span_if(stands: bool, span: ByteSpan) -> Option<ByteSpan>
    ensures { result ≡ span_if stands span }
{
    if stands { Some(span) } else { None }
}
