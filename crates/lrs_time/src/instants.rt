ghost use Rattle.std.specs.Prelude.{◌≡◌};

use std::marker::Model;

/// A point of time, in nanoseconds since 1970-01-01T00:00:00Z with no leap seconds.
/// Instants are ordered as their numbers are.
#[derive(Clone, Copy, Debug, PartialEq, Eq, PartialOrd, Ord)]
pub struct Instant {
    nanoseconds: i128,
}

impl Model for Instant {
    ghost use Rattle.std.specs.Prelude.{ℤ};

    ghost Value = { ℤ };

    ghost view = { λ i. i.nanoseconds };

    ghost inverse = { λ z. record { nanoseconds = z } };
}

impl Instant {
    /// The instant that many nanoseconds after 1970-01-01T00:00:00Z, or before it for a negative
    /// number.
    pub fn from_nanoseconds(nanoseconds: i128) -> Instant
        ensures { result ≡ nanoseconds }
    {
        Instant { nanoseconds }
    }

    /// The nanoseconds since 1970-01-01T00:00:00Z, negative before it.
    pub fn nanoseconds(self) -> i128
        ensures { result ≡ self }
    {
        self.nanoseconds
    }
}
