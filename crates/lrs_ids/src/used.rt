ghost use Rattle.std.specs.Prelude.{◌≡◌, ◌<◌, ◌^◌};
ghost use Rattle.lrs_ids.specs.Ids.{IsCounted, Used};

use lrs_names::Id;

/// What tells which ids are used.
pub trait UsedIds {
    /// The used ids.
    ghost used: { Self → Used };

    /// Whether an id is used.
    fn is_used(&self, id: &Id) -> bool
        ensures { result ≡ (used self.now).is_used id.now };

    /// How many ids are used at most.
    fn count(&self) -> u128
        ensures count { result ≡ (used self.now).count }
        ensures counted { IsCounted (used self.now) }
        ensures few { result < 2 ^ 100 };
}
