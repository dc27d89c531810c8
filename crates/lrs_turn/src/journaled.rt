ghost use Rattle.std.specs.Prelude.{◌≡◌, ℕ, List, length};

/// What workers take in turns: a state that stands for a list of records.
pub trait Journaled: Drop {
    type Record: Drop;

    /// The list of records that the state stands for.
    ghost line: { Self → List Self.Record };

    /// Numbers that the turn never lets change.
    ghost marks: { Self → List ℕ };

    /// Numbers of which the turn lets none fall.
    ghost tide: { Self → List ℕ };

    /// The number of records.
    fn length(&self) -> u64
        ensures { result ≡ length (Self.line self.now) };
}
