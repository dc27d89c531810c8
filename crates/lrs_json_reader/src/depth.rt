ghost use Rattle.std.specs.Prelude.{◌≡◌, ◌≤◌, ◌<◌, ◌+◌, ◌^◌, ℕ, length};
ghost use Rattle.lrs_json_reader.specs.Brackets.{depth_after, mode_after, reaches};
ghost use Rattle.lrs_json_reader.specs.Refusals.{is_too_deep};
ghost use Rattle.lrs_json_reader.specs.declared.depth.ScanState.TheVariants.{Outside};

use lrs_json::appending::plain_len;

/// No caller may set a limit of depth above this: reading recurses as deep as its limit.
pub const MOST_DEPTH: u32 = 128;

/// Where a scan of the bytes stands.
#[derive(Clone, Copy, Debug, PartialEq)]
pub enum ScanState {
    Outside,
    Inside,
    Escaped,
}

impl ScanState {
    fn depth_after(self, depth: u32, byte: u8) -> u32
        requires { depth < 2 ^ 31 }
        ensures { result ≡ depth_after self depth byte }
    {
        match self {
            ScanState::Outside => match byte {
                b'[' | b'{' => depth + 1,
                b']' | b'}' => depth.saturating_sub(1),
                _ => depth,
            },
            ScanState::Inside | ScanState::Escaped => depth,
        }
    }

    fn after(self, byte: u8) -> ScanState
        ensures { result ≡ mode_after self byte }
    {
        match (self, byte) {
            (ScanState::Outside, b'"') => ScanState::Inside,
            (ScanState::Outside, _) => ScanState::Outside,
            (ScanState::Inside, b'"') => ScanState::Outside,
            (ScanState::Inside, b'\\') => ScanState::Escaped,
            (ScanState::Inside | ScanState::Escaped, _) => ScanState::Inside,
        }
    }

    // In a string the bytes that stand for themselves change nothing.
    fn after_plain(self, bytes: &[u8]) -> &[u8]
        ensures same { (limit depth : ℕ) → depth < limit →
            reaches limit depth self result.now ≡ reaches limit depth self bytes.now }
        ensures no_longer { length result.now ≤ length bytes.now }
    {
        match self {
            ScanState::Inside => &bytes[plain_len(bytes)..],
            ScanState::Outside | ScanState::Escaped => bytes,
        }
    }
}

/// Whether the brackets nest deeper than `depth`: a scan of the bytes, for whoever must not recurse so far.
pub fn is_too_deep(bytes: &[u8], depth: u32) -> bool
    requires { depth ≤ MOST_DEPTH }
    ensures { result ≡ is_too_deep depth bytes.now }
{
    reaches(bytes, depth + 1)
}

// Whether the depth of the brackets reaches the limit.
fn reaches(bytes: &[u8], limit: u32) -> bool
    requires low { 0 < limit }
    requires high { limit ≤ MOST_DEPTH + 1 }
    ensures { result ≡ reaches limit 0 Outside bytes.now }
{
    let mut depth = 0;
    let mut mode = ScanState::Outside;
    let mut left = bytes;
    while let [byte, behind @ ..] = left {
        depth = mode.depth_after(depth, *byte);
        if depth == limit {
            return true;
        }
        mode = mode.after(*byte);
        left = mode.after_plain(behind);
    }
    false
}
