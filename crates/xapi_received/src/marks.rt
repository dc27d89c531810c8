// How the completed form of a received text is found in it.
ghost use Rattle.std.specs.Prelude.{◌≡◌, ◌++◌, ◌<◌, None, length, codes, false, IfOk, OnOk};
ghost use Rattle.lrs_json.specs.Written.{Extends};
ghost use Rattle.xapi_received.specs.Received.{AreWithin, IsWithin, bracket_text, bytes_at, excerpt_text, excerpts_text, span_after};

use lrs_json::Memory;
use lrs_json::appending::put;

/// Where bytes stand in a text: the number of the first, and of the one behind the last.
#[derive(Clone, Copy)]
pub struct ByteSpan {
    pub start: u32,
    pub end: u32,
}

/// The bracket that stands behind an excerpt and not in the text, if any.
#[derive(Clone, Copy)]
pub enum Bracket {
    Absent,
    Opening,
    Closing,
}

/// An excerpt of a text, and the bracket behind it.
#[derive(Clone, Copy)]
pub struct Excerpt {
    pub span: ByteSpan,
    pub bracket: Bracket,
}

/// What has to be known of a received object to write what the store adds: whether members are kept before it, and
/// where the values of those that may be given stand.
#[derive(Clone, Copy)]
pub struct Ending {
    pub later: bool,
    pub timestamp: Option<ByteSpan>,
    pub version: Option<ByteSpan>,
}

impl ByteSpan {
    /// The bytes there.
    pub fn of(self, text: &[u8]) -> &[u8]
        requires { IsWithin (length text.now) self }
        ensures { result.now ≡ bytes_at text.now self }
    {
        &text[self.start as usize..self.end as usize]
    }
}

impl Ending {
    /// That of an object without members.
    pub fn nothing() -> Ending
        ensures { result ≡ record { later = false; timestamp = None; version = None } }
    {
        Ending {
            later: false,
            timestamp: None,
            version: None,
        }
    }

    /// The same, after a member of that name that isn't kept, whose value stands there.
    pub fn after(self, name: &str, span: ByteSpan) -> Ending
        ensures later { result.later ≡ self.later }
        ensures timestamp { result.timestamp ≡ span_after (codes "timestamp") name.now span self.timestamp }
        ensures version { result.version ≡ span_after (codes "version") name.now span self.version }
    {
        Ending {
            later: self.later,
            timestamp: span_after("timestamp", name, span, self.timestamp),
            version: span_after("version", name, span, self.version),
        }
    }
}

// Where the first value of the wanted name stands.
fn span_after(
    wanted: &str,
    name: &str,
    span: ByteSpan,
    before: Option<ByteSpan>,
) -> Option<ByteSpan>
    ensures { result ≡ span_after wanted.now name.now span before }
{
    if name == wanted {
        Some(before.unwrap_or(span))
    } else {
        before
    }
}

/// Appends what the excerpts of the text show.
#[tactic(auto, using(lrs_json::proofs::Extending::extends_trans))]
pub fn put_excerpts(text: &[u8], excerpts: &[Excerpt], into: &mut Vec<u8>) -> Result<(), Memory>
    requires { AreWithin (length text.now) excerpts.now }
    ensures ok { OnOk result (into.new.items ≡ into.old.items ++ excerpts_text text.now excerpts.now) }
    ensures kept { Extends into.old.items into.new.items }
{
    let mut left = excerpts;
    while !left.is_empty() {
        left = put_first(text, left, into)?;
    }
    Ok(())
}

// The first of the excerpts. Those behind it are given back.
#[tactic(auto, using(lrs_json::proofs::Extending::extends_trans))]
fn put_first<'a>(
    text: &[u8],
    excerpts: &'a [Excerpt],
    into: &mut Vec<u8>,
) -> Result<&'a [Excerpt], Memory>
    requires some { 0 < length excerpts.now }
    requires within { AreWithin (length text.now) excerpts.now }
    ensures ok { IfOk result (λ left. into.new.items ++ excerpts_text text.now left.now
        ≡ into.old.items ++ excerpts_text text.now excerpts.now) }
    ensures within { IfOk result (λ left. AreWithin (length text.now) left.now) }
    ensures shorter { IfOk result (λ left. length left.now < length excerpts.now) }
    ensures kept { Extends into.old.items into.new.items }
{
    match excerpts.split_first() {
        Some((excerpt, left)) => {
            put_excerpt(text, *excerpt, into)?;
            Ok(left)
        }
        None => Ok(excerpts),
    }
}

/// Appends what the excerpt shows.
#[tactic(auto, using(lrs_json::proofs::Extending::extends_trans))]
pub fn put_excerpt(text: &[u8], excerpt: Excerpt, into: &mut Vec<u8>) -> Result<(), Memory>
    requires { IsWithin (length text.now) excerpt.span }
    ensures ok { OnOk result (into.new.items ≡ into.old.items ++ excerpt_text text.now excerpt) }
    ensures kept { Extends into.old.items into.new.items }
{
    let bytes = excerpt.span.of(text);
    put(bytes, into)?;
    put_bracket(excerpt.bracket, into)
}

fn put_bracket(bracket: Bracket, into: &mut Vec<u8>) -> Result<(), Memory>
    ensures ok { OnOk result (into.new.items ≡ into.old.items ++ bracket_text bracket) }
    ensures kept { Extends into.old.items into.new.items }
{
    match bracket {
        Bracket::Absent => Ok(()),
        Bracket::Opening => put(b"[", into),
        Bracket::Closing => put(b"]", into),
    }
}
