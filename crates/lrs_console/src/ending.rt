ghost use Rattle.std.specs.Prelude.{◌≡◌, ◌≤◌, ◌+◌, ◌++◌, length, codes};
ghost use Rattle.std.specs.Fmt.{decimal};
ghost use Rattle.arrayvec.specs.ArrayVec.{array_vec_len};
ghost use Rattle.lrs_names.specs.Ids.{id_text};
ghost use Rattle.lrs_rules.specs.Rules.{rule_text};
ghost use Rattle.lrs_console.specs.Endings.{ending_status, ending_text, ending_line};

use arrayvec::ArrayVec;
use itoa::Buffer;
use lrs_names::Id;
use lrs_rules::Rule;

/// How a command ends. Each ending has its status and its line, `Loaded` has two.
#[derive(Clone, Copy, PartialEq, Eq)]
pub enum Ending {
    /// The store is made.
    Founded,
    /// The statement under this id is kept.
    Kept(Id),
    /// The connections are served, with this number of responses.
    Served(u64),
    /// This number of statements is loaded, and the store lists so many.
    Loaded { statements: u32, listed: u64 },
    /// The new store is made, with this number of entries.
    Migrated(u64),
    /// The words are no command.
    Usage,
    /// The file is no store.
    NotAStore,
    /// The store's frame `k` isn't whole, or isn't what may stand there.
    Damaged { k: u64 },
    /// The file is a store already.
    AlreadyStore,
    /// A call of the disk or of the shelf failed.
    DiskFault,
    /// No door could be had, or the door failed before its number of connections.
    LobbyFault,
    /// Memory ran out.
    Memory,
    /// The store has the old format, which only `migrate` reads.
    OldFormat,
    /// The input breaks this rule.
    Refused(Rule),
    /// The statement of the input gives itself no id.
    NoId,
    /// The input has more bytes than a statement may, or its written form has.
    TooLong,
    /// Another statement is held under this id.
    Conflict(Id),
    /// A call of the input failed.
    InputFault,
    /// The store would need more bytes than its limit.
    Full { need: u64, limit: u64 },
}

/// What the program prints, with its line feeds: at most 56 bytes.
pub(crate) type Line = ArrayVec<u8, 64>;

fn put(line: &mut Line, text: &[u8])
    requires { array_vec_len line.old + length text.now ≤ 64 }
    ensures text { line.new.items ≡ line.old.items ++ text.now }
    ensures len { array_vec_len line.new ≡ array_vec_len line.old + length text.now }
{
    let Ok(()) = line.try_extend_from_slice(text) else {
        unreachable!();
    };
}

fn put_number(line: &mut Line, number: u64)
    requires { array_vec_len line.old + 20 ≤ 64 }
    ensures written { line.new.items ≡ line.old.items ++ decimal number }
    ensures short { array_vec_len line.new ≤ array_vec_len line.old + 20 }
{
    let mut buffer = Buffer::new();
    put(line, buffer.format(number).as_bytes());
}

impl Ending {
    /// The status with which the program ends.
    pub fn status(&self) -> u8
        ensures { result ≡ ending_status self.now }
    {
        match self {
            Ending::Founded
            | Ending::Kept(_)
            | Ending::Served(_)
            | Ending::Loaded { .. }
            | Ending::Migrated(_) => 0,
            Ending::Usage => 1,
            Ending::NotAStore => 2,
            Ending::Damaged { .. } => 3,
            Ending::AlreadyStore => 4,
            Ending::DiskFault => 5,
            Ending::Memory => 6,
            Ending::LobbyFault => 8,
            Ending::OldFormat => 9,
            Ending::Refused(_) | Ending::NoId | Ending::TooLong | Ending::Conflict(_) => 10,
            Ending::InputFault => 11,
            Ending::Full { .. } => 12,
        }
    }

    /// The line that the program prints, or the two, with the last line feed.
    pub(crate) fn line(&self) -> Line
        ensures { result.items ≡ ending_line self.now }
    {
        let mut line = self.text();
        put(&mut line, b"\n");
        line
    }

    fn text(&self) -> Line
        ensures text { result.items ≡ ending_text self.now }
        ensures short { array_vec_len result ≤ 55 }
    {
        match self {
            Ending::Founded => word(b"founded"),
            Ending::Kept(id) => word(&id.text()),
            Ending::Served(responses) => with_number(b"served ", *responses),
            Ending::Loaded { statements, listed } => loaded(*statements, *listed),
            Ending::Migrated(entries) => with_number(b"migrated ", *entries),
            Ending::Usage => word(b"usage"),
            Ending::NotAStore => word(b"not a store"),
            Ending::Damaged { k } => with_number(b"damaged ", *k),
            Ending::AlreadyStore => word(b"already a store"),
            Ending::DiskFault => word(b"disk fault"),
            Ending::LobbyFault => word(b"lobby fault"),
            Ending::Memory => word(b"memory"),
            Ending::OldFormat => word(b"old format"),
            Ending::Refused(rule) => refused(*rule),
            Ending::NoId => word(b"refused no id"),
            Ending::TooLong => word(b"refused too long"),
            Ending::Conflict(id) => conflict(id),
            Ending::InputFault => word(b"input fault"),
            Ending::Full { need, limit } => full(*need, *limit),
        }
    }
}

fn word(text: &[u8]) -> Line
    requires { length text.now ≤ 36 }
    ensures text { result.items ≡ text.now }
    ensures len { array_vec_len result ≡ length text.now }
{
    let mut line = Line::new();
    put(&mut line, text);
    line
}

fn with_number(text: &[u8], number: u64) -> Line
    requires { length text.now ≤ 10 }
    ensures text { result.items ≡ text.now ++ decimal number }
    ensures short { array_vec_len result ≤ length text.now + 20 }
{
    let mut line = word(text);
    put_number(&mut line, number);
    line
}

fn loaded(statements: u32, listed: u64) -> Line
    ensures text { result.items
        ≡ codes "loaded " ++ decimal statements ++ codes "\nlisted " ++ decimal listed }
    ensures short { array_vec_len result ≤ 55 }
{
    let mut line = with_number(b"loaded ", u64::from(statements));
    put(&mut line, b"\nlisted ");
    put_number(&mut line, listed);
    line
}

fn refused(rule: Rule) -> Line
    ensures text { result.items ≡ codes "refused " ++ rule_text rule }
    ensures short { array_vec_len result ≤ 30 }
{
    let mut line = word(b"refused ");
    line.push(rule.letter());
    put_number(&mut line, u64::from(rule.number()));
    line
}

fn conflict(id: &Id) -> Line
    ensures text { result.items ≡ codes "conflict " ++ id_text id.now }
    ensures short { array_vec_len result ≤ 45 }
{
    let mut line = word(b"conflict ");
    put(&mut line, &id.text());
    line
}

fn full(need: u64, limit: u64) -> Line
    ensures text { result.items ≡ codes "full " ++ decimal need ++ codes " " ++ decimal limit }
    ensures short { array_vec_len result ≤ 47 }
{
    let mut line = with_number(b"full ", need);
    line.push(b' ');
    put_number(&mut line, limit);
    line
}
