ghost use Rattle.std.specs.Prelude.{◌≡◌, ◌↔◌, ◌++◌, false, IfOk, IsTrue, OnOk};
ghost use Rattle.lrs_fields.specs.Values.{members_for};
ghost use Rattle.lrs_json.specs.View.{members_of};
ghost use Rattle.lrs_json.specs.Written.{Extends, members_text};
ghost use Rattle.lrs_record.specs.Entries.{HoldsCaller, HoldsWrite, caller_text};
ghost use Rattle.lrs_record.specs.Reading.{ReadsWrite};
ghost use Rattle.lrs_record.specs.Writes.{how_of, how_text, write_area, write_fields, write_name};

use crate::Moment;
use crate::desk_writes::{
    put_enrol, put_launch, put_waive, read_abandon, read_course, read_enrol, read_fetch,
    read_found, read_launch, read_provider, read_sweep, read_waive,
};
use crate::store_writes::{put_drop, put_state, read_drop, read_post, read_put, read_state};
use cmi5_course::{Mode, Reason};
use lrs_agents::{Agent, Ifi};
use lrs_fields::{Lent, put_fields};
use lrs_json::{Items, Memory, Text, Tree};
use lrs_json_reader::Stop;
use lrs_json_written::Cursor;
use lrs_names::{Draw, Id, Iri};
use xapi_keys::StateKey;

/// What is presented for a command.
#[derive(Drop)]
pub enum Caller {
    /// Nothing.
    Nobody,
    /// The command comes from the program itself, on the store's own machine.
    Operator,
    /// A credential.
    Token(Text),
}

/// A command that is kept if it is accepted.
#[derive(Drop)]
pub enum Write {
    /// Begins a store: the token of its first admin, and the address under which it is reached.
    Found {
        admin: Text,
        base: Text,
    },
    /// Makes a provider of that name, and its token.
    Provider {
        name: Text,
    },
    /// Keeps a statement under an id.
    Put {
        id: Id,
        statement: Tree,
    },
    /// Keeps statements together, each under the id that it gives itself or one that is made.
    Post {
        statements: Items<Tree>,
    },
    /// Writes a state document.
    State {
        how: How,
        key: StateKey,
        /// Its media type, as it was sent.
        media: Text,
        bytes: Items<u8>,
    },
    /// Drops the state documents of an activity, an agent and a registration: all of them, or the one of a state id.
    Drop {
        activity: Iri,
        agent: Ifi,
        registration: Option<Id>,
        state: Option<Text>,
    },
    /// Takes a course up, or a new edition of it.
    Course {
        tree: Tree,
    },
    /// Enrols a learner in the course of that id.
    Enrol {
        course: Iri,
        actor: Agent,
        /// In the edition of this number; if it names none, in the newest.
        edition: Option<u32>,
    },
    /// Launches a unit, by its publisher's id, of a registration's edition.
    Launch {
        registration: Id,
        unit: Iri,
        mode: Mode,
        /// Where the content sends the learner back to.
        return_url: Option<Iri>,
    },
    /// Gives the token of a session away, for the key that its launch made.
    Fetch {
        key: Text,
    },
    /// Waives a unit, by its publisher's id, of a registration's edition.
    Waive {
        registration: Id,
        unit: Iri,
        reason: Reason,
    },
    /// Abandons a session.
    Abandon {
        session: Id,
    },
    /// Abandons the sessions that have been idle for so many seconds.
    Sweep {
        idle: u32,
    },
}

/// What becomes of a document that is held under the key of one that is written.
#[derive(Clone, Copy, Debug, PartialEq, Eq)]
pub enum How {
    /// It is replaced.
    Put,
    /// The new one is merged into it.
    Post,
}

impl How {
    /// The word that the journal keeps.
    pub fn text(self) -> &'static str
        ensures { result.now ≡ how_text self }
    {
        match self {
            How::Put => "put",
            How::Post => "post",
        }
    }

    /// The one of that word.
    pub fn of(text: &str) -> Option<How>
        ensures { result ≡ how_of text.now }
    {
        match text {
            "put" => Some(How::Put),
            "post" => Some(How::Post),
            _ => None,
        }
    }
}

/// Where a request goes, by what it asks of its caller.
#[derive(Clone, Copy, Debug, PartialEq, Eq)]
pub enum Area {
    /// Anyone may ask.
    Free,
    /// The statements and the state documents: any caller that the history knows.
    Store,
    /// The desk: an admin.
    Desk,
}

/// An accepted command, as the journal keeps it: with its caller, the moment at which it was accepted and what was
/// drawn by chance for it.
#[derive(Drop)]
pub struct Entry {
    pub caller: Caller,
    pub write: Write,
    pub moment: Moment,
    pub draw: Draw,
}

impl Entry {
    /// Drops it. Crates above call this in place of `drop`, so that what drops it is proved here alone.
    pub fn discard(self) {
        drop(self);
    }
}

impl Write {
    /// The name under which the journal keeps the command.
    pub fn name(&self) -> &'static str
        ensures { result.now ≡ write_name self.now }
    {
        match self {
            Write::Found { .. } => "found",
            Write::Provider { .. } => "provider",
            Write::Put { .. } => "put",
            Write::Post { .. } => "post",
            Write::State { .. } => "state",
            Write::Drop { .. } => "drop",
            Write::Course { .. } => "course",
            Write::Enrol { .. } => "enrol",
            Write::Launch { .. } => "launch",
            Write::Fetch { .. } => "fetch",
            Write::Waive { .. } => "waive",
            Write::Abandon { .. } => "abandon",
            Write::Sweep { .. } => "sweep",
        }
    }

    /// The area of the command.
    pub fn area(&self) -> Area
        ensures { result ≡ write_area self.now }
    {
        match self {
            Write::Put { .. } | Write::Post { .. } | Write::State { .. } | Write::Drop { .. } =>
                Area::Store,
            Write::Found { .. }
            | Write::Provider { .. }
            | Write::Course { .. }
            | Write::Enrol { .. }
            | Write::Launch { .. }
            | Write::Waive { .. }
            | Write::Abandon { .. }
            | Write::Sweep { .. } => Area::Desk,
            Write::Fetch { .. } => Area::Free,
        }
    }

    // Appends the fields as the members of an object, and the closing brace.
    pub(crate) fn put_fields(&self, into: &mut Vec<u8>) -> Result<(), Memory>
        ensures ok { OnOk result (into.new.items ≡ into.old.items ++ members_text false
            (members_of (members_for (write_fields self.now)))) }
        ensures kept { Extends into.old.items into.new.items }
        ensures holds { OnOk result (HoldsWrite self.now) }
    {
        match self {
            Write::Found { admin, base } => {
                put_fields(
                    &[("admin", Lent::Text(admin)), ("base", Lent::Text(base))],
                    into,
                )
            }
            Write::Provider { name } => put_fields(&[("name", Lent::Text(name))], into),
            Write::Put { id, statement } => {
                put_fields(
                    &[("id", Lent::Id(id)), ("statement", Lent::Tree(statement))],
                    into,
                )
            }
            Write::Post { statements } => put_fields(
                &[("statements", Lent::Trees(statements))],
                into,
            ),
            Write::State {
                how,
                key,
                media,
                bytes,
            } => put_state(*how, key, media, bytes, into),
            Write::Drop {
                activity,
                agent,
                registration,
                state,
            } => put_drop(activity, agent, registration, state, into),
            Write::Course { tree } => put_fields(&[("tree", Lent::Tree(tree))], into),
            Write::Enrol {
                course,
                actor,
                edition,
            } => put_enrol(course, actor, *edition, into),
            Write::Launch {
                registration,
                unit,
                mode,
                return_url,
            } => put_launch(registration, unit, *mode, return_url, into),
            Write::Fetch { key } => put_fields(&[("key", Lent::Text(key))], into),
            Write::Waive {
                registration,
                unit,
                reason,
            } => put_waive(registration, unit, *reason, into),
            Write::Abandon { session } => put_fields(&[("session", Lent::Id(session))], into),
            Write::Sweep { idle } => put_fields(&[("idle", Lent::Number(*idle))], into),
        }
    }

    // Reads the fields of a write of that name, up to the brace that closes them.
    pub(crate) fn read(name: &str, cursor: &mut Cursor<'_>) -> Result<Write, Stop>
        ensures { ReadsWrite name.now cursor.old result cursor.new }
    {
        match name {
            "found" => read_found(cursor),
            "provider" => read_provider(cursor),
            "put" => read_put(cursor),
            "post" => read_post(cursor),
            "state" => read_state(cursor),
            "drop" => read_drop(cursor),
            "course" => read_course(cursor),
            "enrol" => read_enrol(cursor),
            "launch" => read_launch(cursor),
            "fetch" => read_fetch(cursor),
            "waive" => read_waive(cursor),
            "abandon" => read_abandon(cursor),
            "sweep" => read_sweep(cursor),
            _ => Err(Stop::Bad),
        }
    }
}

impl Caller {
    /// A copy of its own.
    pub fn copy(&self) -> Result<Caller, Memory>
        ensures { IfOk result (λ caller. caller ≡ self.now) }
    {
        match self {
            Caller::Nobody => Ok(Caller::Nobody),
            Caller::Operator => Ok(Caller::Operator),
            Caller::Token(token) => Ok(Caller::Token(token.clone()?)),
        }
    }

    /// Whether both present the same, a credential byte by byte.
    pub fn is_same(&self, other: &Caller) -> bool
        ensures { IsTrue result ↔ (self.now ≡ other.now) }
    {
        match (self, other) {
            (Caller::Nobody, Caller::Nobody) => true,
            (Caller::Operator, Caller::Operator) => true,
            (Caller::Token(one), Caller::Token(other)) => one == other,
            _ => false,
        }
    }

    /// What the journal keeps for the caller: nothing for nobody, `*` for the operator, else the token.
    pub fn text(&self) -> &str
        ensures text { result.now ≡ caller_text self.now }
        ensures holds { HoldsCaller self.now }
    {
        match self {
            Caller::Nobody => "",
            Caller::Operator => "*",
            Caller::Token(token) => token.as_str(),
        }
    }
}
