// The writes of the desk: how their fields are lent, and read back.
ghost use Rattle.std.specs.Prelude.{◌≡◌, ◌++◌, codes, false, OnOk};
ghost use Rattle.cmi5_course.specs.Reasons.{reason_text};
ghost use Rattle.cmi5_course.specs.Words.{mode_text};
ghost use Rattle.lrs_fields.specs.Reading.{ReadsField};
ghost use Rattle.lrs_fields.specs.Values.{members_for, text_value};
ghost use Rattle.lrs_json.specs.View.{members_of};
ghost use Rattle.lrs_json.specs.Written.{Extends, members_text};
ghost use Rattle.lrs_record.specs.Entries.{HoldsWrite};
ghost use Rattle.lrs_record.specs.Reading.{ReadsWrite};
ghost use Rattle.lrs_record.specs.Writes.{write_fields};
ghost use Rattle.lrs_record.specs.declared.entry.Write.TheVariants as write;

use crate::Write;
use cmi5_course::{Mode, Reason};
use lrs_agents::Agent;
use lrs_fields::{
    Lent, actor_behind, id_behind, iri_behind, number_behind, optional_iri_behind,
    optional_number_behind, put_fields, text_behind, tree_behind,
};
use lrs_json::Memory;
use lrs_json_reader::Stop;
use lrs_json_written::Cursor;
use lrs_names::{Id, Iri};

/// Appends the fields of an enrolment, and the closing brace.
pub fn put_enrol<'a>(
    course: &'a Iri,
    actor: &'a Agent,
    edition: Option<u32>,
    into: &mut Vec<u8>,
) -> Result<(), Memory>
    ensures ok { OnOk result (into.new.items ≡ into.old.items ++ members_text false
        (members_of (members_for (write_fields (write.Enrol course.now actor.now edition))))) }
    ensures kept { Extends into.old.items into.new.items }
    ensures holds { OnOk result (HoldsWrite (write.Enrol course.now actor.now edition)) }
{
    match edition {
        Some(number) => put_fields(
            &[
                ("course", Lent::Iri(course)),
                ("actor", Lent::Actor(actor)),
                ("edition", Lent::Number(number)),
            ],
            into,
        ),
        None => put_fields(
            &[("course", Lent::Iri(course)), ("actor", Lent::Actor(actor))],
            into,
        ),
    }
}

/// Appends the fields of a launch, and the closing brace.
pub fn put_launch(
    registration: &Id,
    unit: &Iri,
    mode: Mode,
    return_url: &Option<Iri>,
    into: &mut Vec<u8>,
) -> Result<(), Memory>
    ensures ok { OnOk result (into.new.items ≡ into.old.items ++ members_text false
        (members_of (members_for (write_fields (write.Launch registration.now unit.now mode return_url.now))))) }
    ensures kept { Extends into.old.items into.new.items }
    ensures holds { OnOk result (HoldsWrite (write.Launch registration.now unit.now mode return_url.now)) }
{
    let first = ("registration", Lent::Id(registration));
    let second = ("unit", Lent::Iri(unit));
    let third = ("mode", Lent::Word(mode.text()));
    match return_url {
        Some(address) => put_fields(
            &[first, second, third, ("returnURL", Lent::Iri(address))],
            into,
        ),
        None => put_fields(&[first, second, third], into),
    }
}

/// Appends the fields of a waiver, and the closing brace.
pub fn put_waive(
    registration: &Id,
    unit: &Iri,
    reason: Reason,
    into: &mut Vec<u8>,
) -> Result<(), Memory>
    ensures ok { OnOk result (into.new.items ≡ into.old.items ++ members_text false
        (members_of (members_for (write_fields (write.Waive registration.now unit.now reason))))) }
    ensures kept { Extends into.old.items into.new.items }
    ensures holds { OnOk result (HoldsWrite (write.Waive registration.now unit.now reason)) }
{
    put_fields(
        &[
            ("registration", Lent::Id(registration)),
            ("unit", Lent::Iri(unit)),
            ("reason", Lent::Word(reason.text())),
        ],
        into,
    )
}

// Each of the following reads the fields of a write, up to the brace that closes them.

/// A store that is founded.
pub fn read_found(cursor: &mut Cursor<'_>) -> Result<Write, Stop>
    ensures { ReadsWrite (codes "found") cursor.old result cursor.new }
{
    let admin = text_behind(b"\"admin\":", cursor)?;
    let base = text_behind(b",\"base\":", cursor)?;
    Ok(Write::Found { admin, base })
}

/// A provider that is made.
pub fn read_provider(cursor: &mut Cursor<'_>) -> Result<Write, Stop>
    ensures { ReadsWrite (codes "provider") cursor.old result cursor.new }
{
    let name = text_behind(b"\"name\":", cursor)?;
    Ok(Write::Provider { name })
}

/// A course that is taken up, or a new edition of it.
pub fn read_course(cursor: &mut Cursor<'_>) -> Result<Write, Stop>
    ensures { ReadsWrite (codes "course") cursor.old result cursor.new }
{
    let tree = tree_behind(b"\"tree\":", cursor)?;
    Ok(Write::Course { tree })
}

/// A learner who is enrolled.
pub fn read_enrol(cursor: &mut Cursor<'_>) -> Result<Write, Stop>
    ensures { ReadsWrite (codes "enrol") cursor.old result cursor.new }
{
    let course = iri_behind(b"\"course\":", cursor)?;
    let actor = actor_behind(b",\"actor\":", cursor)?;
    let edition = optional_number_behind(b",\"edition\":", cursor)?;
    Ok(Write::Enrol {
        course,
        actor,
        edition,
    })
}

/// A unit that is launched.
pub fn read_launch(cursor: &mut Cursor<'_>) -> Result<Write, Stop>
    ensures { ReadsWrite (codes "launch") cursor.old result cursor.new }
{
    let registration = id_behind(b"\"registration\":", cursor)?;
    let unit = iri_behind(b",\"unit\":", cursor)?;
    let mode = mode_behind(b",\"mode\":", cursor)?;
    let return_url = optional_iri_behind(b",\"returnURL\":", cursor)?;
    Ok(Write::Launch {
        registration,
        unit,
        mode,
        return_url,
    })
}

fn mode_behind(front: &[u8], cursor: &mut Cursor<'_>) -> Result<Mode, Stop>
    ensures { ReadsField front.now (λ mode. text_value (mode_text mode)) cursor.old result cursor.new }
{
    let text = text_behind(front, cursor)?;
    Mode::of(text.as_str()).ok_or(Stop::Bad)
}

/// A token that is given away.
pub fn read_fetch(cursor: &mut Cursor<'_>) -> Result<Write, Stop>
    ensures { ReadsWrite (codes "fetch") cursor.old result cursor.new }
{
    let key = text_behind(b"\"key\":", cursor)?;
    Ok(Write::Fetch { key })
}

/// A unit that is waived.
pub fn read_waive(cursor: &mut Cursor<'_>) -> Result<Write, Stop>
    ensures { ReadsWrite (codes "waive") cursor.old result cursor.new }
{
    let registration = id_behind(b"\"registration\":", cursor)?;
    let unit = iri_behind(b",\"unit\":", cursor)?;
    let reason = reason_behind(b",\"reason\":", cursor)?;
    Ok(Write::Waive {
        registration,
        unit,
        reason,
    })
}

fn reason_behind(front: &[u8], cursor: &mut Cursor<'_>) -> Result<Reason, Stop>
    ensures { ReadsField front.now (λ reason. text_value (reason_text reason)) cursor.old result cursor.new }
{
    let text = text_behind(front, cursor)?;
    Reason::of(text.as_str()).ok_or(Stop::Bad)
}

/// A session that is abandoned.
pub fn read_abandon(cursor: &mut Cursor<'_>) -> Result<Write, Stop>
    ensures { ReadsWrite (codes "abandon") cursor.old result cursor.new }
{
    let session = id_behind(b"\"session\":", cursor)?;
    Ok(Write::Abandon { session })
}

/// Idle sessions that are abandoned.
pub fn read_sweep(cursor: &mut Cursor<'_>) -> Result<Write, Stop>
    ensures { ReadsWrite (codes "sweep") cursor.old result cursor.new }
{
    let idle = number_behind(b"\"idle\":", cursor)?;
    Ok(Write::Sweep { idle })
}
