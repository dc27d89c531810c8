// What requests ask, in one word. A command is dropped by the function that owns it, and no other looks at it but by
// reference.
use cmi5_course::Reason;
use lrs_agents::{Agent, Ifi};
use lrs_command::{Command, Read};
use lrs_http::Request;
use lrs_json::{Text, Tree};
use lrs_names::{Id, Iri};
use lrs_record::Write;
use lrs_routes::{Asked, RouteRefused, Routes};
use std::alloc::Global;
use std::fmt::Write as _;
use std::test::Fail;
use xapi_keys::WantedDocuments;
use xapi_query::{Format, Wanted};

fn text_of_id(id: &Id, into: &mut String) -> Result<(), Fail> {
    into.push_str(str::from_utf8(&id.text())?)?;
    Ok(())
}

fn show_write(write: &Write, into: &mut String) -> Result<(), Fail> {
    match write {
        Write::Provider { name } => show_named("provider", name, into),
        Write::Put { id, .. } => show_id("put", id, into),
        Write::Post { statements } => show_count(statements.len(), into),
        Write::State {
            how,
            key,
            media,
            bytes,
        } => show_document(how.text(), &key.state, media, bytes.as_slice(), into),
        Write::Drop {
            activity,
            state,
            ..
        } => show_dropped(activity, state, into),
        Write::Found { .. } => show_word("found", into),
        Write::Course { tree } => show_course(tree, into),
        Write::Enrol {
            course,
            actor,
            edition,
        } => {
            show_enrolment(course, actor, into)?;
            show_edition(*edition, into)
        }
        Write::Launch {
            registration,
            unit,
            mode,
            return_url,
        } => {
            show_named(mode.text(), unit.text(), into)?;
            show_return(registration, return_url, into)
        }
        Write::Fetch { key } => show_named("fetch", key, into),
        Write::Waive {
            registration,
            unit,
            reason,
        } => show_waiver(registration, unit, *reason, into),
        Write::Abandon { session } => show_id("abandon", session, into),
        Write::Sweep { idle } => show_sweep(*idle, into),
    }
}

fn show_named(word: &str, text: &Text, into: &mut String) -> Result<(), Fail> {
    write!(into, "{word} {}", text.as_str())?;
    Ok(())
}

fn show_word(word: &str, into: &mut String) -> Result<(), Fail> {
    into.push_str(word)?;
    Ok(())
}

fn show_id(word: &str, id: &Id, into: &mut String) -> Result<(), Fail> {
    write!(into, "{word} ")?;
    text_of_id(id, into)
}

fn show_count(statements: usize, into: &mut String) -> Result<(), Fail> {
    write!(into, "post {statements}")?;
    Ok(())
}

fn show_document(
    how: &str,
    state: &Text,
    media: &Text,
    bytes: &[u8],
    into: &mut String,
) -> Result<(), Fail> {
    let text = str::from_utf8(bytes)?;
    write!(into, "{how} {} [{}] {text}", state.as_str(), media.as_str())?;
    Ok(())
}

fn show_course(tree: &Tree, into: &mut String) -> Result<(), Fail> {
    let mut text = Vec::new(*into.allocator());
    lrs_json::write(tree, &mut text)?;
    into.push_str("course ")?;
    into.push_str(str::from_utf8(text.as_slice())?)?;
    Ok(())
}

fn show_enrolment(course: &Iri, actor: &Agent, into: &mut String) -> Result<(), Fail> {
    write!(into, "enrol in {}", course.text().as_str())?;
    if let Ifi::Account { home, name } = &actor.ifi {
        write!(into, " {} {}", home.as_str(), name.as_str())?;
    }
    if let Some(name) = &actor.name {
        write!(into, " ({})", name.as_str())?;
    }
    Ok(())
}

fn show_edition(edition: Option<u32>, into: &mut String) -> Result<(), Fail> {
    if let Some(number) = edition {
        write!(into, " edition {number}")?;
    }
    Ok(())
}

fn show_return(registration: &Id, address: &Option<Iri>, into: &mut String) -> Result<(), Fail> {
    into.push_str(" ")?;
    text_of_id(registration, into)?;
    if let Some(address) = address {
        write!(into, " back to {}", address.text().as_str())?;
    }
    Ok(())
}

fn show_waiver(
    registration: &Id,
    unit: &Iri,
    reason: Reason,
    into: &mut String,
) -> Result<(), Fail> {
    write!(into, "waive {} ({}) ", unit.text().as_str(), reason.text())?;
    text_of_id(registration, into)
}

fn show_sweep(idle: u32, into: &mut String) -> Result<(), Fail> {
    write!(into, "sweep {idle}")?;
    Ok(())
}

fn show_dropped(activity: &Iri, state: &Option<Text>, into: &mut String) -> Result<(), Fail> {
    match state {
        Some(state) => write!(into, "drop {}", state.as_str())?,
        None => write!(into, "drop all of {}", activity.text().as_str())?,
    }
    Ok(())
}

fn show_read(read: &Read, into: &mut String) -> Result<(), Fail> {
    match read {
        Read::About => show_word("about", into),
        Read::Statements(Wanted::One(id, format)) => show_id(word_of(format), id, into),
        Read::Statements(Wanted::Voided(id, _format)) => show_id("get voided", id, into),
        Read::Statements(Wanted::Many(query)) => show_page(query.page, into),
        Read::More(link) => show_numbers(link.asof, link.after, into),
        Read::Documents(WantedDocuments::One(key)) => show_named("document", &key.state, into),
        Read::Documents(WantedDocuments::Ids { activity, .. }) => show_named(
            "document ids of",
            activity.text(),
            into,
        ),
        Read::Profile => show_word("profile", into),
        Read::Registration(id) => show_id("registration", id, into),
    }
}

fn word_of(format: &Format) -> &'static str {
    if *format == Format::Ids {
        "get ids of"
    } else {
        "get"
    }
}

fn show_page(page: u32, into: &mut String) -> Result<(), Fail> {
    write!(into, "list {page}")?;
    Ok(())
}

fn show_numbers(asof: u64, after: u64, into: &mut String) -> Result<(), Fail> {
    write!(into, "more {asof} {after}")?;
    Ok(())
}

// The command in one word: what it asks, and of what. By 404 no rule is told.
fn show(command: &Command, into: &mut String) -> Result<(), Fail> {
    match command {
        Command::Write(write) => show_write(write, into)?,
        Command::Read(read) => show_read(read, into)?,
        Command::Refused {
            area,
            status: 404,
            ..
        } => write!(into, "{area:?} 404")?,
        Command::Refused { area, status, rule } => write!(
            into,
            "{area:?} {status} {}{}",
            char::from(rule.letter()),
            rule.number()
        )?,
    }
    Ok(())
}

fn show_asked(asked: &Asked, into: &mut String) -> Result<(), Fail> {
    into.push_str(asked.caller.text())?;
    into.push_str(": ")?;
    show(&asked.command, into)
}

fn show_refused(refused: RouteRefused, into: &mut String) -> Result<(), Fail> {
    match refused {
        RouteRefused::NoMethod { allow } => {
            into.push_str("only ")?;
            into.push_str(allow.text())?;
        }
        RouteRefused::NoRoute => into.push_str("NoRoute")?,
        RouteRefused::NoVersion => into.push_str("NoVersion")?,
        RouteRefused::Memory => into.push_str("Memory")?,
    }
    Ok(())
}

// What the request asks, in one word.
pub(crate) fn asked_text(alloc: Global, routes: &Routes, request: Request) -> Result<String, Fail> {
    let mut text = String::new(alloc);
    let shown = match routes.command_of(alloc, request) {
        Ok(asked) => {
            let shown = show_asked(&asked, &mut text);
            drop(asked);
            shown
        }
        Err(refused) => show_refused(refused, &mut text),
    };
    shown?;
    Ok(text)
}
