// The texts of entries. An entry is dropped by the function that owns it, and no other looks at it but by reference.
ghost use Rattle.std.specs.Prelude.{IfOk};
ghost use Rattle.lrs_record.specs.Entries.{IsLawfulCaller, IsLawfulWrite};

use crate::failing::wrong_row;
use cmi5_course::{Mode, Reason};
use lrs_agents::{Agent, Ifi};
use lrs_json::Text;
use lrs_names::{Draw, Id, Iri};
use lrs_record::{Caller, Entry, EntryRefused, How, Moment, Write, read_entry, write_entry};
use std::alloc::Global;
use std::fmt::Write as _;
use std::test::Fail;

const FOUNDING: &str =
    "{\"caller\":\"*\",\"moment\":1700000000000,\"draw\":\"0000000000000000000000000000000000000000000000000000000000000000\",\"command\":{\"found\":{\"admin\":\"adminadmin\",\"base\":\"http://127.0.0.1:8080/\"}}}";

// Whether the entry is written as this text.
fn is_written_as(alloc: Global, entry: &Entry, text: &str) -> Result<bool, Fail>
    requires caller { IsLawfulCaller entry.now.caller }
    requires write { IsLawfulWrite entry.now.write }
{
    let mut written = Vec::new(alloc);
    write_entry(entry, &mut written)?;
    Ok(written.as_slice() == text.as_bytes())
}

fn founding(alloc: Global) -> Result<Entry, Fail>
    ensures caller { IfOk result (λ entry. IsLawfulCaller entry.caller) }
    ensures write { IfOk result (λ entry. IsLawfulWrite entry.write) }
{
    let admin = Text::of(alloc, "adminadmin")?;
    let base = Text::of(alloc, "http://127.0.0.1:8080/")?;
    Ok(Entry {
        caller: Caller::Operator,
        write: Write::Found { admin, base },
        moment: Moment::clamp(1_700_000_000_000),
        draw: Draw { name: 0, secret: 0 },
    })
}

fn writes_founding(alloc: Global) -> Result<bool, Fail> {
    let entry = founding(alloc)?;
    let written = is_written_as(alloc, &entry, FOUNDING);
    drop(entry);
    written
}

#[test]
fn writes_the_founding_entry(rt: HostRuntime) -> Result<(), Fail> {
    assert!(rt; FOUNDING.len() == 186 && writes_founding(rt.alloc())?);
    Ok(())
}

fn say(into: &mut String, word: &str) -> Result<(), Fail> {
    into.push(' ')?;
    into.push_str(word)?;
    Ok(())
}

fn say_id(into: &mut String, id: &Id) -> Result<(), Fail> {
    say(into, str::from_utf8(&id.text())?)
}

fn say_count(into: &mut String, count: usize) -> Result<(), Fail> {
    write!(into, " {count}")?;
    Ok(())
}

fn say_number(into: &mut String, number: u32) -> Result<(), Fail> {
    write!(into, " {number}")?;
    Ok(())
}

fn say_quoted(into: &mut String, text: &Text) -> Result<(), Fail> {
    write!(into, " {:?}", text.as_str())?;
    Ok(())
}

fn show_write(into: &mut String, write: &Write) -> Result<(), Fail> {
    into.push_str(write.name())?;
    match write {
        Write::Found { admin, base } => show_two(into, admin, base),
        Write::Provider { name } => say(into, name.as_str()),
        Write::Put { id, .. } => say_id(into, id),
        Write::Post { statements } => say_count(into, statements.len()),
        Write::State {
            how,
            key,
            media,
            bytes,
        } => show_document(into, *how, &key.state, media, bytes.len()),
        Write::Drop { activity, .. } => say(into, activity.text().as_str()),
        Write::Course { .. } => Ok(()),
        Write::Enrol {
            course,
            actor,
            edition,
        } => {
            show_enrolled(into, course, actor)?;
            show_edition(into, *edition)
        }
        Write::Launch {
            registration,
            unit,
            mode,
            return_url,
        } => show_launch(into, registration, unit, *mode, return_url),
        Write::Fetch { key } => say(into, key.as_str()),
        Write::Waive {
            registration,
            unit,
            reason,
        } => show_waiver(into, registration, unit, *reason),
        Write::Abandon { session } => say_id(into, session),
        Write::Sweep { idle } => say_number(into, *idle),
    }
}

fn show_two(into: &mut String, first: &Text, second: &Text) -> Result<(), Fail> {
    say(into, first.as_str())?;
    say(into, second.as_str())
}

fn show_document(
    into: &mut String,
    how: How,
    state: &Text,
    media: &Text,
    length: usize,
) -> Result<(), Fail> {
    say(into, how.text())?;
    say_quoted(into, state)?;
    say_quoted(into, media)?;
    say_count(into, length)
}

fn show_enrolled(into: &mut String, course: &Iri, actor: &Agent) -> Result<(), Fail> {
    say(into, course.text().as_str())?;
    if let Some(name) = &actor.name {
        say_quoted(into, name)?;
    }
    show_identifier(into, &actor.ifi)
}

fn show_edition(into: &mut String, edition: Option<u32>) -> Result<(), Fail> {
    match edition {
        Some(number) => write!(into, " edition {number}")?,
        None => {}
    }
    Ok(())
}

fn show_identifier(into: &mut String, ifi: &Ifi) -> Result<(), Fail> {
    match ifi {
        Ifi::Mbox(text) => say(into, text.as_str()),
        Ifi::MboxSha1(text) => say(into, text.as_str()),
        Ifi::OpenId(text) => say(into, text.as_str()),
        Ifi::Account { home, name } => show_two(into, home, name),
    }
}

fn show_launch(
    into: &mut String,
    registration: &Id,
    unit: &Iri,
    mode: Mode,
    return_url: &Option<Iri>,
) -> Result<(), Fail> {
    say_id(into, registration)?;
    say(into, unit.text().as_str())?;
    say(into, mode.text())?;
    match return_url {
        Some(address) => say(into, address.text().as_str()),
        None => Ok(()),
    }
}

fn show_waiver(
    into: &mut String,
    registration: &Id,
    unit: &Iri,
    reason: Reason,
) -> Result<(), Fail> {
    say_id(into, registration)?;
    say(into, unit.text().as_str())?;
    say(into, reason.text())
}

// What the entry says, in a line.
fn shown(alloc: Global, entry: &Entry) -> Result<String, Fail> {
    let mut text = format!(in alloc;
        "{:?} at {}, drawn {} and {}: ",
        entry.caller.text(),
        entry.moment.milliseconds(),
        entry.draw.name,
        entry.draw.secret
    )?;
    show_write(&mut text, &entry.write)?;
    Ok(text)
}

fn fits(alloc: Global, entry: &Entry, text: &str, line: &str) -> Result<bool, Fail>
    requires caller { IsLawfulCaller entry.now.caller }
    requires write { IsLawfulWrite entry.now.write }
{
    Ok(shown(alloc, entry)?.as_str() == line && is_written_as(alloc, entry, text)?)
}

// Whether the text is read as an entry that says this, and is its text.
fn comes_back(alloc: Global, text: &str, line: &str) -> Result<bool, Fail> {
    let entry = read_entry(alloc, text.as_bytes())?;
    let fits = fits(alloc, &entry, text, line);
    drop(entry);
    fits
}

const ENTRIES: [(&str, &str); 5] = [
    (
        FOUNDING,
        "\"*\" at 1700000000000, drawn 0 and 0: found adminadmin http://127.0.0.1:8080/",
    ),
    (
        "{\"caller\":\"token-1\",\"moment\":0,\"draw\":\"0000000000000000000000000000001000000000000000000000000000000abc\",\"command\":{\"put\":{\"id\":\"11111111-1111-4111-8111-111111111111\",\"statement\":{\"id\":\"11111111-1111-4111-8111-111111111111\",\"actor\":{\"mbox\":\"mailto:a@b\"},\"verb\":{\"id\":\"http://v/1\"},\"object\":{\"id\":\"http://a/1\"}}}}}",
        "\"token-1\" at 0, drawn 16 and 2748: put 11111111-1111-4111-8111-111111111111",
    ),
    (
        "{\"caller\":\"adminadmin\",\"moment\":1700000000000,\"draw\":\"0000000000000000000000000000000000000000000000000000000000000005\",\"command\":{\"provider\":{\"name\":\"p.1\"}}}",
        "\"adminadmin\" at 1700000000000, drawn 0 and 5: provider p.1",
    ),
    (
        "{\"caller\":\"token-1\",\"moment\":1,\"draw\":\"0000000000000000000000000000000000000000000000000000000000000000\",\"command\":{\"post\":{\"statements\":[]}}}",
        "\"token-1\" at 1, drawn 0 and 0: post 0",
    ),
    (
        "{\"caller\":\"\",\"moment\":1,\"draw\":\"0000000000000000000000000000000000000000000000000000000000000000\",\"command\":{\"post\":{\"statements\":[{\"a\":[1]},{}]}}}",
        "\"\" at 1, drawn 0 and 0: post 2",
    ),
];

#[test]
fn reads_entries_back(rt: HostRuntime) -> Result<(), Fail> {
    let alloc = rt.alloc();
    for (i, (text, line)) in ENTRIES.iter().enumerate() {
        if !comes_back(alloc, text, line)? {
            return wrong_row(i);
        }
    }
    Ok(())
}

// What reading says of a text.
fn read(alloc: Global, text: &str) -> Result<(), EntryRefused> {
    match read_entry(alloc, text.as_bytes()) {
        Ok(entry) => {
            drop(entry);
            Ok(())
        }
        Err(refused) => Err(refused),
    }
}

// What is changed in the founding entry, so that it is none.
const CHANGES: [(&str, &str); 25] = [
    ("{\"caller\"", "{ \"caller\""),
    ("\"base\":", "\"base\": "),
    ("}}}", "}}} "),
    ("\"*\"", "\"\\u002a\""),
    (
        "\"caller\":\"*\",\"moment\":1700000000000",
        "\"moment\":1700000000000,\"caller\":\"*\"",
    ),
    ("\"*\",", "\"*\",\"caller\":\"*\","),
    ("}}}", "},\"more\":{}}}"),
    ("}}}", "}},\"more\":{}}"),
    ("\"found\"", "\"founded\""),
    (
        "\"found\":{\"admin\":\"adminadmin\",\"base\":\"http://127.0.0.1:8080/\"}",
        "\"\":{}",
    ),
    (
        "\"found\":{\"admin\":\"adminadmin\",\"base\":\"http://127.0.0.1:8080/\"}",
        "\"provider\":{\"name\":\"p.1\",\"more\":\"\"}",
    ),
    ("1700000000000", "01700000000000"),
    ("1700000000000", "1700000000000.0"),
    ("1700000000000", "17e11"),
    ("1700000000000", "-0"),
    ("1700000000000", "253402300800000"),
    ("\"0000", "\"000A"),
    ("\"0000", "\"000"),
    ("\"adminadmin\"", "5"),
    ("adminadmin", "\\u0061dminadmin"),
    ("http://", "http:\\/\\/"),
    (",\"moment\"", " ,\"moment\""),
    ("1700000000000,", "1700000000000 ,"),
    ("{\"found\":{", "{\"found\":{ "),
    (
        "\"adminadmin\",",
        "\"adminadmin\",\"admin\":\"adminadmin\",",
    ),
];

#[test]
fn refuses_other_spellings(rt: HostRuntime) -> Result<(), Fail> {
    let alloc = rt.alloc();
    for (i, (old, new)) in CHANGES.iter().enumerate() {
        let text = FOUNDING.replacen(alloc, *old, new, 1)?;
        if read(alloc, text.as_str()) != Err(EntryRefused::BadEntry) {
            return wrong_row(i);
        }
    }
    Ok(())
}

const NOBODY: &str =
    "{\"caller\":\"\",\"moment\":1,\"draw\":\"0000000000000000000000000000000000000000000000000000000000000000\",\"command\":";

// What stands before and after so many nested arrays, and whether that is an entry: a statement has 64 levels at
// most, an id is written in lower case, statements are an array, and each stands in its written form. A million levels,
// as a file that isn't ours may have, would overflow the stack of whoever followed them down.
const NESTED: [(&str, usize, &str, bool); 13] = [
    (
        "{\"put\":{\"id\":\"aaaaaaaa-1111-4111-8111-111111111111\",\"statement\":",
        64,
        "}}}",
        true,
    ),
    (
        "{\"put\":{\"id\":\"AAAAAAAA-1111-4111-8111-111111111111\",\"statement\":",
        64,
        "}}}",
        false,
    ),
    (
        "{\"put\":{\"id\":\"aaaaaaaa-1111-4111-8111-111111111111\",\"statement\":",
        65,
        "}}}",
        false,
    ),
    ("{\"post\":{\"statements\":[1,", 64, "]}}}", true),
    ("{\"post\":{\"statements\":[1,", 65, "]}}}", false),
    ("{\"post\":{\"statements\":[1,", 1_000_000, "]}}}", false),
    ("{\"post\":{\"statements\":{", 0, "}}}}", false),
    (
        "{\"post\":{\"statements\":[{\"\u{e9}\":\"/\\n\"},",
        1,
        "]}}}",
        true,
    ),
    (
        "{\"post\":{\"statements\":[{\"\\u00e9\":\"/\\n\"},",
        1,
        "]}}}",
        false,
    ),
    (
        "{\"post\":{\"statements\":[{\"\u{e9}\":\"\\/\\n\"},",
        1,
        "]}}}",
        false,
    ),
    (
        "{\"post\":{\"statements\":[{\"\u{e9}\":\"/\\u000a\"},",
        1,
        "]}}}",
        false,
    ),
    ("{\"post\":{\"statements\":[1, ", 1, "]}}}", false),
    ("{\"post\":{\"statements\":[1,", 1, " ]}}}", false),
];

fn nested(alloc: Global, front: &str, levels: usize, back: &str) -> Result<String, Fail> {
    let mut text = String::from_str(alloc, NOBODY)?;
    text.push_str(front)?;
    text.push_str("[".repeat(alloc, levels)?.as_str())?;
    text.push_str("]".repeat(alloc, levels)?.as_str())?;
    text.push_str(back)?;
    Ok(text)
}

#[test]
fn holds_statements_against_their_limits(rt: HostRuntime) -> Result<(), Fail> {
    let alloc = rt.alloc();
    for (i, (front, levels, back, good)) in NESTED.iter().enumerate() {
        let text = nested(alloc, front, *levels, back)?;
        let wanted = if *good {
            Ok(())
        } else {
            Err(EntryRefused::BadEntry)
        };
        if read(alloc, text.as_str()) != wanted {
            return wrong_row(i);
        }
    }
    Ok(())
}

// The commands of documents: each of the four identifiers, a registration and a state id that are given and not given.
const DOCUMENTS: [(&str, &str); 8] = [
    (
        "{\"state\":{\"how\":\"put\",\"activity\":\"http://a/1\",\"agent\":{\"account\":{\"homePage\":\"https://p.example\",\"name\":\"k1\"}},\"registration\":\"00000000-0000-4000-8000-00000000001a\",\"state\":\"b\",\"type\":\"text/plain\",\"bytes\":\"616263\"}}",
        "state put \"b\" \"text/plain\" 3",
    ),
    (
        "{\"state\":{\"how\":\"post\",\"activity\":\"http://a/1\",\"agent\":{\"mbox\":\"mailto:a@b\"},\"state\":\"b\",\"type\":\"application/json\",\"bytes\":\"7b7d\"}}",
        "state post \"b\" \"application/json\" 2",
    ),
    (
        "{\"state\":{\"how\":\"put\",\"activity\":\"http://a/1\",\"agent\":{\"mbox_sha1sum\":\"b3a8e0e1f9ab1bfe3a36f231f676f78bb30a519d\"},\"state\":\"\",\"type\":\"\",\"bytes\":\"\"}}",
        "state put \"\" \"\" 0",
    ),
    (
        "{\"state\":{\"how\":\"put\",\"activity\":\"http://a/1\",\"agent\":{\"openid\":\"https://o.example/\"},\"registration\":\"00000000-0000-4000-8000-00000000001a\",\"state\":\"\\u0001\",\"type\":\"t\",\"bytes\":\"00ff\"}}",
        "state put \"\\u{1}\" \"t\" 2",
    ),
    (
        "{\"drop\":{\"activity\":\"http://a/1\",\"agent\":{\"mbox\":\"mailto:a@b\"}}}",
        "drop http://a/1",
    ),
    (
        "{\"drop\":{\"activity\":\"http://a/2\",\"agent\":{\"openid\":\"https://o.example/\"},\"registration\":\"00000000-0000-4000-8000-00000000001a\"}}",
        "drop http://a/2",
    ),
    (
        "{\"drop\":{\"activity\":\"http://a/3\",\"agent\":{\"mbox_sha1sum\":\"b3a8e0e1f9ab1bfe3a36f231f676f78bb30a519d\"},\"state\":\"b\"}}",
        "drop http://a/3",
    ),
    (
        "{\"drop\":{\"activity\":\"http://a/4\",\"agent\":{\"account\":{\"homePage\":\"https://p.example\",\"name\":\"\"}},\"registration\":\"00000000-0000-4000-8000-00000000001a\",\"state\":\"\"}}",
        "drop http://a/4",
    ),
];

// Whether the command is read, says this, and is written again as it was.
fn is_command(alloc: Global, command: &str, says: &str) -> Result<bool, Fail> {
    let mut text = String::from_str(alloc, NOBODY)?;
    text.push_str(command)?;
    text.push('}')?;
    let mut line = String::from_str(alloc, "\"\" at 1, drawn 0 and 0: ")?;
    line.push_str(says)?;
    comes_back(alloc, text.as_str(), line.as_str())
}

fn check_commands(alloc: Global, commands: &[(&str, &str)]) -> Result<(), Fail> {
    for (i, (command, says)) in commands.iter().enumerate() {
        if !is_command(alloc, command, says)? {
            return wrong_row(i);
        }
    }
    Ok(())
}

#[test]
fn reads_documents_back(rt: HostRuntime) -> Result<(), Fail> {
    check_commands(rt.alloc(), &DOCUMENTS)
}

// Which of the commands, and what is changed in it, so that it is none.
const NO_DOCUMENTS: [(usize, &str, &str); 21] = [
    (0, "616263", "6A6263"),
    (0, "616263", "61626"),
    (0, "616263", "6162 3"),
    (0, "\"616263\"", "null"),
    (0, "\"put\"", "\"PUT\""),
    (0, "\"put\"", "\"delete\""),
    (0, "\"http://a/1\"", "\"a\""),
    (0, "\"account\":{", "\"objectType\":\"Agent\",\"account\":{"),
    (0, "\"account\":", "\"accounts\":"),
    (
        0,
        "\"homePage\":\"https://p.example\",\"name\":\"k1\"",
        "\"name\":\"k1\",\"homePage\":\"https://p.example\"",
    ),
    (0, "00000000001a", "00000000001A"),
    (0, "\"00000000-0000-4000-8000-00000000001a\"", "null"),
    (
        0,
        "\"registration\":\"00000000-0000-4000-8000-00000000001a\",\"state\":\"b\"",
        "\"state\":\"b\",\"registration\":\"00000000-0000-4000-8000-00000000001a\"",
    ),
    (0, "\"state\":\"b\",", ""),
    (0, "\"type\":\"text/plain\",", ""),
    (0, "\"616263\"", "\"616263\",\"more\":1"),
    (
        1,
        "\"how\":\"post\",\"activity\":\"http://a/1\"",
        "\"activity\":\"http://a/1\",\"how\":\"post\"",
    ),
    (4, "mailto:a@b\"}", "mailto:a@b\"},\"more\":1"),
    (4, "{\"mbox\":\"mailto:a@b\"}", "{}"),
    (5, "00000000001a\"", "00000000001a\",\"state\":null"),
    (
        7,
        "\"registration\":\"00000000-0000-4000-8000-00000000001a\",\"state\":\"\"",
        "\"state\":\"\",\"registration\":\"00000000-0000-4000-8000-00000000001a\"",
    ),
];

fn changed(
    alloc: Global,
    commands: &[(&str, &str)],
    of: usize,
    old: &str,
    new: &str,
) -> Result<String, Fail> {
    let Some((command, _)) = commands.get(of) else {
        return Err(Fail::new("no such command"));
    };
    if !command.contains(old) {
        return Err(Fail::new("nothing is changed"));
    }
    let mut text = String::from_str(alloc, NOBODY)?;
    text.push_str(command.replacen(alloc, old, new, 1)?.as_str())?;
    text.push('}')?;
    Ok(text)
}

// The first of the changes that makes another entry of its command.
fn check_refused(
    alloc: Global,
    commands: &[(&str, &str)],
    changes: &[(usize, &str, &str)],
) -> Result<(), Fail> {
    for (i, (of, old, new)) in changes.iter().enumerate() {
        let text = changed(alloc, commands, *of, old, new)?;
        if read(alloc, text.as_str()) != Err(EntryRefused::BadEntry) {
            return wrong_row(i);
        }
    }
    Ok(())
}

#[test]
fn refuses_other_documents(rt: HostRuntime) -> Result<(), Fail> {
    check_refused(rt.alloc(), &DOCUMENTS, &NO_DOCUMENTS)
}

// The commands of courses. An actor has a name or none, and any of the four identifiers: that it has an account is a
// rule of the store.
const COURSES: [(&str, &str); 14] = [
    (
        "{\"course\":{\"tree\":{\"id\":\"http://c/1\",\"title\":{\"en\":\"One\"},\"children\":[{\"kind\":\"block\",\"id\":\"http://c/b\",\"title\":{\"en\":\"B\"},\"children\":[{\"kind\":\"unit\",\"id\":\"http://c/u\",\"title\":{\"en\":\"U\"},\"url\":\"https://au.example/u\",\"moveOn\":\"CompletedAndPassed\",\"masteryScore\":0.8}]}]}}}",
        "course",
    ),
    ("{\"course\":{\"tree\":null}}", "course"),
    (
        "{\"enrol\":{\"course\":\"http://c/1\",\"actor\":{\"objectType\":\"Agent\",\"account\":{\"homePage\":\"https://p.example\",\"name\":\"k1\"}}}}",
        "enrol http://c/1 https://p.example k1",
    ),
    (
        "{\"enrol\":{\"course\":\"http://c/1\",\"actor\":{\"objectType\":\"Agent\",\"name\":\"K \\\"1\\\"\\\\\\n\\u0001\",\"account\":{\"homePage\":\"https://p.example\",\"name\":\"k1\"}}}}",
        "enrol http://c/1 \"K \\\"1\\\"\\\\\\n\\u{1}\" https://p.example k1",
    ),
    (
        "{\"enrol\":{\"course\":\"http://c/1\",\"actor\":{\"objectType\":\"Agent\",\"name\":\"\",\"mbox\":\"mailto:a@b\"}}}",
        "enrol http://c/1 \"\" mailto:a@b",
    ),
    (
        "{\"enrol\":{\"course\":\"http://c/1\",\"actor\":{\"objectType\":\"Agent\",\"mbox_sha1sum\":\"5\"}}}",
        "enrol http://c/1 5",
    ),
    (
        "{\"enrol\":{\"course\":\"http://c/1\",\"actor\":{\"objectType\":\"Agent\",\"openid\":\"https://o.example/\"}}}",
        "enrol http://c/1 https://o.example/",
    ),
    (
        "{\"launch\":{\"registration\":\"00000000-0000-4000-8000-000000000010\",\"unit\":\"http://c/u\",\"mode\":\"Normal\"}}",
        "launch 00000000-0000-4000-8000-000000000010 http://c/u Normal",
    ),
    (
        "{\"launch\":{\"registration\":\"00000000-0000-4000-8000-000000000010\",\"unit\":\"http://c/u\",\"mode\":\"Review\",\"returnURL\":\"https://p.example/back\"}}",
        "launch 00000000-0000-4000-8000-000000000010 http://c/u Review https://p.example/back",
    ),
    (
        "{\"fetch\":{\"key\":\"00000000000000000000000000000001-3\"}}",
        "fetch 00000000000000000000000000000001-3",
    ),
    (
        "{\"enrol\":{\"course\":\"http://c/1\",\"actor\":{\"objectType\":\"Agent\",\"account\":{\"homePage\":\"https://p.example\",\"name\":\"k1\"}},\"edition\":0}}",
        "enrol http://c/1 https://p.example k1 edition 0",
    ),
    (
        "{\"enrol\":{\"course\":\"http://c/1\",\"actor\":{\"objectType\":\"Agent\",\"account\":{\"homePage\":\"https://p.example\",\"name\":\"k1\"}},\"edition\":1}}",
        "enrol http://c/1 https://p.example k1 edition 1",
    ),
    (
        "{\"enrol\":{\"course\":\"http://c/1\",\"actor\":{\"objectType\":\"Agent\",\"account\":{\"homePage\":\"https://p.example\",\"name\":\"k1\"}},\"edition\":999999999}}",
        "enrol http://c/1 https://p.example k1 edition 999999999",
    ),
    (
        "{\"enrol\":{\"course\":\"http://c/1\",\"actor\":{\"objectType\":\"Agent\",\"account\":{\"homePage\":\"https://p.example\",\"name\":\"k1\"}},\"edition\":4294967295}}",
        "enrol http://c/1 https://p.example k1 edition 4294967295",
    ),
];

#[test]
fn reads_courses_back(rt: HostRuntime) -> Result<(), Fail> {
    check_commands(rt.alloc(), &COURSES)
}

// Which of the commands, and what is changed in it, so that it is none.
const NO_COURSES: [(usize, &str, &str); 47] = [
    (1, "\"tree\"", "\"course\""),
    (1, "null", "null,\"tree\":null"),
    (1, "\"tree\":null", ""),
    (2, "\"http://c/1\"", "\"c\""),
    (
        2,
        "\"objectType\":\"Agent\",\"account\":{\"homePage\":\"https://p.example\",\"name\":\"k1\"}",
        "\"account\":{\"homePage\":\"https://p.example\",\"name\":\"k1\"},\"objectType\":\"Agent\"",
    ),
    (2, "\"Agent\"", "\"Group\""),
    (2, "\"objectType\":\"Agent\",", ""),
    (2, "\"homePage\":\"https://p.example\",", ""),
    (2, ",\"name\":\"k1\"", ""),
    (
        2,
        "\"homePage\":\"https://p.example\",\"name\":\"k1\"",
        "\"name\":\"k1\",\"homePage\":\"https://p.example\"",
    ),
    (2, "\"account\"", "\"name\":null,\"account\""),
    (3, "\\u0001", "\u{1}"),
    (3, "\\u0001", "\\u0041"),
    (4, ",\"mbox\":\"mailto:a@b\"", ""),
    (4, "\"mailto:a@b\"", "\"mailto:a@b\",\"member\":[]"),
    (7, "-8000-000000000010", "-8000-00000000001"),
    (7, "\"http://c/u\"", "\"c/u\""),
    (7, "\"Normal\"", "\"normal\""),
    (7, "\"Normal\"", "\"Play\""),
    (7, ",\"mode\":\"Normal\"", ""),
    (7, "\"Normal\"", "\"Normal\",\"returnURL\":null"),
    (8, "\"https://p.example/back\"", "\"/back\""),
    (
        8,
        "\"mode\":\"Review\",\"returnURL\":\"https://p.example/back\"",
        "\"returnURL\":\"https://p.example/back\",\"mode\":\"Review\"",
    ),
    (9, "\"00000000000000000000000000000001-3\"", "3"),
    (11, "\"edition\":1", "\"edition\":01"),
    (11, "\"edition\":1", "\"edition\":00"),
    (11, "\"edition\":1", "\"edition\":+1"),
    (11, "\"edition\":1", "\"edition\":-1"),
    (11, "\"edition\":1", "\"edition\":1.0"),
    (11, "\"edition\":1", "\"edition\":1e0"),
    (11, "\"edition\":1", "\"edition\":\"1\""),
    (11, "\"edition\":1", "\"edition\":null"),
    (11, "\"edition\":1", "\"edition\":[1]"),
    (11, "\"edition\":1", "\"edition\": 1"),
    (11, "\"edition\":1", "\"edition\":1 "),
    (11, "\"edition\":1", "\"edition\":4294967296"),
    (11, "\"edition\":1", "\"edition\":18446744073709551617"),
    (11, "\"edition\":1", "\"edition\":"),
    (11, "\"edition\":1", "\"edition\":1,\"edition\":1"),
    (11, "\"edition\":1", "\"edition\":1,\"more\":1"),
    (11, "\"edition\":1", "\"editions\":1"),
    (11, "\"edition\":1", ""),
    (
        11,
        "\"actor\":{\"objectType\":\"Agent\",\"account\":{\"homePage\":\"https://p.example\",\"name\":\"k1\"}},\"edition\":1",
        "\"edition\":1,\"actor\":{\"objectType\":\"Agent\",\"account\":{\"homePage\":\"https://p.example\",\"name\":\"k1\"}}",
    ),
    (
        11,
        "\"course\":\"http://c/1\",\"actor\":{\"objectType\":\"Agent\",\"account\":{\"homePage\":\"https://p.example\",\"name\":\"k1\"}},\"edition\":1",
        "\"edition\":1,\"course\":\"http://c/1\",\"actor\":{\"objectType\":\"Agent\",\"account\":{\"homePage\":\"https://p.example\",\"name\":\"k1\"}}",
    ),
    (
        11,
        "\"actor\":{\"objectType\":\"Agent\",\"account\":{\"homePage\":\"https://p.example\",\"name\":\"k1\"}},",
        "",
    ),
    (10, ",\"edition\":0", "\"edition\":0"),
    (10, "\"edition\":0", "\"edition\":-0"),
];

#[test]
fn refuses_other_courses(rt: HostRuntime) -> Result<(), Fail> {
    check_refused(rt.alloc(), &COURSES, &NO_COURSES)
}

// The commands that waive a unit, abandon a session and sweep idle ones.
const ENDINGS: [(&str, &str); 8] = [
    (
        "{\"waive\":{\"registration\":\"00000000-0000-4000-8000-000000000010\",\"unit\":\"http://c/u\",\"reason\":\"Tested Out\"}}",
        "waive 00000000-0000-4000-8000-000000000010 http://c/u Tested Out",
    ),
    (
        "{\"waive\":{\"registration\":\"00000000-0000-4000-8000-000000000010\",\"unit\":\"http://c/u\",\"reason\":\"Equivalent AU\"}}",
        "waive 00000000-0000-4000-8000-000000000010 http://c/u Equivalent AU",
    ),
    (
        "{\"waive\":{\"registration\":\"00000000-0000-4000-8000-000000000010\",\"unit\":\"http://c/u\",\"reason\":\"Equivalent Outside Activity\"}}",
        "waive 00000000-0000-4000-8000-000000000010 http://c/u Equivalent Outside Activity",
    ),
    (
        "{\"waive\":{\"registration\":\"00000000-0000-4000-8000-000000000010\",\"unit\":\"http://c/u\",\"reason\":\"Administrative\"}}",
        "waive 00000000-0000-4000-8000-000000000010 http://c/u Administrative",
    ),
    (
        "{\"abandon\":{\"session\":\"00000000-0000-4000-8000-00000000001a\"}}",
        "abandon 00000000-0000-4000-8000-00000000001a",
    ),
    ("{\"sweep\":{\"idle\":0}}", "sweep 0"),
    ("{\"sweep\":{\"idle\":3600}}", "sweep 3600"),
    ("{\"sweep\":{\"idle\":4294967295}}", "sweep 4294967295"),
];

#[test]
fn reads_waivers_and_sweeps_back(rt: HostRuntime) -> Result<(), Fail> {
    check_commands(rt.alloc(), &ENDINGS)
}

// Which of the commands, and what is changed in it, so that it is none.
const NO_ENDINGS: [(usize, &str, &str); 45] = [
    (
        0,
        "\"registration\":\"00000000-0000-4000-8000-000000000010\",",
        "",
    ),
    (0, ",\"unit\":\"http://c/u\"", ""),
    (0, ",\"reason\":\"Tested Out\"", ""),
    (
        0,
        "\"unit\"",
        "\"registration\":\"00000000-0000-4000-8000-000000000010\",\"unit\"",
    ),
    (0, "\"reason\"", "\"unit\":\"http://c/u\",\"reason\""),
    (
        0,
        "\"Tested Out\"",
        "\"Tested Out\",\"reason\":\"Tested Out\"",
    ),
    (0, "\"00000000-0000-4000-8000-000000000010\"", "16"),
    (0, "\"http://c/u\"", "null"),
    (0, "\"Tested Out\"", "0"),
    (0, "\"Tested Out\"", "[\"Tested Out\"]"),
    (0, "-000000000010", "-00000000001"),
    (0, "\"http://c/u\"", "\"c/u\""),
    (0, "\"Tested Out\"", "\"tested out\""),
    (0, "\"Tested Out\"", "\"TestedOut\""),
    (0, "\"Tested Out\"", "\"\""),
    (1, "\"Equivalent AU\"", "\"Equivalent Au\""),
    (1, "\"Equivalent AU\"", "\"Equivalent\""),
    (
        0,
        "\"registration\":\"00000000-0000-4000-8000-000000000010\",\"unit\":\"http://c/u\"",
        "\"unit\":\"http://c/u\",\"registration\":\"00000000-0000-4000-8000-000000000010\"",
    ),
    (
        0,
        "\"unit\":\"http://c/u\",\"reason\":\"Tested Out\"",
        "\"reason\":\"Tested Out\",\"unit\":\"http://c/u\"",
    ),
    (0, "\"Tested Out\"", "\"Tested Out\",\"more\":1"),
    (0, "\"reason\"", "\"mode\""),
    (
        4,
        "\"session\":\"00000000-0000-4000-8000-00000000001a\"",
        "",
    ),
    (
        4,
        "\"00000000-0000-4000-8000-00000000001a\"",
        "\"00000000-0000-4000-8000-00000000001a\",\"session\":\"00000000-0000-4000-8000-00000000001a\"",
    ),
    (4, "\"00000000-0000-4000-8000-00000000001a\"", "26"),
    (4, "1a", "1A"),
    (4, "\"session\"", "\"registration\""),
    (5, "\"idle\":0", ""),
    (5, "0", "0,\"idle\":0"),
    (5, "\"idle\"", "\"seconds\""),
    (5, "0", "-1"),
    (5, "0", "-0"),
    (5, "0", "0.0"),
    (5, "0", "1.0"),
    (5, "0", "1e2"),
    (5, "0", "01"),
    (5, "0", "00"),
    (5, "0", "+1"),
    (5, "0", "\"0\""),
    (5, "0", "\"\""),
    (5, "0", "null"),
    (5, "0", "[0]"),
    (6, "3600", "36e2"),
    (6, "3600", " 3600"),
    (7, "4294967295", "4294967296"),
    (7, "4294967295", "18446744073709551616"),
];

#[test]
fn refuses_other_waivers_and_sweeps(rt: HostRuntime) -> Result<(), Fail> {
    check_refused(rt.alloc(), &ENDINGS, &NO_ENDINGS)
}
