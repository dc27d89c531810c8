// The parameters of requests for state documents.
use crate::failing::wrong_row;
use crate::query::found_pairs;
use lrs_agents::Ifi;
use lrs_names::{Id, Iri};
use std::alloc::Global;
use std::fmt::Write as _;
use std::test::Fail;
use xapi_keys::WantedDocuments;
use xapi_parameters::{Pair, QueryRefused, read_documents, read_dropped, read_key};

const OWNERS: &str = "activityId=http://a/1&agent=%7B%22mbox%22:%22mailto:a@b%22%7D";

// ---- the rules

// The least rule that a write, a deletion and a GET with these parameters break; 0 where they break none.
const WHOLE: &str = " => 4 4 4
stateId=s => 4 4 4
activityId=http://a/1&stateId=s => 4 4 4
agent=%7B%22mbox%22:%22mailto:a@b%22%7D&stateId=s => 4 4 4
agent=5&activityId=a&stateId=s&registration=1 => 5 5 5
agent=5&activityId=a&stateId=s => 6 6 6
agent=&activityId=http://a/1&stateId=s => 6 6 6
agent=%7B%22name%22:%22n%22%7D&activityId=http://a/1&stateId=s => 6 6 6
agent=%7B%22mbox%22:%22mailto:a@b%22,%22openid%22:%22http://o/1%22%7D&activityId=a&stateId=s => 6 6 6
agent=%7B%22objectType%22:%22Group%22,%22member%22:%5B%5D%7D&activityId=http://a/1&stateId=s => 6 6 6
agent=%7B%22objectType%22:%22Activity%22,%22mbox%22:%22mailto:a@b%22%7D&activityId=http://a/1&stateId=s => 6 6 6
agent=%7B%22objectType%22:%22Group%22,%22mbox%22:%22mailto:a@b%22%7D&activityId=http://a/1&stateId=s => 0 0 0
activityId=a&agent=%7B%22mbox%22:%22mailto:a@b%22%7D&stateId=s => 7 7 7
activityId=&agent=%7B%22mbox%22:%22mailto:a@b%22%7D&stateId=s => 7 7 7
activityId=a&agent=%7B%22mbox%22:%22mailto:a@b%22%7D&since=now => 2 2 7
registration=1&stateId=s => 4 4 4
registration=1&registration=1 => 3 3 3
until=1&until=1 => 2 2 2
stateid=s => 2 2 2
";

// The same, behind an activity and an agent.
const BEHIND_OWNERS: &str = " => 4 0 0
&stateId=s => 0 0 0
&stateId= => 0 0 0
&stateId=s&registration= => 5 5 5
&stateId=s&registration=AAAAAAAA-1111-4111-8111-111111111111 => 0 0 0
&registration=AAAAAAAA-1111-4111-8111-111111111111 => 4 0 0
&registration=11111111-1111-4111-8111-11111111111 => 4 5 5
&stateId=s&stateId=s => 3 3 3
&stateId=s&activityId=http://a/1 => 3 3 3
&since=2023-11-14T22:13:20Z => 2 2 0
&since=2023-11-14 => 2 2 9
&since= => 2 2 9
&since=now&registration=1 => 2 2 5
&since=now&since=now => 2 2 3
&stateId=s&since=2023-11-14T22:13:20Z => 2 2 2
&stateId=s&since=now => 2 2 2
&stateId=s&statementId=1 => 2 2 2
";

fn broken_by<T: Drop>(found: Result<T, QueryRefused>) -> Result<u8, Fail> {
    match found {
        Ok(_) => Ok(0),
        Err(QueryRefused::BadParameter { number }) => Ok(number),
        Err(QueryRefused::BadLink) => Ok(14),
        Err(QueryRefused::Memory) => Err(Fail::from("out of memory")),
    }
}

fn broken(alloc: Global, pairs: &[Pair]) -> Result<String, Fail> {
    let written = broken_by(read_key(alloc, pairs))?;
    let dropped = broken_by(read_dropped(alloc, pairs))?;
    let got = broken_by(read_documents(alloc, pairs))?;
    Ok(format!(in alloc; "{written} {dropped} {got}")?)
}

fn check_rows(alloc: Global, before: &str, rows: &str) -> Result<(), Fail> {
    for (i, row) in rows.lines().enumerate() {
        let (query, rules) = row.split_once(" => ").ok_or("no rules")?;
        let query = format!(in alloc; "{before}{query}")?;
        let found = found_pairs(alloc, query.as_str())?;
        if broken(alloc, found.as_slice())?.as_str() != rules {
            return wrong_row(i);
        }
    }
    Ok(())
}

#[test]
fn tells_the_least_broken_rule(rt: HostRuntime) -> Result<(), Fail> {
    check_rows(rt.alloc(), "", WHOLE)
}

#[test]
fn tells_the_least_broken_rule_behind_owners(rt: HostRuntime) -> Result<(), Fail> {
    check_rows(rt.alloc(), OWNERS, BEHIND_OWNERS)
}

// ---- what is read

// What a write, a deletion and a GET name: the state id, or which of all. Each names the same activity, agent and
// registration.
#[derive(Clone, Copy)]
struct Row<'a> {
    query: &'a str,
    owners: &'a str,
    named: [&'a str; 3],
}

const ROWS: &str =
    "activityId=http://a/1&agent=%7B%22mbox%22:%22mailto:a@b%22%7D&stateId=s => http://a/1 mailto:a@b -|s|s|s
stateId=&registration=AAAAAAAA-1111-4111-8111-111111111111&agent=%7B%22mbox%22:%22mailto:a@b%22%7D&activityId=http://a/1 => http://a/1 mailto:a@b aaaaaaaa-1111-4111-8111-111111111111|||
activityId=http://a/1&agent=%7B%22mbox%22:%22mailto:a@b%22%7D => http://a/1 mailto:a@b -|refused|all|since ever
since=2023-11-14T22:13:20%2B00&activityId=http://a/1&agent=%7B%22mbox%22:%22mailto:a@b%22%7D => http://a/1 mailto:a@b -|refused|refused|since 1700000000000000000
activityId=http%3A%2F%2Fa%2F1&agent=%7B%22mbox_sha1sum%22:%22ABCDEF0123456789abcdef0123456789abcdef01%22%7D&stateId=a+b%26 => http://a/1 sha1 ABCDEF0123456789abcdef0123456789abcdef01 -|a b&|a b&|a b&
activityId=http://a/1&agent=%7B%22openid%22:%22http://o/1%22%7D&stateId=s => http://a/1 openid http://o/1 -|s|s|s
activityId=http://a/1&agent=%7B%22account%22:%7B%22homePage%22:%22https://p.example%22,%22name%22:%22k1%22%7D%7D&stateId=s => http://a/1 account https://p.example k1 -|s|s|s
activityId=http://a/1&agent=%7B%22objectType%22:%22Group%22,%22mbox%22:%22mailto:a@b%22%7D&stateId=s => http://a/1 mailto:a@b -|s|s|s
";

fn row_of(text: &str) -> Result<Row<'_>, Fail> {
    let (query, told) = text.split_once(" => ").ok_or("no owners")?;
    let (owners, named) = told.split_once('|').ok_or("no names")?;
    let (written, named) = named.split_once('|').ok_or("no second name")?;
    let (dropped, got) = named.split_once('|').ok_or("no third name")?;
    Ok(Row {
        query,
        owners,
        named: [written, dropped, got],
    })
}

fn show_agent(agent: &Ifi, into: &mut String) -> Result<(), Fail> {
    match agent {
        Ifi::Mbox(text) => into.push_str(text.as_str())?,
        Ifi::MboxSha1(text) => write!(into, "sha1 {}", text.as_str())?,
        Ifi::OpenId(text) => write!(into, "openid {}", text.as_str())?,
        Ifi::Account { home, name } => {
            write!(into, "account {} {}", home.as_str(), name.as_str())?
        }
    }
    Ok(())
}

fn show_registration(registration: &Option<Id>, into: &mut String) -> Result<(), Fail> {
    match registration {
        Some(id) => into.push_str(str::from_utf8(&id.text())?)?,
        None => into.push('-')?,
    }
    Ok(())
}

// Whether these are the owners of the row.
fn are_owners(
    alloc: Global,
    row: &Row<'_>,
    activity: &Iri,
    agent: &Ifi,
    registration: &Option<Id>,
) -> Result<bool, Fail> {
    let mut text = String::new(alloc);
    write!(text, "{} ", activity.text().as_str())?;
    show_agent(agent, &mut text)?;
    text.push(' ')?;
    show_registration(registration, &mut text)?;
    Ok(text.as_str() == row.owners)
}

fn is_written(alloc: Global, row: &Row<'_>, pairs: &[Pair]) -> Result<bool, Fail> {
    match read_key(alloc, pairs) {
        Ok(key) => {
            let owned = are_owners(alloc, row, &key.activity, &key.agent, &key.registration);
            let named = key.state.as_str() == row.named[0];
            drop(key);
            Ok(owned? && named)
        }
        Err(_) => Ok(row.named[0] == "refused"),
    }
}

fn is_dropped(alloc: Global, row: &Row<'_>, pairs: &[Pair]) -> Result<bool, Fail> {
    match read_dropped(alloc, pairs) {
        Ok(dropped) => {
            let owned = are_owners(
                alloc,
                row,
                &dropped.activity,
                &dropped.agent,
                &dropped.registration,
            );
            let named = match &dropped.state {
                Some(state) => state.as_str() == row.named[1],
                None => row.named[1] == "all",
            };
            drop(dropped);
            Ok(owned? && named)
        }
        Err(_) => Ok(row.named[1] == "refused"),
    }
}

fn is_wanted(alloc: Global, row: &Row<'_>, wanted: &WantedDocuments) -> Result<bool, Fail> {
    match wanted {
        WantedDocuments::One(key) => Ok(
            key.state.as_str() == row.named[2]
                && are_owners(alloc, row, &key.activity, &key.agent, &key.registration)?,
        ),
        WantedDocuments::Ids {
            activity,
            agent,
            registration,
            since,
        } => {
            let text = match since {
                Some(since) => format!(in alloc; "since {}", since.nanoseconds())?,
                None => format!(in alloc; "since ever")?,
            };
            Ok(
                text.as_str() == row.named[2]
                    && are_owners(alloc, row, activity, agent, registration)?,
            )
        }
    }
}

fn is_got(alloc: Global, row: &Row<'_>, pairs: &[Pair]) -> Result<bool, Fail> {
    match read_documents(alloc, pairs) {
        Ok(wanted) => {
            let right = is_wanted(alloc, row, &wanted);
            drop(wanted);
            right
        }
        Err(_) => Ok(row.named[2] == "refused"),
    }
}

#[test]
fn reads_which_documents_are_asked_for(rt: HostRuntime) -> Result<(), Fail> {
    let alloc = rt.alloc();
    for (i, row) in ROWS.lines().enumerate() {
        let row = row_of(row)?;
        let found = found_pairs(alloc, row.query)?;
        let pairs = found.as_slice();
        if !is_written(alloc, &row, pairs)?
            || !is_dropped(alloc, &row, pairs)?
            || !is_got(alloc, &row, pairs)?
        {
            return wrong_row(i);
        }
    }
    Ok(())
}
