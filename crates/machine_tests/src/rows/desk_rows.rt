// What one desk answers in a test, as a text of rows.
//
// A row says who asks (`admin`, `provider` or `operator`), what, and after `=>` what is answered: the status, the body,
// and whether an entry is kept. A line after `//` is none. What is asked:
//
//   provider NAME           a provider of that name
//   put ID STATEMENT        to keep a statement under an id
//   later ID STATEMENT      the same a second later
//   post STATEMENT;..       to keep statements together
//   last STATEMENT;..       the same, where the last name of all is drawn
//   times COUNT STATEMENT   to keep a statement together with itself, so often
//   many FIRST COUNT        to keep so many statements together, from that number on: each refers to the one before. Their
//                           ids aren't told
//   get TARGET              what a target names. Of a list is told the last digit of each id's first part, and the link
//   whole TARGET            the same, and a list is told as it is
//   state HOW DOCUMENT TYPE BYTES   a document is written; `state_later` a second later. `documents_asked` says the words
//   drop DOCUMENT           documents go
//   document DOCUMENT       a document, of which its type and its bytes are told
//   length DOCUMENT         the same, and its bytes are counted
//   ids DOCUMENT MOMENT     the ids of documents
//   profile                 the document of a profile
//
// Where there is no room the body isn't told.
//
// `Z1` to `Z9` stand for the ids that are written with that digit. A statement is its verb and its object, `v/1 a/1`, or
// a reference in place of the activity, `v/1 Z2`, or its target, `voided Z2`, followed by its own id if it gives one;
// or it is a text without spaces.
ghost use Rattle.std.specs.Prelude.{IfOk, OnOk};
ghost use Rattle.lrs_json.specs.View.{view};
ghost use Rattle.lrs_record.specs.Entries.{AreLawfulTrees, IsLawfulCaller, IsLawfulTree};
ghost use Rattle.lrs_command.specs.Commands.{HasReadTrees};

use crate::rows::documents_asked::{document, drop_of, ids, state};
use lrs_command::{Command, Read};
use lrs_in_memory::MemDisk;
use lrs_json::{Items, Text, Tree};
use lrs_json_reader::read;
use lrs_machine::{Body, Desk, Media, Reply, Submission, is_base, is_token};
use lrs_names::{Draw, Id};
use lrs_record::{Caller, Write};
use std::alloc::Global;
use std::test::Fail;
use xapi_parameters::{Pair, pairs, read_link, read_wanted};

const ADMIN: &str = "adminadmin";

// The token of a provider that is made by the second entry.
const PROVIDER: &str = "00000000000000000000000000000005-1";

const NOW: u64 = 1_700_000_000_000;

/// A new desk over a disk of which the calls with these numbers fail.
pub fn founded(alloc: Global, failing: Vec<u64>) -> Result<Desk<MemDisk>, Fail> {
    founded_in(alloc, failing, 1_048_576)
}

/// The same, with a file of at most so many bytes.
pub fn founded_in(alloc: Global, failing: Vec<u64>, limit: u64) -> Result<Desk<MemDisk>, Fail> {
    let admin = Text::of(alloc, ADMIN)?;
    let base = Text::of(alloc, "http://127.0.0.1:8080/")?;
    founded_by(alloc, failing, limit, &admin, &base)
}

fn founded_by(
    alloc: Global,
    failing: Vec<u64>,
    limit: u64,
    admin: &Text,
    base: &Text,
) -> Result<Desk<MemDisk>, Fail> {
    if limit < 512 || limit > 1_073_741_824 {
        return Err(Fail::from("no limit"));
    }
    if !is_token(admin) {
        return Err(Fail::from("no token"));
    }
    if !is_base(alloc, base)? {
        return Err(Fail::from("no base"));
    }
    let written = limit.max(999_999);
    let disk = MemDisk::new(alloc, Vec::new(alloc), failing, 999, written)?;
    match Desk::found(alloc, disk, limit, admin, base, NOW) {
        Ok(desk) => Ok(desk),
        Err(refused) => {
            drop(refused);
            Err(Fail::from("not founded"))
        }
    }
}

/// Fails with the first row that a new desk answers otherwise, and its answer.
pub fn check_rows(alloc: Global, rows: &str) -> Result<(), Fail> {
    check_rows_in(alloc, 1_048_576, rows)
}

/// The same over a file of at most so many bytes.
pub fn check_rows_in(alloc: Global, limit: u64, rows: &str) -> Result<(), Fail> {
    let wrong = first_wrong(alloc, limit, rows)?;
    if wrong.is_empty() {
        Ok(())
    } else {
        Err(Fail::from(wrong))
    }
}

// That row, or no text.
fn first_wrong(alloc: Global, limit: u64, rows: &str) -> Result<String, Fail> {
    let mut desk = founded_in(alloc, Vec::new(alloc), limit)?;
    let wrong = first_wrong_of(alloc, &mut desk, rows);
    drop(desk);
    wrong
}

/// The first row that this desk answers otherwise, and its answer, or no text.
pub fn first_wrong_of(alloc: Global, desk: &mut Desk<MemDisk>, rows: &str) -> Result<String, Fail> {
    for row in rows.lines() {
        let wrong = wrong_row(alloc, desk, row)?;
        if !wrong.is_empty() {
            return Ok(wrong);
        }
    }
    Ok(String::new(alloc))
}

// What was asked and answered in this row, if something else was expected.
fn wrong_row(alloc: Global, desk: &mut Desk<MemDisk>, row: &str) -> Result<String, Fail> {
    if row.is_empty() || row.starts_with("//") {
        return Ok(String::new(alloc));
    }
    let (asked, expected) = row.split_once(" => ").ok_or("no answer")?;
    let expected = expanded(alloc, expected)?;
    let found = answered(alloc, desk, asked)?;
    difference(alloc, asked, found.as_str(), expected.as_str())
}

// What was asked and found, if something else was expected.
fn difference(alloc: Global, asked: &str, found: &str, expected: &str) -> Result<String, Fail> {
    if found == expected {
        Ok(String::new(alloc))
    } else {
        Ok(format!(in alloc; "{asked} => {found}")?)
    }
}

// A word, and what follows the space after it.
pub(crate) fn first_word(text: &str) -> (&str, &str) {
    text.split_once(' ').unwrap_or((text, ""))
}

/// What a desk answers to what is asked, in short.
pub fn answered(alloc: Global, desk: &mut Desk<MemDisk>, asked: &str) -> Result<String, Fail> {
    let (who, ask) = first_word(asked);
    let (word, behind) = first_word(ask);
    let before = desk.length();
    let reply = reply_to(alloc, desk, who, word, behind)?;
    let kept = if desk.length() > before { " kept" } else { "" };
    let text = reply_text(alloc, word, &reply, kept);
    drop(reply);
    text
}

fn reply_to(
    alloc: Global,
    desk: &mut Desk<MemDisk>,
    who: &str,
    word: &str,
    behind: &str,
) -> Result<Reply, Fail> {
    let caller = caller(alloc, token_of(who))?;
    match submission(alloc, word, behind) {
        Ok(command) => {
            let (reply, _receipt) = desk.act(caller, command, clock_at(word), &draw_at(word));
            Ok(reply)
        }
        Err(fail) => {
            drop(caller);
            Err(fail)
        }
    }
}

fn reply_text(alloc: Global, word: &str, reply: &Reply, kept: &str) -> Result<String, Fail> {
    let body = match &reply.body {
        Body::Made(body) => body.as_slice(),
        Body::Disk => br#"{"error":"disk"}"#.as_slice(),
        Body::Memory => br#"{"error":"memory"}"#.as_slice(),
    };
    let status = reply.status;
    let told = match &reply.media {
        Media::Own(media) if word == "length" => {
            format!(in alloc; " {} {}", media.as_str(), body.len())?
        }
        Media::Own(media) => document_told(alloc, media.as_str(), body)?,
        _ => told(alloc, word, status, body)?,
    };
    Ok(format!(in alloc; "{status}{told}{kept}")?)
}

// Its type and its bytes.
fn document_told(alloc: Global, media: &str, body: &[u8]) -> Result<String, Fail> {
    let media = if media.is_empty() { "-" } else { media };
    let text = str::from_utf8(body)?;
    let space = if text.is_empty() { "" } else { " " };
    Ok(format!(in alloc; " {media}{space}{text}")?)
}

fn clock_at(word: &str) -> u64 {
    if word == "later" || word == "state_later" {
        NOW + 1_000
    } else {
        NOW
    }
}

fn draw_at(word: &str) -> Draw {
    let name = if word == "last" { (1 << 122) - 1 } else { 80 };
    Draw { name, secret: 5 }
}

// The token under which somebody asks: none for nobody, `*` for the operator.
fn token_of(who: &str) -> &str {
    match who {
        "admin" => ADMIN,
        "provider" => PROVIDER,
        "operator" => "*",
        _ => "",
    }
}

fn caller(alloc: Global, token: &str) -> Result<Caller, Fail>
    ensures { IfOk result IsLawfulCaller }
{
    if token == "" {
        Ok(Caller::Nobody)
    } else if token == "*" {
        Ok(Caller::Operator)
    } else {
        Ok(Caller::Token(Text::of(alloc, token)?))
    }
}

// The command as it is submitted: its form is judged.
fn submission(alloc: Global, word: &str, behind: &str) -> Result<Submission, Fail>
    ensures { IfOk result HasReadTrees }
{
    let command = command(alloc, word, behind)?;
    Ok(Submission::of(alloc, command)?)
}

fn command(alloc: Global, word: &str, behind: &str) -> Result<Command, Fail>
    ensures { IfOk result HasReadTrees }
{
    match word {
        "provider" => provider(alloc, behind),
        "put" | "later" => put(alloc, behind),
        "post" | "last" => post(alloc, behind),
        "times" => times(alloc, behind),
        "many" => many(alloc, behind),
        "get" | "whole" => get(alloc, behind),
        "profile" => Ok(Command::Read(Read::Profile)),
        _ => of_documents(alloc, word, behind),
    }
}

fn of_documents(alloc: Global, word: &str, behind: &str) -> Result<Command, Fail>
    ensures { IfOk result HasReadTrees }
{
    let behind = expanded(alloc, behind)?;
    match word {
        "state" | "state_later" => state(alloc, behind.as_str()),
        "drop" => drop_of(alloc, behind.as_str()),
        "document" | "length" => document(alloc, behind.as_str()),
        "ids" => ids(alloc, behind.as_str()),
        _ => Err(Fail::from("no such question")),
    }
}

fn provider(alloc: Global, name: &str) -> Result<Command, Fail>
    ensures { IfOk result HasReadTrees }
{
    let name = Text::of(alloc, name)?;
    Ok(Command::Write(Write::Provider { name }))
}

fn put(alloc: Global, asked: &str) -> Result<Command, Fail>
    ensures { IfOk result HasReadTrees }
{
    let (id, statement) = first_word(asked);
    let id = Id::read(expanded(alloc, id)?.as_bytes()).ok_or("no id")?;
    let statement = tree(alloc, statement)?;
    Ok(Command::Write(Write::Put { id, statement }))
}

fn post(alloc: Global, statements: &str) -> Result<Command, Fail>
    ensures { IfOk result HasReadTrees }
{
    let statements = batch(alloc, statements)?;
    Ok(Command::Write(Write::Post { statements }))
}

fn get(alloc: Global, target: &str) -> Result<Command, Fail>
    ensures { IfOk result HasReadTrees }
{
    let target = expanded(alloc, target)?;
    get_whole(alloc, target.as_str())
}

fn get_whole(alloc: Global, target: &str) -> Result<Command, Fail>
    ensures { IfOk result HasReadTrees }
{
    let (path, query) = target.split_once('?').ok_or("no query")?;
    let query = Text::of(alloc, query)?;
    let found = pairs(alloc, &query)?;
    if path == "/xapi/statements/more" {
        get_more(alloc, found.as_slice())
    } else {
        get_statements(alloc, found.as_slice())
    }
}

fn get_more(alloc: Global, found: &[Pair]) -> Result<Command, Fail>
    ensures { IfOk result HasReadTrees }
{
    Ok(Command::Read(Read::More(read_link(alloc, found)?)))
}

fn get_statements(alloc: Global, found: &[Pair]) -> Result<Command, Fail>
    ensures { IfOk result HasReadTrees }
{
    Ok(Command::Read(Read::Statements(read_wanted(alloc, found)?)))
}

fn batch(alloc: Global, statements: &str) -> Result<Items<Tree>, Fail>
    ensures { IfOk result AreLawfulTrees }
{
    let mut trees = Items::new(alloc);
    for statement in statements.split(';') {
        add(alloc, &mut trees, statement)?;
    }
    Ok(trees)
}

// Adds a statement, if there is one.
#[tactic(auto, using(crate::proofs::Trees::lawful_more))]
fn add(alloc: Global, trees: &mut Items<Tree>, statement: &str) -> Result<(), Fail>
    requires { AreLawfulTrees trees.old }
    ensures { OnOk result (AreLawfulTrees trees.new) }
{
    if statement.is_empty() {
        return Ok(());
    }
    let tree = tree(alloc, statement)?;
    trees.push(tree)?;
    Ok(())
}

pub(crate) fn number(text: &str) -> Result<usize, Fail> {
    match text.parse::<usize>() {
        Ok(number) => Ok(number),
        Err(_) => Err(Fail::from("no number")),
    }
}

fn times(alloc: Global, asked: &str) -> Result<Command, Fail>
    ensures { IfOk result HasReadTrees }
{
    let statements = repeated(alloc, asked)?;
    post(alloc, statements.as_str())
}

// So many of a statement.
fn repeated(alloc: Global, asked: &str) -> Result<String, Fail> {
    let (count, statement) = first_word(asked);
    let count = number(count)?;
    let mut statements = String::new(alloc);
    for _ in 0..count {
        statements.push_str(statement)?;
        statements.push(';')?;
    }
    Ok(statements)
}

fn many(alloc: Global, asked: &str) -> Result<Command, Fail>
    ensures { IfOk result HasReadTrees }
{
    let statements = numbered(alloc, asked)?;
    post(alloc, statements.as_str())
}

// So many statements from a number on.
fn numbered(alloc: Global, asked: &str) -> Result<String, Fail> {
    let (first, count) = first_word(asked);
    let first = number(first)?;
    let end = first.saturating_add(number(count)?);
    let mut statements = String::new(alloc);
    for k in first..end {
        push_nth(alloc, &mut statements, k)?;
    }
    Ok(statements)
}

fn push_nth(alloc: Global, statements: &mut String, k: usize) -> Result<(), Fail> {
    let statement = nth_of_many(alloc, k)?;
    statements.push_str(statement.as_str())?;
    statements.push(';')?;
    Ok(())
}

// The statement of that number, which refers to the one before.
fn nth_of_many(alloc: Global, k: usize) -> Result<String, Fail> {
    if k == 0 {
        return Ok(String::from_str(alloc, "v/0 a/1 00000000-0000-4000-8000-000000000000")?);
    }
    let before = k.saturating_sub(1);
    Ok(format!(in alloc;
        "v/{k} {before:08}-0000-4000-8000-000000000000 {k:08}-0000-4000-8000-000000000000"
    )?)
}

fn tree(alloc: Global, statement: &str) -> Result<Tree, Fail>
    ensures { IfOk result (λ tree. IsLawfulTree (view tree)) }
{
    let text = statement_text(alloc, statement)?;
    Ok(read(alloc, text.as_bytes())?)
}

fn statement_text(alloc: Global, short: &str) -> Result<String, Fail> {
    let Some((verb, behind)) = short.split_once(' ') else {
        return expanded(alloc, short);
    };
    let (object, id) = first_word(behind);
    let text = written_out(alloc, verb, object, id)?;
    expanded(alloc, text.as_str())
}

// The statement of this verb, about an activity or a statement, with its own id if it has one.
fn written_out<'a>(
    alloc: Global,
    verb: &'a str,
    object: &'a str,
    id: &'a str,
) -> Result<String, Fail> {
    let verb = match verb {
        "voided" => "adlnet.gov/expapi/verbs/voided",
        other => other,
    };
    let kind = if object.contains('/') {
        r#""id":"http://"#
    } else {
        r#""objectType":"StatementRef","id":""#
    };
    let (before, behind) = if id.is_empty() {
        ("", "")
    } else {
        (r#""id":""#, r#"","#)
    };
    let parts = [
        "{",
        before,
        id,
        behind,
        r#""actor":{"mbox":"mailto:a@b"},"verb":{"id":"http://"#,
        verb,
        r#""},"object":{"#,
        kind,
        object,
        r#""}}"#,
    ];
    joined(alloc, &parts)
}

fn joined(alloc: Global, parts: &[&str]) -> Result<String, Fail> {
    let mut text = String::new(alloc);
    for part in parts {
        text.push_str(part)?;
    }
    Ok(text)
}

// The text with its ids in full.
fn expanded(alloc: Global, text: &str) -> Result<String, Fail> {
    let mut whole = String::from_str(alloc, text)?;
    for digit in ["1", "2", "3", "4", "5", "6", "7", "8", "9"] {
        whole = expanded_by(alloc, whole.as_str(), digit)?;
    }
    Ok(whole)
}

// The text with the id of a digit in full.
fn expanded_by(alloc: Global, text: &str, digit: &str) -> Result<String, Fail> {
    let short = "Zz".replace(alloc, "z", digit)?;
    let id = "zzzzzzzz-zzzz-4zzz-8zzz-zzzzzzzzzzzz".replace(alloc, "z", digit)?;
    Ok(text.replace(alloc, short.as_str(), id.as_str())?)
}

fn told(alloc: Global, word: &str, status: u16, body: &[u8]) -> Result<String, Fail> {
    let text = str::from_utf8(body)?;
    if word == "get" && text.starts_with("{\"statements\":") {
        list(alloc, body)
    } else if text.is_empty() || word == "many" || status == 507 {
        Ok(String::new(alloc))
    } else {
        Ok(format!(in alloc; " {text}")?)
    }
}

fn list(alloc: Global, body: &[u8]) -> Result<String, Fail> {
    let body = read(alloc, body)?;
    let digits = list_text(alloc, &body);
    drop(body);
    digits
}

fn list_text(alloc: Global, body: &Tree) -> Result<String, Fail> {
    let Some(Tree::List(statements)) = body.get("statements") else {
        return Err(Fail::from("no array"));
    };
    let more = words(body, "more")?;
    let digits = digits_of(alloc, statements)?;
    Ok(format!(in alloc; " [{digits}]{more}")?)
}

fn digits_of(alloc: Global, statements: &Items<Tree>) -> Result<String, Fail> {
    let mut digits = String::new(alloc);
    for statement in statements.iter() {
        digits.push(digit_of(statement)?)?;
    }
    Ok(digits)
}

// The last digit of the first part of a statement's id.
fn digit_of(statement: &Tree) -> Result<char, Fail> {
    Ok(words(statement, "id")?.chars().nth(7).ok_or("no id")?)
}

fn words<'a>(tree: &'a Tree, name: &str) -> Result<&'a str, Fail> {
    match tree.get(name) {
        Some(Tree::Words(text)) => Ok(text.as_str()),
        _ => Err(Fail::from("no string")),
    }
}
