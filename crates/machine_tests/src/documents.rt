// What state documents are answered over one desk.
use crate::rows::{answered, check_rows, check_rows_in, first_wrong_of, founded, founded_in};
use lrs_in_memory::MemDisk;
use lrs_machine::Desk;
use std::alloc::Global;
use std::test::Fail;

// A text that isn't JSON, and objects that are merged three times, with their own type each time.
const MERGED: &str = r#"
admin document b => 404 {"error":"404"}
admin state put b text/plain abc => 204 kept
admin document b => 200 text/plain abc
admin state post b application/json {"a":1} => 400 {"error":"T1"}
admin document b => 200 text/plain abc
admin state post c application/json {"a":1,"b":2} => 204 kept
admin state post c application/json {"c":3,"a":0.0} => 204 kept
admin document c => 200 application/json {"a":0.0,"b":2,"c":3}
admin state post c Application/JSON;charset=utf-8 {"b":{"x":1}} => 204 kept
admin state post c application/json {"b":{"y":1},"d":"\u0064"} => 204 kept
admin document c => 200 application/json {"a":0.0,"b":{"y":1},"c":3,"d":"d"}
// the old one's type and the new one's, and each of the two as an object
admin state post c text/plain {"a":1} => 400 {"error":"T1"}
admin state post c - {"a":1} => 400 {"error":"T1"}
admin state post c text/plain x => 400 {"error":"T1"}
admin state post c application/json [1] => 400 {"error":"T2"}
admin state post c application/json => 400 {"error":"T2"}
admin state put d application/json [1] => 204 kept
admin state post d application/json {"a":1} => 400 {"error":"T2"}
admin state put d - {} => 204 kept
admin state post d application/json {} => 400 {"error":"T1"}
// what is put replaces, and what is posted where none is held is put
admin document d => 200 - {}
admin state put c - => 204 kept
admin document c => 200 -
admin state post e text/plain x => 204 kept
admin document e => 200 text/plain x
"#;

#[test]
fn a_document_is_put_and_merged(rt: HostRuntime) -> Result<(), Fail> {
    check_rows(rt.alloc(), MERGED)
}

// The same document put once more makes an entry, since it has a later moment then; a deletion of nothing makes none.
const LISTED: &str = r#"
admin ids - => 200 []
admin state put b text/plain 1 => 204 kept
admin state put a text/plain 2 => 204 kept
admin state put B text/plain 3 => 204 kept
admin state put é" text/plain 4 => 204 kept
admin ids - => 200 ["B","a","b","é\""]
admin ids - 1700000000000 => 200 []
admin ids - 1699999999999 => 200 ["B","a","b","é\""]
admin state_later put a text/plain 2 => 204 kept
admin ids - 1700000000000 => 200 ["a"]
admin ids - 1700000001000 => 200 []
// a registration is a value of its own, as that there is none, and so is an agent
admin state put a:Z1 text/plain 5 => 204 kept
admin state put a::c@d text/plain 6 => 204 kept
admin document a => 200 text/plain 2
admin document a:Z1 => 200 text/plain 5
admin document a::c@d => 200 text/plain 6
admin document a:Z2 => 404 {"error":"404"}
admin ids -:Z1 => 200 ["a"]
admin ids -:Z2 => 200 []
// nothing is dropped, then one, then all of a registration
admin drop c => 204
admin drop a:Z2 => 204
admin drop b => 204 kept
admin drop b => 204
admin ids - => 200 ["B","a","é\""]
admin drop -:Z1 => 204 kept
admin drop -:Z1 => 204
admin ids - => 200 ["B","a","é\""]
admin drop - => 204 kept
admin drop - => 204
admin ids - => 200 []
admin document a::c@d => 200 text/plain 6
// what was dropped can be written again, also by a post of any type
admin state post b text/plain x => 204 kept
admin document b => 200 text/plain x
// the empty state id is one
admin state put  text/plain y => 204 kept
admin ids - => 200 ["","b"]
admin drop  => 204 kept
admin ids - => 200 ["b"]
"#;

#[test]
fn documents_are_listed_and_dropped(rt: HostRuntime) -> Result<(), Fail> {
    check_rows(rt.alloc(), LISTED)
}

// Whoever is let in reads and writes all of them, and nobody else any.
const SHARED: &str = r#"
admin provider p.1 => 200 {"caller":0,"token":"00000000000000000000000000000005-1"} kept
provider state put b application/json {"p":1} => 204 kept
admin document b => 200 application/json {"p":1}
admin state post b application/json {"a":1} => 204 kept
operator state post b application/json {"o":1} => 204 kept
provider document b => 200 application/json {"p":1,"a":1,"o":1}
nobody document b => 401 {"error":"A1"}
nobody ids - => 401 {"error":"A1"}
nobody profile => 401 {"error":"A1"}
nobody state put b::x text/plain x => 401 {"error":"A1"}
nobody drop b => 401 {"error":"A1"}
provider drop b => 204 kept
admin document b => 404 {"error":"404"}
admin profile => 404 {"error":"404"}
provider profile => 404 {"error":"404"}
"#;

#[test]
fn documents_are_of_all_who_are_let_in(rt: HostRuntime) -> Result<(), Fail> {
    check_rows(rt.alloc(), SHARED)
}

// An address without an at sign is no agent's. It is told before the type, and the type before the length. A merged
// document may be longer than what is sent.
const LENGTHS: &str = r#"
admin state put b text/plain *1048576* => 204 kept
admin length b => 200 text/plain 1048576
admin state put b text/plain *1048577* => 413 {"error":"413"}
admin state put b *255* x => 204 kept
admin state put b *256* x => 400 {"error":"F4"}
admin state put b *256* *1048577* => 400 {"error":"F4"}
admin state put b::x *256* *1048577* => 400 {"error":"P6"}
admin drop b::x => 400 {"error":"P6"}
admin drop -::x => 400 {"error":"P6"}
admin state put c application/json {"a":"*600000*"} => 204 kept
admin state post c application/json {"b":"*600000*"} => 204 kept
admin length c => 200 application/json 1200015
"#;

#[test]
fn a_document_has_its_longest_type_and_length(rt: HostRuntime) -> Result<(), Fail> {
    check_rows_in(rt.alloc(), 5_000_000, LENGTHS)
}

const FILLING: &str = r#"
admin state put a application/json {"a":1}
admin state put b application/json [1]
"#;

// Where no entry finds room any more a deletion of nothing is accepted, and what can't be merged is told.
const FULL: &str = r#"
admin drop c => 204
admin document b => 200 application/json [1]
admin drop b => 507
admin state put b text/plain x => 507
admin state post b application/json {} => 400 {"error":"T2"}
admin state post b text/plain {} => 400 {"error":"T1"}
admin state post a application/json {"b":2} => 507
admin document a => 200 application/json {"a":1}
"#;

fn fill(alloc: Global, desk: &mut Desk<MemDisk>) -> Result<(), Fail> {
    for asked in FILLING.lines() {
        if !asked.is_empty() {
            answered(alloc, desk, asked)?;
        }
    }
    Ok(())
}

// How many bytes a store has behind those writes.
fn filled_length(alloc: Global) -> Result<u64, Fail> {
    let mut desk = founded(alloc, Vec::new(alloc))?;
    let filled = fill(alloc, &mut desk);
    let disk = match desk.close() {
        Ok(disk) => disk,
        Err((_, disk)) => disk,
    };
    let length = disk.bytes().len() as u64;
    drop(disk);
    filled?;
    Ok(length)
}

fn first_wrong_of_full(alloc: Global) -> Result<String, Fail> {
    let room = filled_length(alloc)?;
    let mut desk = founded_in(alloc, Vec::new(alloc), room.saturating_add(100))?;
    let wrong = match fill(alloc, &mut desk) {
        Ok(()) => first_wrong_of(alloc, &mut desk, FULL),
        Err(fail) => Err(fail),
    };
    drop(desk);
    wrong
}

#[test]
fn a_full_store_drops_nothing_and_tells_what_is_wrong(rt: HostRuntime) -> Result<(), Fail> {
    let wrong = first_wrong_of_full(rt.alloc())?;
    if wrong.is_empty() {
        Ok(())
    } else {
        Err(Fail::from(wrong))
    }
}
