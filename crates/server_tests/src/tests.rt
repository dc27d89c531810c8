ghost use Rattle.std.specs.Prelude.{◌≡◌, ◌<◌, None, All, IfOk, length};
ghost use Rattle.lrs_in_memory_doors.specs.MemDoor.{out_of};
ghost use Rattle.lrs_turn.specs.Passes.{IsIdle};

use crate::desks::founded;
use crate::served::finish_text;
use lrs_disk::{Door, Next};
use lrs_hall::{Desk, Draws, Record, Talk, converse};
use lrs_in_memory::MemDisk;
use lrs_in_memory_doors::{MemDoor, MemLink};
use lrs_routes::Routes;
use lrs_turn::{Pass, Turns};
use std::alloc::Global;
use std::sync::Wait;
use std::test::Fail;

// A door that gives one connection, which brings so many requests and takes so many bytes.
fn door_of(alloc: Global, requests: usize, room: usize) -> Result<MemDoor, Fail>
    ensures { IfOk result (λ door. out_of door ≡ None) }
{
    let stream = "GET /xapi/about HTTP/1.1\r\n\r\n"
        .repeat(alloc, requests)?
        .as_bytes()
        .to_vec(alloc)?;
    let link = MemLink::new(alloc, stream, Vec::new(alloc), room, Vec::new(alloc))?;
    let links = vec![in alloc; link]?;
    Ok(MemDoor::new(alloc, links, Vec::new(alloc), Vec::new(alloc))?)
}

// How a conversation ended, how many responses it had, and what went out.
fn held_text(alloc: Global, talk: &Talk, link: &MemLink) -> Result<String, Fail> {
    let finish = finish_text(talk.finish());
    let responses = talk.responses();
    let taken = str::from_utf8(link.taken())?;
    Ok(format!(in alloc; "{finish} {responses} {taken}")?)
}

// What came of the one connection of a door, held by the worker that has this pass.
fn conversed_over<R: Wait>(
    rt: &R,
    alloc: Global,
    turns: &Turns<Desk<MemDisk>>,
    pass: &mut Pass<Record>,
    door: &mut MemDoor,
    routes: &Routes,
) -> Result<String, Fail>
    requires out { out_of door.old ≡ None }
    requires idle { IsIdle turns.now pass.old }
    ensures { IsIdle turns.now pass.new }
{
    match door.next() {
        Next::Joined(link) => {
            let mut link = link;
            let mut draws = Draws::new([0; 32], 1);
            let talk = converse(rt, alloc, turns, pass, door, &mut link, routes, &mut draws);
            let held = held_text(alloc, &talk, &link);
            drop(talk);
            drop(draws);
            drop(link);
            held
        }
        Next::Closed | Next::Failed => Err(Fail::from("no link")),
    }
}

fn conversed_of<R: Wait>(
    rt: &R,
    alloc: Global,
    turns: &Turns<Desk<MemDisk>>,
    pass: &mut Pass<Record>,
    requests: usize,
    room: usize,
) -> Result<String, Fail>
    requires { IsIdle turns.now pass.old }
    ensures { IsIdle turns.now pass.new }
{
    let routes = Routes::new(alloc)?;
    match door_of(alloc, requests, room) {
        Ok(mut door) => {
            let held = conversed_over(rt, alloc, turns, pass, &mut door, &routes);
            drop(door);
            drop(routes);
            held
        }
        Err(fail) => {
            drop(routes);
            Err(fail)
        }
    }
}

// The same with the first of these passes.
fn conversed_by_first<R: Wait>(
    rt: &R,
    alloc: Global,
    turns: &Turns<Desk<MemDisk>>,
    passes: &mut [Pass<Record>],
    requests: usize,
    room: usize,
) -> Result<String, Fail>
    requires some { 0 < length passes.old }
    requires idle { All (λ pass. IsIdle turns.now pass) passes.old }
    ensures idle { All (λ pass. IsIdle turns.now pass) passes.new }
    ensures len { length passes.new ≡ length passes.old }
{
    conversed_of(rt, alloc, turns, &mut passes[0], requests, room)
}

// What came of a connection over a new desk.
fn conversed<R: Wait>(rt: &R, alloc: Global, requests: usize, room: usize) -> Result<String, Fail> {
    match Turns::new(alloc, founded(alloc)?, 1) {
        Ok((turns, mut passes)) => {
            let held = conversed_by_first(rt, alloc, &turns, passes.as_mut_slice(), requests, room);
            drop(turns.close(passes));
            held
        }
        Err(refused) => {
            drop(refused);
            Err(Fail::from("no turns"))
        }
    }
}

// Fails with what was found, if it isn't this.
fn check(found: String, expected: &str) -> Result<(), Fail> {
    if found.as_str() == expected {
        Ok(())
    } else {
        Err(Fail::from(found))
    }
}

// There is room for half of the response.
#[test]
fn a_link_that_fails_ends_its_conversation(rt: HostRuntime) -> Result<(), Fail> {
    check(conversed(&rt, rt.alloc(), 1, 12)?, "fault 1 HTTP/1.1 200")
}

// A response to `GET /xapi/about`, in parts: between them stands what says that the connection ends.
const ANSWER: [&str; 2] = [
    "HTTP/1.1 200 OK\r\nContent-Type: application/json\r\nContent-Length: 21\r\nX-Experience-API-Version: 1.0.3\r\n",
    "\r\n{\"version\":[\"1.0.3\"]}",
];

const CLOSE: &str = "Connection: close\r\n";

// What is held where so many requests come: how it ends, and so many responses, the last of them with this field.
fn held_of(alloc: Global, front: &str, responses: usize, field: &str) -> Result<String, Fail> {
    let [head, body] = ANSWER;
    let answer = format!(in alloc; "{head}{body}")?;
    let last = format!(in alloc; "{head}{field}{body}")?;
    let answers = answer.repeat(alloc, responses.saturating_sub(1))?;
    Ok(format!(in alloc; "{front} {responses} {answers}{last}")?)
}

// How many requests come, how the conversation ends, how many responses there are, and the last one's further field.
const THOUSANDS: [(usize, &str, usize, &str); 3] = [
    (999, "ended", 999, ""),
    (1_000, "closed", 1_000, CLOSE),
    (1_001, "closed", 1_000, CLOSE),
];

// Fails with the first number of requests of which something else is held.
fn check_thousands<R: Wait>(rt: &R, alloc: Global) -> Result<(), Fail> {
    for (requests, front, responses, field) in THOUSANDS.iter() {
        let held = conversed(rt, alloc, *requests, 999_999)?;
        if held.as_str() != held_of(alloc, front, *responses, field)?.as_str() {
            return Err(Fail::from(format!(in alloc; "{requests} requests")?));
        }
    }
    Ok(())
}

#[test]
fn a_conversation_has_a_thousand_requests(rt: HostRuntime) -> Result<(), Fail> {
    check_thousands(&rt, rt.alloc())
}

// The first two are of stream 0, the last is the first one of another. The first block is that of the published vector of
// the cipher: the zero key, the zero nonce. The others were computed by an independent program.
const DRAWS: [(u128, u128); 3] = [
    (
        0xade0_b876_903d_f1a0_e56a_5d40_28bd_8653,
        0xb819_d2bd_1aed_8da0_ccef_36a8_c70d_778b,
    ),
    (
        0x7c59_41da_8d48_5751_3fe0_2477_374a_d8b8,
        0xf4b8_436a_1ca1_1815_69b6_87c3_8665_eeb2,
    ),
    (
        0x0b7a_5580_7314_93d7_92ee_d4a4_36b9_9857,
        0x003f_3126_336f_38b8_4dde_ca0b_b8d6_d482,
    ),
];

fn drawn(draws: &mut Draws) -> (u128, u128) {
    let draw = draws.next();
    (draw.name, draw.secret)
}

#[test]
fn draws_are_the_words_of_a_stream(rt: HostRuntime) {
    let mut first = Draws::new([0; 32], 0);
    let mut other = Draws::new([0; 32], (1 << 32) + 5);
    assert!(rt; drawn(&mut first) == DRAWS[0]);
    assert!(rt; drawn(&mut first) == DRAWS[1]);
    assert!(rt; drawn(&mut other) == DRAWS[2]);
}
