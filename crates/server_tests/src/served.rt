//! One worker over one desk, and what it leaves of the connections of its door.
ghost use Rattle.std.specs.Prelude.{◌≡◌, None, All, IfOk, length};
ghost use Rattle.lrs_in_memory_doors.specs.MemDoor.{out_of};
ghost use Rattle.lrs_in_memory_doors.specs.MemLink.{IsUnusedLink};

use crate::desks::{NOW, founded};
use lrs_hall::{Desk, Finish, ServeEnd, Talk, serve_all};
use lrs_in_memory::MemDisk;
use lrs_in_memory_doors::{MemDoor, MemLink};
use lrs_json::Items;
use std::alloc::Global;
use std::sync::Wait;
use std::test::Fail;
use std::thread::Threads;

// What one worker left.
#[derive(Drop)]
pub(crate) struct Served {
    doors: Vec<MemDoor>,
    talks: Items<Items<Talk>>,
    end: ServeEnd,
    // how many entries the desk has
    pub(crate) length: u64,
}

impl Served {
    // The conversation of this connection, if serving ended well.
    pub(crate) fn talk(&self, connection: usize) -> Result<&Talk, Fail> {
        if self.end != ServeEnd::Done {
            return Err(Fail::from("not done"));
        }
        let talks = self.talks.as_slice().first().ok_or("no talks")?;
        Ok(talks.as_slice().get(connection).ok_or("no talk")?)
    }

    pub(crate) fn link(&self, connection: usize) -> Result<&MemLink, Fail> {
        let door = self.doors.first().ok_or("no door")?;
        Ok(door.returned().get(connection).ok_or("no link")?)
    }

    // How a connection ended, and the status of each response, with `kept` behind it if an entry was made.
    pub(crate) fn told(&self, alloc: Global, connection: usize) -> Result<String, Fail> {
        let talk = self.talk(connection)?;
        let mut told = String::from_str(alloc, finish_text(talk.finish()))?;
        for receipt in talk.receipts() {
            let status = receipt.status();
            let kept = if receipt.entry().is_some() {
                " kept"
            } else {
                ""
            };
            told = format!(in alloc; "{told} {status}{kept}")?;
        }
        Ok(told)
    }
}

pub(crate) fn finish_text(finish: Finish) -> &'static str {
    match finish {
        Finish::Ended => "ended",
        Finish::Closed => "closed",
        Finish::Cut => "cut",
        Finish::LinkFault => "fault",
        Finish::Memory => "memory",
    }
}

// A link that brings this, in reads that end at these offsets, and takes so many bytes. These calls of it fail.
pub(crate) fn link_of(
    alloc: Global,
    stream: &str,
    cuts: &[usize],
    room: usize,
    failing: &[u64],
) -> Result<MemLink, Fail>
    ensures { IfOk result IsUnusedLink }
{
    let input = stream.as_bytes().to_vec(alloc)?;
    let cuts = cuts.to_vec(alloc)?;
    Ok(MemLink::new(alloc, input, cuts, room, failing.to_vec(alloc)?)?)
}

fn one_door(alloc: Global, links: Vec<MemLink>) -> Result<Vec<MemDoor>, Fail>
    requires unused { All IsUnusedLink links.items }
    ensures count { IfOk result (λ doors. length doors.items ≡ 1) }
    ensures out { IfOk result (λ doors. All (λ door. out_of door ≡ None) doors.items) }
{
    let door = MemDoor::new(alloc, links, vec![in alloc; NOW]?, Vec::new(alloc))?;
    Ok(vec![in alloc; door]?)
}

fn serve<R: Threads + Wait + Sync>(
    rt: &R,
    alloc: Global,
    desk: Desk<MemDisk>,
    doors: Vec<MemDoor>,
) -> Served
    requires count { length doors.items ≡ 1 }
    requires out { All (λ door. out_of door ≡ None) doors.items }
{
    let (desk, doors, talks, end) = serve_all(rt, alloc, desk, doors, 2, [0; 32]);
    let length = desk.length();
    drop(desk);
    Served {
        doors,
        talks,
        end,
        length,
    }
}

// What is left of two connections at most over a new desk.
pub(crate) fn serve_links<R: Threads + Wait + Sync>(
    rt: &R,
    alloc: Global,
    links: Vec<MemLink>,
) -> Result<Served, Fail>
    requires unused { All IsUnusedLink links.items }
{
    let doors = one_door(alloc, links)?;
    match founded(alloc) {
        Ok(desk) => Ok(serve(rt, alloc, desk, doors)),
        Err(fail) => {
            drop(doors);
            Err(fail)
        }
    }
}
