ghost use Rattle.std.specs.Prelude.{◌≡◌, ◌≤◌, ◌+◌, ◌-◌, ◌^◌, ◌↔◌, ◌++◌, ◌∷◌, [], Some, None, All, length, min, option_to_list, vec_capacity, IfOk};
ghost use Rattle.lrs_in_memory_doors.specs.Clock.{reading_at};
ghost use Rattle.lrs_disk.specs.Door.{IfJoined, Brings, HasNextCause, name_joined, is_closed, link_returned, with_returned, IsFailed};
ghost use Rattle.lrs_in_memory_doors.specs.MemLink.{IsUnusedLink};
ghost use Rattle.lrs_disk.specs.Readings.{AddsReading};
ghost use Rattle.lrs_in_memory.specs.Schedule.{IsDue, IsNext};

use crate::clock::Clock;
use crate::link::MemLink;
use lrs_disk::{Door, Link, Next};
use lrs_in_memory::{Memory, Plan};
use std::alloc::Global;
use std::collections::VecDeque;

/// A door in memory: it gives the links of a list, and keeps those that are given back.
#[derive(Drop)]
pub struct MemDoor {
    coming: VecDeque<MemLink>,
    out: Option<u64>,
    returned: Vec<MemLink>,
    clock: Clock,
    plan: Plan,
    closed: bool,
    ghost unused: { All IsUnusedLink coming.items },
    ghost room: { length returned.items + length (option_to_list out) + length coming.items ≤ vec_capacity returned },
}

impl MemDoor {
    ghost use Rattle.lrs_in_memory_doors.specs.MemDoor.{coming_of, returned_of, clock_of, shown_of, schedule_of, IsUntouched};

    /// A door that gives these links, one after the other, and names each by its number. Its clock shows the numbers of
    /// `clock`, at the end the last one again, or 0 if there are none. The calls of `next` with the numbers in
    /// `failing` fail.
    pub fn new(
        alloc: Global,
        links: Vec<MemLink>,
        clock: Vec<u64>,
        failing: Vec<u64>,
    ) -> Result<Self, Memory>
        requires unused { All IsUnusedLink links.items }
        ensures coming { IfOk result (λ d. coming_of d ≡ links.items) }
        ensures returned { IfOk result (λ d. returned_of d ≡ []) }
        ensures clock { IfOk result (λ d. clock_of d ≡ clock.items) }
        ensures shown { IfOk result (λ d. shown_of d ≡ 0) }
        ensures schedule { IfOk result (λ d. schedule_of d ≡ record { failing = failing.items; number = 0 }) }
        ensures untouched { IfOk result IsUntouched }
    {
        let returned = Vec::with_capacity(alloc, links.len())?;
        Ok(MemDoor {
            coming: VecDeque::from(links),
            out: None,
            returned,
            clock: Clock::new(clock),
            plan: Plan::new(failing),
            closed: false,
        })
    }

    /// The links that were given back.
    pub fn returned(&self) -> &[MemLink]
        ensures { result.now ≡ returned_of self.now }
    {
        &self.returned
    }
}

impl Door for MemDoor {
    type Link = MemLink;

    ghost use Rattle.lrs_in_memory_doors.specs.MemDoor.{coming_of, returned_of, out_of, clock_of, shown_of, schedule_of, faults_of, state_of, JoinsFirst};
    ghost use Rattle.lrs_in_memory_doors.specs.MemLink.{stream_of, taken_of, left_of, name_of, faults_of as link_faults_of};

    ghost state = { state_of };

    fn next(&mut self) -> Next<MemLink>
        requires { out_of self.old ≡ None }
        ensures streams { Brings (λ link. Some (stream_of link)) result (state_of self.old).streams
            (state_of self.new).streams }
        ensures unread { IfJoined result (λ link. left_of link ≡ stream_of link) }
        ensures unwritten { IfJoined result (λ link. taken_of link ≡ []) }
        ensures unfailed { IfJoined result (λ link. link_faults_of link ≡ 0) }
        ensures cause { HasNextCause (faults_of self.old) (faults_of self.new) result }
        ensures only { state_of self.new ≡ record (state_of self.old) {
          closed = is_closed result;
          out = name_joined name_of result;
          streams = (state_of self.new).streams;
          faults = (state_of self.new).faults;
        } }
        ensures fails { IsFailed result ↔ IsDue (schedule_of self.old) }
        ensures schedule { IsNext (schedule_of self.old) (schedule_of self.new) }
        ensures joins { JoinsFirst result (coming_of self.old) (coming_of self.new) (length (returned_of self.old)) }
        ensures same { (returned_of self.new ≡ returned_of self.old) × (clock_of self.new ≡ clock_of self.old)
            × (shown_of self.new ≡ shown_of self.old) }
    {
        self.closed = false;
        if self.plan.is_due() {
            self.plan.fail();
            return Next::Failed;
        }
        match self.coming.pop_front() {
            Some(mut link) => {
                link.name = self.returned.len() as u64;
                self.out = Some(link.name);
                Next::Joined(link)
            }
            None => {
                self.closed = true;
                Next::Closed
            }
        }
    }

    fn done(&mut self, link: MemLink)
        requires { out_of self.old ≡ Some (name_of link) }
        ensures state { state_of self.new ≡ with_returned (state_of self.old)
            (link_returned (Some (stream_of link)) (Some (taken_of link)) (link_faults_of link)) }
        ensures returned { returned_of self.new ≡ returned_of self.old ++ link ∷ [] }
        ensures coming { coming_of self.new ≡ coming_of self.old }
        ensures schedule { schedule_of self.new ≡ schedule_of self.old }
        ensures same { (clock_of self.new ≡ clock_of self.old) × (shown_of self.new ≡ shown_of self.old) }
    {
        self.out = None;
        self.returned.push_reserved(link);
    }

    fn now(&mut self) -> u64
        ensures read { AddsReading (state_of self.old).readings (state_of self.new).readings result }
        ensures only { state_of self.new ≡ record (state_of self.old) { readings = (state_of self.new).readings } }
        ensures shown { result ≡ reading_at (clock_of self.old) (shown_of self.old) }
        ensures number { shown_of self.new ≡ min (shown_of self.old + 1) (2 ^ 64 - 1) }
        ensures clock { clock_of self.new ≡ clock_of self.old }
        ensures schedule { schedule_of self.new ≡ schedule_of self.old }
        ensures same { (returned_of self.new ≡ returned_of self.old) × (coming_of self.new ≡ coming_of self.old) }
    {
        self.clock.show()
    }

    fn faults(&self) -> u64 {
        self.plan.faults
    }
}
