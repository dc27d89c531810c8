//! One request of a conversation, and its response.
ghost use Rattle.std.specs.Prelude.{◌≡◌, List, ℕ, IfOk, Ok};
ghost use Rattle.lrs_command.specs.Commands.{HasReadTrees};
ghost use Rattle.lrs_http.specs.Links.{stream_left, HasWriteCause};
ghost use Rattle.lrs_record.specs.Entries.{IsLawfulCaller};
ghost use Rattle.lrs_routes.specs.Asked.{IsCommandOf, IsRoutedAs};
ghost use Rattle.lrs_turn.specs.Passes.{IsIdle};
ghost use Rattle.lrs_hall.specs.Acts.{ActsOn, limit_in};
ghost use Rattle.lrs_hall.specs.Conversation.{closes_after, finish_after};
ghost use Rattle.lrs_hall.specs.Responses.{IsFixed, route_response};
ghost use Rattle.lrs_hall.specs.Serving.{KeepsPass};
ghost use Rattle.lrs_hall.specs.Steps.{worker, Wrote, Exchanges, HasExchangeCause, Serves, exchanged_of, RefusesRequest, IsRefusalCause};

use crate::acting::{Looked, act, look};
use crate::admitted::{Admitted, was_let_in};
use crate::answering::{framing_response, route_response, write_fixed, write_reply};
use crate::{Draws, Finish};
use lrs_disk::{Disk, Door, Link};
use lrs_http::{LinkFault, Request, RequestRefused, read_request};
use lrs_json::Memory;
use lrs_machine::{Desk, Receipt, Record, Submission};
use lrs_routes::{RouteRefused, Routed, Routes};
use lrs_turn::{Pass, Turns};
use std::alloc::Global;
use std::sync::Wait;

/// What came of one turn of a conversation.
#[derive(Drop)]
pub(crate) enum Exchanged {
    /// A response, and more may come.
    Next(Receipt),
    /// The last response.
    Last(Receipt, Finish),
    /// There are no more responses.
    Silent(Finish),
}

// Answers a request without an act.
fn answer_fixed<L: Link>(
    link: &mut L,
    refused: RouteRefused,
    closes: bool,
) -> (Receipt, Result<(), LinkFault>)
    ensures fixed { (text : List ℕ) × IsFixed (route_response refused) closes result.0 text
        × Wrote text result.1 (L.taken link.old) (L.taken link.new) }
    ensures left_kept { L.left link.new ≡ L.left link.old }
    ensures stream_kept { L.stream link.new ≡ L.stream link.old }
    ensures name_kept { L.name link.new ≡ L.name link.old }
    ensures cause { HasWriteCause (L.fault_count link.old) (L.fault_count link.new) result.1 }
{
    let response = route_response(refused);
    let sent = write_fixed(link, &response, closes);
    (Receipt::plain(response.status), sent)
}

// Reads a request, and judges the form of its command.
fn submission(alloc: Global, routed: &Routed, request: &Request) -> Result<Submission, Memory>
    ensures is { IfOk result (IsCommandOf request.now routed.now) }
    ensures trees { IfOk result HasReadTrees }
{
    let command = routed.command(alloc, request)?;
    Submission::of(alloc, command)
}

// Reads a request outside the turn, and takes the turn for its act. The act itself looks at the caller first. What it
// left over is dropped behind the response, so that the client doesn't wait for that either.
fn serve_read<R: Wait, D: Disk, O: Door>(
    rt: &R,
    alloc: Global,
    turns: &Turns<Desk<D>>,
    pass: &mut Pass<Record>,
    door: &mut O,
    link: &mut O::Link,
    draws: &mut Draws,
    routed: Routed,
    request: &Request,
    closes: bool,
) -> (Receipt, Result<(), LinkFault>)
    requires idle { IsIdle turns.now pass.old }
    requires routed { IsRoutedAs request.now routed }
    requires lawful { IsLawfulCaller routed.caller }
    ensures served { Serves (limit_in pass.old.marks) closes request.now
        (worker draws.old pass.old (O.state door.old).readings) (worker draws.new pass.new (O.state door.new).readings)
        result.0 result.1 (O.Link.taken link.old) (O.Link.taken link.new) }
    ensures pass { KeepsPass turns.now pass.old pass.new }
    ensures door { O.state door.new ≡ record (O.state door.old) { readings = (O.state door.new).readings } }
    ensures left_kept { O.Link.left link.new ≡ O.Link.left link.old }
    ensures stream_kept { O.Link.stream link.new ≡ O.Link.stream link.old }
    ensures name_kept { O.Link.name link.new ≡ O.Link.name link.old }
    ensures cause { HasWriteCause (O.Link.fault_count link.old) (O.Link.fault_count link.new) result.1 }
{
    match submission(alloc, &routed, request) {
        Ok(command) => {
            let (reply, receipt, spent) = act(rt, turns, pass, door, draws, routed.caller, command);
            let sent = write_reply(link, &reply, closes);
            reply.discard();
            spent.discard();
            (receipt, sent)
        }
        Err(Memory) => {
            routed.discard();
            answer_fixed(link, RouteRefused::Memory, closes)
        }
    }
}

// Answers a request that has a route. Where it has a body, the caller is looked at before that is read, unless this
// connection saw it let into the area already: who was let in stays let in.
fn serve_routed<R: Wait, D: Disk, O: Door>(
    rt: &R,
    alloc: Global,
    turns: &Turns<Desk<D>>,
    pass: &mut Pass<Record>,
    door: &mut O,
    link: &mut O::Link,
    draws: &mut Draws,
    admitted: &mut Option<Admitted>,
    routed: Routed,
    request: &Request,
    closes: bool,
) -> (Receipt, Result<(), LinkFault>)
    requires idle { IsIdle turns.now pass.old }
    requires routed { IsRoutedAs request.now routed }
    requires lawful { IsLawfulCaller routed.caller }
    ensures served { Serves (limit_in pass.old.marks) closes request.now
        (worker draws.old pass.old (O.state door.old).readings) (worker draws.new pass.new (O.state door.new).readings)
        result.0 result.1 (O.Link.taken link.old) (O.Link.taken link.new) }
    ensures pass { KeepsPass turns.now pass.old pass.new }
    ensures door { O.state door.new ≡ record (O.state door.old) { readings = (O.state door.new).readings } }
    ensures left_kept { O.Link.left link.new ≡ O.Link.left link.old }
    ensures stream_kept { O.Link.stream link.new ≡ O.Link.stream link.old }
    ensures name_kept { O.Link.name link.new ≡ O.Link.name link.old }
    ensures cause { HasWriteCause (O.Link.fault_count link.old) (O.Link.fault_count link.new) result.1 }
{
    if request.body.is_empty() || was_let_in(admitted, &routed) {
        return serve_read(
            rt, alloc, turns, pass, door, link, draws, routed, request, closes,
        );
    }
    match look(rt, turns, pass, door, draws, routed) {
        Looked::LetIn(routed) => {
            *admitted = Admitted::of(&routed).ok();
            serve_read(
                rt, alloc, turns, pass, door, link, draws, routed, request, closes,
            )
        }
        Looked::Barred(reply, receipt) => {
            let sent = write_reply(link, &reply, closes);
            reply.discard();
            (receipt, sent)
        }
    }
}

// Answers a request, and says whether the response went out whole.
fn serve<R: Wait, D: Disk, O: Door>(
    rt: &R,
    alloc: Global,
    turns: &Turns<Desk<D>>,
    pass: &mut Pass<Record>,
    door: &mut O,
    link: &mut O::Link,
    routes: &Routes,
    draws: &mut Draws,
    admitted: &mut Option<Admitted>,
    request: Request,
    closes: bool,
) -> (Receipt, Result<(), LinkFault>)
    requires { IsIdle turns.now pass.old }
    ensures served { Serves (limit_in pass.old.marks) closes request
        (worker draws.old pass.old (O.state door.old).readings) (worker draws.new pass.new (O.state door.new).readings)
        result.0 result.1 (O.Link.taken link.old) (O.Link.taken link.new) }
    ensures pass { KeepsPass turns.now pass.old pass.new }
    ensures door { O.state door.new ≡ record (O.state door.old) { readings = (O.state door.new).readings } }
    ensures left_kept { O.Link.left link.new ≡ O.Link.left link.old }
    ensures stream_kept { O.Link.stream link.new ≡ O.Link.stream link.old }
    ensures name_kept { O.Link.name link.new ≡ O.Link.name link.old }
    ensures cause { HasWriteCause (O.Link.fault_count link.old) (O.Link.fault_count link.new) result.1 }
{
    match routes.routed(alloc, &request) {
        Ok(routed) => {
            let served = serve_routed(
                rt, alloc, turns, pass, door, link, draws, admitted, routed, &request, closes,
            );
            request.discard();
            served
        }
        Err(refused) => {
            request.discard();
            answer_fixed(link, refused, closes)
        }
    }
}

// What a turn was that ended with a response.
fn answered(receipt: Receipt, sent: Result<(), LinkFault>, closes: bool, due: Finish) -> Exchanged
    ensures { result ≡ exchanged_of receipt sent closes due }
{
    match sent {
        Err(LinkFault) => Exchanged::Last(receipt, Finish::LinkFault),
        Ok(()) => {
            if closes {
                Exchanged::Last(receipt, due)
            } else {
                Exchanged::Next(receipt)
            }
        }
    }
}

// How a conversation ends when no request could be read.
fn finish_after(refused: RequestRefused) -> Finish
    ensures { result ≡ finish_after refused }
{
    match refused {
        RequestRefused::End => Finish::Ended,
        RequestRefused::Cut => Finish::Cut,
        RequestRefused::LinkFault => Finish::LinkFault,
        RequestRefused::Memory => Finish::Memory,
        RequestRefused::Malformed { rule: _ }
        | RequestRefused::HeadTooLong
        | RequestRefused::Coded
        | RequestRefused::NoLength
        | RequestRefused::BodyTooLong => Finish::Closed,
    }
}

// Answers what is no request, if it gets a response.
fn refuse<L: Link>(link: &mut L, refused: RequestRefused) -> Exchanged
    ensures refused { RefusesRequest refused (L.taken link.old) (L.taken link.new) result }
    ensures left_kept { L.left link.new ≡ L.left link.old }
    ensures stream_kept { L.stream link.new ≡ L.stream link.old }
    ensures name_kept { L.name link.new ≡ L.name link.old }
    ensures cause { IsRefusalCause refused (L.fault_count link.old) (L.fault_count link.new) result }
{
    let due = finish_after(refused);
    match framing_response(refused) {
        Some(response) => {
            let sent = write_fixed(link, &response, true);
            answered(Receipt::plain(response.status), sent, true, due)
        }
        None => Exchanged::Silent(due),
    }
}

// Whether the connection ends after the response to a request.
fn closes_after(most: u16, request: &Request) -> bool
    ensures { result ≡ closes_after most (Ok request.now) }
{
    request.closes || most == 1
}

/// Reads one request and answers it, or ends the conversation. At most `most` requests may still come. `admitted` is the
/// caller that this connection saw let in last.
pub(crate) fn exchange<R: Wait, D: Disk, O: Door>(
    rt: &R,
    alloc: Global,
    turns: &Turns<Desk<D>>,
    pass: &mut Pass<Record>,
    door: &mut O,
    link: &mut O::Link,
    kept: &mut Vec<u8>,
    routes: &Routes,
    draws: &mut Draws,
    admitted: &mut Option<Admitted>,
    most: u16,
) -> Exchanged
    requires { IsIdle turns.now pass.old }
    ensures exchanged { Exchanges (ActsOn (limit_in pass.old.marks)) most
        (stream_left kept.old.items (O.Link.left link.old)) (stream_left kept.new.items (O.Link.left link.new))
        (O.Link.taken link.old) (O.Link.taken link.new)
        (worker draws.old pass.old (O.state door.old).readings)
        (worker draws.new pass.new (O.state door.new).readings) result }
    ensures pass { KeepsPass turns.now pass.old pass.new }
    ensures door { O.state door.new ≡ record (O.state door.old) { readings = (O.state door.new).readings } }
    ensures stream_kept { O.Link.stream link.new ≡ O.Link.stream link.old }
    ensures name_kept { O.Link.name link.new ≡ O.Link.name link.old }
    ensures cause { HasExchangeCause (O.Link.fault_count link.old) (O.Link.fault_count link.new) result }
{
    match read_request(alloc, link, kept) {
        Ok(request) => {
            let closes = closes_after(most, &request);
            let (receipt, sent) = serve(
                rt, alloc, turns, pass, door, link, routes, draws, admitted, request, closes,
            );
            answered(receipt, sent, closes, Finish::Closed)
        }
        Err(refused) => refuse(link, refused),
    }
}
