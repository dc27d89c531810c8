//! Acts under the turn: the desk is taken, answers, and is given back.
ghost use Rattle.std.specs.Prelude.{◌≡◌};
ghost use Rattle.lrs_command.specs.Commands.{HasReadTrees};
ghost use Rattle.lrs_machine.specs.Acts.{LineGoesOn};
ghost use Rattle.lrs_record.specs.Entries.{IsLawfulCaller};
ghost use Rattle.lrs_turn.specs.Passes.{HasTurn, IsIdle};
ghost use Rattle.lrs_hall.specs.Acts.{ActsAt, ActsOn, limit_in, seen_of};
ghost use Rattle.lrs_hall.specs.Draws.{draw_at, next_draws};
ghost use Rattle.lrs_hall.specs.Serving.{KeepsPass};
ghost use Rattle.lrs_hall.specs.Steps.{IsSaid, IsInTurn, Looks, pass_behind, seen_with, worker};

use crate::Draws;
use lrs_command::{BAD_REQUEST, Command};
use lrs_disk::{Disk, Door};
use lrs_machine::{Desk, Receipt, Record, Spent, Submission};
use lrs_names::Draw;
use lrs_record::Caller;
use lrs_replies::Reply;
use lrs_routes::Routed;
use lrs_rules::Rule;
use lrs_turn::{Pass, Turns};
use std::sync::Wait;

// Tells the pass what an act left of the line: its own record, or nothing new.
fn note<D: Disk>(turns: &Turns<Desk<D>>, pass: &mut Pass<Record>, desk: &Desk<D>, receipt: &Receipt)
    requires turn { HasTurn turns.now pass.old }
    requires line { LineGoesOn receipt.now pass.old.line desk.now.line }
    ensures turn { HasTurn turns.now pass.new }
    ensures pass { pass.new ≡ pass_behind desk.now.line receipt.now pass.old }
{
    if receipt.changed() {
        turns.commit(pass, desk);
        return;
    }
    turns.point(pass, desk);
}

// Acts on the desk that was taken, and gives it back. What the act left over is handed on: it is to be dropped when
// others may have the turn.
fn act_and_give<D: Disk>(
    turns: &Turns<Desk<D>>,
    pass: &mut Pass<Record>,
    mut desk: Desk<D>,
    caller: Caller,
    command: Submission,
    clock: u64,
    draw: &Draw,
) -> (Reply, Receipt, Spent)
    requires taken { IsInTurn D.row.coded D.fault_count D.time turns.now desk pass.old }
    requires caller { IsLawfulCaller caller }
    requires command { HasReadTrees command }
    ensures pass { KeepsPass turns.now pass.old pass.new }
    ensures acts { ActsAt desk.line (limit_in pass.old.marks) caller command draw.now result.0 result.1
        (seen_of pass.old) (seen_of pass.new) }
    ensures clock { result.1.clock ≡ clock }
    ensures said { IsSaid result.0 }
{
    let (reply, receipt) = desk.act(caller, command, clock, draw);
    note(turns, pass, &desk, &receipt);
    let spent = desk.take_spent();
    turns.give(pass, desk);
    (reply, receipt, spent)
}

/// Answers a command of a caller: waits for the turn, acts, and gives the desk back. The clock is read and the draw
/// made before that, and what rests on the command alone was found when it was submitted. What the act left over is
/// handed on, so that nobody waits until it is dropped.
pub(crate) fn act<R: Wait, D: Disk, O: Door>(
    rt: &R,
    turns: &Turns<Desk<D>>,
    pass: &mut Pass<Record>,
    door: &mut O,
    draws: &mut Draws,
    caller: Caller,
    command: Submission,
) -> (Reply, Receipt, Spent)
    requires idle { IsIdle turns.now pass.old }
    requires caller { IsLawfulCaller caller }
    requires command { HasReadTrees command }
    ensures pass { KeepsPass turns.now pass.old pass.new }
    ensures acts { ActsOn (limit_in pass.old.marks) caller command (draw_at draws.old) result.0 result.1
        (seen_with pass.old (O.state door.old).readings) (seen_with pass.new (O.state door.new).readings) }
    ensures draws { draws.new ≡ next_draws draws.old }
    ensures said { IsSaid result.0 }
    ensures door { O.state door.new ≡ record (O.state door.old) { readings = (O.state door.new).readings } }
{
    let clock = door.now();
    let draw = draws.next();
    let desk = turns.take(rt, pass);
    act_and_give(turns, pass, desk, caller, command, clock, &draw)
}

/// What came of a request whose caller was looked at.
#[derive(Drop)]
pub(crate) enum Looked {
    /// The caller is let in.
    LetIn(Routed),
    /// It isn't, and was answered.
    Barred(Reply, Receipt),
}

/// Looks whether the caller of a request is let in. If it isn't, it is answered in the same turn. Each command of the
/// route's area would be answered so, thus the request's own need not be known.
pub(crate) fn look<R: Wait, D: Disk, O: Door>(
    rt: &R,
    turns: &Turns<Desk<D>>,
    pass: &mut Pass<Record>,
    door: &mut O,
    draws: &mut Draws,
    routed: Routed,
) -> Looked
    requires idle { IsIdle turns.now pass.old }
    requires caller { IsLawfulCaller routed.caller }
    ensures pass { KeepsPass turns.now pass.old pass.new }
    ensures looked { Looks (limit_in pass.old.marks) routed (worker draws.old pass.old (O.state door.old).readings)
        (worker draws.new pass.new (O.state door.new).readings) result }
    ensures door { O.state door.new ≡ record (O.state door.old) { readings = (O.state door.new).readings } }
{
    let desk = turns.take(rt, pass);
    if desk.lets_in(&routed.caller, routed.area) {
        turns.put_back(pass, desk);
        return Looked::LetIn(routed);
    }
    let clock = door.now();
    let draw = draws.next();
    let command = Submission::unjudged(Command::Refused {
        area: routed.area,
        status: BAD_REQUEST,
        rule: Rule::B(1),
    });
    let (reply, receipt, spent) = act_and_give(
        turns,
        pass,
        desk,
        routed.caller,
        command,
        clock,
        &draw,
    );
    spent.discard();
    Looked::Barred(reply, receipt)
}
