// Commands as they are submitted.
ghost use Rattle.std.specs.Prelude.{◌≡◌, IfOk, None};
ghost use Rattle.lrs_command.specs.declared.command.Command.TheVariants as commands;
ghost use Rattle.lrs_made.specs.LrsHistoryRefusals.{bad_form};
ghost use Rattle.lrs_refusals.specs.Submissions.{IsFormOf, IsWrittenOf};

use crate::refusals::bad_form;
use crate::written::{PreparedTexts, closing_of, texts_of};
use lrs_command::{Area, Command};
use lrs_json::Memory;
use lrs_record::Write;
use lrs_replies::Refusal;
use std::alloc::Global;
use std::marker::Model;
use std::snapshot::Snapshot;

/// A command as it is submitted, seen as that command. Whatever rests on it alone, and not on the history, may be made
/// before the history is looked at: whether its form is refused, what closes the text of its entry, and the texts that
/// are held of its statements.
#[derive(Drop)]
pub struct Submission {
    form: Form,
    /// The command, for clauses alone: of one that is refused nothing is left.
    command: Snapshot<Command>,
}

/// What is known of a command's form.
#[derive(Drop)]
pub enum Form {
    /// Nothing, or there is nothing to be known.
    Unjudged(Command),
    /// It is unbroken, and this was written of it.
    Judged {
        write: Write,
        written: PreparedTexts,
    },
    /// This is what a caller is told who is let into the area, whatever the history.
    Refused {
        area: Area,
        refusal: Refusal,
    },
}

impl Model for Submission {
    ghost use Rattle.std.specs.Coded.{codes};
    ghost use Rattle.lrs_json.specs.contracts.tree.Tree as tree;
    ghost use Rattle.lrs_command.specs.declared.command.Command.{Command as SpecCommand};
    ghost use Rattle.lrs_refusals.specs.Submissions.{IsFormOf};

    ghost Value = { SpecCommand };

    ghost coded = { Prim.hlevel (codes, tree.the_row.coded) };

    ghost view = { λ s. s.command.value };

    ghost invariant = { λ s. IsFormOf s.command.value s.form };
}

impl Submission {
    /// Judges the form of a command. What is refused is dropped; of what isn't, all is written that rests on it alone.
    pub fn of(alloc: Global, command: Command) -> Result<Submission, Memory>
        ensures { IfOk result (λ submission. submission ≡ command) }
    {
        let same = Snapshot::of(&command);
        match command {
            Command::Write(write) => judged(alloc, write, same),
            Command::Read(read) => Ok(Submission::unjudged(Command::Read(read))),
            Command::Refused { area, status, rule } => {
                Ok(Submission::unjudged(Command::Refused { area, status, rule }))
            }
        }
    }

    /// The command as it is. Its form is judged when it is answered.
    pub fn unjudged(command: Command) -> Submission
        ensures { result ≡ command }
    {
        let same = Snapshot::of(&command);
        Submission {
            form: Form::Unjudged(command),
            command: same,
        }
    }

    /// What is known of its form.
    pub fn into_form(self) -> Form
        ensures { IsFormOf self result }
    {
        let Submission { form, command: _ } = self;
        form
    }

    /// Drops it. Crates above call this in place of `drop`, so that what drops it is proved here alone.
    pub fn discard(self) {
        drop(self);
    }
}

fn judged(alloc: Global, write: Write, same: Snapshot<Command>) -> Result<Submission, Memory>
    requires { same.value ≡ commands.Write write }
    ensures { IfOk result (λ submission. submission ≡ commands.Write write) }
{
    match bad_form(alloc, &write) {
        Ok(None) => unbroken(alloc, write, same),
        Ok(Some(refusal)) => {
            let area = write.area();
            drop(write);
            Ok(Submission {
                form: Form::Refused { area, refusal },
                command: same,
            })
        }
        Err(refused) => {
            drop(write);
            Err(refused)
        }
    }
}

// Of a write whose form is unbroken.
fn unbroken(alloc: Global, write: Write, same: Snapshot<Command>) -> Result<Submission, Memory>
    requires same { same.value ≡ commands.Write write }
    requires unbroken { bad_form write ≡ None }
    ensures { IfOk result (λ submission. submission ≡ commands.Write write) }
{
    match written_of(alloc, &write) {
        Ok(written) => Ok(Submission {
            form: Form::Judged { write, written },
            command: same,
        }),
        Err(refused) => {
            drop(write);
            Err(refused)
        }
    }
}

fn written_of(alloc: Global, write: &Write) -> Result<PreparedTexts, Memory>
    requires { bad_form write.now ≡ None }
    ensures { IfOk result (IsWrittenOf write.now) }
{
    let texts = texts_of(alloc, write)?;
    let closing = closing_of(alloc, write, &texts)?;
    Ok(PreparedTexts { closing, texts })
}
