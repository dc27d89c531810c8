// What is written of a write before its entry.
ghost use Rattle.std.specs.Prelude.{◌≡◌, ◌∷◌, [], IfOk};
ghost use Rattle.lrs_record.specs.Entries.{HoldsWrite, closing_text};
ghost use Rattle.lrs_record.specs.Writes.{trees_of};

use lrs_json::{Items, Memory, Tree};
use lrs_record::{Write, write_closing};
use std::alloc::Global;
use xapi_statement::ReceivedText;

/// What is written of a write before there is an entry of it.
#[derive(Drop)]
pub struct PreparedTexts {
    /// What closes the text of its entry.
    pub closing: Items<u8>,
    /// The texts that are held of its statements.
    pub texts: Items<ReceivedText>,
}

// What most closings have room in, so that few texts grow while they are written.
const CLOSING_ROOM: usize = 1_024;

/// What closes the text of the entry of a write whose statements have these texts.
pub(crate) fn closing_of(
    alloc: Global,
    write: &Write,
    texts: &Items<ReceivedText>,
) -> Result<Items<u8>, Memory>
    requires { texts.now ≡ trees_of write.now }
    ensures text { IfOk result (λ closing. closing ≡ closing_text write.now) }
    ensures holds { IfOk result (λ _. HoldsWrite write.now) }
{
    let mut text = Vec::with_capacity(alloc, CLOSING_ROOM)?;
    write_closing(write, texts, &mut text)?;
    Ok(Items::from_vec(text))
}

/// The texts that are held of the statements of a write.
pub(crate) fn texts_of(alloc: Global, write: &Write) -> Result<Items<ReceivedText>, Memory>
    ensures { IfOk result (λ texts. texts ≡ trees_of write.now) }
{
    match write {
        Write::Put { id: _, statement } => texts_of_one(alloc, statement),
        Write::Post { statements } => texts_of_each(alloc, statements.as_slice()),
        _ => Ok(Items::new(alloc)),
    }
}

fn texts_of_one(alloc: Global, statement: &Tree) -> Result<Items<ReceivedText>, Memory>
    ensures { IfOk result (λ texts. texts ≡ statement.now ∷ []) }
{
    let text = ReceivedText::of(alloc, statement)?;
    let mut texts = Vec::new(alloc);
    texts.push(text)?;
    Ok(Items::from_vec(texts))
}

fn texts_of_each(alloc: Global, statements: &[Tree]) -> Result<Items<ReceivedText>, Memory>
    ensures { IfOk result (λ texts. texts ≡ statements.now) }
{
    let mut texts = Vec::with_capacity(alloc, statements.len())?;
    for statement in statements {
        let text = ReceivedText::of(alloc, statement)?;
        texts.push(text)?;
    }
    Ok(Items::from_vec(texts))
}
