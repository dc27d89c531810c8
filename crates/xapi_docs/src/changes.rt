ghost use Rattle.std.specs.Prelude.{◌≡◌, IfOk};
ghost use Rattle.std.specs.Option.{option_copied};
ghost use Rattle.xapi_docs.specs.Changes.{changes_documents, posted};

use crate::{Document, MergeRefused, merge};
use lrs_json::{Items, Memory, Text};
use lrs_time::Moment;
use std::alloc::Global;
use xapi_keys::StateKey;

/// What an entry changes among the documents.
#[derive(Drop)]
pub enum DocumentsChange {
    /// Nothing.
    Unchanged,
    /// A document comes, in place of the one under its key.
    Written { key: StateKey, document: Document },
    /// The documents of these keys go.
    Dropped(Items<StateKey>),
}

impl DocumentsChange {
    /// Whether anything is changed.
    pub fn changes(&self) -> bool
        ensures { result ≡ changes_documents self.now }
    {
        match self {
            DocumentsChange::Unchanged => false,
            DocumentsChange::Written {
                key: _,
                document: _,
            } => true,
            DocumentsChange::Dropped(keys) => !keys.is_empty(),
        }
    }
}

/// The document that is posted after what is held: an object is merged into it. Bytes that can't be merged stand
/// alone.
pub fn posted(
    alloc: Global,
    media: Text,
    bytes: Items<u8>,
    moment: Moment,
    held: Option<&Document>,
) -> Result<Document, Memory>
    ensures { IfOk result (λ document. document ≡ posted media bytes moment (option_copied held.entry)) }
{
    let Some(held) = held else {
        return Ok(Document {
            media,
            bytes,
            moment,
        });
    };
    match merge(alloc, held.bytes.as_slice(), bytes.as_slice()) {
        Ok(merged) => {
            drop(bytes);
            Ok(Document {
                media,
                bytes: Items::from_vec(merged),
                moment,
            })
        }
        Err(MergeRefused::NotObjects) => Ok(Document {
            media,
            bytes,
            moment,
        }),
        Err(MergeRefused::Memory) => Err(Memory),
    }
}
