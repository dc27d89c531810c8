use lrs_json::Items;
use lrs_machine::Receipt;
use std::marker::Model;

/// How a conversation ended.
#[derive(Clone, Copy, Debug, PartialEq, Eq)]
pub enum Finish {
    /// The input ended after a whole request.
    Ended,
    /// The last response said that the connection ends: its request asked for that, was the last one that may come, or
    /// was none.
    Closed,
    /// The input ended inside a request.
    Cut,
    /// A call of the link failed.
    LinkFault,
    /// Memory ran out for a request, or for a further receipt.
    Memory,
}

/// What is kept of a conversation: a receipt for each response, in their order, and how it ended. `converse` and
/// `serve_all` make them, and none is copied.
#[derive(Debug, Drop)]
pub struct Talk {
    receipts: Items<Receipt>,
    finish: Finish,
}

impl Model for Talk {
    ghost use Rattle.lrs_hall.specs.Talks.{Talk as SpecTalk};

    ghost Value = { SpecTalk };

    ghost view = { λ t. record { receipts = t.receipts; finish = t.finish } };
}

impl Talk {
    ghost use Rattle.std.specs.Prelude.{◌≡◌, length};

    pub(crate) fn new(receipts: Vec<Receipt>, finish: Finish) -> Talk
        ensures receipts { result.receipts ≡ receipts.items }
        ensures finish { result.finish ≡ finish }
    {
        Talk {
            receipts: Items::from_vec(receipts),
            finish,
        }
    }

    pub fn receipts(&self) -> &[Receipt]
        ensures { result.now ≡ self.now.receipts }
    {
        self.receipts.as_slice()
    }

    /// How many responses there were.
    pub fn responses(&self) -> usize
        ensures { result ≡ length self.now.receipts }
    {
        self.receipts.len()
    }

    pub fn finish(&self) -> Finish
        ensures { result ≡ self.now.finish }
    {
        self.finish
    }
}
