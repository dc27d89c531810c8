use lrs_json::Items;
use xapi_statement::StoredStatement;

/// What is left of an effect that was taken in: its statements, and the trees of the held ones that they void. They are
/// of no more use, and dropping them may take long.
#[derive(Drop)]
pub struct SpentEffect {
    pub statements: Items<StoredStatement>,
    pub voided: Items<StoredStatement>,
}

impl SpentEffect {
    /// Drops it. Crates above call this in place of `drop`, so that what drops it is proved here alone.
    pub fn discard(self) {
        drop(self);
    }
}
