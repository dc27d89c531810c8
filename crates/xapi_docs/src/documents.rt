use lrs_json::{Items, Text};
use lrs_time::Moment;

/// A state document, as it was sent or merged.
#[derive(Drop)]
pub struct Document {
    /// Its media type, as it was sent with the last write.
    pub media: Text,
    pub bytes: Items<u8>,
    /// The moment of the last write.
    pub moment: Moment,
}
