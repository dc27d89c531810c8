use crate::Query;
use lrs_names::Id;
use xapi_statement::Format;

/// What a GET of statements asks for.
#[derive(Drop)]
pub enum Wanted {
    /// The statement of that id, in that form, if it isn't voided.
    One(Id, Format),
    /// The same, if it is voided.
    Voided(Id, Format),
    /// The first page of a list.
    Many(Query),
}
