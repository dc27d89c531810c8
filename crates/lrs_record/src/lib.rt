//! Callers, the writes that a store keeps, and the entries of the journal: an accepted write with its caller, moment
//! and draw. The journal keeps an entry as `{"caller":C,"moment":MS,"draw":HEX64,"command":{NAME:ARGS}}`, in the
//! written form of JSON.
#![tactic(auto)]

mod desk_writes;
mod entry;
mod headings;
mod reading;
mod refused;
mod store_writes;
mod writing;

pub use entry::{Area, Caller, Entry, How, Write};
pub use lrs_fields::put_word;
pub use lrs_time::Moment;
pub use reading::read_entry;
pub use refused::EntryRefused;
pub use writing::{write_closing, write_entry, write_headed};
