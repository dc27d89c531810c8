//! HTTP/1.1 on a link (RFC 9112): requests are read and responses written, however the link cuts their bytes.
#![tactic(auto)]

mod fields;
mod heads;
mod laws;
mod reading;
mod request;
mod response;

pub use fields::LONGEST_BODY;
pub use heads::LONGEST_HEAD;
pub use laws::law_of_one_list;
pub use reading::{MOST_REQUESTS, read_request};
pub use request::{Method, Request, RequestRefused};
pub use response::{LinkFault, Reply2, write_response};
