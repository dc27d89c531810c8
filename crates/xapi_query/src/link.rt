ghost use Rattle.std.specs.Prelude.{◌≡◌, IfOk};
ghost use Rattle.xapi_query.specs.Links.{link_text};

use crate::Query;
use crate::form::{put_number, put_query};
use form_urlencoded::Serializer;
use lrs_json::{Memory, Text};
use std::alloc::Global;

/// Where a list goes on (xAPI 1.0.3, part three, section 2.1.3).
#[derive(Drop)]
pub struct MoreLink {
    /// The query of the first page, which each later one repeats.
    pub query: Query,
    /// How many statements there were at the first page.
    pub asof: u64,
    /// The last position that was given.
    pub after: u64,
}

impl MoreLink {
    ghost use Rattle.std.specs.Prelude.{◌≡◌, ◌++◌, IfOk, OnOk, OnErr};
    ghost use Rattle.xapi_query.specs.Links.{link_text};

    /// The link's text.
    pub fn text(&self, alloc: Global) -> Result<Text, Memory>
        ensures { IfOk result (λ text. text ≡ link_text self.now) }
    {
        link_text(alloc, &self.query, self.asof, self.after)
    }

    /// Appends its text, or nothing if memory runs out.
    pub fn write(&self, into: &mut Vec<u8>) -> Result<(), Memory>
        ensures ok { OnOk result (into.new.items ≡ into.old.items ++ link_text self.now) }
        ensures err { OnErr result (into.new.items ≡ into.old.items) }
    {
        let text = self.text(*into.allocator())?;
        into.extend_from_slice(text.as_bytes())?;
        Ok(())
    }
}

/// The text of the link after that position in a list as of so many statements, from the path on:
/// `/xapi/statements/more?asof=N&after=P`, and after it the parameters of the query, as a form has them.
pub fn link_text(alloc: Global, query: &Query, asof: u64, after: u64) -> Result<Text, Memory>
    ensures { IfOk result (λ text. text ≡ link_text (record { query = query.now; asof = asof; after = after })) }
{
    let path = String::from_str(alloc, PATH)?;
    let mut form = Serializer::for_suffix(path, PATH.len());
    put_number(alloc, &mut form, "asof", asof)?;
    put_number(alloc, &mut form, "after", after)?;
    put_query(alloc, &mut form, query)?;
    let text = form.finish();
    Text::of(alloc, text.as_str())
}

const PATH: &str = "/xapi/statements/more?";
