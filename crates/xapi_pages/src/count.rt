// How many statements the query lists that asks nothing.
ghost use Rattle.std.specs.Prelude.{◌≡◌, ◌<◌, length};
ghost use Rattle.xapi_pages.specs.Listings.{every, is_listed_at, listed_of_all};
ghost use Rattle.xapi_search.specs.XapiQuerySightSightTheVariants.{All};

use xapi_search::Index;

/// How many statements a query without filters lists to who sees each: those that aren't voided.
pub fn count_listed(index: &Index) -> u64
    ensures { result ≡ listed_of_all index.now.held }
{
    let mut listed: u64 = 0;
    for at in 0..index.len() {
        if is_counted(index, at) {
            listed += 1;
        }
    }
    listed
}

// Whether the statement at a position is listed.
fn is_counted(index: &Index, at: usize) -> bool
    requires { at < length index.now.held }
    ensures { result ≡ is_listed_at every All index.now.held at }
{
    !index.is_voided_at(index.len(), at)
}
