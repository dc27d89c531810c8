// What lists of statements are answered over one desk: filters, references, pages.
use crate::rows::check_rows;
use std::test::Fail;

// Two statements that refer to one another, and one that refers to the first of them.
const ROUND: &str = r#"
admin put Z5 v/5 Z6 => 204 kept
admin put Z6 v/6 Z5 => 204 kept
admin put Z7 v/7 Z5 => 204 kept
admin get ?verb=http://v/7 => 200 [7]
admin get ?verb=http://v/5 => 200 [765]
admin get ?verb=http://v/6 => 200 [765]
admin get ?verb=http://v/8 => 200 []
admin get ?verb=http://v/5&ascending=true => 200 [567]
admin get ?verb=http://v/6&limit=2 => 200 [76]/xapi/statements/more?asof=3&after=1&verb=http%3A%2F%2Fv%2F6&limit=2
admin get /xapi/statements/more?asof=3&after=1&verb=http%3A%2F%2Fv%2F6&limit=2 => 200 [5]
admin get ?ascending=true&limit=2 => 200 [56]/xapi/statements/more?asof=3&after=1&limit=2&ascending=true
admin get /xapi/statements/more?asof=3&after=1&limit=2&ascending=true => 200 [7]
admin get /xapi/statements/more?asof=2&after=1 => 200 [5]
"#;

#[test]
fn references_are_followed_round(rt: HostRuntime) -> Result<(), Fail> {
    check_rows(rt.alloc(), ROUND)
}

// References to a voided statement, to what isn't held, and to what its provider doesn't see or does.
const REFERENCES: &str = r#"
admin provider p.1 => 200 {"caller":0,"token":"00000000000000000000000000000005-1"} kept
admin put Z1 v/1 a/1 => 204 kept
admin put Z2 voided Z1 => 204 kept
admin put Z3 v/3 Z1 => 204 kept
provider put Z4 v/4 Z1 => 204 kept
provider put Z5 v/5 Z9 => 204 kept
admin put Z6 v/6 Z4 => 204 kept
admin get ? => 200 [65432]
provider get ? => 200 [54]
admin get ?verb=http://v/1 => 200 [6432]
provider get ?verb=http://v/1 => 200 []
provider get ?verb=http://v/4 => 200 [4]
admin get ?verb=http://v/4 => 200 [64]
admin get ?verb=http://v/5 => 200 [5]
admin get ?verb=http://adlnet.gov/expapi/verbs/voided => 200 [2]
admin get ?activity=http://a/1 => 200 [6432]
admin get ?activity=http://a/1&verb=http://v/1 => 200 [6432]
// no one statement of a chain meets both
admin get ?activity=http://a/1&verb=http://v/3 => 200 []
admin get ?related_agents=true&agent={"account":{"homePage":"https://lrs.invalid/callers","name":"provider:0"}} => 200 [654]
admin get ?agent={"account":{"homePage":"https://lrs.invalid/callers","name":"provider:0"}} => 200 []
// what is referred to comes later
provider put Z9 v/9 a/1 => 204 kept
provider get ?verb=http://v/9 => 200 [95]
provider get /xapi/statements/more?asof=6&after=5&verb=http://v/9 => 200 []
"#;

#[test]
fn references_lead_where_they_may(rt: HostRuntime) -> Result<(), Fail> {
    check_rows(rt.alloc(), REFERENCES)
}

// A statement whose Group has that member, and one whose SubStatement has that Group. Then the other roles of agents, in
// a statement and in a SubStatement, and so those of activities.
const ROLES: &str = r#"
admin put Z1 {"actor":{"objectType":"Group","member":[{"mbox":"mailto:g@h"}]},"verb":{"id":"http://v/1"},"object":{"id":"http://a/1"}} => 204 kept
admin put Z2 {"actor":{"mbox":"mailto:a@b"},"verb":{"id":"http://v/1"},"object":{"objectType":"SubStatement","actor":{"objectType":"Group","member":[{"mbox":"mailto:g@h"}]},"verb":{"id":"http://v/1"},"object":{"id":"http://a/1"}}} => 204 kept
admin put Z3 {"actor":{"mbox":"mailto:a@b"},"verb":{"id":"http://v/1"},"object":{"objectType":"Group","mbox":"mailto:o@p","member":[{"mbox":"mailto:q@r"}]},"context":{"instructor":{"objectType":"Group","mbox":"mailto:i@j","member":[{"mbox":"mailto:k@l"}]},"team":{"objectType":"Group","mbox":"mailto:s@t","member":[{"mbox":"mailto:u@v"}]}}} => 204 kept
admin put Z4 {"actor":{"mbox":"mailto:a@b"},"verb":{"id":"http://v/1"},"object":{"objectType":"SubStatement","actor":{"mbox":"mailto:w@x"},"verb":{"id":"http://v/1"},"object":{"objectType":"Group","mbox":"mailto:o@p","member":[{"mbox":"mailto:q@r"}]},"context":{"instructor":{"objectType":"Group","mbox":"mailto:i@j","member":[{"mbox":"mailto:k@l"}]},"team":{"objectType":"Group","mbox":"mailto:s@t","member":[{"mbox":"mailto:u@v"}]}}}} => 204 kept
admin put Z5 {"actor":{"mbox":"mailto:a@b"},"verb":{"id":"http://v/1"},"object":{"id":"http://a/1"},"context":{"contextActivities":{"parent":{"id":"http://c/p"},"grouping":{"id":"http://c/g"},"category":{"id":"http://c/c"},"other":{"id":"http://c/o"}}}} => 204 kept
admin put Z6 {"actor":{"mbox":"mailto:a@b"},"verb":{"id":"http://v/1"},"object":{"objectType":"SubStatement","actor":{"mbox":"mailto:a@b"},"verb":{"id":"http://v/1"},"object":{"id":"http://a/2"},"context":{"contextActivities":{"parent":{"id":"http://c/p"},"grouping":{"id":"http://c/g"},"category":{"id":"http://c/c"},"other":{"id":"http://c/o"}}}}} => 204 kept
// the authority that is sent isn't the one that the store gives
admin put Z7 {"actor":{"mbox":"mailto:a@b"},"verb":{"id":"http://v/1"},"object":{"id":"http://a/1"},"authority":{"mbox":"mailto:y@z"}} => 204 kept
admin get ?agent={"mbox":"mailto:y@z"}&related_agents=true => 200 []
admin get ?agent={"account":{"homePage":"https://lrs.invalid/callers","name":"admin"}}&related_agents=true => 200 [7654321]
admin get ?agent={"mbox":"mailto:g@h"} => 200 [1]
admin get ?agent={"mbox":"mailto:g@h"}&related_agents=true => 200 [21]
admin get ?agent={"mbox":"mailto:o@p"} => 200 [3]
admin get ?agent={"mbox":"mailto:o@p"}&related_agents=true => 200 [43]
admin get ?agent={"mbox":"mailto:q@r"} => 200 [3]
admin get ?agent={"mbox":"mailto:q@r"}&related_agents=true => 200 [43]
admin get ?agent={"mbox":"mailto:i@j"} => 200 []
admin get ?agent={"mbox":"mailto:i@j"}&related_agents=true => 200 [43]
admin get ?agent={"mbox":"mailto:k@l"} => 200 []
admin get ?agent={"mbox":"mailto:k@l"}&related_agents=true => 200 [43]
admin get ?agent={"mbox":"mailto:s@t"} => 200 []
admin get ?agent={"mbox":"mailto:s@t"}&related_agents=true => 200 [43]
admin get ?agent={"mbox":"mailto:u@v"} => 200 []
admin get ?agent={"mbox":"mailto:u@v"}&related_agents=true => 200 [43]
admin get ?agent={"mbox":"mailto:w@x"} => 200 []
admin get ?agent={"mbox":"mailto:w@x"}&related_agents=true => 200 [4]
admin get ?activity=http://a/2 => 200 []
admin get ?activity=http://a/2&related_activities=true => 200 [6]
admin get ?activity=http://c/p => 200 []
admin get ?activity=http://c/p&related_activities=true => 200 [65]
admin get ?activity=http://c/g => 200 []
admin get ?activity=http://c/g&related_activities=true => 200 [65]
admin get ?activity=http://c/c => 200 []
admin get ?activity=http://c/c&related_activities=true => 200 [65]
admin get ?activity=http://c/o => 200 []
admin get ?activity=http://c/o&related_activities=true => 200 [65]
"#;

#[test]
fn groups_and_related_roles_are_looked_into(rt: HostRuntime) -> Result<(), Fail> {
    check_rows(rt.alloc(), ROLES)
}

// Three statements that pass different filters.
const TOGETHER: &str = r#"
admin put Z1 v/1 a/1 => 204 kept
admin put Z2 {"actor":{"mbox":"mailto:c@d"},"verb":{"id":"http://v/1"},"object":{"id":"http://a/2"},"context":{"registration":"Z9"}} => 204 kept
admin put Z3 {"actor":{"mbox":"mailto:a@b"},"verb":{"id":"http://v/2"},"object":{"id":"http://a/2"},"context":{"registration":"Z9"}} => 204 kept
admin get ?agent={"mbox":"mailto:a@b"} => 200 [31]
admin get ?verb=http://v/1 => 200 [21]
admin get ?verb=http://v/ => 200 []
admin get ?activity=http://a/2 => 200 [32]
admin get ?registration=Z9 => 200 [32]
admin get ?agent={"mbox":"mailto:a@b"}&verb=http://v/1 => 200 [1]
admin get ?agent={"mbox":"mailto:a@b"}&activity=http://a/2 => 200 [3]
admin get ?agent={"mbox":"mailto:c@d"}&registration=Z9 => 200 [2]
admin get ?verb=http://v/1&activity=http://a/2 => 200 [2]
admin get ?verb=http://v/2&registration=Z9 => 200 [3]
admin get ?activity=http://a/1&registration=Z9 => 200 []
admin get ?registration=Z9&since=2023-11-14T22:13:20Z => 200 []
"#;

#[test]
fn filters_are_met_together(rt: HostRuntime) -> Result<(), Fail> {
    check_rows(rt.alloc(), TOGETHER)
}

// A statement, and a second later a reference to it: each is held against the times by itself.
const TIMES: &str = r#"
admin whole ? => 200 {"statements":[],"more":""}
admin put Z1 v/1 a/1 Z1 => 204 kept
admin whole ?format=ids => 200 {"statements":[{"actor":{"mbox":"mailto:a@b"},"verb":{"id":"http://v/1"},"object":{"id":"http://a/1"},"id":"Z1","timestamp":"2023-11-14T22:13:20.000Z","stored":"2023-11-14T22:13:20.000Z","authority":{"objectType":"Agent","account":{"homePage":"https://lrs.invalid/callers","name":"admin"}},"version":"1.0.0"}],"more":""}
admin get ?since=2023-11-14T22:13:20Z => 200 []
admin get ?until=2023-11-14T22:13:20Z => 200 [1]
admin get ?limit=0 => 200 [1]
admin get ?limit=1 => 200 [1]
admin later Z2 v/2 Z1 => 204 kept
admin get ?verb=http://v/1 => 200 [21]
admin get ?verb=http://v/1&until=2023-11-14T22:13:20Z => 200 [1]
admin get ?verb=http://v/1&since=2023-11-14T22:13:20Z => 200 [2]
"#;

#[test]
fn a_statement_and_a_reference_have_their_own_times(rt: HostRuntime) -> Result<(), Fail> {
    check_rows(rt.alloc(), TIMES)
}

// A hundred statements together, each of which refers to the one before, and one more. Then the first is voided, and five
// are added.
const AS_IT_WAS: &str = r#"
admin many 0 100 => 200 kept
admin many 100 1 => 200 kept
admin get ? => 200 [0987654321098765432109876543210987654321098765432109876543210987654321098765432109876543210987654321]/xapi/statements/more?asof=101&after=1
admin put Z9 voided 00000000-0000-4000-8000-000000000000 => 204 kept
admin many 101 5 => 200 kept
admin get /xapi/statements/more?asof=101&after=1 => 200 [0]
admin get /xapi/statements/more?asof=108&after=1 => 400 {"error":"P14"}
// it is left out of every later list
admin get /xapi/statements/more?asof=102&after=1 => 200 []
// a chain of a hundred references, and more
admin get ?verb=http://v/0&limit=6 => 200 [543219]/xapi/statements/more?asof=107&after=101&verb=http%3A%2F%2Fv%2F0&limit=6
admin get ?verb=http://v/5&ascending=true&limit=1 => 200 [5]/xapi/statements/more?asof=107&after=5&verb=http%3A%2F%2Fv%2F5&limit=1&ascending=true
"#;

#[test]
fn a_link_gives_the_list_as_it_was(rt: HostRuntime) -> Result<(), Fail> {
    check_rows(rt.alloc(), AS_IT_WAS)
}

// All pages of a list of 23 by steps of seven, both ways, among which a hundred statements more come.
const PAGES: &str = r#"
admin many 0 23 => 200 kept
admin get ?limit=7 => 200 [2109876]/xapi/statements/more?asof=23&after=16&limit=7
admin get ?limit=7&ascending=true => 200 [0123456]/xapi/statements/more?asof=23&after=6&limit=7&ascending=true
admin many 100 50 => 200 kept
admin get /xapi/statements/more?asof=23&after=16&limit=7 => 200 [5432109]/xapi/statements/more?asof=23&after=9&limit=7
admin get /xapi/statements/more?asof=23&after=6&limit=7&ascending=true => 200 [7890123]/xapi/statements/more?asof=23&after=13&limit=7&ascending=true
admin many 200 50 => 200 kept
admin get /xapi/statements/more?asof=23&after=9&limit=7 => 200 [8765432]/xapi/statements/more?asof=23&after=2&limit=7
admin get /xapi/statements/more?asof=23&after=2&limit=7 => 200 [10]
admin get /xapi/statements/more?asof=23&after=13&limit=7&ascending=true => 200 [4567890]/xapi/statements/more?asof=23&after=20&limit=7&ascending=true
admin get /xapi/statements/more?asof=23&after=20&limit=7&ascending=true => 200 [12]
"#;

#[test]
fn pages_give_each_statement_once(rt: HostRuntime) -> Result<(), Fail> {
    check_rows(rt.alloc(), PAGES)
}
