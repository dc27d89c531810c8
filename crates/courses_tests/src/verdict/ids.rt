// The ids by which nodes are known.
use crate::given::iri;
use crate::verdict::rows::{BASE, own, sign};
use crate::verdict::said::{Both, index_of, saying, stored};
use cmi5_verdict::{Enrolment, Statements, waived};
use std::alloc::Global;
use std::test::Fail;
use xapi_index::Index;
use xapi_statement::StoredStatement;

// Ids, and `+` for the one of node 23 of course 1.
const IDS: &str = r#"
http://s/activities/1/23 => +
http://s/activities/1/2 => -
http://s/activities/1/230 => -
http://s/activities/12/3 => -
http://s/activities/1/023 => -
http://s/activities/1/+23 => -
http://s/activities/1/23/ => -
http://s/activities/1/ => -
http://s/activities/01/23 => -
http://s/Activities/1/23 => -
http://t/activities/1/23 => -
http://s/activities/1/18446744073709551639 => -
"#;

#[test]
fn a_node_is_known_by_its_own_id_alone(rt: HostRuntime) -> Result<(), Fail> {
    check_ids(rt.alloc(), IDS)
}

// Fails with the first row that is wrong.
fn check_ids(alloc: Global, rows: &str) -> Result<(), Fail> {
    for row in rows.lines() {
        if !row.is_empty() && !is_right(alloc, row)? {
            return Err(Fail::from(String::from_str(alloc, row)?));
        }
    }
    Ok(())
}

fn is_right(alloc: Global, row: &str) -> Result<bool, Fail> {
    let (id, told) = row.split_once(" => ").ok_or("nothing is told")?;
    let text = saying(alloc, "waived", id, "")?;
    let right = is_told(alloc, text.as_str(), told);
    drop(text);
    right
}

// Whether that is told of the node by this statement, held or new.
fn is_told(alloc: Global, text: &str, told: &str) -> Result<bool, Fail> {
    Ok(told_held(alloc, text)? == told && told_new(alloc, text)? == told)
}

fn told_held(alloc: Global, text: &str) -> Result<&'static str, Fail> {
    let both = Both {
        held: index_of(alloc, alone(alloc, text)?)?,
        new: Vec::new(alloc),
    };
    let told = told_over(alloc, &both);
    drop(both);
    told
}

fn told_new(alloc: Global, text: &str) -> Result<&'static str, Fail> {
    let both = Both {
        held: Index::new(alloc),
        new: alone(alloc, text)?,
    };
    let told = told_over(alloc, &both);
    drop(both);
    told
}

fn alone(alloc: Global, text: &str) -> Result<Vec<StoredStatement>, Fail> {
    let mut one = Vec::new(alloc);
    one.push(stored(alloc, text, 1)?)?;
    Ok(one)
}

// Whether node 23 is waived.
fn told_over(alloc: Global, both: &Both) -> Result<&'static str, Fail> {
    let registration = own()?;
    let base = iri(alloc, BASE)?;
    let statements = Statements {
        held: &both.held,
        new: both.new.as_slice(),
    };
    let enrolment = Enrolment {
        registration: &registration,
        base: &base,
        course: 1,
        nodes: &[],
    };
    let told = waived(alloc, &statements, &enrolment, 23);
    drop(base);
    Ok(sign(told?))
}
