// The tests of lrs_names and lrs_agents, and of `fresh_id` of lrs_ids.
use crate::failing::{none_wrong, wrong_row};
use lrs_agents::{Agent, Group, Ifi, NameRefused, broken_agent_or_group};
use lrs_ids::fresh_id;
use lrs_json::{Items, Memory, Text, Tree};
use lrs_json_reader::{ReadRefused, read};
use lrs_names::{Id, Iri, LangTag, is_language_map, is_one_of};
use std::alloc::Global;
use std::collections::BTreeSet;
use std::test::Fail;

const LOWER: &str = "0a1b2c3d-4e5f-4789-abcd-ef0123456789";

// Texts, and those of the ids that they are read as.
const ID_TEXTS: [(&str, Option<&str>); 7] = [
    ("0a1b2c3d-4e5f-4789-abcd-ef0123456789", Some(LOWER)),
    ("0A1B2C3D-4E5F-4789-ABCD-EF0123456789", Some(LOWER)),
    ("0a1b2c3d4e5f4789abcdef0123456789", None),
    ("{0a1b2c3d-4e5f-4789-abcd-ef0123456789}", None),
    ("urn:uuid:0a1b2c3d-4e5f-4789-abcd-ef0123456789", None),
    ("0a1b2c3d-4e5f-4789-abcd-ef012345678g", None),
    ("0a1b2c3d4-e5f-4789-abcd-ef0123456789", None),
];

fn is_read_as(text: &str, wanted: &Option<&str>) -> bool {
    match (Id::read(text.as_bytes()), wanted) {
        (Some(id), Some(wanted)) => id.text().as_slice() == wanted.as_bytes(),
        (None, None) => true,
        _ => false,
    }
}

#[test]
fn reads_the_hyphenated_form_alone() -> Result<(), Fail> {
    for (i, (text, wanted)) in ID_TEXTS.iter().enumerate() {
        if !is_read_as(text, wanted) {
            return wrong_row(i);
        }
    }
    Ok(())
}

const WORDS: [(u128, &[u8; 36]); 11] = [
    (0x10, b"00000000-0000-4000-8000-000000000010"),
    (0x41, b"00000000-0000-4000-8000-000000000041"),
    (0x50, b"00000000-0000-4000-8000-000000000050"),
    ((1 << 61) - 1, b"00000000-0000-4000-9fff-ffffffffffff"),
    (1 << 61, b"00000000-0000-4000-a000-000000000000"),
    ((1 << 62) - 1, b"00000000-0000-4000-bfff-ffffffffffff"),
    (1 << 62, b"00000000-0000-4001-8000-000000000000"),
    ((1 << 74) - 1, b"00000000-0000-4fff-bfff-ffffffffffff"),
    (1 << 74, b"00000000-0001-4000-8000-000000000000"),
    (1 << 122, b"00000000-0000-4000-8000-000000000000"),
    (u128::MAX, b"ffffffff-ffff-4fff-bfff-ffffffffffff"),
];

#[test]
fn makes_ids_of_words() -> Result<(), Fail> {
    for (i, (word, text)) in WORDS.iter().enumerate() {
        if Id::of_word(*word).text() != **text {
            return wrong_row(i);
        }
    }
    Ok(())
}

const LAST_WORD: u128 = (1 << 122) - 1;

// The words of the ids that are used, and for words to start from those of the first that is not.
const USED: [u128; 4] = [LAST_WORD, 0, 1, 3];

const FRESH: [(u128, u128); 3] = [(LAST_WORD, 2), (2, 2), (3, 4)];

fn put_used(into: &mut BTreeSet<Id>) -> Result<(), Memory> {
    for word in USED {
        into.insert(Id::of_word(word))?;
    }
    Ok(())
}

fn wrong_fresh(used: &BTreeSet<Id>) -> Option<usize> {
    for (i, (word, fresh)) in FRESH.iter().enumerate() {
        if fresh_id(*word, used) != Id::of_word(*fresh) {
            return Some(i);
        }
    }
    None
}

fn wrong_among_used(alloc: Global) -> Result<Option<usize>, Memory> {
    let mut used = BTreeSet::new(alloc);
    put_used(&mut used)?;
    Ok(wrong_fresh(&used))
}

#[test]
fn a_fresh_id_is_the_first_that_is_not_used(rt: HostRuntime) -> Result<(), Fail> {
    none_wrong(wrong_among_used(rt.alloc())?)
}

const IRIS: [(&str, bool); 30] = [
    ("http://adlnet.gov/expapi/verbs/attended", true),
    ("a:b", true),
    ("z9+-.:x", true),
    ("mailto:a@b", true),
    ("urn:x:y", true),
    ("http://a/\u{e9}\u{4e2d}\u{1f600}", true),
    ("a:\u{a0}", true),
    ("", false),
    ("a", false),
    (":", false),
    ("a:", false),
    (":b", false),
    ("9a:b", false),
    ("a_b:c", false),
    ("\u{e9}:b", false),
    ("a:b c", false),
    ("a:b<", false),
    ("a:>b", false),
    ("a:\"b", false),
    ("a:{", false),
    ("a:}", false),
    ("a:|", false),
    ("a:\\", false),
    ("a:^", false),
    ("a:`", false),
    ("a:\u{1}", false),
    ("a:\u{7f}", false),
    ("a:\u{80}", false),
    ("a:\u{9f}", false),
    (" a:b", false),
];

#[test]
fn tells_iris(rt: HostRuntime) -> Result<(), Fail> {
    let alloc = rt.alloc();
    for (i, (text, is_iri)) in IRIS.iter().enumerate() {
        if Iri::is(&Text::of(alloc, text)?) != *is_iri {
            return wrong_row(i);
        }
    }
    Ok(())
}

const TAGS: [(&str, bool); 17] = [
    ("a", true),
    ("en", true),
    ("en-US", true),
    ("abcdefgh", true),
    ("abcdefgh-12345678-z", true),
    ("de-1996", true),
    ("x-y", true),
    ("", false),
    ("abcdefghi", false),
    ("en-", false),
    ("-en", false),
    ("en--US", false),
    ("en-abcdefghi", false),
    ("e1", false),
    ("en_US", false),
    ("en-\u{e9}", false),
    ("en US", false),
];

#[test]
fn tells_language_tags(rt: HostRuntime) -> Result<(), Fail> {
    let alloc = rt.alloc();
    for (i, (text, is_tag)) in TAGS.iter().enumerate() {
        if LangTag::is(&Text::of(alloc, text)?) != *is_tag {
            return wrong_row(i);
        }
    }
    Ok(())
}

// Values with the least rule that they break as an agent, and as a group.
const VALUES: [(&str, Option<u8>, Option<u8>); 62] = [
    (r#"{"mbox":"mailto:a@b"}"#, None, Some(12)),
    (
        r#"{"objectType":"Agent","name":"","mbox":"mailto:a@b"}"#,
        None,
        Some(12),
    ),
    (r#"{"mbox":"mailto:a@b@c"}"#, None, Some(12)),
    (r#"{"mbox":"mailto:@@b"}"#, None, Some(12)),
    (r#"{"mbox":"mailto:\u00e9@\u4e2d"}"#, None, Some(12)),
    (r#"{"mbox":"mailto:ab"}"#, Some(7), Some(7)),
    (r#"{"mbox":"mailto:@b"}"#, Some(7), Some(7)),
    (r#"{"mbox":"mailto:a@"}"#, Some(7), Some(7)),
    (r#"{"mbox":"mailto:a@b@"}"#, Some(7), Some(7)),
    (r#"{"mbox":"mailto:@"}"#, Some(7), Some(7)),
    (r#"{"mbox":"mailto:"}"#, Some(7), Some(7)),
    (r#"{"mbox":"a@b"}"#, Some(7), Some(7)),
    (r#"{"mbox":"MAILTO:a@b"}"#, Some(7), Some(7)),
    (r#"{"mbox":"mailto:a b@c"}"#, Some(7), Some(7)),
    (r#"{"mbox":"mailto:a@b\u0009"}"#, Some(7), Some(7)),
    (r#"{"mbox":"mailto:a@b\u0085"}"#, Some(7), Some(7)),
    (r#"{"mbox":7}"#, Some(7), Some(7)),
    (
        r#"{"mbox_sha1sum":"0123456789abcdefABCDEF012345678901234567"}"#,
        None,
        Some(12),
    ),
    (
        r#"{"mbox_sha1sum":"0123456789abcdefABCDEF01234567890123456"}"#,
        Some(8),
        Some(8),
    ),
    (
        r#"{"mbox_sha1sum":"0123456789abcdefABCDEF0123456789012345678"}"#,
        Some(8),
        Some(8),
    ),
    (
        r#"{"mbox_sha1sum":"0123456789abcdefABCDEF01234567890123456g"}"#,
        Some(8),
        Some(8),
    ),
    (r#"{"mbox_sha1sum":[]}"#, Some(8), Some(8)),
    (r#"{"openid":"http://o/1"}"#, None, Some(12)),
    (r#"{"openid":"http://o/ 1"}"#, Some(6), Some(6)),
    (r#"{"openid":false}"#, Some(6), Some(6)),
    (
        r#"{"account":{"homePage":"http://h","name":""}}"#,
        None,
        Some(12),
    ),
    (
        r#"{"account":{"name":"n","homePage":"http://h"}}"#,
        None,
        Some(12),
    ),
    (
        r#"{"account":{"homePage":"http://h","name":"n","x":1}}"#,
        Some(10),
        Some(10),
    ),
    (r#"{"account":{"homePage":"http://h"}}"#, Some(10), Some(10)),
    (r#"{"account":{"name":"n"}}"#, Some(10), Some(10)),
    (
        r#"{"account":{"homePage":"http://h","name":1}}"#,
        Some(10),
        Some(10),
    ),
    (
        r#"{"account":{"homePage":"h","name":"n"}}"#,
        Some(6),
        Some(6),
    ),
    (r#"{"account":{"homePage":"h","name":1}}"#, Some(6), Some(6)),
    (r#"{"account":"n"}"#, Some(10), Some(10)),
    (
        r#"{"mbox":"mailto:a@b","openid":"http://o/1"}"#,
        Some(11),
        Some(12),
    ),
    (r#"{"mbox":"a","openid":"b"}"#, Some(6), Some(6)),
    (r#"{"mbox":"a","mbox_sha1sum":"b"}"#, Some(7), Some(7)),
    (r#"{"mbox_sha1sum":"b","account":{}}"#, Some(8), Some(8)),
    (r#"{"name":"n"}"#, Some(11), Some(12)),
    (r#"{}"#, Some(11), Some(12)),
    (r#"5"#, Some(11), Some(12)),
    (r#"null"#, Some(11), Some(12)),
    (r#"[]"#, Some(11), Some(12)),
    (r#"{"name":5,"mbox":"mailto:a@b"}"#, Some(11), Some(12)),
    (
        r#"{"objectType":"Activity","mbox":"mailto:a@b"}"#,
        Some(11),
        Some(12),
    ),
    (
        r#"{"objectType":5,"mbox":"mailto:a@b"}"#,
        Some(11),
        Some(12),
    ),
    (r#"{"mbox":"mailto:a@b","x":1}"#, Some(11), Some(12)),
    (r#"{"mbox":"mailto:a@b","member":[]}"#, Some(11), Some(12)),
    (
        r#"{"objectType":"Group","mbox":"mailto:a@b"}"#,
        Some(11),
        None,
    ),
    (r#"{"objectType":"Group","member":[]}"#, Some(11), None),
    (
        r#"{"objectType":"Group","name":"g","openid":"a:b","member":[{"mbox":"mailto:a@b"}]}"#,
        Some(11),
        None,
    ),
    (
        r#"{"objectType":"Group","member":[{"mbox":"mailto:a@b"},{"account":{"homePage":"a:b","name":"n"}}]}"#,
        Some(11),
        None,
    ),
    (r#"{"objectType":"Group"}"#, Some(11), Some(12)),
    (
        r#"{"objectType":"Group","member":[],"x":1}"#,
        Some(11),
        Some(12),
    ),
    (
        r#"{"objectType":"Group","name":1,"member":[]}"#,
        Some(11),
        Some(12),
    ),
    (
        r#"{"objectType":"Group","mbox":"mailto:a@b","openid":"a:b","member":[]}"#,
        Some(11),
        Some(12),
    ),
    (r#"{"objectType":"Group","member":{}}"#, Some(11), Some(13)),
    (
        r#"{"objectType":"Group","mbox":"mailto:a@b","member":null}"#,
        Some(11),
        Some(13),
    ),
    (
        r#"{"objectType":"Group","x":1,"member":null}"#,
        Some(11),
        Some(12),
    ),
    (
        r#"{"objectType":"Group","member":[{"objectType":"Group","member":[]}]}"#,
        Some(11),
        Some(11),
    ),
    (
        r#"{"objectType":"Group","member":[{"mbox":"mailto:a@b"},5]}"#,
        Some(11),
        Some(11),
    ),
    (
        r#"{"objectType":"Group","mbox":"a","member":[{"mbox":"mailto:a@b"},{"openid":""}]}"#,
        Some(7),
        Some(6),
    ),
];

// The rule that reading as an agent names, or `Err` if memory runs out.
fn agent_rule(alloc: Global, tree: &Tree) -> Result<Option<u8>, Memory> {
    match Agent::read(alloc, tree) {
        Ok(agent) => {
            drop(agent);
            Ok(None)
        }
        Err(NameRefused::Broken { rule }) => Ok(Some(rule)),
        Err(NameRefused::Memory) => Err(Memory),
    }
}

fn group_rule(alloc: Global, tree: &Tree) -> Result<Option<u8>, Memory> {
    match Group::read(alloc, tree) {
        Ok(group) => {
            drop(group);
            Ok(None)
        }
        Err(NameRefused::Broken { rule }) => Ok(Some(rule)),
        Err(NameRefused::Memory) => Err(Memory),
    }
}

fn is_agent_by(alloc: Global, tree: &Tree, rule: Option<u8>) -> bool {
    Agent::broken(tree) == rule && agent_rule(alloc, tree) == Ok(rule)
}

fn is_group_by(alloc: Global, tree: &Tree, rule: Option<u8>) -> bool {
    Group::broken(tree) == rule && group_rule(alloc, tree) == Ok(rule)
}

fn breaks(alloc: Global, text: &str, as_agent: Option<u8>, as_group: Option<u8>) -> bool {
    match read(alloc, text.as_bytes()) {
        Ok(tree) => {
            let right = is_agent_by(alloc, &tree, as_agent) && is_group_by(alloc, &tree, as_group);
            drop(tree);
            right
        }
        Err(_) => false,
    }
}

#[test]
fn names_the_least_rule_that_an_agent_or_a_group_breaks(rt: HostRuntime) -> Result<(), Fail> {
    let alloc = rt.alloc();
    for (i, (text, as_agent, as_group)) in VALUES.iter().enumerate() {
        if !breaks(alloc, text, *as_agent, *as_group) {
            return wrong_row(i);
        }
    }
    Ok(())
}

const IDENTIFIED: [&str; 7] = [
    r#"{"mbox":"mailto:a@b"}"#,
    r#"{"mbox_sha1sum":"0123456789abcdefabcdef012345678901234567"}"#,
    r#"{"mbox_sha1sum":"0123456789ABCDEFABCDEF012345678901234567"}"#,
    r#"{"openid":"mailto:a@b"}"#,
    r#"{"account":{"homePage":"http://h","name":"n"}}"#,
    r#"{"account":{"homePage":"http://h","name":"m"}}"#,
    r#"{"account":{"homePage":"http://n","name":"n"}}"#,
];

fn identifier_of(alloc: Global, tree: &Tree) -> Option<Ifi> {
    match Ifi::of(alloc, tree) {
        Ok(found) => found,
        Err(_) => None,
    }
}

// Whether the identifier is that of the tree, and the same as its own, exactly if it is to be.
fn is_told(alloc: Global, ifi: &Ifi, tree: &Tree, own: bool) -> bool {
    match identifier_of(alloc, tree) {
        Some(other) => {
            let same = ifi.same(&other);
            drop(other);
            same == own && ifi.is_of(tree) == own
        }
        None => false,
    }
}

// The index of the first tree that is told wrong, if the identifier is that of the tree at `own`.
fn wrong_tree(alloc: Global, ifi: &Ifi, own: usize, trees: &[Tree]) -> Option<usize> {
    for (k, tree) in trees.iter().enumerate() {
        if !is_told(alloc, ifi, tree, k == own) {
            return Some(k);
        }
    }
    None
}

fn has_own_identifier(alloc: Global, own: usize, tree: &Tree, trees: &[Tree]) -> bool {
    match identifier_of(alloc, tree) {
        Some(ifi) => {
            let wrong = wrong_tree(alloc, &ifi, own, trees);
            drop(ifi);
            wrong.is_none()
        }
        None => false,
    }
}

fn wrong_identifier(alloc: Global, trees: &[Tree]) -> Option<usize> {
    for (i, tree) in trees.iter().enumerate() {
        if !has_own_identifier(alloc, i, tree, trees) {
            return Some(i);
        }
    }
    None
}

fn put_trees(alloc: Global, texts: &[&str], into: &mut Items<Tree>) -> Result<(), ReadRefused> {
    for text in texts {
        into.push(read(alloc, text.as_bytes())?)?;
    }
    Ok(())
}

fn wrong_among_trees(alloc: Global) -> Result<Option<usize>, ReadRefused> {
    let mut trees = Items::new(alloc);
    let put = put_trees(alloc, &IDENTIFIED, &mut trees);
    let wrong = wrong_identifier(alloc, trees.as_slice());
    let all = trees.len() == IDENTIFIED.len();
    drop(trees);
    put?;
    if all {
        Ok(wrong)
    } else {
        Ok(Some(IDENTIFIED.len()))
    }
}

#[test]
fn each_identifier_is_its_own_alone(rt: HostRuntime) -> Result<(), Fail> {
    none_wrong(wrong_among_trees(rt.alloc())?)
}

fn is_named(agent: &Agent, openid: &str, name: &str) -> bool {
    match (&agent.ifi, &agent.name) {
        (Ifi::OpenId(id), Some(own)) => id.as_str() == openid && own.as_str() == name,
        _ => false,
    }
}

fn is_read_whole(group: &Group) -> bool {
    let is_named_group = match &group.name {
        Some(name) => name.as_str() == "g",
        None => false,
    };
    let has_first = match group.members.get(0) {
        Some(agent) => is_named(agent, "a:b", "n"),
        None => false,
    };
    is_named_group && has_first && group.ifi.is_none() && group.members.len() == 2
}

fn group_is_read(alloc: Global, tree: &Tree) -> bool {
    match Group::read(alloc, tree) {
        Ok(group) => {
            let whole = is_read_whole(&group);
            drop(group);
            whole
        }
        Err(_) => false,
    }
}

const GROUP: &str =
    r#"{"objectType":"Group","name":"g","member":[{"name":"n","openid":"a:b"},{"mbox":"mailto:c@d"}]}"#;

fn group_of_text_is_read(alloc: Global) -> Result<bool, ReadRefused> {
    let tree = read(alloc, GROUP.as_bytes())?;
    let is_read = group_is_read(alloc, &tree);
    drop(tree);
    Ok(is_read)
}

#[test]
fn reads_a_group_with_its_members(rt: HostRuntime) {
    assert!(rt; group_of_text_is_read(rt.alloc()) == Ok(true));
}

const KINDS: [(&str, Option<u8>); 6] = [
    (r#"{"mbox":"mailto:a@b"}"#, None),
    (r#"{"objectType":"Group","member":[]}"#, None),
    (r#"{"objectType":"Group","mbox":"a"}"#, Some(7)),
    (r#"{"objectType":"Activity","mbox":"a"}"#, Some(15)),
    (r#"{"objectType":1}"#, Some(15)),
    (r#"5"#, Some(11)),
];

fn kind_rule(alloc: Global, text: &str) -> Result<Option<u8>, ReadRefused> {
    let tree = read(alloc, text.as_bytes())?;
    Ok(broken_agent_or_group(&tree, 15))
}

#[test]
fn tells_agents_from_groups(rt: HostRuntime) -> Result<(), Fail> {
    let alloc = rt.alloc();
    for (i, (text, rule)) in KINDS.iter().enumerate() {
        if kind_rule(alloc, text) != Ok(*rule) {
            return wrong_row(i);
        }
    }
    Ok(())
}

const MAPS: [(&str, bool); 6] = [
    (r#"{}"#, true),
    (r#"{"en-US":"a","de":""}"#, true),
    (r#"{"en_US":"a"}"#, false),
    (r#"{"en":1}"#, false),
    (r#"{"en":"a","":"b"}"#, false),
    (r#""en""#, false),
];

fn is_map(alloc: Global, text: &str) -> Result<bool, ReadRefused> {
    let tree = read(alloc, text.as_bytes())?;
    Ok(is_language_map(&tree))
}

#[test]
fn tells_language_maps(rt: HostRuntime) -> Result<(), Fail> {
    let alloc = rt.alloc();
    for (i, (text, wanted)) in MAPS.iter().enumerate() {
        if is_map(alloc, text) != Ok(*wanted) {
            return wrong_row(i);
        }
    }
    Ok(())
}

#[test]
fn a_text_is_one_of_some_names(rt: HostRuntime) {
    let names = ["a", "bc"];
    assert!(rt; is_one_of(&names, "bc") && !is_one_of(&names, "b"));
}
