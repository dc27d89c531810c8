// The tests of lrs_json, lrs_json_reader, lrs_json_written and lrs_json_equal.
ghost use Rattle.std.specs.Prelude.{◌≤◌};

use crate::failing::wrong_row;
use lrs_json::{Items, Memory, Text, Tree, is_written, write};
use lrs_json_equal::same_value;
use lrs_json_reader::{MOST_DEPTH, ReadRefused, Stop, read, read_to, reread};
use lrs_json_written::{Cursor, read_tree};
use std::alloc::Global;
use std::test::Fail;

// Whether the written form of what is read is that text.
fn is_rewritten_to(alloc: Global, text: &[u8], wanted: &[u8]) -> Result<bool, ReadRefused> {
    let mut bytes = Vec::new(alloc);
    let tree = read(alloc, text)?;
    let written = write(&tree, &mut bytes);
    drop(tree);
    Ok(written.is_ok() && bytes.as_slice() == wanted)
}

// Texts, and how they are written again.
const LAWFUL: [(&str, &str); 10] = [
    ("{\"b\":1.50,\"a\":[]}", "{\"b\":1.50,\"a\":[]}"),
    (" null ", "null"),
    ("\t[ true\r,\nfalse ] ", "[true,false]"),
    (
        "{ \"a\" : { } , \"b\" : [ [ ] , 0 ] }",
        "{\"a\":{},\"b\":[[],0]}",
    ),
    (
        "[-0,0.0,-12.50E+3,1e-7,9e07]",
        "[-0,0.0,-12.50E+3,1e-7,9e07]",
    ),
    ("\"\"", "\"\""),
    (
        "\"\\\"\\\\\\/\\b\\f\\n\\r\\t\"",
        "\"\\\"\\\\/\\b\\f\\n\\r\\t\"",
    ),
    (
        "\"\\u0000\\u001F\\u0041\\u00e9\\u20AC\"",
        "\"\\u0000\\u001fA\u{e9}\u{20ac}\"",
    ),
    ("\"\\ud83d\\uDE00\u{1F600}\"", "\"\u{1F600}\u{1F600}\""),
    ("\"\u{7f}\u{e9}\"", "\"\u{7f}\u{e9}\""),
];

#[test]
fn lawful_texts_are_read_and_written(rt: HostRuntime) -> Result<(), Fail> {
    let alloc = rt.alloc();
    for (i, (text, wanted)) in LAWFUL.iter().enumerate() {
        let rewritten = is_rewritten_to(alloc, text.as_bytes(), wanted.as_bytes());
        if rewritten != Ok(true) {
            return wrong_row(i);
        }
    }
    Ok(())
}

fn refusal(alloc: Global, text: &[u8]) -> Option<ReadRefused> {
    match read(alloc, text) {
        Ok(_) => None,
        Err(refused) => Some(refused),
    }
}

const UNLAWFUL: [&[u8]; 45] = [
    b"",
    b" ",
    b"[1,]",
    b"[,1]",
    b"[1 2]",
    b"[1",
    b"1]",
    b"[1}",
    b"{,}",
    b"{\"a\":1,}",
    b"{\"a\"}",
    b"{\"a\" 1}",
    b"{\"a\":}",
    b"{a:1}",
    b"{1:1}",
    b"{\"a\":1 \"b\":2}",
    b"nul",
    b"nulll",
    b"True",
    b"+1",
    b"01",
    b"-",
    b"1.",
    b".5",
    b"1e",
    b"1e+",
    b"0x1",
    b"1 2",
    b"'a'",
    b"\"",
    b"\"a",
    b"a\"",
    b"\"\\x\"",
    b"\"\\u12g4\"",
    b"\"\\u123\"",
    b"\"\\ud83d\"",
    b"\"\\ude00\"",
    b"\"\\ud83d\\n\"",
    b"\"\\ud83d\\ud83d\"",
    b"\"\x1f\"",
    b"\"\n\"",
    b"\"\xc3\"",
    b"\"\xc0\xaf\"",
    b"\xef\xbb\xbfnull",
    b"\x0bnull",
];

#[test]
fn unlawful_texts_are_bad(rt: HostRuntime) -> Result<(), Fail> {
    let alloc = rt.alloc();
    for (i, text) in UNLAWFUL.iter().enumerate() {
        if refusal(alloc, text) != Some(ReadRefused::Bad) {
            return wrong_row(i);
        }
    }
    Ok(())
}

// Texts of trees, other texts, and whether these are the written forms of the trees.
const FORMS: [(&str, &str, bool); 18] = [
    (
        " {\"b\":1.50, \"a\":[true,null]}",
        "{\"b\":1.50,\"a\":[true,null]}",
        true,
    ),
    ("{\"\\u0061\":{}}", "{\"a\":{}}", true),
    ("\"\\u000A\\/\"", "\"\\n/\"", true),
    ("\"\\u001F\"", "\"\\u001f\"", true),
    ("{\"a\":1}", "{\"a\": 1}", false),
    ("{\"a\":1}", "{\"a\":1} ", false),
    ("{\"a\":1}", " {\"a\":1}", false),
    ("{\"a\":1}", "{\"a\":1}}", false),
    ("{\"a\":1}", "{\"a\":1", false),
    ("{\"a\":1,\"b\":2}", "{\"b\":2,\"a\":1}", false),
    ("[1,2]", "[2,1]", false),
    ("[1.0]", "[1]", false),
    ("[]", "[0]", false),
    ("\"\\n\"", "\"\\u000a\"", false),
    ("\"\\u001f\"", "\"\\u001F\"", false),
    ("\"/\"", "\"\\/\"", false),
    ("\"\u{e9}\"", "\"\\u00e9\"", false),
    ("null", "", false),
];

fn has_written_form(alloc: Global, text: &str, bytes: &str) -> Result<bool, ReadRefused> {
    let tree = read(alloc, text.as_bytes())?;
    let same = is_written(&tree, bytes.as_bytes());
    drop(tree);
    Ok(same)
}

#[test]
fn a_tree_has_one_written_form(rt: HostRuntime) -> Result<(), Fail> {
    let alloc = rt.alloc();
    for (i, (text, bytes, wanted)) in FORMS.iter().enumerate() {
        if has_written_form(alloc, text, bytes) != Ok(*wanted) {
            return wrong_row(i);
        }
    }
    Ok(())
}

// Whether that tree is read back from the text.
fn is_reread(alloc: Global, tree: &Tree, text: &[u8]) -> Result<bool, Memory> {
    let again = reread(alloc, text)?;
    Ok(tree.same(&again))
}

fn is_read_back(alloc: Global, text: &[u8], written: &[u8]) -> Result<bool, ReadRefused> {
    let tree = read(alloc, text)?;
    let same = is_reread(alloc, &tree, written);
    drop(tree);
    Ok(same?)
}

#[test]
fn what_was_written_is_read_back(rt: HostRuntime) -> Result<(), Fail> {
    let alloc = rt.alloc();
    for (i, (text, written)) in LAWFUL.iter().enumerate() {
        if is_read_back(alloc, text.as_bytes(), written.as_bytes()) != Ok(true) {
            return wrong_row(i);
        }
    }
    Ok(())
}

#[test]
fn of_what_is_no_written_form_some_tree_is_read(rt: HostRuntime) -> Result<(), Fail> {
    let alloc = rt.alloc();
    for (i, text) in UNLAWFUL.iter().enumerate() {
        if reread(alloc, text).is_err() {
            return wrong_row(i);
        }
    }
    Ok(())
}

// Texts, how deep they may nest, and whether the whole text is read as the written form of a tree. Behind 16 members
// their names are compared otherwise.
const READ_BACK: [(&str, u32, bool); 63] = [
    ("null", 0, true),
    ("true", 0, true),
    ("false", 0, true),
    ("-1.50e+7", 0, true),
    ("\"\"", 0, true),
    ("\"\u{e9}\u{20ac}\u{1F600}\u{7f}/\"", 0, true),
    ("\"a\\\"b\\\\c\\b\\f\\n\\r\\td\"", 0, true),
    ("\"\\u0000\\u001f\"", 0, true),
    ("[]", 1, true),
    ("{}", 1, true),
    ("[[1],{}]", 2, true),
    ("[null,true,\"\",[],{\"\":{}}]", 3, true),
    ("{\"b\":1,\"a\":{\"b\":2}}", 2, true),
    ("{\"\\n\":1,\"n\":1}", 1, true),
    // one level too deep
    ("[]", 0, false),
    ("{}", 0, false),
    ("[[1],{}]", 1, false),
    ("{\"a\":{\"b\":[]}}", 2, false),
    ("{\"a\":{\"b\":[]}}", 3, true),
    // white space wherever it may stand
    (" 1", 2, false),
    ("1 ", 2, false),
    ("\t[]", 2, false),
    ("[ ]", 2, false),
    ("[ 1]", 2, false),
    ("[1 ]", 2, false),
    ("[1 ,2]", 2, false),
    ("[1, 2]", 2, false),
    ("[1]\n", 2, false),
    ("{ }", 2, false),
    ("{ \"a\":1}", 2, false),
    ("{\"a\" :1}", 2, false),
    ("{\"a\": 1}", 2, false),
    ("{\"a\":1 }", 2, false),
    ("{\"a\":1, \"b\":2}", 2, false),
    // other escapes than those that are written
    ("\"\\u0041\"", 0, false),
    ("\"\\/\"", 0, false),
    ("\"\\u001F\"", 0, false),
    ("\"\\u0008\"", 0, false),
    ("\"\\u000a\"", 0, false),
    ("\"\\u0022\"", 0, false),
    ("\"\\ud83d\\ude00\"", 0, false),
    ("{\"\\u0061\":1}", 1, false),
    // no text of JSON
    ("", 0, false),
    ("\"\n\"", 0, false),
    ("\"\u{1f}\"", 0, false),
    ("\"a", 0, false),
    ("\"\\", 0, false),
    ("nul", 0, false),
    ("01", 0, false),
    ("[1,]", 1, false),
    ("[,1]", 1, false),
    ("[1", 1, false),
    ("{\"a\":1,}", 1, false),
    ("{\"a\"}", 1, false),
    ("{1:1}", 1, false),
    // a tail
    ("1,", 0, false),
    ("[]]", 1, false),
    // repeated names and numbers that are out of range
    ("{\"a\":1,\"a\":2}", 2, false),
    ("[{\"a\":{\"b\":1,\"b\":1}}]", 64, false),
    ("1e1000", 0, false),
    ("[1e1000]", 64, false),
    (
        "{\"a\":0,\"b\":0,\"c\":0,\"d\":0,\"e\":0,\"f\":0,\"g\":0,\"h\":0,\"i\":0,\"j\":0,\"k\":0,\"l\":0,\"m\":0,\"n\":0,\"o\":0,\"p\":0,\"q\":0}",
        1,
        true,
    ),
    (
        "{\"a\":0,\"b\":0,\"c\":0,\"d\":0,\"e\":0,\"f\":0,\"g\":0,\"h\":0,\"i\":0,\"j\":0,\"k\":0,\"l\":0,\"m\":0,\"n\":0,\"o\":0,\"p\":0,\"a\":0}",
        1,
        false,
    ),
];

fn is_all_read_back(alloc: Global, text: &[u8], depth: u32) -> Result<bool, Stop> {
    let mut cursor = Cursor::new(alloc, text);
    match read_tree(&mut cursor, depth) {
        Ok(tree) => {
            drop(tree);
            Ok(cursor.is_empty())
        }
        Err(Stop::Bad) => Ok(false),
        Err(Stop::Memory) => Err(Stop::Memory),
    }
}

#[test]
fn just_the_written_form_is_read_back(rt: HostRuntime) -> Result<(), Fail> {
    let alloc = rt.alloc();
    for (i, (text, depth, wanted)) in READ_BACK.iter().enumerate() {
        if is_all_read_back(alloc, text.as_bytes(), *depth) != Ok(*wanted) {
            return wrong_row(i);
        }
    }
    Ok(())
}

#[test]
fn no_bytes_but_utf8_are_read_back(rt: HostRuntime) {
    assert!(rt; is_all_read_back(rt.alloc(), b"\"\xff\"", 0) == Ok(false));
}

#[test]
fn no_bytes_but_utf8_are_read_back_behind_an_escape(rt: HostRuntime) {
    assert!(rt; is_all_read_back(rt.alloc(), b"\"\\n\xff\"", 0) == Ok(false));
}

// The escape of each control character, as it may be read, and as it is written.
const CONTROLS: [(&str, &str); 32] = [
    ("\"\\u0000\"", "\"\\u0000\""),
    ("\"\\u0001\"", "\"\\u0001\""),
    ("\"\\u0002\"", "\"\\u0002\""),
    ("\"\\u0003\"", "\"\\u0003\""),
    ("\"\\u0004\"", "\"\\u0004\""),
    ("\"\\u0005\"", "\"\\u0005\""),
    ("\"\\u0006\"", "\"\\u0006\""),
    ("\"\\u0007\"", "\"\\u0007\""),
    ("\"\\u0008\"", "\"\\b\""),
    ("\"\\u0009\"", "\"\\t\""),
    ("\"\\u000A\"", "\"\\n\""),
    ("\"\\u000B\"", "\"\\u000b\""),
    ("\"\\u000C\"", "\"\\f\""),
    ("\"\\u000D\"", "\"\\r\""),
    ("\"\\u000E\"", "\"\\u000e\""),
    ("\"\\u000F\"", "\"\\u000f\""),
    ("\"\\u0010\"", "\"\\u0010\""),
    ("\"\\u0011\"", "\"\\u0011\""),
    ("\"\\u0012\"", "\"\\u0012\""),
    ("\"\\u0013\"", "\"\\u0013\""),
    ("\"\\u0014\"", "\"\\u0014\""),
    ("\"\\u0015\"", "\"\\u0015\""),
    ("\"\\u0016\"", "\"\\u0016\""),
    ("\"\\u0017\"", "\"\\u0017\""),
    ("\"\\u0018\"", "\"\\u0018\""),
    ("\"\\u0019\"", "\"\\u0019\""),
    ("\"\\u001A\"", "\"\\u001a\""),
    ("\"\\u001B\"", "\"\\u001b\""),
    ("\"\\u001C\"", "\"\\u001c\""),
    ("\"\\u001D\"", "\"\\u001d\""),
    ("\"\\u001E\"", "\"\\u001e\""),
    ("\"\\u001F\"", "\"\\u001f\""),
];

#[test]
fn control_characters_are_written_escaped(rt: HostRuntime) -> Result<(), Fail> {
    let alloc = rt.alloc();
    for (i, (text, wanted)) in CONTROLS.iter().enumerate() {
        let rewritten = is_rewritten_to(alloc, text.as_bytes(), wanted.as_bytes());
        if rewritten != Ok(true) {
            return wrong_row(i);
        }
    }
    Ok(())
}

#[test]
fn control_characters_are_read_only_escaped(rt: HostRuntime) -> Result<(), Fail> {
    let alloc = rt.alloc();
    for code in 0..32u8 {
        let raw = [b'"', code, b'"'];
        if refusal(alloc, &raw) != Some(ReadRefused::Bad) {
            return wrong_row(usize::from(code));
        }
    }
    Ok(())
}

const FAULTS: [(&str, Option<ReadRefused>); 8] = [
    (
        "{\"a\":1,\"a\":2}",
        Some(ReadRefused::Repeated { offset: 7 }),
    ),
    (
        "{\"a\":1,\"\\u0061\":2}",
        Some(ReadRefused::Repeated { offset: 7 }),
    ),
    (
        " {\"a\":{\"b\":1,\"b\":2},\"a\":3,\"a\":4}",
        Some(ReadRefused::Repeated { offset: 13 }),
    ),
    (
        "{\"a\":1e1000,\"a\":1}",
        Some(ReadRefused::Repeated { offset: 12 }),
    ),
    ("[1e1000]", Some(ReadRefused::NumberRange { offset: 1 })),
    (
        "[{\"a\":1e1000},1e1001]",
        Some(ReadRefused::NumberRange { offset: 6 }),
    ),
    ("[1e1000,]", Some(ReadRefused::Bad)),
    ("[{\"a\":1},{\"a\":2}]", None),
];

#[test]
fn faults_have_their_offsets(rt: HostRuntime) -> Result<(), Fail> {
    let alloc = rt.alloc();
    for (i, (text, refused)) in FAULTS.iter().enumerate() {
        if refusal(alloc, text.as_bytes()) != *refused {
            return wrong_row(i);
        }
    }
    Ok(())
}

const BRACKETS: [u8; 65] = [b'['; 65];

#[test]
fn sixty_five_brackets_are_too_deep(rt: HostRuntime) {
    assert!(rt; refusal(rt.alloc(), &BRACKETS) == Some(ReadRefused::TooDeep));
}

#[test]
fn sixty_four_brackets_are_not_too_deep(rt: HostRuntime) {
    assert!(rt; refusal(rt.alloc(), &BRACKETS[1..]) == Some(ReadRefused::Bad));
}

fn refusal_at_depth(alloc: Global, text: &[u8], depth: u32) -> Option<ReadRefused>
    requires { depth ≤ MOST_DEPTH }
{
    match read_to(alloc, text, depth) {
        Ok(_) => None,
        Err(refused) => Some(refused),
    }
}

#[test]
fn brackets_in_a_string_do_not_nest(rt: HostRuntime) {
    assert!(rt; refusal_at_depth(rt.alloc(), b"[[{\"[\":\"\\\"[\"}]]", 3).is_none());
}

#[test]
fn depth_has_the_limit_that_is_given(rt: HostRuntime) {
    assert!(rt; refusal_at_depth(rt.alloc(), b"[[[]]]", 2) == Some(ReadRefused::TooDeep));
}

const PAIRS: [(&str, &str, bool); 7] = [
    (
        "{\"a\":1.0,\"b\":[10e-1,true]}",
        "{\"b\":[1,true],\"a\":100e-2}",
        true,
    ),
    ("-0", "0e99", true),
    ("[1,2]", "[2,1]", false),
    ("{\"a\":1}", "{\"a\":1,\"b\":2}", false),
    ("{\"a\":1}", "{\"b\":1}", false),
    ("1", "\"1\"", false),
    ("0.50", "0.51", false),
];

fn are_same_values(alloc: Global, first: &str, second: &str) -> Result<bool, ReadRefused> {
    let first = read(alloc, first.as_bytes())?;
    let second = read(alloc, second.as_bytes())?;
    Ok(same_value(&first, &second))
}

#[test]
fn values_are_the_same_in_any_order_and_spelling(rt: HostRuntime) -> Result<(), Fail> {
    let alloc = rt.alloc();
    for (i, (first, second, wanted)) in PAIRS.iter().enumerate() {
        let there = are_same_values(alloc, first, second);
        let back = are_same_values(alloc, second, first);
        if there != Ok(*wanted) || back != Ok(*wanted) {
            return wrong_row(i);
        }
    }
    Ok(())
}

// The text of an object of so many members, forwards or backwards.
fn text_of_members(alloc: Global, count: u32, backwards: bool) -> Result<String, Memory> {
    let mut text = String::new(alloc);
    let mut mark = '{';
    for at in 0..count {
        let name = if backwards {
            count.saturating_sub(at)
        } else {
            at.saturating_add(1)
        };
        let member = format!(in alloc; "{mark}\"{name}\":{name}")?;
        text.push_str(member.as_str())?;
        mark = ',';
    }
    text.push('}')?;
    Ok(text)
}

fn are_same_backwards(alloc: Global, count: u32) -> Result<bool, ReadRefused> {
    let there = text_of_members(alloc, count, false)?;
    let back = text_of_members(alloc, count, true)?;
    are_same_values(alloc, there.as_str(), back.as_str())
}

#[test]
fn many_members_are_the_same_backwards(rt: HostRuntime) {
    assert!(rt; are_same_backwards(rt.alloc(), 29_000) == Ok(true));
}

// Whether a list of one text, made from a vector of it, has it under the name `a` of the tree alone.
fn is_found(alloc: Global, tree: &Tree) -> Result<bool, Memory> {
    let mut items = Items::new(alloc);
    items.push(Tree::Words(Text::of(alloc, "x")?))?;
    let list = Tree::List(Items::from_vec(items.into_vec()));
    let found = tree.get("a").is_some_and(|a| a.same(&list));
    drop(list);
    Ok(found && tree.get("c").is_none())
}

fn is_copied(tree: &Tree) -> Result<bool, Memory> {
    let copy = tree.clone()?;
    let same = tree.same(&copy);
    drop(copy);
    Ok(same)
}

fn is_of_two_members(tree: &Tree) -> bool {
    match tree {
        Tree::Object(members) => members.iter().count() == 2 && members.len() == 2,
        _ => false,
    }
}

// Of a tree that is read, whether it is copied, looked up and counted.
fn tree_is_used(alloc: Global) -> Result<bool, ReadRefused> {
    let tree = read(alloc, b"{\"a\":[\"x\"],\"b\":1.0}")?;
    let used = is_found(alloc, &tree) == Ok(true)
        && is_copied(&tree) == Ok(true)
        && is_of_two_members(&tree);
    drop(tree);
    Ok(used)
}

#[test]
fn trees_are_built_copied_and_looked_up(rt: HostRuntime) {
    assert!(rt; tree_is_used(rt.alloc()) == Ok(true));
}
