// The tests of xapi_values.
use crate::failing::wrong_row;
use lrs_json::Tree;
use lrs_json_reader::read;
use std::test::Fail;
use xapi_values::numbers::{is_count, is_score};
use xapi_values::shapes::{is_duration, is_string_array, is_timestamp, is_uuid, is_version};
use xapi_values::{Kind, broken_extensions_of};

// Texts of JSON, and whether they are whole numbers that aren't negative.
const COUNTS: [(&str, bool); 18] = [
    ("0", true),
    ("-0", true),
    ("-0.0", true),
    ("0.0e5", true),
    ("0e-9", true),
    ("7", true),
    ("1.0", true),
    ("10e-1", true),
    ("1.5e1", true),
    ("120E-1", true),
    ("9007199254740993", true),
    ("-1", false),
    ("-1.0", false),
    ("1.5", false),
    ("15e-1", false),
    ("1.25e1", false),
    ("1e-1", false),
    ("\"1\"", false),
];

#[test]
fn counts_are_known_by_their_value(rt: HostRuntime) -> Result<(), Fail> {
    let alloc = rt.alloc();
    for (i, (text, counts)) in COUNTS.iter().enumerate() {
        if is_count(&read(alloc, text.as_bytes())?) != *counts {
            return wrong_row(i);
        }
    }
    Ok(())
}

// Texts of JSON, and whether they are scores (xAPI 1.0.3, part two, section 2.4.5.1).
const SCORES: [(&str, bool); 19] = [
    ("{}", true),
    ("{\"scaled\":1}", true),
    ("{\"scaled\":10e-1}", true),
    (
        "{\"scaled\":-1.0,\"raw\":1e1,\"min\":10,\"max\":10.5}",
        true,
    ),
    ("{\"raw\":2,\"min\":1,\"max\":2.0}", true),
    ("{\"raw\":9,\"max\":10}", true),
    ("{\"min\":-10,\"max\":-9.5}", true),
    ("5", false),
    ("[]", false),
    ("{\"x\":1}", false),
    ("{\"scaled\":2}", false),
    ("{\"scaled\":-1.1}", false),
    ("{\"scaled\":\"1\"}", false),
    ("{\"scaled\":1.000000000000000000000000000000001}", false),
    ("{\"min\":2,\"max\":2}", false),
    ("{\"min\":3,\"max\":2}", false),
    ("{\"raw\":0.5,\"min\":1}", false),
    ("{\"raw\":10,\"max\":9}", false),
    ("{\"raw\":true}", false),
];

#[test]
fn scores_are_held_against_their_order(rt: HostRuntime) -> Result<(), Fail> {
    let alloc = rt.alloc();
    for (i, (text, scores)) in SCORES.iter().enumerate() {
        if is_score(&read(alloc, text.as_bytes())?) != *scores {
            return wrong_row(i);
        }
    }
    Ok(())
}

// Objects, and what they say that they are.
const KINDS: [(&str, Kind); 9] = [
    ("{\"id\":\"http://a/1\"}", Kind::Unstated),
    ("{\"objectType\":\"Activity\"}", Kind::Activity),
    ("{\"objectType\":\"Agent\"}", Kind::Agent),
    ("{\"objectType\":\"Group\"}", Kind::Group),
    ("{\"objectType\":\"StatementRef\"}", Kind::StatementRef),
    ("{\"objectType\":\"SubStatement\"}", Kind::SubStatement),
    ("{\"objectType\":\"Statement\"}", Kind::Other),
    ("{\"objectType\":\"agent\"}", Kind::Other),
    ("{\"objectType\":5}", Kind::Other),
];

#[test]
fn an_object_is_what_it_says_in_these_letters(rt: HostRuntime) -> Result<(), Fail> {
    let alloc = rt.alloc();
    for (i, (text, kind)) in KINDS.iter().enumerate() {
        if Kind::of(&read(alloc, text.as_bytes())?) != *kind {
            return wrong_row(i);
        }
    }
    Ok(())
}

// Texts of JSON, and whether they are an id, a timestamp, a duration, a version and an array of strings.
const SHAPES: [(&str, [bool; 5]); 16] = [
    (
        "\"ABCDEFAB-CDEF-4111-8111-111111111111\"",
        [true, false, false, false, false],
    ),
    (
        "\"00000000-0000-0000-0000-000000000000\"",
        [true, false, false, false, false],
    ),
    ("\"11111111-1111-4111-8111-11111111111\"", [false; 5]),
    ("\"{11111111-1111-4111-8111-111111111111}\"", [false; 5]),
    (
        "\"2024-02-29T23:59:59.123456789+14:00\"",
        [false, true, false, false, false],
    ),
    ("\"2023-02-29T00:00:00Z\"", [false; 5]),
    ("\"2024-01-01\"", [false; 5]),
    ("\"P1Y2M3W4DT5H6M7S\"", [false, false, true, false, false]),
    ("\"PT1.5S\"", [false, false, true, false, false]),
    ("\"PT\"", [false; 5]),
    ("\"1.0.3\"", [false, false, false, true, false]),
    ("\"1.0\"", [false; 5]),
    ("\"1.1.0\"", [false; 5]),
    ("[]", [false, false, false, false, true]),
    ("[\"1.0.3\",\"\"]", [false, false, false, false, true]),
    ("[\"x\",5]", [false; 5]),
];

fn shapes_of(tree: &Tree) -> [bool; 5] {
    [
        is_uuid(tree),
        is_timestamp(tree),
        is_duration(tree),
        is_version(tree),
        is_string_array(tree),
    ]
}

#[test]
fn texts_are_known_by_their_form(rt: HostRuntime) -> Result<(), Fail> {
    let alloc = rt.alloc();
    for (i, (text, shapes)) in SHAPES.iter().enumerate() {
        if shapes_of(&read(alloc, text.as_bytes())?) != *shapes {
            return wrong_row(i);
        }
    }
    Ok(())
}

// Objects, and the rule that their extensions break: only their names have to be IRIs.
const EXTENSIONS: [(&str, Option<u8>); 6] = [
    ("{}", None),
    ("{\"extensions\":[]}", None),
    ("{\"extensions\":{}}", None),
    (
        "{\"extensions\":{\"http://e/1\":null,\"a:b\":{\"x\":null}}}",
        None,
    ),
    ("{\"extensions\":{\"http://e/1\":1,\"e\":1}}", Some(6)),
    ("{\"extensions\":{\"\":1}}", Some(6)),
];

#[test]
fn extensions_are_named_by_iris(rt: HostRuntime) -> Result<(), Fail> {
    let alloc = rt.alloc();
    for (i, (text, rule)) in EXTENSIONS.iter().enumerate() {
        if broken_extensions_of(&read(alloc, text.as_bytes())?) != *rule {
            return wrong_row(i);
        }
    }
    Ok(())
}
