// What two texts make, put together.
use crate::failing::wrong_row;
use std::alloc::Global;
use std::test::Fail;
use xapi_docs::{MergeRefused, merge};

// The old text, the new one, and what they make; an empty text where one of them is no object.
const MERGED: [(&str, &str, &str); 17] = [
    // the order is kept, and new members come last
    (
        r#"{"a":1,"b":2}"#,
        r#"{"c":3,"a":0.0}"#,
        r#"{"a":0.0,"b":2,"c":3}"#,
    ),
    (
        r#"{"a":1,"b":2,"c":3}"#,
        r#"{"b":9}"#,
        r#"{"a":1,"b":9,"c":3}"#,
    ),
    (r#"{"a":1}"#, r#"{"z":1,"y":2}"#, r#"{"a":1,"z":1,"y":2}"#),
    // a value is replaced whole
    (
        r#"{"a":{"x":1,"y":2}}"#,
        r#"{"a":{"x":3}}"#,
        r#"{"a":{"x":3}}"#,
    ),
    (r#"{"a":[1,2]}"#, r#"{"a":null}"#, r#"{"a":null}"#),
    // numbers keep their spelling, and white space goes
    (
        r#"{"n":1.50,"m":1e2}"#,
        r#"{ "k" : -0 }"#,
        r#"{"n":1.50,"m":1e2,"k":-0}"#,
    ),
    // names are compared as they decode
    (r#"{"\u0061":1}"#, r#"{"a":2}"#, r#"{"a":2}"#),
    (r#"{"a":1}"#, r#"{"A":2}"#, r#"{"a":1,"A":2}"#),
    ("{}", "{}", "{}"),
    ("{}", r#"{"a":1}"#, r#"{"a":1}"#),
    (r#"{"a":1}"#, "{}", r#"{"a":1}"#),
    // no objects
    ("", r#"{"a":1}"#, ""),
    (r#"{"a":1}"#, "", ""),
    (r#"{"a":1}"#, "[]", ""),
    ("1", r#"{"a":1}"#, ""),
    (r#"{"a":1}"#, r#"{"a":1,"a":2}"#, ""),
    (r#"{"a":1}"#, r#"{"a":1e1000}"#, ""),
];

fn is_merged(alloc: Global, old: &str, new: &str, expected: &str) -> Result<bool, Fail> {
    match merge(alloc, old.as_bytes(), new.as_bytes()) {
        Ok(bytes) => Ok(bytes.as_slice() == expected.as_bytes()),
        Err(MergeRefused::NotObjects) => Ok(expected.is_empty()),
        Err(MergeRefused::Memory) => Err(Fail::from("no memory")),
    }
}

#[test]
fn merges(rt: HostRuntime) -> Result<(), Fail> {
    let alloc = rt.alloc();
    for (i, (old, new, expected)) in MERGED.iter().enumerate() {
        if !is_merged(alloc, old, new, expected)? {
            return wrong_row(i);
        }
    }
    Ok(())
}

// Bytes that aren't UTF-8 are no object.
#[test]
fn refuses_other_bytes(rt: HostRuntime) -> Result<(), Fail> {
    let merged = merge(
        rt.alloc(),
        b"{}",
        &[b'{', b'"', 0xff, b'"', b':', b'1', b'}'],
    );
    assert!(rt; matches!(&merged, Err(MergeRefused::NotObjects)));
    Ok(())
}

// What was merged is merged again, and the order is kept.
#[test]
fn merges_again(rt: HostRuntime) -> Result<(), Fail> {
    let first = merge(rt.alloc(), br#"{"a":1}"#, br#"{"b":2}"#);
    let Ok(first) = first else {
        return Err(Fail::from("not merged"));
    };
    let second = merge(rt.alloc(), first.as_slice(), br#"{"c":3,"a":4}"#);
    let Ok(second) = second else {
        return Err(Fail::from("not merged again"));
    };
    assert!(rt; second.as_slice() == br#"{"a":4,"b":2,"c":3}"#.as_slice());
    Ok(())
}

// An object that has arrays in one another, so many.
fn nested(alloc: Global, arrays: usize) -> Result<Vec<u8>, Fail> {
    let mut text = Vec::new(alloc);
    text.extend_from_slice(br#"{"a":"#)?;
    for _ in 0..arrays {
        text.push(b'[')?;
    }
    for _ in 0..arrays {
        text.push(b']')?;
    }
    text.push(b'}')?;
    Ok(text)
}

// An object nests 64 deep at most, the object itself counted.
#[test]
fn merges_up_to_the_depth(rt: HostRuntime) -> Result<(), Fail> {
    let deep = nested(rt.alloc(), 63)?;
    let merged = merge(rt.alloc(), b"{}", deep.as_slice());
    assert!(rt; matches!(&merged, Ok(bytes) if bytes.as_slice() == deep.as_slice()));
    Ok(())
}

#[test]
fn merges_no_deeper_object(rt: HostRuntime) -> Result<(), Fail> {
    let deeper = nested(rt.alloc(), 64)?;
    let refused = merge(rt.alloc(), b"{}", deeper.as_slice());
    assert!(rt; matches!(&refused, Err(MergeRefused::NotObjects)));
    Ok(())
}
