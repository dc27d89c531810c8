// How many units a course may have, and how deep its nodes may be.
use crate::course::rules::rule_of;
use crate::failing::wrong_row;
use std::alloc::Global;
use std::test::Fail;

// Adds the units of these numbers.
fn push_units(alloc: Global, text: &mut String, from: u32, end: u32) -> Result<(), Fail> {
    for i in from..end {
        let comma = if i > from { "," } else { "" };
        let unit = format!(in alloc;
            "{comma}{{\"kind\":\"unit\",\"id\":\"http://c/{i}\",\"title\":{{\"en\":\"U\"}},\"url\":\"http://a/u\"}}"
        )?;
        text.push_str(unit.as_str())?;
    }
    Ok(())
}

// A course of so many units.
fn wide(alloc: Global, units: u32) -> Result<String, Fail> {
    let mut text = String::from_str(
        alloc,
        "{\"id\":\"http://c/c\",\"title\":{\"en\":\"C\"},\"children\":[",
    )?;
    push_units(alloc, &mut text, 0, units)?;
    text.push_str("]}")?;
    Ok(text)
}

// Adds a block of the units of these numbers, behind what stands before it.
fn push_block(alloc: Global, text: &mut String, from: u32, end: u32) -> Result<(), Fail> {
    let comma = if from > 0 { "," } else { "" };
    let block = format!(in alloc;
        "{comma}{{\"kind\":\"block\",\"id\":\"http://c/b{from}\",\"title\":{{\"en\":\"B\"}},\"children\":["
    )?;
    text.push_str(block.as_str())?;
    push_units(alloc, text, from, end)?;
    text.push_str("]}")?;
    Ok(())
}

// A course of so many units: each block has those up to its end that none before it has, and the others stand beside
// the blocks. There is a block, and none is empty.
fn spread(alloc: Global, ends: &[u32], units: u32) -> Result<String, Fail> {
    let mut text = String::from_str(
        alloc,
        "{\"id\":\"http://c/c\",\"title\":{\"en\":\"C\"},\"children\":[",
    )?;
    let mut from = 0;
    for end in ends {
        push_block(alloc, &mut text, from, *end)?;
        from = *end;
    }
    if from < units {
        text.push_str(",")?;
    }
    push_units(alloc, &mut text, from, units)?;
    text.push_str("]}")?;
    Ok(text)
}

// A course with one unit so deep.
fn deep(alloc: Global, depth: u32) -> Result<String, Fail> {
    let mut text = String::from_str(
        alloc,
        "{\"id\":\"http://c/c\",\"title\":{\"en\":\"C\"},\"children\":[",
    )?;
    let mut end = String::from_str(alloc, "]}")?;
    for i in 1..depth {
        let block = format!(in alloc;
            "{{\"kind\":\"block\",\"id\":\"http://c/b{i}\",\"title\":{{\"en\":\"B\"}},\"children\":["
        )?;
        text.push_str(block.as_str())?;
        end.push_str("]}")?;
    }
    text.push_str(
        "{\"kind\":\"unit\",\"id\":\"http://c/u\",\"title\":{\"en\":\"U\"},\"url\":\"http://a/u\"}",
    )?;
    text.push_str(end.as_str())?;
    Ok(text)
}

fn wide_rule(alloc: Global, units: u32) -> Result<Option<u8>, Fail> {
    let text = wide(alloc, units)?;
    rule_of(alloc, text.as_str())
}

fn spread_rule(alloc: Global, ends: &[u32], units: u32) -> Result<Option<u8>, Fail> {
    let text = spread(alloc, ends, units)?;
    rule_of(alloc, text.as_str())
}

fn deep_rule(alloc: Global, depth: u32) -> Result<Option<u8>, Fail> {
    let text = deep(alloc, depth)?;
    rule_of(alloc, text.as_str())
}

#[test]
fn a_thousand_units_are_taken(rt: HostRuntime) -> Result<(), Fail> {
    assert!(rt; wide_rule(rt.alloc(), 1_000)?.is_none());
    Ok(())
}

#[test]
fn one_unit_more_breaks_the_last_rule(rt: HostRuntime) -> Result<(), Fail> {
    assert!(rt; wide_rule(rt.alloc(), 1_001)? == Some(12));
    Ok(())
}

// Where the blocks of a course end, the number of all its units, and the rule it breaks.
const SPREADS: [(&[u32], u32, Option<u8>); 7] = [
    (&[1], 1_000, None),
    (&[1_000], 1_000, None),
    (&[500, 1_000], 1_000, None),
    (&[300, 600], 1_000, None),
    (&[500, 1_001], 1_001, Some(12)),
    (&[1_000], 1_001, Some(12)),
    (&[1], 1_001, Some(12)),
];

#[test]
fn units_count_in_and_beside_blocks_and_blocks_do_not(rt: HostRuntime) -> Result<(), Fail> {
    let alloc = rt.alloc();
    for (i, (ends, units, wanted)) in SPREADS.iter().enumerate() {
        if spread_rule(alloc, ends, *units)? != *wanted {
            return wrong_row(i);
        }
    }
    Ok(())
}

#[test]
fn nodes_of_depth_sixteen_are_taken(rt: HostRuntime) -> Result<(), Fail> {
    assert!(rt; deep_rule(rt.alloc(), 16)?.is_none());
    Ok(())
}

#[test]
fn a_deeper_node_breaks_the_last_rule(rt: HostRuntime) -> Result<(), Fail> {
    assert!(rt; deep_rule(rt.alloc(), 17)? == Some(12));
    Ok(())
}
