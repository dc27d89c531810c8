// The tests of lrs_generator.
use crate::failing::wrong_row;
use lrs_generator::{Generator, Memory};
use lrs_json::{Items, Tree, write};
use std::alloc::Global;
use std::test::Fail;

// Seeds, indices, and what is written of the statement there. The number of statement 9 of seed 7 is beyond 2^63.
const STATEMENTS: [(u64, usize, &str); 10] = [
    (
        7,
        0,
        "{\"id\":\"00000000-0000-4000-8000-000700000000\",\"actor\":{\"account\":{\"homePage\":\"https://l.invalid\",\"name\":\"u0\"}},\"verb\":{\"id\":\"http://v.invalid/0\"},\"object\":{\"id\":\"http://a.invalid/0\"}}",
    ),
    (
        7,
        1,
        "{\"id\":\"00000000-0000-4000-8000-000700000001\",\"actor\":{\"account\":{\"homePage\":\"https://l.invalid\",\"name\":\"u0\"}},\"verb\":{\"id\":\"http://v.invalid/3\"},\"object\":{\"id\":\"http://a.invalid/28\"}}",
    ),
    (
        7,
        2,
        "{\"id\":\"00000000-0000-4000-8000-000700000002\",\"actor\":{\"account\":{\"homePage\":\"https://l.invalid\",\"name\":\"u17\"}},\"verb\":{\"id\":\"http://v.invalid/4\"},\"object\":{\"id\":\"http://a.invalid/6\"}}",
    ),
    (
        7,
        9,
        "{\"id\":\"00000000-0000-4000-8000-000700000009\",\"actor\":{\"account\":{\"homePage\":\"https://l.invalid\",\"name\":\"u17\"}},\"verb\":{\"id\":\"http://v.invalid/4\"},\"object\":{\"objectType\":\"StatementRef\",\"id\":\"00000000-0000-4000-8000-000700000008\"}}",
    ),
    (
        7,
        49,
        "{\"id\":\"00000000-0000-4000-8000-000700000031\",\"actor\":{\"account\":{\"homePage\":\"https://l.invalid\",\"name\":\"u16\"}},\"verb\":{\"id\":\"http://adlnet.gov/expapi/verbs/voided\"},\"object\":{\"objectType\":\"StatementRef\",\"id\":\"00000000-0000-4000-8000-00070000002f\"}}",
    ),
    (
        7,
        99,
        "{\"id\":\"00000000-0000-4000-8000-000700000063\",\"actor\":{\"account\":{\"homePage\":\"https://l.invalid\",\"name\":\"u18\"}},\"verb\":{\"id\":\"http://adlnet.gov/expapi/verbs/voided\"},\"object\":{\"objectType\":\"StatementRef\",\"id\":\"00000000-0000-4000-8000-000700000061\"}}",
    ),
    (
        7,
        100,
        "{\"id\":\"00000000-0000-4000-8000-000700000064\",\"actor\":{\"account\":{\"homePage\":\"https://l.invalid\",\"name\":\"u15\"}},\"verb\":{\"id\":\"http://v.invalid/6\"},\"object\":{\"id\":\"http://a.invalid/46\"}}",
    ),
    (
        7,
        149,
        "{\"id\":\"00000000-0000-4000-8000-000700000095\",\"actor\":{\"account\":{\"homePage\":\"https://l.invalid\",\"name\":\"u11\"}},\"verb\":{\"id\":\"http://adlnet.gov/expapi/verbs/voided\"},\"object\":{\"objectType\":\"StatementRef\",\"id\":\"00000000-0000-4000-8000-000700000093\"}}",
    ),
    (
        18_446_744_073_709_551_615,
        0,
        "{\"id\":\"0000003f-ffff-4fff-bfff-ffff00000000\",\"actor\":{\"account\":{\"homePage\":\"https://l.invalid\",\"name\":\"u3\"}},\"verb\":{\"id\":\"http://v.invalid/1\"},\"object\":{\"id\":\"http://a.invalid/15\"}}",
    ),
    (
        18_446_744_073_709_551_615,
        149,
        "{\"id\":\"0000003f-ffff-4fff-bfff-ffff00000095\",\"actor\":{\"account\":{\"homePage\":\"https://l.invalid\",\"name\":\"u12\"}},\"verb\":{\"id\":\"http://adlnet.gov/expapi/verbs/voided\"},\"object\":{\"objectType\":\"StatementRef\",\"id\":\"0000003f-ffff-4fff-bfff-ffff00000093\"}}",
    ),
];

// The batch behind so many, of 150 statements.
fn batch_at(alloc: Global, seed: u64, skipped: usize) -> Result<Option<Items<Tree>>, Memory> {
    let mut generator = Generator::new(seed, 150);
    for _ in 0..skipped {
        let _skipped = generator.next_batch(alloc)?;
    }
    generator.next_batch(alloc)
}

fn is_written(alloc: Global, tree: &Tree, wanted: &str) -> Result<bool, Memory> {
    let mut bytes = Vec::new(alloc);
    write(tree, &mut bytes)?;
    Ok(bytes.as_slice() == wanted.as_bytes())
}

fn is_among(
    alloc: Global,
    batch: &Items<Tree>,
    index: usize,
    wanted: &str,
) -> Result<bool, Memory> {
    match batch.get(index) {
        Some(tree) => is_written(alloc, tree, wanted),
        None => Ok(false),
    }
}

fn is_made(alloc: Global, seed: u64, index: usize, wanted: &str) -> Result<bool, Memory> {
    match batch_at(alloc, seed, index / 100)? {
        Some(batch) => is_among(alloc, &batch, index % 100, wanted),
        None => Ok(false),
    }
}

#[test]
fn statements_are_those_of_their_seed(rt: HostRuntime) -> Result<(), Fail> {
    let alloc = rt.alloc();
    for (i, (seed, index, wanted)) in STATEMENTS.iter().enumerate() {
        if is_made(alloc, *seed, *index, wanted) != Ok(true) {
            return wrong_row(i);
        }
    }
    Ok(())
}

// How many statements are made, and how many of them are in each batch.
const LENGTHS: [(u32, &[usize]); 5] = [
    (0, &[]),
    (1, &[1]),
    (100, &[100]),
    (101, &[100, 1]),
    (250, &[100, 100, 50]),
];

// Whether the next batch has that length.
fn is_as_long(alloc: Global, generator: &mut Generator, wanted: usize) -> Result<bool, Memory> {
    match generator.next_batch(alloc)? {
        Some(batch) => Ok(batch.len() == wanted),
        None => Ok(false),
    }
}

fn has_lengths(alloc: Global, count: u32, lengths: &[usize]) -> Result<bool, Memory> {
    let mut generator = Generator::new(7, count);
    for length in lengths {
        if !is_as_long(alloc, &mut generator, *length)? {
            return Ok(false);
        }
    }
    let behind = generator.next_batch(alloc)?;
    Ok(behind.is_none())
}

#[test]
fn batches_have_a_hundred_but_the_last(rt: HostRuntime) -> Result<(), Fail> {
    let alloc = rt.alloc();
    for (i, (count, lengths)) in LENGTHS.iter().enumerate() {
        if has_lengths(alloc, *count, lengths) != Ok(true) {
            return wrong_row(i);
        }
    }
    Ok(())
}
