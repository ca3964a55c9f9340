// Reads each text of each kind's table, and compares what came of it with what the table says.
// A line of the table is `name | text | result`; in the text `\n`, `\r` and `\t` are the bytes of those
// names, `\xHH` is any byte, and `\{N piece\}` is the piece N times.
#![tactic(auto)]

mod notation;

use anyhow::Context;
use approvals::Approvals;
use holder::Holder;
use kinds::Spelling;
use notation::expand;
use plans::{Plan, ReadError};
use std::alloc::{AllocError, Global};
use std::fs;
use std::rt::Files;
use tally::Tally;

// What came of a text, as the table writes it.
fn result_of<K: Spelling>(heap: Global, text: &[u8]) -> Result<String, AllocError> {
    let mut plan: Plan<K> = Plan::new(heap);
    match plan.read(heap, text) {
        Ok(()) => {
            let points = plan.point_count();
            let edges = plan.edge_count();
            format!(in heap; "points {points} edges {edges}")
        }
        Err(ReadError::Refused(refusal)) => format!(in heap; "{refusal}"),
        Err(ReadError::Memory) => String::from_str(heap, "no memory"),
    }
}

// Prints what came of a text; whether it is what the table says.
fn report(rt: &impl Print, name: &str, outcome: &str, expected: &str) -> anyhow::Result<bool> {
    println!(rt; "{name}: {outcome}")?;
    if outcome == expected {
        return Ok(true);
    }
    println!(rt; "WRONG, should be {expected}")?;
    Ok(false)
}

// Tries one line of the table; whether it holds.
fn try_line<K: Spelling>(rt: &(impl Print + AllocGlobal), line: &str) -> anyhow::Result<bool> {
    let (name, rest) = line
        .split_once(" | ")
        .context("a line of the table has no name")?;
    let (text, expected) = rest
        .split_once(" | ")
        .context("a line of the table has no result")?;
    let heap = rt.alloc();
    let bytes = expand(heap, text.as_bytes())?;
    let result = result_of::<K>(heap, bytes.as_slice())?;
    report(rt, name, result.as_str(), expected)
}

fn try_table<K: Spelling>(
    rt: &(impl Print + Files + AllocGlobal),
    path: &str,
) -> anyhow::Result<()> {
    let table = fs::read_to_string(rt, path)?;
    // two counts and an early end by `?`: `try_fold` would be no plainer
    let mut tried: u32 = 0;
    let mut wrong: u32 = 0;
    for line in table.as_str().lines() {
        if line.is_empty() || line.starts_with('#') {
            continue;
        }
        tried = tried.saturating_add(1);
        if !try_line::<K>(rt, line)? {
            wrong = wrong.saturating_add(1);
        }
    }
    println!(rt; "{path}: {tried} texts, {wrong} wrong")?;
    Ok(())
}

fn run(rt: &(impl Print + Files + AllocGlobal)) -> anyhow::Result<()> {
    try_table::<Tally>(rt, "tally.table")?;
    try_table::<Holder>(rt, "holder.table")?;
    try_table::<Approvals>(rt, "approvals.table")
}

fn main(rt: HostRuntime) -> anyhow::Result<()> {
    run(&rt)
}
