// Reads a plan on standard input and prints its listing, or how the text is refused.
#![tactic(auto)]

use anyhow::anyhow;
use approvals::Approvals;
use holder::Holder;
use kinds::Spelling;
use lines::names_kind;
use plans::{MOST_BYTES, Plan, ReadError};
use std::io;
use std::io::Read;
use tally::Tally;

// At most one byte more than a plan text may have, so that a longer one is told by its length.
fn input(rt: &HostRuntime) -> io::Result<Vec<u8>> {
    let mut text = Vec::new(rt.alloc());
    let _ = rt
        .stdin()
        .take(MOST_BYTES as u64 + 1)
        .read_to_end(&mut text)?;
    Ok(text)
}

// The calls are those of any program that reads a plan; what is printed is this one's own.
fn list<K: Spelling>(rt: &(impl Print + AllocGlobal), text: &[u8]) -> anyhow::Result<()> {
    let heap = rt.alloc();
    let mut plan: Plan<K> = Plan::new(heap);
    match plan.read(heap, text) {
        Ok(()) => {
            let points = plan.point_count();
            let edges = plan.edge_count();
            println!(rt; "points {points}")?;
            println!(rt; "edges {edges}")?;
            Ok(())
        }
        Err(ReadError::Refused(refusal)) => Ok(rt.println(refusal)?),
        Err(ReadError::Memory) => Err(anyhow!("no memory for the plan")),
    }
}

// Each kind is a type argument; a table of functions or a `dyn` over kinds would be no plainer.
fn run(rt: &HostRuntime) -> anyhow::Result<()> {
    let text = input(rt)?;
    let text = text.as_slice();
    if names_kind::<Holder>(text) {
        list::<Holder>(rt, text)
    } else if names_kind::<Approvals>(text) {
        list::<Approvals>(rt, text)
    } else {
        list::<Tally>(rt, text)
    }
}

fn main(rt: HostRuntime) -> anyhow::Result<()> {
    run(&rt)
}
