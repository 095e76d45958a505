//! Prints what the readers of documents make of the cases in its data: a word for each file, which
//! names its subject. What is to be printed stands in `stdout`.
#![tactic(auto)]

mod cases;
mod escapes;
mod linkbases;
mod nodes;
mod numbers;
mod pivots;
mod reports;
mod runs;
mod schemas;
mod taxonomies;
mod trees;
mod walks;

use cases::Part;
use std::alloc::{AllocError, Global};
use std::{env, fs, io};

fn main(rt: HostRuntime) -> io::Result<()> {
    for word in env::args(&rt)?.skip(1) {
        let file = fs::read_to_string(&rt, word.as_str())?;
        let parts = cases::parts(rt.alloc(), file.as_str())?;
        let shown = show(rt.alloc(), word.as_str(), parts.as_slice())?;
        rt.print(shown.as_str())?;
    }
    Ok(())
}

// What the readers of a subject make of its cases.
fn show(alloc: Global, subject: &str, parts: &[Part]) -> Result<String, AllocError> {
    match subject {
        "trees" => trees::show(alloc, parts),
        "nodes" => nodes::show(alloc, parts),
        "schemas" => schemas::show(alloc, parts),
        "linkbases" => linkbases::show(alloc, parts),
        "reports" => reports::show(alloc, parts),
        "runs" => runs::show(alloc, parts),
        "pivots" => pivots::show(alloc, parts),
        "walks" => walks::show(alloc, parts),
        "numbers" => numbers::show(alloc, parts),
        _ => Ok(String::new(alloc)),
    }
}
