//! `xcalc`: checks whether the totals of a financial report agree with their contributors.
#![tactic(auto)]

use std::process::ExitCode;
use std::{env, io};
use xc_io::{FolderShelf, StreamSink};
use xc_top::{Status, run};

// The words after the program's name. Words that the runtime refuses, as one that is not UTF-8, are not accepted.
fn gather_words(rt: &HostRuntime) -> Result<Vec<String>, Status> {
    let all = match env::args(rt) {
        Ok(all) => all,
        Err(e) => {
            return match e.kind() {
                io::ErrorKind::OutOfMemory => Err(Status::Memory),
                _ => Err(Status::Usage),
            };
        }
    };
    match all.skip(1).collect(rt.alloc()) {
        Ok(words) => Ok(words),
        Err(_) => Err(Status::Memory),
    }
}

fn main(rt: HostRuntime) -> ExitCode {
    let status = match gather_words(&rt) {
        Ok(words) => {
            let mut shelf = FolderShelf::new(&rt, rt.alloc());
            let mut out = StreamSink::new(io::writer(&rt));
            run(rt.alloc(), &words, &mut shelf, &mut out)
        }
        Err(status) => status,
    };
    ExitCode::from(status.number())
}
